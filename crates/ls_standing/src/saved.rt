// Answers from which an interview goes on.
ghost use Rattle.std.specs.Prelude.{◌≡◌, ◌<◌, ◌≤◌, ℕ, true, nat_lt, map, IfOk};
ghost use Rattle.std.specs.Bool.{Decides};
ghost use Rattle.std.specs.List.{list_all, list_any, IsDistinct};
ghost use Rattle.std.specs.List.Sorted.{IsStrictlyIncreasing};
ghost use Rattle.ls_set.specs.{is_good};
ghost use Rattle.ls_theory.specs.{Start, is_same_query, no_queries, some_breaks};
ghost use Rattle.ls_laws.specs.Forced.{IsSound};
ghost use Rattle.ls_standing.specs.Standing.{interview_on, IsStanding};

use crate::on_items::OnItems;
use ls_interior::{Interior, Steps};
use ls_rules::Ruled;
use ls_set::{ItemSet, PLACES, Query};
use ls_theory::Answer;
use std::alloc::{AllocError, Global};
use std::sync::ledger::Ledger;

/// The most answers that stand.
pub const MOST_ANSWERS: usize = 8192;

/// The greatest number of an answer.
pub const MOST_NUMBER: u64 = 999_999_999;

// Whether the queries are good.
fn are_good(n: u32, answers: &[Answer]) -> bool
    requires { n ≤ PLACES }
    ensures { result ≡ list_all (λ a. is_good n a.query) answers.now }
{
    answers.iter().all(|a| a.query.is_good(n))
}

// Whether each number is above the one before it, and all are below the next.
fn are_numbered(answers: &[Answer], next: u64) -> bool
    ensures { Decides result (IsStrictlyIncreasing (map (λ a. a.number) answers.now)
        × (list_all (λ a. nat_lt a.number next) answers.now ≡ true)) }
{
    let mut least = 0;
    for answer in answers {
        if answer.number < least || answer.number >= next {
            return false;
        }
        least = answer.number + 1;
    }
    true
}

// Whether one of the answers is to the query.
#[tactic(auto, unfolding(ls_set::specs::ItemSet::is_same))]
fn has_answer(query: &Query, answers: &[Answer]) -> bool
    ensures { result ≡ list_any (λ a. is_same_query query.now a.query) answers.now }
{
    answers.iter().any(|a| *query == a.query)
}

// Whether no query was answered twice.
fn are_distinct(answers: &[Answer]) -> bool
    ensures { Decides result (IsDistinct is_same_query (map (λ a. a.query) answers.now)) }
{
    for (place, answer) in answers.iter().enumerate() {
        if has_answer(&answer.query, &answers[place + 1..]) {
            return false;
        }
    }
    true
}

/// Whether the answers stand on `n` items before the next number, where some space fits them.
pub fn can_stand(n: u32, answers: &[Answer], next: u64) -> bool
    requires { n ≤ PLACES }
    ensures good { result ≡ true → list_all (λ a. is_good n a.query) answers.now ≡ true }
    ensures enough { (start : Start) (k : ℕ) →
        let i = interview_on n start k answers.now next in
        result ≡ true → IsSound i → IsStanding i }
    ensures needed { (start : Start) (k : ℕ) →
        let i = interview_on n start k answers.now next in
        IsStanding i → result ≡ true }
{
    answers.len() <= MOST_ANSWERS
        && next > 0
        && next <= MOST_NUMBER + 1
        && are_numbered(answers, next)
        && are_good(n, answers)
        && are_distinct(answers)
}

/// The sets that meet the start, with the queries as rules.
pub fn with_rules(
    alloc: Global,
    first: OnItems,
    rules: &[Query],
) -> Result<Ruled<OnItems>, AllocError>
    requires { list_all (is_good first.item_count) rules.now ≡ true }
    ensures inner { IfOk result (λ f. f.inner ≡ first) }
    ensures rules { IfOk result (λ f. f.rules ≡ rules.now) }
{
    let mut family = Ruled::new(alloc, first);
    for rule in rules {
        family.reserve()?;
        family.push_reserved(*rule);
    }
    Ok(family)
}

/// Whether some member breaks the good query: whether the greatest that has no item of its A has
/// its q, in one step.
pub fn is_broken<I: Interior, L: Ledger>(f: &I, query: &Query, steps: &mut Steps<L>) -> bool
    requires { is_good (I.item_count f.now) query.now ≡ true }
    ensures { result ≡ some_breaks (I.members f.now) query.now }
{
    let apart = ItemSet::full(f.items()).minus(query.a);
    f.interior(apart, steps).has(query.q)
}

/// Whether some member breaks each query that was answered No, in a step for each of them at most.
pub fn each_no_broken<I: Interior, L: Ledger>(
    f: &I,
    answers: &[Answer],
    steps: &mut Steps<L>,
) -> bool
    requires { list_all (λ a. is_good (I.item_count f.now) a.query) answers.now ≡ true }
    ensures { result ≡ list_all (some_breaks (I.members f.now)) (no_queries answers.now) }
{
    for answer in answers {
        if !answer.yes && !is_broken(f, &answer.query, steps) {
            return false;
        }
    }
    true
}
