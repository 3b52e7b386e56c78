// What is wrong with clauses that are read.
ghost use Rattle.std.specs.Prelude.{◌≡◌, ◌<◌, ◌≤◌, true, length};
ghost use Rattle.ls_set.specs.{IsInOrder, most_items, numbers_from};
ghost use Rattle.ls_theory.specs.Clauses.{clauses_of, has_clause_within, first_some, no_clause};
ghost use Rattle.ls_theory.specs.Clauses.{lacking_in, unclosed_at, unclosed_in, comparable_at};
ghost use Rattle.ls_theory.specs.Clauses.{comparable_in, flaw, are_comparable};
ghost use Rattle.ls_clauses.specs.Surmise.{IsPutInOrder};
ghost use Rattle.ls_surmise.specs.Surmises.{AreApart};

use crate::search::has_within;
use ls_set::{ItemSet, PLACES, SetList};
use ls_theory::SurmiseFault;

// The clauses of an item, in their order.
fn clauses_of(clauses: &[SetList], q: u32) -> &[ItemSet]
    ensures { result.now ≡ clauses_of clauses.now q }
{
    match clauses.get(q as usize) {
        Some(own) => own.as_slice(),
        None => &[],
    }
}

// ---- an item without a clause

fn no_clause(n: u32, clauses: &[SetList]) -> Option<SurmiseFault>
    ensures { result ≡ no_clause n clauses.now }
{
    for q in 0..n {
        if clauses_of(clauses, q).is_empty() {
            return Some(SurmiseFault::NoClause { q });
        }
    }
    None
}

// ---- a clause without its item

fn lacking_in(clauses: &[SetList], q: u32) -> Option<SurmiseFault>
    requires { q < most_items }
    ensures { result ≡ lacking_in clauses.now q }
{
    let own = clauses_of(clauses, q);
    for j in 0..own.len() {
        if !own[j].has(q) {
            return Some(SurmiseFault::Reflexive { q, clause: j + 1 });
        }
    }
    None
}

fn lacking(n: u32, clauses: &[SetList]) -> Option<SurmiseFault>
    requires { n ≤ PLACES }
    ensures { result ≡ first_some (lacking_in clauses.now) (numbers_from 0 n) }
{
    for q in 0..n {
        let found = lacking_in(clauses, q);
        if found.is_some() {
            return found;
        }
    }
    None
}

// ---- a clause with an item of which no clause lies within it

fn has_clause_within(clauses: &[SetList], ordered: &[SetList], r: u32, set: ItemSet) -> bool
    requires { IsPutInOrder clauses.now ordered.now }
    ensures { result ≡ has_clause_within clauses.now r set }
{
    has_within(clauses_of(ordered, r), set)
}

fn unclosed_at(clauses: &[SetList], ordered: &[SetList], q: u32, j: usize) -> Option<SurmiseFault>
    requires place { j < length (clauses_of clauses.now q) }
    requires in_order { IsPutInOrder clauses.now ordered.now }
    ensures { result ≡ unclosed_at clauses.now q j }
{
    let c = clauses_of(clauses, q)[j];
    for r in c.items() {
        if !has_clause_within(clauses, ordered, r, c) {
            return Some(SurmiseFault::NotClosed {
                q,
                clause: j + 1,
                r,
            });
        }
    }
    None
}

fn unclosed_in(clauses: &[SetList], ordered: &[SetList], q: u32) -> Option<SurmiseFault>
    requires { IsPutInOrder clauses.now ordered.now }
    ensures { result ≡ unclosed_in clauses.now q }
{
    for j in 0..clauses_of(clauses, q).len() {
        let found = unclosed_at(clauses, ordered, q, j);
        if found.is_some() {
            return found;
        }
    }
    None
}

fn unclosed(n: u32, clauses: &[SetList], ordered: &[SetList]) -> Option<SurmiseFault>
    requires { IsPutInOrder clauses.now ordered.now }
    ensures { result ≡ first_some (unclosed_in clauses.now) (numbers_from 0 n) }
{
    for q in 0..n {
        let found = unclosed_in(clauses, ordered, q);
        if found.is_some() {
            return found;
        }
    }
    None
}

// ---- two clauses of an item, one of which lies within the other

fn are_comparable(c: ItemSet, d: ItemSet) -> bool
    ensures { result ≡ are_comparable c d }
{
    c.is_within(d) || d.is_within(c)
}

fn comparable_at(clauses: &[SetList], q: u32, i: usize) -> Option<SurmiseFault>
    requires { i < length (clauses_of clauses.now q) }
    ensures { result ≡ comparable_at clauses.now q i }
{
    let own = clauses_of(clauses, q);
    let c = own[i];
    for j in i + 1..own.len() {
        if are_comparable(c, own[j]) {
            return Some(SurmiseFault::Comparable {
                q,
                first: i + 1,
                second: j + 1,
            });
        }
    }
    None
}

fn first_comparable(clauses: &[SetList], q: u32) -> Option<SurmiseFault>
    ensures { result ≡ comparable_in clauses.now q }
{
    for i in 0..clauses_of(clauses, q).len() {
        let found = comparable_at(clauses, q, i);
        if found.is_some() {
            return found;
        }
    }
    None
}

// Whether no set lies within an earlier one. By the order none lies within a later one then.
fn are_apart(sets: &[ItemSet]) -> bool
    requires { IsInOrder sets.now }
    ensures { result ≡ true → AreApart sets.now }
{
    for i in 0..sets.len() {
        if has_within(&sets[i + 1..], sets[i]) {
            return false;
        }
    }
    true
}

// The clauses are looked at in pairs only where some are comparable, or one is repeated.
fn comparable_in(clauses: &[SetList], ordered: &[SetList], q: u32) -> Option<SurmiseFault>
    requires { IsPutInOrder clauses.now ordered.now }
    ensures { result ≡ comparable_in clauses.now q }
{
    let sets = clauses_of(ordered, q);
    if sets.len() == clauses_of(clauses, q).len() && are_apart(sets) {
        return None;
    }
    first_comparable(clauses, q)
}

fn comparable(n: u32, clauses: &[SetList], ordered: &[SetList]) -> Option<SurmiseFault>
    requires { IsPutInOrder clauses.now ordered.now }
    ensures { result ≡ first_some (comparable_in clauses.now) (numbers_from 0 n) }
{
    for q in 0..n {
        let found = comparable_in(clauses, ordered, q);
        if found.is_some() {
            return found;
        }
    }
    None
}

/// The first flaw of the clauses of `n` items, if they have one. The clauses of each item are given
/// in the order of sets too.
#[tactic(auto, unfolding(ls_theory::specs::Clauses::flaw))]
pub(crate) fn flaw(n: u32, clauses: &[SetList], ordered: &[SetList]) -> Option<SurmiseFault>
    requires few { n ≤ PLACES }
    requires in_order { IsPutInOrder clauses.now ordered.now }
    ensures { result ≡ flaw n clauses.now }
{
    let found = no_clause(n, clauses);
    if found.is_some() {
        return found;
    }
    let found = lacking(n, clauses);
    if found.is_some() {
        return found;
    }
    let found = unclosed(n, clauses, ordered);
    if found.is_some() {
        return found;
    }
    comparable(n, clauses, ordered)
}
