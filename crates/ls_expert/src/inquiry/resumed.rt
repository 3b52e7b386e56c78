// Inquiries that go on from answers.
ghost use Rattle.std.specs.Prelude.{◌≡◌, ◌<◌, ◌≤◌, true, Ok, IfOk, IfErr, OnOk};
ghost use Rattle.std.specs.List.{list_all};
ghost use Rattle.ls_set.specs.{is_good};
ghost use Rattle.ls_theory.specs.{compat, made, nos, yes_queries};
ghost use Rattle.ls_standing.specs.Starts.{start_of, IsStartOn};
ghost use Rattle.ls_infer.specs.Tables.{IsKeptFor};
ghost use Rattle.ls_standing.specs.Standing.{interview_on, IsStanding};
ghost use Rattle.ls_expert.specs.Held.{blocks_of, single_items};
ghost use Rattle.ls_expert.specs.Saved.{are_broken, can_fit, IsStandingFault, IsTableFault};

use crate::inquiry::{Inquiry, build};
use crate::standing_fault::StandingFault;
use ls_infer::Table;
use ls_interior::{Counted, Steps};
use ls_query::Blocks;
use ls_rules::Ruled;
use ls_set::PLACES;
use ls_standing::{OnItems, Start, can_stand, each_no_broken, with_rules, yes_queries};
use ls_theory::Answer;
use std::alloc::{AllocError, Global};
use std::sync::ledger::Ledger;

// The sets that meet the start, with the Yes answers as rules.
fn family_with(
    alloc: Global,
    n: u32,
    start: Start,
    answers: &[Answer],
) -> Result<Ruled<OnItems>, AllocError>
    requires few { n ≤ PLACES }
    requires start { IsStartOn n start }
    requires good { list_all (λ a. is_good n a.query) answers.now ≡ true }
    ensures inner { IfOk result (λ f.
        f.inner ≡ record { item_count = n; start = start_of start }) }
    ensures rules { IfOk result (λ f. f.rules ≡ yes_queries answers.now) }
{
    let yeses = yes_queries(alloc, answers)?;
    with_rules(alloc, OnItems::new(n, start), &yeses)
}

// The table of a family for the answers, where some space fits them.
fn table_with<L: Ledger>(
    alloc: Global,
    family: &Ruled<OnItems>,
    answers: &[Answer],
    steps: &mut Steps<L>,
) -> Result<Table, StandingFault>
    requires some { 0 < family.now.inner.item_count }
    requires few { family.now.inner.item_count ≤ PLACES }
    requires rules { list_all (is_good family.now.inner.item_count) family.now.rules ≡ true }
    requires good { list_all (λ a. is_good family.now.inner.item_count a.query) answers.now
        ≡ true }
    ensures broken { OnOk result (are_broken family.now answers.now ≡ true) }
    ensures table { let n = family.now.inner.item_count in
        IfOk result (IsKeptFor (single_items n)
        (compat n family.now.inner.start family.now.rules) (nos answers.now)) }
    ensures fault { IfErr result (IsTableFault (are_broken family.now answers.now)) }
{
    if !each_no_broken(&Counted::new(family), answers, steps) {
        return Err(StandingFault::BadAnswers);
    }
    Ok(build(alloc, family, answers, steps)?)
}

// The sets of the start and their table, for answers that stand where some space fits them.
fn parts_with<L: Ledger>(
    alloc: Global,
    n: u32,
    start: Start,
    answers: &[Answer],
    steps: &mut Steps<L>,
) -> Result<(Ruled<OnItems>, Table), StandingFault>
    requires some { 0 < n }
    requires few { n ≤ PLACES }
    requires start { IsStartOn n start }
    requires good { list_all (λ a. is_good n a.query) answers.now ≡ true }
    ensures inner { IfOk result (λ p.
        p.0.inner ≡ record { item_count = n; start = start_of start }) }
    ensures rules { IfOk result (λ p. p.0.rules ≡ yes_queries answers.now) }
    ensures table { IfOk result (λ p. IsKeptFor (single_items n)
        (compat n (start_of start) (yes_queries answers.now)) (nos answers.now) p.1) }
    ensures fits { OnOk result (can_fit n (start_of start) answers.now ≡ true) }
    ensures fault { IfErr result (IsTableFault (can_fit n (start_of start) answers.now)) }
{
    let family = family_with(alloc, n, start, answers)?;
    let table = table_with(alloc, &family, answers, steps)?;
    Ok((family, table))
}

impl Inquiry {
    /// The inquiry on `n` items that began with the start and goes on from answers that stand, as
    /// from saved ones: `next` is the number of the next, and queries of sets of 1 to `k` items are
    /// asked. Blocks that cannot be made are refused first.
    pub fn from_standing<L: Ledger>(
        alloc: Global,
        n: u32,
        start: Start,
        k: u32,
        next: u64,
        answers: &[Answer],
        steps: &mut Steps<L>,
    ) -> Result<Inquiry, StandingFault>
        requires some { 0 < n }
        requires few { n ≤ PLACES }
        requires start { IsStartOn n start }
        ensures ok { IfOk result (λ i.
            i ≡ interview_on n (start_of start) k answers.now next) }
        ensures made { IfOk result (λ i. made n k ≡ Ok (blocks_of i)) }
        ensures standing { IfOk result (λ i. IsStanding i) }
        ensures fault { IfErr result
            (IsStandingFault (interview_on n (start_of start) k answers.now next)) }
    {
        let blocks = Blocks::new(n, k)?;
        if !can_stand(n, answers, next) {
            return Err(StandingFault::BadAnswers);
        }
        let copied = Vec::from_slice(alloc, answers)?;
        let (family, table) = parts_with(alloc, n, start, answers, steps)?;
        Ok(Inquiry {
            alloc,
            family,
            answers: copied,
            next,
            block: k,
            blocks,
            table,
            from: blocks.next_query(None),
            is_found: false,
        })
    }
}
