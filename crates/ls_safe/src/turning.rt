// A turn of a safe interview: the new answer is tried alone, and where it changes the family, the
// answers that wait are tried again.
ghost use Rattle.std.specs.Prelude.{◌≡◌, ◌<◌, ◌^◌, ◌++◌, ◌∷◌, [], true, cond, is_ok, length};
ghost use Rattle.std.specs.Prelude.{IfOk, IfErr, OnOk, OnErr};
ghost use Rattle.std.specs.List.{list_all};
ghost use Rattle.ls_set.specs.ItemSet.{full};
ghost use Rattle.ls_set.specs.Query.{is_good};
ghost use Rattle.ls_theory.specs.Verdict.{is_learning_space};
ghost use Rattle.ls_base.specs.Bases.{IsBase, family};
ghost use Rattle.ls_origins.specs.Safe.{all_tried, coming};
ghost use Rattle.ls_safe.specs.Turns.{unmarked};
ghost use Rattle.ls_safe.specs.Interviews.{AreWitnesses, IsBegun, IsEnd, IsSafeFaultOf, IsPassOf};
ghost use Rattle.ls_safe.specs.Interviews.{past_fault, marks_of, queries_of};

use crate::trying::{Tried, is_over, try_query};
use ls_base::Base;
use ls_origins::{SafeAnswer, SafeFault};
use ls_set::{ItemSet, Query};
use std::alloc::{AllocError, Global};

// A pass from the front over the answers that wait. The first one that is applied and changes the
// family ends it, and there is the base of what is left. Those that leave the family as it is are
// marked on the way, and those that go on waiting get a witness.
fn pass(
    b: &Base,
    answers: &mut Vec<SafeAnswer>,
    witnesses: &mut Vec<ItemSet>,
) -> Result<Option<Base>, SafeFault>
    requires learning { is_learning_space (full b.now.item_count) (family b.now) ≡ true }
    requires good { list_all (is_good b.now.item_count) (queries_of answers.old.items) ≡ true }
    requires witnesses { AreWitnesses b.now.item_count (family b.now)
        answers.old.items witnesses.old.items }
    ensures passed { IfOk result
        (IsPassOf b.now answers.old.items answers.new.items witnesses.new.items) }
    ensures past { IfErr result (IsSafeFaultOf (past_fault
        (all_tried b.now.item_count (unmarked (marks_of b.now answers.old.items))))) }
{
    for place in 0..answers.len() {
        let answer = answers[place];
        if !is_over(b, &answer, witnesses[place]) {
            match try_query(b, &answer.query)? {
                Tried::Waits(witness) => witnesses[place] = witness,
                Tried::Same => answers[place].applied = true,
                Tried::Left(next) => {
                    answers[place].applied = true;
                    return Ok(Some(next));
                }
            }
        }
    }
    Ok(None)
}

// Passes, until one leaves the family as it is: the base of the family that remains.
fn settle(
    b: Base,
    answers: &mut Vec<SafeAnswer>,
    witnesses: &mut Vec<ItemSet>,
) -> Result<Base, SafeFault>
    requires learning { is_learning_space (full b.item_count) (family b) ≡ true }
    requires good { list_all (is_good b.item_count) (queries_of answers.old.items) ≡ true }
    requires witnesses { AreWitnesses b.item_count (family b)
        answers.old.items witnesses.old.items }
    ensures settled { IfOk result (λ t.
        IsEnd b answers.old.items t answers.new.items witnesses.new.items) }
    ensures past { IfErr result (IsSafeFaultOf (past_fault
        (all_tried b.item_count (unmarked (marks_of b answers.old.items))))) }
{
    let mut settled = b;
    while let Some(next) = pass(&settled, answers, witnesses)? {
        settled = next;
    }
    Ok(settled)
}

// Puts an answer behind the others, with its witness. After an error nothing has changed.
fn put(
    answers: &mut Vec<SafeAnswer>,
    witnesses: &mut Vec<ItemSet>,
    answer: SafeAnswer,
    witness: ItemSet,
) -> Result<(), AllocError>
    ensures answers { answers.new.items
        ≡ cond (is_ok result) (answers.old.items ++ answer ∷ []) answers.old.items }
    ensures witnesses { witnesses.new.items
        ≡ cond (is_ok result) (witnesses.old.items ++ witness ∷ []) witnesses.old.items }
{
    answers.try_reserve(1)?;
    witnesses.push(witness)?;
    answers.push(answer)?;
    Ok(())
}

/// A turn: the answer Yes to the query is put behind the others and tried alone. Where it is
/// applied and changes the family, each answer that waits and can be applied then is, the first
/// before the others. After an error nothing has changed.
pub fn turn(
    alloc: Global,
    b: &mut Base,
    answers: &mut Vec<SafeAnswer>,
    witnesses: &mut Vec<ItemSet>,
    q: Query,
) -> Result<(), SafeFault>
    requires begun { IsBegun b.old answers.old.items witnesses.old.items q }
    requires few { length answers.old.items < 2 ^ 63 }
    ensures turned { OnOk result (IsEnd b.old (answers.old.items ++ coming answers.old.items q ∷ [])
        b.new answers.new.items witnesses.new.items) }
    ensures past { IfErr result (IsSafeFaultOf (past_fault (all_tried b.old.item_count
        (unmarked (marks_of b.old (answers.old.items ++ coming answers.old.items q ∷ [])))))) }
    ensures is_base { OnOk result (IsBase b.new) }
    ensures base { OnErr result (b.new ≡ b.old) }
    ensures answers { OnErr result (answers.new.items ≡ answers.old.items) }
    ensures witnesses { OnErr result (witnesses.new.items ≡ witnesses.old.items) }
{
    let mut answer = SafeAnswer {
        number: answers.len() as u64 + 1,
        query: q,
        applied: false,
    };
    match try_query(b, &q)? {
        Tried::Waits(witness) => put(answers, witnesses, answer, witness)?,
        Tried::Same => {
            answer.applied = true;
            put(answers, witnesses, answer, ItemSet::empty())?;
        }
        Tried::Left(next) => {
            answer.applied = true;
            let mut more = Vec::from_slice(alloc, answers)?;
            let mut kept = Vec::from_slice(alloc, witnesses)?;
            put(&mut more, &mut kept, answer, ItemSet::empty())?;
            *b = settle(next, &mut more, &mut kept)?;
            *answers = more;
            *witnesses = kept;
        }
    }
    Ok(())
}
