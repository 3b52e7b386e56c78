// The lists that make up a table.
ghost use Rattle.std.specs.Prelude.{◌≡◌, ◌+◌, ◌*◌, ◌<◌, ◌≤◌, ℕ, true};
ghost use Rattle.std.specs.Prelude.{List, map, length, count_by, find, slice_get, IfOk};
ghost use Rattle.std.specs.List.{list_all, position};
ghost use Rattle.ls_set.specs.{Items, full, is_good, is_within};
ghost use Rattle.ls_theory.specs.{block_before, blocks, closure, most_sets};
ghost use Rattle.ls_query.specs.Blocks.{block_sets};
ghost use Rattle.ls_infer.specs.Changes.{IsChange, is_stale};
ghost use Rattle.ls_infer.specs.Tables.{standing, AreStates};

use crate::block_closures::{KeptClosure, close_block};
use crate::standing_no::StandingNo;
use crate::witnesses::Witnesses;
use crate::yes_change::YesChange;
use ls_interior::{Interior, Steps};
use ls_query::{BlockWalk, Blocks};
use ls_set::{ItemSet, PLACES, Query};
use ls_theory::No;
use std::alloc::{AllocError, Global};
use std::sync::ledger::Ledger;

/// The closures of the sets of the blocks, in their order, in a step at most for each.
pub fn closures_of<I: Interior, L: Ledger>(
    alloc: Global,
    blocks: Blocks,
    f: &I,
    steps: &mut Steps<L>,
) -> Result<Vec<ItemSet>, AllocError>
    requires { I.item_count f.now ≡ blocks.item_count }
    ensures list { IfOk result (λ v. v.items
        ≡ map (closure (full (I.item_count f.now)) (I.members f.now)) (block_sets blocks)) }
    ensures cost { steps.new ≤ steps.old + length (block_sets blocks) }
    ensures few { length (block_sets blocks) ≤ most_sets }
{
    let mut closures = Vec::new(alloc);
    let mut walk = blocks.walk_from(ItemSet::empty());
    let mut kept = KeptClosure::new();
    for _place in 0..blocks.count() {
        if !walk.advance() {
            return Ok(closures);
        }
        closures.push(close_block(&closures, blocks, &walk, f, &mut kept, steps))?;
    }
    Ok(closures)
}

/// What is kept of each of the answers, in their order, in a step at most for each item and one
/// more for each answer. `closures` are those of the sets of blocks.
pub fn standing_of<I: Interior, L: Ledger>(
    alloc: Global,
    f: &I,
    closures: &[ItemSet],
    answers: &[No],
    witnesses: &mut [Witnesses],
    steps: &mut Steps<L>,
) -> Result<Vec<StandingNo>, AllocError>
    requires good { list_all (λ a. is_good (I.item_count f.now) a.query) answers.now ≡ true }
    ensures list { AreStates (I.members f.now) witnesses.old →
        AreStates (I.members f.now) witnesses.new × ((k : ℕ) → let n = I.item_count f.now in
        closures.now ≡ map (closure (full n) (I.members f.now)) (blocks n k) →
        IfOk result (λ v. v.items ≡ map (standing n (I.members f.now)) answers.now)) }
    ensures cost { steps.new ≤ steps.old + (I.item_count f.now + 1) * length answers.now }
{
    let mut kept = Vec::new(alloc);
    for answer in answers {
        kept.push(StandingNo::from_closures(f, closures, answer, witnesses, steps))?;
    }
    Ok(kept)
}

// Whether a closure from before the change can be another after it.
fn is_stale(change: YesChange, r: &Query, closed: &ItemSet) -> bool
    requires { r.now.q < PLACES }
    ensures { result ≡ is_stale change r.now closed.now }
{
    match change {
        YesChange::Added => !closed.has(r.q) && r.a.is_within(*closed),
        YesChange::Removed => r.a.is_within(*closed),
    }
}

// The place of the first closure that can be another after the change.
fn first_stale(change: YesChange, r: &Query, closures: &[ItemSet]) -> Option<usize>
    requires { r.now.q < PLACES }
    ensures { result ≡ position (is_stale change r.now) closures.now }
{
    closures.iter().position(|c| is_stale(change, r, c))
}

// The walk that comes next to the set at the place.
fn walk_before(blocks: Blocks, place: usize) -> BlockWalk
    requires { place ≤ length (block_sets blocks) }
    ensures blocks { result.blocks ≡ blocks }
    ensures next { find (block_before result.set) (block_sets blocks)
        ≡ slice_get (block_sets blocks) place }
{
    let mut walk = blocks.walk_from(ItemSet::empty());
    for _passed in 0..place {
        walk.advance();
    }
    walk
}

/// Makes the closures of the sets of the blocks those after the change of a Yes to `r`, in a step
/// at most for each that has the items of its A. `f` is the family after the change.
pub fn close_again<I: Interior, L: Ledger>(
    closures: &mut [ItemSet],
    blocks: Blocks,
    f: &I,
    change: YesChange,
    r: &Query,
    steps: &mut Steps<L>,
)
    requires items { I.item_count f.now ≡ blocks.item_count }
    requires good { is_good (I.item_count f.now) r.now ≡ true }
    requires each { length closures.old ≡ length (block_sets blocks) }
    requires within { list_all (λ c. is_within c (full (I.item_count f.now))) closures.old ≡ true }
    ensures each { (before : List Items) →
        IsChange change (I.item_count f.now) r.now before (I.members f.now) →
        closures.old ≡ map (closure (full (I.item_count f.now)) before) (block_sets blocks) →
        closures.new
        ≡ map (closure (full (I.item_count f.now)) (I.members f.now)) (block_sets blocks) }
    ensures within { list_all (λ c. is_within c (full (I.item_count f.now))) closures.new ≡ true }
    ensures cost { steps.new ≤ steps.old + count_by (λ c. is_within r.now.a c) closures.old }
{
    let Some(start) = first_stale(change, r, closures) else {
        return;
    };
    let mut walk = walk_before(blocks, start);
    let mut kept = KeptClosure::new();
    for place in start..closures.len() {
        walk.advance();
        if is_stale(change, r, &closures[place]) {
            let first = &closures[..place];
            closures[place] = close_block(first, blocks, &walk, f, &mut kept, steps);
        }
    }
}
