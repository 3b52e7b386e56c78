// What a table tells of queries.
ghost use Rattle.std.specs.Prelude.{◌≡◌, ◌+◌, ◌<◌, ◌≤◌, ◌&&◌, ℕ, true};
ghost use Rattle.std.specs.Prelude.{List, Some, length, filter, find, slice_get};
ghost use Rattle.std.specs.List.{position};
ghost use Rattle.std.specs.Option.{ForSome, option_map, option_map_or};
ghost use Rattle.ls_set.specs.{IsWithin, Items, full, has, is_good, is_same};
ghost use Rattle.ls_theory.specs.{Interview, block_before, closure, comes_after, compatible_sets};
ghost use Rattle.ls_theory.specs.{known, next_question, nos, query_before};
ghost use Rattle.ls_theory.specs.declared.no.No.{No};
ghost use Rattle.ls_laws.specs.Forced.{IsSound, IsNumbered};
ghost use Rattle.ls_query.specs.Blocks.{block_sets, block_queries};

use crate::forcing::{forcing, unforced};
use crate::table::Table;
use ls_interior::{Interior, Steps, closure};
use ls_query::{BlockWalk, Blocks};
use ls_set::{ItemSet, PLACES, Query};
use ls_theory::{Known, No};
use std::sync::ledger::Ledger;

// The closure at a place of the list.
fn closure_at(closures: &[ItemSet], place: u32) -> ItemSet
    requires { place < length closures.now }
    ensures { slice_get closures.now place ≡ Some result }
{
    closures[place as usize]
}

impl Table {
    ghost use Rattle.ls_infer.specs.Tables.{table_of, closed_of, is_open_in, told};

    // The closure of a set: that which is kept of a block set, or else by one interior.
    fn closure_in<I: Interior, L: Ledger>(&self, f: &I, a: ItemSet, steps: &mut Steps<L>) -> ItemSet
        requires count { I.item_count f.now ≡ self.now.table.blocks.item_count }
        requires within { IsWithin a (full self.now.table.blocks.item_count) }
        ensures value { let place = position (is_same a) (block_sets self.now.table.blocks) in
            let found = closure (full (I.item_count f.now)) (I.members f.now) a in
            result ≡ option_map_or (λ i. closed_of self.now.table a) place found }
        ensures cost { steps.new ≤ steps.old + 1 }
        ensures few { self.now.table.blocks.item_count ≤ PLACES }
    {
        match self.blocks.place_of(a) {
            Some(place) => closure_at(&self.closures, place),
            None => closure(f, a, steps),
        }
    }

    /// What the standing answers tell of the good query `q`, in at most one step and without
    /// memory. `f` is the family of the table. Where several answers force the query No, the least
    /// number is named. That this is what all spaces within the family force is the law
    /// `told_is_forced`.
    pub fn answer_of<I: Interior, L: Ledger>(&self, f: &I, q: &Query, steps: &mut Steps<L>) -> Known
        requires count { I.item_count f.now ≡ self.now.table.blocks.item_count }
        requires good { is_good self.now.table.blocks.item_count q.now ≡ true }
        ensures told { (nos : List No) →
            self.now.table ≡ table_of self.now.table.blocks (I.members f.now) nos →
            result ≡ told self.now.table.blocks.item_count (I.members f.now) nos q.now }
        ensures known { (i : Interview) → IsSound i → IsNumbered i →
            i.count ≡ self.now.table.blocks.item_count →
            I.members f.now ≡ compatible_sets i →
            self.now.table ≡ table_of self.now.table.blocks (compatible_sets i) (nos i.answers) →
            result ≡ known i q.now }
        ensures bound { steps.new ≤ steps.old + 1 }
    {
        let closed = self.closure_in(f, q.a, steps);
        if closed.has(q.q) {
            return Known::Yes;
        }
        match forcing(&self.standing, q) {
            Some(by) => Known::No { by },
            None => Known::Unsettled,
        }
    }

    // The items q for which the query (A, q) is open, where the walk has come to the block set A,
    // at the place. The standing No at the hint is asked first.
    fn open_items(&self, place: u32, walk: &BlockWalk, hint: &mut usize) -> ItemSet
        requires { slice_get (block_sets self.now.table.blocks) place ≡ Some walk.now.set }
        ensures { (q : ℕ) → has result q
            ≡ (is_good self.now.table.blocks.item_count (record { a = walk.now.set; q = q })
            && is_open_in self.now.table (record { a = walk.now.set; q = q })) }
    {
        let closed = closure_at(&self.closures, place);
        let undecided = ItemSet::full(self.n).minus(closed);
        if undecided.least().is_none() {
            return undecided;
        }
        let a = walk.set();
        unforced(&self.standing, hint, a, undecided.minus(a))
    }

    // The first open query from the place on, where the walk has come to the set before it.
    fn open_from(&self, start: u32, mut walk: BlockWalk) -> Option<Query>
        requires walk { walk.blocks ≡ self.now.table.blocks }
        requires place { find (block_before walk.set) (block_sets self.now.table.blocks)
            ≡ slice_get (block_sets self.now.table.blocks) start }
        ensures { result ≡ find (λ s. block_before walk.set s.a && is_open_in self.now.table s)
            (block_queries self.now.table.blocks) }
    {
        let mut hint = 0;
        for place in start..self.blocks.count() {
            walk.advance();
            if let Some(q) = self.open_items(place, &walk, &mut hint).least() {
                return Some(Query { a: walk.set(), q });
            }
        }
        None
    }

    // The first query after the given one, or of all, that is open by the table.
    fn first_open(&self, after: Option<&Query>) -> Option<Query>
        requires { ForSome after (λ r. is_good self.now.table.blocks.item_count r.now ≡ true) }
        ensures { let last = option_map (λ r. r.now) after.entry in
            result ≡ find (is_open_in self.now.table)
            (filter (comes_after query_before last) (block_queries self.now.table.blocks)) }
    {
        let Some(r) = after else {
            return self.open_from(0, self.blocks.walk_from(ItemSet::empty()));
        };
        let place = self.blocks.place_of(r.a)?;
        let walk = self.blocks.walk_from(r.a);
        match self.open_items(place, &walk, &mut 0).next_member(r.q) {
            Some(q) => Some(Query { a: r.a, q }),
            None => self.open_from(place + 1, walk),
        }
    }

    /// The first open query of the blocks that comes after the given good one, or the first of all:
    /// no closure decides it and no standing answer forces it No. The given one need not be of the
    /// blocks. It takes no memory and no step.
    pub fn next_unsettled(&self, after: Option<&Query>) -> Option<Query>
        requires { ForSome after (λ r. is_good self.now.table.blocks.item_count r.now ≡ true) }
        ensures next { (i : Interview) → IsSound i → i.count ≡ self.now.table.blocks.item_count →
            i.block ≡ self.now.table.blocks.largest →
            self.now.table ≡ table_of self.now.table.blocks (compatible_sets i) (nos i.answers) →
            result ≡ next_question i (option_map (λ r. r.now) after.entry) }
    {
        self.first_open(after)
    }
}
