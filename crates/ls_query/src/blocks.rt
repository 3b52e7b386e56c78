// The blocks of an interview.
ghost use Rattle.std.specs.Prelude.{◌≡◌, ◌<◌, ◌≤◌, true, Err, length, find};
ghost use Rattle.std.specs.Option.{ForSome, option_map};
ghost use Rattle.std.specs.List.{position};
ghost use Rattle.ls_set.specs.{IsWithin, full, is_good, is_same, len};
ghost use Rattle.ls_theory.specs.{block_before, comes_after, query_before};

use crate::asking::{query_after, query_after_set};
use crate::counting::count_sets;
use crate::moving::set_after;
use crate::placing;
use crate::walk::{BlockWalk, walk_at};
use ls_set::{ItemSet, PLACES, Query};
use ls_theory::BlockFault;
use std::alloc::AllocError;
use std::marker::Model;

/// The blocks up to a size: the sets A of 1 to that many items, of which an interview asks the good
/// queries (A, q). Contracts see the number of items and the greatest size.
///
/// The sets stand in the order of queries: by size, and those of one size by their ascending lists.
#[derive(Clone, Copy, PartialEq, Eq)]
pub struct Blocks {
    n: u32,
    k: u32,
}

impl Model for Blocks {
    ghost use Rattle.ls_theory.specs.{BlockRange};
    ghost use Rattle.ls_query.specs.Blocks.{AreBounded};

    ghost Value = { BlockRange };

    ghost view = { λ b. record { item_count = b.n; largest = b.k } };

    ghost invariant = { λ b. AreBounded (record { item_count = b.n; largest = b.k }) };

    ghost inverse = { λ b. record { n = b.item_count; k = b.largest } };
}

impl Blocks {
    ghost use Rattle.ls_theory.specs.{made, most_sets};
    ghost use Rattle.ls_theory.specs.declared.block_fault.BlockFault.TheVariants.{Memory};
    ghost use Rattle.ls_query.specs.Blocks.{block_sets, block_queries};

    /// The sets of 1 to `k` of `n` items. `BadBlock` comes exactly where `k` is 0, or above both 1
    /// and `n - 1`; then `TooWide` exactly where they are more than 400,000, with the least size up
    /// to which they are.
    pub fn new(n: u32, k: u32) -> Result<Blocks, BlockFault>
        requires some { 0 < n }
        requires items { n ≤ PLACES }
        ensures value { result ≡ made n k }
        ensures never_memory { (e : AllocError) → result ≡ Err (Memory e) → ⊥ }
    {
        if k == 0 || k > (n - 1).max(1) {
            return Err(BlockFault::BadBlock);
        }
        match count_sets(n, k) {
            Ok(_) => Ok(Blocks { n, k }),
            Err(size) => Err(BlockFault::TooWide { size }),
        }
    }

    // How many items there are.
    pub(crate) fn items(&self) -> u32
        ensures { result ≡ self.now.item_count }
    {
        self.n
    }

    /// How many sets there are.
    pub fn count(&self) -> u32
        ensures value { result ≡ length (block_sets self.now) }
        ensures few { result ≤ most_sets }
    {
        count_sets(self.n, self.k).unwrap()
    }

    /// The first set of the blocks that comes after the given one, or the first of all. The given
    /// one need not be of the blocks.
    pub fn next_set(&self, after: Option<ItemSet>) -> Option<ItemSet>
        requires { ForSome after (λ a. IsWithin a (full self.now.item_count)) }
        ensures { result ≡ find (comes_after block_before after) (block_sets self.now) }
    {
        match after {
            Some(a) => set_after(self.n, self.k, a),
            // The empty set comes before all of them.
            None => set_after(self.n, self.k, ItemSet::empty()),
        }
    }

    /// A walk that has come to the set. It may be the empty set, before all of them.
    pub fn walk_from(&self, set: ItemSet) -> BlockWalk
        requires within { IsWithin set (full self.now.item_count) }
        requires size { len set ≤ self.now.largest }
        ensures blocks { result.blocks ≡ self.now }
        ensures set { result.set ≡ set }
    {
        let Blocks { n, k } = *self;
        walk_at(Blocks { n, k }, set)
    }

    /// The place of a set among the sets of the blocks, counted from 0, or `None` where it is not
    /// one of them.
    pub fn place_of(&self, a: ItemSet) -> Option<u32>
        ensures { result ≡ position (is_same a) (block_sets self.now) }
    {
        placing::place_of(self.n, self.k, a)
    }

    /// The first good query of the blocks that comes after the given one, or the first of all. The
    /// given one need not be of the blocks.
    pub fn next_query(&self, after: Option<&Query>) -> Option<Query>
        requires { ForSome after (λ r. is_good self.now.item_count r.now ≡ true) }
        ensures { let last = option_map (λ r. r.now) after.entry in
            result ≡ find (comes_after query_before last) (block_queries self.now) }
    {
        match after {
            Some(r) => query_after(self.n, self.k, *r),
            None => query_after_set(self.n, self.k, ItemSet::empty()),
        }
    }
}
