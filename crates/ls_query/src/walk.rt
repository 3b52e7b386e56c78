// A walk through the sets of blocks.
ghost use Rattle.std.specs.Prelude.{◌≡◌, ◌<◌, ◌≤◌, true, false, Some, None, find, IfSome};
ghost use Rattle.std.specs.Prelude.{MatchOption, if◌then◌else◌};
ghost use Rattle.ls_set.specs.{IsWithin, empty, full, len, with};
ghost use Rattle.ls_theory.specs.{block_before};
ghost use Rattle.ls_query.specs.Blocks.{AreBounded, block_sets};
ghost use Rattle.ls_query.specs.Moves.{IsGreatest};

use crate::blocks::Blocks;
use ls_set::ItemSet;
use std::marker::Model;

/// A walk through the sets of blocks, in their order. Contracts see the blocks, the set that was
/// come to, and this set without its greatest item.
// The next set mostly has the same others, and the item after the greatest.
#[derive(Drop)]
pub struct BlockWalk {
    blocks: Blocks,
    others: ItemSet,
    // one more than the greatest item, or 0 where there is none
    end: u32,
}

impl Model for BlockWalk {
    ghost use Rattle.ls_query.specs.Walks.{Walked, topped, IsWalk};

    ghost Value = { Walked };

    ghost view = { λ w. record {
      blocks = w.blocks;
      set = topped w.others w.end;
      others = w.others;
    } };

    ghost invariant = { λ w. IsWalk w.blocks w.others w.end };
}

// The greatest item of the set.
fn greatest(set: ItemSet) -> Option<u32>
    ensures { MatchOption result (set ≡ empty) (IsGreatest set) }
{
    set.items().last()
}

// The walk that has come to the set.
pub fn walk_at(blocks: Blocks, set: ItemSet) -> BlockWalk
    requires bounded { AreBounded blocks }
    requires within { IsWithin set (full blocks.item_count) }
    requires size { len set ≤ blocks.largest }
    ensures blocks { result.blocks ≡ blocks }
    ensures set { result.set ≡ set }
{
    match greatest(set) {
        Some(item) => BlockWalk {
            blocks,
            others: set.without(item),
            end: item + 1,
        },
        None => BlockWalk {
            blocks,
            others: set,
            end: 0,
        },
    }
}

impl BlockWalk {
    /// The greatest item of the set that was come to; the empty set has none.
    pub fn greatest(&self) -> Option<u32>
        ensures item { MatchOption result (self.now.set ≡ empty)
            (λ i. self.now.set ≡ with self.now.others i) }
        ensures place { IfSome result (λ i. i < self.now.blocks.item_count) }
    {
        self.end.checked_sub(1)
    }

    /// The set that was come to, without its greatest item.
    pub fn others(&self) -> ItemSet
        ensures others { result ≡ self.now.others }
        ensures within { IsWithin result (full self.now.blocks.item_count) }
    {
        self.others
    }

    /// The set that was come to.
    pub fn set(&self) -> ItemSet
        ensures set { result ≡ self.now.set }
        ensures within { IsWithin result (full self.now.blocks.item_count) }
        ensures size { len result ≤ self.now.blocks.largest }
    {
        if self.end == 0 {
            self.others
        } else {
            self.others.with(self.end - 1)
        }
    }

    /// Goes on to the next set of the blocks. Past the last it stays, and says so by `false`.
    pub fn advance(&mut self) -> bool
        ensures next { find (block_before self.old.set) (block_sets self.old.blocks)
            ≡ (if result then Some self.new.set else None) }
        ensures blocks { self.new.blocks ≡ self.old.blocks }
        ensures last { result ≡ false → self.new ≡ self.old }
    {
        if self.end < self.blocks.items() {
            self.end += 1;
            return true;
        }
        let Some(next) = self.blocks.next_set(Some(self.set())) else {
            return false;
        };
        *self = self.blocks.walk_from(next);
        true
    }
}
