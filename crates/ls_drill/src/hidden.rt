// Hidden orders.
ghost use Rattle.std.specs.Prelude.{◌≡◌, ◌<◌, ◌≤◌, IfOk};
ghost use Rattle.ls_drill.specs.HiddenOrders.{implied};

use crate::closing::closed;
use crate::drawing::related_pairs;
use ls_set::ItemSet;
use std::alloc::{AllocError, Global};
use std::marker::Model;

/// The most items of a hidden order.
pub const MOST_DRILLED: u32 = 48;

/// An order on items that a number makes: which items are before which. Contracts see how many
/// items there are, and the number.
#[derive(Drop)]
pub struct Hidden {
    n: u32,
    number: u64,
    // for each item, those that it is before
    after: Vec<ItemSet>,
}

impl Model for Hidden {
    ghost use Rattle.ls_drill.specs.HiddenOrders.{HiddenOrder};
    ghost use Rattle.ls_drill.specs.Draws.{KeepsHiddenOrder};

    ghost Value = { HiddenOrder };

    ghost view = { λ h. record { item_count = h.n; number = h.number } };

    ghost invariant = { λ h. KeepsHiddenOrder h.n h.number h.after.items };
}

impl Hidden {
    /// The order on `n` items that the number `s` makes. For each pair of items, the first below
    /// the second, a word is drawn from a generator, and the first is put before the second where 4
    /// divides the word; what follows by transitivity is added.
    pub fn from_number(alloc: Global, n: u32, s: u64) -> Result<Hidden, AllocError>
        requires { n ≤ MOST_DRILLED }
        ensures { IfOk result (λ h. h ≡ record { item_count = n; number = s }) }
    {
        let pairs = related_pairs(alloc, n, s)?;
        let after = closed(alloc, n, &pairs)?;
        Ok(Hidden {
            n,
            number: s,
            after,
        })
    }

    /// Whether item `a` is before item `q` in the order.
    pub fn implied(&self, a: u32, q: u32) -> bool
        requires first { a < self.now.item_count }
        requires second { q < self.now.item_count }
        ensures { result ≡ implied self.now.item_count self.now.number a q }
    {
        self.after[a as usize].has(q)
    }

    /// How many items there are.
    pub fn items(&self) -> u32
        ensures count { result ≡ self.now.item_count }
        ensures few { result ≤ MOST_DRILLED }
    {
        self.n
    }

    /// The number that makes the order.
    pub fn number(&self) -> u64
        ensures { result ≡ self.now.number }
    {
        self.number
    }
}
