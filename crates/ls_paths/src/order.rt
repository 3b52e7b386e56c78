// An order of items.
ghost use Rattle.std.specs.Prelude.{◌≡◌, ◌≤◌, true, None, Some, is_some, length, take};
ghost use Rattle.std.specs.Prelude.{IfSome, MatchBool};
ghost use Rattle.ls_set.specs.{IsWithin, empty, full, set_of};
ghost use Rattle.ls_theory.specs.{is_learning_space, is_order};
ghost use Rattle.ls_paths.specs.Growths.{first_growth};
ghost use Rattle.ls_paths.specs.Levels.{AreMembersBelow, grown_to, is_fresh, leaves_below};

use crate::steps::{grow, leave};
use ls_interior::Inside;
use ls_set::{ItemSet, PLACES};
use std::marker::Model;

/// An order of items, each a number: the order in which they are learned. Contracts see it as that
/// list. It is stored in place, for the most items that there may be.
#[derive(Clone, Copy)]
pub struct Order {
    items: [u32; PLACES as usize],
    count: usize,
}

impl Model for Order {
    ghost use Rattle.std.specs.Prelude.{List, ℕ};
    ghost use Rattle.std.specs.Coded.{coded_list, coded_ℕ};

    ghost Value = { List ℕ };

    ghost coded = { coded_list coded_ℕ };

    ghost use Rattle.ls_paths.specs.Padded.{listed, IsPadded, padded, padded-listed};

    ghost view = { listed };

    ghost invariant = { IsPadded };

    ghost inverse = { padded };

    ghost inverse_ok = { padded-listed };
}

impl Order {
    /// The order that has the `n` items once each, as listed, or `None` where the list has not.
    pub fn from_items(n: u32, items: &[u32]) -> Option<Order>
        requires { n ≤ PLACES }
        ensures some { IfSome result (λ o. o ≡ items.now) }
        ensures is { is_some result ≡ is_order n items.now }
    {
        if items.len() != n as usize {
            return None;
        }
        let set = set_of(items)?;
        if set != ItemSet::full(n) {
            return None;
        }
        Some(Order::listing(items))
    }

    // The listed items.
    fn listing(items: &[u32]) -> Order
        requires { length items.now ≤ PLACES }
        ensures { result ≡ items.now }
    {
        let mut places = [0; PLACES as usize];
        places[..items.len()].copy_from_slice(items);
        Order {
            items: places,
            count: items.len(),
        }
    }

    /// The items, in their order.
    pub fn items(&self) -> &[u32]
        ensures { result.now ≡ self.now }
    {
        &self.items[..self.count]
    }

    // The first growth of the empty set to all items.
    pub fn first<F: Inside>(f: &F) -> Order
        requires { is_learning_space (full (F.item_count f.now)) (F.members f.now) ≡ true }
        ensures { result
            ≡ first_growth (F.item_count f.now) (F.members f.now) (F.item_count f.now) empty }
    {
        let mut places = [0; PLACES as usize];
        let n = f.items();
        let count = n as usize;
        grow(f, ItemSet::empty(), ItemSet::full(n), &mut places[..count]);
        Order {
            items: places,
            count,
        }
    }

    // Makes of the order the growth that leaves it at the last place below the level at which one
    // can, or leaves the order as it is where none can. `k` is the set of the items before the
    // level; without the last of them they are members, as fewer of them are.
    pub(crate) fn leave<F: Inside>(&mut self, f: &F, k: ItemSet, level: usize) -> bool
        requires learning { is_learning_space (full (F.item_count f.now)) (F.members f.now) ≡ true }
        requires fresh { is_fresh empty self.old ≡ true }
        requires fits { length self.old ≤ F.item_count f.now }
        requires level { level ≤ length self.old }
        requires set { k ≡ grown_to empty (take level self.old) }
        requires small { IsWithin k (full (F.item_count f.now)) }
        requires members { AreMembersBelow (F.members f.now) self.old level }
        ensures { MatchBool result
            (leaves_below (F.item_count f.now) (F.members f.now) empty self.old level
            ≡ Some self.new)
            ((leaves_below (F.item_count f.now) (F.members f.now) empty self.old level ≡ None)
            × (self.new ≡ self.old)) }
    {
        leave(f, k, level, &mut self.items[..self.count])
    }
}

// The set of the listed items, or `None` where one of them is no item of a set.
fn set_of(items: &[u32]) -> Option<ItemSet>
    ensures value { IfSome result (λ s. s ≡ set_of items.now) }
    ensures within { IsWithin (set_of items.now) (full PLACES) → is_some result ≡ true }
{
    let mut set = ItemSet::empty();
    for item in items {
        if *item >= PLACES {
            return None;
        }
        set = set.with(*item);
    }
    Some(set)
}
