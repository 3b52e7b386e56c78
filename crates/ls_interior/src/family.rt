// Families that are known by their interiors.
ghost use Rattle.std.specs.Prelude.{◌≡◌, ℕ, ◌+◌, ◌<◌, ◌≤◌, true, List, IfSome};
ghost use Rattle.ls_set.specs.{IsWithin, Items, full, is_among, without};
ghost use Rattle.ls_theory.specs.{closure, interior, outer_fringe};
ghost use Rattle.ls_laws.specs.Families.{IsFamily};
ghost use Rattle.ls_interior.specs.Keeping.{interior_keeping};

use crate::steps::Steps;
use ls_set::{ItemSet, PLACES};
use std::sync::ledger::Ledger;

/// A family on items: a list of sets of them in the order, which holds the empty set and is closed
/// under union. It is known by its interiors.
///
/// That an interior is a member, lies within the set, grows with it and is its own interior,
/// follows from `is_family` (`interiors_are_greatest` and `interiors_grow` of ls_laws).
pub trait Inside {
    /// How many items there are.
    ghost item_count: { Self → ℕ };

    /// The members, in the order.
    ghost members: { Self → List Items };

    /// How many items there are, at most [`PLACES`].
    fn items(&self) -> u32
        ensures count { result ≡ item_count self.now }
        ensures few { result ≤ PLACES };

    /// The interior of `s`: the greatest member within it. All items of `s` are below `items()`.
    fn inside(&self, s: ItemSet) -> ItemSet
        requires { IsWithin s (full (item_count self.now)) }
        ensures { result ≡ interior (members self.now) s };

    /// The interior of a member without an item, where it has all items of `keep`. Of a set that is
    /// no member any part may be given, or none. All items of the set are below `items()`.
    ///
    /// A family may find it faster than an interior: only what the item takes with it falls out of
    /// a member, and where an item of `keep` does, the rest need not be found.
    fn inside_without(&self, member: ItemSet, item: u32, keep: ItemSet) -> Option<ItemSet>
        requires within { IsWithin member (full (item_count self.now)) }
        requires item { item < PLACES }
        ensures value { is_among (members self.now) member ≡ true →
            result ≡ interior_keeping (members self.now) (without member item) keep }
        ensures part { IfSome result (λ k. IsWithin k member) }
    {
        let inside = self.inside(member.without(item));
        if keep.is_within(inside) {
            Some(inside)
        } else {
            None
        }
    }

    /// The items outside a member with which it is a member. Of a set that is no member any set of
    /// items may be given. All items of the set are below `items()`.
    ///
    /// Here they are found by an interior an item; a family may find them faster.
    fn outer_fringe(&self, member: ItemSet) -> ItemSet
        requires { IsWithin member (full (item_count self.now)) }
        ensures value { is_among (members self.now) member ≡ true →
            result ≡ outer_fringe (item_count self.now) (members self.now) member }
    {
        let mut fringe = ItemSet::empty();
        for item in 0..self.items() {
            let more = member.with(item);
            if !member.has(item) && more.is_within(self.inside(more)) {
                fringe = fringe.with(item);
            }
        }
        fringe
    }

    /// The members are a family on the items.
    ghost is_family: { (f : Self) → IsFamily (item_count f) (members f) };
}

/// A family on items, each of whose interiors is counted.
pub trait Interior {
    /// How many items there are.
    ghost item_count: { Self → ℕ };

    /// The members, in the order.
    ghost members: { Self → List Items };

    /// How many items there are, at most [`PLACES`].
    fn items(&self) -> u32
        ensures count { result ≡ item_count self.now }
        ensures few { result ≤ PLACES };

    /// The interior of `s`: the greatest member within it. All items of `s` are below `items()`. It
    /// counts as one step.
    fn interior<L: Ledger>(&self, s: ItemSet, steps: &mut Steps<L>) -> ItemSet
        requires { IsWithin s (full (item_count self.now)) }
        ensures value { result ≡ interior (members self.now) s }
        ensures cost { steps.new ≡ steps.old + 1 };

    /// The interior of a member without an item, where it has all items of `keep`. Of a set that is
    /// no member any part may be given, or none. All items of the set are below `items()`. It
    /// counts as one step.
    fn interior_without<L: Ledger>(
        &self,
        member: ItemSet,
        item: u32,
        keep: ItemSet,
        steps: &mut Steps<L>,
    ) -> Option<ItemSet>
        requires within { IsWithin member (full (item_count self.now)) }
        requires item { item < PLACES }
        ensures value { is_among (members self.now) member ≡ true →
            result ≡ interior_keeping (members self.now) (without member item) keep }
        ensures part { IfSome result (λ k. IsWithin k member) }
        ensures cost { steps.new ≡ steps.old + 1 };

    /// The members are a family on the items.
    ghost is_family: { (f : Self) → IsFamily (item_count f) (members f) };
}

/// Whether the set is a member. All its items are below `f.items()`.
pub fn is_member<F: Inside>(f: &F, s: ItemSet) -> bool
    requires { IsWithin s (full (F.item_count f.now)) }
    ensures { result ≡ is_among (F.members f.now) s }
{
    s.is_within(f.inside(s))
}

/// The closure of `s`, which is the complement of the interior of its complement, in one step. All
/// items of `s` are below `f.items()`.
pub fn closure<I: Interior, L: Ledger>(f: &I, s: ItemSet, steps: &mut Steps<L>) -> ItemSet
    requires { IsWithin s (full (I.item_count f.now)) }
    ensures value { result ≡ closure (full (I.item_count f.now)) (I.members f.now) s }
    ensures cost { steps.new ≡ steps.old + 1 }
{
    let all = ItemSet::full(f.items());
    all.minus(f.interior(all.minus(s), steps))
}
