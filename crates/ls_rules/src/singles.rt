// For each item, the items of the rules whose set A is that item alone.
ghost use Rattle.std.specs.Prelude.{◌≡◌, ℕ, ◌<◌, ◌≤◌, [], true, false, None, if◌then◌else◌};
ghost use Rattle.std.specs.Prelude.{length, All, OnOk, IfSome};
ghost use Rattle.std.specs.List.{list_all};
ghost use Rattle.ls_set.specs.{is_good, is_same, single, with};
ghost use Rattle.ls_rules.specs.Sets.{set_at};
ghost use Rattle.ls_rules.specs.Singles.{asked_alone, CoversSets};

use crate::sets::Sets;
use ls_set::{ItemSet, PLACES, Query};
use std::alloc::{AllocError, Global};
use std::marker::Model;

/// For each item, the items q of the rules whose set A is that item alone: all of them fall out
/// together where the item falls out. Items past the end have none.
#[derive(Drop)]
pub struct Singles {
    sets: Sets,
    // the items whose set is not empty, and maybe more
    items: ItemSet,
}

impl Model for Singles {
    ghost use Rattle.std.specs.Prelude.{List};
    ghost use Rattle.ls_set.specs.{Items};
    ghost use Rattle.ls_rules.specs.Singles.{CoversSets};

    ghost Value = { List Items };

    ghost view = { λ a. a.sets };

    ghost invariant = { λ a. CoversSets a.items a.sets };
}

// The item of a set of one item.
#[tactic(auto, unfolding(ls_set::specs::ItemSet::is_same))]
fn only(set: ItemSet) -> Option<u32>
    ensures one { IfSome result (λ i. set ≡ single i) }
    ensures item { IfSome result (λ i. i < PLACES) }
    ensures none { result ≡ None → (i : ℕ) → is_same set (single i) ≡ false }
{
    let i = set.least()?;
    if set == ItemSet::empty().with(i) {
        Some(i)
    } else {
        None
    }
}

// The items q of the rules whose set A is item `i` alone.
#[tactic(auto, unfolding(ls_set::specs::ItemSet::is_same))]
fn asked_alone(rules: &[Query], i: u32) -> ItemSet
    requires item { i < PLACES }
    requires items { All (λ r. r.q < PLACES) rules.now }
    ensures { result ≡ asked_alone rules.now i }
{
    let alone = ItemSet::empty().with(i);
    let mut asked = ItemSet::empty();
    for rule in rules {
        if rule.a == alone {
            asked = asked.with(rule.q);
        }
    }
    asked
}

impl Singles {
    /// No item for any item. It takes no memory.
    pub fn new(alloc: Global) -> Singles
        ensures { result ≡ [] }
    {
        Singles {
            sets: Sets::new(alloc),
            items: ItemSet::empty(),
        }
    }

    /// Makes room for rules on `n` items. Where memory runs out, some of the room may have been
    /// made; the sets stay.
    pub fn reserve(&mut self, n: u32) -> Result<(), AllocError>
        requires { n ≤ PLACES }
        ensures ok { OnOk result (n ≤ length self.new) }
        ensures sets { (i : ℕ) → set_at self.new i ≡ set_at self.old i }
        ensures len { length self.old ≤ length self.new }
    {
        self.sets.reserve(n)
    }

    /// Puts in the item of a rule, if its set A is one item alone, in the room that was made.
    pub fn push(&mut self, r: &Query)
        requires room { (i : ℕ) → r.now.a ≡ single i → i < length self.old }
        requires item { r.now.q < PLACES }
        ensures sets { (i : ℕ) → set_at self.new i
            ≡ (if is_same r.now.a (single i) then with (set_at self.old i) r.now.q
            else set_at self.old i) }
        ensures len { length self.new ≡ length self.old }
    {
        if let Some(i) = only(r.a) {
            let items = self.sets.of(i).with(r.q);
            self.sets.put(i, items);
            self.items = self.items.with(i);
        }
    }

    /// Takes out a rule, if its set A is one item alone: what that item has is formed anew of the
    /// rules on `n` items that are left.
    pub fn remove(&mut self, r: &Query, n: u32, left: &[Query])
        requires room { (i : ℕ) → r.now.a ≡ single i → i < length self.old }
        requires few { n ≤ PLACES }
        requires good { list_all (is_good n) left.now ≡ true }
        ensures sets { (i : ℕ) → set_at self.new i
            ≡ (if is_same r.now.a (single i) then asked_alone left.now i else set_at self.old i) }
        ensures len { length self.new ≡ length self.old }
    {
        if let Some(i) = only(r.a) {
            self.sets.put(i, asked_alone(left, i));
            self.items = self.items.with(i);
        }
    }

    /// The items whose set is not empty, and maybe more.
    pub fn items(&self) -> ItemSet
        ensures { CoversSets result self.now }
    {
        self.items
    }

    /// The set of an item.
    pub fn of(&self, i: u32) -> ItemSet
        ensures { result ≡ set_at self.now i }
    {
        self.sets.of(i)
    }
}
