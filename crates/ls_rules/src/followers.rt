// For each item, the items that follow it by a rule.
ghost use Rattle.std.specs.Prelude.{◌≡◌, ℕ, ◌<◌, ◌≤◌, [], true, not, length, OnOk};
ghost use Rattle.ls_set.specs.{empty, has, is_same, meet};
ghost use Rattle.ls_rules.specs.Sets.{set_at};
ghost use Rattle.ls_rules.specs.Followers.{Grows, IsFollower};

use crate::sets::Sets;
use ls_set::{ItemSet, PLACES};
use std::alloc::{AllocError, Global};
use std::marker::Model;

/// For each item the set of those that follow it, empty past the end. What was pushed follows; more
/// may, since nothing is taken out but all at once.
#[derive(Drop)]
pub struct Followers {
    sets: Sets,
}

impl Model for Followers {
    ghost use Rattle.std.specs.Prelude.{List};
    ghost use Rattle.ls_set.specs.{Items};

    ghost Value = { List Items };

    ghost view = { λ f. f.sets };
}

// Puts an item into the set of each item of `set`.
fn push_each(sets: &mut Sets, set: ItemSet, q: u32)
    requires room { (i : ℕ) → has set i ≡ true → i < length sets.old }
    requires item { q < PLACES }
    ensures follows { IsFollower sets.new set q }
    ensures grows { Grows sets.old sets.new }
    ensures len { length sets.new ≡ length sets.old }
{
    for i in set.items() {
        let items = sets.of(i).with(q);
        sets.put(i, items);
    }
}

impl Followers {
    /// The empty set for each item. It takes no memory.
    pub fn new(alloc: Global) -> Followers
        ensures { result ≡ [] }
    {
        Followers {
            sets: Sets::new(alloc),
        }
    }

    /// Makes room for rules on `n` items. Where memory runs out, some of the room may have been
    /// made; the sets stay.
    pub fn reserve(&mut self, n: u32) -> Result<(), AllocError>
        requires { n ≤ PLACES }
        ensures ok { OnOk result (n ≤ length self.new) }
        ensures sets { (i : ℕ) → set_at self.new i ≡ set_at self.old i }
        ensures len { length self.old ≤ length self.new }
        ensures few { length self.old ≤ PLACES → length self.new ≤ PLACES }
    {
        self.sets.reserve(n)
    }

    /// The item follows each item of the set, in the room that was made.
    pub fn push(&mut self, set: ItemSet, q: u32)
        requires room { (i : ℕ) → has set i ≡ true → i < length self.old }
        requires item { q < PLACES }
        ensures follows { IsFollower self.new set q }
        ensures grows { Grows self.old self.new }
        ensures len { length self.new ≡ length self.old }
    {
        push_each(&mut self.sets, set, q);
    }

    /// No item follows another any more. The room stays.
    pub fn clear(&mut self)
        ensures sets { (i : ℕ) → set_at self.new i ≡ empty }
        ensures len { length self.new ≡ length self.old }
    {
        self.sets.clear();
    }

    /// Whether an item that is kept follows the item.
    #[tactic(auto, unfolding(ls_set::specs::ItemSet::is_same))]
    pub fn meets(&self, i: u32, kept: ItemSet) -> bool
        ensures { result ≡ not (is_same (meet (set_at self.now i) kept) empty) }
    {
        self.sets.of(i).meet(kept) != ItemSet::empty()
    }
}
