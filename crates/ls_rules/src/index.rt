// For each item, the places of the sets of a list that have it.
ghost use Rattle.std.specs.Prelude.{◌≡◌, ℕ, ◌<◌, ◌≤◌, ◌++◌, ◌∷◌, [], true, if◌then◌else◌};
ghost use Rattle.std.specs.Prelude.{length, OnOk};
ghost use Rattle.ls_set.specs.{has};
ghost use Rattle.ls_rules.specs.Places.{lowered, places_at, Covers, spare_at, spare_within};

use crate::places::Places;
use ls_set::ItemSet;
use std::alloc::{AllocError, Global};
use std::marker::Model;

/// For each item, the places of the sets of a list that have it. Items past the end have none.
#[derive(Drop)]
pub struct Index {
    lists: Vec<Places>,
    // the items that have a place, and maybe more
    items: ItemSet,
}

impl Model for Index {
    ghost use Rattle.std.specs.Prelude.{List};
    ghost use Rattle.ls_rules.specs.Places.{PlaceList, Covers};

    ghost Value = { List PlaceList };

    ghost view = { λ a. a.lists.items };

    ghost invariant = { λ a. Covers a.items a.lists.items };
}

// Makes room for one place in each list.
fn reserve_each(lists: &mut [Places]) -> Result<(), AllocError>
    ensures ok { OnOk result ((i : ℕ) → i < length lists.old → 0 < spare_at lists.new i) }
    ensures places { (i : ℕ) → places_at lists.new i ≡ places_at lists.old i }
    ensures len { length lists.new ≡ length lists.old }
{
    for list in lists.iter_mut() {
        list.reserve()?;
    }
    Ok(())
}

// Adds empty lists until there are `n`.
fn widen(alloc: Global, lists: &mut Vec<Places>, n: u32) -> Result<(), AllocError>
    requires { length lists.old.items ≤ n }
    ensures ok { OnOk result (length lists.new.items ≡ n) }
    ensures places { (i : ℕ) → places_at lists.new.items i ≡ places_at lists.old.items i }
    ensures few { length lists.new.items ≤ n }
{
    while lists.len() < n as usize {
        lists.push(Places::new(alloc))?;
    }
    Ok(())
}

// Puts a place last in the list of each item of the set.
fn push_each(lists: &mut [Places], set: ItemSet, place: usize)
    requires { (i : ℕ) → has set i ≡ true → 0 < spare_at lists.old i }
    ensures places { (i : ℕ) → places_at lists.new i
        ≡ (if has set i then places_at lists.old i ++ place ∷ [] else places_at lists.old i) }
    ensures len { length lists.new ≡ length lists.old }
{
    let mut left = set;
    while let Some(i) = left.least() {
        left = left.without(i);
        let list = &mut lists[i as usize];
        list.push(place);
    }
}

// Takes one place out of each list, and lowers those above it by one.
fn remove_each(lists: &mut [Places], place: usize)
    ensures places { (i : ℕ) → places_at lists.new i ≡ lowered place (places_at lists.old i) }
    ensures len { length lists.new ≡ length lists.old }
{
    for list in lists.iter_mut() {
        list.remove(place);
    }
}

impl Index {
    /// No place for any item. It takes no memory.
    pub fn new(alloc: Global) -> Index
        ensures { result ≡ [] }
    {
        Index {
            lists: Vec::new(alloc),
            items: ItemSet::empty(),
        }
    }

    /// Makes room for one more set of items below `n`. Where memory runs out, some of the room may
    /// have been made; the places stay.
    pub fn reserve(&mut self, alloc: Global, n: u32) -> Result<(), AllocError>
        requires { length self.old ≤ n }
        ensures ok { OnOk result ((m : ℕ) → 0 < m → 0 < spare_within n self.new m) }
        ensures places { (i : ℕ) → places_at self.new i ≡ places_at self.old i }
        ensures few { length self.new ≤ n }
    {
        widen(alloc, &mut self.lists, n)?;
        reserve_each(&mut self.lists)
    }

    /// Puts a place last for each item of the set, in the room that was made.
    pub fn push(&mut self, set: ItemSet, place: usize)
        requires { (i : ℕ) → has set i ≡ true → 0 < spare_at self.old i }
        ensures places { (i : ℕ) → places_at self.new i
            ≡ (if has set i then places_at self.old i ++ place ∷ [] else places_at self.old i) }
        ensures len { length self.new ≡ length self.old }
    {
        push_each(&mut self.lists, set, place);
        self.items = self.items.union(set);
    }

    /// Takes out one place, and lowers those above it by one.
    pub fn remove(&mut self, place: usize)
        ensures places { (i : ℕ) → places_at self.new i ≡ lowered place (places_at self.old i) }
        ensures len { length self.new ≡ length self.old }
    {
        remove_each(&mut self.lists, place);
    }

    /// The items that have a place, and maybe more.
    pub fn items(&self) -> ItemSet
        ensures { Covers result self.now }
    {
        self.items
    }

    /// The places of the item, in ascending order.
    pub fn of(&self, i: u32) -> &[usize]
        ensures { result.now ≡ places_at self.now i }
    {
        match self.lists.get(i as usize) {
            Some(list) => list.as_slice(),
            None => &[],
        }
    }
}
