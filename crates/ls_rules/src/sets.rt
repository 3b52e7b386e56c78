// A set of items for each item.
ghost use Rattle.std.specs.Prelude.{◌≡◌, ℕ, ◌<◌, ◌≤◌, [], length, set, OnOk};
ghost use Rattle.ls_set.specs.{empty};
ghost use Rattle.ls_rules.specs.Sets.{set_at};

use ls_set::{ItemSet, PLACES};
use std::alloc::{AllocError, Global};
use std::marker::Model;

/// A set of items for each item, empty past the end.
#[derive(Drop)]
pub struct Sets {
    list: Vec<ItemSet>,
}

impl Model for Sets {
    ghost use Rattle.std.specs.Prelude.{List};
    ghost use Rattle.ls_set.specs.{Items};

    ghost Value = { List Items };

    ghost view = { λ a. a.list.items };
}

// Adds empty sets until there are `n`.
fn widen(list: &mut Vec<ItemSet>, n: u32) -> Result<(), AllocError>
    requires { n ≤ PLACES }
    ensures ok { OnOk result (n ≤ length list.new.items) }
    ensures sets { (i : ℕ) → set_at list.new.items i ≡ set_at list.old.items i }
    ensures len { length list.old.items ≤ length list.new.items }
    ensures few { length list.old.items ≤ PLACES → length list.new.items ≤ PLACES }
{
    while list.len() < n as usize {
        list.push(ItemSet::empty())?;
    }
    Ok(())
}

// Puts a set in the place of that of item `i`.
fn put(list: &mut [ItemSet], i: u32, items: ItemSet)
    requires { i < length list.old }
    ensures { list.new ≡ set list.old i items }
{
    list[i as usize] = items;
}

impl Sets {
    /// The empty set for each item. It takes no memory.
    pub fn new(alloc: Global) -> Sets
        ensures { result ≡ [] }
    {
        Sets {
            list: Vec::new(alloc),
        }
    }

    /// Makes room for the sets of `n` items. Where memory runs out, some of the room may have been
    /// made; the sets stay.
    pub fn reserve(&mut self, n: u32) -> Result<(), AllocError>
        requires { n ≤ PLACES }
        ensures ok { OnOk result (n ≤ length self.new) }
        ensures sets { (i : ℕ) → set_at self.new i ≡ set_at self.old i }
        ensures len { length self.old ≤ length self.new }
        ensures few { length self.old ≤ PLACES → length self.new ≤ PLACES }
    {
        widen(&mut self.list, n)
    }

    /// Puts a set in the place of that of item `i`, in the room that was made.
    pub fn put(&mut self, i: u32, items: ItemSet)
        requires { i < length self.old }
        ensures { self.new ≡ set self.old i items }
    {
        put(&mut self.list, i, items);
    }

    /// Makes each set empty. The room stays.
    pub fn clear(&mut self)
        ensures sets { (i : ℕ) → set_at self.new i ≡ empty }
        ensures len { length self.new ≡ length self.old }
    {
        self.list.fill(ItemSet::empty());
    }

    /// The set of an item.
    pub fn of(&self, i: u32) -> ItemSet
        ensures { result ≡ set_at self.now i }
    {
        match self.list.get(i as usize) {
            Some(items) => *items,
            None => ItemSet::empty(),
        }
    }
}
