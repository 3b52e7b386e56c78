// Relations.
ghost use Rattle.std.specs.Prelude.{◌≡◌, ◌<◌, ◌≤◌, ℕ, List, None, Ok, Some, length, option_map};
ghost use Rattle.std.specs.Prelude.{IfOk, IfErr};
ghost use Rattle.std.specs.List.{All};
ghost use Rattle.ls_origins.specs.Relations.{below_of, covers, first_cycle, relation};
ghost use Rattle.ls_origins.specs.declared.pair_fault.PairFault.TheVariants.{Cycle};
ghost use Rattle.ls_files.specs.PairFiles.{IsPairFaultOf, pair_items, relation_of};
ghost use Rattle.ls_order.specs.Closing.{ArePaired, AreRows};
ghost use Rattle.ls_order.specs.Orders.{ArePairs, IsOrder};

use crate::closing::make_order;
use crate::covering::all_covers;
use crate::pair_rows::read_rows;
use ls_domain::Domain;
use ls_origins::{Covers, PairFault};
use ls_set::{ItemSet, PLACES};
use std::alloc::{AllocError, Global};
use std::marker::Model;

/// A partial order on items: for each item in turn the items below it, and itself.
#[derive(Drop)]
pub struct Relation {
    below: Vec<ItemSet>,
}

impl Model for Relation {
    ghost use Rattle.std.specs.Prelude.{length};
    ghost use Rattle.ls_order.specs.Related.{RelationState, IsRelation};

    ghost Value = { RelationState };

    ghost view = { λ r. record { item_count = length r.below.items; below = r.below.items } };

    ghost invariant = { λ r. IsRelation (record {
      item_count = length r.below.items;
      below = r.below.items;
    }) };
}

impl Relation {
    /// The relation of a file of pairs: in each line the names of a lower and of a higher item. It
    /// puts below an item what a row of pairs leads down to from it. The error is that of the first
    /// line that has one; else an item is below itself; or memory ran out.
    pub fn from_text(alloc: Global, d: &Domain, bytes: &[u8]) -> Result<Relation, PairFault>
        ensures below { IfOk result (λ r. relation_of d.now bytes.now ≡ Ok r.below) }
        ensures item_count { IfOk result (λ r. r.item_count ≡ length d.now) }
        ensures fault { IfErr result (IsPairFaultOf (relation_of d.now bytes.now)) }
        ensures items { IfErr result (λ e. All (λ q. q < length d.now) (pair_items e)) }
    {
        let _ = d.count(); // for the proof
        let rows = read_rows(alloc, d, bytes)?;
        Relation::from_rows(rows)
    }

    // The relation of the rows, which is a partial order.
    pub(crate) fn from_order(below: Vec<ItemSet>) -> Relation
        requires few { length below.items ≤ PLACES }
        requires order { IsOrder (length below.items) below.items }
        ensures below { result.below ≡ below.items }
        ensures item_count { result.item_count ≡ length below.items }
    {
        Relation { below }
    }

    // The relation of pairs, given as their rows, unless it puts an item below itself.
    pub(crate) fn from_rows(rows: Vec<ItemSet>) -> Result<Relation, PairFault>
        requires few { length rows.items ≤ PLACES }
        requires paired { ArePaired (length rows.items) rows.items }
        ensures below { (pairs : List (ℕ × ℕ)) → ArePairs (length rows.items) pairs →
            AreRows (length rows.items) pairs rows.items →
            IfOk result (λ r. (first_cycle (length rows.items) pairs ≡ None)
            × (r.below ≡ relation (length rows.items) pairs)) }
        ensures item_count { IfOk result (λ r. r.item_count ≡ length rows.items) }
        ensures fault { (pairs : List (ℕ × ℕ)) → ArePairs (length rows.items) pairs →
            AreRows (length rows.items) pairs rows.items →
            IfErr result (λ e. option_map Cycle (first_cycle (length rows.items) pairs)
            ≡ Some e) }
        ensures items { IfErr result (λ e. All (λ q. q < length rows.items) (pair_items e)) }
    {
        let mut rows = rows;
        match make_order(&mut rows) {
            Some(item) => Err(PairFault::Cycle { item }),
            None => Ok(Relation { below: rows }),
        }
    }

    /// How many items there are.
    pub fn items(&self) -> u32
        ensures count { result ≡ self.now.item_count }
        ensures few { result ≤ PLACES }
        ensures order { IsOrder self.now.item_count self.now.below }
    {
        self.below.len() as u32
    }

    // The rows of the items in turn.
    pub(crate) fn rows(&self) -> &[ItemSet]
        ensures value { result.now ≡ self.now.below }
        ensures count { length result.now ≡ self.now.item_count }
    {
        &self.below
    }

    /// The items below an item, and the item itself. It takes no memory.
    pub fn below(&self, q: u32) -> ItemSet
        requires { q < self.now.item_count }
        ensures { result ≡ below_of self.now.below q }
    {
        self.below[q as usize]
    }

    /// The covers, in order of the lower item and then the higher.
    pub fn covers(&self, alloc: Global) -> Result<Covers, AllocError>
        ensures { IfOk result (λ c. c ≡ covers self.now.item_count self.now.below) }
    {
        all_covers(alloc, &self.below)
    }
}
