// Relations and the surmise functions in which each item has one clause.
ghost use Rattle.std.specs.Prelude.{◌≡◌, ◌<◌, ◌≤◌, ◌-◌, ◌+◌, ◌&&◌, None, true, find, length};
ghost use Rattle.std.specs.Prelude.{IfErr, IfOk, OnOk, option_map};
ghost use Rattle.ls_set.specs.ItemSet.{full, has, numbers_from};
ghost use Rattle.ls_theory.specs.Verdict.{is_learning_space};
ghost use Rattle.ls_clauses.specs.Surmise.{IsSurmise};
ghost use Rattle.ls_origins.specs.Relations.{below_of, clauses_below, first_clauses, kept_sets};
ghost use Rattle.ls_origins.specs.Relations.{quasi_pair, relation_fault, two_clauses};
ghost use Rattle.ls_origins.specs.declared.relation_fault.RelationFault.TheVariants.{TwoClauses};
ghost use Rattle.ls_surmise.specs.Surmises.{met_by};
ghost use Rattle.ls_order.specs.Surmising.{IsRelationFaultOf};

use crate::Relation;
use ls_interior::Inside;
use ls_origins::RelationFault;
use ls_set::{ItemSet, PLACES, SetList};
use ls_surmise::Surmise;
use ls_theory::SurmiseFault;
use std::alloc::{AllocError, Global};

// The least item with two clauses or more.
fn two_clauses(s: &Surmise) -> Option<u32>
    ensures { result ≡ two_clauses s.now.item_count s.now.clauses }
{
    for item in 0..s.items() {
        if s.clauses(item).len() > 1 {
            return Some(item);
        }
    }
    None
}

// The first clause of each item.
fn first_clauses(alloc: Global, s: &Surmise) -> Result<Vec<ItemSet>, AllocError>
    requires { IsSurmise s.now.item_count s.now.clauses }
    ensures below { IfOk result (λ v. v.items ≡ first_clauses s.now.clauses) }
    ensures few { IfOk result (λ v. length v.items ≤ PLACES) }
{
    let mut below = Vec::new(alloc);
    for item in 0..s.items() {
        below.push(s.clauses(item)[0])?;
    }
    Ok(below)
}

// The first later item such that it and the item are below each other.
fn quasi_after(below: &[ItemSet], first: u32) -> Option<u32>
    requires few { length below.now ≤ PLACES }
    requires item { first < length below.now }
    ensures { result
        ≡ find (λ q. has (below_of below.now q) first && has (below_of below.now first) q)
        (numbers_from (first + 1) (length below.now - (first + 1))) }
{
    let row = below[first as usize];
    for second in first as usize + 1..below.len() {
        if below[second].has(first) && row.has(second as u32) {
            return Some(second as u32);
        }
    }
    None
}

// The first two items that are below each other.
fn quasi_pair(below: &[ItemSet]) -> Option<(u32, u32)>
    requires { length below.now ≤ PLACES }
    ensures { result ≡ quasi_pair (length below.now) below.now }
{
    for first in 0..below.len() {
        if let Some(second) = quasi_after(below, first as u32) {
            return Some((first as u32, second));
        }
    }
    None
}

// For each row the list of it alone.
fn single_lists(alloc: Global, below: &[ItemSet]) -> Result<Vec<SetList>, AllocError>
    ensures { IfOk result (λ v. v.items ≡ clauses_below below.now) }
{
    let mut lists = Vec::new(alloc);
    for row in below {
        let mut list = SetList::new(alloc);
        list.push(*row)?;
        lists.push(list)?;
    }
    Ok(lists)
}

impl Relation {
    /// The relation of a surmise function in which each item has one clause: the items below an
    /// item are those of its clause. The error is the first of these: an item has two clauses or
    /// more; two items are below each other; or memory ran out.
    pub fn from_surmise(alloc: Global, s: &Surmise) -> Result<Relation, RelationFault>
        requires surmise { IsSurmise s.now.item_count s.now.clauses }
        ensures below { IfOk result (λ r.
            (relation_fault s.now.item_count s.now.clauses ≡ None)
            × (r.below ≡ first_clauses s.now.clauses)) }
        ensures item_count { IfOk result (λ r. r.item_count ≡ s.now.item_count) }
        ensures family { IfOk result (λ r. kept_sets r.item_count r.below ≡ met_by s.now) }
        ensures fault { IfErr result (IsRelationFaultOf
            (relation_fault s.now.item_count s.now.clauses)) }
    {
        if let Some(item) = two_clauses(s) {
            return Err(RelationFault::TwoClauses { item });
        }
        let below = first_clauses(alloc, s)?;
        if let Some((first, second)) = quasi_pair(&below) {
            return Err(RelationFault::Quasi { first, second });
        }
        Ok(Relation::from_order(below))
    }

    /// The surmise function in which each item has one clause, the items below it. Its family is
    /// that of the sets which have, with each item, all items below it.
    pub fn to_surmise(&self, alloc: Global) -> Result<Surmise, AllocError>
        ensures clauses { IfOk result (λ s. s.clauses ≡ clauses_below self.now.below) }
        ensures item_count { IfOk result (λ s. s.item_count ≡ self.now.item_count) }
        ensures surmise { IfOk result (λ s. IsSurmise s.item_count s.clauses) }
        ensures family { IfOk result (λ s.
            met_by s ≡ kept_sets self.now.item_count self.now.below) }
        ensures learning { IfOk result (λ s.
            is_learning_space (full s.item_count) (met_by s) ≡ true) }
    {
        let lists = single_lists(alloc, self.rows())?;
        match Surmise::from_clauses(alloc, self.items(), &lists) {
            Ok(surmise) => Ok(surmise),
            Err(fault) => match fault {
                SurmiseFault::Memory(e) => Err(e),
                _ => unreachable!(),
            },
        }
    }
}
