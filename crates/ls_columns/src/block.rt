// Some rules, by the items of their sets A.
ghost use Rattle.std.specs.Prelude.{◌≡◌, ℕ, ◌<◌, ◌≤◌, ◌&&◌, not, true, if◌then◌else◌};
ghost use Rattle.std.specs.Prelude.{length, IfOk};
ghost use Rattle.ls_set.specs.{has, most_items, with};
ghost use Rattle.ls_rules.specs.Sets.{set_at};
ghost use Rattle.ls_columns.specs.Places.{is_at, meets, ArePlaces, AreColumns, IsAsked};
ghost use Rattle.ls_columns.specs.Falling.{fallen_by};

use ls_set::{ItemSet, PLACES, Query};
use std::alloc::{AllocError, Global};
use std::marker::Model;

// Where so few rules are left, each is looked at by itself.
const FEW: u32 = 32;

/// At most [`PLACES`] rules, with a column for each item: the set of the places of the rules whose
/// sets A have the item. Contracts see the rules.
#[derive(Drop)]
pub struct Block {
    rules: Vec<Query>,
    columns: Vec<ItemSet>,
}

impl Model for Block {
    ghost use Rattle.std.specs.Prelude.{List};
    ghost use Rattle.ls_set.specs.declared.query.Query.{Query};
    ghost use Rattle.ls_columns.specs.Places.{AreColumns};

    ghost Value = { List Query };

    ghost view = { λ b. b.rules.items };

    ghost invariant = { λ b. AreColumns b.rules.items b.columns.items };
}

// Puts a place into the column of each item of the set.
fn put(columns: &mut [ItemSet], set: ItemSet, place: u32)
    requires count { length columns.old ≡ most_items }
    requires place { place < most_items }
    ensures columns { (i : ℕ) → i < most_items → set_at columns.new i
        ≡ (if has set i then with (set_at columns.old i) place else set_at columns.old i) }
    ensures count { length columns.new ≡ most_items }
{
    let mut left = set;
    while let Some(i) = left.least() {
        left = left.without(i);
        columns[i as usize] = columns[i as usize].with(place);
    }
}

// The columns of the rules.
fn columns_of(alloc: Global, rules: &[Query]) -> Result<Vec<ItemSet>, AllocError>
    requires { length rules.now ≤ most_items }
    ensures { IfOk result (λ columns. AreColumns rules.now columns.items) }
{
    let mut columns = Vec::from_elem(alloc, ItemSet::empty(), PLACES as usize)?;
    for place in 0..rules.len() {
        put(&mut columns, rules[place].a, place as u32);
    }
    Ok(columns)
}

impl Block {
    /// The rules with their columns, unless memory runs out.
    pub fn new(alloc: Global, rules: &[Query]) -> Result<Block, AllocError>
        requires { length rules.now ≤ most_items }
        ensures { IfOk result (λ block. block ≡ rules.now) }
    {
        let columns = columns_of(alloc, rules)?;
        let rules = Vec::from_slice(alloc, rules)?;
        Ok(Block { rules, columns })
    }

    // The places of the rules whose sets A have one of the items.
    fn with_any(&self, items: ItemSet) -> ItemSet
        ensures { ArePlaces (λ r. meets r.a items) self.now result }
    {
        let mut places = ItemSet::empty();
        let mut left = items;
        while let Some(i) = left.least() {
            left = left.without(i);
            places = places.union(self.columns[i as usize]);
        }
        places
    }

    // Those of the places whose rules have none of the items in their sets A.
    #[tactic(auto, unfolding(ls_set::specs::ItemSet::is_same))]
    fn without_any(&self, places: ItemSet, items: ItemSet) -> ItemSet
        ensures { (k : ℕ) →
            has result k ≡ (has places k && not (is_at (λ r. meets r.a items) self.now k)) }
    {
        let mut rest = places;
        let mut left = items;
        while let Some(i) = left.least() {
            left = left.without(i);
            rest = rest.minus(self.columns[i as usize]);
            if rest == ItemSet::empty() {
                return rest;
            }
        }
        rest
    }

    // The items q of the rules at the places whose sets A have no item that is kept. An item that
    // no set can have is passed over.
    #[tactic(auto, unfolding(ls_set::specs::ItemSet::is_same))]
    fn asked(&self, places: ItemSet, kept: ItemSet) -> ItemSet
        requires { (k : ℕ) → has places k ≡ true → k < length self.now }
        ensures all { (j : ℕ) → IsAsked self.now places kept j → has result j ≡ true }
        ensures only { (j : ℕ) → has result j ≡ true → IsAsked self.now places kept j }
    {
        let mut asked = ItemSet::empty();
        let mut left = places;
        while let Some(place) = left.least() {
            left = left.without(place);
            let rule = &self.rules[place as usize];
            if rule.q < PLACES && kept.meet(rule.a) == ItemSet::empty() {
                asked = asked.with(rule.q);
            }
        }
        asked
    }

    /// The items q of the rules whose sets A have an item that fell and none that is kept: they
    /// fall too.
    pub fn broken(&self, fallen: ItemSet, kept: ItemSet) -> ItemSet
        ensures { result ≡ fallen_by self.now fallen kept }
    {
        let places = self.with_any(fallen);
        if places.len() <= FEW {
            self.asked(places, kept)
        } else {
            self.asked(self.without_any(places, kept), kept)
        }
    }
}
