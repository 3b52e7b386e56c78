// Witnesses of what is not enough.
ghost use Rattle.std.specs.Prelude.{◌≡◌, ◌<◌, List, [], true, not, map, filter, IfOk};
ghost use Rattle.std.specs.List.{list_all};
ghost use Rattle.ls_set.specs.{Items, is_among};
ghost use Rattle.ls_theory.specs.{breaks};
ghost use Rattle.ls_infer.specs.Tables.{AreStates};

use crate::breaking::breaks;
use ls_set::{ItemSet, PLACES, Query};
use std::alloc::{AllocError, Global};
use std::marker::Model;

/// For how many states there is room for an item at least.
const FEWEST: usize = 512;

/// For how many states there is room for each standing No, in equal parts for the items.
const FOR_EACH_NO: usize = 128;

/// How many states are made smaller where the Yes answers change by one, in equal parts for the
/// items; where a table is built, for all its Nos together; and for a No that comes.
const MOST_TURNS: usize = 4096;

// For how many states there is room for an item.
fn room_for(nos: usize, items: usize) -> usize {
    let part = nos.saturating_mul(FOR_EACH_NO) / items.max(1);
    part.max(FEWEST)
}

// How many turns an item has where all items have equal parts.
fn turns_for(items: usize) -> usize {
    MOST_TURNS / items.max(1)
}

/// States that are kept for an item p. Each has p: that shows that no item outside it is enough for
/// p with any closed set that it doesn't meet. Contracts see them as their list.
#[derive(Drop)]
pub struct Witnesses {
    states: Vec<ItemSet>,
    // how many were put in the place of others
    replaced: usize,
    // how many more are made smaller
    turns: usize,
}

impl Model for Witnesses {
    ghost use Rattle.std.specs.Prelude.{List};
    ghost use Rattle.ls_set.specs.{Items};

    ghost Value = { List Items };

    ghost view = { λ w. w.states.items };
}

impl Witnesses {
    // None yet, with the room for them and so many turns, unless memory runs out.
    fn new(alloc: Global, room: usize, turns: usize) -> Result<Witnesses, AllocError>
        ensures { IfOk result (λ w. w ≡ []) }
    {
        Ok(Witnesses {
            states: Vec::with_capacity(alloc, room)?,
            replaced: 0,
            turns,
        })
    }

    // Makes room for so many in all, unless memory runs out.
    fn reserve(&mut self, room: usize) -> Result<(), AllocError>
        ensures { self.new ≡ self.old }
    {
        self.states.reserve(room.saturating_sub(self.states.len()))
    }

    /// The states.
    pub fn states(&self) -> &[ItemSet]
        ensures { result.now ≡ self.now }
    {
        &self.states
    }

    /// Keeps one more, where there is no room in the place of another. It takes no memory.
    pub fn keep(&mut self, state: ItemSet)
        ensures { (f : List Items) → list_all (is_among f) self.old ≡ true →
            is_among f state ≡ true → list_all (is_among f) self.new ≡ true }
    {
        let count = self.states.len();
        if count < self.states.capacity() {
            self.states.push_reserved(state);
        } else if let Some(place) = self.states.get_mut(self.replaced % count.max(1)) {
            *place = state;
            self.replaced = self.replaced.wrapping_add(1);
        }
    }

    // Gives so many turns.
    fn renew(&mut self, turns: usize)
        ensures { self.new ≡ self.old }
    {
        self.turns = turns;
    }

    // Whether a turn is left, which it takes.
    fn take_turn(&mut self) -> bool
        ensures { self.new ≡ self.old }
    {
        let is_left = self.turns > 0;
        self.turns = self.turns.saturating_sub(1);
        is_left
    }

    /// Lets go of those that break the query.
    pub fn let_go(&mut self, r: &Query)
        requires { r.now.q < PLACES }
        ensures { self.new ≡ filter (λ k. not (breaks k r.now)) self.old }
    {
        self.states.retain(|s| !breaks(*s, r));
    }
}

/// Whether one more state is made smaller for the item, which takes one of its turns.
pub fn take_turn(kept: &mut [Witnesses], item: u32) -> bool
    ensures { kept.new ≡ kept.old }
{
    let place = item as usize;
    place < kept.len() && kept[place].take_turn()
}

/// Gives all turns to one item.
pub fn renew(kept: &mut [Witnesses], item: u32)
    ensures { kept.new ≡ kept.old }
{
    let place = item as usize;
    if place < kept.len() {
        kept[place].renew(MOST_TURNS);
    }
}

/// Gives all turns to the items, in equal parts.
pub fn renew_each(kept: &mut [Witnesses])
    ensures { kept.new ≡ kept.old }
{
    let turns = turns_for(kept.len());
    for witnesses in kept.iter_mut() {
        witnesses.renew(turns);
    }
}

/// Keeps a state for the item, where some are kept for it.
pub fn keep_witness(kept: &mut [Witnesses], state: ItemSet, item: u32)
    ensures { (f : List Items) → AreStates f kept.old → is_among f state ≡ true →
        AreStates f kept.new }
{
    let place = item as usize;
    if place < kept.len() {
        kept[place].keep(state);
    }
}

/// Lets go of the states that break the query.
pub fn let_go_each(kept: &mut [Witnesses], r: &Query)
    requires { r.now.q < PLACES }
    ensures { kept.new ≡ map (filter (λ k. not (breaks k r.now))) kept.old }
{
    for witnesses in kept.iter_mut() {
        witnesses.let_go(r);
    }
}

/// Makes the room that so many standing Nos are worth, unless memory runs out.
pub fn reserve_each(kept: &mut [Witnesses], nos: usize) -> Result<(), AllocError>
    ensures { kept.new ≡ kept.old }
{
    let room = room_for(nos, kept.len());
    for witnesses in kept.iter_mut() {
        witnesses.reserve(room)?;
    }
    Ok(())
}

/// None yet for each of the first `n` items, with equal parts of the turns and the room that so
/// many standing Nos are worth, unless memory runs out.
pub fn no_witnesses(alloc: Global, n: u32, nos: usize) -> Result<Vec<Witnesses>, AllocError>
    ensures { (f : List Items) → IfOk result (λ v. AreStates f v.items) }
{
    let room = room_for(nos, n as usize);
    let turns = turns_for(n as usize);
    let mut kept = Vec::new(alloc);
    for _item in 0..n {
        kept.push(Witnesses::new(alloc, room, turns)?)?;
    }
    Ok(kept)
}
