// Listed states, with their items as rows of bytes.
ghost use Rattle.std.specs.Prelude.{◌≡◌, ◌+◌, ◌*◌, ◌/◌, ◌%◌, ◌<◌, ◌≤◌, ◌^◌, ℕ, if◌then◌else◌};
ghost use Rattle.std.specs.Prelude.{length, drop, take, map, slice_index, sum, count_by, All};
ghost use Rattle.std.specs.Prelude.{IfOk, OnOk};
ghost use Rattle.std.specs.List.{range_with_len};
ghost use Rattle.ls_set.specs.{has, most_items};
ghost use Rattle.ls_theory.specs.{agrees, most_states};
ghost use Rattle.ls_weight.specs.Sums.{table_cells, cells_with};
ghost use Rattle.ls_weight.specs.Rows.{width_of, row_at, has_in, state_at, agreeing_with, AreRows};

use crate::amount::Amount;
use crate::columns::columns_of;
use crate::passes;
use ls_set::{ItemSet, PLACES, SetList};
use ls_theory::{Ratio, Reply};
use std::alloc::{AllocError, Global};
use std::marker::Model;

/// Listed states of `n` items. Contracts see these alone.
///
/// For each state the items are kept as a row of bytes, eight items a byte, and for each item, how
/// many states have it, and by the digits of a column of words, which.
#[derive(Drop)]
pub(crate) struct StateRows {
    n: u32,
    states: SetList,
    bytes: Vec<u8>,
    counts: Vec<u128>,
    columns: Vec<u64>,
}

impl Model for StateRows {
    ghost use Rattle.ls_weight.specs.Rows.{StateList, IsRowed};

    ghost Value = { StateList };

    ghost view = { λ r. record { item_count = r.n; states = r.states } };

    ghost invariant = { λ r.
        IsRowed (record { item_count = r.n; states = r.states })
        r.bytes.items r.counts.items r.columns.items };
}

// How many bytes hold `n` items.
fn width_of(n: u32) -> u32
    requires { n ≤ PLACES }
    ensures { result ≡ width_of n }
{
    (n + 7) / 8
}

// Puts the row of the state last.
fn push_row(bytes: &mut Vec<u8>, state: ItemSet, width: u32) -> Result<(), AllocError>
    requires { 8 * width ≤ most_items }
    ensures long { OnOk result (length bytes.new.items ≡ length bytes.old.items + width) }
    ensures before { OnOk result
        (take (length bytes.old.items) bytes.new.items ≡ bytes.old.items) }
    ensures row { OnOk result ((q : ℕ) → q < 8 * width →
        has_in (drop (length bytes.old.items) bytes.new.items) q ≡ has state q) }
{
    for g in 0..width {
        bytes.push(state.group(g))?;
    }
    Ok(())
}

// The rows of the states, of `n` items.
fn rows_of(alloc: Global, states: &[ItemSet], n: u32) -> Result<Vec<u8>, AllocError>
    requires few_items { n ≤ PLACES }
    requires few_states { length states.now ≤ most_states }
    ensures { IfOk result (λ v. AreRows n states.now v.items) }
{
    let width = width_of(n);
    let mut bytes = Vec::with_capacity(alloc, width as usize * states.len())?;
    for state in states {
        push_row(&mut bytes, *state, width)?;
    }
    Ok(bytes)
}

// How many of the states have the item.
fn count_with(states: &[ItemSet], q: u32) -> u128
    requires { q < most_items }
    ensures { result ≡ count_by (λ k. has k q) states.now }
{
    let mut count = 0;
    for state in states {
        if state.has(q) {
            count += 1;
        }
    }
    count
}

// For each of `n` items, how many of the states have it.
fn counts_of(alloc: Global, states: &[ItemSet], n: u32) -> Result<Vec<u128>, AllocError>
    requires { n ≤ PLACES }
    ensures { IfOk result (λ v.
        v.items ≡ map (λ q. count_by (λ k. has k q) states.now) (range_with_len 0 n)) }
{
    (0..n).map(|q| count_with(states, q)).collect(alloc)
}

impl StateRows {
    /// The states, of `n` items.
    pub(crate) fn new(alloc: Global, n: u32, states: SetList) -> Result<StateRows, AllocError>
        requires few_items { n ≤ PLACES }
        requires few_states { length states ≤ most_states }
        ensures { IfOk result (λ r. r ≡ record { item_count = n; states = states }) }
    {
        let bytes = rows_of(alloc, states.as_slice(), n)?;
        let counts = counts_of(alloc, states.as_slice(), n)?;
        let columns = columns_of(alloc, &bytes, n, states.len())?;
        Ok(StateRows {
            n,
            states,
            bytes,
            counts,
            columns,
        })
    }

    /// The states, in their order.
    pub(crate) fn states(&self) -> &[ItemSet]
        ensures value { result.now ≡ self.now.states }
        ensures few { length result.now ≤ most_states }
    {
        self.states.as_slice()
    }

    /// For each item, how many states have it.
    pub(crate) fn counts(&self) -> &[u128]
        ensures { result.now
            ≡ map (λ q. count_by (λ k. has k q) self.now.states)
            (range_with_len 0 self.now.item_count) }
    {
        &self.counts
    }

    /// How many bytes the row of a state has.
    pub(crate) fn width(&self) -> usize
        ensures { result ≡ width_of self.now.item_count }
    {
        width_of(self.n) as usize
    }

    /// Whether the state at a place agrees with the reply.
    pub(crate) fn agrees(&self, place: usize, reply: Reply) -> bool
        requires place { place < length self.now.states }
        requires item { reply.q < self.now.item_count }
        ensures { result ≡ agrees (state_at self.now.states place) reply }
    {
        let width = self.width();
        passes::agrees(&self.bytes[width * place..width * (place + 1)], reply)
    }

    /// Multiplies the weight of each state by `a` where it agrees with the reply, and else by `b`.
    /// For each item, the cells of its group's table for the bytes with it become the weights
    /// before of the states that agree and have it.
    pub(crate) fn weigh<T: Amount>(
        &self,
        weights: &mut [u128],
        tables: &mut [T],
        reply: Reply,
        ratio: Ratio,
    )
        requires item { reply.q < self.now.item_count }
        requires each { length weights.old ≡ length self.now.states }
        requires tables { length tables.old ≡ table_cells * width_of self.now.item_count }
        requires some { 1 ≤ ratio.b }
        requires order { ratio.b ≤ ratio.a }
        requires grows { All (λ w. w * ratio.a < T.bound) weights.old }
        requires fits { sum weights.old < T.bound }
        ensures weights { (i : ℕ) → i < length self.now.states → slice_index weights.new i
            ≡ slice_index weights.old i
            * (if agrees (state_at self.now.states i) reply then ratio.a else ratio.b) }
        ensures cells { (q : ℕ) → q < self.now.item_count →
            cells_with (row_at (map T.number tables.new) table_cells (q / 8)) (q % 8)
            ≡ agreeing_with self.now.states reply weights.old q }
        ensures sums { (g : ℕ) → g < width_of self.now.item_count →
            sum (row_at (map T.number tables.new) table_cells g) ≤ sum weights.old }
    {
        let words = self.columns.len() / self.n as usize;
        let column = &self.columns[words * reply.q as usize..words * (reply.q as usize + 1)];
        passes::weigh(
            weights,
            tables,
            &self.bytes,
            self.width(),
            column,
            reply,
            ratio,
        );
    }
}
