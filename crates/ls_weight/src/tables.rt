// The tables that a pass over the states fills, and what is brought up to date by them.
ghost use Rattle.std.specs.Prelude.{◌≡◌, ◌+◌, ◌-◌, ◌*◌, ◌<◌, ◌≤◌, ◌^◌, ℕ, if◌then◌else◌};
ghost use Rattle.std.specs.Prelude.{length, slice_index, sum, IfOk};
ghost use Rattle.ls_theory.specs.{agrees};
ghost use Rattle.ls_weight.specs.Sums.{table_cells};
ghost use Rattle.ls_weight.specs.Rows.{agreeing_with, state_at, width_of};

use crate::amount::Amount;
use crate::masses::weigh_masses;
use crate::rows::StateRows;
use ls_theory::{Ratio, Reply};
use std::alloc::{AllocError, Global};
use std::marker::Model;

// Sums below this have no more than 64 digits.
const NARROW: u128 = 1 << 64;

/// A table of cells for each group of eight items, in 64 digits for replies after which the total
/// has no more, and in 128 for others. Contracts see how many cells there are; each reply writes
/// them anew.
#[derive(Drop)]
pub(crate) struct Tables {
    narrow: Vec<u64>,
    wide: Vec<u128>,
}

impl Model for Tables {
    ghost use Rattle.std.specs.Prelude.{ℕ, ◌≡◌, length};

    ghost Value = { ℕ };

    ghost view = { λ t. length t.wide.items };

    ghost invariant = { λ t. length t.narrow.items ≡ length t.wide.items };
}

// Multiplies the weight of each state by `a` where it agrees with the reply, and else by `b`, and
// brings the masses up to date.
fn weigh_in<T: Amount>(
    tables: &mut [T],
    rows: &StateRows,
    weights: &mut [u128],
    masses: &mut [u128],
    reply: Reply,
    ratio: Ratio,
)
    requires tables { length tables.old ≡ table_cells * width_of rows.now.item_count }
    requires item { reply.q < rows.now.item_count }
    requires each_state { length weights.old ≡ length rows.now.states }
    requires each_item { length masses.old ≡ rows.now.item_count }
    requires some { 1 ≤ ratio.b }
    requires order { ratio.b ≤ ratio.a }
    requires fits { sum weights.old * ratio.a < T.bound }
    requires masses { (q : ℕ) → q < rows.now.item_count → ratio.b * slice_index masses.old q
        + (ratio.a - ratio.b) * agreeing_with rows.now.states reply weights.old q < 2 ^ 128 }
    ensures weights { (i : ℕ) → i < length rows.now.states → slice_index weights.new i
        ≡ slice_index weights.old i
        * (if agrees (state_at rows.now.states i) reply then ratio.a else ratio.b) }
    ensures masses { (q : ℕ) → q < rows.now.item_count → slice_index masses.new q
        ≡ ratio.b * slice_index masses.old q
        + (ratio.a - ratio.b) * agreeing_with rows.now.states reply weights.old q }
{
    rows.weigh(weights, tables, reply, ratio);
    weigh_masses(masses, tables, ratio);
}

impl Tables {
    /// So many cells.
    pub(crate) fn new(alloc: Global, cells: usize) -> Result<Tables, AllocError>
        ensures { IfOk result (λ t. t ≡ cells) }
    {
        let narrow = Vec::from_elem(alloc, 0, cells)?;
        let wide = Vec::from_elem(alloc, 0, cells)?;
        Ok(Tables { narrow, wide })
    }

    /// How many cells there are.
    pub(crate) fn cells(&self) -> usize
        ensures { result ≡ self.now }
    {
        self.wide.len()
    }

    /// Multiplies the weight of each state by `a` where it agrees with the reply, and else by `b`,
    /// and brings the masses up to date. The total before is given.
    pub(crate) fn weigh(
        &mut self,
        rows: &StateRows,
        weights: &mut [u128],
        masses: &mut [u128],
        total: u128,
        reply: Reply,
        ratio: Ratio,
    )
        requires tables { self.old ≡ table_cells * width_of rows.now.item_count }
        requires item { reply.q < rows.now.item_count }
        requires each_state { length weights.old ≡ length rows.now.states }
        requires each_item { length masses.old ≡ rows.now.item_count }
        requires some { 1 ≤ ratio.b }
        requires order { ratio.b ≤ ratio.a }
        requires total { total ≡ sum weights.old }
        requires fits { total * ratio.a < 2 ^ 128 }
        requires masses { (q : ℕ) → q < rows.now.item_count → ratio.b * slice_index masses.old q
            + (ratio.a - ratio.b) * agreeing_with rows.now.states reply weights.old q < 2 ^ 128 }
        ensures cells { self.new ≡ self.old }
        ensures weights { (i : ℕ) → i < length rows.now.states → slice_index weights.new i
            ≡ slice_index weights.old i
            * (if agrees (state_at rows.now.states i) reply then ratio.a else ratio.b) }
        ensures masses { (q : ℕ) → q < rows.now.item_count → slice_index masses.new q
            ≡ ratio.b * slice_index masses.old q
            + (ratio.a - ratio.b) * agreeing_with rows.now.states reply weights.old q }
    {
        if total * u128::from(ratio.a) < NARROW {
            weigh_in(&mut self.narrow, rows, weights, masses, reply, ratio);
        } else {
            weigh_in(&mut self.wide, rows, weights, masses, reply, ratio);
        }
    }
}
