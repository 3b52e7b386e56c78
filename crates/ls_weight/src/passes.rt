// One pass over the states for a reply.
ghost use Rattle.std.specs.Prelude.{◌≡◌, ◌+◌, ◌*◌, ◌/◌, ◌<◌, ◌≤◌, ◌^◌, ◌==◌, ℕ};
ghost use Rattle.std.specs.Prelude.{if◌then◌else◌, length, map, slice_index, sum, All};
ghost use Rattle.ls_weight.specs.Sums.{table_cells};
ghost use Rattle.ls_weight.specs.Rows.{agrees_in, row_at, cell_of, IsColumn};

use crate::amount::Amount;
use crate::columns::{first_from, step};
use ls_theory::{Ratio, Reply};

/// A table has a cell for each byte.
pub(crate) const TABLE_CELLS: usize = 256;

// Whether the row agrees with the reply: it has the item of a right one, and lacks the item of a
// wrong one.
pub(crate) fn agrees(row: &[u8], reply: Reply) -> bool
    requires { reply.q / 8 < length row.now }
    ensures { result ≡ agrees_in row.now reply }
{
    let byte = row[(reply.q / 8) as usize];
    (byte >> (reply.q % 8) & 1 == 1) == reply.right
}

// Makes each cell 0.
#[inline(always)]
fn clear<T: Amount>(tables: &mut [T])
    ensures { (k : ℕ) → slice_index (map T.number tables.new) k ≡ 0 }
{
    for i in 0..tables.len() {
        tables[i] = T::zero();
    }
}

// Adds the weight to the cell of each byte of the row, in the table of its group.
#[inline(always)]
fn add_weight<T: Amount>(tables: &mut [T], row: &[u8], weight: T)
    requires each { length tables.old ≡ table_cells * length row.now }
    requires fits { (g : ℕ) → g < length row.now →
        slice_index (map T.number tables.old) (table_cells * g + slice_index row.now g)
        + T.number weight < T.bound }
    ensures { (g v : ℕ) → g < length row.now → v < table_cells →
        slice_index (map T.number tables.new) (table_cells * g + v)
        ≡ slice_index (map T.number tables.old) (table_cells * g + v)
        + (if slice_index row.now g == v then T.number weight else 0) }
{
    for g in 0..row.len() {
        let cell = TABLE_CELLS * g + row[g] as usize;
        tables[cell] = tables[cell].plus(weight);
    }
}

// Multiplies the weight of a state by `a`. In the tables it adds the weight before to the cell of
// each of the state's bytes.
#[inline(always)]
fn weigh_state<T: Amount>(weight: &mut u128, tables: &mut [T], row: &[u8], ratio: Ratio)
    requires each { length tables.old ≡ table_cells * length row.now }
    requires own { weight.old < T.bound }
    requires grows { weight.old * ratio.a < T.bound }
    requires fits { (g : ℕ) → g < length row.now →
        slice_index (map T.number tables.old) (table_cells * g + slice_index row.now g)
        + weight.old < T.bound }
    ensures weight { weight.new ≡ weight.old * ratio.a }
    ensures cells { (g v : ℕ) → g < length row.now → v < table_cells →
        slice_index (map T.number tables.new) (table_cells * g + v)
        ≡ slice_index (map T.number tables.old) (table_cells * g + v)
        + (if slice_index row.now g == v then weight.old else 0) }
{
    let amount = T::of(*weight);
    add_weight(tables, row, amount);
    *weight = amount.times(ratio.a).weight();
}

// Multiplies the weight of each state that agrees by `a`. The cells of the tables become, for each
// byte in each group, the weights before of the states that agree and have it.
#[inline(always)]
fn weigh_agreeing<T: Amount>(
    weights: &mut [u128],
    tables: &mut [T],
    bytes: &[u8],
    width: usize,
    column: &[u64],
    reply: Reply,
    ratio: Ratio,
)
    requires rows { length bytes.now ≡ width * length weights.old }
    requires tables { length tables.old ≡ table_cells * width }
    requires column { IsColumn column.now bytes.now width reply.q (length weights.old) }
    requires grows { All (λ w. w * ratio.a < T.bound) weights.old }
    requires fits { sum weights.old < T.bound }
    ensures weights { (i : ℕ) → i < length weights.old → slice_index weights.new i
        ≡ slice_index weights.old i
        * (if agrees_in (row_at bytes.now width i) reply then ratio.a else 1) }
    ensures tables { (g v : ℕ) → g < width → v < table_cells →
        slice_index (map T.number tables.new) (table_cells * g + v)
        ≡ cell_of bytes.now width reply weights.old (length weights.old) g v }
    ensures bytes { (k : ℕ) → slice_index bytes.now k < table_cells }
{
    clear(tables);
    let (mut i, mut rest) = first_from(column, reply.right, 0);
    while i < weights.len() {
        let row = &bytes[width * i..width * (i + 1)];
        weigh_state(&mut weights[i], tables, row, ratio);
        let next = step(column, reply.right, i, rest);
        i = next.0;
        rest = next.1;
    }
}

// The same, by code of its own for rows of up to four bytes.
fn weigh_by_width<T: Amount>(
    weights: &mut [u128],
    tables: &mut [T],
    bytes: &[u8],
    width: usize,
    column: &[u64],
    reply: Reply,
    ratio: Ratio,
)
    requires rows { length bytes.now ≡ width * length weights.old }
    requires tables { length tables.old ≡ table_cells * width }
    requires column { IsColumn column.now bytes.now width reply.q (length weights.old) }
    requires grows { All (λ w. w * ratio.a < T.bound) weights.old }
    requires fits { sum weights.old < T.bound }
    ensures weights { (i : ℕ) → i < length weights.old → slice_index weights.new i
        ≡ slice_index weights.old i
        * (if agrees_in (row_at bytes.now width i) reply then ratio.a else 1) }
    ensures tables { (g v : ℕ) → g < width → v < table_cells →
        slice_index (map T.number tables.new) (table_cells * g + v)
        ≡ cell_of bytes.now width reply weights.old (length weights.old) g v }
    ensures bytes { (k : ℕ) → slice_index bytes.now k < table_cells }
{
    match width {
        1 => weigh_agreeing(weights, tables, bytes, 1, column, reply, ratio),
        2 => weigh_agreeing(weights, tables, bytes, 2, column, reply, ratio),
        3 => weigh_agreeing(weights, tables, bytes, 3, column, reply, ratio),
        4 => weigh_agreeing(weights, tables, bytes, 4, column, reply, ratio),
        _ => weigh_agreeing(weights, tables, bytes, width, column, reply, ratio),
    }
}

// What the weight of a state that doesn't agree is multiplied by, and 1 for one that does.
fn other_factor(row: &[u8], reply: Reply, ratio: Ratio) -> u128
    requires { reply.q / 8 < length row.now }
    ensures { result ≡ (if agrees_in row.now reply then 1 else ratio.b) }
{
    if agrees(row, reply) {
        1
    } else {
        u128::from(ratio.b)
    }
}

// Multiplies the weight of each state that doesn't agree by `b`.
fn weigh_others(weights: &mut [u128], bytes: &[u8], width: usize, reply: Reply, ratio: Ratio)
    requires item { reply.q / 8 < width }
    requires rows { length bytes.now ≡ width * length weights.old }
    requires grows { (i : ℕ) → i < length weights.old → slice_index weights.old i
        * (if agrees_in (row_at bytes.now width i) reply then 1 else ratio.b) < 2 ^ 128 }
    ensures { (i : ℕ) → i < length weights.old → slice_index weights.new i
        ≡ slice_index weights.old i
        * (if agrees_in (row_at bytes.now width i) reply then 1 else ratio.b) }
{
    for i in 0..weights.len() {
        weights[i] *= other_factor(&bytes[width * i..width * (i + 1)], reply, ratio);
    }
}

// Multiplies the weight of each state by `a` where it agrees with the reply, and else by `b`. The
// cells of the tables become, for each byte in each group, the weights before of the states that
// agree and have it.
pub(crate) fn weigh<T: Amount>(
    weights: &mut [u128],
    tables: &mut [T],
    bytes: &[u8],
    width: usize,
    column: &[u64],
    reply: Reply,
    ratio: Ratio,
)
    requires item { reply.q / 8 < width }
    requires rows { length bytes.now ≡ width * length weights.old }
    requires tables { length tables.old ≡ table_cells * width }
    requires column { IsColumn column.now bytes.now width reply.q (length weights.old) }
    requires some { 1 ≤ ratio.b }
    requires order { ratio.b ≤ ratio.a }
    requires grows { All (λ w. w * ratio.a < T.bound) weights.old }
    requires fits { sum weights.old < T.bound }
    ensures weights { (i : ℕ) → i < length weights.old → slice_index weights.new i
        ≡ slice_index weights.old i
        * (if agrees_in (row_at bytes.now width i) reply then ratio.a else ratio.b) }
    ensures tables { (g v : ℕ) → g < width → v < table_cells →
        slice_index (map T.number tables.new) (table_cells * g + v)
        ≡ cell_of bytes.now width reply weights.old (length weights.old) g v }
    ensures bytes { (k : ℕ) → slice_index bytes.now k < table_cells }
{
    weigh_by_width(weights, tables, bytes, width, column, reply, ratio);
    if ratio.b > 1 {
        weigh_others(weights, bytes, width, reply, ratio);
    }
}
