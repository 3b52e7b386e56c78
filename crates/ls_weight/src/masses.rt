// The masses after a reply, from the tables of a pass.
ghost use Rattle.std.specs.Prelude.{◌≡◌, ◌+◌, ◌-◌, ◌*◌, ◌/◌, ◌%◌, ◌<◌, ◌≤◌, ◌^◌, ℕ};
ghost use Rattle.std.specs.Prelude.{if◌then◌else◌, length, map, slice_index, sum};
ghost use Rattle.ls_weight.specs.Sums.{table_cells, cells_with, sum_below};
ghost use Rattle.ls_weight.specs.Rows.{width_of, row_at};

use crate::amount::Amount;
use crate::passes::TABLE_CELLS;
use ls_theory::Ratio;

// Folds `2 * half` cells into `half`: each pair becomes its sum. The second ones of the pairs in all
// are the result, which are the cells of the bytes with the lowest digit.
fn fold<T: Amount>(tables: &mut [T], start: usize, half: usize) -> T
    requires within { start + 2 * half ≤ length tables.old }
    requires fits { sum_below (2 * half) (λ v. slice_index (map T.number tables.old) (start + v))
        < T.bound }
    ensures result { T.number result
        ≡ sum_below half (λ v. slice_index (map T.number tables.old) (start + (2 * v + 1))) }
    ensures pairs { (v : ℕ) → v < half → slice_index (map T.number tables.new) (start + v)
        ≡ slice_index (map T.number tables.old) (start + 2 * v)
        + slice_index (map T.number tables.old) (start + (2 * v + 1)) }
    ensures behind { (k : ℕ) → start + half ≤ k →
        slice_index (map T.number tables.new) k ≡ slice_index (map T.number tables.old) k }
{
    let mut all = T::zero();
    for v in 0..half {
        let without = tables[start + 2 * v];
        let with = tables[start + (2 * v + 1)];
        all = all.plus(with);
        tables[start + v] = without.plus(with);
    }
    all
}

// The weights of the states that agree with a reply, of which the item's mass is given.
pub(crate) fn agreeing_of(mass: u128, total: u128, right: bool) -> u128
    requires { mass ≤ total }
    ensures { result ≡ (if right then mass else total - mass) }
{
    if right { mass } else { total - mass }
}

// A sum of weights after a reply with the ratio, of which `agreeing` is the part that agrees.
pub(crate) fn sum_after(all: u128, agreeing: u128, ratio: Ratio) -> u128
    requires order { ratio.b ≤ ratio.a }
    requires fits { ratio.b * all + (ratio.a - ratio.b) * agreeing < 2 ^ 128 }
    ensures { result ≡ ratio.b * all + (ratio.a - ratio.b) * agreeing }
{
    u128::from(ratio.b) * all + u128::from(ratio.a - ratio.b) * agreeing
}

// Brings the masses up to date: the part of each that agrees is in the table of its item's group,
// which is folded once an item.
pub(crate) fn weigh_masses<T: Amount>(masses: &mut [u128], tables: &mut [T], ratio: Ratio)
    requires order { ratio.b ≤ ratio.a }
    requires tables { length tables.old ≡ table_cells * width_of (length masses.old) }
    requires sums { (g : ℕ) → g < width_of (length masses.old) →
        sum (row_at (map T.number tables.old) table_cells g) < T.bound }
    requires fits { (q : ℕ) → q < length masses.old → ratio.b * slice_index masses.old q
        + (ratio.a - ratio.b)
        * cells_with (row_at (map T.number tables.old) table_cells (q / 8)) (q % 8) < 2 ^ 128 }
    ensures { (q : ℕ) → q < length masses.old → slice_index masses.new q
        ≡ ratio.b * slice_index masses.old q
        + (ratio.a - ratio.b)
        * cells_with (row_at (map T.number tables.old) table_cells (q / 8)) (q % 8) }
{
    for q in 0..masses.len() {
        let with = fold(tables, TABLE_CELLS * (q / 8), TABLE_CELLS >> (q % 8 + 1));
        masses[q] = sum_after(masses[q], with.weight(), ratio);
    }
}
