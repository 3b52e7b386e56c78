// The closure of rows: for each item in turn the items below it.
ghost use Rattle.std.specs.Prelude.{◌≡◌, ◌<◌, ◌≤◌, ℕ, IfNone, IfSome, List, find, length, map};
ghost use Rattle.ls_set.specs.ItemSet.{has, numbers_from, with};
ghost use Rattle.ls_origins.specs.Relations.{below_of, first_cycle, relation};
ghost use Rattle.ls_order.specs.Closing.{AreRows, joined, closed};
ghost use Rattle.ls_order.specs.Orders.{ArePairs};

use ls_set::{ItemSet, PLACES};

// Has the row take what is below an item, if it has the item.
fn join(row: &mut ItemSet, item: u32, below: ItemSet)
    requires { item < PLACES }
    ensures { row.new ≡ joined item below row.old }
{
    if row.has(item) {
        *row = row.union(below);
    }
}

fn join_all(rows: &mut [ItemSet], item: u32, below: ItemSet)
    requires { item < PLACES }
    ensures { rows.new ≡ map (joined item below) rows.old }
{
    for row in rows.iter_mut() {
        join(row, item, below);
    }
}

// Closes the rows: one middle item after another has all rows that have it take its own row.
fn close(rows: &mut [ItemSet])
    requires { length rows.old ≤ PLACES }
    ensures { rows.new ≡ closed (length rows.old) rows.old }
{
    for item in 0..rows.len() {
        let below = rows[item];
        join_all(rows, item as u32, below);
    }
}

// The least item that is in its own row.
fn first_in_own(rows: &[ItemSet]) -> Option<u32>
    requires { length rows.now ≤ PLACES }
    ensures first { result
        ≡ find (λ q. has (below_of rows.now q) q) (numbers_from 0 (length rows.now)) }
    ensures within { IfSome result (λ q. q < length rows.now) }
{
    for item in 0..rows.len() {
        if rows[item].has(item as u32) {
            return Some(item as u32);
        }
    }
    None
}

// Puts each item into its own row.
fn put_own(rows: &mut [ItemSet])
    requires { length rows.old ≤ PLACES }
    ensures as_many { length rows.new ≡ length rows.old }
    ensures own { (q : ℕ) → q < length rows.old →
        below_of rows.new q ≡ with (below_of rows.old q) q }
{
    for item in 0..rows.len() {
        rows[item] = rows[item].with(item as u32);
    }
}

/// Makes the rows of pairs those of their relation, unless it puts an item below itself: the least
/// such item is the result.
pub(crate) fn make_order(rows: &mut [ItemSet]) -> Option<u32>
    requires { length rows.old ≤ PLACES }
    ensures cycle { (pairs : List (ℕ × ℕ)) → ArePairs (length rows.old) pairs →
        AreRows (length rows.old) pairs rows.old → result ≡ first_cycle (length rows.old) pairs }
    ensures below { (pairs : List (ℕ × ℕ)) → ArePairs (length rows.old) pairs →
        AreRows (length rows.old) pairs rows.old →
        IfNone result (rows.new ≡ relation (length rows.old) pairs) }
    ensures as_many { length rows.new ≡ length rows.old }
    ensures within { IfSome result (λ q. q < length rows.old) }
{
    close(rows);
    let cycle = first_in_own(rows);
    if cycle.is_none() {
        put_own(rows);
    }
    cycle
}
