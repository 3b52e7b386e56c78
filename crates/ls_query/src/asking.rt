// The next good query of the blocks.
ghost use Rattle.std.specs.Prelude.{◌≡◌, ◌≤◌, true, find};
ghost use Rattle.ls_set.specs.{IsWithin, full, is_good};
ghost use Rattle.ls_theory.specs.{block_before, queries, query_before};

use crate::moving::set_after;
use ls_set::{ItemSet, PLACES, Query};

// The first good query whose set comes after the given one, which may be empty.
pub fn query_after_set(n: u32, k: u32, a: ItemSet) -> Option<Query>
    requires items { n ≤ PLACES }
    requires sizes { k ≤ n }
    requires within { IsWithin a (full n) }
    ensures { result ≡ find (λ s. block_before a s.a) (queries n k) }
{
    let next = set_after(n, k, a)?;
    let q = ItemSet::full(n).minus(next).least()?;
    Some(Query { a: next, q })
}

// The first good query that comes after the given one.
pub fn query_after(n: u32, k: u32, r: Query) -> Option<Query>
    requires items { n ≤ PLACES }
    requires sizes { k ≤ n }
    requires good { is_good n r ≡ true }
    ensures { result ≡ find (query_before r) (queries n k) }
{
    if r.a.len() > k {
        return None;
    }
    match ItemSet::full(n).minus(r.a).next_member(r.q) {
        Some(q) => Some(Query { a: r.a, q }),
        None => query_after_set(n, k, r.a),
    }
}
