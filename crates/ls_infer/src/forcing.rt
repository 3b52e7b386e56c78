// The standing answers that force queries No.
ghost use Rattle.std.specs.Prelude.{◌≡◌, ◌<◌, ◌&&◌, ℕ, false, not, min, filter};
ghost use Rattle.std.specs.Prelude.{slice_get, option_map};
ghost use Rattle.std.specs.List.{list_any};
ghost use Rattle.std.specs.Option.{option_map_or};
ghost use Rattle.ls_set.specs.{has};
ghost use Rattle.ls_set.specs.declared.query.Query.{Query};
ghost use Rattle.ls_theory.specs.{first_least};
ghost use Rattle.ls_infer.specs.Tables.{forces};

use crate::standing_no::StandingNo;
use ls_set::{ItemSet, PLACES, Query};

// The number, or the least so far where that is less.
fn lesser(least: Option<u64>, number: u64) -> u64
    ensures { result ≡ option_map_or (min number) least number }
{
    match least {
        Some(least) => number.min(least),
        None => number,
    }
}

/// The least number of the answers that force the query No.
pub fn forcing(standing: &[StandingNo], r: &Query) -> Option<u64>
    requires { r.now.q < PLACES }
    ensures { let forcing = filter (forces r.now) standing.now in
        result ≡ option_map (λ s. s.no.number) (first_least (λ s. s.no.number) forcing) }
{
    let mut least = None;
    for s in standing {
        if s.forces(r) {
            least = Some(lesser(least, s.no.number));
        }
    }
    least
}

// The items `q` of `undecided` for which the answer at the place, if there is one, does not force
// the query (`a`, q) No.
fn unforced_at(standing: &[StandingNo], place: usize, a: ItemSet, undecided: ItemSet) -> ItemSet
    ensures { (q : ℕ) → let r : Query = record { a = a; q = q } in has result q
        ≡ (has undecided q && not (option_map_or (forces r) (slice_get standing.now place) false)) }
{
    match standing.get(place) {
        Some(s) => s.unforced(a, undecided),
        None => undecided,
    }
}

/// The items `q` of `undecided` for which no answer forces the query (`a`, q) No. The answer at the
/// hint is asked first, if there is one; where none is left, the hint is the place of the answer
/// after which none was.
pub fn unforced(
    standing: &[StandingNo],
    hint: &mut usize,
    a: ItemSet,
    undecided: ItemSet,
) -> ItemSet
    ensures { (q : ℕ) → has result q ≡ (has undecided q
        && not (list_any (forces (record { a = a; q = q })) standing.now)) }
{
    let mut left = unforced_at(standing, *hint, a, undecided);
    if left.least().is_none() {
        return left;
    }
    for place in 0..standing.len() {
        left = standing[place].unforced(a, left);
        if left.least().is_none() {
            *hint = place;
            return left;
        }
    }
    left
}
