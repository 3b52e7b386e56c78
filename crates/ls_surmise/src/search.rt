// Whether a set of a list in order lies within another set.
ghost use Rattle.std.specs.Prelude.{◌≡◌, ◌≤◌, ◌<◌, ℕ, true, length, slice_index_or};
ghost use Rattle.std.specs.List.{list_any};
ghost use Rattle.ls_set.specs.{IsInOrder, comes_before, empty, is_within};

use ls_set::ItemSet;

// How many of the first sets come before another one.
fn count_before(sets: &[ItemSet], next: ItemSet) -> usize
    requires { IsInOrder sets.now }
    ensures bound { result ≤ length sets.now }
    ensures before { (k : ℕ) → k < result →
        comes_before (slice_index_or sets.now k empty) next ≡ true }
{
    sets.partition_point(|s| s.comes_before(next))
}

/// Whether some set lies within the other set. Where one does not, the sets that come before the
/// first one after it that may are passed over.
pub(crate) fn has_within(sets: &[ItemSet], set: ItemSet) -> bool
    requires { IsInOrder sets.now }
    ensures { result ≡ list_any (λ c. is_within c set) sets.now }
{
    let mut place = 0;
    while place < sets.len() {
        let first = sets[place];
        let Some(x) = first.minus(set).least() else {
            return true;
        };
        let next = first.keep_before(x).union(set.minus(ItemSet::full(x + 1)));
        place += 1 + count_before(&sets[place + 1..], next);
    }
    false
}
