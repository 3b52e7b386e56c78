// Unions of the sets of a list that lie within a set.
ghost use Rattle.std.specs.Prelude.{◌≡◌};
ghost use Rattle.ls_set.specs.{is_same};
ghost use Rattle.ls_theory.specs.{interior};
ghost use Rattle.ls_laws.specs.Spans.{is_proper};

use ls_set::ItemSet;

/// Whether the first lies within the second and is not the same.
#[tactic(auto, unfolding(ls_set::specs::ItemSet::is_same))]
pub fn is_proper(set: ItemSet, other: ItemSet) -> bool
    ensures { result ≡ is_proper set other }
{
    set.is_within(other) && set != other
}

/// The union of those sets of the list that lie within `s`.
pub fn union_within(sets: &[ItemSet], s: ItemSet) -> ItemSet
    ensures { result ≡ interior sets.now s }
{
    let mut union = ItemSet::empty();
    for set in sets {
        if set.is_within(s) {
            union = union.union(*set);
            if union == s {
                return union;
            }
        }
    }
    union
}
