// Parts of the sets A of rules.
ghost use Rattle.std.specs.Prelude.{◌≡◌};
ghost use Rattle.ls_rules.specs.Parts.{first_of, several};

use ls_set::ItemSet;

/// The set of the least item alone; the empty set, of the empty set.
pub fn first_of(set: ItemSet) -> ItemSet
    ensures { result ≡ first_of set }
{
    match set.least() {
        Some(i) => ItemSet::empty().with(i),
        None => ItemSet::empty(),
    }
}

/// The set, where it has more than one item; else the empty set.
#[tactic(auto, unfolding(ls_set::specs::ItemSet::is_same))]
pub fn several(set: ItemSet) -> ItemSet
    ensures { result ≡ several set }
{
    if set == first_of(set) {
        ItemSet::empty()
    } else {
        set
    }
}
