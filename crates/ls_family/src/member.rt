// Sets as keys, in the order of sets.
ghost use Rattle.std.specs.Prelude.{◌≡◌, ◌==◌};
ghost use Rattle.std.proofs.Common.{rules};
ghost use Rattle.std.specs.Cmp.Rules.{comparing};
ghost use Rattle.std.specs.Ordering.{as_partial_cmp};
ghost use Rattle.ls_clauses.specs.Orderings.{order_of, order_of-total, order_of-partial};
ghost use Rattle.ls_clauses.specs.Orderings.{same-by_order};

use ls_set::ItemSet;
use std::cmp::Ordering;
use std::marker::Model;

/// A set, compared by the order of sets.
#[derive(Clone, Copy)]
pub(crate) struct Member {
    set: ItemSet,
}

impl Model for Member {
    ghost use Rattle.std.proofs.Common.{refl};
    ghost use Rattle.ls_set.specs.{Items};

    ghost Value = { Items };

    ghost view = { λ m. m.set };

    ghost inverse = { λ s. record { set = s } };

    ghost inverse_ok = { λ m h. refl };
}

impl Member {
    pub(crate) fn new(set: ItemSet) -> Member
        ensures { result ≡ set }
    {
        Member { set }
    }

    pub(crate) fn set(self) -> ItemSet
        ensures { result ≡ self }
    {
        self.set
    }
}

impl PartialEq for Member {
    ghost eq = { λ a b. a.digits == b.digits };

    ghost laws = { Prim.search (comparing, rules) };

    fn eq(&self, o: &Member) -> bool {
        self.set == o.set
    }
}

impl Eq for Member {
    ghost laws = { Prim.search (comparing, rules) };
}

impl Ord for Member {
    ghost cmp = { order_of };

    ghost total = { order_of-total };

    ghost matches_partial_cmp = { Prim.search (comparing, rules) };

    ghost matches_eq = { same-by_order };

    fn cmp(&self, other: &Member) -> Ordering {
        order_of(self.set, other.set)
    }
}

impl PartialOrd for Member {
    ghost partial_cmp = { as_partial_cmp order_of };

    ghost laws = { order_of-partial };

    fn partial_cmp(&self, other: &Member) -> Option<Ordering> {
        Some(self.cmp(other))
    }
}

/// How the first stands to the second, in the order of sets.
pub(crate) fn order_of(first: ItemSet, second: ItemSet) -> Ordering
    ensures { result ≡ order_of first second }
{
    if first.comes_before(second) {
        Ordering::Less
    } else if second.comes_before(first) {
        Ordering::Greater
    } else {
        Ordering::Equal
    }
}
