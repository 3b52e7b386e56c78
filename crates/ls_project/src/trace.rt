// Projections of a family, as families.
ghost use Rattle.std.specs.Prelude.{◌≡◌};

use ls_interior::Inside;
use ls_set::ItemSet;
use std::marker::Model;

/// The meets of the members of a borrowed family with a part of the items, on the same item
/// numbers. Contracts see it as the family and the part.
#[derive(Drop)]
pub struct Trace<'a, F: Inside> {
    inner: &'a F,
    part: ItemSet,
}

impl<'a, F: Inside> Model for Trace<'a, F> {
    ghost use Rattle.ls_project.specs.Projecting.{TraceState};

    ghost Value = { TraceState F };

    ghost view = { λ t. record { inner = t.inner.now; part = t.part } };
}

impl<'a, F: Inside> Trace<'a, F> {
    /// The projection of the family on the part.
    pub fn new(inner: &'a F, part: ItemSet) -> Trace<'a, F>
        ensures { result ≡ record { inner = inner.now; part = part } }
    {
        Trace { inner, part }
    }
}

impl<F: Inside> Inside for Trace<'_, F> {
    ghost use Rattle.ls_theory.specs.{projection};
    ghost use Rattle.ls_clauses.proofs.Traces.{projection-IsFamily};

    ghost item_count = { λ t. F.item_count t.inner };

    ghost members = { λ t. projection (F.item_count t.inner) t.part (F.members t.inner) };

    ghost is_family = { λ t. projection-IsFamily (F.item_count t.inner) t.part (F.members t.inner)
        (F.is_family t.inner) };

    fn items(&self) -> u32 {
        self.inner.items()
    }

    // The items outside the part are all there, so that none of them keeps a member out.
    fn inside(&self, s: ItemSet) -> ItemSet {
        let others = ItemSet::full(self.inner.items()).minus(self.part);
        self.part.meet(self.inner.inside(s.union(others)))
    }
}
