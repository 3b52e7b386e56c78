// The sets that are in two families.
ghost use Rattle.std.specs.Prelude.{◌≡◌};

use crate::keeping::inside_keeping;
use ls_interior::Inside;
use ls_set::ItemSet;
use std::marker::Model;

/// The sets that are in two borrowed families of as many items. Contracts see the two.
#[derive(Drop)]
pub struct Both<'a, F: Inside, G: Inside> {
    left: &'a F,
    right: &'a G,
}

impl<'a, F: Inside, G: Inside> Model for Both<'a, F, G> {
    ghost use Rattle.std.specs.Prelude.{◌≡◌};
    ghost use Rattle.ls_mesh.specs.Families.{BothState};

    ghost Value = { BothState F G };

    ghost view = { λ b. record { left = b.left.now; right = b.right.now } };

    ghost invariant = { λ b. G.item_count b.right.now ≡ F.item_count b.left.now };
}

impl<'a, F: Inside, G: Inside> Both<'a, F, G> {
    /// What is in both families, which are of as many items.
    pub fn new(left: &'a F, right: &'a G) -> Both<'a, F, G>
        requires { G.item_count right.now ≡ F.item_count left.now }
        ensures { result ≡ record { left = left.now; right = right.now } }
    {
        Both { left, right }
    }
}

impl<F: Inside, G: Inside> Inside for Both<'_, F, G> {
    ghost use Rattle.ls_set.specs.{is_among};
    ghost use Rattle.ls_laws.proofs.Families.{filter-IsFamily};
    ghost use Rattle.ls_mesh.specs.Sides.{both};

    ghost item_count = { λ b. F.item_count b.left };

    ghost members = { λ b. both (F.members b.left) (G.members b.right) };

    ghost is_family = { λ b. let other = G.is_family b.right in
        filter-IsFamily (F.item_count b.left) (F.members b.left) (is_among (G.members b.right))
        other.holds_empty other.holds_unions (F.is_family b.left) };

    fn items(&self) -> u32 {
        self.left.items()
    }

    fn inside(&self, s: ItemSet) -> ItemSet {
        match inside_keeping(self.left, self.right, s, ItemSet::empty()) {
            Some(inside) => inside,
            None => unreachable!(),
        }
    }

    // It ends where an item of `keep` has fallen.
    fn inside_without(&self, member: ItemSet, item: u32, keep: ItemSet) -> Option<ItemSet> {
        inside_keeping(self.left, self.right, member.without(item), keep)
    }
}
