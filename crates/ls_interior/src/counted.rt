// Families whose interiors are counted.
ghost use Rattle.std.specs.Prelude.{◌≡◌};

use crate::family::{Inside, Interior};
use crate::steps::Steps;
use ls_set::ItemSet;
use std::marker::Model;
use std::sync::ledger::Ledger;

/// A borrowed family whose interiors are counted. Contracts see it as that family.
#[derive(Drop)]
pub struct Counted<'a, F: Inside> {
    family: &'a F,
}

impl<'a, F: Inside> Model for Counted<'a, F> {
    ghost Value = { F };

    ghost view = { λ c. c.family.now };
}

impl<'a, F: Inside> Counted<'a, F> {
    /// The family, counted.
    pub fn new(family: &'a F) -> Counted<'a, F>
        ensures { result ≡ family.now }
    {
        Counted { family }
    }
}

impl<F: Inside> Interior for Counted<'_, F> {
    ghost item_count = { λ f. F.item_count f };

    ghost members = { λ f. F.members f };

    ghost is_family = { λ f. F.is_family f };

    fn items(&self) -> u32 {
        self.family.items()
    }

    fn interior<L: Ledger>(&self, s: ItemSet, steps: &mut Steps<L>) -> ItemSet {
        steps.tick();
        self.family.inside(s)
    }

    fn interior_without<L: Ledger>(
        &self,
        member: ItemSet,
        item: u32,
        keep: ItemSet,
        steps: &mut Steps<L>,
    ) -> Option<ItemSet> {
        steps.tick();
        self.family.inside_without(member, item, keep)
    }
}
