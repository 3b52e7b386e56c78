// Families with rules in columns.
ghost use Rattle.std.specs.Prelude.{◌≡◌, ◌<◌, true, filter, IfOk, IfSome};
ghost use Rattle.ls_set.specs.{IsWithin, Items, empty, full, is_among, meet, minus, without};
ghost use Rattle.ls_theory.specs.{breaks_none, interior};
ghost use Rattle.ls_interior.specs.Keeping.{interior_keeping};
ghost use Rattle.ls_columns.specs.Falling.{fallen_by};
ghost use Rattle.ls_columns.specs.Rounds.{Falling, IsApart, Narrows};

use crate::block::Block;
use crate::blocks::{blocks_of, broken_in};
use crate::falling::{falling_of, falling_with};
use ls_interior::Inside;
use ls_rules::Ruled;
use ls_set::{ItemSet, PLACES, Query};
use std::alloc::{AllocError, Global};
use std::marker::Model;

/// A borrowed family with rules, as which contracts see it. Of a member without an item it finds
/// for many rules at once what falls with the item.
#[derive(Drop)]
pub struct Columns<'a, F: Inside> {
    family: &'a Ruled<F>,
    // how many items there are
    count: u32,
    // for each item, the items that fall with it by rules of one item
    falling: Vec<ItemSet>,
    // all rules, those of one item too
    blocks: Vec<Block>,
}

impl<'a, F: Inside> Model for Columns<'a, F> {
    ghost use Rattle.ls_rules.specs.Ruled.{RuledState};
    ghost use Rattle.ls_columns.specs.Rounds.{IsColumned};

    ghost Value = { RuledState F };

    ghost view = { λ c. c.family.now };

    ghost invariant = { λ c. IsColumned (F.item_count c.family.now.inner) c.family.now.rules
        c.count c.falling.items c.blocks.items };
}

impl<'a, F: Inside> Columns<'a, F> {
    /// The family, with its rules in columns, unless memory runs out.
    pub fn new(alloc: Global, family: &'a Ruled<F>) -> Result<Columns<'a, F>, AllocError>
        ensures { IfOk result (λ columns. columns ≡ family.now) }
    {
        let falling = falling_of(alloc, family.rules())?;
        let blocks = blocks_of(alloc, family.rules())?;
        Ok(Columns {
            family,
            count: family.items(),
            falling,
            blocks,
        })
    }

    // The kept items that fall with those that fell: at least those of the rules that are broken.
    fn broken(&self, fallen: ItemSet, kept: ItemSet) -> ItemSet
        ensures part { IsWithin result kept }
        ensures all { IsWithin (meet (fallen_by self.now.rules fallen kept) kept) result }
        ensures only { (t : Items) → breaks_none self.now.rules t ≡ true → IsWithin t kept →
            IsApart t fallen → IsApart t result }
    {
        let with = falling_with(&self.falling, fallen);
        with.union(broken_in(&self.blocks, fallen, kept)).meet(kept)
    }

    // What is left of the kept part of a set after a round. Where no rule is broken it is the
    // interior in the inner family, of which the set is a member.
    #[tactic(auto, unfolding(ls_set::specs::ItemSet::is_same))]
    fn narrowed(&self, set: ItemSet, fallen: ItemSet, kept: ItemSet) -> ItemSet
        requires small { IsWithin kept (full (F.item_count self.now.inner)) }
        requires part { IsWithin kept set }
        ensures narrows { is_among (F.members self.now.inner) set ≡ true →
            Narrows (F.members self.now.inner) self.now.rules fallen kept result }
        ensures within { IsWithin result kept }
    {
        let out = self.broken(fallen, kept);
        if out != ItemSet::empty() {
            kept.minus(out)
        } else if set.is_within(kept) {
            kept
        } else {
            self.family.inner().inside(kept)
        }
    }

    // The interior of a member of the inner family from which items fell, where it has all of
    // `keep`.
    fn settle_within(&self, set: ItemSet, fallen: ItemSet, keep: ItemSet) -> Option<ItemSet>
        requires { IsWithin set (full (F.item_count self.now.inner)) }
        ensures value { is_among (F.members self.now.inner) set ≡ true →
            Falling self.now.rules fallen set → IsWithin keep set → result ≡ interior_keeping
            (filter (breaks_none self.now.rules) (F.members self.now.inner)) set keep }
        ensures part { IfSome result (λ k. IsWithin k set) }
    {
        let mut kept = set;
        let mut fallen = fallen;
        'rounds: loop {
            let next = self.narrowed(set, fallen, kept);
            if kept.is_within(next) {
                return Some(kept);
            }
            if !keep.is_within(next) {
                return None;
            }
            fallen = kept.minus(next);
            kept = next;
        }
    }
}

impl<F: Inside> Inside for Columns<'_, F> {
    ghost use Rattle.ls_laws.proofs.Families.{ruled-IsFamily};

    ghost item_count = { λ r. F.item_count r.inner };

    ghost members = { λ r. filter (breaks_none r.rules) (F.members r.inner) };

    ghost is_family = { λ r. ruled-IsFamily r.rules (F.is_family r.inner) };

    fn items(&self) -> u32 {
        self.count
    }

    fn inside(&self, s: ItemSet) -> ItemSet {
        self.family.inside(s)
    }

    // A member breaks no rule, so without the item only the rules are broken whose sets A have what
    // fell out of it.
    #[tactic(auto, unfolding(ls_set::specs::ItemSet::is_same))]
    fn inside_without(&self, member: ItemSet, item: u32, keep: ItemSet) -> Option<ItemSet> {
        if self.falling[item as usize].meet(keep) != ItemSet::empty() {
            return None;
        }
        let kept = self.family.inner().inside_without(member, item, keep)?;
        self.settle_within(kept, member.minus(kept), keep)
    }
}
