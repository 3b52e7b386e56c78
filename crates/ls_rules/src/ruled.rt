// Families with rules.
ghost use Rattle.std.specs.Prelude.{◌≡◌, ◌<◌, ◌++◌, ◌∷◌, [], true, length, remove, filter};
ghost use Rattle.std.specs.Prelude.{OnOk, IfSome};
ghost use Rattle.ls_set.specs.{IsWithin, full, is_among, is_good, without};
ghost use Rattle.ls_theory.specs.{breaks_none, interior};
ghost use Rattle.ls_interior.specs.Keeping.{interior_keeping};
ghost use Rattle.std.specs.List.{AllByRecursion};
ghost use Rattle.ls_rules.specs.Waking.{Settling};

use crate::barring::not_barred;
use crate::followers::Followers;
use crate::index::Index;
use crate::parts::{first_of, several};
use crate::round::Round;
use crate::singles::Singles;
use crate::waking::{begin, settle};
use ls_interior::Inside;
use ls_set::{ItemSet, PLACES, Query};
use std::alloc::{AllocError, Global};
use std::marker::Model;

/// An inner family with a list of queries as its rules. Its members are the members of the inner
/// family that break no rule. Contracts see the inner family, the rules in their order, and
/// `spare`, the number of rules for which there is room.
#[derive(Drop)]
pub struct Ruled<F: Inside> {
    inner: F,
    rules: Vec<Query>,
    // the items q of the rules whose set A is one item alone, by that item
    singles: Singles,
    // the places of the others by the items of their sets A, and by the least of these alone
    wakes: Index,
    starts: Index,
    // the items q of these, and maybe more, by these least items
    heads: Followers,
    alloc: Global,
}

impl<F: Inside> Model for Ruled<F> {
    ghost use Rattle.std.specs.Prelude.{◌-◌, vec_len, vec_capacity};
    ghost use Rattle.ls_rules.specs.Ruled.{RuledState};
    ghost use Rattle.ls_rules.specs.Places.{spare_within};

    ghost Value = { RuledState F };

    ghost use Rattle.ls_rules.specs.Waking.{IsIndexed};

    ghost view = { λ r. record {
      inner = r.inner;
      rules = r.rules.items;
      spare = spare_within (F.item_count r.inner) r.starts
          (spare_within (F.item_count r.inner) r.wakes (vec_capacity r.rules - vec_len r.rules));
    } };

    ghost invariant = { λ r.
        IsIndexed (F.item_count r.inner) r.rules.items r.singles r.wakes r.starts r.heads };
}

impl<F: Inside> Ruled<F> {
    /// The inner family, with no rule. It takes no memory.
    pub fn new(alloc: Global, inner: F) -> Ruled<F>
        ensures inner { result.inner ≡ inner }
        ensures rules { result.rules ≡ [] }
    {
        Ruled {
            inner,
            rules: Vec::new(alloc),
            singles: Singles::new(alloc),
            wakes: Index::new(alloc),
            starts: Index::new(alloc),
            heads: Followers::new(alloc),
            alloc,
        }
    }

    /// Makes room for one rule, unless memory runs out; the rules stay.
    pub fn reserve(&mut self) -> Result<(), AllocError>
        ensures ok { OnOk result (0 < self.new.spare) }
        ensures rules { self.new.rules ≡ self.old.rules }
        ensures inner { self.new.inner ≡ self.old.inner }
    {
        let n = self.inner.items();
        self.wakes.reserve(self.alloc, n)?;
        self.heads.reserve(n)?;
        self.singles.reserve(n)?;
        self.starts.reserve(self.alloc, n)?;
        self.rules.reserve(1)
    }

    /// Puts a rule last, in the room that was made. It takes no memory.
    pub fn push_reserved(&mut self, r: Query)
        requires room { 0 < self.old.spare }
        requires good { is_good (F.item_count self.old.inner) r ≡ true }
        ensures rules { self.new.rules ≡ self.old.rules ++ r ∷ [] }
        ensures inner { self.new.inner ≡ self.old.inner }
    {
        let place = self.rules.len();
        let several = several(r.a);
        self.singles.push(&r);
        self.wakes.push(several, place);
        let first = first_of(several);
        self.starts.push(first, place);
        self.heads.push(first, r.q);
        self.rules.push(r).unwrap()
    }

    /// Takes out the rule at a place, counted from 0. The others keep their order.
    pub fn remove(&mut self, place: usize)
        requires { place < length self.old.rules }
        ensures rules { self.new.rules ≡ remove self.old.rules place }
        ensures inner { self.new.inner ≡ self.old.inner }
    {
        self.wakes.remove(place);
        self.starts.remove(place);
        let r = self.rules.remove(place);
        let n = self.inner.items();
        self.singles.remove(&r, n, &self.rules);
        if self.rules.is_empty() {
            self.heads.clear();
        }
    }

    /// The rules, in their order.
    pub fn rules(&self) -> &[Query]
        ensures { result.now ≡ self.now.rules }
    {
        &self.rules
    }

    /// The inner family.
    pub fn inner(&self) -> &F
        ensures { result.now ≡ self.now.inner }
    {
        &self.inner
    }

    // The items that wake a rule where they fall out, and maybe more.
    fn waking_items(&self) -> ItemSet
        ensures { AllByRecursion (λ r. IsWithin r.a result) self.now.rules }
    {
        self.wakes.items().union(self.singles.items())
    }

    // The interior of a member of the inner family under the rules, where it has all of `keep`. It
    // begins with a round in which some items of the member have fallen out.
    fn settle_within(&self, member: ItemSet, round: Round, keep: ItemSet) -> Option<ItemSet>
        requires { IsWithin round.kept (full (F.item_count self.now.inner)) }
        ensures value { is_among (F.members self.now.inner) member ≡ true →
            Settling self.now.rules member round → IsWithin keep round.kept →
            result ≡ interior_keeping
            (filter (breaks_none self.now.rules) (F.members self.now.inner)) member keep }
        ensures part { IfSome result (λ k. IsWithin k round.kept) }
    {
        let n = self.inner.items();
        let mut member = member;
        let mut round = round;
        'rounds: loop {
            let kept = settle(&self.rules, &self.singles, &self.wakes, n, round, keep)?;
            if member.is_within(kept) {
                return Some(kept);
            }
            let next = self.inner.inside(kept);
            if kept.is_within(next) {
                return Some(kept);
            }
            if !keep.is_within(next) {
                return None;
            }
            member = next;
            round = Round {
                kept: next,
                fallen: kept.minus(next).meet(self.waking_items()),
            };
        }
    }

    // The interior of a set under the rules. It is not made part of its caller, so that where there
    // is no rule an interior costs no more than the inner one.
    #[inline(never)]
    fn inside_ruled(&self, s: ItemSet) -> ItemSet
        requires { IsWithin s (full (F.item_count self.now.inner)) }
        ensures { result ≡
            interior (filter (breaks_none self.now.rules) (F.members self.now.inner)) s }
    {
        let n = self.inner.items();
        let member = self.inner.inside(s);
        let first = begin(
            &self.rules,
            &self.singles,
            &self.starts,
            &self.heads,
            n,
            member,
        );
        if first.fallen == ItemSet::empty() {
            return member;
        }
        self.settle_within(member, first, ItemSet::empty())
            .unwrap_or(ItemSet::empty())
    }

    // That of a member without an item, where it has all of `keep`. A member breaks no rule, so
    // without the item only the rules are broken whose sets A have what fell out of it. It is no
    // part of its caller either. What the item takes with it by the rules of the item alone is asked
    // first.
    #[inline(never)]
    #[tactic(auto, unfolding(ls_set::specs::ItemSet::is_same))]
    fn inside_ruled_without(&self, member: ItemSet, item: u32, keep: ItemSet) -> Option<ItemSet>
        requires within { IsWithin member (full (F.item_count self.now.inner)) }
        requires item { item < PLACES }
        ensures value { is_among
            (filter (breaks_none self.now.rules) (F.members self.now.inner)) member ≡ true →
            result ≡ interior_keeping
            (filter (breaks_none self.now.rules) (F.members self.now.inner))
            (without member item) keep }
        ensures part { IfSome result (λ k. IsWithin k member) }
    {
        if self.singles.of(item).meet(keep) != ItemSet::empty() {
            return None;
        }
        let next = self.inner.inside_without(member, item, keep)?;
        let fallen = member.minus(next).meet(self.waking_items());
        if fallen == ItemSet::empty() {
            return Some(next);
        }
        self.settle_within(next, Round { kept: next, fallen }, keep)
    }
}

impl<F: Inside> Inside for Ruled<F> {
    ghost use Rattle.ls_laws.proofs.Families.{ruled-IsFamily};

    ghost item_count = { λ r. F.item_count r.inner };

    ghost members = { λ r. filter (breaks_none r.rules) (F.members r.inner) };

    ghost is_family = { λ r. ruled-IsFamily r.rules (F.is_family r.inner) };

    fn items(&self) -> u32 {
        self.inner.items()
    }

    fn inside(&self, s: ItemSet) -> ItemSet {
        if self.rules.is_empty() {
            self.inner.inside(s)
        } else {
            self.inside_ruled(s)
        }
    }

    fn inside_without(&self, member: ItemSet, item: u32, keep: ItemSet) -> Option<ItemSet> {
        if self.rules.is_empty() {
            self.inner.inside_without(member, item, keep)
        } else {
            self.inside_ruled_without(member, item, keep)
        }
    }

    // A member breaks no rule, so with one item more it breaks only rules that ask about the item.
    fn outer_fringe(&self, member: ItemSet) -> ItemSet {
        let fringe = self.inner.outer_fringe(member);
        if self.rules.is_empty() {
            return fringe;
        }
        not_barred(
            &self.rules,
            &self.singles,
            &self.starts,
            &self.heads,
            self.inner.items(),
            member,
            fringe,
        )
    }
}
