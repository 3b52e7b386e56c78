// A round of looking at rules.
ghost use Rattle.std.specs.Prelude.{◌≡◌, ◌<◌};

use ls_set::{ItemSet, PLACES, Query};

/// What is kept of a set, and the items that fell out of it since their rules were looked at.
#[derive(Clone, Copy)]
pub struct Round {
    pub kept: ItemSet,
    pub fallen: ItemSet,
}

impl Round {
    ghost use Rattle.ls_set.specs.{empty, is_same, with, without};
    ghost use Rattle.ls_theory.specs.{breaks};
    ghost use Rattle.ls_rules.specs.Waking.{look, lose_all};

    /// Whether the kept set breaks the rule. Most sets have an item of most sets A, so that is
    /// asked first: a test that mostly ends the same way costs least.
    #[tactic(auto, unfolding(ls_set::specs::ItemSet::is_same))]
    pub fn breaks(&self, rule: &Query) -> bool
        requires { rule.now.q < PLACES }
        ensures { result ≡ breaks self.now.kept rule.now }
    {
        self.kept.meet(rule.a) == ItemSet::empty() && self.kept.has(rule.q)
    }

    /// The item falls out.
    pub fn lose(&mut self, item: u32)
        requires { item < PLACES }
        ensures kept { self.new.kept ≡ without self.old.kept item }
        ensures fallen { self.new.fallen ≡ with self.old.fallen item }
    {
        self.kept = self.kept.without(item);
        self.fallen = self.fallen.with(item);
    }

    /// The items of the set that are kept fall out.
    pub fn lose_all(&mut self, set: ItemSet)
        ensures { self.new ≡ lose_all self.old set }
    {
        self.fallen = self.fallen.union(self.kept.meet(set));
        self.kept = self.kept.minus(set);
    }

    /// Looks at a rule: where the kept set breaks it, its item falls out. The result is whether one
    /// does.
    pub fn look(&mut self, rule: &Query) -> bool
        requires { rule.now.q < PLACES }
        ensures round { self.new ≡ look self.old rule.now }
        ensures lost { result ≡ breaks self.old.kept rule.now }
    {
        let is_broken = self.breaks(rule);
        if is_broken {
            self.lose(rule.q);
        }
        is_broken
    }

    /// Whether nothing is kept any more: then no rule is broken.
    #[tactic(auto, unfolding(ls_set::specs::ItemSet::is_same))]
    pub fn is_over(&self) -> bool
        ensures { result ≡ is_same self.now.kept empty }
    {
        self.kept == ItemSet::empty()
    }
}
