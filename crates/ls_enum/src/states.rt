// The members of a family, one after another.
ghost use Rattle.std.specs.Prelude.{◌≡◌, ◌+◌, ◌≤◌, ⊤, Some, None, IfSome, MatchOption};
ghost use Rattle.std.specs.Option.{ForSome};
ghost use Rattle.std.specs.Iterator.{YieldsFirst, item_count, MakesProgress};
ghost use Rattle.ls_set.specs.{IsWithin, full};
ghost use Rattle.ls_enum.specs.Listings.{left_after};
ghost use Rattle.ls_enum.specs.Widest.{AreWidest};

use crate::successor::first_left_by;
use crate::widest::WidestMembers;
use ls_interior::{Interior, Steps};
use ls_set::ItemSet;
use std::sync::ledger::Ledger;

/// The members of a family in order: all of them, or those after a set. It borrows the family and
/// the count of steps, looks for a member only when it is asked for the next one, and takes no
/// memory.
#[derive(Drop)]
pub struct States<'a, I: Interior, L: Ledger> {
    /// The family whose members are given.
    pub family: &'a I,
    /// How many interiors were formed.
    pub steps: &'a mut Steps<L>,
    /// The set after which the next member is looked for: a set of the family's items.
    pub cursor: Option<ItemSet>,
    // The widest members from which the next member is looked for.
    widest: WidestMembers,
    ghost small: { ForSome cursor (λ w. IsWithin w (full (I.item_count family.now))) },
    ghost widest_hold: { AreWidest (I.members family.now) widest.held.items },
}

impl<'a, I: Interior, L: Ledger> States<'a, I, L> {
    /// The members that come after the given set, or all of them. The given set is one of the
    /// family's items and need not be a member.
    pub fn new(family: &'a I, after: Option<ItemSet>, steps: &'a mut Steps<L>) -> Self
        requires { ForSome after (λ w. IsWithin w (full (I.item_count family.now))) }
        ensures family { result.family.now ≡ family.now }
        ensures cursor { result.cursor ≡ after }
        ensures steps { result.steps.now ≡ steps.old }
        ensures loan { result.steps.ghost_name ≡ steps.entry.ghost_name }
    {
        States {
            family,
            steps,
            cursor: after,
            widest: WidestMembers::none(),
        }
    }

    /// All members.
    pub fn from_start(family: &'a I, steps: &'a mut Steps<L>) -> Self
        ensures family { result.family.now ≡ family.now }
        ensures cursor { result.cursor ≡ None }
        ensures steps { result.steps.now ≡ steps.old }
        ensures loan { result.steps.ghost_name ≡ steps.entry.ghost_name }
    {
        States::new(family, None, steps)
    }

    /// The members that come after `word`, which is a set of the family's items and need not be a
    /// member.
    pub fn from_cursor(family: &'a I, word: ItemSet, steps: &'a mut Steps<L>) -> Self
        requires { IsWithin word (full (I.item_count family.now)) }
        ensures family { result.family.now ≡ family.now }
        ensures cursor { result.cursor ≡ Some word }
        ensures steps { result.steps.now ≡ steps.old }
        ensures loan { result.steps.ghost_name ≡ steps.entry.ghost_name }
    {
        States::new(family, Some(word), steps)
    }

    /// The set that was given last, or else the one after which this began; `None` where it began
    /// at the start and has given nothing.
    pub fn cursor(&self) -> Option<ItemSet>
        ensures { result ≡ self.now.cursor }
    {
        self.cursor
    }
}

impl<'a, I: Interior, L: Ledger> Iterator for States<'a, I, L> {
    type Item = ItemSet;

    ghost next_gives = { YieldsFirst (λ s. left_after s.cursor (I.members s.family.now)) };

    ghost remaining = { item_count (λ s. left_after s.cursor (I.members s.family.now)) };

    fn next(&mut self) -> Option<ItemSet>
        ensures steps { YieldsFirst (λ s. left_after s.cursor (I.members s.family.now))
            self.old result self.new }
        ensures goes { MakesProgress (λ _. ⊤)
            (item_count (λ s. left_after s.cursor (I.members s.family.now)))
            self.old result self.new }
        ensures small { IfSome result (λ k. IsWithin k (full (I.item_count self.old.family.now))) }
        ensures cursor { MatchOption result
            (self.new.cursor ≡ self.old.cursor) (λ k. self.new.cursor ≡ Some k) }
        ensures family { self.new.family.now ≡ self.old.family.now }
        ensures cost { self.new.steps.now
            ≤ self.old.steps.now + (I.item_count self.old.family.now + 1) }
        ensures loan { self.new.steps.ghost_name ≡ self.old.steps.ghost_name }
    {
        let member = first_left_by(self.family, self.cursor, &mut self.widest, self.steps)?;
        self.cursor = Some(member);
        Some(member)
    }
}
