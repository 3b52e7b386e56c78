// What is kept of a standing answer that is No.
ghost use Rattle.std.specs.Prelude.{◌≡◌, ◌+◌, ◌<◌, ◌≤◌, ◌==◌, ◌&&◌, ◌||◌, ℕ};
ghost use Rattle.std.specs.Prelude.{List, true, false, not, map, filter};
ghost use Rattle.ls_set.specs.{IsWithin, Items, full, has, is_among, is_good};
ghost use Rattle.ls_set.specs.declared.query.Query.{Query};
ghost use Rattle.ls_theory.specs.{blocks, breaks, closure};
ghost use Rattle.ls_theory.specs.declared.no.No.{No};
ghost use Rattle.ls_infer.specs.Changes.{IsChange, can_change, can_grow, is_kept, most_steps_each};
ghost use Rattle.ls_infer.specs.Tables.{enough_for, standing, forces, AreStates};
ghost use Rattle.ls_infer.specs.declared.yes_change.YesChange.TheVariants as YesChange;

use crate::breaking::breaks;
use crate::enough::{enough_between, enough_for, is_state};
use crate::entailing::items_entailing;
use crate::witnesses::Witnesses;
use crate::yes_change::YesChange;
use ls_interior::{Interior, Steps, closure};
use ls_set::{ItemSet, PLACES, Query};
use ls_theory::No;
use std::sync::ledger::Ledger;

/// What is kept of a standing answer that is No, of a query (B, p).
#[derive(Clone, Copy, PartialEq, Eq)]
pub struct StandingNo {
    /// The answer.
    pub no: No,
    /// The closure of B.
    pub closed: ItemSet,
    /// The items r such that p is in the closure of that with r.
    pub enough: ItemSet,
    /// Whether the items of `enough` are a state, so that the others are a closed set.
    pub is_state: bool,
}

impl StandingNo {
    // What is kept of the answer with its closure and what is enough, in one step.
    fn from_enough<I: Interior, L: Ledger>(
        f: &I,
        no: No,
        closed: ItemSet,
        enough: ItemSet,
        steps: &mut Steps<L>,
    ) -> StandingNo
        requires { IsWithin enough (full (I.item_count f.now)) }
        ensures value { let is_state = is_among (I.members f.now) enough in
            result ≡ record { no = no; closed = closed; enough = enough; is_state = is_state } }
        ensures cost { steps.new ≡ steps.old + 1 }
    {
        StandingNo {
            no,
            closed,
            enough,
            is_state: is_state(f, enough, steps),
        }
    }

    /// What is kept of the answer, in a step for each item and one more.
    pub fn new<I: Interior, L: Ledger>(f: &I, answer: &No, steps: &mut Steps<L>) -> StandingNo
        requires { is_good (I.item_count f.now) answer.now.query ≡ true }
        ensures value { result ≡ standing (I.item_count f.now) (I.members f.now) answer.now }
        ensures cost { steps.new ≡ steps.old + (I.item_count f.now + 1) }
    {
        let closed = closure(f, answer.query.a, steps);
        let enough = enough_for(f, closed, answer.query.q, steps);
        StandingNo::from_enough(f, *answer, closed, enough, steps)
    }

    // What is kept of the answer with its closure, where those of `known` are enough, in a step at
    // most for each item and one more. Where p is left with those that are known alone, no other
    // item is enough.
    fn from_known<I: Interior, L: Ledger>(
        f: &I,
        no: No,
        closed: ItemSet,
        known: ItemSet,
        witnesses: &mut [Witnesses],
        steps: &mut Steps<L>,
    ) -> StandingNo
        requires good { is_good (I.item_count f.now) no.query ≡ true }
        requires within { IsWithin closed (full (I.item_count f.now)) }
        requires known { IsWithin known (full (I.item_count f.now)) }
        ensures value { let n = I.item_count f.now in
            closed ≡ closure (full n) (I.members f.now) no.query.a →
            AreStates (I.members f.now) witnesses.old → AreStates (I.members f.now) witnesses.new
            × (IsWithin known (enough_for n (I.members f.now) closed no.query.q) →
            result ≡ standing n (I.members f.now) no) }
        ensures kept { is_kept (I.item_count f.now) result ≡ true }
        ensures cost { steps.new ≤ steps.old + (I.item_count f.now + 1) }
        ensures fewer { (i : ℕ) → has closed i ≡ true → i < I.item_count f.now →
            steps.new ≤ steps.old + I.item_count f.now }
    {
        let all = ItemSet::full(f.items());
        let q = no.query.q;
        let known = known.with(q);
        if !closed.has(q) {
            let left = f.interior(known, steps);
            if left.has(q) {
                return StandingNo {
                    no,
                    closed,
                    enough: known,
                    is_state: known.is_within(left),
                };
            }
        }
        let enough = enough_between(f, closed, q, known, all, witnesses, steps);
        StandingNo::from_enough(f, no, closed, enough, steps)
    }

    /// What is kept of the answer, in a step at most for each item and one more. Items whose
    /// closures, by those that are kept of the block sets, have p are enough without a step, and
    /// what is not enough is shared. So it mostly takes fewer steps than `new`, which takes all.
    pub fn from_closures<I: Interior, L: Ledger>(
        f: &I,
        closures: &[ItemSet],
        answer: &No,
        witnesses: &mut [Witnesses],
        steps: &mut Steps<L>,
    ) -> StandingNo
        requires { is_good (I.item_count f.now) answer.now.query ≡ true }
        ensures value { AreStates (I.members f.now) witnesses.old →
            AreStates (I.members f.now) witnesses.new × ((k : ℕ) → let n = I.item_count f.now in
            closures.now ≡ map (closure (full n) (I.members f.now)) (blocks n k) →
            result ≡ standing n (I.members f.now) answer.now) }
        ensures kept { is_kept (I.item_count f.now) result ≡ true }
        ensures cost { steps.new ≤ steps.old + (I.item_count f.now + 1) }
    {
        let closed = closure(f, answer.query.a, steps);
        let all = ItemSet::full(f.items());
        let known = items_entailing(closures, all, answer.query.q);
        StandingNo::from_known(f, *answer, closed, known, witnesses, steps)
    }

    // What is kept of it with its closure, where what was enough stays so, but is no state.
    fn with_closed<I: Interior, L: Ledger>(
        &self,
        f: &I,
        closed: ItemSet,
        witnesses: &mut [Witnesses],
        steps: &mut Steps<L>,
    ) -> StandingNo
        requires kept { is_kept (I.item_count f.now) self.now ≡ true }
        requires within { IsWithin closed (full (I.item_count f.now)) }
        ensures value { let n = I.item_count f.now in
            closed ≡ closure (full n) (I.members f.now) self.now.no.query.a →
            AreStates (I.members f.now) witnesses.old → AreStates (I.members f.now) witnesses.new
            × (is_among (I.members f.now) self.now.enough ≡ false →
            IsWithin self.now.enough (enough_for n (I.members f.now) closed self.now.no.query.q) →
            result ≡ standing n (I.members f.now) self.now.no) }
        ensures kept { is_kept (I.item_count f.now) result ≡ true }
        ensures cost { steps.new ≤ steps.old + I.item_count f.now }
        ensures fewer { (i : ℕ) → has closed i ≡ true → i < I.item_count f.now →
            steps.new + 1 ≤ steps.old + I.item_count f.now }
    {
        let all = ItemSet::full(f.items());
        let enough = enough_between(
            f,
            closed,
            self.no.query.q,
            self.enough,
            all,
            witnesses,
            steps,
        );
        if enough.is_within(self.enough) {
            return StandingNo {
                closed,
                is_state: false,
                ..*self
            };
        }
        StandingNo::from_enough(f, self.no, closed, enough, steps)
    }

    // What is kept of it under a Yes to the good query `r` that comes. What was enough stays so,
    // and where it was a state that does not break `r`, nothing more is.
    fn after_yes<I: Interior, L: Ledger>(
        &self,
        f: &I,
        closures: &[ItemSet],
        r: &Query,
        witnesses: &mut [Witnesses],
        steps: &mut Steps<L>,
    ) -> StandingNo
        requires kept { is_kept (I.item_count f.now) self.now ≡ true }
        requires good { is_good (I.item_count f.now) r.now ≡ true }
        requires item { r.now.q < PLACES }
        requires few { I.item_count f.now ≤ PLACES }
        ensures value { (before : List Items) → let n = I.item_count f.now in
            IsChange YesChange.Added n r.now before (I.members f.now) →
            self.now ≡ standing n before self.now.no →
            AreStates (I.members f.now) witnesses.old → AreStates (I.members f.now) witnesses.new
            × ((k : ℕ) → closures.now ≡ map (closure (full n) (I.members f.now)) (blocks n k) →
            result ≡ standing n (I.members f.now) self.now.no) }
        ensures kept { is_kept (I.item_count f.now) result ≡ true }
        ensures cost { steps.new ≤ steps.old + (I.item_count f.now + 1) }
    {
        let closed = if r.a.is_within(self.closed) {
            closure(f, self.closed, steps)
        } else {
            self.closed
        };
        if !self.is_state {
            return self.with_closed(f, closed, witnesses, steps);
        }
        if !breaks(self.enough, r) {
            return StandingNo { closed, ..*self };
        }
        let all = ItemSet::full(f.items());
        let known = items_entailing(closures, all, self.no.query.q).union(self.enough);
        StandingNo::from_known(f, self.no, closed, known, witnesses, steps)
    }

    // Whether what is enough is a state without a Yes to `r` exactly where it is one with it.
    fn keeps_state(&self, r: &Query) -> bool
        requires { r.now.q < PLACES }
        ensures { result ≡ (self.now.is_state || not (breaks self.now.enough r.now)) }
    {
        self.is_state || !breaks(self.enough, r)
    }

    // What is kept of it where a Yes to the good query `r` is taken back. Nothing more is enough.
    // Items whose closures have p, by those that are kept of single items, still are.
    fn before_yes<I: Interior, L: Ledger>(
        &self,
        f: &I,
        closures: &[ItemSet],
        r: &Query,
        witnesses: &mut [Witnesses],
        steps: &mut Steps<L>,
    ) -> StandingNo
        requires kept { is_kept (I.item_count f.now) self.now ≡ true }
        requires good { is_good (I.item_count f.now) r.now ≡ true }
        requires item { r.now.q < PLACES }
        requires few { I.item_count f.now ≤ PLACES }
        ensures value { (before : List Items) → let n = I.item_count f.now in
            IsChange YesChange.Removed n r.now before (I.members f.now) →
            self.now ≡ standing n before self.now.no →
            AreStates (I.members f.now) witnesses.old → AreStates (I.members f.now) witnesses.new
            × ((k : ℕ) → closures.now ≡ map (closure (full n) (I.members f.now)) (blocks n k) →
            result ≡ standing n (I.members f.now) self.now.no) }
        ensures kept { is_kept (I.item_count f.now) result ≡ true }
        ensures cost { steps.new ≤ steps.old + I.item_count f.now }
    {
        let closed = if r.a.is_within(self.closed) {
            closure(f, self.no.query.a, steps)
        } else {
            self.closed
        };
        let q = self.no.query.q;
        let known = items_entailing(closures, self.enough, q);
        let enough = enough_between(f, closed, q, known, self.enough, witnesses, steps);
        if self.keeps_state(r) && self.enough.is_within(enough) {
            return StandingNo { closed, ..*self };
        }
        StandingNo::from_enough(f, self.no, closed, enough, steps)
    }

    // Whether more can be enough under a Yes to `r`.
    #[tactic(auto, unfolding(ls_set::specs::ItemSet::is_same))]
    fn can_grow(&self, r: &Query) -> bool
        requires { r.now.q < PLACES }
        ensures { result ≡ can_grow r.now self.now }
    {
        if self.is_state {
            breaks(self.enough, r)
        } else {
            r.a.meet(self.enough) == ItemSet::empty()
        }
    }

    /// Whether a Yes to `r` that came or was taken back can change what is kept of it.
    pub fn can_change(&self, change: YesChange, r: &Query) -> bool
        requires { r.now.q < PLACES }
        ensures { result ≡ can_change change r.now self.now }
    {
        match change {
            YesChange::Added => {
                !self.closed.has(r.q) && (r.a.is_within(self.closed) || self.can_grow(r))
            }
            YesChange::Removed => r.a.is_within(self.closed) || !self.closed.has(r.q),
        }
    }

    /// What is kept of it after a Yes to the good query `r` came or was taken back.
    pub fn after<I: Interior, L: Ledger>(
        &self,
        f: &I,
        closures: &[ItemSet],
        change: YesChange,
        r: &Query,
        witnesses: &mut [Witnesses],
        steps: &mut Steps<L>,
    ) -> StandingNo
        requires kept { is_kept (I.item_count f.now) self.now ≡ true }
        requires good { is_good (I.item_count f.now) r.now ≡ true }
        requires item { r.now.q < PLACES }
        requires few { I.item_count f.now ≤ PLACES }
        ensures value { (before : List Items) → let n = I.item_count f.now in
            IsChange change n r.now before (I.members f.now) →
            self.now ≡ standing n before self.now.no →
            AreStates (I.members f.now) witnesses.old → AreStates (I.members f.now) witnesses.new
            × ((k : ℕ) → closures.now ≡ map (closure (full n) (I.members f.now)) (blocks n k) →
            result ≡ standing n (I.members f.now) self.now.no) }
        ensures kept { is_kept (I.item_count f.now) result ≡ true }
        ensures cost { steps.new ≤ steps.old + most_steps_each change (I.item_count f.now) }
    {
        match change {
            YesChange::Added => self.after_yes(f, closures, r, witnesses, steps),
            YesChange::Removed => self.before_yes(f, closures, r, witnesses, steps),
        }
    }

    /// Whether the answer forces the query No.
    pub fn forces(&self, r: &Query) -> bool
        requires { r.now.q < PLACES }
        ensures { result ≡ forces r.now self.now }
    {
        r.a.is_within(self.closed) && self.enough.has(r.q)
    }

    /// The items `q` of `undecided` for which the answer does not force the query (`a`, q) No.
    pub fn unforced(&self, a: ItemSet, undecided: ItemSet) -> ItemSet
        ensures { (q : ℕ) → has result q
            ≡ (has undecided q && not (forces (record { a = a; q = q }) self.now)) }
    {
        if a.is_within(self.closed) {
            undecided.minus(self.enough)
        } else {
            undecided
        }
    }
}

/// Takes out what is kept of the answer with the number.
pub fn take_out(standing: &mut Vec<StandingNo>, number: u64)
    ensures { standing.new.items ≡ filter (λ s. not (s.no.number == number)) standing.old.items }
{
    standing.retain(|s| s.no.number != number);
}
