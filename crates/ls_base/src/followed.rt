// The base of the compatible sets, followed over the Yes answers.
ghost use Rattle.std.specs.Prelude.{◌≡◌, ◌+◌, ℕ, List, [], ◌∷◌, ◌++◌, true, length, IsTrue, IfOk};
ghost use Rattle.std.specs.List.{list_all};
ghost use Rattle.ls_set.specs.{is_good};
ghost use Rattle.ls_set.specs.declared.query.Query.{Query};
ghost use Rattle.ls_theory.specs.{Start, base, compat};
ghost use Rattle.ls_base.specs.Followed.{IsAskable, IsFollowed, followed_sets, is_unchanged};

use crate::base::Base;
use crate::fault::PastFault;
use ls_set::{ItemSet, Query};
use std::alloc::AllocError;

/// The base of the compatible sets under the first Yes answers of an interview; or, from the first
/// of them on with which the base had too many sets, the number of that answer, counted from 1, and
/// how many sets the base had then.
#[derive(Drop)]
pub enum Followed {
    Within(Base),
    Past { position: usize, count: usize },
}

impl Followed {
    /// The base before any answer.
    pub fn begin(first: Base) -> Followed
        ensures value { result ≡ Followed.Within first }
        ensures followed { (start : Start) →
            first.sets ≡ base (compat first.item_count start []) →
            IsFollowed first.item_count start [] result }
        ensures askable { (r : Query) → is_good first.item_count r ≡ true → IsAskable result r }
    {
        let _ = first.sets(); // for the proof
        Followed::Within(first)
    }

    /// Whether one more Yes answer changes nothing.
    pub fn is_unchanged(&self, r: &Query) -> bool
        requires { IsAskable self.now r.now }
        ensures test { result ≡ is_unchanged self.now r.now }
        ensures followed { (n : ℕ) (start : Start) (yeses : List Query) →
            IsFollowed n start yeses self.now → IsTrue result →
            IsFollowed n start (yeses ++ r.now ∷ []) self.now }
    {
        match self {
            Followed::Within(base) => base.is_unchanged(r),
            Followed::Past { .. } => true,
        }
    }

    /// The sets of the base; none where it is past.
    pub fn sets(&self) -> &[ItemSet]
        ensures { result.now ≡ followed_sets self.now }
    {
        match self {
            Followed::Within(base) => base.sets(),
            Followed::Past { .. } => &[],
        }
    }

    /// What follows one more Yes answer, of which there are `position` with it. What is past stays.
    pub fn after_yes(&self, position: usize, r: &Query) -> Result<Followed, AllocError>
        requires { IsAskable self.now r.now }
        ensures followed { (n : ℕ) (start : Start) (yeses : List Query) →
            IsFollowed n start yeses self.now → position ≡ length yeses + 1 →
            IfOk result (IsFollowed n start (yeses ++ r.now ∷ [])) }
        ensures askable { IfOk result (λ f. (s : Query) → IsAskable self.now s → IsAskable f s) }
    {
        let base = match self {
            Followed::Within(base) => base,
            Followed::Past { position, count } => {
                return Ok(Followed::Past {
                    position: *position,
                    count: *count,
                });
            }
        };
        match base.after_yes(r) {
            Ok(next) => Ok(Followed::Within(next)),
            Err(PastFault::Past { count }) => Ok(Followed::Past { position, count }),
            Err(PastFault::Memory(e)) => Err(e),
        }
    }

    /// What follows the Yes answers, each in turn.
    pub fn over(first: Base, yeses: &[Query]) -> Result<Followed, AllocError>
        requires { list_all (is_good first.item_count) yeses.now ≡ true }
        ensures followed { (start : Start) →
            first.sets ≡ base (compat first.item_count start []) →
            IfOk result (IsFollowed first.item_count start yeses.now) }
        ensures askable { IfOk result (λ f. (r : Query) → is_good first.item_count r ≡ true →
            IsAskable f r) }
    {
        let mut followed = Followed::begin(first);
        for (place, r) in yeses.iter().enumerate() {
            followed = followed.after_yes(place + 1, r)?;
        }
        Ok(followed)
    }
}
