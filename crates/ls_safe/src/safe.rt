// The safe interview.
ghost use Rattle.std.specs.Prelude.{◌≡◌, ℕ, suc, true, List, [], ◌∷◌, ◌++◌, length, Some, None};
ghost use Rattle.std.specs.Prelude.{not, position, IfOk, IfErr, OnOk, OnErr};
ghost use Rattle.std.specs.List.{list_all};
ghost use Rattle.ls_set.specs.ItemSet.{Items, full};
ghost use Rattle.ls_set.specs.declared.query.Query.{Query};
ghost use Rattle.ls_theory.specs.Bases.{base};
ghost use Rattle.ls_theory.specs.Families.{is_space};
ghost use Rattle.ls_theory.specs.Verdict.{base_verdict, is_learning_space};
ghost use Rattle.ls_theory.specs.declared.verdict.BaseVerdict.TheVariants.{Learning};
ghost use Rattle.ls_base.specs.Bases.{family};
ghost use Rattle.ls_theory.specs.Answering.{is_same_query};
ghost use Rattle.ls_origins.specs.Safe.{is_safe, marked, safe, safe_refusal};
ghost use Rattle.ls_origins.specs.Safe.{waiting};
ghost use Rattle.ls_safe.specs.Interviews.{IsSafeOf, IsOpenFaultOf, IsSafeFaultOf};
ghost use Rattle.ls_safe.specs.Interviews.{plain_refusal, queries_of};

use crate::open_fault::OpenFault;
use crate::turning::turn;
use ls_base::Base;
use ls_interior::Inside;
use ls_origins::{SafeAnswer, SafeFault};
use ls_set::{ItemSet, Query};
use ls_space::{BaseVerdict, test_base};
use std::alloc::Global;
use std::marker::Model;

/// The most answers that are accepted.
pub const MOST_ANSWERS: usize = 8192;

// The place of the answer to the query, if there is one.
#[tactic(auto, unfolding(ls_set::specs::ItemSet::is_same))]
fn place_of(answers: &[SafeAnswer], q: &Query) -> Option<usize>
    ensures { result ≡ position (λ a. is_same_query a.query q.now) answers.now }
{
    answers.iter().position(|a| a.query == *q)
}

/// A safe interview: the answer Yes to a query is applied only where a learning space remains, and
/// waits otherwise. It is known by the base of the family that remains.
#[derive(Drop)]
pub struct Safe {
    base: Base,
    answers: Vec<SafeAnswer>,
    // Beside each answer that waits, a set of the base of its trial that is an atom at two items.
    witnesses: Vec<ItemSet>,
    alloc: Global,
}

impl Model for Safe {
    ghost use Rattle.ls_safe.specs.Interviews.{SafeState, IsSafe};

    ghost Value = { SafeState };

    ghost view = { λ s. record {
      base = s.base;
      answers = s.answers.items;
      witnesses = s.witnesses.items;
    } };

    ghost invariant = { λ s. IsSafe (record {
      base = s.base;
      answers = s.answers.items;
      witnesses = s.witnesses.items;
    }) };
}

impl Safe {
    /// A safe interview from the family of a base on, with no answer. The error is `NotLearning`
    /// where the family, which is a space, is no learning space; or memory ran out.
    pub fn begin(alloc: Global, b: &Base) -> Result<Safe, OpenFault>
        requires space { is_space (full b.now.item_count) (family b.now) ≡ true }
        ensures ok { IfOk result (IsSafeOf b.now.item_count (family b.now) []) }
        ensures learning { OnOk result (base_verdict (family b.now) ≡ Learning) }
        ensures fault { IfErr result (IsOpenFaultOf (base_verdict (family b.now))) }
    {
        match test_base(b) {
            BaseVerdict::NotGraded { set, first, second } => {
                Err(OpenFault::NotLearning { set, first, second })
            }
            BaseVerdict::Learning => Ok(Safe {
                base: b.copy()?,
                answers: Vec::new(alloc),
                witnesses: Vec::new(alloc),
                alloc,
            }),
        }
    }

    /// The base of the safe family, which is a learning space.
    pub fn base(&self) -> &Base
        ensures sets { (n : ℕ) (f : List Items) (queries : List Query) →
            IsSafeOf n f queries self.now → result.now.sets ≡ base (safe n f queries).family }
        ensures items { (n : ℕ) (f : List Items) (queries : List Query) →
            IsSafeOf n f queries self.now → result.now.item_count ≡ n }
        ensures learning { is_learning_space (full result.now.item_count) (family result.now)
            ≡ true }
    {
        &self.base
    }

    /// The accepted answers, in order of number, each with a mark where it is applied.
    pub fn answers(&self) -> &[SafeAnswer]
        ensures value { (n : ℕ) (f : List Items) (queries : List Query) →
            IsSafeOf n f queries self.now → result.now ≡ (marked n f queries).answers }
        ensures waiting { (n : ℕ) (f : List Items) (queries : List Query) →
            IsSafeOf n f queries self.now →
            list_all (λ r. not (is_safe n (safe n f queries).family r)) (waiting result.now)
            ≡ true }
    {
        &self.answers
    }

    // Whether an answer to the query can be accepted, whatever its trials are.
    fn check(&self, q: &Query) -> Result<(), SafeFault>
        ensures none { OnOk result (plain_refusal self.now.base.item_count
            (queries_of self.now.answers) q.now ≡ None) }
        ensures fault { IfErr result (λ e. plain_refusal self.now.base.item_count
            (queries_of self.now.answers) q.now ≡ Some e) }
    {
        if !q.is_good(self.base.items()) {
            return Err(SafeFault::BadQuery);
        }
        if let Some(place) = place_of(&self.answers, q) {
            return Err(SafeFault::Repeat {
                number: place as u64 + 1,
            });
        }
        if self.answers.len() >= MOST_ANSWERS {
            return Err(SafeFault::Full);
        }
        Ok(())
    }

    /// Accepts the answer Yes to a query, and tells its number: it waits behind the others, and
    /// then each answer that can be applied is, the first before the others. The error is the
    /// first of these: `BadQuery`, `Repeat`, `Full`; `Past` where the base of a trial has too many
    /// sets, by the first such trial; or memory ran out. After an error nothing has changed.
    pub fn answer(&mut self, q: Query) -> Result<u64, SafeFault>
        ensures accepted { (n : ℕ) (f : List Items) (queries : List Query) →
            IsSafeOf n f queries self.old → OnOk result (safe_refusal n f queries q ≡ None) }
        ensures number { (n : ℕ) (f : List Items) (queries : List Query) →
            IsSafeOf n f queries self.old → IfOk result (λ k. k ≡ suc (length queries)) }
        ensures answered { (n : ℕ) (f : List Items) (queries : List Query) →
            IsSafeOf n f queries self.old →
            OnOk result (IsSafeOf n f (queries ++ q ∷ []) self.new) }
        ensures fault { (n : ℕ) (f : List Items) (queries : List Query) →
            IsSafeOf n f queries self.old →
            IfErr result (IsSafeFaultOf (safe_refusal n f queries q)) }
        ensures err { OnErr result (self.new ≡ self.old) }
    {
        self.check(&q)?;
        let number = self.answers.len() as u64 + 1;
        turn(
            self.alloc,
            &mut self.base,
            &mut self.answers,
            &mut self.witnesses,
            q,
        )?;
        Ok(number)
    }
}
