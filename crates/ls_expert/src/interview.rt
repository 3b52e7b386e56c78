// The interview of an expert.
ghost use Rattle.std.specs.Prelude.{◌≡◌, ◌≢◌, ◌+◌, ◌-◌, max, ◌<◌, ◌≤◌, ◌∷◌, [], true, false};
ghost use Rattle.std.specs.Prelude.{filter, Some, None, Ok, Err, IsSome, IsNone, IfOk, IfErr};
ghost use Rattle.std.specs.Prelude.{IfSome, OnOk, OnErr};
ghost use Rattle.std.specs.Option.{ForSome, option_map};
ghost use Rattle.ls_set.specs.{is_good};
ghost use Rattle.ls_theory.specs.{IsAnswerFault, IsBlockFault, accepted, answer_with, begun};
ghost use Rattle.ls_theory.specs.{breaks_none, compat, compatible_sets, is_settled, known, made};
ghost use Rattle.ls_theory.specs.{next_question, refusal, retracted, spaces_of, yes_queries};
ghost use Rattle.ls_base.specs.Followed.{IsFollowed};
ghost use Rattle.ls_standing.specs.Standing.{interview_on, IsStanding};
ghost use Rattle.ls_expert.specs.Held.{blocks_of};
ghost use Rattle.ls_expert.specs.Saved.{IsStandingFault};
ghost use Rattle.ls_expert.specs.Steps.{steps_back, most_steps, question_steps};
ghost use Rattle.ls_expert.specs.Told.{told_before};

use crate::bad_query::BadQuery;
use crate::inquiry::Inquiry;
use crate::retract_fault::RetractFault;
use crate::standing_fault::StandingFault;
use crate::start_fault::StartFault;
use ls_base::Followed;
use ls_interior::Steps;
use ls_query::{BlockFault, Blocks};
use ls_rules::Ruled;
use ls_set::{PLACES, Query};
use ls_standing::{OnItems, Start};
use ls_theory::{Answer, AnswerFault, Known};
use std::alloc::{AllocError, Global};
use std::marker::Model;
use std::sync::ledger::Ledger;

/// The interview of an expert: an inquiry, with the base of its compatible sets, which is kept at
/// each Yes and so is there without memory.
#[derive(Drop)]
pub struct Interview {
    inquiry: Inquiry,
    followed: Followed,
}

impl Model for Interview {
    ghost use Rattle.ls_theory.specs.{Interview as Standing, yes_queries};
    ghost use Rattle.ls_base.specs.Followed.{IsFollowed};

    ghost Value = { Standing };

    ghost view = { λ s. s.inquiry };

    ghost invariant = { λ s. IsFollowed
        s.inquiry.count s.inquiry.start (yes_queries s.inquiry.answers) s.followed };
}

// The base of the inquiry, followed over the Yes answers.
fn follow(inquiry: &Inquiry) -> Result<Followed, AllocError>
    ensures { IfOk result (IsFollowed
        inquiry.now.count inquiry.now.start (yes_queries inquiry.now.answers)) }
{
    Followed::over(inquiry.first_base()?, inquiry.yes_queries())
}

impl Interview {
    ghost use Rattle.ls_standing.specs.Starts.{start_of, IsStartOn};

    /// The interview on `n` items that begins with the start: blocks of single items, no answers,
    /// and the next number 1. It takes at most an interior an item.
    pub fn new<L: Ledger>(
        alloc: Global,
        n: u32,
        start: Start,
        steps: &mut Steps<L>,
    ) -> Result<Interview, AllocError>
        requires some { 0 < n }
        requires few { n ≤ PLACES }
        requires start { IsStartOn n start }
        ensures begun { IfOk result (λ i. i ≡ begun n (start_of start)) }
        ensures cost { steps.new ≤ steps.old + n }
    {
        let followed = Followed::begin(start.base(alloc, n)?);
        let inquiry = Inquiry::new(alloc, n, start, steps)?;
        Ok(Interview { inquiry, followed })
    }

    /// The interview on `n` items that began with the start and goes on from answers that stand, as
    /// from saved ones: `next` is the number of the next, and queries of sets of 1 to `k` items are
    /// asked. Blocks that cannot be made are refused first.
    pub fn from_standing<L: Ledger>(
        alloc: Global,
        n: u32,
        start: Start,
        k: u32,
        next: u64,
        answers: &[Answer],
        steps: &mut Steps<L>,
    ) -> Result<Interview, StandingFault>
        requires some { 0 < n }
        requires few { n ≤ PLACES }
        requires start { IsStartOn n start }
        ensures ok { IfOk result (λ i.
            i ≡ interview_on n (start_of start) k answers.now next) }
        ensures made { IfOk result (λ i. made n k ≡ Ok (blocks_of i)) }
        ensures standing { IfOk result (λ i. IsStanding i) }
        ensures fault { IfErr result
            (IsStandingFault (interview_on n (start_of start) k answers.now next)) }
    {
        let inquiry = Inquiry::from_standing(alloc, n, start, k, next, answers, steps)?;
        Ok(Interview::of(inquiry)?)
    }

    /// The interview of the inquiry, with its base followed over the Yes answers.
    pub fn of(inquiry: Inquiry) -> Result<Interview, AllocError>
        ensures { IfOk result (λ i. i ≡ inquiry) }
    {
        let followed = follow(&inquiry)?;
        Ok(Interview { inquiry, followed })
    }

    /// Asks queries of sets of 1 to `k` items from now on; it may be called at any time. It is
    /// refused as blocks are, and nothing changes then.
    pub fn set_blocks<L: Ledger>(&mut self, k: u32, _steps: &mut Steps<L>) -> Result<(), BlockFault>
        ensures made { OnOk result (made self.old.count k ≡ Ok (blocks_of self.new)) }
        ensures ok { OnOk result (self.new ≡ record self.old { block = k }) }
        ensures fault { IfErr result (IsBlockFault (made self.old.count k)) }
        ensures err { OnErr result (self.new ≡ self.old) }
    {
        self.inquiry.set_blocks(k)
    }

    /// Begins with another start; the blocks and the next number stay. It is refused only where an
    /// answer stands, and nothing changes then. It takes at most an interior an item.
    pub fn set_start<L: Ledger>(
        &mut self,
        start: Start,
        steps: &mut Steps<L>,
    ) -> Result<(), StartFault>
        requires { IsStartOn self.old.count start }
        ensures none_stood { OnOk result (self.old.answers ≡ []) }
        ensures ok { OnOk result (self.new ≡ record self.old { start = start_of start }) }
        ensures answers_stand { result ≡ Err StartFault.AnswersStand → self.old.answers ≢ [] }
        ensures err { OnErr result (self.new ≡ self.old) }
        ensures cost { steps.new ≤ steps.old + self.old.count }
    {
        if !self.inquiry.standing().is_empty() {
            return Err(StartFault::AnswersStand);
        }
        let followed = Followed::begin(self.inquiry.base_of(&start)?);
        self.inquiry.set_start(start, steps)?;
        self.followed = followed;
        Ok(())
    }

    /// Takes the expert's answer to a query, and gives its number. It is refused by the first of
    /// these that holds: the query is not good; an answer to it stands; the standing answers force
    /// the other reply; there is no room for it. Nothing changes then. It takes at most one
    /// interior where it is refused.
    pub fn answer<L: Ledger>(
        &mut self,
        query: Query,
        yes: bool,
        steps: &mut Steps<L>,
    ) -> Result<u64, AnswerFault>
        ensures taken { OnOk result (refusal self.old query yes ≡ None) }
        ensures number { IfOk result (λ m. m ≡ self.old.next) }
        ensures ok { OnOk result (self.new ≡ accepted self.old query yes) }
        ensures fault { IfErr result (IsAnswerFault (refusal self.old query yes)) }
        ensures err { OnErr result (self.new ≡ self.old) }
        ensures cost { steps.new ≤ steps.old + most_steps self.old query yes }
        ensures refused { OnErr result (steps.new ≤ steps.old + 1) }
    {
        let told = self.inquiry.test(&query, yes, steps)?;
        let number = if yes {
            self.take_yes(&query, told, steps)
        } else {
            self.inquiry.take(&query, false, told, steps)
        };
        Ok(number?)
    }

    // Takes a Yes that is not refused.
    fn take_yes<L: Ledger>(
        &mut self,
        query: &Query,
        told: Option<Known>,
        steps: &mut Steps<L>,
    ) -> Result<u64, AllocError>
        requires passes { refusal self.old query.now true ≡ None }
        requires told { told ≡ told_before self.old query.now true }
        ensures number { IfOk result (λ m. m ≡ self.old.next) }
        ensures ok { OnOk result (self.new ≡ accepted self.old query.now true) }
        ensures err { OnErr result (self.new ≡ self.old) }
        ensures cost { steps.new + 1 ≤ steps.old + most_steps self.old query.now true }
        ensures refused { OnErr result (steps.new ≡ steps.old) }
    {
        let position = self.inquiry.yes_queries().len() + 1;
        let followed = self.followed.after_yes(position, query)?;
        let number = self.inquiry.take(query, true, told, steps)?;
        self.followed = followed;
        Ok(number)
    }

    /// Takes back the answer with the number, which is never given again. It is refused where no
    /// standing answer has the number; nothing changes then. It takes no interior for a No.
    pub fn retract<L: Ledger>(
        &mut self,
        number: u64,
        steps: &mut Steps<L>,
    ) -> Result<(), RetractFault>
        ensures stood { OnOk result (IsSome (answer_with self.old number)) }
        ensures ok { OnOk result (self.new ≡ retracted self.old number) }
        ensures not_standing { result ≡ Err RetractFault.NotStanding →
            IsNone (answer_with self.old number) }
        ensures err { OnErr result (self.new ≡ self.old) }
        ensures cost { steps.new ≤ steps.old + steps_back self.old (answer_with self.old number) }
    {
        let Some(answer) = self.inquiry.answer_with(number) else {
            return Err(RetractFault::NotStanding);
        };
        if answer.yes {
            self.take_back_yes(&answer, steps)?;
        } else {
            self.inquiry.take_back(&answer, steps);
        }
        Ok(())
    }

    // Takes back a Yes that stands.
    fn take_back_yes<L: Ledger>(
        &mut self,
        answer: &Answer,
        steps: &mut Steps<L>,
    ) -> Result<(), AllocError>
        requires { answer_with self.old answer.now.number ≡ Some answer.now }
        ensures ok { OnOk result (self.new ≡ retracted self.old answer.now.number) }
        ensures err { OnErr result (self.new ≡ self.old) }
        ensures cost { steps.new ≤ steps.old + steps_back self.old (Some answer.now) }
    {
        let others = self.inquiry.yes_others(answer.number)?;
        let followed = Followed::over(self.inquiry.first_base()?, &others)?;
        self.inquiry.take_back(answer, steps);
        self.followed = followed;
        Ok(())
    }

    /// What the standing answers tell of the query, in at most one interior and without memory.
    pub fn known<L: Ledger>(&self, q: &Query, steps: &mut Steps<L>) -> Result<Known, BadQuery>
        ensures value { IfOk result (λ k. k ≡ known self.now q.now) }
        ensures good { OnOk result (is_good self.now.count q.now ≡ true) }
        ensures bad { OnErr result (is_good self.now.count q.now ≡ false) }
        ensures cost { steps.new ≤ steps.old + 1 }
    {
        self.inquiry.known(q, steps)
    }

    /// The first open query of the blocks that comes after the given good one, or the first of all.
    /// It takes no memory, and for each set that it looks at at most one interior more than the
    /// largest has items.
    pub fn find_question<L: Ledger>(
        &self,
        after: Option<&Query>,
        steps: &mut Steps<L>,
    ) -> Option<Query>
        requires { ForSome after (λ r. is_good self.now.count r.now ≡ true) }
        ensures value { result ≡ next_question self.now (option_map (λ r. r.now) after.entry) }
        ensures good { IfSome result (λ r. is_good self.now.count r ≡ true) }
        ensures cost { steps.new ≤ steps.old
            + question_steps self.now (option_map (λ r. r.now) after.entry) }
    {
        self.inquiry.find_question(after, steps)
    }

    /// The same, in a count of its own.
    pub fn next_question(&self, after: Option<&Query>) -> Option<Query>
        requires { ForSome after (λ r. is_good self.now.count r.now ≡ true) }
        ensures value { result ≡ next_question self.now (option_map (λ r. r.now) after.entry) }
        ensures good { IfSome result (λ r. is_good self.now.count r ≡ true) }
    {
        self.inquiry.next_question(after)
    }

    /// Whether no query of the blocks is open. Where the largest sets are asked, exactly one space
    /// then fits, that of the compatible sets.
    pub fn is_settled<L: Ledger>(&self, steps: &mut Steps<L>) -> bool
        ensures value { result ≡ is_settled self.now }
        ensures one { result ≡ true → self.now.block ≡ max 1 (self.now.count - 1) →
            spaces_of self.now ≡ compatible_sets self.now ∷ [] }
        ensures cost { steps.new ≤ steps.old + question_steps self.now None }
    {
        self.inquiry.is_settled(steps)
    }

    /// The same, in a count of its own.
    pub fn settled(&self) -> bool
        ensures value { result ≡ is_settled self.now }
        ensures one { result ≡ true → self.now.block ≡ max 1 (self.now.count - 1) →
            spaces_of self.now ≡ compatible_sets self.now ∷ [] }
    {
        self.inquiry.settled()
    }

    /// The standing answers, in order of number.
    pub fn standing(&self) -> &[Answer]
        ensures value { result.now ≡ self.now.answers }
        ensures standing { IsStanding self.now }
    {
        self.inquiry.standing()
    }

    /// The number of the next answer.
    pub fn next_number(&self) -> u64
        ensures { result ≡ self.now.next }
    {
        self.inquiry.next_number()
    }

    /// How many items there are.
    pub fn items(&self) -> u32
        ensures count { result ≡ self.now.count }
        ensures some { 0 < result }
        ensures few { result ≤ PLACES }
    {
        self.inquiry.items()
    }

    /// The greatest size of the sets that are asked.
    pub fn block(&self) -> u32
        ensures { result ≡ self.now.block }
    {
        self.inquiry.block()
    }

    /// The blocks of the sets that are asked.
    pub fn blocks(&self) -> Blocks
        ensures { result ≡ blocks_of self.now }
    {
        self.inquiry.blocks()
    }

    /// The start.
    pub fn start(&self) -> &Start
        ensures value { start_of result.now ≡ self.now.start }
        ensures on { IsStartOn self.now.count result.now }
    {
        self.inquiry.start()
    }

    /// The family of the compatible sets: those that meet the start and break no Yes.
    pub fn family(&self) -> &Ruled<OnItems>
        ensures inner { result.now.inner
            ≡ record { item_count = self.now.count; start = self.now.start } }
        ensures rules { result.now.rules ≡ yes_queries self.now.answers }
        ensures members { filter (breaks_none result.now.rules)
            (compat result.now.inner.item_count result.now.inner.start [])
            ≡ compatible_sets self.now }
    {
        self.inquiry.family()
    }

    /// The inquiry.
    pub fn inquiry(&self) -> &Inquiry
        ensures { result.now ≡ self.now }
    {
        &self.inquiry
    }

    /// The base of the compatible sets; or, where it had too many sets under the first Yes answers,
    /// the least number of these with which it had, and its size then. It takes no memory.
    pub fn base(&self) -> &Followed
        ensures { IsFollowed
            self.now.count self.now.start (yes_queries self.now.answers) result.now }
    {
        &self.followed
    }
}
