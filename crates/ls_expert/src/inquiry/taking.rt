// Answers that an inquiry takes and takes back.
ghost use Rattle.std.specs.Prelude.{◌≡◌, ◌+◌, ◌≤◌, ◌==◌, true, false, not, length};
ghost use Rattle.std.specs.Prelude.{Some, None, Ok, IfOk, IfErr, OnOk, OnErr};
ghost use Rattle.ls_set.specs.{is_good};
ghost use Rattle.ls_set.specs.declared.query.Query.{Query as Asked};
ghost use Rattle.ls_theory.specs.{accepted, known, nos, opposed, retracted};
ghost use Rattle.ls_theory.specs.declared.known.Known.TheVariants as Known;
ghost use Rattle.ls_theory.specs.{answer_with, is_full, refusal, standing_number};
ghost use Rattle.ls_expert.specs.Steps.{steps_back, most_steps};
ghost use Rattle.ls_expert.specs.Told.{told_before};

use crate::inquiry::Inquiry;
use ls_interior::{Counted, Inside, Steps};
use ls_set::Query;
use ls_standing::{MOST_ANSWERS, MOST_NUMBER, opposed, put_last, rules_before, take_out};
use ls_theory::{Answer, AnswerFault, Known, No};
use std::alloc::AllocError;
use std::sync::ledger::Ledger;

// Whether it is told that the answer is Yes.
fn is_yes(told: Option<Known>) -> bool
    ensures { result ≡ true → told ≡ Some Known.Yes }
{
    matches!(told, Some(Known::Yes))
}

impl Inquiry {
    /// What is told of the query before its answer is taken, or why it isn't taken. It takes at
    /// most one interior, and none where nothing is told.
    pub fn test<L: Ledger>(
        &self,
        query: &Query,
        yes: bool,
        steps: &mut Steps<L>,
    ) -> Result<Option<Known>, AnswerFault>
        ensures ok { OnOk result (refusal self.now query.now yes ≡ None) }
        ensures told { IfOk result (λ t. t ≡ told_before self.now query.now yes) }
        ensures fault { IfErr result (λ e. refusal self.now query.now yes ≡ Some e) }
        ensures cost { steps.new ≤ steps.old + 1 }
        ensures free { result ≡ Ok None → steps.new ≡ steps.old }
    {
        if !query.is_good(self.family.items()) {
            return Err(AnswerFault::BadQuery);
        }
        if let Some(number) = self.standing_number(query) {
            return Err(AnswerFault::Repeat { number });
        }
        let told = self.unopposed(query, yes, steps)?;
        if self.is_full() {
            return Err(AnswerFault::Full);
        }
        Ok(told)
    }

    // What is told of the good query before its answer is taken, or what opposes the answer.
    fn unopposed<L: Ledger>(
        &self,
        query: &Query,
        yes: bool,
        steps: &mut Steps<L>,
    ) -> Result<Option<Known>, AnswerFault>
        requires { is_good self.now.count query.now ≡ true }
        ensures ok { OnOk result (opposed (known self.now query.now) yes ≡ None) }
        ensures told { IfOk result (λ t. t ≡ told_before self.now query.now yes) }
        ensures fault { IfErr result (λ e. opposed (known self.now query.now) yes ≡ Some e) }
        ensures cost { steps.new ≤ steps.old + 1 }
        ensures free { result ≡ Ok None → steps.new ≡ steps.old }
    {
        if yes && !self.has_no() {
            return Ok(None);
        }
        let known = self.known_of(query, steps);
        match opposed(known, yes) {
            Some(fault) => Err(fault),
            None => Ok(Some(known)),
        }
    }

    // Whether an answer that stands is No. Where none is, nothing opposes a Yes.
    fn has_no(&self) -> bool
        ensures value { result ≡ not (length (nos self.now.answers) == 0) }
        ensures none { result ≡ false → (r : Asked) → is_good self.now.count r ≡ true →
            opposed (known self.now r) true ≡ None }
    {
        self.family.rules().len() < self.answers.len()
    }

    // The number of the standing answer to the query, if there is one: it is looked for among all.
    #[tactic(auto, unfolding(ls_set::specs::ItemSet::is_same))]
    fn standing_number(&self, query: &Query) -> Option<u64>
        ensures { result ≡ standing_number self.now query.now }
    {
        self.answers
            .iter()
            .find(|a| a.query == *query)
            .map(|a| a.number)
    }

    fn is_full(&self) -> bool
        ensures { result ≡ is_full self.now }
    {
        self.answers.len() >= MOST_ANSWERS || self.next > MOST_NUMBER
    }

    /// Takes an answer that is not refused, of whose query that is told, and gives its number.
    /// Nothing changes where memory runs out.
    pub fn take<L: Ledger>(
        &mut self,
        query: &Query,
        yes: bool,
        told: Option<Known>,
        steps: &mut Steps<L>,
    ) -> Result<u64, AllocError>
        requires passes { refusal self.old query.now yes ≡ None }
        requires told { told ≡ told_before self.old query.now yes }
        ensures number { IfOk result (λ m. m ≡ self.old.next) }
        ensures ok { OnOk result (self.new ≡ accepted self.old query.now yes) }
        ensures err { OnErr result (self.new ≡ self.old) }
        ensures cost { steps.new + 1 ≤ steps.old + most_steps self.old query.now yes }
        ensures refused { OnErr result (steps.new ≡ steps.old) }
    {
        if yes {
            self.take_yes(query, told, steps)
        } else {
            self.take_no(query, steps)
        }
    }

    // Takes a Yes that is not refused. One that the others force leaves the same sets, so what is
    // kept of them stays.
    fn take_yes<L: Ledger>(
        &mut self,
        query: &Query,
        told: Option<Known>,
        steps: &mut Steps<L>,
    ) -> Result<u64, AllocError>
        requires passes { refusal self.old query.now true ≡ None }
        requires told { told ≡ told_before self.old query.now true }
        ensures number { IfOk result (λ m. m ≡ self.old.next) }
        ensures ok { OnOk result (self.new ≡ accepted self.old query.now true) }
        ensures err { OnErr result (self.new ≡ self.old) }
        ensures cost { steps.new + 1 ≤ steps.old + most_steps self.old query.now true }
        ensures refused { OnErr result (steps.new ≡ steps.old) }
    {
        self.answers.reserve(1)?;
        self.family.reserve()?;
        self.family.push_reserved(*query);
        if !is_yes(told) {
            self.table
                .yes_added(&Counted::new(&self.family), query, steps);
        }
        self.is_found = false;
        Ok(put_last(&mut self.answers, &mut self.next, query, true))
    }

    // Takes a No that is not refused.
    fn take_no<L: Ledger>(&mut self, query: &Query, steps: &mut Steps<L>) -> Result<u64, AllocError>
        requires { refusal self.old query.now false ≡ None }
        ensures number { IfOk result (λ m. m ≡ self.old.next) }
        ensures ok { OnOk result (self.new ≡ accepted self.old query.now false) }
        ensures err { OnErr result (self.new ≡ self.old) }
        ensures cost { steps.new + 1 ≤ steps.old + most_steps self.old query.now false }
        ensures refused { OnErr result (steps.new ≡ steps.old) }
    {
        self.answers.reserve(1)?;
        self.table.reserve_no()?;
        let no = No {
            number: self.next,
            query: *query,
        };
        self.table
            .no_added_shared(&Counted::new(&self.family), no, steps);
        self.is_found = false;
        Ok(put_last(&mut self.answers, &mut self.next, query, false))
    }

    /// Takes back an answer that stands. It takes no memory.
    pub fn take_back<L: Ledger>(&mut self, answer: &Answer, steps: &mut Steps<L>)
        requires { answer_with self.old answer.now.number ≡ Some answer.now }
        ensures ok { self.new ≡ retracted self.old answer.now.number }
        ensures cost { steps.new ≤ steps.old + steps_back self.old (Some answer.now) }
    {
        if answer.yes {
            self.take_back_yes(answer, steps)
        } else {
            self.take_back_no(answer)
        }
    }

    // Takes back a Yes that stands.
    fn take_back_yes<L: Ledger>(&mut self, answer: &Answer, steps: &mut Steps<L>)
        requires stands { answer_with self.old answer.now.number ≡ Some answer.now }
        requires yes { answer.now.yes ≡ true }
        ensures ok { self.new ≡ retracted self.old answer.now.number }
        ensures cost { steps.new ≤ steps.old + steps_back self.old (Some answer.now) }
    {
        let rule = rules_before(&self.answers, answer.number);
        self.family.remove(rule);
        self.table
            .yes_removed(&Counted::new(&self.family), &answer.query, steps);
        self.from = self.blocks.next_query(None);
        self.is_found = false;
        take_out(&mut self.answers, answer.number);
    }

    // Takes back a No that stands.
    fn take_back_no(&mut self, answer: &Answer)
        requires stands { answer_with self.old answer.now.number ≡ Some answer.now }
        requires no { answer.now.yes ≡ false }
        ensures ok { self.new ≡ retracted self.old answer.now.number }
    {
        let number = answer.number;
        self.table.no_removed(number);
        self.from = self.blocks.next_query(None);
        self.is_found = false;
        take_out(&mut self.answers, number);
    }
}
