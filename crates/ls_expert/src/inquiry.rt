// What an expert was asked and answered.
ghost use Rattle.std.specs.Prelude.{◌≡◌, ◌≢◌, ◌+◌, ◌<◌, ◌≤◌, [], true, false};
ghost use Rattle.std.specs.Prelude.{length, filter, Some, None, Ok, Err, IsSome, IsNone, IfOk};
ghost use Rattle.std.specs.Prelude.{IfErr, IfSome, OnOk, OnErr};
ghost use Rattle.std.specs.List.{list_all};
ghost use Rattle.ls_set.specs.{is_good};
ghost use Rattle.ls_theory.specs.{IsAnswerFault, IsBlockFault, accepted, answer_with, base, begun};
ghost use Rattle.ls_theory.specs.{breaks_none, compat, compatible_sets, known, made, nos};
ghost use Rattle.ls_theory.specs.{refusal, retracted, yes_queries};
ghost use Rattle.ls_clauses.specs.Starts.{IsStart};
ghost use Rattle.ls_infer.specs.Tables.{IsKeptFor};
ghost use Rattle.ls_standing.specs.Starts.{start_of, IsStartOn};
ghost use Rattle.ls_standing.specs.Standing.{rules_before, IsStanding};
ghost use Rattle.ls_expert.specs.Held.{single_items, blocks_of};
ghost use Rattle.ls_expert.specs.Steps.{steps_back, most_steps};

mod resumed;
mod searching;
mod taking;

use crate::bad_query::BadQuery;
use crate::retract_fault::RetractFault;
use crate::start_fault::StartFault;
use ls_base::Base;
use ls_infer::Table;
use ls_interior::{Counted, Inside, Steps};
use ls_query::{BlockFault, Blocks};
use ls_rules::Ruled;
use ls_set::{PLACES, Query};
use ls_standing::{OnItems, Start, answer_with, leading, nos, rules_before, yes_others};
use ls_theory::{Answer, AnswerFault, Known};
use std::alloc::{AllocError, Global};
use std::marker::Model;
use std::sync::ledger::Ledger;

/// What an expert was asked and answered: the items, the start, the greatest size of the sets that
/// are asked, the standing answers in order of number, and the number of the next. Some space fits
/// the answers. (The QUERY routine.) It keeps the closures of single items alone; those of the sets
/// that are asked are formed when an open query is looked for, from where the search last ended.
#[derive(Drop)]
pub struct Inquiry {
    alloc: Global,
    // the sets that meet the start, with the Yes answers as rules
    family: Ruled<OnItems>,
    answers: Vec<Answer>,
    next: u64,
    block: u32,
    // the sets that are asked
    blocks: Blocks,
    // of the sets of one item
    table: Table,
    // no query of the blocks before it is open; and none at all where there is none
    from: Option<Query>,
    // whether that is the first open query
    is_found: bool,
}

impl Model for Inquiry {
    ghost use Rattle.ls_theory.specs.{Interview};
    ghost use Rattle.ls_expert.specs.Held.{interview_of, IsInquiry};

    ghost Value = { Interview };

    ghost view = { λ s. interview_of s.family.inner s.block s.answers.items s.next };

    ghost invariant = { λ s. IsInquiry
        (interview_of s.family.inner s.block s.answers.items s.next)
        s.blocks s.family.rules s.table s.from s.is_found };
}

// The table of a family with rules, of the sets of one item, for the answers that are No. It is
// found with fewer rules that leave the same sets.
fn build<L: Ledger>(
    alloc: Global,
    family: &Ruled<OnItems>,
    answers: &[Answer],
    steps: &mut Steps<L>,
) -> Result<Table, AllocError>
    requires some { 0 < family.now.inner.item_count }
    requires few { family.now.inner.item_count ≤ PLACES }
    requires rules { list_all (is_good family.now.inner.item_count) family.now.rules ≡ true }
    requires good { list_all (λ a. is_good family.now.inner.item_count a.query) answers.now
        ≡ true }
    ensures { let n = family.now.inner.item_count in
        IfOk result (IsKeptFor (single_items n)
        (compat n family.now.inner.start family.now.rules) (nos answers.now)) }
{
    let nos = nos(alloc, answers)?;
    let blocks = Blocks::new(family.items(), 1).unwrap();
    let leading = leading(alloc, family.inner(), family.rules(), steps)?;
    Table::build(alloc, blocks, &Counted::new(&leading), &nos, steps)
}

// The sets that meet the start, with no rules, and their table where no answer stands.
fn begin<L: Ledger>(
    alloc: Global,
    n: u32,
    start: Start,
    steps: &mut Steps<L>,
) -> Result<(Ruled<OnItems>, Table), AllocError>
    requires some { 0 < n }
    requires few { n ≤ PLACES }
    requires start { IsStartOn n start }
    ensures inner { IfOk result (λ p.
        p.0.inner ≡ record { item_count = n; start = start_of start }) }
    ensures rules { IfOk result (λ p. p.0.rules ≡ []) }
    ensures table { IfOk result (λ p.
        IsKeptFor (single_items n) (compat n (start_of start) []) [] p.1) }
    ensures cost { steps.new ≤ steps.old + n }
{
    let family = Ruled::new(alloc, OnItems::new(n, start));
    let blocks = Blocks::new(n, 1).unwrap();
    let table = Table::build(alloc, blocks, &Counted::new(&family), &[], steps)?;
    Ok((family, table))
}

impl Inquiry {
    /// The inquiry on `n` items that begins with the start: blocks of single items, no answers, and
    /// the next number 1. It takes at most an interior an item.
    pub fn new<L: Ledger>(
        alloc: Global,
        n: u32,
        start: Start,
        steps: &mut Steps<L>,
    ) -> Result<Inquiry, AllocError>
        requires some { 0 < n }
        requires few { n ≤ PLACES }
        requires start { IsStartOn n start }
        ensures begun { IfOk result (λ i. i ≡ begun n (start_of start)) }
        ensures cost { steps.new ≤ steps.old + n }
    {
        let (family, table) = begin(alloc, n, start, steps)?;
        let blocks = Blocks::new(n, 1).unwrap();
        Ok(Inquiry {
            alloc,
            family,
            answers: Vec::new(alloc),
            next: 1,
            block: 1,
            blocks,
            table,
            from: blocks.next_query(None),
            is_found: false,
        })
    }

    /// Asks queries of sets of 1 to `k` items from now on; it may be called at any time. It is
    /// refused as blocks are, and nothing changes then. It takes no memory and no interior.
    pub fn set_blocks(&mut self, k: u32) -> Result<(), BlockFault>
        ensures made { OnOk result (made self.old.count k ≡ Ok (blocks_of self.new)) }
        ensures ok { OnOk result (self.new ≡ record self.old { block = k }) }
        ensures fault { IfErr result (IsBlockFault (made self.old.count k)) }
        ensures err { OnErr result (self.new ≡ self.old) }
    {
        self.blocks = Blocks::new(self.family.items(), k)?;
        self.block = k;
        self.from = self.blocks.next_query(None);
        self.is_found = false;
        Ok(())
    }

    /// Begins with another start; the blocks and the next number stay. It is refused only where an
    /// answer stands, and nothing changes then. It takes at most an interior an item.
    pub fn set_start<L: Ledger>(
        &mut self,
        start: Start,
        steps: &mut Steps<L>,
    ) -> Result<(), StartFault>
        requires { IsStartOn self.old.count start }
        ensures none_stood { OnOk result (self.old.answers ≡ []) }
        ensures ok { OnOk result (self.new ≡ record self.old { start = start_of start }) }
        ensures answers_stand { result ≡ Err StartFault.AnswersStand → self.old.answers ≢ [] }
        ensures err { OnErr result (self.new ≡ self.old) }
        ensures cost { steps.new ≤ steps.old + self.old.count }
    {
        if !self.answers.is_empty() {
            return Err(StartFault::AnswersStand);
        }
        let (family, table) = begin(self.alloc, self.family.items(), start, steps)?;
        self.begin_with(family, table);
        Ok(())
    }

    // Begins with another start, of which those are the sets and the table.
    fn begin_with(&mut self, family: Ruled<OnItems>, table: Table)
        requires none { self.old.answers ≡ [] }
        requires items { family.inner.item_count ≡ self.old.count }
        requires start { IsStart self.old.count family.inner.start }
        requires rules { family.rules ≡ [] }
        requires table { IsKeptFor (single_items self.old.count)
            (compat self.old.count family.inner.start []) [] table }
        ensures { self.new ≡ record self.old { start = family.inner.start } }
    {
        self.family = family;
        self.table = table;
        self.from = self.blocks.next_query(None);
        self.is_found = false;
    }

    /// Takes the expert's answer to a query, and gives its number. It is refused by the first of
    /// these that holds: the query is not good; an answer to it stands; the standing answers force
    /// the other reply; there is no room for it. Nothing changes then. It takes at most one
    /// interior where it is refused.
    pub fn answer<L: Ledger>(
        &mut self,
        query: Query,
        yes: bool,
        steps: &mut Steps<L>,
    ) -> Result<u64, AnswerFault>
        ensures taken { OnOk result (refusal self.old query yes ≡ None) }
        ensures number { IfOk result (λ m. m ≡ self.old.next) }
        ensures ok { OnOk result (self.new ≡ accepted self.old query yes) }
        ensures fault { IfErr result (IsAnswerFault (refusal self.old query yes)) }
        ensures err { OnErr result (self.new ≡ self.old) }
        ensures cost { steps.new ≤ steps.old + most_steps self.old query yes }
        ensures refused { OnErr result (steps.new ≤ steps.old + 1) }
    {
        let told = self.test(&query, yes, steps)?;
        Ok(self.take(&query, yes, told, steps)?)
    }

    /// Takes back the answer with the number, which is never given again. It is refused only where
    /// no standing answer has the number, and nothing changes then. It takes no memory, and no
    /// interior for a No.
    pub fn retract<L: Ledger>(
        &mut self,
        number: u64,
        steps: &mut Steps<L>,
    ) -> Result<(), RetractFault>
        ensures stood { OnOk result (IsSome (answer_with self.old number)) }
        ensures ok { OnOk result (self.new ≡ retracted self.old number) }
        ensures not_standing { OnErr result (IsNone (answer_with self.old number)) }
        ensures fault { IfErr result (λ e. e ≡ RetractFault.NotStanding) }
        ensures err { OnErr result (self.new ≡ self.old) }
        ensures cost { steps.new ≤ steps.old + steps_back self.old (answer_with self.old number) }
    {
        let Some(answer) = self.answer_with(number) else {
            return Err(RetractFault::NotStanding);
        };
        self.take_back(&answer, steps);
        Ok(())
    }

    /// What the standing answers tell of the query, in at most one interior and without memory.
    pub fn known<L: Ledger>(&self, q: &Query, steps: &mut Steps<L>) -> Result<Known, BadQuery>
        ensures value { IfOk result (λ k. k ≡ known self.now q.now) }
        ensures good { OnOk result (is_good self.now.count q.now ≡ true) }
        ensures bad { OnErr result (is_good self.now.count q.now ≡ false) }
        ensures cost { steps.new ≤ steps.old + 1 }
    {
        if !q.is_good(self.family.items()) {
            return Err(BadQuery);
        }
        Ok(self.known_of(q, steps))
    }

    // The same of a good query.
    fn known_of<L: Ledger>(&self, q: &Query, steps: &mut Steps<L>) -> Known
        requires { is_good self.now.count q.now ≡ true }
        ensures value { result ≡ known self.now q.now }
        ensures cost { steps.new ≤ steps.old + 1 }
    {
        self.table.answer_of(&Counted::new(&self.family), q, steps)
    }

    /// The standing answers, in order of number.
    pub fn standing(&self) -> &[Answer]
        ensures value { result.now ≡ self.now.answers }
        ensures standing { IsStanding self.now }
    {
        &self.answers
    }

    /// The number of the next answer.
    pub fn next_number(&self) -> u64
        ensures { result ≡ self.now.next }
    {
        self.next
    }

    /// How many items there are.
    pub fn items(&self) -> u32
        ensures count { result ≡ self.now.count }
        ensures some { 0 < result }
        ensures few { result ≤ PLACES }
    {
        self.family.items()
    }

    /// The greatest size of the sets that are asked.
    pub fn block(&self) -> u32
        ensures { result ≡ self.now.block }
    {
        self.block
    }

    /// The blocks of the sets that are asked.
    pub fn blocks(&self) -> Blocks
        ensures { result ≡ blocks_of self.now }
    {
        self.blocks
    }

    /// The start.
    pub fn start(&self) -> &Start
        ensures value { start_of result.now ≡ self.now.start }
        ensures on { IsStartOn self.now.count result.now }
    {
        self.family.inner().start()
    }

    /// The family of the compatible sets: those that meet the start and break no Yes.
    pub fn family(&self) -> &Ruled<OnItems>
        ensures inner { result.now.inner
            ≡ record { item_count = self.now.count; start = self.now.start } }
        ensures rules { result.now.rules ≡ yes_queries self.now.answers }
        ensures members { filter (breaks_none result.now.rules)
            (compat result.now.inner.item_count result.now.inner.start [])
            ≡ compatible_sets self.now }
    {
        &self.family
    }

    /// The base of the sets that meet the start, as it is before any answer.
    pub fn first_base(&self) -> Result<Base, AllocError>
        ensures items { IfOk result (λ b. b.item_count ≡ self.now.count) }
        ensures sets { IfOk result (λ b. b.sets ≡ base (compat self.now.count self.now.start [])) }
    {
        self.family.inner().base(self.alloc)
    }

    /// The base of the sets that meet another start.
    pub fn base_of(&self, start: &Start) -> Result<Base, AllocError>
        requires { IsStartOn self.now.count start.now }
        ensures items { IfOk result (λ b. b.item_count ≡ self.now.count) }
        ensures sets { IfOk result (λ b.
            b.sets ≡ base (compat self.now.count (start_of start.now) [])) }
    {
        start.base(self.alloc, self.items())
    }

    /// The queries that were answered Yes, in order of number.
    pub fn yes_queries(&self) -> &[Query]
        ensures value { result.now ≡ yes_queries self.now.answers }
        ensures good { list_all (is_good self.now.count) result.now ≡ true }
    {
        self.family.rules()
    }

    /// How many Yes answers have a smaller number.
    pub fn rules_before(&self, number: u64) -> usize
        ensures value { result ≡ rules_before self.now.answers number }
        ensures few { result ≤ length (yes_queries self.now.answers) }
    {
        rules_before(&self.answers, number)
    }

    /// The standing answer with the number, if there is one.
    pub fn answer_with(&self, number: u64) -> Option<Answer>
        ensures value { result ≡ answer_with self.now number }
        ensures number { IfSome result (λ a. a.number ≡ number) }
        ensures standing { IsStanding self.now }
    {
        answer_with(&self.answers, number)
    }

    /// The queries that are answered Yes without the answer with the number.
    pub fn yes_others(&self, number: u64) -> Result<Vec<Query>, AllocError>
        ensures value { IfOk result (λ v.
            v.items ≡ yes_queries (retracted self.now number).answers) }
        ensures good { IfOk result (λ v. list_all (is_good self.now.count) v.items ≡ true) }
    {
        yes_others(self.alloc, &self.answers, number)
    }
}
