// How a pupil begins.
ghost use Rattle.std.specs.Prelude.{◌≡◌, ◌<◌, true, false, Ok, length, IfSome, IfOk, OnErr};
ghost use Rattle.std.specs.List.{list_any};
ghost use Rattle.ls_theory.specs.{compatible_sets, yes_queries};
ghost use Rattle.ls_standing.specs.Starts.{start_of};
ghost use Rattle.ls_meaning.specs.{begin_row, most_pupils};
ghost use Rattle.ls_pupils.specs.Own.{is_called};
ghost use Rattle.ls_pupils.specs.Cases.{case_name, pupils_of, IsOwnCase, ArePupils, changed_to};
ghost use Rattle.ls_pupils.specs.Beginning.{IsCaseOf, IsNewPupil, RefusesHeavy, begun_row};

use crate::cases::{PupilCase, PupilCases};
use crate::states::list_states;
use ls_assess::{Pupil, Settings, WeightFault};
use ls_cutting::Word;
use ls_enum::ListFault;
use ls_expert::{Inquiry, Start};
use ls_interior::Steps;
use ls_meaning::{Refusal, Response};
use ls_set::{ItemSet, Query, QueryList};
use std::alloc::{AllocError, Global};
use std::sync::ledger::Ledger;

/// So many pupils stand at most.
pub const MOST_PUPILS: usize = 16;

/// `pupil NAME`: a pupil begins with the compatible sets of the interview and with the settings, as
/// they are. Where memory runs out nothing changes.
pub fn begin<L: Ledger>(
    alloc: Global,
    pupils: &mut PupilCases,
    name: &Word,
    inquiry: &Inquiry,
    settings: &Settings,
    steps: &mut Steps<L>,
) -> Result<Response, AllocError>
    requires pupils { ArePupils inquiry.now.count pupils.old }
    requires items { length settings.now.ratios ≡ inquiry.now.count }
    ensures row { IfOk result (λ r.
        begin_row inquiry.now settings.now (pupils_of pupils.old) name.now
        ≡ changed_to pupils.new r) }
    ensures pupils { ArePupils inquiry.now.count pupils.new }
    ensures err { OnErr result (pupils.new ≡ pupils.old) }
{
    if pupils.place(name).is_some() {
        return Ok(Response::Refused(Refusal::PupilStands));
    }
    if pupils.as_slice().len() >= MOST_PUPILS {
        return Ok(Response::Refused(Refusal::ManyPupils));
    }
    match new_pupil(alloc, pupils, inquiry, settings, steps)? {
        Ok(pupil) => keep(alloc, pupils, name, inquiry, settings, pupil),
        Err(refusal) => Ok(Response::Refused(refusal)),
    }
}

// A pupil that begins, or why none does: over the states of another one that began with the same
// start and Yes queries, if there is one.
fn new_pupil<L: Ledger>(
    alloc: Global,
    pupils: &PupilCases,
    inquiry: &Inquiry,
    settings: &Settings,
    steps: &mut Steps<L>,
) -> Result<Result<Pupil, Refusal>, AllocError>
    requires pupils { ArePupils inquiry.now.count pupils.now }
    requires items { length settings.now.ratios ≡ inquiry.now.count }
    ensures { IfOk result (IsNewPupil inquiry.now settings.now) }
{
    match case_like(pupils, inquiry) {
        Some(case) => unless_heavy(case.pupil.again(settings)),
        None => listed(alloc, inquiry, settings, steps),
    }
}

// A case with the start and the Yes queries of the interview: one that stands, or the one that was
// closed last.
fn case_like<'a>(pupils: &'a PupilCases, inquiry: &Inquiry) -> Option<&'a PupilCase>
    requires { ArePupils inquiry.now.count pupils.now }
    ensures { IfSome result (λ c. IsCaseOf inquiry.now c.now) }
{
    match standing_like(pupils, inquiry) {
        Some(case) => Some(case),
        None => closed_like(pupils, inquiry),
    }
}

// The case that was closed last, where it has the start and the Yes queries of the interview.
fn closed_like<'a>(pupils: &'a PupilCases, inquiry: &Inquiry) -> Option<&'a PupilCase>
    ensures { IfSome result (λ c. IsCaseOf inquiry.now c.now) }
{
    match pupils.closed() {
        Some(case) if is_of_inquiry(case, inquiry) => Some(case),
        _ => None,
    }
}

// Whether the case has as many items as the interview, and its start and Yes queries.
fn is_of_inquiry(case: &PupilCase, inquiry: &Inquiry) -> bool
    requires { IsOwnCase case.now }
    ensures { result ≡ true → IsCaseOf inquiry.now case.now }
{
    case.settings.count() == inquiry.items() && is_like(case, inquiry)
}

// A case that stands, with the start and the Yes queries of the interview.
fn standing_like<'a>(pupils: &'a PupilCases, inquiry: &Inquiry) -> Option<&'a PupilCase>
    requires { ArePupils inquiry.now.count pupils.now }
    ensures { IfSome result (λ c. IsCaseOf inquiry.now c.now) }
{
    pupils.as_slice().iter().find(|case| is_like(case, inquiry))
}

// Whether the case has the start and the Yes queries of the interview.
fn is_like(case: &PupilCase, inquiry: &Inquiry) -> bool
    ensures { result ≡ true → (start_of case.now.start ≡ inquiry.now.start)
        × (case.now.yes ≡ yes_queries inquiry.now.answers) }
{
    is_same_start(&case.start, inquiry.start())
        && are_same_queries(case.yes.as_slice(), inquiry.yes_queries())
}

// Whether the starts are known to be the same. Two surmise functions aren't compared.
fn is_same_start(own: &Start, other: &Start) -> bool
    ensures { result ≡ true → start_of own.now ≡ start_of other.now }
{
    match (own, other) {
        (Start::Free, Start::Free) => true,
        (Start::Sets(own), Start::Sets(other)) => are_same_sets(own.sets(), other.sets()),
        _ => false,
    }
}

// Whether the lists have the same sets.
fn are_same_sets(own: &[ItemSet], other: &[ItemSet]) -> bool
    ensures { result ≡ true → own.now ≡ other.now }
{
    own == other
}

// Whether the lists have the same queries.
fn are_same_queries(own: &[Query], other: &[Query]) -> bool
    ensures { result ≡ true → own.now ≡ other.now }
{
    own == other
}

// A pupil over the states of the interview.
fn listed<L: Ledger>(
    alloc: Global,
    inquiry: &Inquiry,
    settings: &Settings,
    steps: &mut Steps<L>,
) -> Result<Result<Pupil, Refusal>, AllocError>
    requires { length settings.now.ratios ≡ inquiry.now.count }
    ensures { IfOk result (IsNewPupil inquiry.now settings.now) }
{
    match list_states(alloc, inquiry, steps) {
        Ok(sets) => unless_heavy(Pupil::begin(alloc, inquiry.items(), sets, settings)),
        Err(ListFault::More) => Ok(Err(Refusal::ManyStates)),
        Err(ListFault::Memory(e)) => Err(e),
    }
}

// The pupil, or the refusal of one that is too heavy.
fn unless_heavy(begun: Result<Pupil, WeightFault>) -> Result<Result<Pupil, Refusal>, AllocError>
    ensures { RefusesHeavy begun result }
{
    match begun {
        Ok(pupil) => Ok(Ok(pupil)),
        Err(WeightFault::Heavy { replies }) => Ok(Err(Refusal::Heavy { replies })),
        Err(WeightFault::Memory(e)) => Err(e),
    }
}

// Puts the pupil last, with a copy of the name. The number of its states is told.
fn keep(
    alloc: Global,
    pupils: &mut PupilCases,
    name: &Word,
    inquiry: &Inquiry,
    settings: &Settings,
    pupil: Pupil,
) -> Result<Response, AllocError>
    requires pupil { IsNewPupil inquiry.now settings.now (Ok pupil) }
    ensures row { IfOk result (λ r.
        begun_row inquiry.now settings.now (pupils_of pupils.old) name.now
        ≡ changed_to pupils.new r) }
    ensures pupils { ArePupils inquiry.now.count pupils.old → length pupils.old < most_pupils →
        list_any (is_called case_name name.now) pupils.old ≡ false →
        length settings.now.ratios ≡ inquiry.now.count →
        ArePupils inquiry.now.count pupils.new }
    ensures err { OnErr result (pupils.new ≡ pupils.old) }
{
    let number = pupil.states().len() as u64;
    pupils.push(PupilCase {
        name: name.copy()?,
        start: inquiry.start().copy()?,
        yes: QueryList::from_slice(alloc, inquiry.yes_queries())?,
        settings: settings.copy()?,
        pupil,
    })?;
    Ok(Response::Done { number })
}
