// Classes: the pupils of a table, assessed by what it says of them.
ghost use Rattle.std.specs.Prelude.{◌≡◌, [], length, Ok, IfOk};
ghost use Rattle.ls_theory.specs.{compatible_sets};
ghost use Rattle.ls_weight.specs.Weighings.{IsWeighable};
ghost use Rattle.ls_files.specs.ClassTables.{class_of};
ghost use Rattle.ls_meaning.specs.{classed_by};

use crate::states::list_states;
use ls_assess::{Settings, WeightFault};
use ls_class::{ClassFault, ClassTable, OpenGate, run_class};
use ls_domain::Domain;
use ls_enum::ListFault;
use ls_expert::Inquiry;
use ls_interior::Steps;
use ls_meaning::{Refusal, Response, Shown};
use ls_set::SetList;
use std::alloc::{AllocError, Global};
use std::sync::ledger::Ledger;
use std::thread::Threads;

/// `class FILE`, where the file was fetched: what is known of the pupils of the class that its
/// bytes give, each assessed over the compatible sets of the interview; or why there are no
/// results.
pub fn assess_class<R: Threads + Sync, L: Ledger>(
    rt: &R,
    alloc: Global,
    domain: &Domain,
    inquiry: &Inquiry,
    settings: &Settings,
    bytes: &[u8],
    steps: &mut Steps<L>,
) -> Result<Response, AllocError>
    requires { length settings.now.ratios ≡ inquiry.now.count }
    ensures { IfOk result (λ r.
        r ≡ classed_by settings.now (compatible_sets inquiry.now) []
        (class_of domain.now bytes.now)) }
{
    match ClassTable::from_csv(alloc, domain, bytes) {
        Ok(table) => replay(rt, alloc, inquiry, settings, &table, steps),
        Err(ClassFault::BadClass { row }) => Ok(Response::Refused(Refusal::BadClass { row })),
        Err(ClassFault::Memory(e)) => Err(e),
    }
}

// What is known of the pupils of a table over the states of the interview.
fn replay<R: Threads + Sync, L: Ledger>(
    rt: &R,
    alloc: Global,
    inquiry: &Inquiry,
    settings: &Settings,
    table: &ClassTable,
    steps: &mut Steps<L>,
) -> Result<Response, AllocError>
    requires { length settings.now.ratios ≡ inquiry.now.count }
    ensures { IfOk result (λ r.
        r ≡ classed_by settings.now (compatible_sets inquiry.now) [] (Ok table.now)) }
{
    match list_states(alloc, inquiry, steps) {
        Ok(sets) => replay_over(rt, alloc, inquiry.items(), &sets, settings, table),
        Err(ListFault::More) => Ok(Response::Refused(Refusal::ManyStates)),
        Err(ListFault::Memory(e)) => Err(e),
    }
}

// What is known of the pupils of a table over states among n items, which are not too many.
fn replay_over<R: Threads + Sync>(
    rt: &R,
    alloc: Global,
    n: u32,
    states: &SetList,
    settings: &Settings,
    table: &ClassTable,
) -> Result<Response, AllocError>
    requires weighable { IsWeighable n states.now settings.now }
    ensures { IfOk result (λ r. r ≡ classed_by settings.now states.now [] (Ok table.now)) }
{
    match run_class(rt, alloc, &OpenGate, n, states, settings, table) {
        Ok(results) => Ok(Response::Shown(Shown::Class(results))),
        Err(WeightFault::Heavy { replies }) => Ok(Response::Refused(Refusal::Heavy { replies })),
        Err(WeightFault::Memory(e)) => Err(e),
    }
}
