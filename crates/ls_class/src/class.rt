// The results of a class.
ghost use Rattle.std.specs.Prelude.{◌≡◌, ◌<◌, ◌^◌, ℕ, Some, None, Err, IfOk, OnOk, length, map};
ghost use Rattle.ls_theory.specs.{class_results, heavy_after};
ghost use Rattle.ls_weight.specs.Weighings.{IsWeighable};
ghost use Rattle.ls_weight.specs.declared.fault.WeightFault.TheVariants.{Heavy};
ghost use Rattle.ls_files.specs.ClassResults.{result_of};
ghost use Rattle.ls_class.specs.Replays.{line_of, lines_of};

use crate::ClassTable;
use crate::gate::Gate;
use crate::halves::replay_halves;
use ls_cutting::Word;
use ls_files::{ClassResult, Results};
use ls_set::{ItemSet, SetList};
use ls_theory::Replay;
use ls_weight::{Settings, WeightFault};
use std::alloc::{AllocError, Global};
use std::thread::Threads;

// The items that each pupil gets right, in the order of the table.
fn rights_of(alloc: Global, t: &ClassTable) -> Result<Vec<ItemSet>, AllocError>
    ensures value { IfOk result (λ v. v.items ≡ map (λ row. row.right) t.now) }
    ensures few { IfOk result (λ v. length v.items < 2 ^ 32) }
{
    let mut rights = Vec::with_capacity(alloc, t.len())?;
    for place in 0..t.len() {
        let (_, right) = t.row(place);
        rights.push(right)?;
    }
    Ok(rights)
}

// The result of the pupil with the name, of whom it is known how the assessment ends.
fn result_of(alloc: Global, name: &str, replay: Replay) -> Result<ClassResult, AllocError>
    ensures { IfOk result (λ r. result_of r ≡ line_of name.now replay) }
{
    Ok(ClassResult {
        name: Word::new(alloc, name)?,
        replies: replay.replies,
        reason: replay.reason,
        state: replay.state,
    })
}

// The results of the class, of each of whose pupils it is known how the assessment ends.
fn results_of(alloc: Global, t: &ClassTable, replays: &[Replay]) -> Result<Results, AllocError>
    requires { length replays.now ≡ length t.now }
    ensures { IfOk result (λ r. r ≡ lines_of t.now replays.now) }
{
    let mut results = Results::new(alloc);
    for place in 0..t.len() {
        let (name, _) = t.row(place);
        let known = result_of(alloc, name, replays[place])?;
        results.push(known)?;
    }
    Ok(results)
}

/// The results of a class over the states, of `n` items, in the order of its table. `Heavy` comes
/// before any replay, and exactly where the total may pass 2 ^ 120 within the budget, with the
/// least number of replies after which it may.
///
/// A table of two or more pupils is cut in halves, the first with one pupil fewer where the number
/// is odd; each is replayed on a thread of its own where there is one. A half of more than 256
/// pupils is cut again in the same way. Each pupil enters the gate once, with its place in the
/// table, before its first question and on the thread that replays it.
#[tactic(auto, using(crate::proofs::Lines::lines_are))]
pub fn run_class<R: Threads + Sync, G: Gate + Sync>(
    rt: &R,
    alloc: Global,
    gate: &G,
    n: u32,
    states: &SetList,
    s: &Settings,
    t: &ClassTable,
) -> Result<Results, WeightFault>
    requires { IsWeighable n states.now s.now }
    ensures ok { IfOk result (λ r. r ≡ class_results s.now states.now t.now) }
    ensures light { OnOk result (heavy_after s.now (length states.now) ≡ None) }
    ensures heavy { (r : ℕ) → result ≡ Err (Heavy r) →
        heavy_after s.now (length states.now) ≡ Some r }
{
    if let Some(replies) = s.heavy_after(states.len()) {
        return Err(WeightFault::Heavy { replies });
    }
    let rights = rights_of(alloc, t).map_err(WeightFault::Memory)?;
    let replays = replay_halves(rt, alloc, gate, n, states, s, 1, 0, &rights)?;
    results_of(alloc, t, &replays).map_err(WeightFault::Memory)
}
