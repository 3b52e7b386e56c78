// Pupils that are replayed in halves, each on a thread where there is one.
ghost use Rattle.std.specs.Prelude.{◌≡◌, ◌+◌, ◌<◌, ◌^◌, ℕ, [], ◌++◌, Some, Err, IfOk, length, map};
ghost use Rattle.std.specs.Thread.{IsSync};
ghost use Rattle.ls_theory.specs.{heavy_after};
ghost use Rattle.ls_weight.specs.Weighings.{IsWeighable};
ghost use Rattle.ls_weight.specs.declared.fault.WeightFault.TheVariants.{Heavy};
ghost use Rattle.ls_class.specs.Replays.{replay_from};

use crate::gate::Gate;
use crate::group::replay_group;
use ls_set::{ItemSet, SetList};
use ls_theory::Replay;
use ls_weight::{Settings, WeightFault};
use std::alloc::{AllocError, Global};
use std::thread::{Threads, join};

// A half of more pupils is cut again.
const MOST: usize = 256;

// What is known of the first half and then what is known of the second.
fn joined(mut first: Vec<Replay>, second: &[Replay]) -> Result<Vec<Replay>, AllocError>
    ensures { IfOk result (λ v. v.items ≡ first.items ++ second.now) }
{
    first.extend_from_slice(second)?;
    Ok(first)
}

// How the assessments end of the pupils that get these items right. The first of them stands at the
// place `first` of the table. More than `most` pupils are cut in halves.
pub(crate) fn replay_halves<R: Threads + Sync, G: Gate + Sync>(
    rt: &R,
    alloc: Global,
    gate: &G,
    n: u32,
    states: &SetList,
    s: &Settings,
    most: usize,
    first: u32,
    rights: &[ItemSet],
) -> Result<Vec<Replay>, WeightFault>
    requires some { 0 < most }
    requires places { first + length rights.now < 2 ^ 32 }
    requires weighable { IsWeighable n states.now s.now }
    ensures ok { IfOk result (λ v. v.items ≡ map (replay_from s.now states.now []) rights.now) }
    ensures heavy { (r : ℕ) → result ≡ Err (Heavy r) →
        heavy_after s.now (length states.now) ≡ Some r }
{
    if rights.len() <= most {
        return replay_group(alloc, gate, n, states, s, first, rights);
    }
    let middle = rights.len() / 2;
    let (front, back) = rights.split_at(middle);
    let next = first + middle as u32;
    let (left, right) = join(
        rt,
        move || -> Result<Vec<Replay>, WeightFault>
            requires sync { IsSync R.row }
            requires places { first + length front.now < 2 ^ 32 }
            requires weighable { IsWeighable n states.now s.now }
            ensures ok { IfOk result
                (λ v. v.items ≡ map (replay_from s.entry.now states.entry.now []) front.entry.now) }
            ensures heavy { (r : ℕ) → result ≡ Err (Heavy r) →
                heavy_after s.entry.now (length states.entry.now) ≡ Some r }
        { replay_halves(rt, alloc, gate, n, states, s, MOST, first, front) },
        move || -> Result<Vec<Replay>, WeightFault>
            requires sync { IsSync R.row }
            requires places { next + length back.now < 2 ^ 32 }
            requires weighable { IsWeighable n states.now s.now }
            ensures ok { IfOk result
                (λ v. v.items ≡ map (replay_from s.entry.now states.entry.now []) back.entry.now) }
            ensures heavy { (r : ℕ) → result ≡ Err (Heavy r) →
                heavy_after s.entry.now (length states.entry.now) ≡ Some r }
        { replay_halves(rt, alloc, gate, n, states, s, MOST, next, back) },
    );
    joined(left?, &right?).map_err(WeightFault::Memory)
}
