// Pupils that are replayed on one thread.
ghost use Rattle.std.specs.Prelude.{◌≡◌, ◌+◌, ◌<◌, ◌^◌, ℕ, [], Some, Err, IfOk, length, map};
ghost use Rattle.ls_theory.specs.{heavy_after};
ghost use Rattle.ls_weight.specs.Weighings.{IsWeighable};
ghost use Rattle.ls_weight.specs.declared.fault.WeightFault.TheVariants.{Heavy};
ghost use Rattle.ls_class.specs.Replays.{replay_from};

use crate::gate::Gate;
use crate::tree::replay_all;
use ls_assess::Pupil;
use ls_set::{ItemSet, SetList};
use ls_theory::Replay;
use ls_weight::{Settings, WeightFault};
use std::alloc::Global;

// Each of so many pupils enters the gate, the first of which stands at the place `first`.
fn enter_all<G: Gate>(gate: &G, first: u32, count: usize)
    requires { first + count < 2 ^ 32 }
{
    for place in first..first + count as u32 {
        gate.enter(place);
    }
}

// The assessment of a pupil over a copy of the states, before any reply.
fn begin(alloc: Global, n: u32, states: &SetList, s: &Settings) -> Result<Pupil, WeightFault>
    requires { IsWeighable n states.now s.now }
    ensures ok { IfOk result
        (λ p. p ≡ record { settings = s.now; states = states.now; replies = [] }) }
    ensures heavy { (r : ℕ) → result ≡ Err (Heavy r) →
        heavy_after s.now (length states.now) ≡ Some r }
{
    let own = SetList::from_slice(alloc, states.as_slice()).map_err(WeightFault::Memory)?;
    Pupil::begin(alloc, n, own, s)
}

// How the assessments end of the pupils that get these items right. The first of them stands at the
// place `first` of the table.
pub(crate) fn replay_group<G: Gate>(
    alloc: Global,
    gate: &G,
    n: u32,
    states: &SetList,
    s: &Settings,
    first: u32,
    rights: &[ItemSet],
) -> Result<Vec<Replay>, WeightFault>
    requires places { first + length rights.now < 2 ^ 32 }
    requires weighable { IsWeighable n states.now s.now }
    ensures ok { IfOk result (λ v. v.items ≡ map (replay_from s.now states.now []) rights.now) }
    ensures heavy { (r : ℕ) → result ≡ Err (Heavy r) →
        heavy_after s.now (length states.now) ≡ Some r }
{
    if rights.is_empty() {
        return Ok(Vec::new(alloc));
    }
    enter_all(gate, first, rights.len());
    let pupil = begin(alloc, n, states, s)?;
    replay_all(alloc, pupil, rights).map_err(WeightFault::Memory)
}
