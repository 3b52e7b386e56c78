// The states that a drill leaves, by their base.
ghost use Rattle.std.specs.Prelude.{◌≡◌, ◌≤◌, length, IfOk};
ghost use Rattle.ls_theory.specs.{base, base_verdict, compatible_sets};
ghost use Rattle.ls_base.specs.Bases.{family};
ghost use Rattle.ls_drill.specs.HiddenOrders.{most_drilled};
ghost use Rattle.ls_drill.specs.Drills.{IsDrill};
ghost use Rattle.ls_drill.specs.Summaries.{counted, is_learning};

use crate::summary::MOST_STATES;
use ls_base::{Base, Followed};
use ls_enum::{ListFault, list_all};
use ls_expert::Inquiry;
use ls_interior::{Counted, Steps};
use ls_space::test_base;
use ls_theory::BaseVerdict;
use std::alloc::{AllocError, Global};
use std::sync::ledger::Ledger;

/// The base of the states. Where each Yes is on one item, each item has one atom, so the base is
/// never past.
pub fn base_of_states(inquiry: &Inquiry) -> Result<Base, AllocError>
    requires drill { IsDrill inquiry.now.count inquiry.now }
    requires few { inquiry.now.count ≤ most_drilled }
    ensures sets { IfOk result (λ b. b.sets ≡ base (compatible_sets inquiry.now)) }
    ensures family { IfOk result (λ b. family b ≡ compatible_sets inquiry.now) }
    ensures few { IfOk result (λ b. length b.sets ≤ most_drilled) }
{
    match Followed::over(inquiry.first_base()?, inquiry.yes_queries())? {
        Followed::Within(base) => Ok(base),
        Followed::Past { .. } => unreachable!(),
    }
}

/// Whether the family of the base is a learning space.
pub fn is_learning(base: &Base) -> bool
    ensures { result ≡ is_learning (base_verdict (family base.now)) }
{
    match test_base(base) {
        BaseVerdict::Learning => true,
        BaseVerdict::NotGraded { .. } => false,
    }
}

/// How many sets the family of the base has, or `None` where they are more than [`MOST_STATES`].
pub fn count_states<L: Ledger>(
    alloc: Global,
    base: &Base,
    steps: &mut Steps<L>,
) -> Result<Option<u32>, AllocError>
    ensures { IfOk result (λ count. count ≡ counted (length (family base.now))) }
{
    match list_all(alloc, &Counted::new(base), MOST_STATES, steps) {
        Ok(states) => Ok(Some(states.len() as u32)),
        Err(ListFault::More) => Ok(None),
        Err(ListFault::Memory(e)) => Err(e),
    }
}
