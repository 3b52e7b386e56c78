// The drill.
ghost use Rattle.std.specs.Prelude.{◌≡◌, ◌≤◌, IfOk};
ghost use Rattle.ls_drill.specs.Summaries.{summary_of};

use crate::counting::{count_filled, count_no, count_yes};
use crate::hidden::{Hidden, MOST_DRILLED};
use crate::states::{base_of_states, count_states, is_learning};
use crate::summary::Summary;
use crate::turns::interview;
use ls_interior::Steps;
use std::alloc::{AllocError, Global};
use std::sync::ledger::Ledger;

/// Hides the order on `n` items that the number `s` makes, has a simulated expert who knows it
/// interviewed until no question is open, and tells what came out. Where memory runs out, nothing
/// is told.
pub fn run_drill<L: Ledger>(
    alloc: Global,
    n: u32,
    s: u64,
    steps: &mut Steps<L>,
) -> Result<Summary, AllocError>
    requires some { 1 ≤ n }
    requires few { n ≤ MOST_DRILLED }
    ensures { IfOk result (λ x. x ≡ summary_of n s) }
{
    let hidden = Hidden::from_number(alloc, n, s)?;
    let inquiry = interview(alloc, &hidden, steps)?;
    let filled = count_filled(&inquiry, steps);
    let base = base_of_states(&inquiry)?;
    let states = count_states(alloc, &base, steps)?;
    let answers = inquiry.standing();
    Ok(Summary {
        n,
        number: s,
        asked: answers.len() as u32,
        asked_yes: count_yes(answers),
        asked_no: count_no(answers),
        filled: filled.all,
        filled_yes: filled.yes,
        filled_no: filled.no,
        base: base.sets().len() as u32,
        learning: is_learning(&base),
        states,
    })
}
