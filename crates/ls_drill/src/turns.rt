// The interview of the simulated expert.
ghost use Rattle.std.specs.Prelude.{◌≡◌, ◌<◌, true, None, IfOk, OnOk};
ghost use Rattle.ls_set.specs.{is_good};
ghost use Rattle.ls_theory.specs.{accepted, refusal};
ghost use Rattle.ls_drill.specs.Drills.{reply, drilled};

use crate::hidden::Hidden;
use ls_expert::{AnswerFault, Inquiry, Start};
use ls_interior::Steps;
use ls_set::Query;
use std::alloc::{AllocError, Global};
use std::sync::ledger::Ledger;

// The expert's reply to a query of a single item.
fn reply(hidden: &Hidden, query: &Query) -> bool
    requires { is_good hidden.now.item_count query.now ≡ true }
    ensures { result ≡ reply hidden.now.item_count hidden.now.number query.now }
{
    match query.a.least() {
        Some(item) => hidden.implied(item, query.q),
        None => false,
    }
}

// Takes an answer that is not refused.
fn take<L: Ledger>(
    inquiry: &mut Inquiry,
    query: Query,
    yes: bool,
    steps: &mut Steps<L>,
) -> Result<(), AllocError>
    requires { refusal inquiry.old query yes ≡ None }
    ensures { OnOk result (inquiry.new ≡ accepted inquiry.old query yes) }
{
    match inquiry.answer(query, yes, steps) {
        Ok(_) => Ok(()),
        Err(AnswerFault::Memory(e)) => Err(e),
        Err(_) => unreachable!(),
    }
}

/// Interviews the expert who knows the hidden order, until no question is open.
pub fn interview<L: Ledger>(
    alloc: Global,
    hidden: &Hidden,
    steps: &mut Steps<L>,
) -> Result<Inquiry, AllocError>
    requires { 0 < hidden.now.item_count }
    ensures { IfOk result (λ i. i ≡ drilled hidden.now.item_count hidden.now.number) }
{
    let n = hidden.items();
    let mut inquiry = Inquiry::new(alloc, n, Start::Free, steps)?;
    for _ in 0..n * n {
        inquiry.seek(steps);
        let Some(query) = inquiry.find_question(None, steps) else {
            return Ok(inquiry);
        };
        let yes = reply(hidden, &query);
        take(&mut inquiry, query, yes, steps)?;
    }
    Ok(inquiry)
}
