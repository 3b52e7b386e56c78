// How the interview changes, and what of its trail is kept.
ghost use Rattle.std.specs.Prelude.{◌≡◌, Ok, List};
ghost use Rattle.ls_base.specs.declared.trail.Entry.{Entry};
ghost use Rattle.ls_meaning.specs.{answer_row, blocks_row, edit_row, retract_row};
ghost use Rattle.ls_deciding.specs.Changes.{IsTrailOf, MakesChange};

use ls_base::Trail;
use ls_expert::Inquiry;
use ls_interior::Steps;
use ls_meaning::{Edit, Refusal, Response};
use ls_set::Query;
use ls_theory::{AnswerFault, BlockFault};
use std::alloc::AllocError;
use std::sync::ledger::Ledger;

/// Changes the interview, and keeps what of its trail stands on. Where memory runs out nothing
/// changes.
pub fn change<L: Ledger>(
    inquiry: &mut Inquiry,
    trail: &mut Trail,
    edit: &Edit,
    steps: &mut Steps<L>,
) -> Result<Response, AllocError>
    requires { IsTrailOf inquiry.old trail.old }
    ensures change { MakesChange (edit_row inquiry.old edit.now) inquiry.old inquiry.new result }
    ensures trail { IsTrailOf inquiry.new trail.new }
    ensures items { inquiry.new.count ≡ inquiry.old.count }
{
    match edit {
        Edit::Blocks { size } => set_blocks(inquiry, *size),
        Edit::Answer { query, yes } => take(inquiry, *query, *yes, steps),
        Edit::Retract { number } => Ok(take_back(inquiry, trail, *number, steps)),
    }
}

// `blocks SIZE`
fn set_blocks(inquiry: &mut Inquiry, size: u32) -> Result<Response, AllocError>
    ensures change { MakesChange (blocks_row inquiry.old size) inquiry.old inquiry.new result }
    ensures trail { (t : List Entry) → IsTrailOf inquiry.old t → IsTrailOf inquiry.new t }
    ensures items { inquiry.new.count ≡ inquiry.old.count }
{
    match inquiry.set_blocks(size) {
        Ok(()) => Ok(Response::Done {
            number: u64::from(inquiry.blocks().count()),
        }),
        Err(BlockFault::Memory(e)) => Err(e),
        Err(fault) => Ok(Response::Refused(Refusal::Block(fault))),
    }
}

// `yes NAMES : ITEM` and `no NAMES : ITEM`
fn take<L: Ledger>(
    inquiry: &mut Inquiry,
    query: Query,
    yes: bool,
    steps: &mut Steps<L>,
) -> Result<Response, AllocError>
    ensures change { MakesChange (answer_row inquiry.old query yes)
        inquiry.old inquiry.new result }
    ensures trail { (t : List Entry) → IsTrailOf inquiry.old t → IsTrailOf inquiry.new t }
    ensures items { inquiry.new.count ≡ inquiry.old.count }
{
    match inquiry.answer(query, yes, steps) {
        Ok(number) => Ok(Response::Done { number }),
        Err(AnswerFault::Memory(e)) => Err(e),
        Err(fault) => Ok(Response::Refused(Refusal::Answer(fault))),
    }
}

// `retract NUMBER`: of the trail, what stands for the Yes answers before a Yes that is taken back
// is kept.
fn take_back<L: Ledger>(
    inquiry: &mut Inquiry,
    trail: &mut Trail,
    number: u64,
    steps: &mut Steps<L>,
) -> Response
    requires { IsTrailOf inquiry.old trail.old }
    ensures change { MakesChange (retract_row inquiry.old number)
        inquiry.old inquiry.new (Ok result) }
    ensures trail { IsTrailOf inquiry.new trail.new }
    ensures items { inquiry.new.count ≡ inquiry.old.count }
{
    let Some(answer) = inquiry.answer_with(number) else {
        return Response::Refused(Refusal::NotStanding);
    };
    if answer.yes {
        trail.give_up(inquiry.rules_before(number));
    }
    match inquiry.retract(number, steps) {
        Ok(()) => Response::Done { number },
        Err(_) => Response::Refused(Refusal::NotStanding),
    }
}
