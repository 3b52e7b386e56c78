// What is shown of an interview. Its base is followed, and its first open query looked for, when
// they are asked for.
ghost use Rattle.std.specs.Prelude.{◌≡◌, true, IfOk, OnOk};
ghost use Rattle.ls_theory.specs.{yes_queries};
ghost use Rattle.ls_base.specs.Trail.{EndsAt, is_begun};
ghost use Rattle.ls_meaning.specs.{IsViewOn, view_row};
ghost use Rattle.ls_deciding.specs.Views.{is_based};
ghost use Rattle.ls_deciding.specs.Changes.{IsTrailOf};

use crate::based::decide_based;
use crate::deciding::{decide, is_based};
use ls_base::Trail;
use ls_expert::Inquiry;
use ls_interior::Steps;
use ls_meaning::{Response, View};
use std::alloc::{AllocError, Global};
use std::sync::ledger::Ledger;

/// What is shown of the interview. Where memory runs out, the trail may be longer.
pub fn show<L: Ledger>(
    alloc: Global,
    inquiry: &mut Inquiry,
    trail: &mut Trail,
    view: View,
    steps: &mut Steps<L>,
) -> Result<Response, AllocError>
    requires on { IsViewOn inquiry.old.count view }
    requires trail { IsTrailOf inquiry.old trail.old }
    ensures response { IfOk result (λ r. r ≡ view_row inquiry.old view) }
    ensures kept { inquiry.new ≡ inquiry.old }
    ensures trail { IsTrailOf inquiry.old trail.new }
{
    if is_based(&view) {
        show_based(alloc, inquiry, trail, view)
    } else {
        seek(inquiry, &view, steps);
        Ok(decide(inquiry, &view, steps))
    }
}

// What stands on the base.
fn show_based(
    alloc: Global,
    inquiry: &Inquiry,
    trail: &mut Trail,
    view: View,
) -> Result<Response, AllocError>
    requires on { IsViewOn inquiry.now.count view }
    requires based { is_based view ≡ true }
    requires trail { IsTrailOf inquiry.now trail.old }
    ensures response { IfOk result (λ r. r ≡ view_row inquiry.now view) }
    ensures trail { IsTrailOf inquiry.now trail.new }
{
    follow(trail, inquiry)?;
    match trail.last() {
        Some(followed) => decide_based(alloc, inquiry, followed, view),
        None => unreachable!(),
    }
}

/// Follows the base of the compatible sets over the Yes answers.
pub fn follow(trail: &mut Trail, inquiry: &Inquiry) -> Result<(), AllocError>
    requires { IsTrailOf inquiry.now trail.old }
    ensures trail { IsTrailOf inquiry.now trail.new }
    ensures followed { OnOk result
        (EndsAt inquiry.now.count inquiry.now.start (yes_queries inquiry.now.answers) trail.new) }
{
    begin(trail, inquiry)?;
    trail.follow(inquiry.yes_queries())
}

// Begins the trail with the base of the start, unless it has begun.
fn begin(trail: &mut Trail, inquiry: &Inquiry) -> Result<(), AllocError>
    requires { IsTrailOf inquiry.now trail.old }
    ensures trail { IsTrailOf inquiry.now trail.new }
    ensures begun { OnOk result (is_begun trail.new ≡ true) }
{
    if trail.is_begun() {
        return Ok(());
    }
    let first = inquiry.first_base()?;
    trail.begin(first)
}

// Looks for the first open query where it is asked for, so that the next search begins with it.
fn seek<L: Ledger>(inquiry: &mut Inquiry, view: &View, steps: &mut Steps<L>)
    ensures { inquiry.new ≡ inquiry.old }
{
    if matches!(view, View::Ask) {
        inquiry.seek(steps);
    }
}
