// What is asked of the safe interview. The base of the interview is followed where it is opened.
ghost use Rattle.std.specs.Option.{ForSome};
ghost use Rattle.ls_meaning.specs.{IsSafeOn, safe_open_row, safe_row};
ghost use Rattle.ls_deciding.specs.Cases.{IsSafeCase, safe_interview};
ghost use Rattle.ls_deciding.specs.Changes.{IsTrailOf, MakesChange};

use crate::attending::{attend_safe, is_opening};
use crate::case::SafeCase;
use crate::opening::open_safe;
use crate::viewing::follow;
use ls_base::Trail;
use ls_expert::Inquiry;
use ls_meaning::{Refusal, Response, SafeRequest};
use std::alloc::{AllocError, Global};

/// Carries out what is asked of the safe interview. Where memory runs out it is as before, and the
/// trail may be longer.
pub fn ask_safe(
    alloc: Global,
    inquiry: &Inquiry,
    trail: &mut Trail,
    safe: &mut Option<SafeCase>,
    asked: SafeRequest,
) -> Result<Response, AllocError>
    requires trail { IsTrailOf inquiry.now trail.old }
    requires case { ForSome safe.old (IsSafeCase inquiry.now.count) }
    ensures change { let s = safe_interview safe.old in
        MakesChange (safe_row inquiry.now s asked) s (safe_interview safe.new) result }
    ensures trail { IsTrailOf inquiry.now trail.new }
    ensures case { ForSome safe.new (IsSafeCase inquiry.now.count) }
{
    if is_opening(&asked) {
        open(alloc, inquiry, trail, safe)
    } else {
        attend_safe(alloc, safe, asked)
    }
}

// It begins with the states of the interview.
fn open(
    alloc: Global,
    inquiry: &Inquiry,
    trail: &mut Trail,
    safe: &mut Option<SafeCase>,
) -> Result<Response, AllocError>
    requires trail { IsTrailOf inquiry.now trail.old }
    requires case { ForSome safe.old (IsSafeCase inquiry.now.count) }
    ensures change { let s = safe_interview safe.old in
        MakesChange (safe_open_row inquiry.now s) s (safe_interview safe.new) result }
    ensures trail { IsTrailOf inquiry.now trail.new }
    ensures case { ForSome safe.new (IsSafeCase inquiry.now.count) }
{
    if safe.is_some() {
        return Ok(Response::Refused(Refusal::SafeStands));
    }
    follow(trail, inquiry)?;
    match trail.last() {
        Some(followed) => open_safe(alloc, inquiry, followed, safe),
        None => unreachable!(),
    }
}
