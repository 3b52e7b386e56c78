// How a safe interview begins.
ghost use Rattle.std.specs.Prelude.{◌≡◌, [], ◌∷◌, None, IfOk, OnOk, OnErr};
ghost use Rattle.std.specs.Option.{ForSome};
ghost use Rattle.ls_theory.specs.{yes_queries};
ghost use Rattle.ls_base.specs.Followed.{IsFollowed, IsFollowedBase};
ghost use Rattle.ls_meaning.specs.{learning_refusals, safe_open_row};
ghost use Rattle.ls_safe.specs.Interviews.{IsOpenFaultOf};
ghost use Rattle.ls_theory.specs.declared.verdict.BaseVerdict.{BaseVerdict};
ghost use Rattle.ls_deciding.specs.Cases.{IsSafeCase, safe_interview};

use crate::case::SafeCase;
use ls_base::{Base, Followed};
use ls_expert::Inquiry;
use ls_meaning::{Refusal, Response};
use ls_safe::{OpenFault, Safe};
use ls_set::QueryList;
use std::alloc::{AllocError, Global};

/// `safe-open`: a safe interview begins with the states of the interview. `followed` is its base,
/// followed over the Yes answers. Where memory runs out nothing changes.
pub fn open_safe(
    alloc: Global,
    inquiry: &Inquiry,
    followed: &Followed,
    safe: &mut Option<SafeCase>,
) -> Result<Response, AllocError>
    requires followed { let i = inquiry.now in
        IsFollowed i.count i.start (yes_queries i.answers) followed.now }
    requires case { ForSome safe.old (IsSafeCase inquiry.now.count) }
    ensures response { IfOk result (λ r.
        r ≡ (safe_open_row inquiry.now (safe_interview safe.old)).response) }
    ensures next { OnOk result (safe_interview safe.new
        ≡ (safe_open_row inquiry.now (safe_interview safe.old)).next) }
    ensures case { ForSome safe.new (IsSafeCase inquiry.now.count) }
    ensures err { OnErr result (safe.new ≡ safe.old) }
{
    if safe.is_some() {
        return Ok(Response::Refused(Refusal::SafeStands));
    }
    match followed {
        Followed::Within(base) => begin(alloc, inquiry, base, safe),
        Followed::Past { position, count } => Ok(Response::Refused(Refusal::Past {
            position: *position,
            count: *count,
        })),
    }
}

// It begins with the states of the base, where these are a learning space.
fn begin(
    alloc: Global,
    inquiry: &Inquiry,
    base: &Base,
    safe: &mut Option<SafeCase>,
) -> Result<Response, AllocError>
    requires none { safe.old ≡ None }
    requires followed { let i = inquiry.now in
        IsFollowedBase i.count i.start (yes_queries i.answers) base.now }
    ensures response { IfOk result (λ r. r ≡ (safe_open_row inquiry.now None).response) }
    ensures next { OnOk result
        (safe_interview safe.new ≡ (safe_open_row inquiry.now None).next) }
    ensures case { ForSome safe.new (IsSafeCase inquiry.now.count) }
    ensures err { OnErr result (safe.new ≡ safe.old) }
{
    let _ = inquiry.standing(); // it is sound
    match Safe::begin(alloc, base) {
        Ok(begun) => {
            *safe = Some(SafeCase {
                start: inquiry.start().copy()?,
                yes: QueryList::from_slice(alloc, inquiry.yes_queries())?,
                safe: begun,
            });
            Ok(Response::Done {
                number: base.sets().len() as u64,
            })
        }
        Err(fault) => Ok(Response::Refused(refused(fault)?)),
    }
}

// The refusal of states that are no learning space.
fn refused(fault: OpenFault) -> Result<Refusal, AllocError>
    ensures { (verdict : BaseVerdict) → IsOpenFaultOf verdict fault →
        IfOk result (λ r. learning_refusals verdict ≡ r ∷ []) }
{
    match fault {
        OpenFault::NotLearning { set, first, second } => {
            Ok(Refusal::NotLearning { set, first, second })
        }
        OpenFault::Memory(e) => Err(e),
    }
}
