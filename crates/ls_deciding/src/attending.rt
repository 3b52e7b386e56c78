// What is asked of a safe interview, or done with it.
ghost use Rattle.std.specs.Prelude.{◌≡◌, ℕ, Some, None, IfOk, OnOk, OnErr, not};
ghost use Rattle.std.specs.Option.{ForSome};
ghost use Rattle.ls_theory.specs.{Interview};
ghost use Rattle.ls_meaning.specs.{safe_answer_row, safe_list_row, safe_row, safe_states_row};
ghost use Rattle.ls_deciding.specs.Cases.{IsSafeCase, is_opening, safe_interview, safe_of_case};
ghost use Rattle.std.specs.Prelude.{false};

use crate::case::SafeCase;
use ls_interior::Inside;
use ls_meaning::{
    Refusal, Response, SafeRequest, Shown, UnionStates, count_applied, count_pending,
};
use ls_origins::{SafeAnswers, SafeFault};
use ls_set::{CursorFault, ItemSet, Query, SetList};
use std::alloc::{AllocError, Global};

/// What is asked of the safe interview, or done with it, but for its opening. Where memory runs out
/// nothing changes.
pub fn attend_safe(
    alloc: Global,
    safe: &mut Option<SafeCase>,
    asked: SafeRequest,
) -> Result<Response, AllocError>
    requires other { is_opening asked ≡ false }
    ensures response { (i : Interview) → ForSome safe.old (IsSafeCase i.count) →
        IfOk result (λ r. r ≡ (safe_row i (safe_interview safe.old) asked).response) }
    ensures next { (i : Interview) → ForSome safe.old (IsSafeCase i.count) →
        OnOk result (safe_interview safe.new ≡ (safe_row i (safe_interview safe.old) asked).next) }
    ensures case { (n : ℕ) → ForSome safe.old (IsSafeCase n) → ForSome safe.new (IsSafeCase n) }
    ensures err { OnErr result (safe.new ≡ safe.old) }
{
    let Some(case) = safe else {
        return Ok(Response::Refused(Refusal::NoSafe));
    };
    match asked {
        SafeRequest::Open => unreachable!(),
        SafeRequest::Answer { query } => answer(case, query),
        SafeRequest::List => list(alloc, case),
        SafeRequest::States { count, after } => states(alloc, case, count, after),
        SafeRequest::Close => {
            *safe = None;
            Ok(Response::Agreed)
        }
    }
}

/// Whether the safe interview is to begin.
pub fn is_opening(asked: &SafeRequest) -> bool
    ensures { result ≡ is_opening asked.now }
{
    matches!(asked, SafeRequest::Open)
}

// `safe NAMES : ITEM`: an answer Yes is applied, or waits; others may be applied after it.
fn answer(case: &mut SafeCase, query: Query) -> Result<Response, AllocError>
    ensures response { (n : ℕ) → IsSafeCase n case.old → IfOk result (λ r.
        r ≡ (safe_answer_row n (safe_of_case case.old) query).response) }
    ensures next { (n : ℕ) → IsSafeCase n case.old → OnOk result (
        Some (safe_of_case case.new) ≡ (safe_answer_row n (safe_of_case case.old) query).next) }
    ensures case { (n : ℕ) → IsSafeCase n case.old → IsSafeCase n case.new }
    ensures err { OnErr result (case.new ≡ case.old) }
{
    match case.safe.answer(query) {
        Ok(number) => {
            let answers = case.safe.answers();
            Ok(Response::Accepted {
                number,
                applied: count_applied(answers),
                pending: count_pending(answers),
            })
        }
        Err(SafeFault::Memory(e)) => Err(e),
        Err(fault) => Ok(Response::Refused(Refusal::Safe(fault))),
    }
}

// `safe-list`
fn list(alloc: Global, case: &SafeCase) -> Result<Response, AllocError>
    ensures { (n : ℕ) → IsSafeCase n case.now →
        IfOk result (λ r. r ≡ safe_list_row n (safe_of_case case.now)) }
{
    let answers = SafeAnswers::from_slice(alloc, case.safe.answers())?;
    Ok(Response::Shown(Shown::SafeAnswers(answers)))
}

// `safe-states COUNT` and `safe-states COUNT after CURSOR`
fn states(
    alloc: Global,
    case: &SafeCase,
    count: u32,
    after: Result<Option<ItemSet>, CursorFault>,
) -> Result<Response, AllocError>
    ensures { (n : ℕ) → IsSafeCase n case.now →
        IfOk result (λ r. r ≡ safe_states_row n (safe_of_case case.now) count after) }
{
    match after {
        Ok(after) => {
            let base = case.safe.base();
            let sets = SetList::from_slice(alloc, base.sets())?;
            let items = base.items();
            Ok(Response::Shown(Shown::Unions {
                states: UnionStates { items, sets },
                count,
                after,
            }))
        }
        Err(fault) => Ok(Response::Refused(Refusal::Cursor(fault))),
    }
}
