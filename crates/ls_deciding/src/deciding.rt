// What is shown of an interview, decided.
ghost use Rattle.std.specs.Prelude.{◌≡◌, ◌≤◌, ◌+◌, false};
ghost use Rattle.ls_set.specs.{IsWithin, full};
ghost use Rattle.ls_meaning.specs.{IsViewOn, fringes_row, known_row, project_row, states_row};
ghost use Rattle.ls_meaning.specs.{view_row};
ghost use Rattle.ls_deciding.specs.Views.{is_based, view_steps};

use ls_expert::{AnswerFault, BadQuery, Inquiry};
use ls_fringe::fringes;
use ls_interior::{Steps, is_member};
use ls_meaning::{Refusal, Response, Shown, View};
use ls_set::{CursorFault, ItemSet, Query};
use std::sync::ledger::Ledger;

/// Whether what is asked stands on the base of the interview.
pub fn is_based(view: &View) -> bool
    ensures { result ≡ is_based view.now }
{
    matches!(
        view,
        View::Base
            | View::Surmise
            | View::Learning
            | View::ProjectBase { .. }
            | View::StateOf { .. }
            | View::Paths { .. }
            | View::SkillMap
            | View::Relation
    )
}

/// What is shown where something that doesn't stand on the base is asked of the interview. It takes
/// at most one counted interior for a query, those of the search for a question, and none for the
/// others.
pub fn decide<L: Ledger>(inquiry: &Inquiry, view: &View, steps: &mut Steps<L>) -> Response
    requires other { is_based view.now ≡ false }
    requires on { IsViewOn inquiry.now.count view.now }
    ensures response { result ≡ view_row inquiry.now view.now }
    ensures cost { steps.new ≤ steps.old + view_steps inquiry.now view.now }
{
    match view {
        View::Known { query } => known(inquiry, query, steps),
        View::Ask => Response::Shown(Shown::Question(inquiry.find_question(None, steps))),
        View::States { count, after } => states(*count, after),
        View::Project { part, count, after } => projected(*part, *count, after),
        View::Fringes { set } => fringes_at(inquiry, *set),
        View::Base | View::Surmise | View::Learning | View::ProjectBase { .. } => unreachable!(),
        View::StateOf { .. } | View::Paths { .. } => unreachable!(),
        View::SkillMap | View::Relation => unreachable!(),
    }
}

// What is known of a query.
fn known<L: Ledger>(inquiry: &Inquiry, query: &Query, steps: &mut Steps<L>) -> Response
    ensures response { result ≡ known_row inquiry.now query.now }
    ensures cost { steps.new ≤ steps.old + 1 }
{
    match inquiry.known(query, steps) {
        Ok(known) => Response::Shown(Shown::Known(known)),
        Err(BadQuery) => Response::Refused(Refusal::Answer(AnswerFault::BadQuery)),
    }
}

// A page of states.
fn states(count: u32, after: &Result<Option<ItemSet>, CursorFault>) -> Response
    ensures { result ≡ states_row count after.now }
{
    match *after {
        Ok(after) => Response::Shown(Shown::States { count, after }),
        Err(fault) => Response::Refused(Refusal::Cursor(fault)),
    }
}

// A page of states of a projection.
fn projected(part: ItemSet, count: u32, after: &Result<Option<ItemSet>, CursorFault>) -> Response
    ensures { result ≡ project_row part count after.now }
{
    match *after {
        Ok(after) => Response::Shown(Shown::Projected { part, count, after }),
        Err(fault) => Response::Refused(Refusal::Cursor(fault)),
    }
}

// The fringes of a set, if it is a state.
fn fringes_at(inquiry: &Inquiry, set: ItemSet) -> Response
    requires { IsWithin set (full inquiry.now.count) }
    ensures { result ≡ fringes_row inquiry.now set }
{
    let family = inquiry.family();
    if is_member(family, set) {
        Response::Shown(Shown::Fringes(fringes(family, set)))
    } else {
        Response::Refused(Refusal::NotState)
    }
}
