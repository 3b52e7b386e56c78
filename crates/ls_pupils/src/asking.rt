// What pupils are asked and reply, and how they are closed.
ghost use Rattle.std.specs.Prelude.{◌≡◌, ◌≤◌, ℕ, true, IfSome, option_map};
ghost use Rattle.std.specs.List.{All};
ghost use Rattle.ls_meaning.specs.Pupils.{pupil_with, shown_of, question_shown, report_shown};
ghost use Rattle.ls_meaning.specs.Pupils.{reply_row, close_row};
ghost use Rattle.ls_meaning.specs.declared.response.Response.TheVariants.{Shown as ShownAs};
ghost use Rattle.ls_pupils.specs.Own.{have_own_names};
ghost use Rattle.ls_pupils.specs.Cases.{case_name, pupil_of_case, pupils_of, changed_to};
ghost use Rattle.ls_pupils.specs.Cases.{IsCase, IsOwnCase, ArePupils};

use crate::cases::{PupilCase, PupilCases};
use ls_cutting::Word;
use ls_fringe::fringes;
use ls_interior::Listed;
use ls_meaning::{Refusal, Response, Shown};
use ls_set::PLACES;

// The case of the name.
fn case_of<'a>(pupils: &'a PupilCases, name: &Word) -> Option<&'a PupilCase>
    ensures pupil { option_map (λ c. pupil_of_case c.now) result
        ≡ pupil_with (pupils_of pupils.now) name.now }
    ensures case { (n : ℕ) → ArePupils n pupils.now → IfSome result (λ c. IsCase n c.now) }
{
    match pupils.place(name) {
        None => None,
        Some(place) => Some(&pupils.as_slice()[place]),
    }
}

/// `question NAME`
pub fn question(pupils: &PupilCases, name: &Word) -> Response
    ensures { (n : ℕ) → ArePupils n pupils.now →
        result ≡ shown_of (question_shown n) (pupil_with (pupils_of pupils.now) name.now) }
{
    match case_of(pupils, name) {
        None => Response::Refused(Refusal::NoPupil),
        Some(case) => Response::Shown(Shown::Asked(case.pupil.question())),
    }
}

/// `report NAME`
pub fn report(n: u32, pupils: &PupilCases, name: &Word) -> Response
    requires { ArePupils n pupils.now }
    ensures { result ≡ shown_of (report_shown n) (pupil_with (pupils_of pupils.now) name.now) }
{
    match case_of(pupils, name) {
        None => Response::Refused(Refusal::NoPupil),
        Some(case) => Response::Shown(report_of(n, case)),
    }
}

// What is known of the pupil of a case, with the fringes of the state among its own states.
fn report_of(n: u32, case: &PupilCase) -> Shown
    requires few { n ≤ PLACES }
    requires case { IsCase n case.now }
    ensures { ShownAs result ≡ report_shown n (pupil_of_case case.now) }
{
    let outcome = case.pupil.result();
    let states = Listed::new(n, case.pupil.states());
    Shown::Report {
        outcome,
        fringes: fringes(&states, outcome.state),
    }
}

/// `reply NAME ITEM right` and `reply NAME ITEM wrong`
pub fn reply(pupils: &mut PupilCases, name: &Word, item: u32, right: bool) -> Response
    ensures row { (n : ℕ) → ArePupils n pupils.old → let ps = pupils_of pupils.old in
        reply_row n ps item right (pupil_with ps name.now) ≡ changed_to pupils.new result }
    ensures pupils { (n : ℕ) → ArePupils n pupils.old → ArePupils n pupils.new }
{
    match pupils.place(name) {
        None => Response::Refused(Refusal::NoPupil),
        Some(place) => match pupils.reply(place, item, right) {
            Ok(replies) => Response::Done {
                number: replies as u64,
            },
            Err(fault) => Response::Refused(Refusal::Reply(fault)),
        },
    }
}

/// `close NAME`
pub fn close(pupils: &mut PupilCases, name: &Word) -> Response
    requires cases { All IsOwnCase pupils.old }
    requires own { have_own_names case_name pupils.old ≡ true }
    ensures row { close_row (pupils_of pupils.old) name.now ≡ changed_to pupils.new result }
    ensures pupils { (n : ℕ) → ArePupils n pupils.old → ArePupils n pupils.new }
{
    match pupils.place(name) {
        None => Response::Refused(Refusal::NoPupil),
        Some(place) => {
            pupils.close(place);
            Response::Agreed
        }
    }
}
