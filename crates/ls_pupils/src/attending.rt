// What is asked of pupils, or done with them.
ghost use Rattle.std.specs.Prelude.{◌≡◌, length, IfOk, OnOk, OnErr};
ghost use Rattle.ls_meaning.specs.{pupil_row};
ghost use Rattle.ls_pupils.specs.Cases.{pupils_of, ArePupils};

use crate::asking::{close, question, reply, report};
use crate::beginning::begin;
use crate::cases::PupilCases;
use ls_assess::Settings;
use ls_cutting::Word;
use ls_expert::Inquiry;
use ls_interior::Steps;
use ls_meaning::{PupilRequest, Response};
use std::alloc::{AllocError, Global};
use std::sync::ledger::Ledger;

/// What is asked of the pupil of the name, or done with it. A pupil that begins is one of the
/// interview, with the settings; it gets a copy of the name. Where memory runs out nothing changes.
pub fn attend<L: Ledger>(
    alloc: Global,
    pupils: &mut PupilCases,
    name: &Word,
    what: PupilRequest,
    inquiry: &Inquiry,
    settings: &Settings,
    steps: &mut Steps<L>,
) -> Result<Response, AllocError>
    requires pupils { ArePupils inquiry.now.count pupils.old }
    requires items { length settings.now.ratios ≡ inquiry.now.count }
    ensures response { IfOk result (λ r. r ≡ (pupil_row inquiry.now settings.now
        (pupils_of pupils.old) name.now what).response) }
    ensures next { OnOk result (pupils_of pupils.new ≡ (pupil_row inquiry.now settings.now
        (pupils_of pupils.old) name.now what).next) }
    ensures pupils { ArePupils inquiry.now.count pupils.new }
    ensures err { OnErr result (pupils.new ≡ pupils.old) }
{
    let n = inquiry.items();
    match what {
        PupilRequest::Begin => begin(alloc, pupils, name, inquiry, settings, steps),
        PupilRequest::Question => Ok(question(pupils, name)),
        PupilRequest::Reply { item, right } => Ok(reply(pupils, name, item, right)),
        PupilRequest::Report => Ok(report(n, pupils, name)),
        PupilRequest::Close => Ok(close(pupils, name)),
    }
}
