// The inquiry of a saved session.
ghost use Rattle.std.specs.Prelude.{◌≡◌, ◌<◌, ◌≤◌, true};
ghost use Rattle.serde_json.specs.View.{view};
ghost use Rattle.ls_set.specs.{most_items};
ghost use Rattle.ls_standing.specs.Starts.{start_of, IsStartOn};
ghost use Rattle.ls_files.specs.SessionFiles.{read_interview};
ghost use Rattle.ls_files.specs.Standing.{are_made};
ghost use Rattle.ls_codecs.specs.Faults.{IsRead};

use ls_codecs::{PartFault, read_at, read_list_at};
use ls_expert::{Inquiry, StandingFault, Start};
use ls_files::Version;
use ls_interior::Steps;
use ls_theory::Answer;
use serde_json::Value;
use std::alloc::Global;
use std::sync::ledger::Ledger;

/// The inquiry of an object's answers and next number, on `n` items, with the start and the
/// greatest size of the sets that are asked.
pub fn read_inquiry<L: Ledger>(
    alloc: Global,
    version: Version,
    n: u32,
    start: Start,
    block: u32,
    object: &Value,
    steps: &mut Steps<L>,
) -> Result<Inquiry, PartFault>
    requires some { 0 < n }
    requires few { n ≤ most_items }
    requires start { IsStartOn n start }
    requires made { are_made n block ≡ true }
    ensures { IsRead (read_interview n (start_of start) block (view object.now)) result }
{
    let answers: Vec<Answer> = read_list_at(alloc, version, n, "answers", object)?;
    let next: u64 = read_at(alloc, version, n, "next", object)?;
    match Inquiry::from_standing(alloc, n, start, block, next, &answers, steps) {
        Ok(inquiry) => Ok(inquiry),
        Err(StandingFault::Memory(e)) => Err(PartFault::Memory(e)),
        Err(_) => Err(PartFault::Bad),
    }
}
