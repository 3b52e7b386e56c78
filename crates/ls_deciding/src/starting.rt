// Interviews that begin with the start that a file gives.
ghost use Rattle.std.specs.Prelude.{◌≡◌, [], Ok, length};
ghost use Rattle.ls_standing.specs.Starts.{start_of, IsStartOn};
ghost use Rattle.ls_meaning.specs.{start_read, starts_by};
ghost use Rattle.ls_deciding.specs.Readings.{HasNumber};
ghost use Rattle.ls_deciding.specs.Changes.{IsTrailOf, MakesChange};

use crate::starts::read_start;
use ls_base::Trail;
use ls_domain::Domain;
use ls_expert::{Inquiry, Start, StartFault};
use ls_interior::Steps;
use ls_meaning::{Refusal, Response, StartFile};
use std::alloc::{AllocError, Global};
use std::sync::ledger::Ledger;

/// Begins the interview with the start that the bytes of a file give, where no answer stands. Where
/// they give none it is refused, and where memory runs out nothing changes.
pub fn start_from<L: Ledger>(
    alloc: Global,
    domain: &Domain,
    file: StartFile,
    bytes: &[u8],
    inquiry: &mut Inquiry,
    trail: &mut Trail,
    steps: &mut Steps<L>,
) -> Result<Response, AllocError>
    requires items { length domain.now ≡ inquiry.old.count }
    requires none { inquiry.old.answers ≡ [] }
    requires trail { IsTrailOf inquiry.old trail.old }
    ensures change { let i = inquiry.old in
        MakesChange (starts_by file i [] (start_read file domain.now bytes.now)) i inquiry.new
        result }
    ensures trail { IsTrailOf inquiry.new trail.new }
    ensures items { inquiry.new.count ≡ inquiry.old.count }
{
    match read_start(alloc, domain, file, bytes)? {
        Ok(start) => begin_with(alloc, file, inquiry, trail, start, steps),
        Err(refusal) => Ok(Response::Refused(refusal)),
    }
}

// Begins the interview with the start, where no answer stands, and its trail with the base of the
// start. How many sets that has is told.
fn begin_with<L: Ledger>(
    alloc: Global,
    file: StartFile,
    inquiry: &mut Inquiry,
    trail: &mut Trail,
    start: Start,
    steps: &mut Steps<L>,
) -> Result<Response, AllocError>
    requires on { IsStartOn inquiry.old.count start }
    requires number { HasNumber file inquiry.old.count (Ok start) }
    requires none { inquiry.old.answers ≡ [] }
    requires trail { IsTrailOf inquiry.old trail.old }
    ensures change { MakesChange (starts_by file inquiry.old [] (Ok (start_of start)))
        inquiry.old inquiry.new result }
    ensures trail { IsTrailOf inquiry.new trail.new }
    ensures items { inquiry.new.count ≡ inquiry.old.count }
{
    let base = start.base(alloc, inquiry.items())?;
    let number = base.sets().len() as u64;
    let mut begun = Trail::new(alloc);
    begun.begin(base)?;
    match inquiry.set_start(start, steps) {
        Ok(()) => {
            *trail = begun;
            Ok(Response::Done { number })
        }
        Err(StartFault::Memory(e)) => Err(e),
        Err(StartFault::AnswersStand) => unreachable!(),
    }
}
