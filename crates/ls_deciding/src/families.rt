// The test of families that files give.
ghost use Rattle.std.specs.Prelude.{◌≡◌, [], IfOk, length};
ghost use Rattle.ls_files.specs.SetFiles.{sets_of};
ghost use Rattle.ls_meaning.specs.{tested_by};

use ls_domain::Domain;
use ls_family::{Family, FamilyFault};
use ls_meaning::{Refusal, Response, Shown};
use ls_space::test;
use std::alloc::{AllocError, Global};
use std::thread::Threads;

/// The verdict on the family that the bytes of a file give, or the refusal of bytes that give none.
/// The error is want of memory.
pub fn test_sets<R: Threads + Sync>(
    rt: &R,
    alloc: Global,
    domain: &Domain,
    bytes: &[u8],
) -> Result<Response, AllocError>
    ensures { IfOk result (λ r.
        r ≡ tested_by (length domain.now) [] (sets_of domain.now bytes.now)) }
{
    match Family::from_text(alloc, domain, bytes) {
        Ok(family) => Ok(Response::Shown(Shown::Tested(test(rt, alloc, &family)?))),
        Err(FamilyFault::Memory(e)) => Err(e),
        Err(fault) => Ok(Response::Refused(Refusal::TestedSets(fault))),
    }
}
