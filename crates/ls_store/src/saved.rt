// Saved sessions.
ghost use Rattle.std.specs.Prelude.{◌≡◌, length, Ok, IfOk, IfErr};
ghost use Rattle.ls_files.specs.{session_of, session_text};
ghost use Rattle.ls_pupils.specs.Cases.{ArePupils};
ghost use Rattle.ls_store.specs.Faults.{IsSessionFault};
ghost use Rattle.ls_store.specs.Stored.{session_of_saved};

use crate::fault::SessionFault;
use crate::parts::Parts;
use crate::printing::print_parts;
use crate::reading::read_parts;
use ls_domain::Domain;
use ls_expert::Interview;
use ls_interior::Steps;
use ls_pupils::PupilCases;
use ls_weight::Settings;
use std::alloc::{AllocError, Global};
use std::sync::ledger::Ledger;

/// A session: the domain, the interview on its items, and their settings and pupils.
#[derive(Drop)]
pub struct Saved {
    pub domain: Domain,
    pub interview: Interview,
    pub settings: Settings,
    pub pupils: PupilCases,
}

/// The text of a session, which is read as the same session. The error is want of memory.
pub fn print_session(alloc: Global, s: &Saved) -> Result<Vec<u8>, AllocError>
    requires items { length s.now.domain ≡ s.now.interview.count }
    requires settings { length s.now.settings.ratios ≡ s.now.interview.count }
    requires pupils { ArePupils s.now.interview.count s.now.pupils }
    ensures { IfOk result (λ v. v.items ≡ session_text (session_of_saved s.now)) }
{
    print_parts(
        alloc,
        &s.domain,
        s.interview.inquiry(),
        &s.settings,
        &s.pupils,
    )
}

/// The session that bytes are, or the first cause why they are none.
pub fn read_session<L: Ledger>(
    alloc: Global,
    bytes: &[u8],
    steps: &mut Steps<L>,
) -> Result<Saved, SessionFault>
    ensures session { IfOk result (λ s. session_of bytes.now ≡ Ok (session_of_saved s)) }
    ensures items { IfOk result (λ s. length s.domain ≡ s.interview.count) }
    ensures settings { IfOk result (λ s. length s.settings.ratios ≡ s.interview.count) }
    ensures pupils { IfOk result (λ s. ArePupils s.interview.count s.pupils) }
    ensures fault { IfErr result (IsSessionFault (session_of bytes.now)) }
{
    let Parts {
        domain,
        inquiry,
        settings,
        pupils,
    } = read_parts(alloc, bytes, steps)?;
    match Interview::of(inquiry) {
        Ok(interview) => Ok(Saved {
            domain,
            interview,
            settings,
            pupils,
        }),
        Err(e) => {
            drop(domain);
            drop(settings);
            drop(pupils);
            Err(SessionFault::Memory(e))
        }
    }
}
