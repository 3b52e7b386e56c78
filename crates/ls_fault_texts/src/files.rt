// Faults of set files, surmise files, class tables and saved sessions.
use crate::print_each;
use ls_class::ClassFault;
use ls_files::FamilyFault;
use ls_session::StepFault;
use ls_store::{Cause, SessionFault};
use ls_surmise::FromFault;
use ls_theory::SurmiseFault;
use std::alloc::AllocError;
use std::io;

pub(crate) fn print<R: Print>(rt: &R) -> io::Result<()> {
    print_each(
        rt,
        "FamilyFault",
        &[
            FamilyFault::BadLine { row: 21 },
            FamilyFault::UnknownItem { row: 22 },
            FamilyFault::Repeat { row: 24, first: 23 },
            FamilyFault::TooMany { row: 25 },
            FamilyFault::Memory(AllocError),
        ],
    )?;
    print_each(
        rt,
        "SurmiseFault",
        &[
            SurmiseFault::BadJson,
            SurmiseFault::UnknownItem,
            SurmiseFault::NoClause { q: 26 },
            SurmiseFault::Reflexive { q: 28, clause: 27 },
            SurmiseFault::NotClosed {
                q: 30,
                clause: 29,
                r: 31,
            },
            SurmiseFault::Comparable {
                q: 34,
                first: 32,
                second: 33,
            },
            SurmiseFault::Wide { count: 35 },
            SurmiseFault::Memory(AllocError),
        ],
    )?;
    print_each(
        rt,
        "FromFault",
        &[
            FromFault::NotSpanning { item: 36 },
            FromFault::Memory(AllocError),
        ],
    )?;
    print_each(
        rt,
        "ClassFault",
        &[
            ClassFault::BadClass { row: 37 },
            ClassFault::Memory(AllocError),
        ],
    )?;
    print_each(
        rt,
        "SessionFault",
        &[
            SessionFault::BadSession { cause: Cause::Json },
            SessionFault::Memory(AllocError),
        ],
    )?;
    print_each(
        rt,
        "StepFault",
        &[StepFault::Write, StepFault::Memory(AllocError)],
    )
}
