// Faults of bases, listings, interviews and assessments.
use crate::print_each;
use ls_base::PastFault;
use ls_enum::ListFault;
use ls_expert::{RetractFault, StandingFault, StartFault};
use ls_theory::{AnswerFault, BaseFault, BlockFault};
use ls_weight::{BadSetting, WeightFault};
use std::alloc::AllocError;
use std::io;

// Those of bases and listings.
fn print_those_of_families<R: Print>(rt: &R) -> io::Result<()> {
    print_each(
        rt,
        "BaseFault",
        &[
            BaseFault::NotSpanning { item: 41 },
            BaseFault::Past { count: 42 },
            BaseFault::Memory(AllocError),
        ],
    )?;
    print_each(
        rt,
        "PastFault",
        &[PastFault::Past { count: 43 }, PastFault::Memory(AllocError)],
    )?;
    print_each(
        rt,
        "ListFault",
        &[ListFault::More, ListFault::Memory(AllocError)],
    )
}

pub(crate) fn print<R: Print>(rt: &R) -> io::Result<()> {
    print_those_of_families(rt)?;
    print_each(
        rt,
        "BlockFault",
        &[
            BlockFault::BadBlock,
            BlockFault::TooWide { size: 44 },
            BlockFault::Memory(AllocError),
        ],
    )?;
    print_each(
        rt,
        "AnswerFault",
        &[
            AnswerFault::BadQuery,
            AnswerFault::Repeat { number: 45 },
            AnswerFault::ForcedYes,
            AnswerFault::ForcedNo { by: 46 },
            AnswerFault::Full,
            AnswerFault::Memory(AllocError),
        ],
    )?;
    print_each(
        rt,
        "RetractFault",
        &[RetractFault::NotStanding, RetractFault::Memory(AllocError)],
    )?;
    print_each(
        rt,
        "StartFault",
        &[StartFault::AnswersStand, StartFault::Memory(AllocError)],
    )?;
    print_each(
        rt,
        "StandingFault",
        &[
            StandingFault::BadBlock,
            StandingFault::TooWide { size: 47 },
            StandingFault::BadAnswers,
            StandingFault::Memory(AllocError),
        ],
    )?;
    print_each(rt, "BadSetting", &[BadSetting])?;
    print_each(
        rt,
        "WeightFault",
        &[
            WeightFault::Heavy { replies: 48 },
            WeightFault::Memory(AllocError),
        ],
    )
}
