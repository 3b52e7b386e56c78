// Faults of sets, lines, words, names and streams.
use crate::print_each;
use ls_domain::{DomainFault, UnknownAt};
use ls_edge::{Failed, FetchFault, SinkFault, StoreFault};
use ls_lines::LineFault;
use ls_set::CursorFault;
use ls_words::WordsFault;
use std::alloc::AllocError;
use std::io;

pub(crate) fn print<R: Print>(rt: &R) -> io::Result<()> {
    print_each(
        rt,
        "CursorFault",
        &[
            CursorFault::Length { had: 11 },
            CursorFault::Digit { place: 12 },
            CursorFault::Spare,
        ],
    )?;
    print_each(
        rt,
        "LineFault",
        &[
            LineFault::Shape { place: 13 },
            LineFault::Memory(AllocError),
        ],
    )?;
    print_each(
        rt,
        "WordsFault",
        &[WordsFault::Usage, WordsFault::Memory(AllocError)],
    )?;
    print_each(
        rt,
        "DomainFault",
        &[
            DomainFault::NoItems,
            DomainFault::BadCsv { row: 14 },
            DomainFault::BadName { row: 15 },
            DomainFault::Repeat { row: 17, first: 16 },
            DomainFault::TooMany,
            DomainFault::Memory(AllocError),
        ],
    )?;
    print_each(rt, "UnknownAt", &[UnknownAt { index: 18 }])?;
    print_each(rt, "Failed", &[Failed])?;
    print_each(
        rt,
        "SinkFault",
        &[SinkFault::Failed, SinkFault::Memory(AllocError)],
    )?;
    print_each(
        rt,
        "FetchFault",
        &[
            FetchFault::Missing,
            FetchFault::TooLarge { bytes: 19 },
            FetchFault::Failed,
            FetchFault::Memory(AllocError),
        ],
    )?;
    print_each(
        rt,
        "StoreFault",
        &[StoreFault::Failed, StoreFault::Memory(AllocError)],
    )
}
