// What the faults of files, names, answers and replies tell where they refuse a line.
ghost use Rattle.std.specs.Prelude.{◌≡◌};
ghost use Rattle.ls_meaning.specs.Notices.{notice_of};
ghost use Rattle.ls_meaning.specs.Refusals.{answer_notice, base_notice, block_notice, cause_word};
ghost use Rattle.ls_meaning.specs.Refusals.{cursor_notice, domain_notice, reason_word};
ghost use Rattle.ls_meaning.specs.Refusals.{reply_notice, safe_notice, sets_notice, surmise_notice};

use crate::notices::{Detail, Notice};
use ls_domain::DomainFault;
use ls_files::{Cause, FamilyFault};
use ls_origins::SafeFault;
use ls_set::CursorFault;
use ls_theory::{AnswerFault, BaseFault, BlockFault, Reason, ReplyFault, SurmiseFault};

// Names that are no domain.
pub(crate) fn domain_notice(fault: DomainFault) -> Notice
    ensures { notice_of result ≡ domain_notice fault }
{
    match fault {
        DomainFault::NoItems => Notice::word(12, "none"),
        DomainFault::BadCsv { row } => Notice::counted(12, "csv", u64::from(row)),
        DomainFault::BadName { row } => Notice::counted(12, "name", u64::from(row)),
        DomainFault::Repeat { row, first } => {
            let rows = &[
                Detail::Word("repeat"),
                Detail::Number(u64::from(row)),
                Detail::Number(u64::from(first)),
            ];
            Notice::new(12, rows)
        }
        DomainFault::TooMany => Notice::word(12, "many"),
        DomainFault::Memory(_) => Notice::bare(12),
    }
}

// Blocks that can't be made.
pub(crate) fn block_notice(fault: BlockFault) -> Notice
    ensures { notice_of result ≡ block_notice fault }
{
    match fault {
        BlockFault::TooWide { size } => Notice::number(16, u64::from(size)),
        BlockFault::BadBlock => Notice::bare(17),
        BlockFault::Memory(_) => Notice::bare(16),
    }
}

// Answers that can't be taken.
pub(crate) fn answer_notice(fault: AnswerFault) -> Notice
    ensures { notice_of result ≡ answer_notice fault }
{
    match fault {
        AnswerFault::BadQuery => Notice::bare(18),
        AnswerFault::Repeat { number } => Notice::number(19, number),
        AnswerFault::ForcedYes => Notice::bare(20),
        AnswerFault::ForcedNo { by } => Notice::number(21, by),
        AnswerFault::Full => Notice::bare(22),
        AnswerFault::Memory(_) => Notice::bare(22),
    }
}

// Answers that a safe interview doesn't take.
pub(crate) fn safe_notice(fault: SafeFault) -> Notice
    ensures { notice_of result ≡ safe_notice fault }
{
    match fault {
        SafeFault::BadQuery => Notice::bare(18),
        SafeFault::Repeat { number } => Notice::number(52, number),
        SafeFault::Full => Notice::bare(22),
        SafeFault::Past { count } => Notice::number(53, count as u64),
        SafeFault::Memory(_) => Notice::bare(22),
    }
}

// Texts that are no cursor.
pub(crate) fn cursor_notice(fault: CursorFault) -> Notice
    ensures { notice_of result ≡ cursor_notice fault }
{
    match fault {
        CursorFault::Length { had } => Notice::counted(24, "length", had as u64),
        CursorFault::Digit { place } => Notice::counted(24, "digit", place as u64),
        CursorFault::Spare => Notice::word(24, "spare"),
    }
}

// Clauses of a file that are no start.
pub(crate) fn surmise_notice(fault: SurmiseFault) -> Notice
    ensures { notice_of result ≡ surmise_notice fault }
{
    match fault {
        SurmiseFault::BadJson => Notice::word(14, "json"),
        SurmiseFault::UnknownItem => Notice::word(14, "unknown"),
        SurmiseFault::NoClause { q } => {
            Notice::new(14, &[Detail::Word("no-clause"), Detail::Item(q)])
        }
        SurmiseFault::Reflexive { q, clause } => Notice::new(
            14,
            &[
                Detail::Word("reflexive"),
                Detail::Item(q),
                Detail::Number(clause as u64),
            ],
        ),
        SurmiseFault::NotClosed { q, clause, r } => Notice::new(
            14,
            &[
                Detail::Word("open"),
                Detail::Item(q),
                Detail::Number(clause as u64),
                Detail::Item(r),
            ],
        ),
        SurmiseFault::Comparable { q, first, second } => Notice::new(
            14,
            &[
                Detail::Word("comparable"),
                Detail::Item(q),
                Detail::Number(first as u64),
                Detail::Number(second as u64),
            ],
        ),
        SurmiseFault::Wide { count } => Notice::counted(14, "wide", count as u64),
        SurmiseFault::Memory(_) => Notice::bare(14),
    }
}

// A file that is no list of sets, behind the code.
pub(crate) fn sets_notice(code: u32, fault: FamilyFault) -> Notice
    ensures { notice_of result ≡ sets_notice code fault }
{
    match fault {
        FamilyFault::BadLine { row } => Notice::counted(code, "line", row as u64),
        FamilyFault::UnknownItem { row } => Notice::counted(code, "unknown-item", row as u64),
        FamilyFault::Repeat { row, first } => Notice::new(
            code,
            &[
                Detail::Word("repeat"),
                Detail::Number(row as u64),
                Detail::Number(first as u64),
            ],
        ),
        FamilyFault::TooMany { row } => Notice::counted(code, "many", row as u64),
        FamilyFault::Memory(_) => Notice::bare(code),
    }
}

// Sets of a file that are no start.
pub(crate) fn base_notice(fault: BaseFault) -> Notice
    ensures { notice_of result ≡ base_notice fault }
{
    match fault {
        BaseFault::NotSpanning { item } => {
            Notice::new(14, &[Detail::Word("not-spanning"), Detail::Item(item)])
        }
        BaseFault::Past { count } => Notice::counted(14, "wide", count as u64),
        BaseFault::Memory(_) => Notice::bare(14),
    }
}

// Replies that can't be taken.
pub(crate) fn reply_notice(fault: ReplyFault) -> Notice
    ensures { notice_of result ≡ reply_notice fault }
{
    match fault {
        ReplyFault::Over(reason) => Notice::word(39, reason_word(reason)),
        ReplyFault::WrongItem { asked } => Notice::new(40, &[Detail::Item(asked)]),
    }
}

/// The word that tells why an assessment is over.
pub fn reason_word(reason: Reason) -> &'static str
    ensures { result.now ≡ reason_word reason }
{
    match reason {
        Reason::Share => "share",
        Reason::Budget => "budget",
    }
}

// The word that tells why a file is no saved session.
pub(crate) fn cause_word(cause: Cause) -> &'static str
    ensures { result.now ≡ cause_word cause }
{
    match cause {
        Cause::Json => "json",
        Cause::Version => "version",
        Cause::Items => "items",
        Cause::Limits => "limits",
        Cause::Odds => "odds",
        Cause::Start => "start",
        Cause::Block => "block",
        Cause::Answers => "answers",
        Cause::Pupils => "pupils",
    }
}
