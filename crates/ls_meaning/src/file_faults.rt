// What the faults of skill maps, of parts and of pairs tell where they refuse a line.
ghost use Rattle.std.specs.Prelude.{◌≡◌, ◌∷◌, []};
ghost use Rattle.ls_meaning.specs.FileRefusals.{mesh_notice, pair_notice, part_notice};
ghost use Rattle.ls_meaning.specs.FileRefusals.{skill_notice};
ghost use Rattle.ls_meaning.specs.Told.{told, Word as word_of, Number as number};
ghost use Rattle.ls_meaning.specs.Notices.{notice_of};

use crate::notices::{Detail, Notice};
use ls_files::FamilyFault;
use ls_origins::{MeshFault, PairFault, SkillFault};

// A file that is no skill map.
pub(crate) fn skill_notice(fault: SkillFault) -> Notice
    ensures { notice_of result ≡ skill_notice fault }
{
    match fault {
        SkillFault::BadJson => Notice::word(60, "json"),
        SkillFault::UnknownItem => Notice::word(60, "unknown"),
        SkillFault::NoSkill { q } => {
            Notice::new(60, &[Detail::Word("no-skill"), Detail::Item(q)])
        }
        SkillFault::Wide { count } => Notice::counted(60, "wide", count as u64),
        SkillFault::Memory(_) => Notice::bare(60),
    }
}

// The file of a side that is no list of sets: the side stands before the details.
pub(crate) fn part_notice(side: u32, fault: FamilyFault) -> Notice
    ensures { notice_of result ≡ part_notice side fault }
{
    match fault {
        FamilyFault::BadLine { row } => sided(side, "line", row),
        FamilyFault::UnknownItem { row } => sided(side, "unknown-item", row),
        FamilyFault::Repeat { row, first } => Notice::new(
            70,
            &[
                Detail::Number(u64::from(side)),
                Detail::Word("repeat"),
                Detail::Number(row as u64),
                Detail::Number(first as u64),
            ],
        ),
        FamilyFault::TooMany { row } => sided(side, "many", row),
        FamilyFault::Memory(_) => Notice::number(70, u64::from(side)),
    }
}

// A side, a word and a row.
fn sided(side: u32, word: &'static str, row: usize) -> Notice
    ensures { notice_of result ≡ told 70 (number side ∷ word_of word.now ∷ number row ∷ []) }
{
    Notice::new(
        70,
        &[
            Detail::Number(u64::from(side)),
            Detail::Word(word),
            Detail::Number(row as u64),
        ],
    )
}

// Two parts that have no mesh.
pub(crate) fn mesh_notice(fault: MeshFault) -> Notice
    ensures { notice_of result ≡ mesh_notice fault }
{
    match fault {
        MeshFault::NotCovered { item } => {
            Notice::new(70, &[Detail::Word("uncovered"), Detail::Item(item)])
        }
        MeshFault::Wide { side, count } => Notice::new(
            70,
            &[
                Detail::Word("wide"),
                Detail::Number(u64::from(side)),
                Detail::Number(count as u64),
            ],
        ),
        MeshFault::Memory(_) => Notice::bare(70),
    }
}

// A file of pairs that gives no relation.
pub(crate) fn pair_notice(fault: PairFault) -> Notice
    ensures { notice_of result ≡ pair_notice fault }
{
    match fault {
        PairFault::BadLine { row } => Notice::counted(80, "line", row as u64),
        PairFault::UnknownItem { row } => Notice::counted(80, "unknown-item", row as u64),
        PairFault::Cycle { item } => Notice::new(80, &[Detail::Word("cycle"), Detail::Item(item)]),
        PairFault::Memory(_) => Notice::bare(80),
    }
}
