// Commands that read or store files.
ghost use Rattle.std.specs.Prelude.{◌≡◌, All, IfOk, map};
ghost use Rattle.std.specs.Str.{IsAscii};
ghost use Rattle.ls_lines.specs.Forms.{file_parts, file_command, file_spelled_as};
ghost use Rattle.ls_lines.specs.Operands.{filling};

use crate::cut::Cut;
use crate::operand::Operand::{Count, One};
use crate::operand::{Operands, spell_four, spell_one, spell_three, spell_two};
use crate::part::{AFTER, ALL, ANY, COUNT, CURSOR, FILE, MESH, SKILLS, START};
use crate::{Keyword, Part, Word};
use std::alloc::AllocError;

/// A command that reads or stores files, where a domain stands. A page has at most `count` states:
/// the first ones, or those after a cursor.
#[derive(Drop)]
pub enum FileCommand {
    StartSurmise {
        file: Word,
    },
    StartBase {
        file: Word,
    },
    StartRelation {
        file: Word,
    },
    Test {
        file: Word,
    },
    Class {
        file: Word,
    },
    Save {
        file: Word,
    },
    /// A page of the states that a skill map gives where any one skill of an item masters it.
    SkillsAny {
        file: Word,
        count: u32,
        after: Option<Word>,
    },
    /// A page of the states that a skill map gives where all skills of an item are needed.
    SkillsAll {
        file: Word,
        count: u32,
        after: Option<Word>,
    },
    /// A page of the states of the mesh of two spaces.
    Mesh {
        left: Word,
        right: Word,
        count: u32,
        after: Option<Word>,
    },
    /// Whether the two spaces agree on the items of both.
    MeshAgree {
        left: Word,
        right: Word,
    },
}

/// A form of a command that reads or stores files.
#[derive(Clone, Copy)]
pub enum FileForm {
    StartSurmise,
    StartBase,
    StartRelation,
    Test,
    Class,
    Save,
    SkillsAny,
    SkillsAnyAfter,
    SkillsAll,
    SkillsAllAfter,
    Mesh,
    MeshAfter,
    MeshAgree,
}

impl FileForm {
    // The parts of the form's lines.
    pub(crate) fn parts(self) -> &'static [Part]
        ensures { result.now ≡ file_parts self }
    {
        match self {
            Self::StartSurmise => &[START, Part::Fixed(Keyword::Surmise), FILE],
            Self::StartBase => &[START, Part::Fixed(Keyword::Base), FILE],
            Self::StartRelation => &[START, Part::Fixed(Keyword::Relation), FILE],
            Self::Test => &[Part::Fixed(Keyword::Test), FILE],
            Self::Class => &[Part::Fixed(Keyword::Class), FILE],
            Self::Save => &[Part::Fixed(Keyword::Save), FILE],
            Self::SkillsAny => &[SKILLS, ANY, FILE, COUNT],
            Self::SkillsAnyAfter => &[SKILLS, ANY, FILE, COUNT, AFTER, CURSOR],
            Self::SkillsAll => &[SKILLS, ALL, FILE, COUNT],
            Self::SkillsAllAfter => &[SKILLS, ALL, FILE, COUNT, AFTER, CURSOR],
            Self::Mesh => &[MESH, FILE, FILE, COUNT],
            Self::MeshAfter => &[MESH, FILE, FILE, COUNT, AFTER, CURSOR],
            Self::MeshAgree => &[Part::Fixed(Keyword::MeshAgree), FILE, FILE],
        }
    }

    // The command with the words at the parts.
    pub(crate) fn command(self, cut: &Cut) -> Result<FileCommand, AllocError>
        requires { All (λ ws. All IsAscii ws) cut.now }
        ensures { IfOk result (λ c. c ≡ file_command self cut.now) }
    {
        Ok(match self {
            Self::StartSurmise => FileCommand::StartSurmise { file: cut.one(2)? },
            Self::StartBase => FileCommand::StartBase { file: cut.one(2)? },
            Self::StartRelation => FileCommand::StartRelation { file: cut.one(2)? },
            Self::Test => FileCommand::Test { file: cut.one(1)? },
            Self::Class => FileCommand::Class { file: cut.one(1)? },
            Self::Save => FileCommand::Save { file: cut.one(1)? },
            Self::SkillsAny => skills_any(cut.one(2)?, cut.count(3), None),
            Self::SkillsAnyAfter => {
                let (file, cursor) = cut.two(2, 5)?;
                skills_any(file, cut.count(3), Some(cursor))
            }
            Self::SkillsAll => skills_all(cut.one(2)?, cut.count(3), None),
            Self::SkillsAllAfter => {
                let (file, cursor) = cut.two(2, 5)?;
                skills_all(file, cut.count(3), Some(cursor))
            }
            Self::Mesh => {
                let (left, right) = cut.two(1, 2)?;
                mesh(left, right, cut.count(3), None)
            }
            Self::MeshAfter => mesh_after(cut)?,
            Self::MeshAgree => {
                let (left, right) = cut.two(1, 2)?;
                FileCommand::MeshAgree { left, right }
            }
        })
    }
}

impl FileCommand {
    // The form of the command, and what stands at those of its parts that are no fixed words.
    pub(crate) fn spelled_as(&self) -> (FileForm, Operands<'_>)
        ensures { (result.0, map filling result.1.items) ≡ file_spelled_as self.now }
    {
        match self {
            Self::StartSurmise { file } => spell_one(FileForm::StartSurmise, One(file)),
            Self::StartBase { file } => spell_one(FileForm::StartBase, One(file)),
            Self::StartRelation { file } => spell_one(FileForm::StartRelation, One(file)),
            Self::Test { file } => spell_one(FileForm::Test, One(file)),
            Self::Class { file } => spell_one(FileForm::Class, One(file)),
            Self::Save { file } => spell_one(FileForm::Save, One(file)),
            Self::SkillsAny { file, count, after } => match after {
                None => spell_two(FileForm::SkillsAny, One(file), Count(*count)),
                Some(cursor) => spell_three(
                    FileForm::SkillsAnyAfter,
                    One(file),
                    Count(*count),
                    One(cursor),
                ),
            },
            Self::SkillsAll { file, count, after } => match after {
                None => spell_two(FileForm::SkillsAll, One(file), Count(*count)),
                Some(cursor) => spell_three(
                    FileForm::SkillsAllAfter,
                    One(file),
                    Count(*count),
                    One(cursor),
                ),
            },
            Self::Mesh {
                left,
                right,
                count,
                after,
            } => match after {
                None => spell_three(FileForm::Mesh, One(left), One(right), Count(*count)),
                Some(cursor) => spell_four(
                    FileForm::MeshAfter,
                    One(left),
                    One(right),
                    Count(*count),
                    One(cursor),
                ),
            },
            Self::MeshAgree { left, right } => spell_two(
                FileForm::MeshAgree,
                One(left),
                One(right),
            ),
        }
    }
}

// A page of the states by any one skill.
fn skills_any(file: Word, count: u32, after: Option<Word>) -> FileCommand
    ensures { result ≡ FileCommand.SkillsAny file count after }
{
    FileCommand::SkillsAny { file, count, after }
}

// A page of the states by all skills.
fn skills_all(file: Word, count: u32, after: Option<Word>) -> FileCommand
    ensures { result ≡ FileCommand.SkillsAll file count after }
{
    FileCommand::SkillsAll { file, count, after }
}

// A page of the states of a mesh.
fn mesh(left: Word, right: Word, count: u32, after: Option<Word>) -> FileCommand
    ensures { result ≡ FileCommand.Mesh left right count after }
{
    FileCommand::Mesh {
        left,
        right,
        count,
        after,
    }
}

// A page of the states of a mesh, after a cursor.
fn mesh_after(cut: &Cut) -> Result<FileCommand, AllocError>
    requires { All (λ ws. All IsAscii ws) cut.now }
    ensures { IfOk result (λ c. c ≡ file_command FileForm.MeshAfter cut.now) }
{
    let cursor = cut.one(5)?;
    let (left, right) = cut.two(1, 2)?;
    Ok(mesh(left, right, cut.count(3), Some(cursor)))
}
