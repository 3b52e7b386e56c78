// The forms of commands.
ghost use Rattle.std.specs.Prelude.{◌≡◌, All, IfOk};
ghost use Rattle.ls_lines.specs.Reading.{forms_from};
ghost use Rattle.std.specs.Str.{IsAscii};

use crate::cut::Cut;
use crate::{
    Command, EditForm, FileForm, OpeningForm, Part, PupilForm, SafeForm, SettingForm, ViewForm,
};
use std::alloc::AllocError;

/// The forms of commands, by their topics.
#[derive(Clone, Copy)]
pub enum Form {
    Nothing,
    Opening(OpeningForm),
    File(FileForm),
    Edit(EditForm),
    View(ViewForm),
    Safe(SafeForm),
    Setting(SettingForm),
    Pupil(PupilForm),
}

impl Form {
    ghost use Rattle.ls_lines.specs.Forms.{parts, command};

    /// The parts of the form's lines, in order.
    #[tactic(auto, unfolding(crate::specs::Forms::parts))]
    pub fn parts(self) -> &'static [Part]
        ensures { result.now ≡ parts self }
    {
        match self {
            Form::Nothing => &[],
            Form::Opening(form) => form.parts(),
            Form::File(form) => form.parts(),
            Form::Edit(form) => form.parts(),
            Form::View(form) => form.parts(),
            Form::Safe(form) => form.parts(),
            Form::Setting(form) => form.parts(),
            Form::Pupil(form) => form.parts(),
        }
    }

    // The command with the words at the parts; a part or a word that is not there is empty.
    #[tactic(auto, unfolding(crate::specs::Forms::command))]
    pub(crate) fn command(self, cut: &Cut) -> Result<Command, AllocError>
        requires { All (λ ws. All IsAscii ws) cut.now }
        ensures { IfOk result (λ c. c ≡ command self cut.now) }
    {
        Ok(match self {
            Form::Nothing => Command::Nothing,
            Form::Opening(form) => Command::Opening(form.command(cut)?),
            Form::File(form) => Command::File(form.command(cut)?),
            Form::Edit(form) => Command::Edit(form.command(cut)?),
            Form::View(form) => Command::View(form.command(cut)?),
            Form::Safe(form) => Command::Safe(form.command(cut)?),
            Form::Setting(form) => Command::Setting(form.command(cut)?),
            Form::Pupil(form) => Command::Pupil(form.command(cut)?),
        })
    }

    // The forms of the lines that may begin with a word of this first byte.
    #[tactic(auto, unfolding(crate::specs::forms, crate::specs::parts, crate::specs::spelling))]
    pub(crate) fn with_initial(byte: u8) -> &'static [Form]
        ensures { result.now ≡ forms_from byte }
    {
        match byte {
            b'a' => &[Form::View(ViewForm::Ask)],
            b'b' => &[Form::Edit(EditForm::Blocks), Form::View(ViewForm::Base)],
            b'c' => &[Form::File(FileForm::Class), Form::Pupil(PupilForm::Close)],
            b'f' => &[Form::View(ViewForm::Fringes)],
            b'i' => &[Form::Opening(OpeningForm::Items)],
            b'k' => &[Form::View(ViewForm::Known)],
            b'l' => &[
                Form::Opening(OpeningForm::LoadItems),
                Form::View(ViewForm::Learning),
                Form::Setting(SettingForm::Limits),
            ],
            b'm' => &[
                Form::File(FileForm::Mesh),
                Form::File(FileForm::MeshAfter),
                Form::File(FileForm::MeshAgree),
            ],
            b'n' => &[Form::Edit(EditForm::No)],
            b'o' => &[
                Form::Opening(OpeningForm::Reopen),
                Form::Setting(SettingForm::OddsAll),
                Form::Setting(SettingForm::OddsItem),
            ],
            b'p' => &[
                Form::View(ViewForm::Project),
                Form::View(ViewForm::ProjectAfter),
                Form::View(ViewForm::ProjectBase),
                Form::View(ViewForm::Paths),
                Form::View(ViewForm::PathsAfter),
                Form::Pupil(PupilForm::Pupil),
            ],
            b'q' => &[Form::Pupil(PupilForm::Question)],
            b'r' => &[
                Form::Edit(EditForm::Retract),
                Form::View(ViewForm::Relation),
                Form::Setting(SettingForm::RatioAll),
                Form::Setting(SettingForm::RatioItem),
                Form::Pupil(PupilForm::Reply),
                Form::Pupil(PupilForm::Report),
            ],
            b's' => Self::with_s(),
            b't' => &[Form::File(FileForm::Test)],
            b'y' => &[Form::Edit(EditForm::Yes)],
            _ => &[],
        }
    }

    // The forms of the lines that may begin with a word of the first byte `s`, which is 115.
    #[tactic(auto, unfolding(crate::specs::forms, crate::specs::parts, crate::specs::spelling))]
    fn with_s() -> &'static [Form]
        ensures { result.now ≡ forms_from 115 }
    {
        &[
            Form::File(FileForm::StartSurmise),
            Form::File(FileForm::StartBase),
            Form::File(FileForm::StartRelation),
            Form::File(FileForm::Save),
            Form::File(FileForm::SkillsAny),
            Form::File(FileForm::SkillsAnyAfter),
            Form::File(FileForm::SkillsAll),
            Form::File(FileForm::SkillsAllAfter),
            Form::View(ViewForm::States),
            Form::View(ViewForm::StatesUpTo),
            Form::View(ViewForm::StatesAfter),
            Form::View(ViewForm::Surmise),
            Form::View(ViewForm::StateOf),
            Form::View(ViewForm::SkillMap),
            Form::Safe(SafeForm::Open),
            Form::Safe(SafeForm::Answer),
            Form::Safe(SafeForm::List),
            Form::Safe(SafeForm::States),
            Form::Safe(SafeForm::StatesAfter),
            Form::Safe(SafeForm::Close),
        ]
    }
}
