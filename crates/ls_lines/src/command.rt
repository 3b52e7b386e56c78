// Commands.
ghost use Rattle.std.specs.Prelude.{◌≡◌, map};
ghost use Rattle.ls_lines.specs.Forms.{spelled_as};
ghost use Rattle.ls_lines.specs.Operands.{filling};

use crate::operand::{Operands, spell_none};
use crate::{
    EditCommand, FileCommand, Form, OpeningCommand, PupilCommand, SafeCommand, SettingCommand,
    ViewCommand,
};

/// A command with its words, by its topic.
#[derive(Drop)]
pub enum Command {
    /// An empty line or a note.
    Nothing,
    Opening(OpeningCommand),
    File(FileCommand),
    Edit(EditCommand),
    View(ViewCommand),
    Safe(SafeCommand),
    Setting(SettingCommand),
    Pupil(PupilCommand),
}

impl Command {
    // The form by which the command is printed, and what stands at those of its parts that are no
    // fixed words.
    #[tactic(auto, unfolding(crate::specs::Forms::spelled_as))]
    pub(crate) fn spelled_as(&self) -> (Form, Operands<'_>)
        ensures { (result.0, map filling result.1.items) ≡ spelled_as self.now }
    {
        match self {
            Command::Nothing => spell_none(Form::Nothing),
            Command::Opening(command) => {
                let (form, operands) = command.spelled_as();
                (Form::Opening(form), operands)
            }
            Command::File(command) => {
                let (form, operands) = command.spelled_as();
                (Form::File(form), operands)
            }
            Command::Edit(command) => {
                let (form, operands) = command.spelled_as();
                (Form::Edit(form), operands)
            }
            Command::View(command) => {
                let (form, operands) = command.spelled_as();
                (Form::View(form), operands)
            }
            Command::Safe(command) => {
                let (form, operands) = command.spelled_as();
                (Form::Safe(form), operands)
            }
            Command::Setting(command) => {
                let (form, operands) = command.spelled_as();
                (Form::Setting(form), operands)
            }
            Command::Pupil(command) => {
                let (form, operands) = command.spelled_as();
                (Form::Pupil(form), operands)
            }
        }
    }
}
