//! The commands that the lines of a script are.
#![tactic(auto)]

mod command;
mod cut;
mod edit;
mod file;
mod form;
mod keyword;
mod laws;
mod line_fault;
mod opening;
mod operand;
mod part;
mod printing;
mod pupil;
mod reading;
mod safe;
mod setting;
mod view;

pub use command::Command;
pub use edit::{EditCommand, EditForm};
pub use file::{FileCommand, FileForm};
pub use form::Form;
pub use keyword::Keyword;
pub use laws::{commands_read_back, counts_are_bounded, forms_are_exact, forms_are_told_apart};
pub use line_fault::LineFault;
pub use ls_cutting::{
    Cutter, Ended, GREATEST_NUMBER, Kind, LONGEST_LINE, MOST_COUNTED, Word, WordList, is_note,
    lines_go_on,
};
pub use opening::{OpeningCommand, OpeningForm};
pub use part::Part;
pub use printing::print_command;
pub use pupil::{PupilCommand, PupilForm};
pub use reading::read_command;
pub use safe::{SafeCommand, SafeForm};
pub use setting::{SettingCommand, SettingForm};
pub use view::{ViewCommand, ViewForm};
