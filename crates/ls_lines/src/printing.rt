// Printing commands by the table of forms.
ghost use Rattle.std.specs.Prelude.{◌≡◌, IfOk, map, flat_map};
ghost use Rattle.ls_cutting.specs.Lines.{words_joined};
ghost use Rattle.ls_lines.specs.Printing.{laid_out, spelled};
ghost use Rattle.ls_lines.specs.Operands.{shown, with_spaces};

use crate::operand::{Operand, push_word};
use crate::{Command, Part};
use std::alloc::{AllocError, Global};

/// The line that the command is: the words of its form, joined by single spaces.
pub fn print_command(alloc: Global, command: &Command) -> Result<Vec<u8>, AllocError>
    ensures { IfOk result (λ line. line.items ≡ words_joined (spelled command.now)) }
{
    let (form, operands) = command.spelled_as();
    let mut text = spaced(alloc, form.parts(), operands.as_slice())?;
    let _ = text.pop();
    Ok(text)
}

// The words at the parts, each with a space behind it.
fn spaced(alloc: Global, form: &[Part], operands: &[Operand]) -> Result<Vec<u8>, AllocError>
    ensures { IfOk result (λ text. text.items ≡
        with_spaces (flat_map (λ ws. ws) (laid_out form.now (map shown operands.now)))) }
{
    let mut text = Vec::new(alloc);
    let mut left = operands;
    for part in form {
        match (part, left) {
            (Part::Fixed(keyword), _) => push_word(&mut text, keyword.text())?,
            (_, [operand, rest @ ..]) => {
                operand.push_to(alloc, &mut text)?;
                left = rest;
            }
            (_, []) => {}
        }
    }
    Ok(text)
}
