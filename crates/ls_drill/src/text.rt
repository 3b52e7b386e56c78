// The text of what a drill came to.
ghost use Rattle.std.specs.Prelude.{◌≡◌, ◌++◌, string_bytes, OnOk, IfOk};
ghost use Rattle.ls_drill.specs.Summaries.{replies_line, states_line, summary_text};

use crate::summary::{MOST_STATES, Summary};
use std::alloc::{AllocError, Global};
use std::fmt::Write;

// Adds a line of a number of queries and of their answers.
fn put_replies(text: &mut String, name: &str, all: u32, yes: u32, no: u32) -> Result<(), AllocError>
    ensures { OnOk result (string_bytes text.new
        ≡ string_bytes text.old ++ replies_line name.now all yes no) }
{
    writeln!(text, "{name} {all} yes {yes} no {no}")
}

// Adds a line of the number of states.
fn put_states(text: &mut String, states: Option<u32>) -> Result<(), AllocError>
    ensures { OnOk result (string_bytes text.new
        ≡ string_bytes text.old ++ states_line states) }
{
    match states {
        Some(count) => writeln!(text, "states {count}"),
        None => writeln!(text, "states over {MOST_STATES}"),
    }
}

/// The six lines that tell what a drill came to.
pub fn print_summary(alloc: Global, x: &Summary) -> Result<Vec<u8>, AllocError>
    ensures { IfOk result (λ v. v.items ≡ summary_text x.now) }
{
    let mut text = String::new(alloc);
    writeln!(text, "drill {} number {}", x.n, x.number)?;
    put_replies(&mut text, "asked", x.asked, x.asked_yes, x.asked_no)?;
    put_replies(&mut text, "filled", x.filled, x.filled_yes, x.filled_no)?;
    writeln!(text, "base {}", x.base)?;
    writeln!(text, "learning {}", if x.learning { "yes" } else { "no" })?;
    put_states(&mut text, x.states)?;
    Ok(text.into_bytes())
}
