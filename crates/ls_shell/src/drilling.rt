// Running the drill.
ghost use Rattle.std.specs.Prelude.{◌≡◌, ◌<◌, ◌≤◌, IfOk};
ghost use Rattle.ls_lines.specs.{greatest_number};
ghost use Rattle.ls_drill.specs.Summaries.{drill_text};
ghost use Rattle.ls_drill.specs.HiddenOrders.{most_drilled};
ghost use Rattle.ls_shell.specs.Runs.{IsExtended};
ghost use Rattle.ls_shell.specs.Named.{WritesDrill};

use crate::Status;
use ls_drill::{print_summary, run_drill};
use ls_edge::{Sink, SinkFault, write_whole};
use ls_interior::Steps;
use std::alloc::{AllocError, Global};
use std::marker::Brand;
use std::sync::ledger::{Blank, Ledger};

/// Runs the drill on `n` items with a number, and writes what came of it.
pub fn drill<K: Sink>(alloc: Global, n: u32, number: u64, out: &mut K) -> Status
    requires some { 0 < n }
    requires few { n ≤ most_drilled }
    requires number { number ≤ greatest_number }
    ensures writes { WritesDrill (drill_text n number)
        (K.written out.old) (K.written out.new) (K.faults out.old) (K.faults out.new) result }
    ensures kept { IsExtended (K.written out.old) (K.written out.new) }
{
    let Ok(text) = text_of::<Brand>(alloc, n, number, Blank::new(1)) else {
        return Status::NoMemory;
    };
    match write_whole(out, &text) {
        Ok(()) => Status::Done,
        Err(SinkFault::Failed) => Status::WriteFault,
        Err(SinkFault::Memory(_)) => Status::NoMemory,
    }
}

// The text of the drill. Its interiors are counted from the blank on.
fn text_of<L: Ledger>(
    alloc: Global,
    n: u32,
    number: u64,
    blank: Blank,
) -> Result<Vec<u8>, AllocError>
    requires some { 0 < n }
    requires few { n ≤ most_drilled }
    requires number { number ≤ greatest_number }
    requires name { blank.name ≡ L.name }
    requires parts { blank.parts ≡ L.parts }
    requires one { blank.parts ≡ 1 }
    ensures { IfOk result (λ v. v.items ≡ drill_text n number) }
{
    let mut steps = Steps::<L>::new(blank);
    let summary = run_drill(alloc, n, number, &mut steps)?;
    print_summary(alloc, &summary)
}
