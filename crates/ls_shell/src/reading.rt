// Reading a script and answering it as it comes.
ghost use Rattle.std.specs.Prelude.{◌≤◌};
ghost use Rattle.ls_shell.specs.Progress.{IsFresh};
ghost use Rattle.ls_shell.specs.Runs.{TakesScript};

use crate::run::Run;
use crate::run_fault::RunFault;
use ls_edge::{Failed, Shelf, Sink, Source};
use std::alloc::Global;
use std::thread::Threads;

// The most bytes that a script has.
const LONGEST_SCRIPT: usize = 67_108_864;

// How many bytes are asked for at most.
const PIECE: usize = 4096;

/// Reads the script that a source has, and answers its lines as they come. Says whether some reply
/// begins with `no `.
pub fn answer_source<R: Threads + Sync, S: Source, K: Sink, H: Shelf>(
    rt: &R,
    alloc: Global,
    src: &mut S,
    out: &mut K,
    shelf: &mut H,
) -> Result<bool, RunFault>
    ensures { TakesScript (S.left src.old) (S.left src.new) (S.faults src.old) (S.faults src.new)
        (H.files shelf.old) (H.files shelf.new) (H.faults shelf.old) (H.faults shelf.new)
        (K.written out.old) (K.written out.new) (K.faults out.old) (K.faults out.new) result }
{
    let mut run = Run::new(alloc)?;
    let ended = answer_pieces(rt, &mut run, src, out, shelf);

    run.let_go();
    ended
}

// Does so by a run that has answered nothing. The lines that have ended are answered before the
// next read. A read offers room for as many bytes as a script may still have, or for one byte where
// it has as many as it may.
fn answer_pieces<R: Threads + Sync, S: Source, K: Sink, H: Shelf>(
    rt: &R,
    run: &mut Run,
    src: &mut S,
    out: &mut K,
    shelf: &mut H,
) -> Result<bool, RunFault>
    requires { IsFresh run.old }
    ensures takes { TakesScript
        (S.left src.old) (S.left src.new) (S.faults src.old) (S.faults src.new)
        (H.files shelf.old) (H.files shelf.new) (H.faults shelf.old) (H.faults shelf.new)
        (K.written out.old) (K.written out.new) (K.faults out.old) (K.faults out.new) result }

    // No count falls.
    ensures source_later { S.faults src.old ≤ S.faults src.new }
    ensures sink_later { K.faults out.old ≤ K.faults out.new }
    ensures shelf_later { H.faults shelf.old ≤ H.faults shelf.new }
{
    let mut piece = [0u8; PIECE];
    let mut count = 0;
    'pieces: loop {
        let offered = PIECE.min(LONGEST_SCRIPT - count).max(1);
        let taken = match src.read(&mut piece[..offered]) {
            Ok(taken) => taken,
            Err(Failed) => return Err(RunFault::Read),
        };
        if taken == 0 {
            return Ok(run.finish(rt, out, shelf)?);
        }
        count += taken;
        if count > LONGEST_SCRIPT {
            return Err(RunFault::Long);
        }
        run.take(rt, &piece[..taken], out, shelf)?;
    }
}
