// Answering the script of a named file.
ghost use Rattle.std.specs.Prelude.{◌≡◌, ◌≢◌, ◌<◌, ◌≤◌, ◌^◌, length, Some, IfOk, OnErr, IsErrOf};
ghost use Rattle.std.specs.Io.KnownBytes.{Keeps};
ghost use Rattle.ls_edge.specs.Causes.{Rose};
ghost use Rattle.ls_edge.specs.Files.{Folder, FolderStays};
ghost use Rattle.ls_lines.specs.{lines};
ghost use Rattle.ls_shell.specs.Progress.{IsFresh, StopsAt};
ghost use Rattle.ls_shell.specs.Runs.{IsExtended, AnswersWhole};
ghost use Rattle.ls_shell.specs.Named.{AnswersNamed};
ghost use Rattle.ls_shell.specs.Statuses.{whole_status, unread_status};
ghost use Rattle.ls_session.specs.Follows.{MovesSink};

use crate::Status;
use crate::run::Run;
use ls_edge::{FetchFault, Shelf, Sink};
use ls_lines::Word;
use ls_session::StepFault;
use std::alloc::Global;
use std::thread::Threads;

// The status of a run over a script that was there whole.
fn status_after(ended: Result<bool, StepFault>) -> Status
    ensures { result ≡ whole_status ended }
{
    match ended {
        Ok(false) => Status::Done,
        Ok(true) => Status::Refused,
        Err(StepFault::Write) => Status::WriteFault,
        Err(StepFault::Memory(_)) => Status::NoMemory,
    }
}

// The status where the script was not fetched.
fn status_unread(fault: FetchFault) -> Status
    ensures { result ≡ unread_status fault }
{
    match fault {
        FetchFault::Missing => Status::NoScript,
        FetchFault::TooLarge { .. } => Status::InputLong,
        FetchFault::Failed => Status::ReadFault,
        FetchFault::Memory(_) => Status::NoMemory,
    }
}

/// Answers the script that the file of the name has. Where there is none, it is too long or could
/// not be fetched, nothing is written.
pub fn answer_named<R: Threads + Sync, K: Sink, H: Shelf>(
    rt: &R,
    alloc: Global,
    name: &Word,
    out: &mut K,
    shelf: &mut H,
) -> Status
    ensures named { (folder : Folder) → H.files shelf.old ≡ Some folder
        → AnswersNamed name.now folder (H.files shelf.new)
        (H.faults shelf.old) (H.faults shelf.new) (K.written out.old) (K.written out.new) result }

    // Status 3, 5 and 7: nothing is written, and the files are as they were.
    ensures read_fault { result ≡ Status.ReadFault
        → Rose (H.faults shelf.old) (H.faults shelf.new) }
    ensures unread { (result ≡ Status.Done → ⊥) → (result ≡ Status.Refused → ⊥)
        → (result ≡ Status.WriteFault → ⊥) → (result ≡ Status.NoMemory → ⊥)
        → Keeps (K.written out.old) (K.written out.new)
        × FolderStays (H.files shelf.old) (H.files shelf.new) }

    ensures write_fault { result ≡ Status.WriteFault → Rose (K.faults out.old) (K.faults out.new) }
    ensures understood { result ≢ Status.Usage }
    ensures kept { IsExtended (K.written out.old) (K.written out.new) }
{
    match shelf.fetch(name.as_str()) {
        Ok(script) => status_after(answer_whole(rt, alloc, &script, out, shelf)),
        Err(fault) => status_unread(fault),
    }
}

// Answers a script that is there whole, and says whether some reply begins with `no `.
fn answer_whole<R: Threads + Sync, K: Sink, H: Shelf>(
    rt: &R,
    alloc: Global,
    script: &[u8],
    out: &mut K,
    shelf: &mut H,
) -> Result<bool, StepFault>
    requires { length script.now < 2 ^ 64 }
    ensures answered { IfOk result (λ b. (m : Folder) → H.files shelf.old ≡ Some m
        → AnswersWhole m script.now (H.files shelf.new) (H.faults shelf.old) (H.faults shelf.new)
        (K.written out.old) (K.written out.new) b) }
    ensures stopped { OnErr result ((m : Folder) → H.files shelf.old ≡ Some m
        → StopsAt (IsErrOf result StepFault.Write) m (lines script.now)
        (H.files shelf.new) (H.faults shelf.old) (H.faults shelf.new)
        (K.written out.old) (K.written out.new)) }
    ensures sink { MovesSink StepFault.Write
        (K.written out.old) (K.written out.new) (K.faults out.old) (K.faults out.new) result }
    ensures later { H.faults shelf.old ≤ H.faults shelf.new }
{
    let mut run = Run::new(alloc)?;
    let ended = answer_by(rt, &mut run, script, out, shelf);

    run.let_go();
    ended
}

// Does so by a run that has answered nothing.
fn answer_by<R: Threads + Sync, K: Sink, H: Shelf>(
    rt: &R,
    run: &mut Run,
    script: &[u8],
    out: &mut K,
    shelf: &mut H,
) -> Result<bool, StepFault>
    requires fresh { IsFresh run.old }
    requires short { length script.now < 2 ^ 64 }
    ensures answered { IfOk result (λ b. (m : Folder) → H.files shelf.old ≡ Some m
        → AnswersWhole m script.now (H.files shelf.new) (H.faults shelf.old) (H.faults shelf.new)
        (K.written out.old) (K.written out.new) b) }
    ensures stopped { OnErr result ((m : Folder) → H.files shelf.old ≡ Some m
        → StopsAt (IsErrOf result StepFault.Write) m (lines script.now)
        (H.files shelf.new) (H.faults shelf.old) (H.faults shelf.new)
        (K.written out.old) (K.written out.new)) }
    ensures sink { MovesSink StepFault.Write
        (K.written out.old) (K.written out.new) (K.faults out.old) (K.faults out.new) result }
    ensures later { H.faults shelf.old ≤ H.faults shelf.new }
{
    run.take(rt, script, out, shelf)?;
    run.finish(rt, out, shelf)
}
