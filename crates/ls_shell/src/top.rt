// The top call.
ghost use Rattle.std.specs.Prelude.{◌≡◌, ◌≢◌, ◌<◌, ◌≤◌, ◌++◌, [], List, ℕ, Some, None, IfSome};
ghost use Rattle.std.specs.Prelude.{false, true, length, map};
ghost use Rattle.std.specs.FinMap as map;
ghost use Rattle.std.specs.Io.KnownBytes.{Keeps};
ghost use Rattle.ls_edge.specs.Files.{Folder, longest_file};
ghost use Rattle.ls_lines.specs.{Text};
ghost use Rattle.ls_words.specs.Modes.{mode_of};
ghost use Rattle.ls_words.specs.declared.mode.Mode.TheVariants.{File, Drill};
ghost use Rattle.ls_drill.specs.Summaries.{drill_text};
ghost use Rattle.ls_edge.specs.Causes.{Rose};
ghost use Rattle.ls_shell.specs.Runs.{longest_script, IsExtended, AnswersWhole};
ghost use Rattle.ls_shell.specs.Runs.{TakesAndAnswers, TakesAndStops};
ghost use Rattle.ls_shell.specs.Scripts.{TakesFew, AnswersScript, MarksScript};
ghost use Rattle.ls_shell.specs.Scripts.{WritesUsage};
ghost use Rattle.ls_shell.specs.Named.{AnswersNamed, WritesDrill, HasNoScript, IsFile};
ghost use Rattle.ls_shell.specs.Statuses.{input_status};

use crate::Status;
use crate::drilling::drill;
use crate::named::answer_named;
use crate::reading::answer_source;
use crate::run_fault::RunFault;
use ls_edge::{Shelf, Sink, SinkFault, Source, write_whole};
use ls_words::{Mode, WordsFault, read_words};
use std::alloc::Global;
use std::thread::Threads;

// The line that is written where the words of the command line aren't understood.
const USAGE: &str = "usage: lspace [--script NAME | --drill N [--number S]]\n";

// Writes the usage line.
fn usage<K: Sink>(out: &mut K) -> Status
    ensures usage { WritesUsage
        (K.written out.old) (K.written out.new) (K.faults out.old) (K.faults out.new) result }
    ensures kept { IsExtended (K.written out.old) (K.written out.new) }
{
    match write_whole(out, USAGE.as_bytes()) {
        Ok(()) => Status::Usage,
        Err(SinkFault::Failed) => Status::WriteFault,
        Err(SinkFault::Memory(_)) => Status::NoMemory,
    }
}

// The status of a run over the input.
fn status_after(ended: Result<bool, RunFault>) -> Status
    ensures { result ≡ input_status ended }
{
    match ended {
        Ok(false) => Status::Done,
        Ok(true) => Status::Refused,
        Err(RunFault::Long) => Status::InputLong,
        Err(RunFault::Read) => Status::ReadFault,
        Err(RunFault::Write) => Status::WriteFault,
        Err(RunFault::Memory(_)) => Status::NoMemory,
    }
}

/// The program, by the words after its name. Without any it answers the script that the source has;
/// `--script NAME` answers the one that the file of the name has, and `--drill N`, optionally with
/// `--number S`, runs a drill. Other words are answered by the usage line. It says how the run
/// ended.
pub fn lspace<R: Threads + Sync, S: Source, K: Sink, H: Shelf>(
    rt: &R,
    alloc: Global,
    words: &[&str],
    src: &mut S,
    out: &mut K,
    shelf: &mut H,
) -> Status
    // Every script is answered by the transcript that it has over the folder's files, unless memory
    // runs out. It follows from `complete`, where no call on the folder failed.
    ensures headline { words.now ≡ [] → (script : List ℕ) (folder : Folder)
        → S.left src.old ≡ Some script → H.files shelf.old ≡ Some folder
        → TakesFew script (S.left src.new)
        → (Rose (S.faults src.old) (S.faults src.new) → ⊥)
        → (Rose (K.faults out.old) (K.faults out.new) → ⊥)
        → (Rose (H.faults shelf.old) (H.faults shelf.new) → ⊥)
        → AnswersScript folder script (H.files shelf.new)
        (K.written out.old) (K.written out.new) result }
    // The same where calls on the folder may have failed: the lines of those that did are marked,
    // no more than the count of its faults rose.
    ensures complete { words.now ≡ [] → (script : List ℕ) (folder : Folder)
        → S.left src.old ≡ Some script → H.files shelf.old ≡ Some folder
        → TakesFew script (S.left src.new)
        → (Rose (S.faults src.old) (S.faults src.new) → ⊥)
        → (Rose (K.faults out.old) (K.faults out.new) → ⊥)
        → MarksScript folder script (H.files shelf.new) (H.faults shelf.old) (H.faults shelf.new)
        (K.written out.old) (K.written out.new) result }

    // The script of a named file is answered in the same way. It follows from `named_status`, where
    // no call on the folder failed.
    ensures named { (name : Text) → mode_of (map (λ w. w.now) words.now) ≡ Some (File name)
        → (script : List ℕ) (folder : Folder) → H.files shelf.old ≡ Some folder
        → map.get folder name ≡ Some script → length script ≤ longest_file
        → (Rose (K.faults out.old) (K.faults out.new) → ⊥)
        → (Rose (H.faults shelf.old) (H.faults shelf.new) → ⊥)
        → AnswersScript folder script (H.files shelf.new)
        (K.written out.old) (K.written out.new) result }
    // Each status of such a run, by what the folder has under the name: 7 exactly where it has
    // nothing, 5 exactly where the file is longer than one that is read, 3 only where the call
    // failed, but for want of memory. At these nothing is written, and the files stay.
    ensures named_status { (name : Text) → mode_of (map (λ w. w.now) words.now) ≡ Some (File name)
        → (folder : Folder) → H.files shelf.old ≡ Some folder
        → AnswersNamed name folder (H.files shelf.new) (H.faults shelf.old) (H.faults shelf.new)
        (K.written out.old) (K.written out.new) result }
    // The drill's text is written, or a front of it at status 4 and 6.
    ensures drill { (n s : ℕ) → mode_of (map (λ w. w.now) words.now) ≡ Some (Drill n s)
        → WritesDrill (drill_text n s)
        (K.written out.old) (K.written out.new) (K.faults out.old) (K.faults out.new) result }

    // Status 0, and status 1, without words.
    ensures done { result ≡ Status.Done → words.now ≡ [] → (script : List ℕ)
        → S.left src.old ≡ Some script
        → (S.left src.new ≡ Some []) × ((folder : Folder) → H.files shelf.old ≡ Some folder
        → AnswersWhole folder script (H.files shelf.new) (H.faults shelf.old) (H.faults shelf.new)
        (K.written out.old) (K.written out.new) false) }
    ensures refused { result ≡ Status.Refused → words.now ≡ [] → (script : List ℕ)
        → S.left src.old ≡ Some script
        → (S.left src.new ≡ Some []) × ((folder : Folder) → H.files shelf.old ≡ Some folder
        → AnswersWhole folder script (H.files shelf.new) (H.faults shelf.old) (H.faults shelf.new)
        (K.written out.old) (K.written out.new) true) }

    // Status 2: exactly where the words have none of the three forms. Then the usage line is
    // written, or a front of it at status 4 and 6.
    ensures usage { result ≡ Status.Usage → mode_of (map (λ w. w.now) words.now) ≡ None }
    ensures words { mode_of (map (λ w. w.now) words.now) ≡ None → WritesUsage
        (K.written out.old) (K.written out.new) (K.faults out.old) (K.faults out.new) result }
    // With any word no byte is read; without a script the shelf isn't touched.
    ensures unread { words.now ≢ [] → (S.left src.new ≡ S.left src.old)
        × (S.faults src.new ≡ S.faults src.old) }
    ensures untouched { HasNoScript (mode_of (map (λ w. w.now) words.now))
        → shelf.new ≡ shelf.old }

    // Status 3. Without words: the lines that ended within the bytes that were taken are answered,
    // and no others. With words: nothing is written.
    ensures read_fault { result ≡ Status.ReadFault → words.now ≡ []
        → Rose (S.faults src.old) (S.faults src.new)
        × TakesAndAnswers 0 (S.left src.old) (S.left src.new)
        (H.files shelf.old) (H.files shelf.new) (H.faults shelf.old) (H.faults shelf.new)
        (K.written out.old) (K.written out.new) }
    ensures fetch_fault { result ≡ Status.ReadFault → words.now ≢ []
        → Rose (H.faults shelf.old) (H.faults shelf.new)
        × Keeps (K.written out.old) (K.written out.new) }

    // Status 4, and status 6: without words the run stopped before one of its lines. Where a write
    // failed, the files are those after that line.
    ensures write_fault { result ≡ Status.WriteFault → Rose (K.faults out.old) (K.faults out.new) }
    ensures write_stops { result ≡ Status.WriteFault → words.now ≡ []
        → TakesAndStops (result ≡ Status.WriteFault) (S.left src.old) (S.left src.new)
        (H.files shelf.old) (H.files shelf.new) (H.faults shelf.old) (H.faults shelf.new)
        (K.written out.old) (K.written out.new) }
    ensures memory { result ≡ Status.NoMemory → words.now ≡ []
        → TakesAndStops (result ≡ Status.WriteFault) (S.left src.old) (S.left src.new)
        (H.files shelf.old) (H.files shelf.new) (H.faults shelf.old) (H.faults shelf.new)
        (K.written out.old) (K.written out.new) }

    // Status 5, without words: exactly where more bytes were taken than a script has; that is one
    // byte more, and the lines that ended before it are answered.
    ensures long { result ≡ Status.InputLong → words.now ≡ []
        → TakesAndAnswers 1 (S.left src.old) (S.left src.new)
        (H.files shelf.old) (H.files shelf.new) (H.faults shelf.old) (H.faults shelf.new)
        (K.written out.old) (K.written out.new) }
    ensures too_long { (taken rest : List ℕ)
        → S.left src.old ≡ Some (taken ++ rest) → S.left src.new ≡ Some rest
        → longest_script < length taken → result ≡ Status.InputLong }

    // Status 7: only where a script is named. What was written stays.
    ensures no_script { result ≡ Status.NoScript
        → IfSome (mode_of (map (λ w. w.now) words.now)) IsFile }
    ensures kept { IsExtended (K.written out.old) (K.written out.new) }
{
    match read_words(alloc, words) {
        Ok(Mode::Input) => status_after(answer_source(rt, alloc, src, out, shelf)),
        Ok(Mode::File { name }) => answer_named(rt, alloc, &name, out, shelf),
        Ok(Mode::Drill { n, number }) => drill(alloc, n, number, out),
        Err(WordsFault::Usage) => usage(out),
        Err(WordsFault::Memory(_)) => Status::NoMemory,
    }
}
