// A run over a script as it comes.
ghost use Rattle.std.specs.Prelude.{◌≡◌, ◌<◌, ◌≤◌, ◌^◌, ◌++◌, List, ℕ, [], length, Some};
ghost use Rattle.std.specs.Prelude.{IfOk, OnOk, OnErr, IsErrOf};
ghost use Rattle.std.specs.declared.option.Option.{Option};
ghost use Rattle.ls_edge.specs.Files.{Folder};
ghost use Rattle.ls_lines.specs.{ended_of, kept, lines};
ghost use Rattle.ls_meaning.specs.{line_effect};
ghost use Rattle.ls_session.specs.Follows.{Follows, MovesSink};
ghost use Rattle.ls_state.specs.Decides.{shelf_state};

use ls_edge::{Shelf, Sink};
use ls_lines::{Cutter, Ended};
use ls_session::{Session, StepFault};
use std::alloc::{AllocError, Global};
use std::thread::Threads;

/// A run over a script as it comes: the session, the line that has not ended yet, and whether some
/// reply so far begins with `no `. It is let go by `let_go` alone.
pub struct Run {
    session: Session,
    cutter: Cutter,
    is_refused: bool,
}

impl Run {
    ghost use Rattle.ls_shell.specs.Progress.{Answers, IsFresh, StopsAt, AnswersLine};
    ghost use Rattle.ls_shell.specs.Runs.{AnswersWhole};

    /// Nothing was read yet.
    pub fn new(alloc: Global) -> Result<Run, AllocError>
        ensures { IfOk result IsFresh }
    {
        let cutter = Cutter::new(alloc)?;
        Ok(Run {
            session: Session::new(alloc),
            cutter,
            is_refused: false,
        })
    }

    /// Lets the run go.
    pub fn let_go(self) {
        let Run {
            session,
            cutter,
            is_refused: _,
        } = self;
        session.let_go();
        drop(cutter);
    }

    /// Answers the lines that end within the bytes that follow. After an `Err` the run stopped
    /// before one of them, whatever bytes would still have come, and isn't used again.
    pub fn take<R: Threads + Sync, K: Sink, H: Shelf>(
        &mut self,
        rt: &R,
        piece: &[u8],
        out: &mut K,
        shelf: &mut H,
    ) -> Result<(), StepFault>
        ensures answered { OnOk result (
            (m : Folder) (taken : List ℕ) (faults : ℕ) (start : Option (List ℕ))
            → length (taken ++ piece.now) < 2 ^ 64
            → Answers m (lines taken) [] self.old
            (H.files shelf.old) faults (H.faults shelf.old) start (K.written out.old)
            → Answers m (lines (taken ++ piece.now)) [] self.new
            (H.files shelf.new) faults (H.faults shelf.new) start (K.written out.new)) }
        ensures stopped { OnErr result (
            (m : Folder) (taken more : List ℕ) (faults : ℕ) (start : Option (List ℕ))
            → length (taken ++ piece.now) < 2 ^ 64
            → Answers m (lines taken) [] self.old
            (H.files shelf.old) faults (H.faults shelf.old) start (K.written out.old)
            → StopsAt (IsErrOf result StepFault.Write) m (lines ((taken ++ piece.now) ++ more))
            (H.files shelf.new) faults (H.faults shelf.new) start (K.written out.new)) }
        ensures sink { MovesSink StepFault.Write
            (K.written out.old) (K.written out.new) (K.faults out.old) (K.faults out.new) result }
        ensures later { H.faults shelf.old ≤ H.faults shelf.new }
    {
        let mut rest = piece;
        while !rest.is_empty() {
            let (count, ended) = self.cutter.take(rest);
            let Some(ended) = ended else {
                return Ok(());
            };
            (_, rest) = rest.split_at(count);
            self.answer(rt, ended, out, shelf)?;
        }
        Ok(())
    }

    /// Answers the last line, where it has no line end, and says whether some reply begins with
    /// `no `. After an `Err` the run stopped before that line. The run isn't used again.
    pub fn finish<R: Threads + Sync, K: Sink, H: Shelf>(
        &mut self,
        rt: &R,
        out: &mut K,
        shelf: &mut H,
    ) -> Result<bool, StepFault>
        ensures answered { IfOk result (λ b.
            (m : Folder) (script : List ℕ) (faults : ℕ) (start : Option (List ℕ))
            → length script < 2 ^ 64
            → Answers m (lines script) [] self.old
            (H.files shelf.old) faults (H.faults shelf.old) start (K.written out.old)
            → AnswersWhole m script
            (H.files shelf.new) faults (H.faults shelf.new) start (K.written out.new) b) }
        ensures stopped { OnErr result (
            (m : Folder) (script : List ℕ) (faults : ℕ) (start : Option (List ℕ))
            → length script < 2 ^ 64
            → Answers m (lines script) [] self.old
            (H.files shelf.old) faults (H.faults shelf.old) start (K.written out.old)
            → StopsAt (IsErrOf result StepFault.Write) m (lines script)
            (H.files shelf.new) faults (H.faults shelf.new) start (K.written out.new)) }
        ensures sink { MovesSink StepFault.Write
            (K.written out.old) (K.written out.new) (K.faults out.old) (K.faults out.new) result }
        ensures later { H.faults shelf.old ≤ H.faults shelf.new }
    {
        let Some(ended) = self.cutter.finish() else {
            return Ok(self.is_refused);
        };
        self.answer(rt, ended, out, shelf)?;
        Ok(self.is_refused)
    }

    // Answers the line that ended.
    fn answer<R: Threads + Sync, K: Sink, H: Shelf>(
        &mut self,
        rt: &R,
        ended: Ended,
        out: &mut K,
        shelf: &mut H,
    ) -> Result<(), StepFault>
        ensures answered { (line : List ℕ)
            → ended ≡ ended_of line → self.old.cutter.line ≡ kept line
            → (m : Folder) → H.files shelf.old ≡ Some m
            → AnswersLine StepFault.Write m line self.old self.new
            (H.files shelf.new) (H.faults shelf.old) (H.faults shelf.new)
            (K.written out.old) (K.written out.new) result }
        ensures sink { MovesSink StepFault.Write
            (K.written out.old) (K.written out.new) (K.faults out.old) (K.faults out.new) result }
        ensures later { H.faults shelf.old ≤ H.faults shelf.new }
    {
        let is_refusal = self.step(rt, ended, out, shelf)?;
        self.is_refused |= is_refusal;
        Ok(())
    }

    // Answers the line that ended, and says whether the reply begins with `no `.
    fn step<R: Threads + Sync, K: Sink, H: Shelf>(
        &mut self,
        rt: &R,
        ended: Ended,
        out: &mut K,
        shelf: &mut H,
    ) -> Result<bool, StepFault>
        ensures answered { (line : List ℕ)
            → ended ≡ ended_of line → self.old.cutter.line ≡ kept line
            → Follows StepFault.Write (λ calls. line_effect self.old.session calls line)
            self.old.session self.new.session
            (shelf_state H.Shelf shelf.old) (shelf_state H.Shelf shelf.new)
            (K.written out.old) (K.written out.new) (K.faults out.old) (K.faults out.new) result }
        ensures cutter { self.new.cutter ≡ self.old.cutter }
        ensures before { self.new.is_refused ≡ self.old.is_refused }
        ensures sink { MovesSink StepFault.Write
            (K.written out.old) (K.written out.new) (K.faults out.old) (K.faults out.new) result }
        ensures later { H.faults shelf.old ≤ H.faults shelf.new }
    {
        match ended {
            Ended::Whole => self.session.step(rt, self.cutter.line(), out, shelf),
            Ended::Long { bytes } => self.session.refuse_long(bytes, out),
        }
    }
}
