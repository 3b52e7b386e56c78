// A session.
ghost use Rattle.std.specs.Prelude.{◌≡◌, true, List, ℕ, [], length, IfOk};
ghost use Rattle.ls_lines.specs.{is_long};
ghost use Rattle.ls_meaning.specs.{Calls, Session as State, answers, line_effect, started};
ghost use Rattle.ls_meaning.specs.declared.response.Response.TheVariants.{Silence};
ghost use Rattle.ls_room.specs.Rooms.{Ends, no_reply};
ghost use Rattle.ls_session.specs.Follows.{Follows, MovesSink};
ghost use Rattle.ls_state.specs.Decides.{ShelfState, shelf_state};

use crate::StepFault;
use crate::decider::Decider;
use ls_edge::{Shelf, Sink, SinkFault};
use ls_interior::Steps;
use ls_lines::{LONGEST_LINE, is_note};
use ls_meaning::Refusal;
use ls_write::{Room, put_refusal};
use std::alloc::{AllocError, Global};
use std::marker::{Brand, Model};
use std::sync::ledger::{Blank, Ledger};
use std::thread::Threads;

/// A session: the domain with its interview, if one stands. It has one room for its replies, which
/// it takes at the first line that is no note.
#[derive(Drop)]
pub struct Session {
    alloc: Global,
    decider: Decider,
    room: Option<Room>,
}

// Whether the line is a note that is not too long: nothing is done then, and nothing said.
fn is_passed(line: &[u8]) -> bool
    ensures { result ≡ true → (s : State) → (calls : Calls)
        → line_effect s calls line.now ≡ answers s Silence }
{
    line.len() <= LONGEST_LINE && is_note(line)
}

impl Model for Session {
    ghost use Rattle.ls_meaning.specs.{Session as State};
    ghost use Rattle.ls_state.specs.Standing.{standing_session, IsIdle};

    ghost Value = { State };

    ghost view = { λ s. standing_session s.decider.state };

    ghost invariant = { λ s. IsIdle s.room };
}

impl Session {
    /// No domain, and no answers.
    pub fn new(alloc: Global) -> Session
        ensures { result ≡ started [] }
    {
        Session {
            alloc,
            decider: Decider::new(alloc),
            room: None,
        }
    }

    /// Answers one line: decides what it does, and then writes its reply. Says whether that begins
    /// with `no `. After an `Err` the session is as before the line, where deciding failed, and as
    /// after it, where writing did; it isn't used again.
    pub fn step<R: Threads + Sync, K: Sink, H: Shelf>(
        &mut self,
        rt: &R,
        line: &[u8],
        out: &mut K,
        shelf: &mut H,
    ) -> Result<bool, StepFault>
        ensures follows { Follows StepFault.Write (λ calls. line_effect self.old calls line.now)
            self.old self.new (shelf_state H.Shelf shelf.old) (shelf_state H.Shelf shelf.new)
            (K.written out.old) (K.written out.new) (K.faults out.old) (K.faults out.new) result }
    {
        if is_passed(line) {
            return Ok(false);
        }
        self.answer::<R, K, H, Brand>(rt, line, out, shelf, Blank::new(1))
    }

    /// Answers a line that is too long to be read, of which the number of bytes is known alone.
    pub fn refuse_long<K: Sink>(&mut self, bytes: u64, out: &mut K) -> Result<bool, StepFault>
        ensures follows { (line : List ℕ) → length line ≡ bytes → is_long line ≡ true →
            (shelf : ShelfState) →
            Follows StepFault.Write (λ calls. line_effect self.old calls line) self.old self.new
            shelf shelf
            (K.written out.old) (K.written out.new) (K.faults out.old) (K.faults out.new) result }
        ensures sink { MovesSink StepFault.Write (K.written out.old) (K.written out.new)
            (K.faults out.old) (K.faults out.new) result }
    {
        let mut room = self.take_room()?;
        put_refusal(None, &Refusal::LongLine { bytes }, &mut room, out);
        self.finish(room, out)?;
        Ok(true)
    }

    // Answers one line. Its interiors are counted from the blank on. It is not made part of its
    // caller, since its frame is large, and most lines of a long script are notes.
    #[inline(never)]
    fn answer<R: Threads + Sync, K: Sink, H: Shelf, L: Ledger>(
        &mut self,
        rt: &R,
        line: &[u8],
        out: &mut K,
        shelf: &mut H,
        blank: Blank,
    ) -> Result<bool, StepFault>
        requires name { blank.name ≡ L.name }
        requires parts { blank.parts ≡ L.parts }
        requires one { blank.parts ≡ 1 }
        ensures follows { Follows StepFault.Write (λ calls. line_effect self.old calls line.now)
            self.old self.new (shelf_state H.Shelf shelf.old) (shelf_state H.Shelf shelf.new)
            (K.written out.old) (K.written out.new) (K.faults out.old) (K.faults out.new) result }
    {
        let mut steps = Steps::<L>::new(blank);
        let mut room = self.take_room()?;
        let response = self.decider.decide_line(rt, line, shelf, &mut steps)?;
        self.decider.put(&response, &mut room, out, &mut steps);
        let is_refused = response.is_refused();

        // Let go before the last call, so that no way out has to.
        drop(response);
        self.finish(room, out)?;
        Ok(is_refused)
    }

    /// Lets the session go. Above this crate it is let go by this call alone: where a crate lets go
    /// of a value, it proves that for each of its parts.
    pub fn let_go(self) {
        drop(self);
    }

    // The room, which is as before a reply. The session has none then.
    fn take_room(&mut self) -> Result<Room, AllocError>
        ensures room { IfOk result (λ r. r ≡ no_reply) }
        ensures kept { self.new ≡ self.old }
    {
        match self.room.take() {
            Some(room) => Ok(room),
            None => Room::new(self.alloc),
        }
    }

    // Sends what is said of the reply, and keeps the room for the next one.
    fn finish<K: Sink>(&mut self, mut room: Room, out: &mut K) -> Result<(), SinkFault>
        ensures ends { Ends (K.written out.old) (K.faults out.old) room
            (K.written out.new) (K.faults out.new) result }
        ensures kept { self.new ≡ self.old }
    {
        let written = room.finish(out);
        self.room = Some(room);
        written
    }
}
