// What a line does, decided and not yet written.
ghost use Rattle.std.specs.Prelude.{◌≡◌, None};
ghost use Rattle.ls_meaning.specs.{bytes_of, command_effect, has_domain, line_effect, lines_of};
ghost use Rattle.ls_room.specs.Rooms.{Says};
ghost use Rattle.ls_state.specs.Decides.{Decides, shelf_state};
ghost use Rattle.ls_state.specs.Standing.{IsAfterLine, standing_session};

mod opening;

use ls_edge::{Shelf, Sink};
use ls_interior::Steps;
use ls_lines::{Command, LONGEST_LINE, LineFault, read_command};
use ls_meaning::{Refusal, Response};
use ls_state::State;
use ls_write::{Room, put_bare};
use std::alloc::{AllocError, Global};
use std::sync::ledger::Ledger;
use std::thread::Threads;

/// What stands where a domain does, if one does. It decides what lines do, and says their replies.
#[derive(Drop)]
pub struct Decider {
    alloc: Global,
    pub state: Option<State>,
}

impl Decider {
    /// No domain.
    pub fn new(alloc: Global) -> Decider
        ensures { result.state ≡ None }
    {
        Decider { alloc, state: None }
    }

    /// Decides what a line does.
    pub fn decide_line<R: Threads + Sync, H: Shelf, L: Ledger>(
        &mut self,
        rt: &R,
        line: &[u8],
        shelf: &mut H,
        steps: &mut Steps<L>,
    ) -> Result<Response, AllocError>
        ensures { let s = standing_session self.old.state in
            Decides (λ calls. line_effect s calls line.now) s (standing_session self.new.state)
            (shelf_state H.Shelf shelf.old) (shelf_state H.Shelf shelf.new) result }
    {
        if line.len() > LONGEST_LINE {
            let bytes = line.len() as u64;
            return Ok(Response::Refused(Refusal::LongLine { bytes }));
        }
        match read_command(self.alloc, line) {
            Ok(command) => {
                let decided = self.decide(rt, &command, shelf, steps);

                // Let go by a call: otherwise each kind of command is let go here.
                drop(command);
                decided
            }
            Err(LineFault::Shape { place }) => Ok(Response::Refused(Refusal::NoCommand { place })),
            Err(LineFault::Memory(e)) => Err(e),
        }
    }

    // Decides what a command does. It is not made part of its caller, since its frame is large.
    #[inline(never)]
    fn decide<R: Threads + Sync, H: Shelf, L: Ledger>(
        &mut self,
        rt: &R,
        command: &Command,
        shelf: &mut H,
        steps: &mut Steps<L>,
    ) -> Result<Response, AllocError>
        ensures { let s = standing_session self.old.state in
            Decides (λ calls. command_effect s calls command.now)
            s (standing_session self.new.state)
            (shelf_state H.Shelf shelf.old) (shelf_state H.Shelf shelf.new) result }
    {
        match command {
            Command::Nothing => Ok(Response::Silence),
            Command::Opening(command) => self.open(command, shelf, steps),
            Command::File(command) => match &mut self.state {
                Some(state) => state.file(rt, command, shelf, steps),
                None => Ok(without_domain()),
            },
            Command::Edit(command) => match &mut self.state {
                Some(state) => state.edit(command, steps),
                None => Ok(without_domain()),
            },
            Command::View(command) => match &mut self.state {
                Some(state) => state.view(command, steps),
                None => Ok(without_domain()),
            },
            Command::Setting(command) => match &mut self.state {
                Some(state) => Ok(state.set(command)),
                None => Ok(without_domain()),
            },
            Command::Pupil(command) => match &mut self.state {
                Some(state) => state.attend(command, steps),
                None => Ok(without_domain()),
            },
            Command::Safe(command) => match &mut self.state {
                Some(state) => state.safe(command),
                None => Ok(without_domain()),
            },
        }
    }

    /// Says the lines of a response.
    pub fn put<K: Sink, L: Ledger>(
        &self,
        response: &Response,
        room: &mut Room,
        out: &mut K,
        steps: &mut Steps<L>,
    )
        requires { IsAfterLine (standing_session self.now.state) response.now }
        ensures { Says (K.written out.old) (K.faults out.old) room.old
            (K.written out.new) (K.faults out.new) room.new
            (bytes_of (lines_of (standing_session self.now.state) response.now)) }
    {
        match &self.state {
            Some(state) => state.put(response, room, out, steps),
            None => put_bare(response, room, out),
        }
    }
}

// The response to a command that needs a domain, where none stands.
fn without_domain() -> Response
    ensures { result ≡ Response.Refused (Refusal.Unnamed 0) }
{
    Response::Refused(Refusal::Unnamed { place: 0 })
}
