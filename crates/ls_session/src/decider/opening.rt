// Commands that open a session, decided.
ghost use Rattle.std.specs.Prelude.{◌≡◌, [], List, Result, Ok, length};
ghost use Rattle.ls_domain.specs.Domains.{names_of_table};
ghost use Rattle.ls_domain.specs.declared.domain_fault.DomainFault.{DomainFault as Fault};
ghost use Rattle.ls_lines.specs.{Text};
ghost use Rattle.ls_files.specs.{session_of};
ghost use Rattle.ls_meaning.specs.{changes, has_domain, items_row, load_items_row};
ghost use Rattle.ls_meaning.specs.{open_row, opened_by, opening_row, started_by};
ghost use Rattle.ls_state.specs.Decides.{Decides, Makes, shelf_state};
ghost use Rattle.ls_state.specs.Readings.{AreNamesRead};
ghost use Rattle.ls_state.specs.Standing.{standing_session};

use crate::decider::Decider;
use ls_domain::{Domain, DomainFault};
use ls_edge::Shelf;
use ls_interior::Steps;
use ls_lines::{OpeningCommand, Word, WordList};
use ls_meaning::{Refusal, Response};
use ls_state::{State, fetch};
use ls_store::SessionFault;
use std::alloc::AllocError;
use std::sync::ledger::Ledger;

impl Decider {
    // Decides what a command does that opens a session.
    pub(super) fn open<H: Shelf, L: Ledger>(
        &mut self,
        command: &OpeningCommand,
        shelf: &mut H,
        steps: &mut Steps<L>,
    ) -> Result<Response, AllocError>
        ensures { let s = standing_session self.old.state in
            Decides (λ calls. changes (opening_row s calls command.now))
            s (standing_session self.new.state)
            (shelf_state H.Shelf shelf.old) (shelf_state H.Shelf shelf.new) result }
    {
        match command {
            OpeningCommand::Items { names } => self.begin(names, steps),
            OpeningCommand::LoadItems { file } => self.load_items(file, shelf, steps),
            OpeningCommand::Reopen { file } => self.reopen(file, shelf, steps),
        }
    }

    // `items NAMES`
    fn begin<L: Ledger>(
        &mut self,
        names: &WordList,
        steps: &mut Steps<L>,
    ) -> Result<Response, AllocError>
        ensures { let s = standing_session self.old.state in
            Makes (changes (items_row s names.now)) s (standing_session self.new.state) result }
    {
        if self.has_domain() {
            return Ok(Response::Refused(Refusal::DomainStands));
        }
        self.start(Domain::from_names(self.alloc, names), steps)
    }

    // `load-items FILE`. It is not made part of its caller, since its frame is large.
    #[inline(never)]
    fn load_items<H: Shelf, L: Ledger>(
        &mut self,
        file: &Word,
        shelf: &mut H,
        steps: &mut Steps<L>,
    ) -> Result<Response, AllocError>
        ensures { let s = standing_session self.old.state in
            Decides (λ calls. changes (load_items_row s (calls.file file.now)))
            s (standing_session self.new.state)
            (shelf_state H.Shelf shelf.old) (shelf_state H.Shelf shelf.new) result }
    {
        if self.has_domain() {
            return Ok(Response::Refused(Refusal::DomainStands));
        }
        match fetch(file, shelf)? {
            Ok(bytes) => self.start(Domain::from_csv(self.alloc, &bytes), steps),
            Err(refusal) => Ok(Response::Refused(refusal)),
        }
    }

    // `open FILE`. It is not made part of its caller, as `load_items` isn't.
    #[inline(never)]
    fn reopen<H: Shelf, L: Ledger>(
        &mut self,
        file: &Word,
        shelf: &mut H,
        steps: &mut Steps<L>,
    ) -> Result<Response, AllocError>
        ensures { let s = standing_session self.old.state in
            Decides (λ calls. changes (open_row s (calls.file file.now)))
            s (standing_session self.new.state)
            (shelf_state H.Shelf shelf.old) (shelf_state H.Shelf shelf.new) result }
    {
        match fetch(file, shelf)? {
            Ok(bytes) => self.open_bytes(&bytes, steps),
            Err(refusal) => Ok(Response::Refused(refusal)),
        }
    }

    // Whether a domain stands.
    fn has_domain(&self) -> bool
        ensures { result ≡ has_domain (standing_session self.now.state) }
    {
        match &self.state {
            Some(state) => state.domain().count() > 0,
            None => false,
        }
    }

    // Begins with the domain that was read, where none stands.
    fn start<L: Ledger>(
        &mut self,
        read: Result<Domain, DomainFault>,
        steps: &mut Steps<L>,
    ) -> Result<Response, AllocError>
        ensures { let s = standing_session self.old.state in
            (reading : Result (List Text) Fault) → AreNamesRead reading read →
            Makes (changes (started_by s [] reading)) s (standing_session self.new.state) result }
    {
        match read {
            Ok(domain) => Ok(self.stand(State::begin(self.alloc, domain, steps)?)),
            Err(DomainFault::Memory(e)) => Err(e),
            Err(fault) => Ok(Response::Refused(Refusal::Domain(fault))),
        }
    }

    // Takes up the session that bytes are.
    fn open_bytes<L: Ledger>(
        &mut self,
        bytes: &[u8],
        steps: &mut Steps<L>,
    ) -> Result<Response, AllocError>
        ensures { let s = standing_session self.old.state in
            Makes (changes (opened_by s [] (session_of bytes.now)))
            s (standing_session self.new.state) result }
    {
        match State::open(self.alloc, bytes, steps) {
            Ok(state) => Ok(self.stand(state)),
            Err(SessionFault::BadSession { cause }) => {
                Ok(Response::Refused(Refusal::BadSession { cause }))
            }
            Err(SessionFault::Memory(e)) => Err(e),
        }
    }

    // Takes up a state in place of the one that stands, which is let go.
    fn stand(&mut self, state: State) -> Response
        ensures session { standing_session self.new.state ≡ state }
        ensures response { result ≡ Response.Done (length state.names) }
    {
        let number = u64::from(state.domain().count());
        drop(self.state.replace(state));
        Response::Done { number }
    }
}
