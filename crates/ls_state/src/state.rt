// What stands where a domain does.
ghost use Rattle.std.specs.Prelude.{◌≡◌, ◌<◌, ◌≤◌, Ok, None, IfOk, IfErr, length};
ghost use Rattle.ls_theory.specs.{begun};
ghost use Rattle.ls_theory.specs.Settings.{standard};
ghost use Rattle.ls_theory.specs.Starts.{Free};
ghost use Rattle.ls_files.specs.{session_of};
ghost use Rattle.ls_store.specs.Faults.{IsSessionFault};
ghost use Rattle.ls_meaning.specs.{bytes_of, edit_effect, in_domain, lines_of, pupil_effect};
ghost use Rattle.ls_meaning.specs.{safe_effect, saved, setting_effect, started, view_effect};
ghost use Rattle.ls_room.specs.Rooms.{Says};
ghost use Rattle.ls_pupils.specs.Cases.{ArePupils};
ghost use Rattle.ls_state.specs.Decides.{Makes};
ghost use Rattle.ls_state.specs.Standing.{IsAfterLine};
ghost use Rattle.ls_state.specs.States.{state_session};

mod files;
mod parts;
mod skills;

use ls_assess::Settings;
use ls_base::Trail;
use ls_deciding::{SafeCase, ask_safe, change, show};
use ls_domain::Domain;
use ls_edge::Sink;
use ls_expert::{Inquiry, Start};
use ls_interior::Steps;
use ls_lines::{EditCommand, PupilCommand, SafeCommand, SettingCommand, ViewCommand};
use ls_meaning::{Refusal, Response};
use ls_pupils::{PupilCases, attend, set};
use ls_resolve::{
    ResolveFault, Unnamed, resolve_edit, resolve_pupil, resolve_safe, resolve_setting, resolve_view,
};
use ls_set::PLACES;
use ls_store::{Parts, SessionFault, read_parts};
use ls_write::{Room, SetTexts, put_response};
use std::alloc::{AllocError, Global};
use std::marker::Model;
use std::sync::ledger::Ledger;

/// What stands where a domain does: the names of its items; the interview on them; the pupils that
/// are assessed, with the settings of those that begin; and the safe interview, if one stands. The
/// base of the interview is followed when it is asked for.
#[derive(Drop)]
pub struct State {
    alloc: Global,
    texts: SetTexts,
    inquiry: Inquiry,
    trail: Trail,
    settings: Settings,
    pupils: PupilCases,
    safe: Option<SafeCase>,
}

impl Model for State {
    ghost use Rattle.ls_meaning.specs.{Session};
    ghost use Rattle.ls_state.specs.States.{IsState, state_session};

    ghost Value = { Session };

    ghost view = { λ s. state_session s.texts s.inquiry s.settings s.pupils s.safe };

    ghost invariant = { λ s. IsState
        s.texts s.inquiry s.trail s.settings s.pupils s.safe };
}

impl State {
    /// The interview begins, with no answers, the standard settings and no pupils.
    pub fn begin<L: Ledger>(
        alloc: Global,
        domain: Domain,
        steps: &mut Steps<L>,
    ) -> Result<State, AllocError>
        ensures { IfOk result (λ s. s ≡ started domain) }
    {
        match begin_parts(alloc, domain.count(), steps) {
            Ok((inquiry, settings)) => {
                let parts = Parts {
                    domain,
                    inquiry,
                    settings,
                    pupils: PupilCases::new(alloc),
                };
                State::of(alloc, parts)
            }
            Err(e) => {
                drop(domain);
                Err(e)
            }
        }
    }

    /// The session that the bytes of a saved one give; its base is not followed yet, and no safe
    /// interview stands. The error is the first cause why they give none; or memory ran out.
    pub fn open<L: Ledger>(
        alloc: Global,
        bytes: &[u8],
        steps: &mut Steps<L>,
    ) -> Result<State, SessionFault>
        ensures session { IfOk result (λ s. session_of bytes.now ≡ Ok (saved s)) }
        ensures none { IfOk result (λ s. s.safe ≡ None) }
        ensures fault { IfErr result (IsSessionFault (session_of bytes.now)) }
    {
        let parts = read_parts(alloc, bytes, steps)?;
        Ok(State::of(alloc, parts)?)
    }

    // The state of the parts of a session; its base is not followed yet.
    fn of(alloc: Global, parts: Parts) -> Result<State, AllocError>
        requires items { length parts.domain ≡ parts.inquiry.count }
        requires settings { length parts.settings.ratios ≡ parts.inquiry.count }
        requires pupils { ArePupils parts.inquiry.count parts.pupils }
        ensures { IfOk result (λ s. s ≡
            state_session parts.domain parts.inquiry parts.settings parts.pupils None) }
    {
        let Parts {
            domain,
            inquiry,
            settings,
            pupils,
        } = parts;
        // at least one
        let _ = inquiry.items();
        match SetTexts::new(alloc, domain) {
            Ok(texts) => Ok(State {
                alloc,
                texts,
                inquiry,
                trail: Trail::new(alloc),
                settings,
                pupils,
                safe: None,
            }),
            Err(e) => {
                drop(inquiry);
                drop(settings);
                drop(pupils);
                Err(e)
            }
        }
    }

    /// The names of the items.
    pub fn domain(&self) -> &Domain
        ensures { result.now ≡ self.now.names }
    {
        self.texts.domain()
    }

    /// Changes the interview. Where memory runs out nothing changes.
    pub fn edit<L: Ledger>(
        &mut self,
        command: &EditCommand,
        steps: &mut Steps<L>,
    ) -> Result<Response, AllocError>
        ensures { Makes (in_domain self.old (edit_effect self.old command.now))
            self.old self.new result }
    {
        match resolve_edit(self.texts.domain(), command) {
            Ok(edit) => change(&mut self.inquiry, &mut self.trail, &edit, steps),
            Err(Unnamed { place }) => Ok(Response::Refused(Refusal::Unnamed { place })),
        }
    }

    /// What is shown of the interview, which stays as it is.
    pub fn view<L: Ledger>(
        &mut self,
        command: &ViewCommand,
        steps: &mut Steps<L>,
    ) -> Result<Response, AllocError>
        ensures { Makes (in_domain self.old (view_effect self.old command.now))
            self.old self.new result }
    {
        match resolve_view(self.alloc, self.texts.domain(), command) {
            Ok(view) => show(self.alloc, &mut self.inquiry, &mut self.trail, view, steps),
            Err(ResolveFault::Unnamed { place }) => {
                Ok(Response::Refused(Refusal::Unnamed { place }))
            }
            Err(ResolveFault::Memory(e)) => Err(e),
        }
    }

    /// What is asked of the safe interview, or done with it. Where memory runs out nothing changes.
    pub fn safe(&mut self, command: &SafeCommand) -> Result<Response, AllocError>
        ensures { Makes (in_domain self.old (safe_effect self.old command.now))
            self.old self.new result }
    {
        match resolve_safe(self.texts.domain(), command) {
            Ok(asked) => ask_safe(
                self.alloc,
                &self.inquiry,
                &mut self.trail,
                &mut self.safe,
                asked,
            ),
            Err(Unnamed { place }) => Ok(Response::Refused(Refusal::Unnamed { place })),
        }
    }

    /// Changes the settings of the pupils that begin.
    pub fn set(&mut self, command: &SettingCommand) -> Response
        ensures { Makes (in_domain self.old (setting_effect self.old command.now))
            self.old self.new (Ok result) }
    {
        match resolve_setting(self.texts.domain(), command) {
            Ok(setting) => set(&mut self.settings, setting),
            Err(Unnamed { place }) => Response::Refused(Refusal::Unnamed { place }),
        }
    }

    /// What is asked of a pupil, or done with it. Where memory runs out nothing changes.
    pub fn attend<L: Ledger>(
        &mut self,
        command: &PupilCommand,
        steps: &mut Steps<L>,
    ) -> Result<Response, AllocError>
        ensures { Makes (in_domain self.old (pupil_effect self.old command.now))
            self.old self.new result }
    {
        match resolve_pupil(self.texts.domain(), command) {
            Ok(what) => attend(
                self.alloc,
                &mut self.pupils,
                command.name(),
                what,
                &self.inquiry,
                &self.settings,
                steps,
            ),
            Err(Unnamed { place }) => Ok(Response::Refused(Refusal::Unnamed { place })),
        }
    }

    /// Says the lines of a response. It is not made part of its caller, since its frame is large.
    #[inline(never)]
    pub fn put<K: Sink, L: Ledger>(
        &self,
        response: &Response,
        room: &mut Room,
        out: &mut K,
        steps: &mut Steps<L>,
    )
        requires { IsAfterLine self.now response.now }
        ensures { Says (K.written out.old) (K.faults out.old) room.old
            (K.written out.new) (K.faults out.new) room.new
            (bytes_of (lines_of self.now response.now)) }
    {
        // it is sound
        let _ = self.inquiry.standing();
        put_response(&self.texts, &self.inquiry, response, room, out, steps);
    }
}

// The interview and the settings with which a session on `n` items begins.
fn begin_parts<L: Ledger>(
    alloc: Global,
    n: u32,
    steps: &mut Steps<L>,
) -> Result<(Inquiry, Settings), AllocError>
    requires some { 0 < n }
    requires few { n ≤ PLACES }
    ensures interview { IfOk result (λ p. p.0 ≡ begun n Free) }
    ensures settings { IfOk result (λ p. p.1 ≡ standard n) }
{
    let settings = Settings::standard(alloc, n)?;
    match Inquiry::new(alloc, n, Start::Free, steps) {
        Ok(inquiry) => Ok((inquiry, settings)),
        Err(e) => {
            drop(settings);
            Err(e)
        }
    }
}
