// The commands that look at an interview and change nothing.
ghost use Rattle.std.specs.Prelude.{◌≡◌, ◌≤◌, ◌+◌, length, IfOk, OnOk, OnErr};
ghost use Rattle.std.specs.Io.KnownBytes.{Appends};
ghost use Rattle.ls_edge.specs.Causes.{AppendsFront, HasSinkCause};
ghost use Rattle.ls_lines.specs.declared.command.Command.TheVariants as commands;
ghost use Rattle.ls_meaning.specs.{Calls, IsViewOn, Session, answers, bytes_of, command_effect};
ghost use Rattle.ls_meaning.specs.{is_refusal, lines_of, reply_of, view_row};
ghost use Rattle.ls_theory.specs.{yes_queries};
ghost use Rattle.ls_base.specs.Followed.{IsFollowed};
ghost use Rattle.ls_room.specs.Rooms.{Wrote, no_reply};
ghost use Rattle.ls_write.specs.Showing.{CanSay, response_steps, session_with};
ghost use Rattle.ls_deciding.specs.Views.{view_steps};
ghost use Rattle.ls_views.specs.Views.{command_steps};

use ls_base::Followed;
use ls_deciding::{decide, decide_based, is_based};
use ls_domain::Domain;
use ls_edge::{Sink, SinkFault};
use ls_expert::{Inquiry, Interview};
use ls_interior::Steps;
use ls_lines::ViewCommand;
use ls_meaning::{Refusal, Response, View};
use ls_resolve::{ResolveFault, resolve_view};
use ls_write::{Room, SetTexts, put_response};
use std::alloc::{AllocError, Global};
use std::sync::ledger::Ledger;

// What the command shows, or that a word of it names no item.
fn respond<L: Ledger>(
    alloc: Global,
    domain: &Domain,
    inquiry: &Inquiry,
    followed: &Followed,
    command: &ViewCommand,
    steps: &mut Steps<L>,
) -> Result<Response, AllocError>
    requires items { length domain.now ≡ inquiry.now.count }
    requires followed { let i = inquiry.now in IsFollowed i.count i.start (yes_queries i.answers)
        followed.now }
    ensures response { (s : Session) (calls : Calls) →
        let s = session_with s domain.now inquiry.now in
        IfOk result (λ r. command_effect s calls (commands.View command.now) ≡ answers s r) }
    ensures can { IfOk result (CanSay (length domain.now) inquiry.now) }
    ensures cost { let i = inquiry.now in
        IfOk result (λ r.
        steps.new + response_steps r i.count ≤ steps.old + command_steps i command.now) }
    ensures err { OnErr result (steps.new ≤ steps.old + command_steps inquiry.now command.now) }
{
    prove!(domain.count() > 0);
    let _ = inquiry.standing(); // it is sound
    match resolve_view(alloc, domain, command) {
        Ok(view) => show(alloc, inquiry, followed, view, steps),
        Err(ResolveFault::Unnamed { place }) => Ok(Response::Refused(Refusal::Unnamed { place })),
        Err(ResolveFault::Memory(e)) => Err(e),
    }
}

// What is shown.
fn show<L: Ledger>(
    alloc: Global,
    inquiry: &Inquiry,
    followed: &Followed,
    view: View,
    steps: &mut Steps<L>,
) -> Result<Response, AllocError>
    requires on { IsViewOn inquiry.now.count view }
    requires followed { let i = inquiry.now in IsFollowed i.count i.start (yes_queries i.answers)
        followed.now }
    ensures response { IfOk result (λ r. r ≡ view_row inquiry.now view) }
    ensures cost { steps.new ≤ steps.old + view_steps inquiry.now view }
{
    if is_based(&view) {
        decide_based(alloc, inquiry, followed, view)
    } else {
        Ok(decide(inquiry, &view, steps))
    }
}

// Writes a response as the whole reply.
fn write<K: Sink, L: Ledger>(
    texts: &SetTexts,
    inquiry: &Inquiry,
    response: &Response,
    room: &mut Room,
    out: &mut K,
    steps: &mut Steps<L>,
) -> Result<(), SinkFault>
    requires items { length texts.now ≡ inquiry.now.count }
    requires can { CanSay (length texts.now) inquiry.now response.now }
    requires empty { room.old ≡ no_reply }
    ensures wrote { (s : Session) → Wrote (K.written out.old) (K.faults out.old)
        (K.written out.new) (K.faults out.new)
        (bytes_of (lines_of (session_with s texts.now inquiry.now) response.now)) result }
    ensures cost { steps.new ≤ steps.old + response_steps response.now inquiry.now.count }
{
    put_response(texts, inquiry, response, room, out, steps);
    room.finish(out)
}

// The items of a domain, and room for the texts of their sets.
fn set_texts(alloc: Global, domain: &Domain) -> Result<SetTexts, AllocError>
    ensures { IfOk result (λ t. t ≡ domain.now) }
{
    SetTexts::new(alloc, domain.copy()?)
}

/// Writes the reply to a command that looks at the interview on a domain's items, and says whether
/// it begins with `no `. After a fault a front of the reply is written. It takes at most one
/// interior for `known`, for `ask` those of the search for a question, and for a page of `COUNT`
/// states of n items at most `(COUNT + 1) * (n + 1)`.
pub fn view<K: Sink, L: Ledger>(
    alloc: Global,
    domain: &Domain,
    interview: &Interview,
    command: &ViewCommand,
    out: &mut K,
    steps: &mut Steps<L>,
) -> Result<bool, SinkFault>
    requires { length domain.now ≡ interview.now.count }
    ensures told { (s : Session) (calls : Calls) →
        let s = session_with s domain.now interview.now in
        IfOk result (λ b.
        b ≡ is_refusal (reply_of (command_effect s calls (commands.View command.now)))) }
    ensures whole { (s : Session) (calls : Calls) →
        let s = session_with s domain.now interview.now in
        OnOk result (Appends (K.written out.old) (K.written out.new)
        (reply_of (command_effect s calls (commands.View command.now)))) }
    ensures front { (s : Session) (calls : Calls) →
        let s = session_with s domain.now interview.now in
        AppendsFront (K.written out.old) (K.written out.new)
        (reply_of (command_effect s calls (commands.View command.now))) }
    ensures cause { HasSinkCause (K.faults out.old) (K.faults out.new) result }
    ensures cost { steps.new ≤ steps.old + command_steps interview.now command.now }
{
    let mut room = Room::new(alloc).map_err(SinkFault::Memory)?;
    let texts = set_texts(alloc, domain).map_err(SinkFault::Memory)?;
    let inquiry = interview.inquiry();
    let followed = interview.base();
    let response = match respond(alloc, domain, inquiry, followed, command, steps) {
        Ok(response) => response,
        Err(e) => return Err(SinkFault::Memory(e)),
    };
    write(&texts, inquiry, &response, &mut room, out, steps)?;
    Ok(response.is_refused())
}
