// What is shown of an interview, and whole responses.
ghost use Rattle.std.specs.Prelude.{◌≡◌, ◌≤◌, ◌+◌, ◌*◌, [], false, length, option_copied};
ghost use Rattle.std.specs.Option.{ForSome};
ghost use Rattle.ls_set.specs.{IsWithin, comes_before, full};
ghost use Rattle.ls_theory.specs.{Interview, page};
ghost use Rattle.ls_meaning.specs.{Session, bytes_of, line_bytes, lines_bytes, lines_of, started};
ghost use Rattle.ls_meaning.specs.{known_line, question_line, shown_lines};
ghost use Rattle.ls_meaning.specs.Lines.{agree_line};
ghost use Rattle.ls_room.specs.Rooms.{Says};
ghost use Rattle.ls_room.specs.SetTexts.{names_in};
ghost use Rattle.ls_write.specs.Showing.{CanSay, CanShow, is_shown, session_with};
ghost use Rattle.ls_write.specs.Showing.{response_steps, shown_steps};

use crate::assessing::{put_asked, put_report};
use crate::classes::put_class;
use crate::done::{put_agreed, put_done};
use crate::judging::{put_fringes, put_learning, put_state, put_verdict};
use crate::listing::{put_base, put_page};
use crate::refusals::put_refusal;
use crate::relations::{put_covers, put_no_relation};
use crate::safe::{put_accepted, put_safe_answers};
use crate::skills::put_skills;
use crate::structures::{put_complements, put_mesh, put_unions};
use crate::surmise::put_surmise;
use crate::walking::put_paths;
use ls_edge::Sink;
use ls_expert::{Inquiry, Known};
use ls_interior::Steps;
use ls_meaning::{Response, Shown};
use ls_project::Trace;
use ls_room::{Room, SetTexts, put_line, put_numbered};
use ls_set::Query;
use std::sync::ledger::Ledger;

/// Says a response.
pub fn put_response<K: Sink, L: Ledger>(
    texts: &SetTexts,
    inquiry: &Inquiry,
    response: &Response,
    room: &mut Room,
    out: &mut K,
    steps: &mut Steps<L>,
)
    requires items { length texts.now ≡ inquiry.now.count }
    requires can { CanSay (length texts.now) inquiry.now response.now }
    ensures says { (s : Session) → Says (K.written out.old) (K.faults out.old) room.old
        (K.written out.new) (K.faults out.new) room.new
        (bytes_of (lines_of (session_with s texts.now inquiry.now) response.now)) }
    ensures cost { steps.new ≤ steps.old + response_steps response.now inquiry.now.count }
{
    match response {
        Response::Shown(shown) => put_shown(texts, inquiry, shown, room, out, steps),
        other => put_unshown(Some(texts), other, room, out),
    }
}

/// Says a response that shows nothing, where no domain stands.
pub fn put_bare<K: Sink>(response: &Response, room: &mut Room, out: &mut K)
    requires { is_shown response.now ≡ false }
    ensures { Says (K.written out.old) (K.faults out.old) room.old
        (K.written out.new) (K.faults out.new) room.new
        (bytes_of (lines_of (started []) response.now)) }
{
    put_unshown(None, response, room, out);
}

// Says a response that shows nothing. `texts` has the names of the items, where a domain stands.
fn put_unshown<K: Sink>(texts: Option<&SetTexts>, response: &Response, room: &mut Room, out: &mut K)
    requires { is_shown response.now ≡ false }
    ensures { (s : Session) (i : Interview) →
        let names = names_in (option_copied texts.entry) in
        Says (K.written out.old) (K.faults out.old) room.old
        (K.written out.new) (K.faults out.new) room.new
        (bytes_of (lines_of (session_with s names i) response.now)) }
{
    match response {
        Response::Silence => (),
        Response::Refused(refusal) => put_refusal(texts, refusal, room, out),
        Response::Done { number } => put_done(*number, room, out),
        Response::Agreed => put_agreed(room, out),
        Response::Accepted {
            number,
            applied,
            pending,
        } => put_accepted(*number, *applied, *pending, room, out),
        Response::Shown(_) => unreachable!(),
    }
}

/// Says what is shown of the interview on named items.
pub fn put_shown<K: Sink, L: Ledger>(
    texts: &SetTexts,
    inquiry: &Inquiry,
    shown: &Shown,
    room: &mut Room,
    out: &mut K,
    steps: &mut Steps<L>,
)
    requires items { length texts.now ≡ inquiry.now.count }
    requires can { CanShow (length texts.now) inquiry.now shown.now }
    ensures says { Says (K.written out.old) (K.faults out.old) room.old
        (K.written out.new) (K.faults out.new) room.new
        (lines_bytes (shown_lines texts.now inquiry.now shown.now)) }
    ensures cost { steps.new ≤ steps.old + shown_steps shown.now inquiry.now.count }
{
    let family = inquiry.family();
    match shown {
        Shown::Known(known) => put_known(*known, room, out),
        Shown::Question(next) => put_question(texts, next, room, out),
        Shown::States { count, after } => put_page(family, texts, *after, *count, room, out, steps),
        Shown::Base { sets } => put_base(texts, sets.as_slice(), room, out),
        Shown::Surmise(clauses) => put_surmise(texts, clauses, room, out),
        Shown::Learning(verdict) => put_learning(texts, *verdict, room, out),
        Shown::Projected { part, count, after } => {
            let projection = Trace::new(family, *part);
            put_page(&projection, texts, *after, *count, room, out, steps);
        }
        Shown::ProjectedBase { base, verdict } => {
            put_base(texts, base.as_slice(), room, out);
            put_learning(texts, *verdict, room, out);
        }
        Shown::Fringes(fringes) => put_fringes(texts, *fringes, room, out),
        Shown::State(set) => put_state(texts, *set, room, out),
        Shown::Paths { count, after } => put_paths(family, texts, after, *count, room, out),
        Shown::Tested(verdict) => put_verdict(texts, verdict, room, out),
        Shown::Asked(asked) => put_asked(texts, *asked, room, out),
        Shown::Report { outcome, fringes } => put_report(texts, *outcome, *fringes, room, out),
        Shown::Class(results) => put_class(texts, results, room, out),
        Shown::SkillMap { base } => put_skills(texts, base.as_slice(), room, out),
        Shown::NoRelation(fault) => put_no_relation(texts, *fault, room, out),
        Shown::Covers(covers) => put_covers(texts, covers, room, out),
        Shown::Unions {
            states,
            count,
            after,
        } => put_unions(texts, states, *after, *count, room, out, steps),
        Shown::Duals {
            states,
            count,
            after,
        } => put_complements(texts, states, *after, *count, room, out, steps),
        Shown::Mesh {
            states,
            count,
            after,
        } => put_mesh(texts, states, *after, *count, room, out, steps),
        Shown::Agree(is_agreed) => put_agreement(*is_agreed, room, out),
        Shown::SafeAnswers(answers) => put_safe_answers(answers, room, out),
    }
}

// Says what is known of a query.
fn put_known<K: Sink>(known: Known, room: &mut Room, out: &mut K)
    ensures { Says (K.written out.old) (K.faults out.old) room.old
        (K.written out.new) (K.faults out.new) room.new (line_bytes (known_line known)) }
{
    match known {
        Known::Yes => put_line(&[b"known", b"yes"], room, out),
        Known::No { by } => put_numbered(&[b"known", b"no"], &[by], room, out),
        Known::Unsettled => put_line(&[b"known", b"open"], room, out),
    }
}

// Says the next question, or that none is open.
fn put_question<K: Sink>(texts: &SetTexts, next: &Option<Query>, room: &mut Room, out: &mut K)
    ensures { Says (K.written out.old) (K.faults out.old) room.old
        (K.written out.new) (K.faults out.new) room.new
        (line_bytes (question_line texts.now next.now)) }
{
    match next {
        Some(query) => {
            room.put(b"ask ", out);
            texts.put_names(query.a, room, out);
            room.put(b" :", out);
            texts.put_name(query.q, room, out);
            room.end_line(out);
        }
        None => put_line(&[b"settled"], room, out),
    }
}

// Says whether two parts agree.
fn put_agreement<K: Sink>(is_agreed: bool, room: &mut Room, out: &mut K)
    ensures { Says (K.written out.old) (K.faults out.old) room.old
        (K.written out.new) (K.faults out.new) room.new (line_bytes (agree_line is_agreed)) }
{
    let answer: &[u8] = if is_agreed { b"yes" } else { b"no" };
    put_line(&[b"agree", answer], room, out);
}
