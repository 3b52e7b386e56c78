// The lines of assessments.
ghost use Rattle.std.specs.Prelude.{◌∷◌, []};
ghost use Rattle.ls_meaning.specs.{asked_line, fringes_line, outcome_line};
ghost use Rattle.ls_meaning.specs.{line_bytes, lines_bytes};
ghost use Rattle.ls_room.specs.Rooms.{Says};

use crate::judging::put_fringes;
use ls_edge::Sink;
use ls_meaning::reason_word;
use ls_room::{Room, SetTexts, put_line};
use ls_theory::{Asked, FringePair, Outcome};

/// Says what a pupil is asked, or why its assessment is over.
pub fn put_asked<K: Sink>(texts: &SetTexts, asked: Asked, room: &mut Room, out: &mut K)
    ensures { Says (K.written out.old) (K.faults out.old) room.old
        (K.written out.new) (K.faults out.new) room.new
        (line_bytes (asked_line texts.now asked)) }
{
    match asked {
        Asked::Item(item) => {
            room.put(b"question", out);
            texts.put_name(item, room, out);
            room.end_line(out);
        }
        Asked::Over(reason) => put_line(&[b"over", reason_word(reason).as_bytes()], room, out),
    }
}

/// Says what is known of a pupil, and the fringes of the state.
pub fn put_report<K: Sink>(
    texts: &SetTexts,
    outcome: Outcome,
    fringes: FringePair,
    room: &mut Room,
    out: &mut K,
)
    ensures { Says (K.written out.old) (K.faults out.old) room.old
        (K.written out.new) (K.faults out.new) room.new
        (lines_bytes (outcome_line texts.now outcome ∷ fringes_line texts.now fringes ∷ [])) }
{
    put_outcome(texts, outcome, room, out);
    put_fringes(texts, fringes, room, out);
}

// Says the state of greatest weight, the weights and the number of replies.
fn put_outcome<K: Sink>(texts: &SetTexts, outcome: Outcome, room: &mut Room, out: &mut K)
    ensures { Says (K.written out.old) (K.faults out.old) room.old
        (K.written out.new) (K.faults out.new) room.new
        (line_bytes (outcome_line texts.now outcome)) }
{
    room.put(b"report", out);
    texts.put_set(outcome.state, room, out);
    room.space(out);
    room.put_number(outcome.weight, out);
    room.space(out);
    room.put_number(outcome.total, out);
    room.space(out);
    room.put_number(outcome.replies, out);
    room.end_line(out);
}
