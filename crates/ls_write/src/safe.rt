// The lines of the safe interview.
ghost use Rattle.std.specs.Prelude.{◌≡◌, codes, if◌then◌else◌, map};
ghost use Rattle.ls_meaning.specs.{accepted_words, line_bytes, line_of, lines_bytes, safe_line};
ghost use Rattle.ls_meaning.specs.{safe_lines};
ghost use Rattle.ls_room.specs.Rooms.{Says};

use ls_edge::Sink;
use ls_meaning::{count_applied, count_pending};
use ls_origins::{SafeAnswer, SafeAnswers};
use ls_room::{Room, put_numbered};

/// Says the line of an answer that was accepted: its number, and how many answers are applied and
/// wait.
pub fn put_accepted<K: Sink>(number: u64, applied: u64, pending: u64, room: &mut Room, out: &mut K)
    ensures { Says (K.written out.old) (K.faults out.old) room.old
        (K.written out.new) (K.faults out.new) room.new
        (line_of (accepted_words number applied pending)) }
{
    room.put(b"ok ", out);
    room.put_number(number, out);
    room.put(b" applied ", out);
    room.put_number(applied, out);
    room.put(b" pending ", out);
    room.put_number(pending, out);
    room.end_line(out);
}

/// Says the answers, and how many of them are applied and wait.
pub fn put_safe_answers<K: Sink>(answers: &SafeAnswers, room: &mut Room, out: &mut K)
    ensures { Says (K.written out.old) (K.faults out.old) room.old
        (K.written out.new) (K.faults out.new) room.new
        (lines_bytes (safe_lines answers.now)) }
{
    let list = answers.as_slice();
    put_answer_lines(list, room, out);
    let counts = &[count_applied(list), count_pending(list)];
    put_numbered(&[b"safe"], counts, room, out);
}

// Says each answer.
fn put_answer_lines<K: Sink>(list: &[SafeAnswer], room: &mut Room, out: &mut K)
    ensures { Says (K.written out.old) (K.faults out.old) room.old
        (K.written out.new) (K.faults out.new) room.new
        (lines_bytes (map safe_line list.now)) }
{
    for answer in list {
        put_answer(*answer, room, out);
    }
}

// Says an answer, and whether it is applied.
fn put_answer<K: Sink>(answer: SafeAnswer, room: &mut Room, out: &mut K)
    ensures { Says (K.written out.old) (K.faults out.old) room.old
        (K.written out.new) (K.faults out.new) room.new (line_bytes (safe_line answer)) }
{
    room.put(b"answer ", out);
    room.put_number(answer.number, out);
    room.space(out);
    room.put(mark(answer.applied), out);
    room.end_line(out);
}

// The word of an answer that is applied, or that waits.
fn mark(is_applied: bool) -> &'static [u8]
    ensures { result.now ≡ (if is_applied then codes "applied" else codes "pending") }
{
    if is_applied { b"applied" } else { b"pending" }
}
