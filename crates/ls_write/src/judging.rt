// The lines of verdicts, and of states and their fringes.
ghost use Rattle.std.specs.Prelude.{◌∷◌, [], ◌++◌};
ghost use Rattle.ls_lists.specs.Lists.{spaced};
ghost use Rattle.ls_meaning.specs.{double_words, fringes_line, learning_line, line_bytes};
ghost use Rattle.ls_meaning.specs.{state_line, verdict_line};
ghost use Rattle.ls_room.specs.Rooms.{Says};

use ls_edge::Sink;
use ls_room::{Room, SetTexts, put_line, put_numbered};
use ls_set::ItemSet;
use ls_theory::{BaseVerdict, FringePair, Verdict};

/// Says whether a space is a learning space.
pub fn put_learning<K: Sink>(texts: &SetTexts, verdict: BaseVerdict, room: &mut Room, out: &mut K)
    ensures { Says (K.written out.old) (K.faults out.old) room.old
        (K.written out.new) (K.faults out.new) room.new
        (line_bytes (learning_line texts.now verdict)) }
{
    match verdict {
        BaseVerdict::NotGraded { set, first, second } => {
            room.put(b"learning no", out);
            put_double(texts, set, first, second, room, out);
        }
        BaseVerdict::Learning => put_line(&[b"learning", b"yes"], room, out),
    }
}

/// Says the verdict on a family.
pub fn put_verdict<K: Sink>(texts: &SetTexts, verdict: &Verdict, room: &mut Room, out: &mut K)
    ensures { Says (K.written out.old) (K.faults out.old) room.old
        (K.written out.new) (K.faults out.new) room.new
        (line_bytes (verdict_line texts.now verdict.now)) }
{
    match verdict {
        Verdict::NoEmpty => put_line(&[b"test", b"no-empty"], room, out),
        Verdict::NoFull => put_line(&[b"test", b"no-full"], room, out),
        Verdict::NotClosed { left, right } => {
            room.put(b"test not-closed", out);
            texts.put_set(*left, room, out);
            texts.put_set(*right, room, out);
            room.end_line(out);
        }
        Verdict::NotGraded { set, first, second } => {
            room.put(b"test not-graded", out);
            put_double(texts, *set, *first, *second, room, out);
        }
        Verdict::Learning { base } => {
            put_numbered(&[b"test", b"learning"], &[base.len() as u64], room, out);
        }
    }
}

// Says the end of a line: a set that is an atom at two items, and these, each word behind a space,
// and a line feed.
fn put_double<K: Sink>(
    texts: &SetTexts,
    set: ItemSet,
    first: u32,
    second: u32,
    room: &mut Room,
    out: &mut K,
)
    ensures { Says (K.written out.old) (K.faults out.old) room.old
        (K.written out.new) (K.faults out.new) room.new
        (spaced (λ w. w) (double_words texts.now set first second) ++ 10 ∷ []) }
{
    texts.put_set(set, room, out);
    texts.put_name(first, room, out);
    texts.put_name(second, room, out);
    room.end_line(out);
}

/// Says a state.
pub fn put_state<K: Sink>(texts: &SetTexts, set: ItemSet, room: &mut Room, out: &mut K)
    ensures { Says (K.written out.old) (K.faults out.old) room.old
        (K.written out.new) (K.faults out.new) room.new
        (line_bytes (state_line texts.now set)) }
{
    room.put(b"state", out);
    texts.put_set(set, room, out);
    room.end_line(out);
}

/// Says the fringes of a state: the inner one, and behind a bar the outer one.
pub fn put_fringes<K: Sink>(texts: &SetTexts, fringes: FringePair, room: &mut Room, out: &mut K)
    ensures { Says (K.written out.old) (K.faults out.old) room.old
        (K.written out.new) (K.faults out.new) room.new
        (line_bytes (fringes_line texts.now fringes)) }
{
    room.put(b"fringes", out);
    texts.put_spaced(fringes.inner, 0, room, out);
    room.put(b" |", out);
    texts.put_spaced(fringes.outer, 0, room, out);
    room.end_line(out);
}
