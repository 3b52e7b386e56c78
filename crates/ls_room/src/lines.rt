// Lines that are said into a room.
ghost use Rattle.std.specs.Prelude.{◌<◌, ◌++◌, ◌∷◌, [], length, map, decimal, if◌then◌else◌};
ghost use Rattle.std.specs.List.{join_with_byte};
ghost use Rattle.ls_lists.specs.Lists.{spaced};
ghost use Rattle.ls_meaning.specs.{line_bytes, line_of, more_line};
ghost use Rattle.ls_room.specs.Rooms.{Says};

use crate::Room;
use ls_edge::Sink;

/// Says a line: the words joined by single spaces, and a line feed.
pub fn put_line<K: Sink>(words: &[&[u8]], room: &mut Room, out: &mut K)
    ensures { Says (K.written out.old) (K.faults out.old) room.old
        (K.written out.new) (K.faults out.new) room.new
        (line_of (map (λ w. w.now) words.now)) }
{
    put_joined(words, room, out);
    room.end_line(out);
}

/// Says a line that ends with numbers: the words, of which there is at least one, and the numbers
/// in decimal digits, joined by single spaces, and a line feed.
pub fn put_numbered<K: Sink>(words: &[&[u8]], numbers: &[u64], room: &mut Room, out: &mut K)
    requires { 0 < length words.now }
    ensures { Says (K.written out.old) (K.faults out.old) room.old
        (K.written out.new) (K.faults out.new) room.new
        (line_of (map (λ w. w.now) words.now ++ map decimal numbers.now)) }
{
    put_joined(words, room, out);
    put_numbers(numbers, room, out);
    room.end_line(out);
}

/// Says whether more follows.
pub fn put_more<K: Sink>(is_more: bool, room: &mut Room, out: &mut K)
    ensures { Says (K.written out.old) (K.faults out.old) room.old
        (K.written out.new) (K.faults out.new) room.new (line_bytes (more_line is_more)) }
{
    let answer: &[u8] = if is_more { b"yes" } else { b"no" };
    put_line(&[b"more", answer], room, out);
}

// Says words joined by single spaces.
fn put_joined<K: Sink>(words: &[&[u8]], room: &mut Room, out: &mut K)
    ensures { Says (K.written out.old) (K.faults out.old) room.old
        (K.written out.new) (K.faults out.new) room.new
        (join_with_byte 32 (map (λ w. w.now) words.now)) }
{
    for (i, word) in words.iter().enumerate() {
        put_word(i == 0, word, room, out);
    }
}

// Says a word, behind a space unless it is the first.
fn put_word<K: Sink>(is_first: bool, word: &[u8], room: &mut Room, out: &mut K)
    ensures { Says (K.written out.old) (K.faults out.old) room.old
        (K.written out.new) (K.faults out.new) room.new
        ((if is_first then [] else 32 ∷ []) ++ word.now) }
{
    if !is_first {
        room.space(out);
    }
    room.put(word, out);
}

// Says numbers, each behind a space.
fn put_numbers<K: Sink>(numbers: &[u64], room: &mut Room, out: &mut K)
    ensures { Says (K.written out.old) (K.faults out.old) room.old
        (K.written out.new) (K.faults out.new) room.new (spaced decimal numbers.now) }
{
    for number in numbers {
        room.space(out);
        room.put_number(*number, out);
    }
}
