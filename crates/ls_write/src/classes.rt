// The lines of a class.
ghost use Rattle.std.specs.Prelude.{map};
ghost use Rattle.ls_files.specs.ClassResults.{result_of};
ghost use Rattle.ls_meaning.specs.{class_lines, line_bytes, lines_bytes, result_line};
ghost use Rattle.ls_room.specs.Rooms.{Says};

use ls_edge::Sink;
use ls_files::{ClassResult, Results};
use ls_meaning::reason_word;
use ls_room::{Room, SetTexts, put_numbered};

/// Says what is known of the pupils of a class, and how many they are.
pub fn put_class<K: Sink>(texts: &SetTexts, results: &Results, room: &mut Room, out: &mut K)
    ensures { Says (K.written out.old) (K.faults out.old) room.old
        (K.written out.new) (K.faults out.new) room.new
        (lines_bytes (class_lines texts.now results.now)) }
{
    let list = results.as_slice();
    put_results(texts, list, room, out);
    put_numbered(&[b"class"], &[list.len() as u64], room, out);
}

// Says what is known of each pupil.
fn put_results<K: Sink>(texts: &SetTexts, list: &[ClassResult], room: &mut Room, out: &mut K)
    ensures { Says (K.written out.old) (K.faults out.old) room.old
        (K.written out.new) (K.faults out.new) room.new
        (lines_bytes (map (λ r. result_line texts.now (result_of r)) list.now)) }
{
    for known in list {
        put_result(texts, known, room, out);
    }
}

// Says what is known of a pupil: its name, the number of replies, why its assessment is over, and
// the leading state.
fn put_result<K: Sink>(texts: &SetTexts, known: &ClassResult, room: &mut Room, out: &mut K)
    ensures { Says (K.written out.old) (K.faults out.old) room.old
        (K.written out.new) (K.faults out.new) room.new
        (line_bytes (result_line texts.now (result_of known.now))) }
{
    room.put(b"result ", out);
    room.put(known.name.as_str().as_bytes(), out);
    room.space(out);
    room.put_number(known.replies, out);
    room.space(out);
    room.put(reason_word(known.reason).as_bytes(), out);
    texts.put_set(known.state, room, out);
    room.end_line(out);
}
