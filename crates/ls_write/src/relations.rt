// The lines of surmise relations.
ghost use Rattle.std.specs.Prelude.{◌++◌, ◌∷◌, [], map};
ghost use Rattle.ls_lists.specs.Lists.{spaced};
ghost use Rattle.ls_domain.specs.Texts.{name_of};
ghost use Rattle.ls_origins.specs.Relations.{pair_of};
ghost use Rattle.ls_meaning.specs.{line_bytes, lines_bytes};
ghost use Rattle.ls_meaning.specs.Lines.{cover_line, cover_lines, no_relation_line};
ghost use Rattle.ls_room.specs.Rooms.{Says};

use ls_edge::Sink;
use ls_origins::{Cover, Covers, RelationFault};
use ls_room::{Room, SetTexts, put_line, put_numbered};

/// Says the covers of a relation, and how many they are.
pub fn put_covers<K: Sink>(texts: &SetTexts, covers: &Covers, room: &mut Room, out: &mut K)
    ensures { Says (K.written out.old) (K.faults out.old) room.old
        (K.written out.new) (K.faults out.new) room.new
        (lines_bytes (cover_lines texts.now covers.now)) }
{
    let list = covers.as_slice();
    put_cover_lines(texts, list, room, out);
    put_numbered(&[b"relation"], &[list.len() as u64], room, out);
}

// Says each cover.
fn put_cover_lines<K: Sink>(texts: &SetTexts, list: &[Cover], room: &mut Room, out: &mut K)
    ensures { Says (K.written out.old) (K.faults out.old) room.old
        (K.written out.new) (K.faults out.new) room.new
        (lines_bytes (map (λ c. cover_line texts.now (pair_of c)) list.now)) }
{
    for cover in list {
        put_cover(texts, *cover, room, out);
    }
}

// Says a cover: the lower item, and the higher one.
fn put_cover<K: Sink>(texts: &SetTexts, cover: Cover, room: &mut Room, out: &mut K)
    ensures { Says (K.written out.old) (K.faults out.old) room.old
        (K.written out.new) (K.faults out.new) room.new
        (line_bytes (cover_line texts.now (pair_of cover))) }
{
    put_items(texts, b"cover", &[cover.low, cover.high], room, out);
}

/// Says what keeps a surmise function from being a relation.
pub fn put_no_relation<K: Sink>(
    texts: &SetTexts,
    fault: RelationFault,
    room: &mut Room,
    out: &mut K,
)
    ensures { Says (K.written out.old) (K.faults out.old) room.old
        (K.written out.new) (K.faults out.new) room.new
        (line_bytes (no_relation_line texts.now fault)) }
{
    match fault {
        RelationFault::TwoClauses { item } => put_items(texts, b"relation no", &[item], room, out),
        RelationFault::Quasi { first, second } => {
            put_items(texts, b"relation quasi", &[first, second], room, out);
        }
        RelationFault::Memory(_) => put_line(&[b"relation"], room, out),
    }
}

// Says a line of some words and the names of some items.
fn put_items<K: Sink>(texts: &SetTexts, words: &[u8], items: &[u32], room: &mut Room, out: &mut K)
    ensures { Says (K.written out.old) (K.faults out.old) room.old
        (K.written out.new) (K.faults out.new) room.new
        (words.now ++ spaced (name_of texts.now) items.now ++ 10 ∷ []) }
{
    room.put(words, out);
    put_names(texts, items, room, out);
    room.end_line(out);
}

// Says the names of some items, each behind a space.
fn put_names<K: Sink>(texts: &SetTexts, items: &[u32], room: &mut Room, out: &mut K)
    ensures { Says (K.written out.old) (K.faults out.old) room.old
        (K.written out.new) (K.faults out.new) room.new (spaced (name_of texts.now) items.now) }
{
    for item in items {
        texts.put_name(*item, room, out);
    }
}
