// The line of a skill map. Its text may be larger than memory, so it is said piece by piece.
ghost use Rattle.std.specs.Prelude.{◌≡◌, ◌<◌, ◌+◌, ◌%◌, false};
ghost use Rattle.std.specs.List.{All};
ghost use Rattle.json.specs.Print.{quoted};
ghost use Rattle.ls_files.specs.SkillFiles.{base_skills, own_skills, skill_name};
ghost use Rattle.ls_meaning.specs.{line_bytes};
ghost use Rattle.ls_meaning.specs.Lines.{skills_line};
ghost use Rattle.ls_room.specs.Rooms.{Says};
ghost use Rattle.ls_write.specs.SurmiseTexts.{listed};
ghost use Rattle.ls_write.specs.SkillTexts.{skills_row_text};

use crate::surmise::put_comma;
use ls_edge::Sink;
use ls_room::{Room, SetTexts};
use ls_set::{ItemSet, PLACES};

/// Says the line of the skill map that has a skill for each of these sets: for each item the names
/// of its skills, as a JSON object with no space. The keys are the names of the items, in the order
/// of their bytes. Nothing takes memory. A fault of the sink ends it.
pub fn put_skills<K: Sink>(texts: &SetTexts, sets: &[ItemSet], room: &mut Room, out: &mut K)
    ensures { Says (K.written out.old) (K.faults out.old) room.old
        (K.written out.new) (K.faults out.new) room.new
        (line_bytes (skills_line texts.now sets.now)) }
{
    room.put(b"skills {", out);
    put_rows(texts, texts.by_name(), sets, room, out);
    room.put(b"}\n", out);
}

// Says the rows of some items.
fn put_rows<K: Sink>(
    texts: &SetTexts,
    items: &[u32],
    sets: &[ItemSet],
    room: &mut Room,
    out: &mut K,
)
    requires { All (λ i. i < PLACES) items.now }
    ensures { Says (K.written out.old) (K.faults out.old) room.old
        (K.written out.new) (K.faults out.new) room.new
        (listed (skills_row_text texts.now (base_skills sets.now)) false items.now) }
{
    let mut later = false;
    for item in items {
        if room.has_failed() {
            return;
        }
        put_comma(later, room, out);
        put_row(texts, sets, *item, room, out);
        later = true;
    }
}

// Says the row of an item: its name, and those of its skills.
fn put_row<K: Sink>(texts: &SetTexts, sets: &[ItemSet], item: u32, room: &mut Room, out: &mut K)
    requires { item < PLACES }
    ensures { Says (K.written out.old) (K.faults out.old) room.old
        (K.written out.new) (K.faults out.new) room.new
        (skills_row_text texts.now (base_skills sets.now) item) }
{
    texts.put_quoted(item, room, out);
    room.put(b":[", out);
    put_own(sets, item, room, out);
    room.put(b"]", out);
}

// Says the names of the skills of an item.
fn put_own<K: Sink>(sets: &[ItemSet], item: u32, room: &mut Room, out: &mut K)
    requires { item < PLACES }
    ensures { Says (K.written out.old) (K.faults out.old) room.old
        (K.written out.new) (K.faults out.new) room.new
        (listed quoted false (own_skills (base_skills sets.now) item)) }
{
    let mut later = false;
    for (place, set) in sets.iter().enumerate() {
        if set.has(item) {
            put_comma(later, room, out);
            put_skill(place + 1, room, out);
            later = true;
        }
    }
}

// Says the name of the skill with a number, in quotes.
fn put_skill<K: Sink>(number: usize, room: &mut Room, out: &mut K)
    ensures { Says (K.written out.old) (K.faults out.old) room.old
        (K.written out.new) (K.faults out.new) room.new (quoted (skill_name number)) }
{
    let text = [
        b'"',
        b's',
        digit(number / 1000),
        digit(number / 100),
        digit(number / 10),
        digit(number),
        b'"',
    ];
    room.put(&text, out);
}

// The last digit of a number.
fn digit(number: usize) -> u8
    ensures { result ≡ 48 + number % 10 }
{
    48 + (number % 10) as u8
}
