// The line of a surmise function. Its text may be larger than memory, so it is said piece by piece.
ghost use Rattle.std.specs.Prelude.{◌≡◌, ◌<◌, false, length, map};
ghost use Rattle.std.specs.List.{All};
ghost use Rattle.serde_json.specs.Written.{comma_if};
ghost use Rattle.json.specs.Print.{quoted};
ghost use Rattle.ls_set.specs.{set_of};
ghost use Rattle.ls_domain.specs.Texts.{names_of_set};
ghost use Rattle.ls_theory.specs.{atom_items, atoms_at};
ghost use Rattle.ls_meaning.specs.{line_bytes, surmise_line};
ghost use Rattle.ls_room.specs.Rooms.{Says};
ghost use Rattle.ls_write.specs.SurmiseTexts.{listed, clause_text, row_text};

use ls_edge::Sink;
use ls_meaning::SurmiseClauses;
use ls_room::{Room, SetTexts};
use ls_set::{ItemSet, PLACES};

/// Says the line of a surmise function: for each item its clauses, as a JSON object with no space.
/// The keys are the names, in the order of their bytes. A clause is the array of the names of its
/// items, in the order of items. Nothing takes memory. After a fault of the sink no more clauses
/// are looked for.
pub fn put_surmise<K: Sink>(
    texts: &SetTexts,
    clauses: &SurmiseClauses,
    room: &mut Room,
    out: &mut K,
)
    requires items { length clauses.now ≡ length texts.now }
    ensures { Says (K.written out.old) (K.faults out.old) room.old (K.written out.new)
        (K.faults out.new) room.new (line_bytes (surmise_line texts.now clauses.now)) }
{
    let sets = clauses.base.as_slice();
    let atoms = clauses.atoms.as_slice();
    room.put(b"surmise {", out);
    put_rows(texts, texts.by_name(), sets, atoms, room, out);
    room.put(b"}\n", out);
}

// Says the rows of some items.
fn put_rows<K: Sink>(
    texts: &SetTexts,
    items: &[u32],
    sets: &[ItemSet],
    atoms: &[ItemSet],
    room: &mut Room,
    out: &mut K,
)
    requires items { All (λ i. i < PLACES) items.now }
    requires atoms { atoms.now ≡ map (λ k. set_of (atom_items sets.now k)) sets.now }
    ensures { Says (K.written out.old) (K.faults out.old) room.old (K.written out.new)
        (K.faults out.new) room.new (listed (row_text texts.now sets.now) false items.now) }
{
    let mut later = false;
    for item in items {
        if room.has_failed() {
            return;
        }
        put_comma(later, room, out);
        put_row(texts, sets, atoms, *item, room, out);
        later = true;
    }
}

// Says the row of an item: its name, and the atoms at it.
fn put_row<K: Sink>(
    texts: &SetTexts,
    sets: &[ItemSet],
    atoms: &[ItemSet],
    item: u32,
    room: &mut Room,
    out: &mut K,
)
    requires place { item < PLACES }
    requires atoms { atoms.now ≡ map (λ k. set_of (atom_items sets.now k)) sets.now }
    ensures { Says (K.written out.old) (K.faults out.old) room.old (K.written out.new)
        (K.faults out.new) room.new (row_text texts.now sets.now item) }
{
    texts.put_quoted(item, room, out);
    room.put(b":[", out);
    put_atoms(texts, sets, atoms, item, room, out);
    room.put(b"]", out);
}

// Says the atoms at an item.
fn put_atoms<K: Sink>(
    texts: &SetTexts,
    sets: &[ItemSet],
    atoms: &[ItemSet],
    item: u32,
    room: &mut Room,
    out: &mut K,
)
    requires place { item < PLACES }
    requires atoms { atoms.now ≡ map (λ k. set_of (atom_items sets.now k)) sets.now }
    ensures { Says (K.written out.old) (K.faults out.old) room.old (K.written out.new)
        (K.faults out.new) room.new (listed (clause_text texts.now) false (atoms_at sets.now
        item)) }
{
    let mut later = false;
    for (place, set) in sets.iter().enumerate() {
        if room.has_failed() {
            return;
        }
        if atoms[place].has(item) {
            put_comma(later, room, out);
            put_clause(texts, *set, room, out);
            later = true;
        }
    }
}

// Says a clause.
fn put_clause<K: Sink>(texts: &SetTexts, set: ItemSet, room: &mut Room, out: &mut K)
    ensures { Says (K.written out.old) (K.faults out.old) room.old (K.written out.new)
        (K.faults out.new) room.new (clause_text texts.now set) }
{
    room.put(b"[", out);
    put_quoted_names(texts, set, room, out);
    room.put(b"]", out);
}

// Says the names of a set's items, each in quotes.
fn put_quoted_names<K: Sink>(texts: &SetTexts, set: ItemSet, room: &mut Room, out: &mut K)
    ensures { Says (K.written out.old) (K.faults out.old) room.old (K.written out.new)
        (K.faults out.new) room.new (listed quoted false (names_of_set texts.now set)) }
{
    let mut later = false;
    for item in texts.items_of(set).items() {
        put_comma(later, room, out);
        texts.put_quoted(item, room, out);
        later = true;
    }
}

/// Says a comma where something stands before.
pub fn put_comma<K: Sink>(later: bool, room: &mut Room, out: &mut K)
    ensures { Says (K.written out.old) (K.faults out.old) room.old (K.written out.new)
        (K.faults out.new) room.new (comma_if later) }
{
    if later {
        room.put(b",", out);
    }
}
