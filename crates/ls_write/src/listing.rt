// The lines of several sets.
ghost use Rattle.std.specs.Prelude.{◌≡◌, ◌≤◌, ◌+◌, ◌*◌, length, map};
ghost use Rattle.std.specs.Option.{ForSome};
ghost use Rattle.ls_set.specs.{IsWithin, comes_before, full};
ghost use Rattle.ls_theory.specs.{page};
ghost use Rattle.ls_meaning.specs.{base_lines, lines_bytes, page_lines, set_line};
ghost use Rattle.ls_room.specs.Rooms.{Says};

use ls_edge::Sink;
use ls_enum::States;
use ls_interior::{Counted, Inside, Interior, Steps};
use ls_room::{Room, SetTexts, put_more, put_numbered};
use ls_set::ItemSet;
use std::sync::ledger::Ledger;

/// Says the lines of the first `count` members that come after a set, or of the first of all, and
/// whether a further one follows. After a fault of the sink no more members are looked for.
pub fn put_listing<I: Interior, K: Sink, L: Ledger>(
    f: &I,
    texts: &SetTexts,
    after: Option<ItemSet>,
    count: u32,
    room: &mut Room,
    out: &mut K,
    steps: &mut Steps<L>,
)
    requires items { I.item_count f.now ≡ length texts.now }
    requires after { ForSome after (λ w. IsWithin w (full (length texts.now))) }
    ensures says { Says (K.written out.old) (K.faults out.old) room.old (K.written out.new)
        (K.faults out.new) room.new (lines_bytes (page_lines texts.now
        (page comes_before (I.members f.now) after count))) }
    ensures cost { steps.new ≤ steps.old + (count + 1) * (I.item_count f.now + 1) }
{
    let mut states = States::new(f, after, steps);
    for _done in 0..count {
        if room.has_failed() {
            return;
        }
        let Some(set) = states.next() else {
            put_more(false, room, out);
            return;
        };
        texts.put_set_line(set, room, out);
    }
    let is_more = states.next().is_some();
    put_more(is_more, room, out);
}

/// Says a page of the states of a family, each of whose interiors is counted.
pub fn put_page<F: Inside, K: Sink, L: Ledger>(
    family: &F,
    texts: &SetTexts,
    after: Option<ItemSet>,
    count: u32,
    room: &mut Room,
    out: &mut K,
    steps: &mut Steps<L>,
)
    requires items { F.item_count family.now ≡ length texts.now }
    requires after { ForSome after (λ w. IsWithin w (full (length texts.now))) }
    ensures says { Says (K.written out.old) (K.faults out.old) room.old
        (K.written out.new) (K.faults out.new) room.new (lines_bytes (page_lines texts.now
        (page comes_before (F.members family.now) after count))) }
    ensures cost { steps.new ≤ steps.old + (count + 1) * (F.item_count family.now + 1) }
{
    put_listing(&Counted::new(family), texts, after, count, room, out, steps);
}

/// Says the lines of a base, and how many sets it has.
pub fn put_base<K: Sink>(texts: &SetTexts, sets: &[ItemSet], room: &mut Room, out: &mut K)
    ensures { Says (K.written out.old) (K.faults out.old) room.old (K.written out.new)
        (K.faults out.new) room.new (lines_bytes (base_lines texts.now sets.now)) }
{
    put_sets(texts, sets, room, out);
    put_numbered(&[b"base"], &[sets.len() as u64], room, out);
}

// Says the lines of sets.
fn put_sets<K: Sink>(texts: &SetTexts, sets: &[ItemSet], room: &mut Room, out: &mut K)
    ensures { Says (K.written out.old) (K.faults out.old) room.old (K.written out.new)
        (K.faults out.new) room.new (lines_bytes (map (set_line texts.now) sets.now)) }
{
    for set in sets {
        texts.put_set_line(*set, room, out);
    }
}
