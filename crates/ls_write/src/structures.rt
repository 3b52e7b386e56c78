// Pages of states that a file gives: those that a skill map delineates, and the mesh of two parts.
ghost use Rattle.std.specs.Prelude.{◌≡◌, ◌≤◌, ◌+◌, ◌*◌, length};
ghost use Rattle.std.specs.Option.{ForSome};
ghost use Rattle.ls_set.specs.{IsWithin, comes_before, full};
ghost use Rattle.ls_theory.specs.{page};
ghost use Rattle.ls_origins.specs.Skills.{duals};
ghost use Rattle.ls_meaning.specs.{lines_bytes, page_lines};
ghost use Rattle.ls_meaning.specs.Lines.{listed_lines};
ghost use Rattle.ls_room.specs.Rooms.{Says};

use crate::listing::put_page;
use ls_edge::Sink;
use ls_interior::{Counted, Interior, Steps};
use ls_meaning::{DualStates, MeshStates, UnionStates};
use ls_mesh::{Both, Unions};
use ls_room::{Room, SetTexts, put_more};
use ls_set::ItemSet;
use ls_skill::next_dual;
use std::sync::ledger::Ledger;

/// Says a page of the unions of sets.
pub fn put_unions<K: Sink, L: Ledger>(
    texts: &SetTexts,
    states: &UnionStates,
    after: Option<ItemSet>,
    count: u32,
    room: &mut Room,
    out: &mut K,
    steps: &mut Steps<L>,
)
    requires items { states.now.item_count ≡ length texts.now }
    requires after { ForSome after (λ w. IsWithin w (full (length texts.now))) }
    ensures says { Says (K.written out.old) (K.faults out.old) room.old
        (K.written out.new) (K.faults out.new) room.new
        (lines_bytes (listed_lines texts.now states.now count after)) }
    ensures cost { steps.new ≤ steps.old + (count + 1) * (length texts.now + 1) }
{
    let unions = Unions::new(texts.domain().count(), states.sets.as_slice());
    put_page(&unions, texts, after, count, room, out, steps);
}

/// Says a page of the complements of the unions of sets.
pub fn put_complements<K: Sink, L: Ledger>(
    texts: &SetTexts,
    states: &DualStates,
    after: Option<ItemSet>,
    count: u32,
    room: &mut Room,
    out: &mut K,
    steps: &mut Steps<L>,
)
    requires items { states.now.item_count ≡ length texts.now }
    requires after { ForSome after (λ w. IsWithin w (full (length texts.now))) }
    ensures says { Says (K.written out.old) (K.faults out.old) room.old
        (K.written out.new) (K.faults out.new) room.new
        (lines_bytes (listed_lines texts.now states.now count after)) }
    ensures cost { steps.new ≤ steps.old + (count + 1) * (2 * length texts.now) }
{
    let unions = Unions::new(texts.domain().count(), states.sets.as_slice());
    let counted = Counted::new(&unions);
    put_duals(&counted, texts, after, count, room, out, steps);
}

/// Says a page of the mesh of two parts.
pub fn put_mesh<K: Sink, L: Ledger>(
    texts: &SetTexts,
    states: &MeshStates,
    after: Option<ItemSet>,
    count: u32,
    room: &mut Room,
    out: &mut K,
    steps: &mut Steps<L>,
)
    requires items { states.now.item_count ≡ length texts.now }
    requires after { ForSome after (λ w. IsWithin w (full (length texts.now))) }
    ensures says { Says (K.written out.old) (K.faults out.old) room.old
        (K.written out.new) (K.faults out.new) room.new
        (lines_bytes (listed_lines texts.now states.now count after)) }
    ensures cost { steps.new ≤ steps.old + (count + 1) * (length texts.now + 1) }
{
    let n = texts.domain().count();
    let left = Unions::new(n, states.left.as_slice());
    let right = Unions::new(n, states.right.as_slice());
    let both = Both::new(&left, &right);
    put_page(&both, texts, after, count, room, out, steps);
}

// Says a page of the sets whose complements are members. A fault of the sink ends it.
fn put_duals<I: Interior, K: Sink, L: Ledger>(
    f: &I,
    texts: &SetTexts,
    after: Option<ItemSet>,
    count: u32,
    room: &mut Room,
    out: &mut K,
    steps: &mut Steps<L>,
)
    requires items { I.item_count f.now ≡ length texts.now }
    requires after { ForSome after (λ w. IsWithin w (full (length texts.now))) }
    ensures says { Says (K.written out.old) (K.faults out.old) room.old
        (K.written out.new) (K.faults out.new) room.new
        (lines_bytes (page_lines texts.now
        (page comes_before (duals (I.item_count f.now) (I.members f.now)) after count))) }
    ensures cost { steps.new ≤ steps.old + (count + 1) * (2 * I.item_count f.now) }
{
    let mut next = match after {
        Some(word) => next_dual(f, word, steps),
        None => Some(ItemSet::full(f.items())),
    };
    for _done in 0..count {
        if room.has_failed() {
            return;
        }
        let Some(set) = next else {
            put_more(false, room, out);
            return;
        };
        texts.put_set_line(set, room, out);
        next = next_dual(f, set, steps);
    }
    put_more(next.is_some(), room, out);
}
