// Widest members on the way to a word, from the first place on.
ghost use Rattle.std.specs.Prelude.{◌+◌, ◌≤◌};
ghost use Rattle.ls_set.specs.{IsWithin, full};
ghost use Rattle.ls_enum.specs.Listings.{NoneFrom, count_before};
ghost use Rattle.ls_enum.specs.Widest.{AreWidest};

use crate::successor::first;
use crate::widest::WidestMembers;
use ls_interior::{Interior, Steps};
use ls_set::{ItemSet, PLACES};
use std::sync::ledger::Ledger;

// Makes the widest members at the items of a word, where there are none yet: the items that the
// word lacks are taken out of the greatest member, one after another, as long as the word's items
// before them stay. The result is the place where one fell: no member first differs from the word
// at an item of the word from there on. With a try at each item of the word before that place, it
// takes at most one step more than there are items.
pub(crate) fn fill<I: Interior, L: Ledger>(
    f: &I,
    word: ItemSet,
    widest: &mut WidestMembers,
    steps: &mut Steps<L>,
) -> u32
    requires small { IsWithin word (full (I.item_count f.now)) }
    requires widest { AreWidest (I.members f.now) widest.old.held.items }
    ensures none { NoneFrom (I.members f.now) word result }
    ensures few { result ≤ I.item_count f.now }
    ensures places { result ≤ PLACES }
    ensures widest { AreWidest (I.members f.now) widest.new.held.items }
    ensures cost { steps.new + count_before word result
        ≤ steps.old + (I.item_count f.now + 1) }
{
    if widest.held.is_empty() {
        go_forward(f, word, widest, steps)
    } else {
        f.items()
    }
}

// The same, whatever widest members there are.
fn go_forward<I: Interior, L: Ledger>(
    f: &I,
    word: ItemSet,
    widest: &mut WidestMembers,
    steps: &mut Steps<L>,
) -> u32
    requires small { IsWithin word (full (I.item_count f.now)) }
    requires widest { AreWidest (I.members f.now) widest.old.held.items }
    ensures none { NoneFrom (I.members f.now) word result }
    ensures few { result ≤ I.item_count f.now }
    ensures places { result ≤ PLACES }
    ensures widest { AreWidest (I.members f.now) widest.new.held.items }
    ensures cost { steps.new + count_before word result
        ≤ steps.old + (I.item_count f.now + 1) }
{
    let n = f.items();
    let mut member = first(f, steps);
    for i in 0..n {
        if word.has(i) {
            widest.push_at(i, word, member);
            if !member.has(i) {
                return i + 1;
            }
        } else {
            let before = word.keep_before(i);
            if before == word {
                return i;
            }
            let Some(next) = f.interior_without(member, i, before, steps) else {
                return i;
            };
            member = next;
        }
    }
    n
}
