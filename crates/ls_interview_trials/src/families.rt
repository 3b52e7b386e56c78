// Listings and tables over the family of all sets of three items.
ghost use Rattle.std.specs.Prelude.{◌≡◌, ◌<◌};
ghost use Rattle.std.specs.Option.{ForSome};
ghost use Rattle.ls_set.specs.{IsWithin, full};

use crate::tally::Tally;
use ls_enum::{States, first, next_after, page};
use ls_infer::Table;
use ls_interior::{Counted, Free, Steps};
use ls_query::Blocks;
use ls_set::{ItemSet, PLACES, Query};
use ls_theory::{Known, No};
use std::alloc::Global;
use std::marker::Brand;
use std::sync::ledger::{Blank, Ledger};

// Whether the sets after one, or the first of all, are so many, with more behind them or not.
fn is_page<L: Ledger>(
    alloc: Global,
    f: &Counted<Free>,
    after: Option<ItemSet>,
    k: u32,
    want: (usize, bool),
    steps: &mut Steps<L>,
) -> bool
    requires { ForSome after (λ set. IsWithin set (full f.now)) }
{
    match page(alloc, f, after, k, steps) {
        Ok(listing) => (listing.sets.len(), listing.more) == want,
        Err(_) => false,
    }
}

// How many sets come after the given one.
fn after<L: Ledger>(alloc: Global, f: &Free, set: ItemSet, steps: &mut Steps<L>) -> usize
    requires { IsWithin set (full f.now) }
{
    match States::from_cursor(&Counted::new(f), set, steps).collect::<Vec<ItemSet>>(alloc) {
        Ok(sets) => sets.len(),
        Err(_) => 0,
    }
}

// The first two sets, those after the second, how many there are, and how many after the first.
fn listings<L: Ledger>(tally: &mut Tally, alloc: Global, steps: &mut Steps<L>) {
    let free = Free::new(3);
    let f = Counted::new(&free);
    let all = first(&f, steps);
    let second = next_after(&f, all, steps);
    let front = is_page(alloc, &f, None, 2, (2, true), steps);
    let rest = is_page(alloc, &f, second, 7, (6, false), steps);
    tally.want(front && rest, "pages");
    let count = States::from_start(&f, steps).count();
    tally.want(count == 8 && after(alloc, &free, all, steps) == 7, "counts");
}

// The query of one item and another.
fn asked(a: u32, q: u32) -> Query
    requires { a < PLACES }
{
    Query {
        a: ItemSet::empty().with(a),
        q,
    }
}

// A No stands, under a Yes that comes and goes.
fn changes<L: Ledger>(tally: &mut Tally, f: &Counted<Free>, table: &mut Table, steps: &mut Steps<L>)
    requires items { f.now ≡ 3 }
    requires blocks { table.old.table.blocks.item_count ≡ 3 }
{
    let (yes, no) = (asked(0, 1), asked(0, 2));
    if !yes.is_good(3) || !no.is_good(3) || table.reserve_no().is_err() {
        return tally.want(false, "room for a No");
    }
    let answer = No {
        number: 2,
        query: no,
    };
    table.no_added(f, answer, steps);
    table.yes_added(f, &yes, steps);
    table.yes_removed(f, &yes, steps);
    let told = table.answer_of(f, &no, steps);
    tally.want(told == Known::No { by: 2 }, "what a No tells");
    let next = table.next_unsettled(Some(&yes));
    tally.want(next == Some(asked(1, 0)), "the next question");
    table.no_removed(2);
    let first = table.next_unsettled(None);
    tally.want(first == Some(yes), "the first question");
}

fn table<L: Ledger>(tally: &mut Tally, alloc: Global, f: &Counted<Free>, steps: &mut Steps<L>)
    requires { f.now ≡ 3 }
{
    let Ok(blocks) = Blocks::new(3, 1) else {
        return tally.want(false, "blocks");
    };
    match Table::build(alloc, blocks, f, &[], steps) {
        Ok(mut table) => changes(tally, f, &mut table, steps),
        Err(_) => tally.want(false, "a table"),
    }
}

fn all_sets<L: Ledger>(tally: &mut Tally, alloc: Global, blank: Blank)
    requires name { blank.name ≡ L.name }
    requires parts { blank.parts ≡ L.parts }
    requires one { blank.parts ≡ 1 }
{
    let free = Free::new(3);
    let mut steps = Steps::<L>::new(blank);
    listings(tally, alloc, &mut steps);
    table(tally, alloc, &Counted::new(&free), &mut steps);
}

#[test]
fn all_sets_are_listed_and_told_of(rt: HostRuntime) {
    let mut tally = Tally::new();
    all_sets::<Brand>(&mut tally, rt.alloc(), Blank::new(1));
    assert_eq!(rt; tally.wrong, None);
}
