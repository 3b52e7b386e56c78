// Pages of the conjunctive states of a skill map: a pupil masters the items all of whose skills it
// has.
ghost use Rattle.std.specs.Prelude.{◌≡◌};

use crate::tally::Tally;
use ls_base::Base;
use ls_domain::Domain;
use ls_interior::{Counted, Steps};
use ls_set::ItemSet;
use ls_skill::{SkillMap, page_dual};
use std::alloc::Global;
use std::marker::Brand;
use std::sync::ledger::{Blank, Ledger};

// Skills s, t and u: the conjunctive states are {a b c}, {a}, {b c}, {c} and {}.
const SKILLS: &str = "{\"a\":[\"s\",\"t\"],\"b\":[\"t\",\"u\"],\"c\":[\"u\"]}";

// How many sets a first page has at most, what these are by their items, and whether more follow.
const PAGES: [(u32, &[&[u32]], bool); 2] = [
    (2, &[&[0, 1, 2], &[0]], true),
    (5, &[&[0, 1, 2], &[0], &[1, 2], &[2], &[]], false),
];

fn set_of(items: &[u32]) -> ItemSet {
    let mut set = ItemSet::empty();
    for item in items {
        if *item < 3 {
            set = set.with(*item);
        }
    }
    set
}

fn are(sets: &[ItemSet], want: &[&[u32]]) -> bool {
    if sets.len() != want.len() {
        return false;
    }
    let mut holds = true;
    for place in 0..sets.len() {
        holds = holds && sets[place] == set_of(want[place]);
    }
    holds
}

// Whether the first page has these sets.
fn is_page<L: Ledger>(
    alloc: Global,
    f: &Counted<Base>,
    k: u32,
    want: (&[&[u32]], bool),
    steps: &mut Steps<L>,
) -> bool {
    match page_dual(alloc, f, None, k, steps) {
        Ok(listing) => are(listing.sets.as_slice(), want.0) && listing.more == want.1,
        Err(_) => false,
    }
}

// The base of the disjunctive states, whose complements the conjunctive ones are.
fn base(alloc: Global) -> Option<Base> {
    let domain = Domain::from_csv(alloc, b"a\nb\nc\n").ok()?;
    let map = SkillMap::from_json(alloc, &domain, SKILLS.as_bytes()).ok()?;
    map.to_base(alloc).ok()
}

fn pages<L: Ledger>(tally: &mut Tally, alloc: Global, blank: Blank)
    requires name { blank.name ≡ L.name }
    requires parts { blank.parts ≡ L.parts }
    requires one { blank.parts ≡ 1 }
{
    let mut steps = Steps::<L>::new(blank);
    let Some(base) = base(alloc) else {
        return tally.want(false, SKILLS);
    };
    let f = Counted::new(&base);
    for (k, sets, more) in &PAGES {
        let holds = is_page(alloc, &f, *k, (*sets, *more), &mut steps);
        tally.want(holds, "a page of conjunctive states");
    }
}

#[test]
fn conjunctive_states_are_paged(rt: HostRuntime) {
    let mut tally = Tally::new();
    pages::<Brand>(&mut tally, rt.alloc(), Blank::new(1));
    assert_eq!(rt; tally.wrong, None);
}
