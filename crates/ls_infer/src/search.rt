// A search for open queries where no closures are kept.
ghost use Rattle.std.specs.Prelude.{◌≡◌, ◌+◌, ◌-◌, ◌*◌, ◌<◌, ◌≤◌, ◌&&◌, ℕ, max, not};
ghost use Rattle.std.specs.Prelude.{Some, find};
ghost use Rattle.ls_set.specs.{IsWithin, Items, full, has, is_good, len, minus, most_items};
ghost use Rattle.ls_set.specs.{union, with};
ghost use Rattle.ls_set.specs.declared.query.Query.{Query};
ghost use Rattle.ls_lists.specs.Lists.{IsIn};
ghost use Rattle.ls_theory.specs.{Interview, block_before, compatible_sets, is_open, nos, queries};
ghost use Rattle.ls_theory.specs.{query_before, spaces_of};
ghost use Rattle.ls_laws.specs.Forced.{IsSound};
ghost use Rattle.ls_query.specs.Blocks.{block_sets, block_queries};
ghost use Rattle.ls_infer.specs.Tables.{table_of};
ghost use Rattle.ls_infer.specs.Search.{IsOutside, IsSearch, outside_of, is_open_by};
ghost use Rattle.ls_infer.specs.Search.{looked_at};

use crate::forcing::unforced;
use crate::standing_no::StandingNo;
use crate::table::Table;
use ls_interior::{Interior, Steps};
use ls_query::{BlockWalk, Blocks};
use ls_set::{ItemSet, Query};
use std::sync::ledger::Ledger;

// A set, with the items outside its closure.
#[derive(Clone, Copy)]
struct Outside {
    set: ItemSet,
    items: ItemSet,
}

impl Outside {
    // What is outside the closure of the set, formed from nothing.
    fn new<I: Interior, L: Ledger>(f: &I, set: ItemSet, steps: &mut Steps<L>) -> Outside
        ensures outside { IsOutside (I.item_count f.now) (I.members f.now) set result }
        ensures cost { steps.new ≡ steps.old + 1 }
    {
        Outside {
            set,
            items: f.interior(ItemSet::full(f.items()).minus(set), steps),
        }
    }

    // What is outside the closure of another set, formed where it is not the same.
    fn moved<I: Interior, L: Ledger>(self, f: &I, set: ItemSet, steps: &mut Steps<L>) -> Outside
        requires { IsOutside (I.item_count f.now) (I.members f.now) self.set self }
        ensures outside { IsOutside (I.item_count f.now) (I.members f.now) set result }
        ensures cost { steps.new ≤ steps.old + 1 }
    {
        if self.set == set {
            self
        } else {
            Outside::new(f, set, steps)
        }
    }
}

// What is outside the closure of a set with one more item, of what is outside without it.
fn outside_with<I: Interior, L: Ledger>(
    f: &I,
    outside: ItemSet,
    item: u32,
    steps: &mut Steps<L>,
) -> ItemSet
    requires within { IsWithin outside (full (I.item_count f.now)) }
    requires item { item < most_items }
    ensures within { IsWithin result (full (I.item_count f.now)) }
    ensures value { (a : Items) → outside ≡ outside_of (I.item_count f.now) (I.members f.now) a →
        result ≡ outside_of (I.item_count f.now) (I.members f.now) (with a item) }
    ensures cost { steps.new ≤ steps.old + 1 }
{
    if !outside.has(item) {
        return outside;
    }
    let left = f.interior_without(outside, item, ItemSet::empty(), steps);
    left.unwrap_or(ItemSet::empty())
}

// What is outside the closure of a set with more items, which go one after another.
fn outside_with_all<I: Interior, L: Ledger>(
    f: &I,
    outside: ItemSet,
    more: ItemSet,
    steps: &mut Steps<L>,
) -> ItemSet
    requires within { IsWithin outside (full (I.item_count f.now)) }
    ensures value { (a : Items) → outside ≡ outside_of (I.item_count f.now) (I.members f.now) a →
        result ≡ outside_of (I.item_count f.now) (I.members f.now) (union a more) }
    ensures cost { steps.new ≤ steps.old + len more }
{
    let mut outside = outside;
    let mut left = more;
    while let Some(item) = left.least() {
        left = left.without(item);
        outside = outside_with(f, outside, item, steps);
    }
    outside
}

// The least item of a set alone, or the empty set.
fn least_alone(set: ItemSet) -> ItemSet
    ensures within { IsWithin result set }
    ensures less { len (minus set result) ≤ len set - 1 }
{
    match set.least() {
        Some(item) => ItemSet::empty().with(item),
        None => ItemSet::empty(),
    }
}

// What a search keeps from set to set: the others of the set that it came to, and the least of
// these alone, each with the items outside its closure; and the place of the standing No at which
// nothing was left open.
#[derive(Clone, Copy)]
struct Search {
    first: Outside,
    others: Outside,
    hint: usize,
}

impl Search {
    // A search that comes to a set with these others.
    fn new<I: Interior, L: Ledger>(f: &I, others: ItemSet, steps: &mut Steps<L>) -> Search
        ensures others { result.others.set ≡ others }
        ensures search { IsSearch (I.item_count f.now) (I.members f.now) result }
        ensures cost { steps.new ≡ steps.old + 1 }
    {
        let others = Outside::new(f, others, steps);
        let first = others;
        Search {
            first,
            others,
            hint: 0,
        }
    }

    // Comes to sets with these others. What is outside their closure is formed where they are not
    // those of the set before, and goes on from what is outside the closure of the least of them.
    fn come_to<I: Interior, L: Ledger>(&mut self, f: &I, others: ItemSet, steps: &mut Steps<L>)
        requires { IsSearch (I.item_count f.now) (I.members f.now) self.old }
        ensures others { self.new.others.set ≡ others }
        ensures search { IsSearch (I.item_count f.now) (I.members f.now) self.new }
        ensures cost { steps.new ≤ steps.old + max 1 (len others) }
        ensures stays { self.old.others.set ≡ others → steps.new ≡ steps.old }
    {
        if self.others.set == others {
            return;
        }
        let first = least_alone(others);
        self.first = self.first.moved(f, first, steps);
        self.others = Outside {
            set: others,
            items: outside_with_all(f, self.first.items, others.minus(first), steps),
        };
    }

    // The items outside the closure of the set that the walk has come to: of those that are outside
    // the closure of its others, what the greatest item leaves.
    fn outside<I: Interior, L: Ledger>(
        &mut self,
        f: &I,
        walk: &BlockWalk,
        steps: &mut Steps<L>,
    ) -> ItemSet
        requires items { I.item_count f.now ≡ walk.now.blocks.item_count }
        requires search { IsSearch (I.item_count f.now) (I.members f.now) self.old }
        requires set { IsIn walk.now.set (block_sets walk.now.blocks) }
        ensures value { result ≡ outside_of (I.item_count f.now) (I.members f.now) walk.now.set }
        ensures search { IsSearch (I.item_count f.now) (I.members f.now) self.new }
        ensures cost { steps.new ≤ steps.old + (walk.now.blocks.largest + 1) }
        ensures stays { self.old.others.set ≡ walk.now.others → steps.new ≤ steps.old + 1 }
    {
        self.come_to(f, walk.others(), steps);
        match walk.greatest() {
            Some(item) => outside_with(f, self.others.items, item, steps),
            None => unreachable!(),
        }
    }

    // The items q for which the query (A, q) is open, where the walk has come to the block set A.
    fn open_items<I: Interior, L: Ledger>(
        &mut self,
        f: &I,
        standing: &[StandingNo],
        walk: &BlockWalk,
        steps: &mut Steps<L>,
    ) -> ItemSet
        requires items { I.item_count f.now ≡ walk.now.blocks.item_count }
        requires search { IsSearch (I.item_count f.now) (I.members f.now) self.old }
        requires set { IsIn walk.now.set (block_sets walk.now.blocks) }
        ensures open { (q : ℕ) → let r : Query = record { a = walk.now.set; q = q } in
            has result q ≡ (is_good (I.item_count f.now) r
            && is_open_by (I.item_count f.now) (I.members f.now) standing.now r) }
        ensures search { IsSearch (I.item_count f.now) (I.members f.now) self.new }
        ensures cost { steps.new ≤ steps.old + (walk.now.blocks.largest + 1) }
        ensures stays { self.old.others.set ≡ walk.now.others → steps.new ≤ steps.old + 1 }
    {
        let outside = self.outside(f, walk, steps);
        unforced(standing, &mut self.hint, walk.set(), outside)
    }
}

// The first open query of the sets of the blocks that come after that of the walk. It takes at most
// one interior more than the largest set has items, for each of them up to that of the query.
fn find_after<I: Interior, L: Ledger>(
    f: &I,
    standing: &[StandingNo],
    blocks: Blocks,
    mut walk: BlockWalk,
    mut search: Search,
    steps: &mut Steps<L>,
) -> Option<Query>
    requires items { I.item_count f.now ≡ blocks.item_count }
    requires walk { walk.blocks ≡ blocks }
    requires set { IsIn walk.set (block_sets blocks) }
    requires search { IsSearch (I.item_count f.now) (I.members f.now) search }
    ensures found { let opens = is_open_by (I.item_count f.now) (I.members f.now) standing.now in
        result ≡ find (λ s. block_before walk.set s.a && opens s) (block_queries blocks) }
    ensures cost { steps.new + (blocks.largest + 1) ≤ steps.old
        + (blocks.largest + 1) * looked_at blocks (Some walk.set) result }
{
    for _passed in 0..blocks.count() {
        if !walk.advance() {
            return None;
        }
        if let Some(q) = search.open_items(f, standing, &walk, steps).least() {
            return Some(Query { a: walk.set(), q });
        }
    }
    None
}

impl Table {
    /// The first open query of the blocks that is the given one of them or comes after it. The
    /// blocks need not be those of the table: the closure of each of their sets is formed when it
    /// is looked at. `f` is the family of the table. It takes no memory, and for each block set that
    /// is looked at, from that of the given query up to that of the one found, at most one interior
    /// more than the largest has items.
    pub fn find_open<I: Interior, L: Ledger>(
        &self,
        f: &I,
        blocks: Blocks,
        first: &Query,
        steps: &mut Steps<L>,
    ) -> Option<Query>
        requires items { I.item_count f.now ≡ blocks.item_count }
        requires own { self.now.table.blocks.item_count ≡ blocks.item_count }
        requires query { IsIn first.now (block_queries blocks) }
        ensures found { (i : Interview) → IsSound i → i.count ≡ blocks.item_count →
            i.block ≡ blocks.largest → I.members f.now ≡ compatible_sets i →
            self.now.table ≡ table_of self.now.table.blocks (compatible_sets i) (nos i.answers) →
            result ≡ find (λ s. not (query_before s first.now) && is_open (spaces_of i) s)
            (queries i.count i.block) }
        ensures cost { steps.new ≤ steps.old
            + (blocks.largest + 1) * looked_at blocks (Some first.now.a) result }
    {
        let standing = self.standing();
        let walk = blocks.walk_from(first.a);
        let mut search = Search::new(f, walk.others(), steps);
        let opens = search.open_items(f, standing, &walk, steps);
        match opens.minus(ItemSet::full(first.q)).least() {
            Some(q) => Some(Query { a: first.a, q }),
            None => find_after(f, standing, blocks, walk, search, steps),
        }
    }
}
