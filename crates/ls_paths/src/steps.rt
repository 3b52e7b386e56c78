// Steps of a walk through the learning paths, in place.
ghost use Rattle.std.specs.Prelude.{◌≡◌, ◌<◌, ◌≤◌, true, None, Some, length, take};
ghost use Rattle.std.specs.Prelude.{IfSome, MatchBool};
ghost use Rattle.ls_set.specs.{IsWithin, empty, full, is_among, minus, most_items, with};
ghost use Rattle.ls_theory.specs.{is_learning_space};
ghost use Rattle.ls_paths.specs.Growths.{first_next, next_item_after, first_growth, next_growth};
ghost use Rattle.ls_paths.specs.Levels.{AreMembersBelow, grown_to, is_fresh, leaves_below};

use ls_interior::{Inside, is_member};
use ls_set::ItemSet;

// The least item that can be added to a member; 0 where it has all items. Of the items outside it
// some can be added, so the last of them is not asked for. `outside` are those items.
fn least_item<F: Inside>(f: &F, k: ItemSet, outside: ItemSet) -> u32
    requires few { F.item_count f.now ≤ most_items }
    requires outside { outside ≡ minus (full (F.item_count f.now)) k }
    requires learning { is_learning_space (full (F.item_count f.now)) (F.members f.now) ≡ true }
    requires member { is_among (F.members f.now) k ≡ true }
    requires some { 0 < F.item_count f.now }
    ensures value { result ≡ first_next (F.item_count f.now) (F.members f.now) k }
    ensures member { is_among (F.members f.now) (with k result) ≡ true }
    ensures place { result < most_items }
{
    let Some(first) = outside.least() else {
        return 0;
    };
    if outside.next_member(first).is_none() {
        return first;
    }
    f.outer_fringe(k).least().unwrap_or(0)
}

// The least item above the given one that can be added to a member. `outside` are the items that it
// has not: where none of them is above, none need be looked for.
fn next_item<F: Inside>(f: &F, k: ItemSet, outside: ItemSet, above: u32) -> Option<u32>
    requires few { F.item_count f.now ≤ most_items }
    requires outside { outside ≡ minus (full (F.item_count f.now)) k }
    requires member { is_among (F.members f.now) k ≡ true }
    requires item { above < F.item_count f.now }
    ensures value { result ≡ next_item_after (F.item_count f.now) (F.members f.now) k above }
    ensures place { IfSome result (λ i. i < most_items) }
{
    if outside.next_member(above).is_none() {
        return None;
    }
    f.outer_fringe(k).next_member(above)
}

// Writes into the list the items by which a member grows first: at each step the least that can be
// added. `outside` are the items that the member has not.
pub fn grow<F: Inside>(f: &F, k: ItemSet, outside: ItemSet, order: &mut [u32])
    requires few { F.item_count f.now ≤ most_items }
    requires outside { outside ≡ minus (full (F.item_count f.now)) k }
    requires learning { is_learning_space (full (F.item_count f.now)) (F.members f.now) ≡ true }
    requires member { is_among (F.members f.now) k ≡ true }
    requires fits { length order.old ≤ F.item_count f.now }
    ensures { order.new
        ≡ first_growth (F.item_count f.now) (F.members f.now) (length order.old) k }
{
    let mut reached = k;
    let mut left = outside;
    for slot in order.iter_mut() {
        let item = least_item(f, reached, left);
        *slot = item;
        reached = reached.with(item);
        left = left.without(item);
    }
}

// How many of the list's first items are to be taken back for the next growth of the empty set
// after it, and the set of them: all of them, or those up to the first that cannot be added. So
// without the last of them they are members, as fewer of them are.
pub fn first_level<F: Inside>(f: &F, order: &[u32]) -> (usize, ItemSet)
    requires fresh { is_fresh empty order.now ≡ true }
    requires small { IsWithin (grown_to empty order.now) (full (F.item_count f.now)) }
    ensures level { result.0 ≤ length order.now }
    ensures set { result.1 ≡ grown_to empty (take result.0 order.now) }
    ensures small { IsWithin result.1 (full (F.item_count f.now)) }
    ensures members { AreMembersBelow (F.members f.now) order.now result.0 }
    ensures leaves { next_growth (F.item_count f.now) (F.members f.now) order.now empty
        ≡ leaves_below (F.item_count f.now) (F.members f.now) empty order.now result.0 }
{
    let _ = f.items(); // for the proof
    let mut reached = ItemSet::empty();
    for (place, item) in order.iter().enumerate() {
        reached = reached.with(*item);
        if !is_member(f, reached) {
            return (place + 1, reached);
        }
    }
    (order.len(), reached)
}

// Makes of the list the growth that leaves it at the last place below the level at which one can,
// or leaves the list as it is where none can. `k` is the set of the items before the level; without
// the last of them they are members, as fewer of them are.
pub fn leave<F: Inside>(f: &F, k: ItemSet, level: usize, order: &mut [u32]) -> bool
    requires learning { is_learning_space (full (F.item_count f.now)) (F.members f.now) ≡ true }
    requires fresh { is_fresh empty order.old ≡ true }
    requires fits { length order.old ≤ F.item_count f.now }
    requires level { level ≤ length order.old }
    requires set { k ≡ grown_to empty (take level order.old) }
    requires small { IsWithin k (full (F.item_count f.now)) }
    requires members { AreMembersBelow (F.members f.now) order.old level }
    ensures { MatchBool result
        (leaves_below (F.item_count f.now) (F.members f.now) empty order.old level
        ≡ Some order.new)
        ((leaves_below (F.item_count f.now) (F.members f.now) empty order.old level ≡ None)
        × (order.new ≡ order.old)) }
{
    let mut reached = k;
    let mut outside = ItemSet::full(f.items()).minus(k);
    for place in (0..level).rev() {
        let item = order[place];
        reached = reached.without(item);
        outside = outside.with(item);
        if let Some(next) = next_item(f, reached, outside, item) {
            order[place] = next;
            let rest = &mut order[place + 1..];
            grow(f, reached.with(next), outside.without(next), rest);
            return true;
        }
    }
    false
}
