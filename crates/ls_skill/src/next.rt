// The next set whose complement is a member, by interiors alone.
ghost use Rattle.std.specs.Prelude.{◌≡◌, ◌+◌, ◌-◌, ◌*◌, ◌<◌, ◌≤◌, true, find};
ghost use Rattle.std.specs.Option.{ForSome};
ghost use Rattle.ls_set.specs.ItemSet.{full, keep_before, minus, with, is_within, is_among};
ghost use Rattle.ls_set.specs.ItemSet.{comes_before, IsWithin};
ghost use Rattle.ls_origins.specs.Skills.{duals};
ghost use Rattle.ls_skill.specs.Duals.{dual_reach, lowered};

use ls_interior::{Interior, Steps};
use ls_set::{ItemSet, PLACES};
use std::sync::ledger::Ledger;

/// The first set after `word`, in the order of sets, whose complement is a member, or `None` where
/// there is none. The word is a set of the family's items. It takes no memory, and at most two
/// steps for each item.
pub fn next_dual<I: Interior, L: Ledger>(
    f: &I,
    word: ItemSet,
    steps: &mut Steps<L>,
) -> Option<ItemSet>
    requires { IsWithin word (full (I.item_count f.now)) }
    ensures next { result
        ≡ find (comes_before word) (duals (I.item_count f.now) (I.members f.now)) }
    ensures small { ForSome result (λ k. IsWithin k (full (I.item_count f.now))) }
    ensures cost { steps.new ≤ steps.old + 2 * I.item_count f.now }
{
    let n = f.items();
    for i in (0..n).rev() {
        if word.has(i) {
            let inside = f.interior(dual_reach(word, i, n), steps);
            if agreed(word, i, n).is_within(inside) {
                let member = lower(f, inside, i + 1, n, steps);
                return Some(ItemSet::full(n).minus(member));
            }
        }
    }
    None
}

// The items outside the word before `i`, and all items from `i` on.
fn dual_reach(word: ItemSet, i: u32, n: u32) -> ItemSet
    requires item { i < n }
    requires few { n ≤ PLACES }
    ensures { result ≡ dual_reach n word i }
{
    let all = ItemSet::full(n);
    let others = all.minus(word);
    others.keep_before(i).union(all.minus(ItemSet::full(i)))
}

// The items outside the word before `i`, and `i`.
fn agreed(word: ItemSet, i: u32, n: u32) -> ItemSet
    requires item { i < n }
    requires few { n ≤ PLACES }
    ensures { result ≡ with (keep_before (minus (full n) word) i) i }
{
    ItemSet::full(n).minus(word).keep_before(i).with(i)
}

// The member without those of its items from `first` on that can be left out in turn, each where
// those before it stay.
fn lower<I: Interior, L: Ledger>(
    f: &I,
    member: ItemSet,
    first: u32,
    n: u32,
    steps: &mut Steps<L>,
) -> ItemSet
    requires member { is_among (I.members f.now) member ≡ true }
    requires items { n ≡ I.item_count f.now }
    requires first { first ≤ n }
    requires few { n ≤ PLACES }
    ensures value { result ≡ lowered (I.members f.now) member first (n - first) }
    ensures cost { steps.new + first ≤ steps.old + n }
{
    let mut lowest = member;
    for j in first..n {
        if lowest.has(j) {
            let keep = lowest.keep_before(j);
            if let Some(less) = f.interior_without(lowest, j, keep, steps) {
                lowest = less;
            }
        }
    }
    lowest
}
