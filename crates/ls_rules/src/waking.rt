// Going on from the items that fell out to the rules that they wake.
ghost use Rattle.std.specs.Prelude.{◌≡◌, ℕ, ◌<◌, ◌≤◌, map, All, length, true, false, IfSome};
ghost use Rattle.std.specs.List.{list_all};
ghost use Rattle.ls_set.specs.{IsWithin, Items, empty, has, is_good};
ghost use Rattle.ls_rules.specs.Followers.{AreFollowed};
ghost use Rattle.ls_rules.specs.Parts.{first_of, several};
ghost use Rattle.ls_rules.specs.Places.{IsIndexOf, places_at};
ghost use Rattle.ls_rules.specs.Sets.{set_at};
ghost use Rattle.ls_rules.specs.Singles.{AreSingles};
ghost use Rattle.ls_rules.specs.Waking.{look_at, lose_all, lost_with, wake, Settling};
ghost use Rattle.ls_rules.specs.Waking.{IsKeeping, SettlesKeeping};

use crate::followers::Followers;
use crate::index::Index;
use crate::round::Round;
use crate::singles::Singles;
use ls_set::{ItemSet, PLACES, Query};

// Looks at the rules at the places. Where nothing is kept any more, no rule is broken, and the rest
// need no look.
fn look_at(rules: &[Query], places: &[usize], round: &mut Round)
    requires items { All (λ r. r.q < PLACES) rules.now }
    requires places { All (λ p. p < length rules.now) places.now }
    ensures { round.new ≡ look_at rules.now places.now round.old }
{
    for place in places {
        if round.look(&rules[*place]) && round.is_over() {
            return;
        }
    }
}

// Looks at the rules at the places, until an item of `keep` falls out. The result is whether none
// does.
fn look_keeping(rules: &[Query], places: &[usize], keep: ItemSet, round: &mut Round) -> bool
    requires items { All (λ r. r.q < PLACES) rules.now }
    requires places { All (λ p. p < length rules.now) places.now }
    ensures { IsKeeping keep round.old (look_at rules.now places.now round.old) round.new result }
{
    for place in places {
        let rule = &rules[*place];
        if round.breaks(rule) {
            if keep.has(rule.q) {
                return false;
            }
            round.lose(rule.q);
            if round.is_over() {
                return true;
            }
        }
    }
    true
}

// The items of the set that are kept fall out, unless one of `keep` is among them. The result is
// whether none is.
#[tactic(auto, unfolding(ls_set::specs::ItemSet::is_same))]
fn lose_keeping(set: ItemSet, keep: ItemSet, round: &mut Round) -> bool
    ensures { IsKeeping keep round.old (lose_all round.old set) round.new result }
{
    if round.kept.meet(set).meet(keep) != ItemSet::empty() {
        return false;
    }
    round.lose_all(set);
    true
}

// What an item that is not kept takes with it by the rules of the item alone.
fn lost_with(singles: &Singles, kept: ItemSet, i: u32) -> ItemSet
    requires { i < PLACES }
    ensures { result ≡ lost_with singles.now kept i }
{
    if kept.has(i) {
        ItemSet::empty()
    } else {
        singles.of(i)
    }
}

// The item wakes its rules, until an item of `keep` falls out. The result is whether none does.
fn wake(
    rules: &[Query],
    singles: &Singles,
    wakes: &Index,
    i: u32,
    keep: ItemSet,
    round: &mut Round,
) -> bool
    requires item { i < PLACES }
    requires items { All (λ r. r.q < PLACES) rules.now }
    requires wakes { IsIndexOf wakes.now (map (λ r. several r.a) rules.now) }
    ensures { IsKeeping keep round.old (wake rules.now singles.now wakes.now i round.old)
        round.new result }
{
    lose_keeping(lost_with(singles, round.kept, i), keep, round)
        && look_keeping(rules, wakes.of(i), keep, round)
}

/// What the items outside the set take with them by the rules of one item alone.
pub fn lost_outside(singles: &Singles, set: ItemSet) -> ItemSet
    ensures all { (i j : ℕ) → has set i ≡ false → has (set_at singles.now i) j ≡ true →
        has result j ≡ true }
    ensures no_other { (j : ℕ) → has result j ≡ true →
        (i : ℕ) × (has set i ≡ false) × (has (set_at singles.now i) j ≡ true) }
{
    let outside = singles.items().minus(set);
    outside
        .items()
        .fold(ItemSet::empty(), |lost, i| lost.union(singles.of(i)))
}

// Looks at the rules whose sets A begin with the item. Where no item q of theirs is kept, none of
// them is broken, and they need no look.
fn look_from(rules: &[Query], starts: &Index, heads: &Followers, i: u32, round: &mut Round)
    requires items { All (λ r. r.q < PLACES) rules.now }
    requires starts { IsIndexOf starts.now (map (λ r. first_of (several r.a)) rules.now) }
    requires heads { AreFollowed heads.now (λ r. first_of (several r.a)) rules.now }
    ensures { round.new ≡ look_at rules.now (places_at starts.now i) round.old }
{
    if heads.meets(i, round.kept) {
        look_at(rules, starts.of(i), round);
    }
}

/// Looks at each rule whose set A begins with an item outside the set, of `n` items. Of the set
/// there is kept what no rule takes out, and what fell out wakes each rule that is still broken.
pub fn begin(
    rules: &[Query],
    singles: &Singles,
    starts: &Index,
    heads: &Followers,
    n: u32,
    set: ItemSet,
) -> Round
    requires few { n ≤ PLACES }
    requires good { list_all (is_good n) rules.now ≡ true }
    requires singles { AreSingles singles.now rules.now }
    requires starts { IsIndexOf starts.now (map (λ r. first_of (several r.a)) rules.now) }
    requires heads { AreFollowed heads.now (λ r. first_of (several r.a)) rules.now }
    ensures settling { Settling rules.now set result }
    ensures whole { result.fallen ≡ empty → result.kept ≡ set }
{
    let mut left = starts.items().minus(set);
    let mut round = Round {
        kept: set,
        fallen: ItemSet::empty(),
    };
    if !singles.items().is_within(set) {
        round.lose_all(lost_outside(singles, set));
    }
    while let Some(i) = left.least() {
        left = left.without(i);
        look_from(rules, starts, heads, i, &mut round);
    }
    round
}

/// Goes on from the items that fell out, until no rule is broken, nothing is kept any more, or an
/// item of `keep` falls out.
pub fn settle(
    rules: &[Query],
    singles: &Singles,
    wakes: &Index,
    n: u32,
    round: Round,
    keep: ItemSet,
) -> Option<ItemSet>
    requires few { n ≤ PLACES }
    requires good { list_all (is_good n) rules.now ≡ true }
    requires singles { AreSingles singles.now rules.now }
    requires wakes { IsIndexOf wakes.now (map (λ r. several r.a) rules.now) }
    ensures value { (first : Items) → Settling rules.now first round → IsWithin keep round.kept →
        SettlesKeeping rules.now first keep result }
    ensures part { IfSome result (λ k. IsWithin k round.kept) }
{
    let mut round = round;
    while let Some(i) = round.fallen.least() {
        if round.is_over() {
            return Some(round.kept);
        }
        round.fallen = round.fallen.without(i);
        if !wake(rules, singles, wakes, i, keep, &mut round) {
            return None;
        }
    }
    Some(round.kept)
}
