// Items that rules bar from a set.
ghost use Rattle.std.specs.Prelude.{◌≡◌, ◌<◌, ◌≤◌, map, All, length, true};
ghost use Rattle.std.specs.List.{list_all};
ghost use Rattle.ls_set.specs.{is_good, minus};
ghost use Rattle.ls_rules.specs.Barring.{barred};
ghost use Rattle.ls_rules.specs.Followers.{AreFollowed};
ghost use Rattle.ls_rules.specs.Parts.{first_of, several};
ghost use Rattle.ls_rules.specs.Places.{IsIndexOf, places_at};
ghost use Rattle.ls_rules.specs.Singles.{AreSingles};
ghost use Rattle.ls_rules.specs.Waking.{rules_at};

use crate::followers::Followers;
use crate::index::Index;
use crate::singles::Singles;
use crate::waking::lost_outside;
use ls_set::{ItemSet, PLACES, Query};

// The items without those that the rules at the places bar from the set.
#[tactic(auto, unfolding(ls_set::specs::ItemSet::is_same))]
fn without_barred(rules: &[Query], places: &[usize], set: ItemSet, items: ItemSet) -> ItemSet
    requires items { All (λ r. r.q < PLACES) rules.now }
    requires places { All (λ p. p < length rules.now) places.now }
    ensures { result ≡ minus items (barred (rules_at rules.now places.now) set) }
{
    let mut left = items;
    for place in places {
        let rule = &rules[*place];
        if set.meet(rule.a) == ItemSet::empty() {
            left = left.without(rule.q);
        }
    }
    left
}

// The items without those that the rules whose sets A begin with item `i` bar from the set. Where
// no item q of these rules is left, they need no look.
fn without_barred_from(
    rules: &[Query],
    starts: &Index,
    heads: &Followers,
    i: u32,
    set: ItemSet,
    items: ItemSet,
) -> ItemSet
    requires items { All (λ r. r.q < PLACES) rules.now }
    requires starts { IsIndexOf starts.now (map (λ r. first_of (several r.a)) rules.now) }
    requires heads { AreFollowed heads.now (λ r. first_of (several r.a)) rules.now }
    ensures { result ≡ minus items (barred (rules_at rules.now (places_at starts.now i)) set) }
{
    if heads.meets(i, items) {
        without_barred(rules, starts.of(i), set, items)
    } else {
        items
    }
}

/// The items without those that a rule, one of the rules on `n` items, bars from the set. Only the
/// rules are looked at whose sets A begin with an item outside the set.
pub fn not_barred(
    rules: &[Query],
    singles: &Singles,
    starts: &Index,
    heads: &Followers,
    n: u32,
    set: ItemSet,
    items: ItemSet,
) -> ItemSet
    requires few { n ≤ PLACES }
    requires good { list_all (is_good n) rules.now ≡ true }
    requires singles { AreSingles singles.now rules.now }
    requires starts { IsIndexOf starts.now (map (λ r. first_of (several r.a)) rules.now) }
    requires heads { AreFollowed heads.now (λ r. first_of (several r.a)) rules.now }
    ensures { result ≡ minus items (barred rules.now set) }
{
    let mut left = starts.items().minus(set);
    let mut items = items;
    if !singles.items().is_within(set) {
        items = items.minus(lost_outside(singles, set));
    }
    while let Some(i) = left.least() {
        left = left.without(i);
        items = without_barred_from(rules, starts, heads, i, set, items);
    }
    items
}
