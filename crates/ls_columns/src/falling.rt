// Items that fall with an item by rules of one item.
ghost use Rattle.std.specs.Prelude.{◌≡◌, ℕ, ◌<◌, true, List, length, IfOk};
ghost use Rattle.ls_lists.specs.Lists.{IsIn};
ghost use Rattle.ls_set.specs.{has, most_items};
ghost use Rattle.ls_set.specs.declared.query.Query.{Query};
ghost use Rattle.ls_rules.specs.Sets.{set_at};
ghost use Rattle.ls_columns.specs.Falling.{FallsWith, IsFalling};

use ls_set::{ItemSet, PLACES, Query};
use std::alloc::{AllocError, Global};

// The items that fall with item `i` fall with each item with which it falls.
fn add(falling: &mut [ItemSet], i: u32, more: ItemSet)
    requires item { i < most_items }
    requires count { length falling.old ≡ most_items }
    ensures sound { (rules : List Query) → IsFalling rules falling.old →
        ((j : ℕ) → has more j ≡ true → FallsWith rules i j) → IsFalling rules falling.new }
    ensures count { length falling.new ≡ most_items }
{
    for j in 0..falling.len() {
        if j == i as usize || falling[j].has(i) {
            falling[j] = falling[j].union(more);
        }
    }
}

// Adds what falls by the rule, if its set A is one item alone.
#[tactic(auto, unfolding(ls_set::specs::ItemSet::is_same))]
fn add_rule(falling: &mut [ItemSet], rule: &Query)
    requires count { length falling.old ≡ most_items }
    ensures sound { (rules : List Query) → IsIn rule.now rules → IsFalling rules falling.old →
        IsFalling rules falling.new }
    ensures count { length falling.new ≡ most_items }
{
    if let Some(i) = rule.a.least() {
        if rule.q < PLACES && rule.a == ItemSet::empty().with(i) {
            let more = falling[rule.q as usize].with(rule.q);
            add(falling, i, more);
        }
    }
}

/// For each item, the items that fall with it by rules of one item, unless memory runs out.
pub fn falling_of(alloc: Global, rules: &[Query]) -> Result<Vec<ItemSet>, AllocError>
    ensures sound { IfOk result (λ falling. IsFalling rules.now falling.items) }
    ensures count { IfOk result (λ falling. length falling.items ≡ most_items) }
{
    let mut falling = Vec::from_elem(alloc, ItemSet::empty(), PLACES as usize)?;
    for rule in rules {
        add_rule(&mut falling, rule);
    }
    Ok(falling)
}

/// The items that fall with the items that fell.
pub fn falling_with(falling: &[ItemSet], fallen: ItemSet) -> ItemSet
    requires { length falling.now ≡ most_items }
    ensures { (j : ℕ) → has result j ≡ true →
        (i : ℕ) × (has fallen i ≡ true) × (has (set_at falling.now i) j ≡ true) }
{
    let mut with = ItemSet::empty();
    let mut left = fallen;
    while let Some(i) = left.least() {
        left = left.without(i);
        with = with.union(falling[i as usize]);
    }
    with
}
