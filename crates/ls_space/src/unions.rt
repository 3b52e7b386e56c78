// Whether a family is closed under union.
ghost use Rattle.std.specs.Prelude.{◌≡◌, ◌<◌, ◌≤◌, true, find, length, List, IfOk};
ghost use Rattle.std.specs.List.{list_any};
ghost use Rattle.ls_set.specs.{Items, IsWithin, is_among};
ghost use Rattle.ls_clauses.specs.Unions.{is_missing, is_apart, lacks_apart, ComesWith, IsGrown};
ghost use Rattle.ls_laws.specs.Spans.{touches};
ghost use Rattle.ls_space.specs.Together.{AreTogether};

use ls_family::Family;
use ls_set::{ItemSet, PLACES};
use std::alloc::{AllocError, Global};

// A place in the family for each item: where the sets with that item are looked for next.
type Marks = [usize; PLACES as usize];

// Whether two sets have an item in common.
#[tactic(auto, unfolding(ls_set::specs::ItemSet::is_same))]
fn touches(set: ItemSet, other: ItemSet) -> bool
    ensures { result ≡ touches set other }
{
    set.meet(other) != ItemSet::empty()
}

// Items that come with the item in each of the sets: those that all sets with it have. Where it is
// seen that the item comes alone, the rest of the sets need no look.
fn met_with(sets: &[ItemSet], item: u32) -> ItemSet
    requires { item < PLACES }
    ensures { ComesWith sets.now item result }
{
    let alone = ItemSet::empty().with(item);
    let mut met = ItemSet::full(PLACES);
    for set in sets {
        if set.has(item) {
            met = met.meet(*set);
            if met == alone {
                return alone;
            }
        }
    }
    met
}

// The same of each item below `n`.
fn all_met(alloc: Global, sets: &[ItemSet], n: u32) -> Result<Vec<ItemSet>, AllocError>
    requires { n ≤ PLACES }
    ensures count { IfOk result (λ v. length v.items ≡ n) }
    ensures together { IfOk result (λ v. AreTogether sets.now v.items) }
{
    let mut all = Vec::new(alloc);
    for item in 0..n {
        all.push(met_with(sets, item))?;
    }
    Ok(all)
}

// A set that has all items of the sets.
fn whole_of(sets: &[ItemSet]) -> ItemSet
    ensures { (b : Items) → is_among sets.now b ≡ true → IsWithin b result }
{
    let mut whole = ItemSet::empty();
    for set in sets {
        whole = whole.union(*set);
    }
    whole
}

// The first place from the mark on whose set doesn't come before the given one.
fn moved(sets: &[ItemSet], mark: usize, set: ItemSet) -> usize {
    let mut place = mark;
    while place < sets.len() && sets[place].comes_before(set) {
        place += 1;
    }
    place
}

// Whether the set is seen to be one of the sets, at the first place from the mark on that can have
// it. The mark moves there.
fn is_found(sets: &[ItemSet], mark: &mut usize, set: ItemSet) -> bool
    ensures { result ≡ true → is_among sets.now set ≡ true }
{
    let place = moved(sets, *mark, set);
    *mark = place;
    if place < sets.len() {
        sets[place] == set
    } else {
        false
    }
}

// Items outside the set each of which gives with it a set of the family, along with the items that
// come with it. All that is told of the items is that they do so: where the marks pass one by, more
// unions are looked at.
fn grown(f: &Family, together: &[ItemSet], marks: &mut Marks, set: ItemSet) -> ItemSet
    requires { length together.now ≡ f.now.item_count }
    ensures { (g : List Items) → AreTogether g together.now → IsGrown f.now.sets g set result }
{
    let mut grown = ItemSet::empty();
    for item in 0..f.items() {
        let place = item as usize;
        if !set.has(item) && is_found(f.members(), &mut marks[place], set.union(together[place])) {
            grown = grown.with(item);
        }
    }
    grown
}

// Whether the family lacks the union of two sets.
fn is_missing(f: &Family, set: ItemSet, other: ItemSet) -> bool
    ensures { result ≡ is_missing f.now.sets set other }
{
    !f.contains(set.union(other))
}

// Whether the union of the set with a base set is to be looked at, and is missing.
fn is_apart(f: &Family, grown: ItemSet, set: ItemSet, other: ItemSet) -> bool
    ensures { result ≡ is_apart f.now.sets grown set other }
{
    !touches(other, grown) && !other.is_within(set) && is_missing(f, set, other)
}

// Whether a union of the set with a base set is missing, where no earlier set lacks one. The base
// sets lie within `whole`: where all its items are the set's or grown, no union is missing.
fn lacks(f: &Family, base: &[ItemSet], whole: ItemSet, grown: ItemSet, set: ItemSet) -> bool
    requires { (b : Items) → is_among base.now b ≡ true → IsWithin b whole }
    ensures { result ≡ lacks_apart f.now.sets base.now grown set }
{
    !whole.is_within(set.union(grown)) && base.iter().any(|other| is_apart(f, grown, set, *other))
}

/// The first set of the family whose union with a base set is missing.
pub fn first_lacking(
    alloc: Global,
    f: &Family,
    base: &[ItemSet],
) -> Result<Option<ItemSet>, AllocError>
    ensures { IfOk result (λ found. found
        ≡ find (λ k. list_any (is_missing f.now.sets k) base.now) f.now.sets) }
{
    let together = all_met(alloc, base, f.items())?;
    let whole = whole_of(base);
    let sets = f.members();
    let mut marks = [0; PLACES as usize];
    for place in 0..sets.len() {
        let set = sets[place];
        let grown = grown(f, &together, &mut marks, set);
        if lacks(f, base, whole, grown, set) {
            return Ok(Some(set));
        }
    }
    Ok(None)
}

/// The first set of the family whose union with the given one is missing.
pub fn first_partner(f: &Family, set: ItemSet) -> Option<ItemSet>
    ensures { result ≡ find (is_missing f.now.sets set) f.now.sets }
{
    f.members()
        .iter()
        .copied()
        .find(|other| is_missing(f, set, *other))
}
