// The laws of sets: what the words that contracts cite mean.
ghost use Rattle.std.specs.Prelude.{◌≡◌, ◌≢◌, ◌<◌, ◌↔◌, ◌==◌, ◌&&◌, ◌||◌, not, nat_lt};
ghost use Rattle.std.specs.Prelude.{ℕ, true, false, Contains, Some, length};
ghost use Rattle.std.specs.List.Sorted.{IsStrictlyIncreasing};
ghost use Rattle.ls_set.specs.ItemSet.{Items, has, empty, full, with, without, union, meet, minus};
ghost use Rattle.ls_set.specs.ItemSet.{keep_before, is_same, is_within, IsWithin, items, len};
ghost use Rattle.ls_set.specs.ItemSet.{least, next_item, comes_before, DiffersFirstAt, subsets};
ghost use Rattle.ls_set.specs.ItemSet.{IsInOrder, is_among, most_items};

use crate::item_set::PLACES;

/// A set is told by its items: two sets with the same items are one, and each operation has the
/// items that its name says. It does nothing when it runs, as the other laws.
pub fn sets_are_told_by_items()
    ensures one { (s t : Items) → ((i : ℕ) → has s i ≡ has t i) → s ≡ t }
    ensures same { (s t : Items) → (is_same s t ≡ true) ↔ (s ≡ t) }
    ensures within { (s t : Items) → (is_within s t ≡ true) ↔ IsWithin s t }
    ensures of_empty { (i : ℕ) → has empty i ≡ false }
    ensures of_full { (n i : ℕ) → has (full n) i ≡ nat_lt i n }
    ensures of_with { (s : Items) (k i : ℕ) → has (with s k) i ≡ (has s i || i == k) }
    ensures of_without { (s : Items) (k i : ℕ) → has (without s k) i ≡ (has s i && not (i == k)) }
    ensures of_union { (s t : Items) (i : ℕ) → has (union s t) i ≡ (has s i || has t i) }
    ensures of_meet { (s t : Items) (i : ℕ) → has (meet s t) i ≡ (has s i && has t i) }
    ensures of_minus { (s t : Items) (i : ℕ) → has (minus s t) i ≡ (has s i && not (has t i)) }
    ensures of_keep_before { (s : Items) (k i : ℕ) →
        has (keep_before s k) i ≡ (has s i && nat_lt i k) }
{}

/// The items of a set are listed in ascending order, exactly those that it has. Its length is their
/// number, its least item the least that it has, and the next item after a number the least above.
pub fn items_are_listed()
    ensures ascending { (s : Items) → IsStrictlyIncreasing (items s) }
    ensures each { (s : Items) (i : ℕ) → Contains (items s) i ↔ (has s i ≡ true) }
    ensures count { (s : Items) → len s ≡ length (items s) }
    ensures first { (s : Items) (i : ℕ) → (least s ≡ Some i)
        ↔ ((has s i ≡ true) × ((j : ℕ) → j < i → has s j ≡ false)) }
    ensures next { (s : Items) (a i : ℕ) → (next_item s a ≡ Some i)
        ↔ ((a < i) × (has s i ≡ true) × ((j : ℕ) → a < j → j < i → has s j ≡ false)) }
{}

/// A set comes before another where the least item on which they differ is in it. So none comes
/// before itself, and of any two sets one comes before the other.
pub fn sets_are_ordered()
    ensures first { (s t : Items) →
        (comes_before s t ≡ true) ↔ ((i : ℕ) × DiffersFirstAt s t i) }
    ensures strict { (s : Items) → comes_before s s ≡ false }
    ensures transitive { (s t u : Items) →
        comes_before s t ≡ true → comes_before t u ≡ true → comes_before s u ≡ true }
    ensures any_two { (s t : Items) → s ≢ t → (comes_before s t || comes_before t s) ≡ true }
{}

/// All sets of the items below `n` are listed in the order of sets, each once, and no others.
pub fn subsets_are_listed()
    ensures in_order { (n : ℕ) → IsInOrder (subsets n) }
    ensures each { (n : ℕ) (s : Items) → is_among (subsets n) s ≡ is_within s (full n) }
{}

/// A set has as many places as a domain may have items.
pub fn places_are_for_items()
    ensures { PLACES ≡ most_items }
{}
