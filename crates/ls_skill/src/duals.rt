// Laws of the sets whose complements are members.
ghost use Rattle.std.specs.Prelude.{◌≡◌, ◌&&◌, ℕ, true, false, List, find, slice_get, Some};
ghost use Rattle.ls_set.specs.ItemSet.{Items, empty, full, has, minus, comes_before, is_within};
ghost use Rattle.ls_set.specs.ItemSet.{is_among, IsInOrder, IsWithin};
ghost use Rattle.ls_theory.specs.Families.{interior};
ghost use Rattle.ls_laws.specs.Families.{IsFamily};
ghost use Rattle.ls_origins.specs.Skills.{duals};
ghost use Rattle.ls_skill.specs.Duals.{dual_reach, lowered_at, lowered, next_dual};

/// The sets whose complements are members: all items come first, where the empty set is a member.
/// The first after a word is found by interiors alone, at most two for each item.
pub fn duals_follow_words()
    ensures members { (n : ℕ) (f : List Items) (s : Items) →
        is_among (duals n f) s ≡ (is_within s (full n) && is_among f (minus (full n) s)) }
    ensures in_order { (n : ℕ) (f : List Items) → IsInOrder (duals n f) }
    ensures first { (n : ℕ) (f : List Items) → is_among f empty ≡ true →
        slice_get (duals n f) 0 ≡ Some (full n) }
    ensures next { (n : ℕ) (f : List Items) (word : Items) → IsFamily n f →
        IsWithin word (full n) →
        find (comes_before word) (duals n f) ≡ next_dual n f word }
{}

/// What is made of a member by leaving out items in turn is a member. At an item that it lacks
/// nothing is left out, so no interior is formed there.
pub fn members_are_lowered()
    ensures begins { (n : ℕ) (f : List Items) (word : Items) (i : ℕ) → IsFamily n f →
        is_among f (interior f (dual_reach n word i)) ≡ true }
    ensures step { (n : ℕ) (f : List Items) (k : Items) (j : ℕ) → IsFamily n f →
        is_among f k ≡ true → is_among f (lowered_at f k j) ≡ true }
    ensures all { (n : ℕ) (f : List Items) (k : Items) (j m : ℕ) → IsFamily n f →
        is_among f k ≡ true → is_among f (lowered f k j m) ≡ true }
    ensures absent { (n : ℕ) (f : List Items) (k : Items) (j : ℕ) → IsFamily n f →
        is_among f k ≡ true → has k j ≡ false → lowered_at f k j ≡ k }
{}
