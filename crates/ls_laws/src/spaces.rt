// Laws of compatible sets and of projections: which are spaces.
ghost use Rattle.std.specs.Prelude.{◌≡◌, ℕ, true, List, []};
ghost use Rattle.std.specs.List.{list_all};
ghost use Rattle.ls_set.specs.ItemSet.{Items, empty, full, meet, is_within, is_among};
ghost use Rattle.ls_set.specs.ItemSet.{IsInOrder, IsWithin};
ghost use Rattle.ls_set.specs.Query.{is_good};
ghost use Rattle.ls_set.specs.declared.query.Query.{Query};
ghost use Rattle.ls_theory.specs.{Free, Interview, Start, compat, compatible_sets, interior};
ghost use Rattle.ls_theory.specs.{is_space, is_union_closed, projection};
ghost use Rattle.ls_laws.specs.Spans.{AreOn, left_by};
ghost use Rattle.ls_laws.specs.Forced.{SomeFits};

/// The compatible sets of good queries are a space where the start is free, or its sets are a
/// space; and where some space fits the answers. What is left of a space without the members that
/// break a good query is one.
pub fn compatible_sets_are_a_space()
    ensures in_order { (n : ℕ) (start : Start) (yeses : List Query) →
        IsInOrder (compat n start yeses) }
    ensures is_on { (n : ℕ) (start : Start) (yeses : List Query) → AreOn n (compat n start yeses) }
    ensures closed { (n : ℕ) (start : Start) (yeses : List Query) →
        is_union_closed (compat n start yeses) ≡ true }
    ensures free { (n : ℕ) (yeses : List Query) → list_all (is_good n) yeses ≡ true →
        is_space (full n) (compat n Free yeses) ≡ true }
    ensures start { (n : ℕ) (start : Start) (yeses : List Query) →
        is_space (full n) (compat n start []) ≡ true →
        list_all (is_good n) yeses ≡ true → is_space (full n) (compat n start yeses) ≡ true }
    ensures left { (n : ℕ) (f : List Items) (r : Query) → is_good n r ≡ true →
        is_space (full n) f ≡ true → is_space (full n) (left_by r f) ≡ true }
    ensures fitting { (i : Interview) → SomeFits i →
        is_space (full i.count) (compatible_sets i) ≡ true }
{}

/// In a list of sets that holds the empty set and is closed under union, the interior of a set is
/// the greatest member within it. So a set is a member exactly where it is within its interior.
pub fn interiors_are_greatest()
    ensures member { (f : List Items) (s : Items) → is_among f empty ≡ true →
        is_union_closed f ≡ true → is_among f (interior f s) ≡ true }
    ensures within { (f : List Items) (s : Items) → IsWithin (interior f s) s }
    ensures greatest { (f : List Items) (s k : Items) → is_among f k ≡ true → IsWithin k s →
        IsWithin k (interior f s) }
    ensures test { (f : List Items) (s : Items) → is_among f empty ≡ true →
        is_union_closed f ≡ true → is_within s (interior f s) ≡ is_among f s }
{}

/// In any list of sets the interior of a set grows with the set, and is its own interior.
pub fn interiors_grow()
    ensures monotone { (f : List Items) (s t : Items) → IsWithin s t →
        IsWithin (interior f s) (interior f t) }
    ensures idempotent { (f : List Items) (s : Items) →
        interior f (interior f s) ≡ interior f s }
{}

/// A projection of a space is a space on the part; its members are the meets of the part with the
/// members.
pub fn projections_are_spaces()
    ensures space { (n : ℕ) (p : Items) (f : List Items) → is_within p (full n) ≡ true →
        is_space (full n) f ≡ true →
        is_space p (projection n p f) ≡ true }
    ensures holds { (n : ℕ) (p : Items) (f : List Items) (k : Items) → is_within p (full n) ≡ true →
        is_among f k ≡ true →
        is_among (projection n p f) (meet p k) ≡ true }
    ensures only { (n : ℕ) (p : Items) (f : List Items) (s : Items) →
        is_among (projection n p f) s ≡ true →
        (k : Items) × (is_among f k ≡ true) × (s ≡ meet p k) }
{}
