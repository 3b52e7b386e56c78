// Laws of fringes.
ghost use Rattle.std.specs.Prelude.{◌≡◌, ℕ, true, false, not, ◌&&◌, if◌then◌else◌};
ghost use Rattle.std.specs.Prelude.{List, Some, None};
ghost use Rattle.ls_set.specs.{Items, full, has, is_among, is_same, minus, with, without};
ghost use Rattle.ls_theory.specs.{inner_fringe, interior, is_learning_space, outer_fringe};
ghost use Rattle.ls_theory.specs.{state_of};
ghost use Rattle.ls_laws.specs.Spans.{AreOn};

/// Which items the fringes of a set have.
pub fn fringes_have()
    ensures inner { (f : List Items) (k : Items) (i : ℕ) →
        has (inner_fringe f k) i ≡ (has k i && is_among f (without k i)) }
    ensures outer { (n : ℕ) (f : List Items) → AreOn n f → (k : Items) (i : ℕ) →
        has (outer_fringe n f k) i ≡ (not (has k i) && is_among f (with k i)) }
{}

/// In a learning space a member is told by its fringes, and read back from them: it is the greatest
/// member that has no item of its outer fringe.
pub fn fringes_tell()
    ensures same { (n : ℕ) (f : List Items) → AreOn n f → is_learning_space (full n) f ≡ true →
        (k l : Items) → is_among f k ≡ true → is_among f l ≡ true →
        inner_fringe f k ≡ inner_fringe f l → outer_fringe n f k ≡ outer_fringe n f l → k ≡ l }
    ensures greatest { (n : ℕ) (f : List Items) → AreOn n f → is_learning_space (full n) f ≡ true →
        (k : Items) → is_among f k ≡ true → interior f (minus (full n) (outer_fringe n f k)) ≡ k }
    ensures reads_back { (n : ℕ) (f : List Items) → AreOn n f →
        is_learning_space (full n) f ≡ true → (k : Items) → is_among f k ≡ true →
        state_of n f (inner_fringe f k) (outer_fringe n f k) ≡ Some k }
    ensures reads { (n : ℕ) (f : List Items) → AreOn n f → is_learning_space (full n) f ≡ true →
        (inner outer : Items) →
        let k = interior f (minus (full n) outer) in
        state_of n f inner outer
        ≡ (if is_same (inner_fringe f k) inner && is_same (outer_fringe n f k) outer
        then Some k else None) }
{}

/// In a learning space no member is stuck: its outer fringe has an item of each member with an item
/// that it lacks, and only the empty set has an empty inner fringe.
pub fn fringes_lead_on()
    ensures out { (n : ℕ) (f : List Items) → AreOn n f → is_learning_space (full n) f ≡ true →
        (k l : Items) (x : ℕ) → is_among f k ≡ true → is_among f l ≡ true → has l x ≡ true →
        has k x ≡ false →
        (i : ℕ) × (has l i ≡ true) × (has (outer_fringe n f k) i ≡ true) }
    ensures back { (n : ℕ) (f : List Items) → AreOn n f → is_learning_space (full n) f ≡ true →
        (k : Items) (x : ℕ) → is_among f k ≡ true → has k x ≡ true →
        (i : ℕ) × (has (inner_fringe f k) i ≡ true) }
{}
