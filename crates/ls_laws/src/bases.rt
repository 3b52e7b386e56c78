// Laws of bases, and of what lists of sets span.
ghost use Rattle.std.specs.Prelude.{◌≡◌, ℕ, true, List, [], filter};
ghost use Rattle.ls_set.specs.{IsInOrder, Items, full, is_among};
ghost use Rattle.ls_set.specs.declared.query.Query.{Query};
ghost use Rattle.ls_theory.specs.{Sets, base, breaks_none, compat, is_space, is_union_closed};
ghost use Rattle.ls_theory.specs.{unions};
ghost use Rattle.ls_laws.specs.Families.{IsFamily};
ghost use Rattle.ls_laws.specs.Spans.{AreOn, IsPart, Spans, needed, spanned, left_by, after_yes};

/// Each member is the union of the base sets within it, no base set is a union of other members,
/// and a list of members that spans them all has each base set.
pub fn base_spans()
    ensures spans { (f : List Items) → Spans (base f) f }
    ensures no_union { (f : List Items) (k : Items) (parts : List Items) →
        is_among (base f) k ≡ true →
        ((s : Items) → is_among parts s ≡ true → (is_among f s ≡ true) × ¬ (s ≡ k)) →
        ¬ (unions parts ≡ k) }
    ensures least { (f g : List Items) → IsPart g f → Spans g f → IsPart (base f) g }
{}

/// Any of its members that span a family tell its base: the base sets are those that are not the
/// union of the others within them.
pub fn base_of_spanning()
    ensures members { (f g : List Items) → IsPart g f → Spans g f →
        (k : Items) → is_among (base f) k ≡ is_among (needed g) k }
    ensures list { (f g : List Items) → IsInOrder f → IsInOrder g → IsPart g f → Spans g f →
        base f ≡ needed g }
{}

/// The sets that a list spans are closed under union and hold the list and the empty set, and the
/// list tells their base; what the base of a space spans is the space.
pub fn spanned_by()
    ensures closed { (n : ℕ) (g : List Items) → is_union_closed (spanned n g) ≡ true }
    ensures holds { (n : ℕ) (g : List Items) → AreOn n g → IsPart g (spanned n g) }
    ensures whole { (n : ℕ) (g : List Items) → Spans g (spanned n g) }
    ensures base { (n : ℕ) (g : List Items) → IsInOrder g → AreOn n g →
        base (spanned n g) ≡ needed g }
    ensures of_base { (n : ℕ) (f : List Items) → IsInOrder f → AreOn n f →
        is_space (full n) f ≡ true →
        spanned n (base f) ≡ f }
{}

/// The base sets that do not break a query, with each union of one that breaks it and one that has
/// an item of its A, are members that do not break it and span those; so they tell the base of what
/// a Yes leaves.
pub fn spans_after_yes()
    ensures spans { (f : List Items) (r : Query) → Spans (after_yes (base f) r) (left_by r f) }
    ensures members { (f : List Items) (r : Query) → is_union_closed f ≡ true →
        IsPart (after_yes (base f) r) (left_by r f) }
    ensures base { (f : List Items) (r : Query) → is_union_closed f ≡ true →
        (k : Items) → is_among (base (left_by r f)) k ≡ is_among (needed (after_yes (base f) r)) k }
    ensures list { (f g : List Items) (r : Query) → is_union_closed f ≡ true → IsInOrder f →
        IsInOrder g →
        ((k : Items) → is_among g k ≡ is_among (after_yes (base f) r) k) →
        base (left_by r f) ≡ needed g }
{}

/// What is compatible with a start by listed sets is what the sets span. So a family, whatever it
/// comes from, is what is compatible with the start by its base; and Yes answers leave its members
/// that break none of them.
pub fn family_is_compatible_with_its_base()
    ensures spanned { (n : ℕ) (sets : List Items) → compat n (Sets sets) [] ≡ spanned n sets }
    ensures family { (n : ℕ) (f : List Items) → IsFamily n f → compat n (Sets (base f)) [] ≡ f }
    ensures after_yeses { (n : ℕ) (f : List Items) (yeses : List Query) → IsFamily n f →
        compat n (Sets (base f)) yeses ≡ filter (breaks_none yeses) f }
{}
