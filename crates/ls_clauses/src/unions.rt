// Laws of the test on families.
ghost use Rattle.std.specs.Prelude.{◌≡◌, ◌∷◌, ◌++◌, ℕ, true, false, List};
ghost use Rattle.std.specs.List.{list_any};
ghost use Rattle.ls_set.specs.{IsInOrder, Items, has, is_among, items, minus};
ghost use Rattle.ls_theory.specs.Families.{is_union_closed, is_space};
ghost use Rattle.ls_theory.specs.Bases.{base, is_atom_at, atoms_at, atom_items};
ghost use Rattle.ls_theory.specs.Verdict.{base_verdict, unclosed_pair, verdict};
ghost use Rattle.ls_laws.specs.Spans.{IsPart, Spans, union_below, needed, spanned};
ghost use Rattle.ls_clauses.specs.Unions.{is_missing, is_closed_with, unclosed_pair_by};
ghost use Rattle.ls_clauses.specs.Unions.{lacks_apart, IsGrown};
ghost use Rattle.ls_clauses.specs.Verdicts.{own_by, graded_by, verdict_by_unions};

/// A list is closed under union exactly where the union of each member with each set of any members
/// that span it is a member; its base is such members. They name the pair whose union is missing.
pub fn unions_by_spanning()
    ensures closed { (f g : List Items) → IsPart g f → Spans g f →
        is_union_closed f ≡ is_closed_with g f }
    ensures closed_by_base { (f : List Items) → is_union_closed f ≡ is_closed_with (base f) f }
    ensures pair { (f g : List Items) → IsInOrder f → IsPart g f → Spans g f →
        unclosed_pair f ≡ unclosed_pair_by g f }
    ensures pair_by_base { (f : List Items) → IsInOrder f →
        unclosed_pair f ≡ unclosed_pair_by (base f) f }
{}

/// Where the unions of the members before one with the sets of any list are members, those of this
/// member are looked for by fewer unions: with the sets that have none of any grown items. Each of
/// these gives another member, with this one and items that come with it in each set of the list.
pub fn unions_by_fewer()
    ensures { (f g before after : List Items) (k s : Items) → before ++ k ∷ after ≡ f →
        IsInOrder (k ∷ after) →
        ((y : Items) → is_among before y ≡ true → list_any (is_missing f y) g ≡ false) →
        IsGrown f g k s → list_any (is_missing f k) g ≡ lacks_apart f g s k }
{}

/// Any members that span a list tell which sets are atoms, and at which items. A set is an atom at
/// those of its items that the union of the smaller sets within it lacks.
pub fn atoms_from_spanning()
    ensures atom { (f g : List Items) (q : ℕ) (k : Items) → IsPart g f → Spans g f →
        is_atom_at g q k ≡ is_atom_at f q k }
    ensures list { (f g : List Items) (q : ℕ) → IsInOrder f → IsInOrder g → IsPart g f →
        Spans g f → atoms_at g q ≡ atoms_at f q }
    ensures items { (f g : List Items) (k : Items) → IsPart g f → Spans g f →
        atom_items g k ≡ atom_items f k }
    ensures below { (f : List Items) (q : ℕ) (k : Items) →
        is_atom_at f q k ≡ has (minus k (union_below f k)) q }
    ensures items_below { (f : List Items) (k : Items) →
        atom_items f k ≡ items (minus k (union_below f k)) }
    ensures base { (f : List Items) → IsInOrder f → base f ≡ needed f }
{}

/// The verdict on a list in order, by the unions of what lies below its members. That on a space is
/// told by its base alone, or by any members that span it.
pub fn verdicts_by_unions()
    ensures any { (whole : Items) (f : List Items) → IsInOrder f →
        verdict whole f ≡ verdict_by_unions whole f }
    ensures space { (whole : Items) (f : List Items) → is_space whole f ≡ true →
        base_verdict f ≡ graded_by (base f) (base f) }
    ensures of_base { (whole : Items) (n : ℕ) (b : List Items) → base (spanned n b) ≡ b →
        is_space whole (spanned n b) ≡ true → base_verdict (spanned n b) ≡ graded_by b b }
    ensures own { (f g : List Items) (k : Items) → IsPart g f → Spans g f →
        own_by g k ≡ own_by f k }
    ensures spanning { (f g b : List Items) → IsPart g f → Spans g f →
        graded_by g b ≡ graded_by f b }
{}
