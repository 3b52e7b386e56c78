// Laws of well-graded families, and of the verdict.
ghost use Rattle.std.specs.Prelude.{◌≡◌, ◌↔◌, ℕ, true, not, if◌then◌else◌, List, slice_index, None};
ghost use Rattle.std.specs.List.{list_any};
ghost use Rattle.ls_set.specs.{Items, is_among};
ghost use Rattle.ls_theory.specs.declared.verdict.Verdict.TheVariants.{NotGraded, Learning};
ghost use Rattle.ls_theory.specs.Families.{is_union_closed, is_space};
ghost use Rattle.ls_theory.specs.Bases.{base, is_atom_at, atom_items};
ghost use Rattle.ls_theory.specs.Verdict.{is_well_graded, is_learning_space, unclosed_pair};
ghost use Rattle.ls_theory.specs.Verdict.{double_atom, verdict};
ghost use Rattle.ls_laws.specs.Spans.{is_double};
ghost use Rattle.ls_laws.specs.Walks.{IsWellGraded};

/// A space is well graded, by sequences of members, exactly where no base set is an atom at two
/// items.
pub fn graded_by_atoms()
    ensures test { (whole : Items) (f : List Items) → is_space whole f ≡ true →
        is_well_graded f ≡ not (list_any (is_double f) (base f)) }
    ensures items { (whole : Items) (f : List Items) → is_space whole f ≡ true →
        IsWellGraded f ↔ ((k : Items) (q r : ℕ) → is_among (base f) k ≡ true →
        is_atom_at f q k ≡ true → is_atom_at f r k ≡ true → q ≡ r) }
    ensures search { (f : List Items) → (is_well_graded f ≡ true) ↔ IsWellGraded f }
{}

/// A list is closed under union exactly where no two members are found whose union is missing. The
/// verdict on a space follows from its atoms alone: it tells the base exactly of a learning space,
/// and otherwise a base set that is an atom at two items.
pub fn judged_by_atoms()
    ensures closed { (f : List Items) → (is_union_closed f ≡ true) ↔ (unclosed_pair f ≡ None) }
    ensures space { (whole : Items) (f : List Items) → is_space whole f ≡ true →
        let k = double_atom f in
        verdict whole f ≡ (if list_any (is_double f) (base f)
        then NotGraded k (slice_index (atom_items f k) 0) (slice_index (atom_items f k) 1)
        else Learning (base f)) }
    ensures learning { (whole : Items) (f b : List Items) →
        (verdict whole f ≡ Learning b) ↔ ((is_learning_space whole f ≡ true) × (b ≡ base f)) }
    ensures double { (f : List Items) → list_any (is_double f) (base f) ≡ true →
        (is_among (base f) (double_atom f) ≡ true) × (is_double f (double_atom f) ≡ true) }
{}
