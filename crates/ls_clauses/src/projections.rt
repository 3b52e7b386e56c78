// Laws of projections.
ghost use Rattle.std.specs.Prelude.{◌≡◌, ℕ, List};
ghost use Rattle.ls_set.specs.{IsInOrder, Items, full, is_among, meet, minus, union};
ghost use Rattle.ls_theory.specs.{base, interior, projection};
ghost use Rattle.ls_laws.specs.Spans.{AreOn, IsPart, Spans, needed, spanned};
ghost use Rattle.ls_laws.specs.Families.{IsFamily};
ghost use Rattle.ls_clauses.specs.Traces.{meets_with};

/// The projection of a family on a part of the items is a family, whose interiors are told by those
/// of the family: of the set together with all items outside the part, met with the part.
pub fn projections_are_families()
    ensures family { (n : ℕ) (p : Items) (f : List Items) → IsFamily n f →
        IsFamily n (projection n p f) }
    ensures interior { (n : ℕ) (p : Items) (f : List Items) (s : Items) → AreOn n f →
        interior (projection n p f) s ≡ meet p (interior f (union s (minus (full n) p))) }
{}

/// The meets of the part with sets that span a family span its projection, and tell its base.
pub fn projections_are_spanned()
    ensures spans { (n : ℕ) (p : Items) (f g : List Items) → Spans g f →
        Spans (meets_with p g) (projection n p f) }
    ensures members { (n : ℕ) (p : Items) (f g : List Items) → AreOn n f → IsPart g f →
        IsPart (meets_with p g) (projection n p f) }
    ensures spanned { (n : ℕ) (p : Items) (f g : List Items) → IsFamily n f → IsPart g f →
        Spans g f →
        projection n p f ≡ spanned n (meets_with p g) }
    ensures of_spanned { (n : ℕ) (p : Items) (g : List Items) → AreOn n g →
        projection n p (spanned n g) ≡ spanned n (meets_with p g) }
    ensures base_sets { (n : ℕ) (p : Items) (f g : List Items) (k : Items) → AreOn n f →
        IsPart g f → Spans g f →
        is_among (base (projection n p f)) k ≡ is_among (needed (meets_with p g)) k }
    ensures base_list { (n : ℕ) (p : Items) (f g sorted : List Items) → AreOn n f →
        IsPart g f → Spans g f → IsInOrder sorted →
        ((k : Items) → is_among sorted k ≡ is_among (meets_with p g) k) →
        base (projection n p f) ≡ needed sorted }
{}
