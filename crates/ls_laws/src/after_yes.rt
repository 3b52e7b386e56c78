// Laws of the base after a Yes, by its atoms.
ghost use Rattle.std.specs.Prelude.{◌≡◌, ◌⊎◌, ℕ, true, false, List};
ghost use Rattle.ls_set.specs.{Items, is_among};
ghost use Rattle.ls_set.specs.declared.query.Query.{Query};
ghost use Rattle.ls_theory.specs.{atoms_at, base, is_union_closed, some_breaks};
ghost use Rattle.ls_laws.specs.Spans.{IsPart, left_by};
ghost use Rattle.ls_laws.specs.LeastSets.{least_sets, IsBelow, having, near, gained};

/// The atoms at an item are the least members with it; and sets of a list, one of which lies within
/// each set of the list, have its least sets.
pub fn atoms_are_least()
    ensures atoms { (f : List Items) (i : ℕ) → atoms_at f i ≡ least_sets (having i f) }
    ensures members { (c g : List Items) → IsBelow c g →
        (k : Items) → is_among (least_sets g) k ≡ is_among (least_sets c) k }
{}

/// After a Yes the base has the base sets that do not break the query, and what is gained at each
/// item: the least unions, of an atom there that breaks the query with one of sets that lie below
/// the members with an item of A, within which no base set with the item lies that stays. Of the
/// sets that lie below, the least base sets with an item of A are an example. Where no base set
/// breaks the query, the base is the same.
pub fn base_after_yes()
    ensures stays { (f : List Items) (r : Query) →
        IsPart (left_by r (base f)) (base (left_by r f)) }
    ensures gains { (f : List Items) (r : Query) (gs : List Items) (i : ℕ) →
        is_union_closed f ≡ true → IsBelow gs (near f r) →
        IsPart (gained f r gs i) (base (left_by r f)) }
    ensures only { (f : List Items) (r : Query) (gs : List Items) → is_union_closed f ≡ true →
        IsBelow gs (near f r) → (k : Items) → is_among (base (left_by r f)) k ≡ true →
        (is_among (left_by r (base f)) k ≡ true)
        ⊎ ((i : ℕ) × (is_among (gained f r gs i) k ≡ true)) }
    ensures near_least { (f : List Items) (r : Query) →
        IsBelow (least_sets (near (base f) r)) (near f r) }
    ensures same { (f : List Items) (r : Query) → some_breaks (base f) r ≡ false →
        base (left_by r f) ≡ base f }
{}
