// Laws of surmise functions, and of clauses that are read.
ghost use Rattle.std.specs.Prelude.{◌≡◌, ◌<◌, ℕ, true, false, List, [], length, None};
ghost use Rattle.ls_set.specs.{IsInOrder, IsWithin, Items, full, is_among, without};
ghost use Rattle.ls_set.specs.declared.query.Query.{Query};
ghost use Rattle.ls_theory.specs.Starts.{Clauses, Sets, meets};
ghost use Rattle.ls_theory.specs.{all_clauses, atoms_at, base, clauses_at, clauses_of, compat};
ghost use Rattle.ls_theory.specs.{flaw, has_clause_within, interior, is_space};
ghost use Rattle.ls_laws.specs.Spans.{AreOn, spanned};
ghost use Rattle.ls_laws.specs.Families.{IsFamily};
ghost use Rattle.ls_clauses.specs.Surmise.{IsSurmise, IsPutInOrder};
ghost use Rattle.ls_clauses.specs.Starts.{IsCover};

/// The sets that meet the clauses of a surmise function are the unions of its clauses, under any
/// Yes answers too. They are a space.
pub fn clauses_meet_unions()
    ensures meets { (n : ℕ) (clauses : List (List Items)) (k : Items) → IsSurmise n clauses →
        meets (Clauses clauses) k ≡ meets (Sets (all_clauses clauses)) k }
    ensures compatible { (n : ℕ) (clauses : List (List Items)) (yeses : List Query) →
        IsSurmise n clauses →
        compat n (Clauses clauses) yeses ≡ compat n (Sets (all_clauses clauses)) yeses }
    ensures spanned { (n : ℕ) (clauses : List (List Items)) → IsSurmise n clauses →
        compat n (Clauses clauses) [] ≡ spanned n (all_clauses clauses) }
    ensures is_on { (n : ℕ) (clauses : List (List Items)) → IsSurmise n clauses →
        AreOn n (all_clauses clauses) }
    ensures space { (n : ℕ) (clauses : List (List Items)) → IsSurmise n clauses →
        is_space (full n) (compat n (Clauses clauses) []) ≡ true }
{}

/// The clauses of an item are the atoms at it, in order, and the base is the list of all clauses,
/// each once and in order. So a surmise function is told by its family.
pub fn clauses_are_atoms()
    ensures atoms { (n : ℕ) (clauses : List (List Items)) (q : ℕ) → IsSurmise n clauses →
        atoms_at (compat n (Clauses clauses) []) q ≡ clauses_of clauses q }
    ensures base_sets { (n : ℕ) (clauses : List (List Items)) (k : Items) → IsSurmise n clauses →
        is_among (base (compat n (Clauses clauses) [])) k ≡ is_among (all_clauses clauses) k }
    ensures base_list { (n : ℕ) (clauses : List (List Items)) (g : List Items) →
        IsSurmise n clauses → IsInOrder g →
        ((k : Items) → is_among g k ≡ is_among (all_clauses clauses) k) →
        base (compat n (Clauses clauses) []) ≡ g }
    ensures again { (n : ℕ) (clauses : List (List Items)) → IsSurmise n clauses →
        clauses ≡ clauses_at n (compat n (Clauses clauses) []) }
    ensures same { (n : ℕ) (c d : List (List Items)) → IsSurmise n c → IsSurmise n d →
        compat n (Clauses c) [] ≡ compat n (Clauses d) [] →
        c ≡ d }
{}

/// The interior of a set among the sets that meet clauses is the union of the clauses within it. It
/// is also what is left when items without a clause within are dropped, one by one.
pub fn interiors_by_clauses()
    ensures unions { (n : ℕ) (clauses : List (List Items)) (s : Items) → IsSurmise n clauses →
        interior (compat n (Clauses clauses) []) s ≡ interior (all_clauses clauses) s }
    ensures dropped { (n : ℕ) (clauses : List (List Items)) (s : Items) (q : ℕ) →
        has_clause_within clauses q s ≡ false →
        interior (compat n (Clauses clauses) []) (without s q)
        ≡ interior (compat n (Clauses clauses) []) s }
    ensures left { (n : ℕ) (clauses : List (List Items)) (s : Items) → IsWithin s (full n) →
        meets (Clauses clauses) s ≡ true →
        interior (compat n (Clauses clauses) []) s ≡ s }
{}

/// Each family that has all items has a surmise function, whose clauses are the atoms; the sets
/// that meet it are the members. So have the unions of any sets that have each item.
pub fn families_have_clauses()
    ensures atoms { (n : ℕ) (f : List Items) (q : ℕ) → q < n →
        clauses_of (clauses_at n f) q ≡ atoms_at f q }
    ensures surmise { (n : ℕ) (f : List Items) → IsFamily n f → is_among f (full n) ≡ true →
        IsSurmise n (clauses_at n f) }
    ensures met { (n : ℕ) (f : List Items) → IsFamily n f →
        compat n (Clauses (clauses_at n f)) [] ≡ f }
    ensures of_sets { (n : ℕ) (sets : List Items) → IsCover n sets →
        IsSurmise n (clauses_at n (spanned n sets)) }
    ensures of_sets_met { (n : ℕ) (sets : List Items) → IsCover n sets →
        compat n (Clauses (clauses_at n (spanned n sets))) [] ≡ compat n (Sets sets) [] }
{}

/// Clauses without a flaw are a surmise function once those of each item are put in order, and the
/// same sets meet them then. A surmise function has no flaw.
pub fn flawless_clauses_are_surmise_functions()
    ensures ordered { (n : ℕ) (clauses ordered : List (List Items)) → length clauses ≡ n →
        ((q : ℕ) → AreOn n (clauses_of clauses q)) → IsPutInOrder clauses ordered →
        flaw n clauses ≡ None → IsSurmise n ordered }
    ensures meets { (clauses ordered : List (List Items)) (k : Items) →
        IsPutInOrder clauses ordered →
        meets (Clauses ordered) k ≡ meets (Clauses clauses) k }
    ensures only { (n : ℕ) (clauses : List (List Items)) → IsSurmise n clauses →
        flaw n clauses ≡ None }
{}
