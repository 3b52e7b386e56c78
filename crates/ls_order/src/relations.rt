// Laws of relations as surmise functions.
ghost use Rattle.std.specs.Prelude.{◌≡◌, ◌<◌, ◌↔◌, ◌==◌, ◌&&◌, ℕ, true, List, [], ◌∷◌, length};
ghost use Rattle.std.specs.Prelude.{None};
ghost use Rattle.std.specs.List.{list_all};
ghost use Rattle.ls_set.specs.ItemSet.{Items, full, is_within, is_among, numbers_from};
ghost use Rattle.ls_theory.specs.Families.{is_space};
ghost use Rattle.ls_theory.specs.Starts.{Clauses};
ghost use Rattle.ls_theory.specs.Compatible.{compat};
ghost use Rattle.ls_theory.specs.Bases.{base, atoms_at};
ghost use Rattle.ls_theory.specs.Clauses.{clauses_of, clauses_at};
ghost use Rattle.ls_theory.specs.Verdict.{is_learning_space};
ghost use Rattle.ls_laws.specs.Families.{IsFamily};
ghost use Rattle.ls_clauses.specs.Surmise.{IsSurmise};
ghost use Rattle.ls_origins.specs.Relations.{below_of, is_kept, kept_sets, clauses_below};
ghost use Rattle.ls_origins.specs.Relations.{first_clauses, first_cycle, two_clauses, quasi_pair};
ghost use Rattle.ls_origins.specs.Relations.{relation_fault};
ghost use Rattle.ls_order.specs.Orders.{IsPreorder, IsAntisymmetric, IsOrder};
ghost use Rattle.ls_order.specs.OneEach.{HasOneEach};
ghost use Rattle.ls_order.specs.Orders.{has_one_atom, is_meet_closed, has_no_cycle};

/// A preorder on the items is a surmise function in which each item has one clause, the items below
/// it. Its family is a space that is closed under intersection, and tells the preorder.
pub fn preorders_are_surmise_functions()
    ensures members { (n : ℕ) (below : List Items) (k : Items) →
        is_among (kept_sets n below) k ≡ (is_within k (full n) && is_kept below k) }
    ensures surmise { (n : ℕ) (below : List Items) → IsPreorder n below →
        IsSurmise n (clauses_below below) }
    ensures one_each { (n : ℕ) (below : List Items) → IsPreorder n below →
        HasOneEach n (clauses_below below) }
    ensures family { (n : ℕ) (below : List Items) → IsPreorder n below →
        kept_sets n below ≡ compat n (Clauses (clauses_below below)) [] }
    ensures unions { (n : ℕ) (below : List Items) → IsPreorder n below →
        IsFamily n (kept_sets n below) }
    ensures space { (n : ℕ) (below : List Items) → IsPreorder n below →
        is_space (full n) (kept_sets n below) ≡ true }
    ensures meets { (n : ℕ) (below : List Items) → IsPreorder n below →
        is_meet_closed (kept_sets n below) ≡ true }
    ensures atoms { (n : ℕ) (below : List Items) (q : ℕ) → IsPreorder n below → q < n →
        atoms_at (kept_sets n below) q ≡ below_of below q ∷ [] }
    ensures again { (below : List Items) → first_clauses (clauses_below below) ≡ below }
    ensures same { (n : ℕ) (b c : List Items) → IsPreorder n b → IsPreorder n c →
        kept_sets n b ≡ kept_sets n c → b ≡ c }
{}

/// A space is closed under intersection exactly where each item has one clause, and then it is the
/// family of a preorder: that of the clauses.
pub fn meets_need_one_clause()
    ensures atoms { (n : ℕ) (f : List Items) → IsFamily n f → is_among f (full n) ≡ true →
        is_meet_closed f ≡ list_all (has_one_atom f) (numbers_from 0 n) }
    ensures clauses { (n : ℕ) (clauses : List (List Items)) → IsSurmise n clauses →
        is_meet_closed (compat n (Clauses clauses) [])
        ≡ list_all (λ q. length (clauses_of clauses q) == 1) (numbers_from 0 n) }
    ensures each { (n : ℕ) (clauses : List (List Items)) → IsSurmise n clauses →
        is_meet_closed (compat n (Clauses clauses) []) ≡ true → HasOneEach n clauses }
    ensures preorder { (n : ℕ) (clauses : List (List Items)) → HasOneEach n clauses →
        IsPreorder n (first_clauses clauses) }
    ensures again { (n : ℕ) (clauses : List (List Items)) → HasOneEach n clauses →
        clauses_below (first_clauses clauses) ≡ clauses }
    ensures family { (n : ℕ) (clauses : List (List Items)) → HasOneEach n clauses →
        kept_sets n (first_clauses clauses) ≡ compat n (Clauses clauses) [] }
    ensures space { (n : ℕ) (f : List Items) → IsFamily n f → is_among f (full n) ≡ true →
        is_meet_closed f ≡ true →
        IsPreorder n (first_clauses (clauses_at n f))
        × (kept_sets n (first_clauses (clauses_at n f)) ≡ f) }
{}

/// Which of these hold is told by the first item, or pair of items, at which one does not. A
/// surmise function is a partial order where it has no such fault.
pub fn relations_are_refused_at_first()
    ensures two_clauses { (n : ℕ) (clauses : List (List Items)) → IsSurmise n clauses →
        (two_clauses n clauses ≡ None) ↔ (is_meet_closed (compat n (Clauses clauses) []) ≡ true) }
    ensures quasi { (n : ℕ) (below : List Items) → IsPreorder n below →
        (quasi_pair n below ≡ None) ↔ IsAntisymmetric below }
    ensures order { (n : ℕ) (clauses : List (List Items)) → IsSurmise n clauses →
        relation_fault n clauses ≡ None →
        IsOrder n (first_clauses clauses) × HasOneEach n clauses }
    ensures cycle { (n : ℕ) (pairs : List (ℕ × ℕ)) →
        (first_cycle n pairs ≡ None) ↔ (has_no_cycle n pairs ≡ true) }
{}

/// The family of a preorder is a learning space exactly where no two items are below each other. So
/// that of a partial order is one; its base has as many sets as there are items.
pub fn orders_are_learning_spaces()
    ensures exactly { (n : ℕ) (below : List Items) → IsPreorder n below →
        (is_learning_space (full n) (kept_sets n below) ≡ true) ↔ IsAntisymmetric below }
    ensures order { (n : ℕ) (below : List Items) → IsOrder n below →
        is_learning_space (full n) (kept_sets n below) ≡ true }
    ensures count { (n : ℕ) (below : List Items) → IsOrder n below →
        length (base (kept_sets n below)) ≡ n }
{}
