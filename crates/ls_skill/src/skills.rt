// Laws of skill maps.
ghost use Rattle.std.specs.Prelude.{◌≡◌, ◌↔◌, ◌≤◌, ℕ, true, List, [], length};
ghost use Rattle.ls_set.specs.ItemSet.{Items, full};
ghost use Rattle.ls_theory.specs.Families.{is_space};
ghost use Rattle.ls_theory.specs.Starts.{Sets};
ghost use Rattle.ls_theory.specs.Compatible.{compat};
ghost use Rattle.ls_theory.specs.Bases.{base};
ghost use Rattle.ls_laws.specs.Spans.{AreOn, IsPart, spanned};
ghost use Rattle.ls_laws.specs.Families.{IsFamily};
ghost use Rattle.ls_clauses.specs.Starts.{IsCover};
ghost use Rattle.ls_origins.specs.Skills.{any, all, duals};

/// The disjunctive states of a skill map are the unions of the skills' items. They are a space
/// exactly where each item has a skill. The conjunctive states are their complements.
pub fn skills_make_unions()
    ensures any { (n : ℕ) (m : List Items) → AreOn n m → any n m ≡ spanned n m }
    ensures compatible { (n : ℕ) (m : List Items) → AreOn n m → any n m ≡ compat n (Sets m) [] }
    ensures family { (n : ℕ) (m : List Items) → AreOn n m → IsFamily n (any n m) }
    ensures space { (n : ℕ) (m : List Items) → AreOn n m →
        (is_space (full n) (any n m) ≡ true) ↔ IsCover n m }
    ensures all { (n : ℕ) (m : List Items) → all n m ≡ duals n (any n m) }
{}

/// Each set of the base of the disjunctive states is the items of some skill, so a map with a given
/// family has no fewer skills than the base has sets. One skill for each base set gives the family.
pub fn bases_are_least_maps()
    ensures sets { (n : ℕ) (m : List Items) → AreOn n m → IsPart (base (any n m)) m }
    ensures count { (n : ℕ) (m : List Items) → AreOn n m →
        length (base (any n m)) ≤ length m }
    ensures family { (n : ℕ) (f : List Items) → IsFamily n f → any n (base f) ≡ f }
    ensures fewest { (n : ℕ) (f m : List Items) → AreOn n m → any n m ≡ f →
        length (base f) ≤ length m }
{}

/// A skill map and the map of the base of its disjunctive states have the same states, by either
/// reading. So the base tells all that is told of the map by its states.
pub fn bases_give_the_same_states()
    ensures any { (n : ℕ) (m : List Items) → AreOn n m → any n (base (any n m)) ≡ any n m }
    ensures all { (n : ℕ) (m : List Items) → AreOn n m → all n (base (any n m)) ≡ all n m }
{}
