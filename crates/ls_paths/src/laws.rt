// Laws of learning paths. Each is a clause of a function that does nothing when it runs.
ghost use Rattle.std.specs.Prelude.{◌≡◌, ℕ, true, List, [], ◌∷◌, filter, find, length, Some, None};
ghost use Rattle.ls_set.specs.{Items, empty, full, is_among};
ghost use Rattle.ls_theory.specs.{is_learning_space, is_lex_before, paths};
ghost use Rattle.ls_laws.specs.Spans.{AreOn};
ghost use Rattle.ls_paths.specs.Growths.{growths, first_growth, next_growth, IsInLexOrder};

/// The learning paths are the lists by which the empty set grows through members, and stand in
/// lexicographic order, each once. Those after a list are the first of them and those after it.
pub fn paths_are_growths()
    ensures growths { (n : ℕ) (f : List Items) → is_among f empty ≡ true →
        paths n f ≡ growths n f n empty }
    ensures in_order { (n : ℕ) (f : List Items) → is_among f empty ≡ true →
        IsInLexOrder (paths n f) }
    ensures after { (n : ℕ) (f : List Items) (order next : List ℕ) → is_among f empty ≡ true →
        find (is_lex_before order) (paths n f) ≡ Some next →
        filter (is_lex_before order) (paths n f)
        ≡ next ∷ filter (is_lex_before next) (paths n f) }
    ensures none { (n : ℕ) (f : List Items) (order : List ℕ) →
        find (is_lex_before order) (paths n f) ≡ None →
        filter (is_lex_before order) (paths n f) ≡ [] }
{}

/// In a learning space the first path adds the least item that can be added, at each step. The path
/// after a list of all items, path or not, is told step by step.
pub fn paths_are_found()
    ensures first { (n : ℕ) (f : List Items) → AreOn n f → is_learning_space (full n) f ≡ true →
        let first = first_growth n f n empty in
        paths n f ≡ first ∷ filter (is_lex_before first) (paths n f) }
    ensures next { (n : ℕ) (f : List Items) (order : List ℕ) → AreOn n f →
        is_learning_space (full n) f ≡ true → length order ≡ n →
        find (is_lex_before order) (paths n f) ≡ next_growth n f order empty }
{}
