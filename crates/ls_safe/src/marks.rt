// Laws of answers with a mark at each that is applied.
ghost use Rattle.std.specs.Prelude.{◌≡◌, ◌&&◌, ℕ, true, false, List, [], ◌∷◌, ◌++◌, map, length};
ghost use Rattle.std.specs.Prelude.{Some, None, option_map};
ghost use Rattle.std.specs.List.{list_all};
ghost use Rattle.ls_set.specs.ItemSet.{Items, is_among, numbers_from};
ghost use Rattle.ls_set.specs.declared.query.Query.{Query};
ghost use Rattle.ls_origins.specs.Safe.{trial, is_safe, applied_first, safe_turn, safe, waiting};
ghost use Rattle.ls_origins.specs.Safe.{Marks, marked_first, marked_settled, marked_turn, marked};
ghost use Rattle.ls_origins.specs.declared.safe_answer.SafeAnswer.{SafeAnswer};
ghost use Rattle.ls_safe.specs.Turns.{unmarked, is_passed, is_left};

/// The answers with a mark at each that is applied tell what waits. They are numbered from 1. The
/// family has the members of the first one that break no answer that is applied.
pub fn marks_tell_what_waits()
    ensures step { (n : ℕ) (f : List Items) (answers : List SafeAnswer) →
        applied_first n f (waiting answers) ≡ option_map unmarked (marked_first n f answers) }
    ensures turns { (n : ℕ) (s : Marks) (r : Query) →
        unmarked (marked_turn n s r) ≡ safe_turn n (unmarked s) r }
    ensures safe { (n : ℕ) (f : List Items) (answers : List Query) →
        unmarked (marked n f answers) ≡ safe n f answers }
    ensures more { (n : ℕ) (f : List Items) (answers : List Query) (r : Query) →
        marked n f (answers ++ r ∷ []) ≡ marked_turn n (marked n f answers) r }
    ensures queries { (n : ℕ) (f : List Items) (answers : List Query) →
        map (λ a. a.query) (marked n f answers).answers ≡ answers }
    ensures numbers { (n : ℕ) (f : List Items) (answers : List Query) →
        map (λ a. a.number) (marked n f answers).answers ≡ numbers_from 1 (length answers) }
    ensures left { (n : ℕ) (f : List Items) (answers : List Query) (k : Items) →
        is_among (marked n f answers).family k
        ≡ (is_among f k && is_left (marked n f answers).answers k) }
{}

/// A pass over marks, answer by answer: those that are applied already or cannot be are passed
/// over, and the next one is marked.
pub fn passes_over_marks()
    ensures marked { (n : ℕ) (f : List Items) (before : List SafeAnswer) (number : ℕ) (r : Query)
        (rest : List SafeAnswer) →
        list_all (is_passed n f) before ≡ true → is_safe n f r ≡ true →
        marked_first n f (before ++ record { number = number; query = r; applied = false } ∷ rest)
        ≡ Some
        (record {
          family = trial r f;
          answers = before
              ++ record { number = number; query = r; applied = true } ∷ rest;
        }) }
    ensures none_marked { (n : ℕ) (f : List Items) (answers : List SafeAnswer) →
        list_all (is_passed n f) answers ≡ true → marked_first n f answers ≡ None }
    ensures settled_none { (n : ℕ) (s : Marks) → marked_first n s.family s.answers ≡ None →
        marked_settled n s ≡ s }
    ensures settled_some { (n : ℕ) (s t : Marks) → marked_first n s.family s.answers ≡ Some t →
        marked_settled n s ≡ marked_settled n t }
{}
