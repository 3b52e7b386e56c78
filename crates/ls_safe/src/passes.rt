// Laws of passes over the answers that wait.
ghost use Rattle.std.specs.Prelude.{◌≡◌, ◌≤◌, ℕ, suc, true, false, not, List, [], ◌∷◌, ◌++◌, map};
ghost use Rattle.std.specs.Prelude.{length, Some, None};
ghost use Rattle.std.specs.List.{list_all};
ghost use Rattle.ls_set.specs.ItemSet.{Items, full};
ghost use Rattle.ls_set.specs.declared.query.Query.{Query};
ghost use Rattle.ls_theory.specs.Verdict.{is_learning_space};
ghost use Rattle.ls_laws.specs.Spans.{IsPart};
ghost use Rattle.ls_laws.specs.Families.{IsFamily};
ghost use Rattle.ls_origins.specs.Safe.{trial, is_safe, Safe, applied_first, passes, settled};
ghost use Rattle.ls_origins.specs.Safe.{tried, all_tried, safe_turn, safe};
ghost use Rattle.ls_safe.specs.Turns.{IsApplied};

/// A pass applies the first waiting answer that can be applied, which leaves the list, or none can
/// be. So passes end, at the latest after as many as there are answers that wait. What they come
/// to, and the trials that they make, are told pass by pass.
pub fn passes_come_to_an_end()
    ensures applied { (n : ℕ) (f : List Items) (rs : List Query) (s : Safe) →
        applied_first n f rs ≡ Some s → IsApplied n f rs s }
    ensures none { (n : ℕ) (f : List Items) (rs : List Query) → applied_first n f rs ≡ None →
        list_all (λ r. not (is_safe n f r)) rs ≡ true }
    ensures fewer { (n : ℕ) (f : List Items) (rs : List Query) (s : Safe) →
        applied_first n f rs ≡ Some s → length rs ≡ suc (length s.waiting) }
    ensures end { (n m : ℕ) (s : Safe) → length s.waiting ≤ m →
        applied_first n (passes n m s).family (passes n m s).waiting ≡ None }
    ensures enough { (n m : ℕ) (s : Safe) → applied_first n s.family s.waiting ≡ None →
        passes n m s ≡ s }
    ensures settled_none { (n : ℕ) (s : Safe) → applied_first n s.family s.waiting ≡ None →
        settled n s ≡ s }
    ensures settled_some { (n : ℕ) (s t : Safe) → applied_first n s.family s.waiting ≡ Some t →
        settled n s ≡ settled n t }
    ensures settled_end { (n : ℕ) (s : Safe) →
        list_all (λ r. not (is_safe n (settled n s).family r)) (settled n s).waiting ≡ true }
    ensures tried_none { (n : ℕ) (s : Safe) → applied_first n s.family s.waiting ≡ None →
        all_tried n s ≡ tried n s.family s.waiting }
    ensures tried_some { (n : ℕ) (s t : Safe) → applied_first n s.family s.waiting ≡ Some t →
        all_tried n s ≡ tried n s.family s.waiting ++ all_tried n t }
{}

/// A pass, answer by answer: those that cannot be applied are passed over, and the next one is
/// applied.
pub fn passes_go_from_the_front()
    ensures applied { (n : ℕ) (f : List Items) (before : List Query) (r : Query)
        (rest : List Query) →
        list_all (λ q. not (is_safe n f q)) before ≡ true → is_safe n f r ≡ true →
        applied_first n f (before ++ r ∷ rest)
        ≡ Some (record { family = trial r f; waiting = before ++ rest }) }
    ensures none { (n : ℕ) (f : List Items) (rs : List Query) →
        list_all (λ q. not (is_safe n f q)) rs ≡ true → applied_first n f rs ≡ None }
    ensures tried_before { (n : ℕ) (f : List Items) (before rest : List Query) →
        list_all (λ q. not (is_safe n f q)) before ≡ true →
        tried n f (before ++ rest) ≡ map (λ q. trial q f) before ++ tried n f rest }
    ensures tried_at { (n : ℕ) (f : List Items) (r : Query) (rest : List Query) →
        is_safe n f r ≡ true → tried n f (r ∷ rest) ≡ trial r f ∷ [] }
{}

/// After any answers the family is a learning space, and no answer that waits could be applied so
/// that a learning space remains.
pub fn safe_families_stay_learning_spaces()
    ensures learning { (n : ℕ) (f : List Items) (answers : List Query) →
        is_learning_space (full n) f ≡ true →
        is_learning_space (full n) (safe n f answers).family ≡ true }
    ensures waiting { (n : ℕ) (f : List Items) (answers : List Query) →
        list_all (λ r. not (is_safe n (safe n f answers).family r)) (safe n f answers).waiting
        ≡ true }
    ensures family { (n : ℕ) (f : List Items) (answers : List Query) → IsFamily n f →
        IsFamily n (safe n f answers).family }
    ensures part { (n : ℕ) (f : List Items) (answers : List Query) →
        IsPart (safe n f answers).family f }
    ensures more { (n : ℕ) (f : List Items) (answers : List Query) (r : Query) →
        safe n f (answers ++ r ∷ []) ≡ safe_turn n (safe n f answers) r }
{}
