// Laws of trials, and of what need not be tried again.
ghost use Rattle.std.specs.Prelude.{◌≡◌, ◌≤◌, ◌+◌, ◌*◌, ℕ, true, false, not, List, [], ◌∷◌, ◌++◌};
ghost use Rattle.std.specs.Prelude.{map, filter, length, Some, None};
ghost use Rattle.std.specs.List.{list_any, list_all};
ghost use Rattle.ls_set.specs.ItemSet.{Items, full, is_among};
ghost use Rattle.ls_set.specs.declared.query.Query.{Query};
ghost use Rattle.ls_set.specs.Query.{is_good};
ghost use Rattle.ls_theory.specs.Queries.{breaks};
ghost use Rattle.ls_theory.specs.Families.{is_space};
ghost use Rattle.ls_theory.specs.Bases.{base};
ghost use Rattle.ls_theory.specs.Verdict.{is_well_graded};
ghost use Rattle.ls_laws.specs.Spans.{is_double};
ghost use Rattle.ls_laws.specs.Families.{IsFamily};
ghost use Rattle.ls_laws.specs.LeastSets.{IsBelow, near};
ghost use Rattle.ls_origins.specs.Safe.{trial, is_safe, Safe, settled, awaited, all_tried};
ghost use Rattle.ls_origins.specs.Safe.{safe_turn, first_past, turn_past};
ghost use Rattle.ls_safe.specs.Turns.{is_past, is_still, are_still};

/// What a good query leaves of a space is a space, so a trial looks at gradation alone: whether no
/// set of the base of what is left is an atom at two items.
pub fn trials_look_at_gradation()
    ensures space { (n : ℕ) (f : List Items) (r : Query) → is_good n r ≡ true →
        is_space (full n) f ≡ true → is_space (full n) (trial r f) ≡ true }
    ensures graded { (n : ℕ) (f : List Items) (r : Query) → is_good n r ≡ true →
        is_space (full n) f ≡ true → is_safe n f r ≡ is_well_graded (trial r f) }
    ensures atoms { (n : ℕ) (f : List Items) (r : Query) → is_good n r ≡ true →
        is_space (full n) f ≡ true →
        is_safe n f r ≡ not (list_any (is_double (trial r f)) (base (trial r f))) }
{}

/// Between turns each answer that waits was tried on the family as it is: its trial is no learning
/// space, and its base not past the limit. So a turn begins with the new answer. Where its trial is
/// no learning space either, that is the one trial of the turn.
pub fn new_answers_are_tried_alone()
    ensures waits { (limit n : ℕ) (s : Safe) (r : Query) → are_still limit n s ≡ true →
        is_safe n s.family r ≡ false → safe_turn n s r ≡ awaited s r }
    ensures waits_past { (limit n : ℕ) (s : Safe) (r : Query) → are_still limit n s ≡ true →
        is_safe n s.family r ≡ false →
        turn_past limit n s r ≡ first_past limit (trial r s.family ∷ []) }
    ensures applied { (limit n : ℕ) (s : Safe) (r : Query) → are_still limit n s ≡ true →
        is_safe n s.family r ≡ true →
        safe_turn n s r ≡ settled n (record { family = trial r s.family; waiting = s.waiting }) }
    ensures applied_past { (limit n : ℕ) (s : Safe) (r : Query) → are_still limit n s ≡ true →
        is_safe n s.family r ≡ true →
        turn_past limit n s r ≡ first_past limit (trial r s.family
        ∷ all_tried n (record { family = trial r s.family; waiting = s.waiting })) }
    ensures kept { (limit n : ℕ) (s : Safe) (r : Query) → turn_past limit n s r ≡ None →
        are_still limit n (safe_turn n s r) ≡ true }
    ensures settled { (limit n : ℕ) (s : Safe) → first_past limit (all_tried n s) ≡ None →
        are_still limit n (settled n s) ≡ true }
    ensures not_past { (limit : ℕ) (gs hs : List (List Items)) →
        list_all (λ g. not (is_past limit g)) gs ≡ true →
        first_past limit (gs ++ hs) ≡ first_past limit hs }
{}

/// The loop of a turn, where the answers `before` were tried on the family as it is: the next one
/// is past, which ends the turn; or it is applied, and what is left goes on over its trial; or it
/// is still one of those before. Where no answer is left the turn ends. An answer whose trial is
/// the family itself leaves those before tried.
pub fn turns_go_step_by_step()
    ensures end { (limit n : ℕ) (f : List Items) (before : List Query) →
        list_all (is_still limit n f) before ≡ true →
        settled n (record { family = f; waiting = before })
        ≡ record { family = f; waiting = before } }
    ensures end_past { (limit n : ℕ) (f : List Items) (before : List Query) →
        list_all (is_still limit n f) before ≡ true →
        first_past limit (all_tried n (record { family = f; waiting = before })) ≡ None }
    ensures past { (limit n : ℕ) (f : List Items) (before : List Query) (r : Query)
        (rest : List Query) →
        list_all (is_still limit n f) before ≡ true → is_past limit (trial r f) ≡ true →
        first_past limit (all_tried n (record { family = f; waiting = before ++ r ∷ rest }))
        ≡ Some (length (base (trial r f))) }
    ensures applied { (limit n : ℕ) (f : List Items) (before : List Query) (r : Query)
        (rest : List Query) →
        list_all (is_still limit n f) before ≡ true → is_safe n f r ≡ true →
        settled n (record { family = f; waiting = before ++ r ∷ rest })
        ≡ settled n (record { family = trial r f; waiting = before ++ rest }) }
    ensures applied_past { (limit n : ℕ) (f : List Items) (before : List Query) (r : Query)
        (rest : List Query) →
        list_all (is_still limit n f) before ≡ true → is_safe n f r ≡ true →
        is_past limit (trial r f) ≡ false →
        first_past limit (all_tried n (record { family = f; waiting = before ++ r ∷ rest }))
        ≡ first_past limit (all_tried n (record { family = trial r f; waiting = before ++ rest })) }
{}

/// A base set of a trial that is an atom at two items is one also once other members are left out,
/// as long as it stays. So an answer that waits goes on waiting while its witness stays.
pub fn doubles_stay()
    ensures witness { (n : ℕ) (f : List Items) (r q : Query) (k : Items) →
        is_among (base (trial r f)) k ≡ true → is_double (trial r f) k ≡ true →
        breaks k q ≡ false →
        (is_among (base (trial r (trial q f))) k ≡ true)
        × (is_double (trial r (trial q f)) k ≡ true) }
    ensures waits { (n : ℕ) (f : List Items) (r : Query) (k : Items) → IsFamily n f →
        is_among (base (trial r f)) k ≡ true → is_double (trial r f) k ≡ true →
        is_safe n f r ≡ false }
{}

/// The base of a trial has no more sets than stay of the base, with each union of one that breaks
/// the query and one of a list: base sets with an item of its A, one of which lies within each that
/// has one. Where these are few, it need not be formed to know that it is not past.
pub fn trials_have_few_sets()
    ensures { (n : ℕ) (f : List Items) (r : Query) (gs : List Items) → IsFamily n f →
        IsBelow gs (near (base f) r) →
        length (base (trial r f)) ≤ length (trial r (base f))
        + length (filter (λ k. breaks k r) (base f)) * length gs }
{}
