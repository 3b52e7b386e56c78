// Laws of what verdicts speak of.
ghost use Rattle.std.specs.Prelude.{◌≡◌, ℕ, true, List};
ghost use Rattle.ls_set.specs.{Items, full};
ghost use Rattle.ls_theory.specs.{base_verdict, is_space, verdict};
ghost use Rattle.ls_laws.specs.Spans.{AreOn};
ghost use Rattle.ls_clauses.specs.Speaking.{IsBaseVerdictOn, IsVerdictOn};

/// A verdict on sets of n items speaks of sets of these items, and of the items themselves.
pub fn verdicts_speak_of_items()
    ensures space { (n : ℕ) (whole : Items) (f : List Items) → AreOn n f →
        is_space whole f ≡ true → IsBaseVerdictOn n (base_verdict f) }
    ensures any { (n : ℕ) (f : List Items) → AreOn n f → IsVerdictOn n (verdict (full n) f) }
{}
