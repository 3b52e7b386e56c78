// Laws of the text of fringes.
ghost use Rattle.std.specs.Prelude.{◌≡◌, true, List, Some, length};
ghost use Rattle.ls_set.specs.{IsWithin, Items, full, is_among};
ghost use Rattle.ls_theory.specs.{fringes, is_learning_space, state_of};
ghost use Rattle.ls_theory.specs.declared.fringe_pair.FringePair.{FringePair};
ghost use Rattle.ls_laws.specs.Spans.{AreOn};
ghost use Rattle.ls_lines.specs.{Text};
ghost use Rattle.ls_domain.specs.Domains.{IsDomain};
ghost use Rattle.ls_fringe.specs.FringeTexts.{state_of_line, AsksFor};

/// The text of two fringes, put behind `state-of`, is a command that asks for the state with these
/// fringes. So is that of the fringes of a member of a learning space, and the state with them is
/// that member. Nothing is done.
pub fn fringes_are_read_back()
    ensures line { (names : List Text) (x : FringePair) → IsDomain names
        → IsWithin x.inner (full (length names)) → IsWithin x.outer (full (length names))
        → AsksFor names (state_of_line names x) x }
    ensures member { (names : List Text) (f : List Items) (k : Items) → let n = length names in
        IsDomain names → AreOn n f → is_learning_space (full n) f ≡ true → is_among f k ≡ true
        → let x = fringes n f k in
        AsksFor names (state_of_line names x) x × (state_of n f x.inner x.outer ≡ Some k) }
{}
