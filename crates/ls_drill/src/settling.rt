// That drills are settled.
ghost use Rattle.std.specs.Prelude.{◌≡◌, ℕ, true};
ghost use Rattle.ls_theory.specs.{is_settled};
ghost use Rattle.ls_drill.specs.Drills.{drilled};

/// After its turns no query of a drill is open. It does nothing when it runs.
pub fn drills_are_settled()
    ensures { (n number : ℕ) → is_settled (drilled n number) ≡ true }
{}
