// Laws of saved sessions.
ghost use Rattle.std.specs.Prelude.{◌≡◌, ℕ, List, Ok};
ghost use Rattle.std.specs.Bool.{Decides};
ghost use Rattle.ls_set.specs.{Items};
ghost use Rattle.ls_theory.specs.{Interview, based};
ghost use Rattle.ls_codecs.specs.Whole.{IsStanding, IsWhole};
ghost use Rattle.ls_files.specs.Sessions.{Session};
ghost use Rattle.ls_files.specs.Standing.{is_base, stands};
ghost use Rattle.ls_files.specs.{session_of, session_text};

/// What is written for a whole session is read as that session, and what is read as a session is
/// whole. Nothing is done.
pub fn sessions_are_read_back()
    ensures back { (s : Session) → IsWhole s → session_of (session_text s) ≡ Ok s }
    ensures whole { (bytes : List ℕ) (s : Session) → session_of bytes ≡ Ok s → IsWhole s }
{}

/// The tests tell exactly which answers an interview goes on from, and which sets are, in order,
/// those of the base that they give. Nothing is done.
pub fn tests_tell_what_stands()
    ensures answers { (i : Interview) → Decides (stands i) (IsStanding i) }
    ensures base { (n : ℕ) (sets : List Items) →
        Decides (is_base n sets) (based n sets ≡ Ok sets) }
{}
