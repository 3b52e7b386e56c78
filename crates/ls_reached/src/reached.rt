// The law of the sessions that scripts reach.
ghost use Rattle.std.specs.Prelude.{◌≡◌, ℕ, true, List, Ok};
ghost use Rattle.ls_files.specs.{session_of, session_text};
ghost use Rattle.ls_codecs.specs.{IsWhole};
ghost use Rattle.ls_edge.specs.Files.{Folder};
ghost use Rattle.ls_meaning.specs.{Calls, Marked, Session, begun_over, has_domain, line_effect};
ghost use Rattle.ls_meaning.specs.{saved, world_after};
ghost use Rattle.ls_reached.specs.Reached.{IsReached, IsKept};

/// A line keeps a session whole where it has a domain, whatever its calls on the folder give. So
/// each session with a domain that lines reach from the one that a script begins with is whole, and
/// what is written for it is read as that session. Such is the session after the lines of each
/// script, over any folder, whichever of its calls fail. Nothing is done.
pub fn reached_sessions_are_whole()
    ensures step { (s : Session) (calls : Calls) (line : List ℕ) →
        IsKept s → IsKept (line_effect s calls line).session }
    ensures reached { (s : Session) → IsReached s → has_domain s ≡ true → IsWhole (saved s) }
    ensures saved { (s : Session) → IsReached s → has_domain s ≡ true →
        session_of (session_text (saved s)) ≡ Ok (saved s) }
    ensures scripts { (folder : Folder) (lines : List Marked) →
        IsReached (world_after (begun_over folder) lines).session }
{}
