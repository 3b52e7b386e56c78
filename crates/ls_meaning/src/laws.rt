// Laws of what lines change.
ghost use Rattle.std.specs.Prelude.{◌≡◌, ℕ, List, true, false, None, IfSome};
ghost use Rattle.ls_lines.specs.{command_of, words};
ghost use Rattle.ls_meaning.specs.Looking.{may_change, stores_file};
ghost use Rattle.ls_meaning.specs.Replies.{is_refusal, line_effect, reply_of};
ghost use Rattle.ls_meaning.specs.Scenes.{Calls};
ghost use Rattle.ls_meaning.specs.Sessions.{Session};
ghost use Rattle.ls_meaning.specs.Transcripts.{Marked, World, reply_at, world_next};

/// Where the reply to a line begins with `no `, the line changes nothing: the session is as before,
/// no file is stored, and so nothing that stands between two lines of a script becomes another.
pub fn refused_lines_change_nothing()
    ensures session { (s : Session) (calls : Calls) (line : List ℕ) →
        is_refusal (reply_of (line_effect s calls line)) ≡ true →
        (line_effect s calls line).session ≡ s }
    ensures stored { (s : Session) (calls : Calls) (line : List ℕ) →
        is_refusal (reply_of (line_effect s calls line)) ≡ true →
        (line_effect s calls line).stored ≡ None }
    ensures world { (w : World) (l : Marked) → is_refusal (reply_at w l) ≡ true →
        world_next w l ≡ w }
{}

/// A line leaves the session as it was, unless it has a command that may change it; and it stores
/// no file, unless it has `save`.
pub fn looking_lines_change_nothing()
    ensures session { (s : Session) (calls : Calls) (line : List ℕ) →
        IfSome (command_of (words line)) (λ c. may_change c ≡ false) →
        (line_effect s calls line).session ≡ s }
    ensures stored { (s : Session) (calls : Calls) (line : List ℕ) →
        IfSome (command_of (words line)) (λ c. stores_file c ≡ false) →
        (line_effect s calls line).stored ≡ None }
{}
