// Laws of the forms.
ghost use Rattle.std.specs.Prelude.{◌≡◌, ◌≤◌, ◌↔◌, ℕ, List, is_some, true};
ghost use Rattle.ls_cutting.specs.Lines.{Text, words, words_joined};
ghost use Rattle.ls_lines.specs.Forms.{parts};
ghost use Rattle.ls_lines.specs.Commands.{cut, is_begun, command_of, count_of};
ghost use Rattle.ls_cutting.specs.Kinds.{most_counted};
ghost use Rattle.ls_lines.specs.Printing.{is_plain, spelled};
ghost use Rattle.ls_lines.specs.Grammar.{IsLine, Completes};
ghost use Rattle.ls_lines.specs.declared.form.Form.{Form};
ghost use Rattle.ls_lines.specs.declared.command.Command.{Command};

/// The words that are cut by a form are its lines, and those that it begins with are the beginnings
/// of its lines. Nothing is done.
pub fn forms_are_exact()
    ensures line { (f : Form) (ws : List Text)
        → (is_some (cut (parts f) ws) ≡ true) ↔ IsLine (parts f) ws }
    ensures begun { (f : Form) (ws : List Text)
        → (is_begun (parts f) ws ≡ true) ↔ Completes (parts f) ws }
{}

/// No line has two forms. Nothing is done.
pub fn forms_are_told_apart()
    ensures { (f g : Form) (ws : List Text) → IsLine (parts f) ws → IsLine (parts g) ws → f ≡ g }
{}

/// The count of a command that is read is at most 65536. Nothing is done.
pub fn counts_are_bounded()
    ensures { (ws : List Text) (c : Command) (n : ℕ)
        → command_of ws ≡ Some c → count_of c ≡ Some n → n ≤ most_counted }
{}

/// A printed command is read back, where its words, numbers and counts can stand at the parts of
/// its form. Nothing is done.
pub fn commands_read_back()
    ensures words { (c : Command) → is_plain c ≡ true
        → words (words_joined (spelled c)) ≡ spelled c }
    ensures command { (c : Command) → is_plain c ≡ true
        → command_of (words (words_joined (spelled c))) ≡ Some c }
{}
