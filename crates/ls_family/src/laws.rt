// Laws of set files.
ghost use Rattle.std.specs.Prelude.{◌≡◌, ℕ, List, true, Ok, length};
ghost use Rattle.ls_set.specs.{IsWithin, Items, full, is_among};
ghost use Rattle.ls_cutting.specs.{Text};
ghost use Rattle.ls_files.specs.SetFiles.{sets_of};

/// The sets of a file are sets of the items that have the names. Nothing is done.
pub fn files_have_sets_of_items()
    ensures { (names : List Text) (text : List ℕ) (sets : List Items) (s : Items)
        → sets_of names text ≡ Ok sets → is_among sets s ≡ true
        → IsWithin s (full (length names)) }
{}
