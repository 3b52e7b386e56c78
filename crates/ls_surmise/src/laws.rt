// Laws of surmise functions and their texts.
ghost use Rattle.std.specs.Prelude.{◌≡◌, ◌≤◌, List, [], Ok, length};
ghost use Rattle.ls_set.specs.{Items};
ghost use Rattle.ls_theory.specs.Starts.{Clauses};
ghost use Rattle.ls_theory.specs.{base, compat, most_base_sets};
ghost use Rattle.ls_clauses.specs.Surmise.{IsSurmise};
ghost use Rattle.ls_cutting.specs.{Text};
ghost use Rattle.ls_domain.specs.Domains.{IsDomain};
ghost use Rattle.ls_files.specs.SurmiseFiles.{surmise_of, surmise_text};

/// What is printed of a surmise function is read as the same function, unless it has more distinct
/// clauses than a base may have sets. Nothing is done.
pub fn surmise_functions_are_read_back()
    ensures { (names : List Text) (clauses : List (List Items)) →
        IsDomain names → IsSurmise (length names) clauses →
        length (base (compat (length names) (Clauses clauses) [])) ≤ most_base_sets →
        surmise_of names (surmise_text names clauses) ≡ Ok clauses }
{}
