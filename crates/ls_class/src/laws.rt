// A law of the results of a class.
ghost use Rattle.std.specs.Prelude.{◌≡◌, List, map};
ghost use Rattle.ls_set.specs.{Items};
ghost use Rattle.ls_theory.specs.Settings.{Settings};
ghost use Rattle.ls_theory.specs.{Row, class_results};

/// The results of a class have the names of its rows, in their order. It does nothing when it runs.
#[tactic(auto, using(crate::proofs::Lines::names_are))]
pub fn results_have_the_names_of_the_rows()
    ensures { (s : Settings) (f : List Items) (table : List Row) →
        map (λ r. r.name) (class_results s f table) ≡ map (λ row. row.name) table }
{}
