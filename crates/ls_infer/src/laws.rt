// Laws of what a table tells.
ghost use Rattle.std.specs.Prelude.{◌≡◌, ◌↔◌, ℕ, true, List, filter, Some, option_map};
ghost use Rattle.ls_set.specs.{Items, is_good};
ghost use Rattle.ls_set.specs.declared.query.Query.{Query};
ghost use Rattle.ls_theory.specs.declared.no.No.{No};
ghost use Rattle.ls_theory.specs.declared.known.Known.TheVariants as Known;
ghost use Rattle.ls_theory.specs.{first_least, is_forced_no, is_forced_yes, is_open};
ghost use Rattle.ls_laws.specs.Forced.{is_forced_by};
ghost use Rattle.ls_infer.specs.Tables.{told};
ghost use Rattle.ls_infer.specs.Forced.{FitsNos, spaces_within};

/// What is told of a good query is what all spaces within the family force in which each No is
/// broken: Yes where none has a member that breaks it, No where each has one. The number that is
/// told is the least of the Nos that are broken by no member once those are left out that break the
/// query. This holds for any family with the full set in which each No is broken.
pub fn told_is_forced()
    ensures with_yes { (n : ℕ) (f : List Items) (nos : List No) (r : Query) → FitsNos n f nos →
        is_good n r ≡ true →
        (told n f nos r ≡ Known.Yes) ↔ (is_forced_yes (spaces_within n f nos) r ≡ true) }
    ensures with_no { (n : ℕ) (f : List Items) (nos : List No) (r : Query) → FitsNos n f nos →
        is_good n r ≡ true →
        ((m : ℕ) × (told n f nos r ≡ Known.No m))
        ↔ (is_forced_no (spaces_within n f nos) r ≡ true) }
    ensures unsettled { (n : ℕ) (f : List Items) (nos : List No) (r : Query) → FitsNos n f nos →
        is_good n r ≡ true →
        (told n f nos r ≡ Known.Unsettled) ↔ (is_open (spaces_within n f nos) r ≡ true) }
    ensures number { (n : ℕ) (f : List Items) (nos : List No) (r : Query) (m : ℕ) →
        FitsNos n f nos → is_good n r ≡ true → told n f nos r ≡ Known.No m →
        let forcing = filter (λ a. is_forced_by f r a.query) nos in
        option_map (λ a. a.number) (first_least (λ a. a.number) forcing) ≡ Some m }
{}
