// Laws of forced answers.
ghost use Rattle.std.specs.Prelude.{◌≡◌, ◌<◌, ◌-◌, ◌↔◌, ℕ, true, false, not, ◌&&◌, ◌||◌, ◌==◌};
ghost use Rattle.std.specs.Prelude.{nat_le, max, List, [], ◌∷◌, map, find, Some, None, option_map};
ghost use Rattle.std.specs.List.{list_any, list_all};
ghost use Rattle.std.specs.List.Sorted.{IsStrictlyIncreasing};
ghost use Rattle.ls_set.specs.{Items, full, has, is_good};
ghost use Rattle.ls_set.specs.declared.query.Query.{Query};
ghost use Rattle.ls_theory.specs.declared.no.No.{No};
ghost use Rattle.ls_theory.specs.declared.known.Known.TheVariants as Known;
ghost use Rattle.ls_theory.specs.{Interview, by, closure, compatible_sets, is_forced_no};
ghost use Rattle.ls_theory.specs.{is_forced_yes, is_settled, is_space, known, next_question};
ghost use Rattle.ls_theory.specs.{no_queries, nos, some_breaks, spaces_of};
ghost use Rattle.ls_laws.specs.Spans.{AreOn, left_by};
ghost use Rattle.ls_laws.specs.Forced.{SomeFits, IsSound, IsNumbered, FitsAnswers, is_forced_by};
ghost use Rattle.ls_laws.specs.Forced.{is_forced_by_closures, known_by_closures};

/// The search through the families is over all spaces that fit: a query is forced Yes exactly where
/// no family that fits has a member that breaks it, and forced No exactly where each has one.
pub fn search_is_over_all_spaces()
    ensures with_yes { (i : Interview) (r : Query) →
        (is_forced_yes (spaces_of i) r ≡ true)
        ↔ ((f : List Items) → FitsAnswers i f → some_breaks f r ≡ false) }
    ensures with_no { (i : Interview) (r : Query) →
        (is_forced_no (spaces_of i) r ≡ true)
        ↔ ((f : List Items) → FitsAnswers i f → some_breaks f r ≡ true) }
    ensures compatible { (i : Interview) → SomeFits i → FitsAnswers i (compatible_sets i) }
{}

/// An item q is in the closure of A exactly where no member breaks (A, q). Where some member of a
/// space breaks a No, closures tell whether the members still break it that are left without those
/// that break another query.
pub fn closures_tell()
    ensures of_query { (n : ℕ) (f : List Items) (r : Query) → AreOn n f → r.q < n →
        has (closure (full n) f r.a) r.q ≡ not (some_breaks f r) }
    ensures of_no { (n : ℕ) (f : List Items) (r s : Query) → AreOn n f →
        is_space (full n) f ≡ true → is_good n r ≡ true → s.q < n → some_breaks f s ≡ true →
        is_forced_by f r s ≡ is_forced_by_closures n f r s }
{}

/// What is left of the compatible sets without those that break a good query fits exactly where
/// some space that fits has no member that breaks it.
pub fn what_is_left_decides()
    ensures { (i : Interview) (r : Query) → SomeFits i → is_good i.count r ≡ true →
        FitsAnswers i (left_by r (compatible_sets i))
        ↔ ((f : List Items) × FitsAnswers i f × (some_breaks f r ≡ false)) }
{}

/// Where some space fits, the closures in the compatible sets decide what is forced. A good query
/// (A, q) is forced Yes exactly where q is in the closure of A. It is forced No exactly where some
/// standing No is broken by no compatible set that is left without those that break the query,
/// which closures tell too; the first such No is named.
pub fn closures_decide()
    ensures with_yes { (i : Interview) (r : Query) → SomeFits i → r.q < i.count →
        is_forced_yes (spaces_of i) r ≡ has (closure (full i.count) (compatible_sets i) r.a) r.q }
    ensures with_no { (i : Interview) (r : Query) → SomeFits i → is_good i.count r ≡ true →
        is_forced_no (spaces_of i) r
        ≡ list_any (is_forced_by (compatible_sets i) r) (no_queries i.answers) }
    ensures with_no_by { (i : Interview) (r : Query) → IsSound i → is_good i.count r ≡ true →
        let forces = is_forced_by_closures i.count (compatible_sets i) r in
        is_forced_no (spaces_of i) r ≡ list_any forces (no_queries i.answers) }
    ensures number { (i : Interview) (r : Query) → IsSound i → is_good i.count r ≡ true →
        let forces = is_forced_by_closures i.count (compatible_sets i) r in
        by (compatible_sets i) (nos i.answers) r
        ≡ option_map (λ a. a.number) (find (λ a. forces a.query) (nos i.answers)) }
    ensures known { (i : Interview) (r : Query) → IsSound i → is_good i.count r ≡ true →
        known i r ≡ known_by_closures i r }
{}

/// A forced No is told with the number of a standing No that forces it, which is the least of
/// theirs where the answers stand in order of number.
pub fn least_number_is_told()
    ensures some { (i : Interview) (r : Query) → SomeFits i → is_good i.count r ≡ true →
        is_forced_no (spaces_of i) r ≡ true →
        (m : ℕ) × (by (compatible_sets i) (nos i.answers) r ≡ Some m) }
    ensures told { (i : Interview) (r : Query) (m : ℕ) → SomeFits i → is_good i.count r ≡ true →
        known i r ≡ Known.No m →
        (is_forced_no (spaces_of i) r ≡ true)
        × (by (compatible_sets i) (nos i.answers) r ≡ Some m) }
    ensures names { (f : List Items) (ns : List No) (r : Query) (m : ℕ) → by f ns r ≡ Some m →
        list_any (λ a. is_forced_by f r a.query && a.number == m) ns ≡ true }
    ensures least { (f : List Items) (ns : List No) (r : Query) (m : ℕ) →
        IsStrictlyIncreasing (map (λ a. a.number) ns) →
        by f ns r ≡ Some m →
        list_all (λ a. not (is_forced_by f r a.query) || nat_le m a.number) ns ≡ true }
    ensures in_order { (i : Interview) → IsNumbered i →
        IsStrictlyIncreasing (map (λ a. a.number) (nos i.answers)) }
{}

/// Where some space fits, no query is forced both ways.
pub fn forced_once()
    ensures { (i : Interview) (r : Query) → SomeFits i →
        (is_forced_yes (spaces_of i) r && is_forced_no (spaces_of i) r) ≡ false }
{}

/// No query of the blocks is open exactly where there is no first question. Where some space fits
/// and no query of the largest blocks is open, exactly one space fits, that of the compatible sets.
pub fn settled_leaves_one()
    ensures question { (i : Interview) → (is_settled i ≡ true) ↔ (next_question i None ≡ None) }
    ensures one { (i : Interview) → SomeFits i → i.block ≡ max 1 (i.count - 1) →
        is_settled i ≡ true →
        spaces_of i ≡ compatible_sets i ∷ [] }
{}
