// Laws of what answers and retractions change.
ghost use Rattle.std.specs.Prelude.{◌≡◌, ℕ, Bool, true, false, not, ◌&&◌, List, []};
ghost use Rattle.ls_set.specs.{Items, full, has, is_good, is_within};
ghost use Rattle.ls_set.specs.declared.query.Query.{Query};
ghost use Rattle.ls_theory.specs.{Interview, Start, accepted, begun, closure, compat};
ghost use Rattle.ls_theory.specs.{compatible_sets, is_forced_no, is_forced_yes, is_space};
ghost use Rattle.ls_theory.specs.{retracted, spaces_of};
ghost use Rattle.ls_laws.specs.Spans.{AreOn, IsPart, left_by};
ghost use Rattle.ls_laws.specs.Forced.{IsSound, IsNumbered};

/// A Yes leaves the compatible sets that do not break its query, and a No leaves them all. A
/// closure that lacks an item of A, or has q, is the same after the Yes.
pub fn yes_cuts_compatible_sets()
    ensures with_yes { (i : Interview) (r : Query) →
        compatible_sets (accepted i r true) ≡ left_by r (compatible_sets i) }
    ensures with_no { (i : Interview) (r : Query) →
        compatible_sets (accepted i r false) ≡ compatible_sets i }
    ensures retracted { (i : Interview) (number : ℕ) →
        IsPart (compatible_sets i) (compatible_sets (retracted i number)) }
    ensures closure { (n : ℕ) (f : List Items) (r : Query) (b : Items) → AreOn n f →
        is_space (full n) f ≡ true →
        is_good n r ≡ true →
        (is_within r.a (closure (full n) f b) && not (has (closure (full n) f b) r.q)) ≡ false →
        closure (full n) (left_by r f) b ≡ closure (full n) f b }
{}

/// Some space fits when an interview begins with a space, and after each change that is accepted: a
/// Yes that is not forced No, a No that is not forced Yes, and any retraction.
pub fn changes_keep_a_space()
    ensures begun { (n : ℕ) (start : Start) → is_space (full n) (compat n start []) ≡ true →
        IsSound (begun n start) }
    ensures with_yes { (i : Interview) (r : Query) → IsSound i → is_good i.count r ≡ true →
        is_forced_no (spaces_of i) r ≡ false → IsSound (accepted i r true) }
    ensures with_no { (i : Interview) (r : Query) → IsSound i → is_good i.count r ≡ true →
        is_forced_yes (spaces_of i) r ≡ false → IsSound (accepted i r false) }
    ensures retracted { (i : Interview) (number : ℕ) → IsSound i → IsSound (retracted i number) }
{}

/// The standing answers stay in order of number: an interview begins with none, an accepted answer
/// gets the next number, and a retraction takes one out.
pub fn answers_stay_in_order()
    ensures begun { (n : ℕ) (start : Start) → IsNumbered (begun n start) }
    ensures accepted { (i : Interview) (r : Query) (is_yes : Bool) → IsNumbered i →
        IsNumbered (accepted i r is_yes) }
    ensures retracted { (i : Interview) (number : ℕ) → IsNumbered i →
        IsNumbered (retracted i number) }
{}
