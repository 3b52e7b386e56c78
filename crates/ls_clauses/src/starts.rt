// Laws of starts by base sets, and of all starts.
ghost use Rattle.std.specs.Prelude.{◌≡◌, ◌↔◌, ℕ, true, List, [], None};
ghost use Rattle.std.specs.List.{list_all};
ghost use Rattle.ls_set.specs.{IsInOrder, Items, full, is_among, is_good, least, minus};
ghost use Rattle.ls_set.specs.declared.query.Query.{Query};
ghost use Rattle.ls_theory.specs.{Sets, Start, base, begun, compat, interior, is_space, unions};
ghost use Rattle.ls_laws.specs.Spans.{AreOn, needed};
ghost use Rattle.ls_laws.specs.Families.{IsFamily};
ghost use Rattle.ls_laws.specs.Forced.{IsSound};
ghost use Rattle.ls_clauses.specs.Starts.{IsCover, IsStart};

/// The sets that meet listed sets are a space where each item is in some listed set, which is so
/// exactly where their union lacks none. The listed sets that are no union of others are the base,
/// and the union of those within a set is its interior.
pub fn base_starts_are_spaces()
    ensures space { (n : ℕ) (sets : List Items) → IsCover n sets →
        is_space (full n) (compat n (Sets sets) []) ≡ true }
    ensures cover { (n : ℕ) (sets : List Items) → AreOn n sets →
        IsCover n sets ↔ (least (minus (full n) (unions sets)) ≡ None) }
    ensures base { (n : ℕ) (sets ordered : List Items) → AreOn n sets → IsInOrder ordered →
        ((k : Items) → is_among ordered k ≡ is_among sets k) →
        base (compat n (Sets sets) []) ≡ needed ordered }
    ensures interior { (n : ℕ) (sets : List Items) (s : Items) → AreOn n sets →
        interior (compat n (Sets sets) []) s ≡ interior sets s }
{}

/// The compatible sets of an interview are a family whatever its start, and a space where the start
/// has all items. So some space fits when an interview begins with it.
pub fn starts_are_spaces()
    ensures family { (n : ℕ) (start : Start) (yeses : List Query) →
        IsFamily n (compat n start yeses) }
    ensures space { (n : ℕ) (start : Start) (yeses : List Query) → IsStart n start →
        list_all (is_good n) yeses ≡ true → is_space (full n) (compat n start yeses) ≡ true }
    ensures sound { (n : ℕ) (start : Start) → IsStart n start → IsSound (begun n start) }
{}
