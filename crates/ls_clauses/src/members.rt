// The law of the search for a member.
ghost use Rattle.std.specs.Prelude.{◌≡◌, ℕ, List, Result, length, is_ok};
ghost use Rattle.std.specs.List.Sorted.{IsBinarySearchResult, IsSearchInRange};
ghost use Rattle.ls_set.specs.{IsInOrder, Items, is_among};
ghost use Rattle.ls_clauses.specs.Orderings.{order_of};

/// A search by halves in a list in order tells whether the list has the set.
pub fn members_are_found()
    ensures { (f : List Items) (s : Items) (r : Result ℕ ℕ) → IsInOrder f →
        IsSearchInRange r (length f) → IsBinarySearchResult (λ t. order_of t s) f r →
        is_ok r ≡ is_among f s }
{}
