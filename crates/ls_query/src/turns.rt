// The laws of the order of queries.
ghost use Rattle.std.specs.Prelude.{◌≡◌, ◌+◌, ℕ, Some, None, find, slice_get};
ghost use Rattle.std.specs.List.{position};
ghost use Rattle.ls_set.specs.{Items, is_same};
ghost use Rattle.ls_set.specs.declared.query.Query.{Query};
ghost use Rattle.ls_theory.specs.{block_before, blocks, comes_after, queries, query_before};

/// From the start, and then from each set or query to the first that comes after it, each set of
/// the blocks and each good query comes once, in its turn; and a set is found at the place where it
/// stands. It does nothing when it runs.
pub fn each_comes_in_turn()
    ensures first_set { (n k : ℕ) →
        find (comes_after block_before None) (blocks n k) ≡ slice_get (blocks n k) 0 }
    ensures next_set { (n k i : ℕ) (a : Items) → slice_get (blocks n k) i ≡ Some a →
        find (comes_after block_before (Some a)) (blocks n k) ≡ slice_get (blocks n k) (i + 1) }
    ensures first_query { (n k : ℕ) →
        find (comes_after query_before None) (queries n k) ≡ slice_get (queries n k) 0 }
    ensures next_query { (n k i : ℕ) (r : Query) → slice_get (queries n k) i ≡ Some r →
        find (comes_after query_before (Some r)) (queries n k) ≡ slice_get (queries n k) (i + 1) }
    ensures found { (n k i : ℕ) (a : Items) → slice_get (blocks n k) i ≡ Some a →
        position (is_same a) (blocks n k) ≡ Some i }
    ensures stands { (n k i : ℕ) (a : Items) → position (is_same a) (blocks n k) ≡ Some i →
        slice_get (blocks n k) i ≡ Some a }
{}
