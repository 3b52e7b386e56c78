// Laws of the relation of pairs, and of covers.
ghost use Rattle.std.specs.Prelude.{◌≡◌, ◌<◌, ◌&&◌, ◌==◌, ℕ, Bool, true, false, not, nat_lt, List};
ghost use Rattle.std.specs.List.{list_any, list_all};
ghost use Rattle.ls_set.specs.ItemSet.{Items, empty, full, has, without, meet, is_same, is_within};
ghost use Rattle.ls_set.specs.ItemSet.{is_among, items, IsWithin};
ghost use Rattle.ls_origins.specs.Relations.{below_of, kept_sets, relation, strictly_below};
ghost use Rattle.ls_origins.specs.Relations.{is_cover, covers};
ghost use Rattle.ls_order.specs.Orders.{IsPreorder, IsAntisymmetric, IsOrder, has_pair, ArePairs};
ghost use Rattle.ls_order.specs.Orders.{has_no_cycle, keeps_pairs, AreAbove};

/// The relation of pairs is the least preorder that has them, and what is strictly below is the
/// least transitive relation that has them. It is a partial order, and no item is in a pair with
/// itself, exactly where no item is strictly below itself.
pub fn pairs_make_the_least_preorder()
    ensures preorder { (n : ℕ) (pairs : List (ℕ × ℕ)) → ArePairs n pairs →
        IsPreorder n (relation n pairs) }
    ensures holds { (n : ℕ) (pairs : List (ℕ × ℕ)) (low high : ℕ) → ArePairs n pairs →
        has_pair pairs low high ≡ true → has (below_of (relation n pairs) high) low ≡ true }
    ensures least { (n : ℕ) (pairs : List (ℕ × ℕ)) (b : List Items) (q : ℕ) → IsPreorder n b →
        ((low high : ℕ) → has_pair pairs low high ≡ true → has (below_of b high) low ≡ true) →
        IsWithin (below_of (relation n pairs) q) (below_of b q) }
    ensures told { (n : ℕ) (pairs : List (ℕ × ℕ)) (b : List Items) → IsPreorder n b →
        ((low high : ℕ) → has_pair pairs low high ≡ true → has (below_of b high) low ≡ true) →
        ((q : ℕ) → IsWithin (below_of b q) (below_of (relation n pairs) q)) →
        b ≡ relation n pairs }
    ensures strictly_holds { (n : ℕ) (pairs : List (ℕ × ℕ)) (low high : ℕ) → ArePairs n pairs →
        has_pair pairs low high ≡ true → has (strictly_below n pairs high) low ≡ true }
    ensures strictly_transitive { (n : ℕ) (pairs : List (ℕ × ℕ)) (q r : ℕ) → ArePairs n pairs →
        has (strictly_below n pairs q) r ≡ true →
        IsWithin (strictly_below n pairs r) (strictly_below n pairs q) }
    ensures strictly_least { (under : ℕ → ℕ → Bool) (n : ℕ) (pairs : List (ℕ × ℕ)) →
        ((x y z : ℕ) → under x y ≡ true → under y z ≡ true → under x z ≡ true) →
        ((low high : ℕ) → has_pair pairs low high ≡ true → under low high ≡ true) →
        (q r : ℕ) → has (strictly_below n pairs q) r ≡ true → under r q ≡ true }
    ensures strictly { (n : ℕ) (pairs : List (ℕ × ℕ)) (q r : ℕ) →
        has (strictly_below n pairs q) r
        ≡ list_any (has_pair pairs r) (items (below_of (relation n pairs) q)) }
    ensures order { (n : ℕ) (pairs : List (ℕ × ℕ)) → ArePairs n pairs →
        has_no_cycle n pairs ≡ true → IsOrder n (relation n pairs) }
    ensures unpaired { (n : ℕ) (pairs : List (ℕ × ℕ)) (q : ℕ) → ArePairs n pairs →
        has_no_cycle n pairs ≡ true → has_pair pairs q q ≡ false }
    ensures no_cycle { (n : ℕ) (pairs : List (ℕ × ℕ)) → ArePairs n pairs →
        IsAntisymmetric (relation n pairs) → ((q : ℕ) → has_pair pairs q q ≡ false) →
        has_no_cycle n pairs ≡ true }
    ensures family { (n : ℕ) (pairs : List (ℕ × ℕ)) (k : Items) → ArePairs n pairs →
        is_among (kept_sets n (relation n pairs)) k
        ≡ (is_within k (full n) && keeps_pairs pairs k) }
    ensures strict_family { (n : ℕ) (pairs : List (ℕ × ℕ)) (k : Items) → ArePairs n pairs →
        is_among (kept_sets n (relation n pairs)) k ≡ (is_within k (full n)
        && list_all (λ q. is_within (strictly_below n pairs q) k) (items k)) }
{}

/// The covers are the pairs of a covered item and one that covers it. The relation of the covers of
/// a partial order is the order. Whether an item covers another is told by one meet of sets.
pub fn covers_generate_orders()
    ensures covered { (n : ℕ) (below : List Items) (low high : ℕ) →
        has_pair (covers n below) low high
        ≡ (nat_lt low n && (nat_lt high n && is_cover n below low high)) }
    ensures pairs { (n : ℕ) (below : List Items) → ArePairs n (covers n below) }
    ensures generate { (n : ℕ) (below : List Items) → IsOrder n below →
        relation n (covers n below) ≡ below }
    ensures acyclic { (n : ℕ) (below : List Items) → IsOrder n below →
        has_no_cycle n (covers n below) ≡ true }
    ensures by_sets { (n : ℕ) (below : List Items) (r q : ℕ) (above : Items) → IsPreorder n below →
        AreAbove n below r above →
        is_cover n below r q ≡ (has (below_of below q) r && (not (r == q)
        && is_same (without (without (meet (below_of below q) above) r) q) empty)) }
{}
