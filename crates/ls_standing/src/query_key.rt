// Queries as keys, in the order of queries.
ghost use Rattle.std.specs.Prelude.{◌≡◌};
ghost use Rattle.std.proofs.Common.{rules};
ghost use Rattle.std.specs.Cmp.Rules.{comparing};
ghost use Rattle.std.specs.Ordering.{as_partial_cmp};
ghost use Rattle.std.specs.Cmp.{partial_equiv_from_equiv};
ghost use Rattle.ls_theory.specs.{is_same_query};
ghost use Rattle.ls_standing.specs.QueryOrders.{query_order, query_order-total};
ghost use Rattle.ls_standing.specs.QueryOrders.{query_order-partial, same-by_query_order};
ghost use Rattle.ls_standing.specs.QueryOrders.{same_queries};

use ls_set::Query;
use std::cmp::Ordering;
use std::marker::Model;

/// A query as a key, compared by the order of its set, and then by its item.
#[derive(Clone, Copy)]
pub struct QueryKey {
    query: Query,
}

impl Model for QueryKey {
    ghost use Rattle.std.proofs.Common.{refl};
    ghost use Rattle.ls_set.specs.declared.query.Query.{Query as Asked};

    ghost Value = { Asked };

    ghost view = { λ k. k.query };

    ghost inverse = { λ r. record { query = r } };

    ghost inverse_ok = { λ k h. refl };
}

impl QueryKey {
    /// The key.
    pub fn new(query: Query) -> QueryKey
        ensures { result ≡ query }
    {
        QueryKey { query }
    }
}

impl PartialEq for QueryKey {
    ghost eq = { is_same_query };

    ghost laws = { partial_equiv_from_equiv same_queries };

    #[tactic(auto, unfolding(ls_set::specs::ItemSet::is_same))]
    fn eq(&self, other: &QueryKey) -> bool {
        self.query == other.query
    }
}

impl Eq for QueryKey {
    ghost laws = { same_queries };
}

impl Ord for QueryKey {
    ghost cmp = { query_order };

    ghost total = { query_order-total };

    ghost matches_partial_cmp = { Prim.search (comparing, rules) };

    ghost matches_eq = { same-by_query_order };

    fn cmp(&self, other: &QueryKey) -> Ordering {
        let (first, second) = (self.query.a, other.query.a);
        if first.comes_before(second) {
            Ordering::Less
        } else if second.comes_before(first) {
            Ordering::Greater
        } else {
            self.query.q.cmp(&other.query.q)
        }
    }
}

impl PartialOrd for QueryKey {
    ghost partial_cmp = { as_partial_cmp query_order };

    ghost laws = { query_order-partial };

    fn partial_cmp(&self, other: &QueryKey) -> Option<Ordering> {
        Some(self.cmp(other))
    }
}
