// Whether queries differ, found by their order.
ghost use Rattle.std.specs.Prelude.{◌≡◌, IfOk};
ghost use Rattle.ls_theory.specs.{is_same_query};
ghost use Rattle.ls_files.specs.{are_apart};

use ls_set::Query;
use ls_standing::QueryKey;
use std::alloc::{AllocError, Global};
use std::collections::BTreeSet;

/// Whether no two queries are the same. Each is looked for once among those before it.
pub fn are_apart(alloc: Global, queries: &[Query]) -> Result<bool, AllocError>
    ensures { IfOk result (λ b. b ≡ are_apart is_same_query queries.now) }
{
    let mut seen = BTreeSet::new(alloc);
    for query in queries {
        if !seen.insert(QueryKey::new(*query))? {
            return Ok(false);
        }
    }
    Ok(true)
}
