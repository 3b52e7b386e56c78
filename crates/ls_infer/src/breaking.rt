// Which sets a Yes leaves out.
ghost use Rattle.std.specs.Prelude.{◌≡◌, ◌<◌};
ghost use Rattle.ls_theory.specs.{breaks};

use ls_set::{ItemSet, PLACES, Query};

/// Whether the set has no item of the query's A, and has its q.
#[tactic(auto, unfolding(ls_set::specs::ItemSet::is_same))]
pub fn breaks(set: ItemSet, r: &Query) -> bool
    requires { r.now.q < PLACES }
    ensures { result ≡ breaks set r.now }
{
    set.has(r.q) && set.meet(r.a) == ItemSet::empty()
}
