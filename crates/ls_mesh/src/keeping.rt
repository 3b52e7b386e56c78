// Interiors in two families, in turn.
ghost use Rattle.std.specs.Prelude.{◌≡◌};
ghost use Rattle.ls_set.specs.{IsWithin, full};
ghost use Rattle.ls_interior.specs.Keeping.{interior_keeping};
ghost use Rattle.ls_mesh.specs.Sides.{both};
ghost use Rattle.ls_mesh.specs.Turning.{turn_keeping};

use ls_interior::Inside;
use ls_set::ItemSet;

// The interior of a set in the one family, and of that in the other, where it has all items of
// `keep`.
fn turned<F: Inside, G: Inside>(left: &F, right: &G, set: ItemSet, keep: ItemSet) -> Option<ItemSet>
    requires same { G.item_count right.now ≡ F.item_count left.now }
    requires within { IsWithin set (full (F.item_count left.now)) }
    ensures { result ≡ turn_keeping (F.members left.now) (G.members right.now) set keep }
{
    let inside = left.inside(set);
    if !keep.is_within(inside) {
        return None;
    }
    let next = right.inside(inside);
    if keep.is_within(next) {
        Some(next)
    } else {
        None
    }
}

/// The interior of a set in what is in both families, where it has all items of `keep`. It is
/// looked for by interiors in the one and in the other in turn, until neither changes the set, or
/// an item of `keep` has fallen.
pub fn inside_keeping<F: Inside, G: Inside>(
    left: &F,
    right: &G,
    s: ItemSet,
    keep: ItemSet,
) -> Option<ItemSet>
    requires same { G.item_count right.now ≡ F.item_count left.now }
    requires within { IsWithin s (full (F.item_count left.now)) }
    ensures { result
        ≡ interior_keeping (both (F.members left.now) (G.members right.now)) s keep }
{
    let mut set = s;
    let mut next = turned(left, right, s, keep)?;
    while next != set {
        set = next;
        next = turned(left, right, set, keep)?;
    }
    Some(set)
}
