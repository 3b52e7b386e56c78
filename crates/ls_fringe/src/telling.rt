// Fringes of members, and the member that two fringes tell.
ghost use Rattle.std.specs.Prelude.{◌≡◌, ◌<◌, ◌≤◌, true};
ghost use Rattle.ls_set.specs.{IsWithin, full, has, is_among};
ghost use Rattle.ls_theory.specs.{fringes, inner_fringe, is_learning_space, outer_fringe, state_of};

use ls_interior::{Inside, is_member};
use ls_set::{ItemSet, PLACES};
use ls_theory::FringePair;

// Whether the set without an item of it is a member. Where the set is one, only what the item takes
// with it is looked at.
fn is_inner<F: Inside>(f: &F, k: ItemSet, member: bool, item: u32) -> bool
    requires within { IsWithin k (full (F.item_count f.now)) }
    requires member { member ≡ is_among (F.members f.now) k }
    requires item { has k item ≡ true }
    requires place { item < PLACES }
    ensures { result ≡ has (inner_fringe (F.members f.now) k) item }
{
    let rest = k.without(item);
    if member {
        f.inside_without(k, item, rest).is_some()
    } else {
        is_member(f, rest)
    }
}

// Whether the item is not in the set, and with it the set is a member.
fn is_outer<F: Inside>(f: &F, k: ItemSet, item: u32) -> bool
    requires within { IsWithin k (full (F.item_count f.now)) }
    requires item { item < F.item_count f.now }
    requires place { item < PLACES }
    ensures { result ≡ has (outer_fringe (F.item_count f.now) (F.members f.now) k) item }
{
    !k.has(item) && is_member(f, k.with(item))
}

// The items of the set without which it is a member. `member` is whether the set is one.
fn inner_fringe<F: Inside>(f: &F, k: ItemSet, member: bool) -> ItemSet
    requires few { F.item_count f.now ≤ PLACES }
    requires within { IsWithin k (full (F.item_count f.now)) }
    requires member { member ≡ is_among (F.members f.now) k }
    ensures { result ≡ inner_fringe (F.members f.now) k }
{
    let mut fringe = ItemSet::empty();
    for item in k.items() {
        if is_inner(f, k, member, item) {
            fringe = fringe.with(item);
        }
    }
    fringe
}

// The items outside the set with which it is a member, by an interior an item.
fn outer_fringe<F: Inside>(f: &F, k: ItemSet) -> ItemSet
    requires { IsWithin k (full (F.item_count f.now)) }
    ensures { result ≡ outer_fringe (F.item_count f.now) (F.members f.now) k }
{
    let mut fringe = ItemSet::empty();
    for item in 0..f.items() {
        if is_outer(f, k, item) {
            fringe = fringe.with(item);
        }
    }
    fringe
}

/// The two fringes of a set, of which all items are below `f.items()`. It takes no memory. Of a set
/// that is no member it forms an interior an item; of a member a family may find them faster.
pub fn fringes<F: Inside>(f: &F, k: ItemSet) -> FringePair
    requires { IsWithin k (full (F.item_count f.now)) }
    ensures { result ≡ fringes (F.item_count f.now) (F.members f.now) k }
{
    let _ = f.items(); // for the proof
    let member = is_member(f, k);
    let outer = if member {
        f.outer_fringe(k)
    } else {
        outer_fringe(f, k)
    };
    FringePair {
        inner: inner_fringe(f, k, member),
        outer,
    }
}

/// The member of a learning space whose inner and outer fringe are the two sets, or `None` where no
/// member has them. It is the greatest member that has no item of the outer one, or none.
pub fn state_of<F: Inside>(f: &F, inner: ItemSet, outer: ItemSet) -> Option<ItemSet>
    requires { is_learning_space (full (F.item_count f.now)) (F.members f.now) ≡ true }
    ensures { result ≡ state_of (F.item_count f.now) (F.members f.now) inner outer }
{
    let state = f.inside(ItemSet::full(f.items()).minus(outer));
    let told = fringes(f, state);
    if told.inner == inner && told.outer == outer {
        Some(state)
    } else {
        None
    }
}
