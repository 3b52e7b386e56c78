// The covers of a relation, of which each is found by one meet of rows.
ghost use Rattle.std.specs.Prelude.{◌≡◌, ◌<◌, ◌≤◌, ◌++◌, ◌==◌, ◌&&◌, not, IfOk, OnOk};
ghost use Rattle.std.specs.Prelude.{filter, length, map};
ghost use Rattle.ls_set.specs.ItemSet.{empty, has, is_same, meet, numbers_from, without};
ghost use Rattle.ls_origins.specs.Relations.{covers, is_cover};
ghost use Rattle.ls_order.specs.Orders.{AreAbove, IsPreorder};

use ls_origins::{Cover, Covers};
use ls_set::{ItemSet, PLACES};
use std::alloc::{AllocError, Global};

// The items that have the item below them.
fn above(below: &[ItemSet], low: u32) -> ItemSet
    requires few { length below.now ≤ PLACES }
    requires item { low < PLACES }
    ensures { AreAbove (length below.now) below.now low result }
{
    let mut above = ItemSet::empty();
    for item in 0..below.len() {
        if below[item].has(low) {
            above = above.with(item as u32);
        }
    }
    above
}

// Whether nothing but the two is below the one and above the other.
#[tactic(auto, unfolding(ls_set::specs::ItemSet::is_same))]
fn covers(row: ItemSet, above: ItemSet, low: u32, high: u32) -> bool
    requires low { low < PLACES }
    requires high { high < PLACES }
    ensures { result ≡ (has row low && (not (low == high)
        && is_same (without (without (meet row above) low) high) empty)) }
{
    row.has(low) && low != high && row.meet(above).without(low).without(high) == ItemSet::empty()
}

// Puts the covers of an item last, in the order of the higher item.
fn push_covers(covers_so_far: &mut Covers, below: &[ItemSet], low: u32) -> Result<(), AllocError>
    requires few { length below.now ≤ PLACES }
    requires item { low < PLACES }
    requires preorder { IsPreorder (length below.now) below.now }
    ensures { OnOk result (covers_so_far.new ≡ covers_so_far.old ++ map (λ q. (low, q))
        (filter (is_cover (length below.now) below.now low) (numbers_from 0 (length below.now)))) }
{
    let above = above(below, low);
    for item in 0..below.len() {
        let high = item as u32;
        if covers(below[item], above, low, high) {
            covers_so_far.push(Cover { low, high })?;
        }
    }
    Ok(())
}

/// The covers of a relation, in order of the lower item and then the higher.
pub(crate) fn all_covers(alloc: Global, below: &[ItemSet]) -> Result<Covers, AllocError>
    requires few { length below.now ≤ PLACES }
    requires preorder { IsPreorder (length below.now) below.now }
    ensures { IfOk result (λ c. c ≡ covers (length below.now) below.now) }
{
    let mut all = Covers::new(alloc);
    for low in 0..below.len() {
        push_covers(&mut all, below, low as u32)?;
    }
    Ok(all)
}
