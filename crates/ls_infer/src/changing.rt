// What is kept of the standing answers that are No, where a Yes comes or is taken back.
ghost use Rattle.std.specs.Prelude.{◌≡◌, ◌+◌, ◌*◌, ◌<◌, ◌≤◌, ℕ, List, true, map, length};
ghost use Rattle.std.specs.List.{list_all};
ghost use Rattle.ls_set.specs.{Items, full, is_good};
ghost use Rattle.ls_theory.specs.{blocks, closure};
ghost use Rattle.ls_theory.specs.declared.no.No.{No};
ghost use Rattle.ls_infer.specs.Changes.{IsChange, is_kept, most_steps_each};
ghost use Rattle.ls_infer.specs.Tables.{standing, AreStates};

use crate::standing_no::StandingNo;
use crate::witnesses::Witnesses;
use crate::yes_change::YesChange;
use ls_interior::{Interior, Steps};
use ls_set::{ItemSet, PLACES, Query};
use std::sync::ledger::Ledger;

/// Makes what is kept of each answer that after a Yes to `r` came or was taken back, in at most a
/// step for each answer and item, and where a Yes comes one more for each answer. `f` is the family
/// after the change, and `closures` are those of the sets of the blocks in it.
pub fn change_each<I: Interior, L: Ledger>(
    kept: &mut [StandingNo],
    f: &I,
    closures: &[ItemSet],
    change: YesChange,
    r: &Query,
    witnesses: &mut [Witnesses],
    steps: &mut Steps<L>,
)
    requires kept { list_all (is_kept (I.item_count f.now)) kept.old ≡ true }
    requires good { is_good (I.item_count f.now) r.now ≡ true }
    requires item { r.now.q < PLACES }
    requires few { I.item_count f.now ≤ PLACES }
    ensures each { (before : List Items) (k : ℕ) (nos : List No) → let n = I.item_count f.now in
        IsChange change n r.now before (I.members f.now) →
        closures.now ≡ map (closure (full n) (I.members f.now)) (blocks n k) →
        AreStates (I.members f.now) witnesses.old → kept.old ≡ map (standing n before) nos →
        (kept.new ≡ map (standing n (I.members f.now)) nos)
        × AreStates (I.members f.now) witnesses.new }
    ensures kept { list_all (is_kept (I.item_count f.now)) kept.new ≡ true }
    ensures cost { steps.new ≤ steps.old
        + most_steps_each change (I.item_count f.now) * length kept.old }
{
    for s in kept.iter_mut() {
        if s.can_change(change, r) {
            *s = s.after(f, closures, change, r, witnesses, steps);
        }
    }
}
