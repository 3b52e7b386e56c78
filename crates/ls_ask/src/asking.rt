// The half-split question and the leader.
ghost use Rattle.std.specs.Prelude.{◌≡◌, ◌<◌, length, slice_get, Some};
ghost use Rattle.ls_theory.specs.{half_split, imbalance, leader, total};

use ls_weight::Weights;

// The distance between twice the mass of the item and the total, `all`.
#[tactic(auto, unfolding(ls_theory::specs::Assessment::imbalance))]
fn imbalance(w: &Weights, all: u128, q: u32) -> u128
    requires item { q < length w.now.settings.ratios }
    requires all { all ≡ total w.now.settings.ratios w.now.replies w.now.states }
    ensures { result ≡ imbalance w.now.settings.ratios w.now.replies w.now.states q }
{
    (2 * w.mass(q)).abs_diff(all)
}

/// The half-split question: the least item of which twice the mass is nearest to the total.
pub fn half_split(w: &Weights) -> u32
    ensures value { result ≡ half_split w.now.settings.ratios w.now.replies w.now.states }
    ensures item { result < length w.now.settings.ratios }
{
    // There are some items, where there are weights of states.
    let _ = w.states(); // for the proof
    let total = w.total();
    let mut best = 0;
    let mut least = imbalance(w, total, best);
    for q in 1..w.settings().count() {
        let distance = imbalance(w, total, q);
        if distance < least {
            best = q;
            least = distance;
        }
    }
    best
}

/// The place of the leader, which is the first heaviest state.
pub fn leader(w: &Weights) -> usize
    ensures { slice_get w.now.states result
        ≡ Some (leader w.now.settings.ratios w.now.replies w.now.states) }
{
    w.heaviest()
}
