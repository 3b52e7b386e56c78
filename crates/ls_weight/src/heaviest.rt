// The first greatest weight.
ghost use Rattle.std.specs.Prelude.{◌≡◌, ◌<◌, ◌≤◌, ℕ, true, length, slice_index};
ghost use Rattle.std.specs.List.{IsFirstMaxByKey};

// The first place from `from` on of a weight above another; the end of the weights where there is
// none.
fn next_above(weights: &[u128], weight: u128, from: usize) -> usize
    requires { from ≤ length weights.now }
    ensures later { from ≤ result }
    ensures within { result ≤ length weights.now }
    ensures none { (k : ℕ) → from ≤ k → k < result → slice_index weights.now k ≤ weight }
    ensures above { result < length weights.now → weight < slice_index weights.now result }
{
    for i in from..weights.len() {
        if weights[i] > weight {
            return i;
        }
    }
    weights.len()
}

// The place of the first greatest of the weights.
pub(crate) fn heaviest(weights: &[u128]) -> usize
    requires { 0 < length weights.now }
    ensures { IsFirstMaxByKey (λ w. w) weights.now (length weights.now) result }
{
    let mut best = 0;
    let mut next = next_above(weights, weights[0], 1);
    while next < weights.len() {
        best = next;
        next = next_above(weights, weights[best], best + 1);
    }
    best
}

// The place of the first greatest of the weights: `place` where it stays that, and else the weights
// are looked through.
pub(crate) fn heaviest_after(weights: &[u128], place: usize, stays: bool) -> usize
    requires some { 0 < length weights.now }
    requires stays { stays ≡ true →
        IsFirstMaxByKey (λ w. w) weights.now (length weights.now) place }
    ensures { IsFirstMaxByKey (λ w. w) weights.now (length weights.now) result }
{
    if stays { place } else { heaviest(weights) }
}
