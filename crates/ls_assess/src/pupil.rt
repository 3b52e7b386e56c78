// The assessment of one pupil.
ghost use Rattle.std.specs.Prelude.{◌≡◌, ◌<◌, ◌≤◌, ◌++◌, ◌∷◌, [], ℕ, length, nat_lt, true};
ghost use Rattle.std.specs.Prelude.{Some, None, Err, IfOk, IfErr, OnOk, OnErr};
ghost use Rattle.std.specs.List.{list_all};
ghost use Rattle.ls_set.specs.{is_among};
ghost use Rattle.ls_theory.specs.{asked, has_share, heavy_after, outcome, reply_fault};
ghost use Rattle.ls_weight.specs.Weighings.{IsWeighable};

use ls_ask::{half_split, leader};
use ls_set::{ItemSet, SetList};
use ls_theory::{Asked, Outcome, Reason, Reply, ReplyFault};
use ls_weight::{Settings, WeightFault, Weights};
use std::alloc::{AllocError, Global};
use std::marker::Model;

/// The assessment of one pupil. Contracts see the settings, the states and the replies.
#[derive(Drop)]
pub struct Pupil {
    weights: Weights,
}

impl Model for Pupil {
    ghost use Rattle.ls_weight.specs.Weighings.{Weighing};

    ghost Value = { Weighing };

    ghost view = { λ p. p.weights };
}

// Whether 100 times the leader's weight is at least the share times the total.
fn has_share(w: &Weights) -> bool
    ensures { result ≡ has_share w.now.settings w.now.states w.now.replies }
{
    let settings = w.settings();
    // Settings are in their ranges, so the products fit.
    let _ = settings.count(); // for the proof
    u128::from(settings.share()) * w.total() <= 100 * w.weight(leader(w))
}

impl Pupil {
    ghost use Rattle.ls_theory.specs.declared.asked.Asked.TheVariants.{Item};
    ghost use Rattle.ls_theory.specs.declared.reply_fault.ReplyFault.TheVariants.{WrongItem};
    ghost use Rattle.ls_weight.specs.declared.fault.WeightFault.TheVariants.{Heavy};

    /// The assessment of a pupil whose state is one of `states`, before any reply. `Heavy` comes
    /// exactly where the total may pass 2 ^ 120 within the budget, with the least number of replies
    /// after which it may.
    pub fn begin(alloc: Global, n: u32, states: SetList, s: &Settings) -> Result<Pupil, WeightFault>
        requires { IsWeighable n states s.now }
        ensures ok { IfOk result
            (λ p. p ≡ record { settings = s.now; states = states; replies = [] }) }
        ensures light { OnOk result (heavy_after s.now (length states) ≡ None) }
        ensures heavy { (r : ℕ) → result ≡ Err (Heavy r) →
            heavy_after s.now (length states) ≡ Some r }
    {
        let weights = Weights::new(alloc, n, states, s)?;
        Ok(Pupil { weights })
    }

    /// The assessment of another pupil over the same states, under other settings of as many items;
    /// it fails as [`Pupil::begin`] does.
    pub fn again(&self, s: &Settings) -> Result<Pupil, WeightFault>
        requires { length s.now.ratios ≡ length self.now.settings.ratios }
        ensures ok { IfOk result
            (λ p. p ≡ record { settings = s.now; states = self.now.states; replies = [] }) }
        ensures light { OnOk result (heavy_after s.now (length self.now.states) ≡ None) }
        ensures heavy { (r : ℕ) → result ≡ Err (Heavy r) →
            heavy_after s.now (length self.now.states) ≡ Some r }
    {
        let weights = self.weights.again(s)?;
        Ok(Pupil { weights })
    }

    /// The assessment once more, over the same states, from the replies so far on.
    pub fn copy(&self) -> Result<Pupil, AllocError>
        ensures { IfOk result (λ p. p ≡ self.now) }
    {
        Ok(Pupil {
            weights: self.weights.copy()?,
        })
    }

    /// The item that is asked next, or that the assessment is over: by share, or else by budget.
    #[tactic(auto, unfolding(ls_theory::specs::Assessment::asked))]
    pub fn question(&self) -> Asked
        ensures value { result ≡ asked self.now.settings self.now.states self.now.replies }
        ensures item { (q : ℕ) → result ≡ Item q → q < length self.now.settings.ratios }
        ensures room { (q : ℕ) → result ≡ Item q →
            length self.now.replies < self.now.settings.budget }
    {
        if has_share(&self.weights) {
            Asked::Over(Reason::Share)
        } else if self.weights.replies().len() as u64 == self.weights.settings().budget() {
            Asked::Over(Reason::Budget)
        } else {
            Asked::Item(half_split(&self.weights))
        }
    }

    /// Takes the reply on the item `q`, where it is the one that is asked. It takes no memory, and
    /// where it fails nothing changes.
    pub fn reply(&mut self, q: u32, right: bool) -> Result<(), ReplyFault>
        ensures ok { OnOk result (self.new ≡ record self.old {
          replies = self.old.replies ++ record { q = q; right = right } ∷ [];
        }) }
        ensures taken { OnOk result (reply_fault
            (asked self.old.settings self.old.states self.old.replies) q ≡ None) }
        ensures fault { IfErr result (λ e. reply_fault
            (asked self.old.settings self.old.states self.old.replies) q ≡ Some e) }
        ensures item { (asked : ℕ) → result ≡ Err (WrongItem asked) →
            asked < length self.old.settings.ratios }
        ensures err { OnErr result (self.new ≡ self.old) }
    {
        match self.question() {
            Asked::Over(reason) => Err(ReplyFault::Over(reason)),
            Asked::Item(asked) if asked != q => Err(ReplyFault::WrongItem { asked }),
            Asked::Item(_) => {
                self.weights.reply(q, right);
                Ok(())
            }
        }
    }

    /// The leader with its weight, the total, and the number of replies.
    pub fn result(&self) -> Outcome
        ensures value { result ≡ outcome self.now.settings self.now.states self.now.replies }
        ensures state { is_among self.now.states result.state ≡ true }
    {
        let place = leader(&self.weights);
        Outcome {
            state: self.weights.states()[place],
            weight: self.weights.weight(place),
            total: self.weights.total(),
            replies: self.weights.replies().len() as u64,
        }
    }

    /// The states, in their order.
    pub fn states(&self) -> &[ItemSet]
        ensures value { result.now ≡ self.now.states }
        ensures weighable { IsWeighable (length self.now.settings.ratios)
            self.now.states self.now.settings }
    {
        self.weights.states()
    }

    /// The replies, from the first on.
    pub fn replies(&self) -> &[Reply]
        ensures value { result.now ≡ self.now.replies }
        ensures budget { length result.now ≤ self.now.settings.budget }
        ensures items { list_all (λ r. nat_lt r.q (length self.now.settings.ratios)) result.now
            ≡ true }
    {
        self.weights.replies()
    }

    /// The settings.
    pub fn settings(&self) -> &Settings
        ensures value { result.now ≡ self.now.settings }
        ensures light { heavy_after result.now (length self.now.states) ≡ None }
    {
        self.weights.settings()
    }
}
