// The tree of replies: pupils that have given the same replies so far share their weights.
ghost use Rattle.std.specs.Prelude.{◌≡◌, ◌<◌, ◌++◌, ◌∷◌, [], IfOk, filter, length, map, not};
ghost use Rattle.ls_set.specs.{has, most_items};
ghost use Rattle.ls_theory.specs.{asked};
ghost use Rattle.ls_theory.specs.declared.asked.Asked.TheVariants.{Item, Over};
ghost use Rattle.ls_class.specs.Replays.{ended, replay_from};

use crate::parting::{merged, with_item, without_item};
use ls_assess::{Asked, Pupil, Reason};
use ls_set::ItemSet;
use ls_theory::Replay;
use std::alloc::{AllocError, Global};

// How the assessment has ended, which is over for the reason.
#[tactic(auto, using(crate::proofs::Turns::over_ends))]
fn ended(pupil: &Pupil, reason: Reason) -> Replay
    requires { asked pupil.now.settings pupil.now.states pupil.now.replies ≡ Over reason }
    ensures { result ≡ ended pupil.now.settings pupil.now.states pupil.now.replies }
{
    let outcome = pupil.result();
    Replay {
        replies: outcome.replies,
        reason,
        state: outcome.state,
    }
}

// The same for each of the pupils.
fn for_each(alloc: Global, known: Replay, rights: &[ItemSet]) -> Result<Vec<Replay>, AllocError>
    ensures { IfOk result (λ v. v.items ≡ map (λ k. known) rights.now) }
{
    rights.iter().map(|_| known).collect(alloc)
}

// How the assessments end of the pupils that get these items right, all of which have given the
// replies of `pupil` so far.
#[cycle(tree)]
pub(crate) fn replay_all(
    alloc: Global,
    pupil: Pupil,
    rights: &[ItemSet],
) -> Result<Vec<Replay>, AllocError>
    ensures { IfOk result (λ v.
        v.items ≡ map (replay_from pupil.settings pupil.states pupil.replies) rights.now) }
{
    match pupil.question() {
        Asked::Over(reason) => for_each(alloc, ended(&pupil, reason), rights),
        Asked::Item(q) => replay_asked(alloc, pupil, q, rights),
    }
}

// The same where the item is asked, and the replies on it part the pupils.
#[cycle(tree)]
fn replay_asked(
    alloc: Global,
    pupil: Pupil,
    q: u32,
    rights: &[ItemSet],
) -> Result<Vec<Replay>, AllocError>
    requires asked { asked pupil.settings pupil.states pupil.replies ≡ Item q }
    requires item { q < length pupil.settings.ratios }
    requires room { length pupil.replies < pupil.settings.budget }
    ensures { IfOk result (λ v.
        v.items ≡ map (replay_from pupil.settings pupil.states pupil.replies) rights.now) }
{
    // There are not too many items, where there are states.
    let _ = pupil.states();
    let got = with_item(alloc, rights, q)?;
    let missed = without_item(alloc, rights, q)?;
    replay_parted(alloc, pupil, q, rights, &got, &missed)
}

// The same of pupils that are parted: some get the item right, and some miss it.
#[cycle(tree)]
fn replay_parted(
    alloc: Global,
    pupil: Pupil,
    q: u32,
    rights: &[ItemSet],
    got: &[ItemSet],
    missed: &[ItemSet],
) -> Result<Vec<Replay>, AllocError>
    requires asked { asked pupil.settings pupil.states pupil.replies ≡ Item q }
    requires item { q < most_items }
    requires room { length pupil.replies < pupil.settings.budget }
    requires got { got.now ≡ filter (λ k. has k q) rights.now }
    requires missed { missed.now ≡ filter (λ k. not (has k q)) rights.now }
    ensures { IfOk result (λ v.
        v.items ≡ map (replay_from pupil.settings pupil.states pupil.replies) rights.now) }
{
    if missed.is_empty() {
        return replay_after(alloc, pupil, q, true, rights);
    }
    if got.is_empty() {
        return replay_after(alloc, pupil, q, false, rights);
    }
    let copy = pupil.copy()?;
    let after_right = replay_after(alloc, copy, q, true, got)?;
    let after_wrong = replay_after(alloc, pupil, q, false, missed)?;
    merged(alloc, rights, q, &after_right, &after_wrong)
}

// The same after the reply on the item that is asked.
#[cycle(tree)]
fn replay_after(
    alloc: Global,
    mut pupil: Pupil,
    q: u32,
    right: bool,
    rights: &[ItemSet],
) -> Result<Vec<Replay>, AllocError>
    requires asked { asked pupil.settings pupil.states pupil.replies ≡ Item q }
    requires room { length pupil.replies < pupil.settings.budget }
    ensures { IfOk result (λ v. v.items ≡ map (replay_from pupil.settings pupil.states
        (pupil.replies ++ record { q = q; right = right } ∷ [])) rights.now) }
{
    pupil.reply(q, right).unwrap();
    replay_all(alloc, pupil, rights)
}
