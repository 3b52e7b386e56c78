// Pupils of saved sessions: their states are listed, and their replies are given once more.
ghost use Rattle.std.specs.Prelude.{◌≡◌, ◌<◌, ◌≤◌, ◌&&◌, [], true, filter, length, nat_le, is_none};
ghost use Rattle.std.specs.Prelude.{is_some, Some, IfOk, IfSome};
ghost use Rattle.std.specs.List.{list_all};
ghost use Rattle.ls_set.specs.{is_good};
ghost use Rattle.ls_theory.specs.{breaks_none, compat, heavy_after, most_states};
ghost use Rattle.ls_weight.specs.Weighings.{IsWeighable};
ghost use Rattle.ls_standing.specs.Starts.{start_of, IsStartOn};
ghost use Rattle.ls_files.specs.{follow};
ghost use Rattle.ls_files.specs.Codecs.{kept_if};

use ls_assess::{Pupil, Reply, Settings, WeightFault};
use ls_columns::Columns;
use ls_enum::{ListFault, list_all};
use ls_expert::{OnItems, Start};
use ls_interior::{Counted, Steps};
use ls_pupils::MOST_STATES;
use ls_rules::Ruled;
use ls_set::{PLACES, Query, SetList};
use ls_standing::{Lent, leading};
use std::alloc::{AllocError, Global};
use std::sync::ledger::Ledger;

// The sets of the family, where there are not too many to be a pupil's states.
fn listed<L: Ledger>(
    alloc: Global,
    family: &Ruled<Lent<'_>>,
    steps: &mut Steps<L>,
) -> Result<Option<SetList>, AllocError>
    ensures { IfOk result (λ found. found ≡ kept_if (λ f. nat_le (length f) most_states)
        (Some (filter (breaks_none family.now.rules)
        (compat family.now.inner.item_count family.now.inner.start [])))) }
{
    let columns = Columns::new(alloc, family)?;
    match list_all(alloc, &Counted::new(&columns), MOST_STATES, steps) {
        Ok(states) => Ok(Some(states)),
        Err(ListFault::More) => Ok(None),
        Err(ListFault::Memory(e)) => Err(e),
    }
}

// The sets that meet the start and break no query, where there are not too many to be a pupil's
// states.
fn states_of<L: Ledger>(
    alloc: Global,
    n: u32,
    start: &Start,
    yes: &[Query],
    steps: &mut Steps<L>,
) -> Result<Option<SetList>, AllocError>
    requires few { n ≤ PLACES }
    requires on { IsStartOn n start.now }
    requires good { list_all (is_good n) yes.now ≡ true }
    ensures { IfOk result (λ found. found ≡ kept_if (λ f. nat_le (length f) most_states)
        (Some (compat n (start_of start.now) yes.now))) }
{
    let first = OnItems::new(n, start.copy()?);
    let family = leading(alloc, &first, yes, steps)?;
    let states = listed(alloc, &family, steps);
    drop(family);
    states
}

// The pupil over the states before any reply, where they can be weighed under the settings.
fn begun(
    alloc: Global,
    n: u32,
    states: SetList,
    settings: &Settings,
) -> Result<Option<Pupil>, AllocError>
    requires { IsWeighable n states settings.now }
    ensures pupil { IfOk result (λ found. IfSome found (λ p.
        p ≡ record { settings = settings.now; states = states; replies = [] })) }
    ensures light { IfOk result (λ found.
        is_some found ≡ is_none (heavy_after settings.now (length states))) }
{
    match Pupil::begin(alloc, n, states, settings) {
        Ok(pupil) => Ok(Some(pupil)),
        Err(WeightFault::Heavy { .. }) => Ok(None),
        Err(WeightFault::Memory(e)) => Err(e),
    }
}

// Gives the replies to a pupil that has given none, up to the first that is not to the item that is
// asked after those before it. Whether there is none such is told.
fn give(pupil: &mut Pupil, replies: &[Reply]) -> bool
    requires { pupil.old.replies ≡ [] }
    ensures pupil { result ≡ true → pupil.new ≡ record pupil.old { replies = replies.now } }
    ensures followed { result ≡ follow pupil.old.settings pupil.old.states [] replies.now }
{
    for reply in replies {
        if pupil.reply(reply.q, reply.right).is_err() {
            return false;
        }
    }
    true
}

// The pupil after the replies, where each is to the item that is asked after those before it.
fn replayed(mut pupil: Pupil, replies: &[Reply]) -> Option<Pupil>
    requires { pupil.replies ≡ [] }
    ensures pupil { IfSome result (λ p. p ≡ record pupil { replies = replies.now }) }
    ensures followed { is_some result ≡ follow pupil.settings pupil.states [] replies.now }
{
    if give(&mut pupil, replies) {
        Some(pupil)
    } else {
        drop(pupil);
        None
    }
}

/// The pupil whose states are the sets of `n` items that meet the start and break no query, after
/// the replies; where there are not too many states, they can be weighed under the settings, and
/// each reply is to the item that is asked.
pub fn pupil_after<L: Ledger>(
    alloc: Global,
    n: u32,
    start: &Start,
    yes: &[Query],
    settings: &Settings,
    replies: &[Reply],
    steps: &mut Steps<L>,
) -> Result<Option<Pupil>, AllocError>
    requires some { 0 < n }
    requires few { n ≤ PLACES }
    requires on { IsStartOn n start.now }
    requires good { list_all (is_good n) yes.now ≡ true }
    requires items { length settings.now.ratios ≡ n }
    ensures pupil { IfOk result (λ found. IfSome found (λ p. p ≡ record {
      settings = settings.now;
      states = compat n (start_of start.now) yes.now;
      replies = replies.now;
    })) }
    ensures stands { IfOk result (λ found. is_some found ≡ (
        nat_le (length (compat n (start_of start.now) yes.now)) most_states
        && is_none (heavy_after settings.now
        (length (compat n (start_of start.now) yes.now)))
        && follow settings.now (compat n (start_of start.now) yes.now) [] replies.now)) }
{
    let Some(states) = states_of(alloc, n, start, yes, steps)? else {
        return Ok(None);
    };
    match begun(alloc, n, states, settings)? {
        Some(pupil) => Ok(replayed(pupil, replies)),
        None => Ok(None),
    }
}
