// The states of a pupil that begins.
ghost use Rattle.std.specs.Prelude.{◌≡◌, ◌<◌, ◌≤◌, Err, length, IfOk, OnOk};
ghost use Rattle.ls_theory.specs.{compatible_sets, most_states};

use ls_columns::Columns;
use ls_enum::{ListFault, list_all};
use ls_expert::Inquiry;
use ls_interior::{Counted, Steps};
use ls_set::SetList;
use ls_standing::leading;
use std::alloc::Global;
use std::sync::ledger::Ledger;

/// A pupil has at most so many states.
pub const MOST_STATES: u32 = 65_536;

/// The compatible sets of the interview, where they are not too many to be a pupil's states. They
/// are listed by the Yes queries that those of smaller sets don't force, in columns.
pub(crate) fn list_states<L: Ledger>(
    alloc: Global,
    inquiry: &Inquiry,
    steps: &mut Steps<L>,
) -> Result<SetList, ListFault>
    ensures sets { IfOk result (λ sets. sets ≡ compatible_sets inquiry.now) }
    ensures fits { OnOk result (length (compatible_sets inquiry.now) ≤ most_states) }
    ensures more { result ≡ Err ListFault.More →
        most_states < length (compatible_sets inquiry.now) }
{
    let family = leading(
        alloc,
        inquiry.family().inner(),
        inquiry.yes_queries(),
        steps,
    )?;
    let columns = Columns::new(alloc, &family)?;
    let listed = list_all(alloc, &Counted::new(&columns), MOST_STATES, steps);
    drop(columns);
    drop(family);
    listed
}
