// Commands that assess pupils, on named items.
ghost use Rattle.std.specs.Prelude.{length, IfOk};
ghost use Rattle.ls_meaning.specs.{IsPupilOn, pupil_item_words, pupil_of, unnamed};
ghost use Rattle.ls_resolve.specs.Resolving.{Resolves};

use crate::names::read_item;
use crate::unnamed::Unnamed;
use ls_domain::Domain;
use ls_lines::PupilCommand;
use ls_meaning::PupilRequest;

// The place of the item of `reply`, behind the name of the pupil.
const ITEM_OF_REPLY: usize = 3;

/// What the command asks of a pupil, on a domain's items. The error is its word that must name an
/// item and doesn't.
pub fn resolve_pupil(domain: &Domain, command: &PupilCommand) -> Result<PupilRequest, Unnamed>
    ensures resolves { Resolves (unnamed domain.now (pupil_item_words command.now))
        (pupil_of domain.now command.now) result }
    ensures on { IfOk result (IsPupilOn (length domain.now)) }
{
    Ok(match command {
        PupilCommand::Pupil { .. } => PupilRequest::Begin,
        PupilCommand::Question { .. } => PupilRequest::Question,
        PupilCommand::Reply { item, right, .. } => PupilRequest::Reply {
            item: read_item(domain, item, ITEM_OF_REPLY)?,
            right: *right,
        },
        PupilCommand::Report { .. } => PupilRequest::Report,
        PupilCommand::Close { .. } => PupilRequest::Close,
    })
}
