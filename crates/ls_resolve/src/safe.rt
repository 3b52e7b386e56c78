// Commands of the safe interview, on named items.
ghost use Rattle.std.specs.Prelude.{length, IfOk};
ghost use Rattle.ls_meaning.specs.{IsSafeOn, safe_item_words, safe_of, unnamed};
ghost use Rattle.ls_resolve.specs.Resolving.{Resolves};

use crate::names::read_query;
use crate::unnamed::Unnamed;
use crate::views::read_after;
use ls_domain::Domain;
use ls_lines::SafeCommand;
use ls_meaning::SafeRequest;

/// What the command asks of the safe interview on a domain's items. The error is the first of its
/// words that must name an item and doesn't.
pub fn resolve_safe(domain: &Domain, command: &SafeCommand) -> Result<SafeRequest, Unnamed>
    ensures resolves { Resolves (unnamed domain.now (safe_item_words command.now))
        (safe_of domain.now command.now) result }
    ensures on { IfOk result (IsSafeOn (length domain.now)) }
{
    Ok(match command {
        SafeCommand::Open => SafeRequest::Open,
        SafeCommand::Answer { names, item } => SafeRequest::Answer {
            query: read_query(domain, names, item)?,
        },
        SafeCommand::List => SafeRequest::List,
        SafeCommand::States { count, after } => SafeRequest::States {
            count: *count,
            after: read_after(domain.count(), after),
        },
        SafeCommand::Close => SafeRequest::Close,
    })
}
