// Commands that change the interview, on named items.
ghost use Rattle.ls_meaning.specs.{edit_item_words, edit_of, unnamed};
ghost use Rattle.ls_resolve.specs.Resolving.{Resolves};

use crate::names::read_query;
use crate::unnamed::Unnamed;
use ls_domain::Domain;
use ls_lines::EditCommand;
use ls_meaning::Edit;

/// The change that the command asks of an interview on a domain's items. The error is the first of
/// its words that must name an item and doesn't.
pub fn resolve_edit(domain: &Domain, command: &EditCommand) -> Result<Edit, Unnamed>
    ensures { Resolves (unnamed domain.now (edit_item_words command.now))
        (edit_of domain.now command.now) result }
{
    Ok(match command {
        EditCommand::Blocks { size } => Edit::Blocks { size: *size },
        EditCommand::Yes { names, item } => Edit::Answer {
            query: read_query(domain, names, item)?,
            yes: true,
        },
        EditCommand::No { names, item } => Edit::Answer {
            query: read_query(domain, names, item)?,
            yes: false,
        },
        EditCommand::Retract { number } => Edit::Retract { number: *number },
    })
}
