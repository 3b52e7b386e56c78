// Commands that show something of the interview, on named items.
ghost use Rattle.std.specs.Prelude.{◌≡◌, ◌≤◌, map, length, option_map, IfOk};
ghost use Rattle.ls_domain.specs.Meanings.{item_of, items_of};
ghost use Rattle.ls_meaning.specs.{IsAfterOn, IsViewOn, after_of, order_words, placed};
ghost use Rattle.ls_meaning.specs.{projected_place, sets_words, unnamed, view_item_words, view_of};
ghost use Rattle.ls_meaning.specs.declared.request.View.TheVariants as view;
ghost use Rattle.ls_resolve.specs.Resolving.{Resolves, ResolvesInMemory};

use crate::names::{FIRST_NAME, read_names, read_order, read_query};
use crate::unnamed::{ResolveFault, Unnamed};
use ls_domain::Domain;
use ls_lines::{ViewCommand, Word, WordList};
use ls_meaning::View;
use ls_set::{CursorFault, ItemList, ItemSet, PLACES};
use std::alloc::Global;

// The first place of the names after which learning paths are listed.
const FIRST_OF_PATH: usize = 4;

/// What the command asks of an interview on a domain's items. The error is the first of its words
/// that must name an item and doesn't; or memory ran out.
pub fn resolve_view(
    alloc: Global,
    domain: &Domain,
    command: &ViewCommand,
) -> Result<View, ResolveFault>
    ensures resolves { ResolvesInMemory (unnamed domain.now (view_item_words command.now))
        (view_of domain.now command.now) result }
    ensures on { IfOk result (IsViewOn (length domain.now)) }
{
    Ok(match command {
        ViewCommand::Known { names, item } => View::Known {
            query: read_query(domain, names, item)?,
        },
        ViewCommand::Ask => View::Ask,
        ViewCommand::States { count, after } => View::States {
            count: *count,
            after: read_after(domain.count(), after),
        },
        ViewCommand::Base => View::Base,
        ViewCommand::Surmise => View::Surmise,
        ViewCommand::Learning => View::Learning,
        ViewCommand::Project {
            count,
            after,
            names,
        } => read_projection(domain, *count, after, names)?,
        ViewCommand::ProjectBase { names } => View::ProjectBase {
            part: read_names(domain, names, FIRST_NAME)?,
        },
        ViewCommand::Fringes { names } => View::Fringes {
            set: read_names(domain, names, FIRST_NAME)?,
        },
        ViewCommand::StateOf { inner, outer } => read_fringes(domain, inner, outer)?,
        ViewCommand::Paths { count, after } => View::Paths {
            count: *count,
            after: read_path(alloc, domain, after)?,
        },
        ViewCommand::SkillMap => View::SkillMap,
        ViewCommand::Relation => View::Relation,
    })
}

/// The set of the cursor after which a page of sets of `n` items begins, if there is one; or why
/// the cursor's text is none.
pub fn read_after(n: u32, after: &Option<Word>) -> Result<Option<ItemSet>, CursorFault>
    requires { n ≤ PLACES }
    ensures read { result ≡ after_of n after.now }
    ensures on { IsAfterOn n result }
{
    match after {
        None => Ok(None),
        Some(word) => Ok(Some(ItemSet::from_cursor(n, word.as_str().as_bytes())?)),
    }
}

// The place of the first name of a projection.
fn projected_place(after: &Option<Word>) -> usize
    ensures { result ≡ projected_place after.now }
{
    if after.is_some() { 6 } else { 4 }
}

// `project COUNT : NAMES` and `project COUNT after CURSOR : NAMES`
fn read_projection(
    domain: &Domain,
    count: u32,
    after: &Option<Word>,
    names: &WordList,
) -> Result<View, Unnamed>
    ensures resolves { Resolves
        (unnamed domain.now (placed (projected_place after.now) names.now))
        (view.Project (items_of domain.now names.now) count
        (after_of (length domain.now) after.now)) result }
    ensures on { IfOk result (IsViewOn (length domain.now)) }
{
    let part = read_names(domain, names, projected_place(after))?;
    let after = read_after(domain.count(), after);
    Ok(View::Project { part, count, after })
}

// `state-of NAMES | NAMES`
fn read_fringes(domain: &Domain, inner: &WordList, outer: &WordList) -> Result<View, Unnamed>
    ensures resolves { Resolves (unnamed domain.now (sets_words inner.now outer.now))
        (view.StateOf (items_of domain.now inner.now) (items_of domain.now outer.now)) result }
    ensures on { IfOk result (IsViewOn (length domain.now)) }
{
    let first_outer = inner.as_slice().len() + 3;
    let inner = match read_names(domain, inner, FIRST_NAME) {
        Ok(inner) => inner,
        Err(unnamed) => return Err(unnamed),
    };
    let outer = read_names(domain, outer, first_outer)?;
    Ok(View::StateOf { inner, outer })
}

// The items of the names after which a page of learning paths begins, if it has some.
fn read_path(
    alloc: Global,
    domain: &Domain,
    after: &Option<WordList>,
) -> Result<Option<ItemList>, ResolveFault>
    ensures { ResolvesInMemory (unnamed domain.now (order_words after.now))
        (option_map (map (item_of domain.now)) after.now) result }
{
    match after {
        None => Ok(None),
        Some(names) => Ok(Some(read_order(alloc, domain, names, FIRST_OF_PATH)?)),
    }
}
