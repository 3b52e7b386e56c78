// Names of commands.
ghost use Rattle.std.specs.Prelude.{◌≡◌, ◌+◌, ◌<◌, ◌^◌, [], ◌∷◌, map, length, IfOk};
ghost use Rattle.ls_set.specs.{IsWithin, full};
ghost use Rattle.ls_domain.specs.Meanings.{item_of, items_of};
ghost use Rattle.ls_meaning.specs.{placed, query_of, query_words, unnamed};
ghost use Rattle.ls_resolve.specs.Resolving.{Resolves, ResolvesInMemory};

use crate::unnamed::{ResolveFault, Unnamed};
use ls_domain::{Domain, UnknownAt};
use ls_lines::{Word, WordList};
use ls_set::{ItemList, ItemSet, Query};
use std::alloc::{AllocError, Global};

/// The first place of the names of a command that begins with them.
pub const FIRST_NAME: usize = 2;

/// The query `NAMES : ITEM`, where its names stand from the second place of the line on.
pub fn read_query(domain: &Domain, names: &WordList, item: &Word) -> Result<Query, Unnamed>
    ensures { Resolves (unnamed domain.now (query_words names.now item.now))
        (query_of domain.now names.now item.now) result }
{
    let place = names.as_slice().len() + 3;
    let a = match read_names(domain, names, FIRST_NAME) {
        Ok(a) => a,
        Err(unnamed) => return Err(unnamed),
    };
    let q = read_item(domain, item, place)?;
    Ok(Query { a, q })
}

/// The item that the word names, which stands at a place of the line.
pub fn read_item(domain: &Domain, item: &Word, place: usize) -> Result<u32, Unnamed>
    ensures resolves { Resolves (unnamed domain.now ((place, item.now) ∷ []))
        (item_of domain.now item.now) result }
    ensures on { IfOk result (λ q. q < length domain.now) }
{
    match domain.number(item.as_str()) {
        Some(q) => Ok(q),
        None => Err(Unnamed { place }),
    }
}

/// The set of the names, which stand from a place of the line on.
pub fn read_names(domain: &Domain, names: &WordList, first: usize) -> Result<ItemSet, Unnamed>
    requires { first < 2 ^ 63 }
    ensures resolves { Resolves (unnamed domain.now (placed first names.now))
        (items_of domain.now names.now) result }
    ensures on { IfOk result (λ s. IsWithin s (full (length domain.now))) }
{
    let _ = names.as_slice(); // bounds the places
    match domain.read_set(names) {
        Ok(set) => Ok(set),
        Err(UnknownAt { index }) => Err(Unnamed {
            place: first + index,
        }),
    }
}

/// The items of the names, which stand from a place of the line on, in the order of the names.
pub fn read_order(
    alloc: Global,
    domain: &Domain,
    names: &WordList,
    first: usize,
) -> Result<ItemList, ResolveFault>
    requires { first < 2 ^ 63 }
    ensures { ResolvesInMemory (unnamed domain.now (placed first names.now))
        (map (item_of domain.now) names.now) result }
{
    let _ = read_names(domain, names, first)?; // each is named
    Ok(items_of(alloc, domain, names)?)
}

// The items of the names, in their order.
fn items_of(alloc: Global, domain: &Domain, names: &WordList) -> Result<ItemList, AllocError>
    ensures { IfOk result (λ o. o ≡ map (item_of domain.now) names.now) }
{
    let mut items = ItemList::new(alloc);
    for word in names.as_slice() {
        let item = domain.number(word.as_str()).unwrap_or(0);
        items.push(item)?;
    }
    Ok(items)
}
