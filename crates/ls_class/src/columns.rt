// The first record of a table.
ghost use Rattle.std.specs.Prelude.{◌≡◌, ◌<◌, ◌+◌, All, IfOk, IfSome, option_and_then};
ghost use Rattle.csv.specs.Records.{fields_of, field_at};
ghost use Rattle.ls_domain.specs.Meanings.{number_of};
ghost use Rattle.ls_domain.specs.Domains.{IsDomain};
ghost use Rattle.ls_files.specs.ClassTables.{columns_of};

use csv::ByteRecord;
use ls_domain::Domain;
use ls_set::{ItemList, ItemSet, PLACES};
use std::alloc::{AllocError, Global};

/// The items of the columns, where the record has each item's name once behind its first field.
pub(crate) fn columns_of(
    alloc: Global,
    domain: &Domain,
    header: &ByteRecord,
) -> Result<Option<ItemList>, AllocError>
    ensures value { IfOk result
        (λ columns. columns ≡ columns_of domain.now (fields_of header.now)) }
    ensures places { IfOk result (λ columns. IfSome columns (All (λ i. i < PLACES))) }
{
    let count = domain.count();
    if header.len() != count as usize + 1 {
        return Ok(None);
    }
    let mut columns = ItemList::new(alloc);
    let mut named = ItemSet::empty();
    for column in 0..count as usize {
        let Some(item) = item_at(domain, header, column + 1) else {
            return Ok(None);
        };
        columns.push(item)?;
        named = named.with(item);
    }
    if named == ItemSet::full(count) {
        Ok(Some(columns))
    } else {
        Ok(None)
    }
}

// The item that the field at the place names, if it names one.
fn item_at(domain: &Domain, header: &ByteRecord, place: usize) -> Option<u32>
    requires { IsDomain domain.now }
    ensures value { result ≡
        option_and_then (number_of domain.now) (field_at (fields_of header.now) place) }
    ensures places { IfSome result (λ i. i < PLACES) }
{
    let Ok(name) = str::from_utf8(header.get(place)?) else {
        return None;
    };
    domain.number(name)
}
