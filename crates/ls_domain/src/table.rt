// The records of a table.
ghost use Rattle.std.specs.Prelude.{◌≡◌, ◌+◌, IfOk, map, take};
ghost use Rattle.csv.specs.Records.{fields_of};
ghost use Rattle.ls_domain.specs.Domains.{first_field, table_records};

use csv::{ByteRecord, ReaderBuilder};
use std::alloc::{AllocError, Global};

/// The records of a table with no header row, up to the first that is one more than the most.
pub fn first_records(
    alloc: Global,
    bytes: &[u8],
    most: usize,
) -> Result<Vec<ByteRecord>, AllocError>
    ensures { IfOk result (λ v. map fields_of v.items ≡ take (most + 1) (table_records bytes.now)) }
{
    let reader = ReaderBuilder::new()
        .has_headers(false)
        .flexible(true)
        .from_reader(alloc, bytes);
    let mut records = Vec::new(alloc);
    for record in reader.into_byte_records() {
        // A slice never fails to be read, so the error is want of memory.
        let Ok(record) = record else {
            return Err(AllocError);
        };
        records.push(record)?;
        if records.len() > most {
            return Ok(records);
        }
    }
    Ok(records)
}

/// The first field of a record.
pub(crate) fn first_field(fields: &ByteRecord) -> &[u8]
    ensures { result.now ≡ first_field (fields_of fields.now) }
{
    fields.get(0).unwrap_or(b"")
}
