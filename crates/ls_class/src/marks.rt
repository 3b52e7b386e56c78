// The marks of a pupil's record.
ghost use Rattle.std.specs.Prelude.{◌≡◌, ◌<◌, All, length, drop};
ghost use Rattle.csv.specs.Records.{fields_of};
ghost use Rattle.ls_files.specs.ClassTables.{is_right, is_wrong, marked};

use csv::ByteRecord;
use ls_set::{ItemSet, PLACES};

/// The items of the columns that are marked as right, where there is one mark for each column
/// behind the first field.
pub(crate) fn read_marks(columns: &[u32], fields: &ByteRecord) -> Option<ItemSet>
    requires fields { 0 < length (fields_of fields.now) }
    requires places { All (λ i. i < PLACES) columns.now }
    ensures { result ≡ marked columns.now (drop 1 (fields_of fields.now)) }
{
    if fields.len() - 1 != columns.len() {
        return None;
    }
    let mut right = ItemSet::empty();
    for (place, item) in columns.iter().enumerate() {
        let mark = fields.get(place + 1).unwrap_or(b"");
        if is_right(mark) {
            right = right.with(*item);
        } else if !is_wrong(mark) {
            return None;
        }
    }
    Some(right)
}

// Whether the mark is `1`.
fn is_right(mark: &[u8]) -> bool
    ensures { result ≡ is_right mark.now }
{
    matches!(mark, b"1")
}

// Whether the mark is `0`.
fn is_wrong(mark: &[u8]) -> bool
    ensures { result ≡ is_wrong mark.now }
{
    matches!(mark, b"0")
}
