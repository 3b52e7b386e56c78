// The size of the blocks of a saved session.
ghost use Rattle.std.specs.Prelude.{◌≡◌, ◌<◌, ◌≤◌};
ghost use Rattle.serde_json.specs.View.{view};
ghost use Rattle.ls_set.specs.{most_items};
ghost use Rattle.ls_files.specs.SessionCodecs.{block_field};
ghost use Rattle.ls_codecs.specs.Faults.{IsRead};

use crate::part_fault::PartFault;
use ls_query::Blocks;
use ls_set::PLACES;
use serde_json::Value;

/// The greatest size of the sets that are asked, of an object, where blocks of `n` items are made
/// up to it.
pub fn read_block(n: u32, object: &Value) -> Result<u32, PartFault>
    requires some { 0 < n }
    requires few { n ≤ most_items }
    ensures { IsRead ((block_field n).find_in (view object.now)) result }
{
    let value = object.get("block").ok_or(PartFault::Bad)?;
    let number = value.as_u64().ok_or(PartFault::Bad)?;
    if number > u64::from(PLACES) {
        return Err(PartFault::Bad);
    }
    let size = number as u32;
    if Blocks::new(n, size).is_ok() {
        Ok(size)
    } else {
        Err(PartFault::Bad)
    }
}
