// Files that commands fetch.
ghost use Rattle.ls_deciding.specs.Fetches.{SeesFile, SeesFiles, shelf_state};

use crate::meshes::TwoFiles;
use ls_cutting::Word;
use ls_edge::{FetchFault, Shelf};
use ls_meaning::Refusal;
use std::alloc::AllocError;

/// The bytes of the file of the name, or the refusal of a file that gives none.
pub fn fetch<H: Shelf>(file: &Word, shelf: &mut H) -> Result<Result<Vec<u8>, Refusal>, AllocError>
    ensures { SeesFile file.now (shelf_state H.Shelf shelf.old) (shelf_state H.Shelf shelf.new)
        result }
{
    match shelf.fetch(file.as_str()) {
        Ok(bytes) => Ok(Ok(bytes)),
        Err(FetchFault::Missing) => Ok(Err(Refusal::NoFile)),
        Err(FetchFault::TooLarge { bytes }) => Ok(Err(Refusal::LargeFile { bytes })),
        Err(FetchFault::Failed) => Ok(Err(Refusal::FileFailed)),
        Err(FetchFault::Memory(e)) => Err(e),
    }
}

/// The bytes of two files, or the first refusal of a file that gives none. The second is fetched
/// where the first gave bytes, unless it has the same name.
pub fn fetch_both<H: Shelf>(
    left: &Word,
    right: &Word,
    shelf: &mut H,
) -> Result<Result<TwoFiles, Refusal>, AllocError>
    ensures { SeesFiles left.now right.now (shelf_state H.Shelf shelf.old)
        (shelf_state H.Shelf shelf.new) result }
{
    let first = match fetch(left, shelf)? {
        Ok(bytes) => bytes,
        Err(refusal) => return Ok(Err(refusal)),
    };
    if left.as_str() == right.as_str() {
        return Ok(Ok(TwoFiles {
            left: first,
            right: None,
        }));
    }
    match fetch(right, shelf)? {
        Ok(second) => Ok(Ok(TwoFiles {
            left: first,
            right: Some(second),
        })),
        Err(refusal) => Ok(Err(refusal)),
    }
}
