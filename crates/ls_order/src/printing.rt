// The text of covers.
ghost use Rattle.std.specs.Prelude.{◌≡◌, ◌++◌, IfOk, OnOk};
ghost use Rattle.ls_origins.specs.Relations.{pair_of};
ghost use Rattle.ls_files.specs.PairFiles.{covers_text, pair_line};

use ls_domain::Domain;
use ls_origins::{Cover, Covers};
use std::alloc::{AllocError, Global};

/// The text of covers: for each a line with the names of its lower and of its higher item, parted
/// by a space. The text of all covers of a relation is read as the relation
/// (`relations_are_read_back`). The error is want of memory.
pub fn print_covers(alloc: Global, d: &Domain, c: &Covers) -> Result<Vec<u8>, AllocError>
    ensures { IfOk result (λ v. v.items ≡ covers_text d.now c.now) }
{
    let mut text = Vec::new(alloc);
    for cover in c.as_slice() {
        push_line(&mut text, d, *cover)?;
    }
    Ok(text)
}

// Puts a cover last, as a line.
fn push_line(text: &mut Vec<u8>, d: &Domain, cover: Cover) -> Result<(), AllocError>
    ensures { OnOk result (text.new.items ≡ text.old.items ++ pair_line d.now (pair_of cover)) }
{
    text.extend_from_slice(d.name(cover.low).as_bytes())?;
    text.push(b' ')?;
    text.extend_from_slice(d.name(cover.high).as_bytes())?;
    text.push(b'\n')?;
    Ok(())
}
