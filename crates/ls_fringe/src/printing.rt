// Printing fringes.
ghost use Rattle.std.specs.Prelude.{◌≡◌, ◌++◌, length, OnOk, OnErr};
ghost use Rattle.std.specs.Io.{StartsWith};
ghost use Rattle.ls_lists.specs.Lists.{gap};
ghost use Rattle.ls_set.specs.{IsWithin, full, items};
ghost use Rattle.ls_fringe.specs.FringeTexts.{fringe_text};

use ls_domain::Domain;
use ls_set::ItemSet;
use ls_theory::FringePair;
use std::alloc::AllocError;

// What stands between the bar and the names of the set: a space, where it has an item.
#[tactic(auto, using(ls_set::proofs::Firsts::items_facts))]
fn gap_of(s: ItemSet) -> &'static [u8]
    ensures { result.now ≡ gap (items s) }
{
    match s.least() {
        Some(_) => b" ",
        None => b"",
    }
}

// Appends the text of the fringes; where memory runs out, what there was room for.
fn append_fringes(d: &Domain, x: &FringePair, out: &mut Vec<u8>) -> Result<(), AllocError>
    requires inner { IsWithin x.now.inner (full (length d.now)) }
    requires outer { IsWithin x.now.outer (full (length d.now)) }
    ensures ok { OnOk result (out.new.items ≡ out.old.items ++ fringe_text d.now x.now) }
    ensures kept { StartsWith out.new.items out.old.items }
{
    d.push_names(x.inner, out)?;
    out.extend_from_slice(gap_of(x.inner))?;
    out.push(b'|')?;
    out.extend_from_slice(gap_of(x.outer))?;
    d.push_names(x.outer, out)?;
    Ok(())
}

/// Appends the fringes: the names of the inner one's items, a bar, and the names of the outer one's
/// items, all joined by single spaces. All their items are below `d.count()`. Where memory runs out
/// the bytes are as they were.
pub fn print_fringes(d: &Domain, x: &FringePair, out: &mut Vec<u8>) -> Result<(), AllocError>
    requires inner { IsWithin x.now.inner (full (length d.now)) }
    requires outer { IsWithin x.now.outer (full (length d.now)) }
    ensures ok { OnOk result (out.new.items ≡ out.old.items ++ fringe_text d.now x.now) }
    ensures err { OnErr result (out.new.items ≡ out.old.items) }
{
    let start = out.len();
    let printed = append_fringes(d, x, out);
    if printed.is_err() {
        out.truncate(start);
    }
    printed
}
