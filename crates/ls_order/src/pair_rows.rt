// The rows of a file of pairs: no list of its pairs is kept.
ghost use Rattle.std.specs.Prelude.{◌≡◌, ◌<◌, ◌≤◌, ◌∷◌, ℕ, List, [], length, replicate};
ghost use Rattle.std.specs.Prelude.{IfErr, IfOk, MatchOption, OnOk, slice_index_or, slice_set};
ghost use Rattle.ls_set.specs.ItemSet.{empty, with};
ghost use Rattle.ls_cutting.specs.{lines};
ghost use Rattle.ls_order.specs.Closing.{AreRows};
ghost use Rattle.ls_order.specs.Orders.{ArePairs};
ghost use Rattle.ls_files.specs.PairFiles.{IsPairFaultOf, pair_items, pairs_of_file, with_line};
ghost use Rattle.ls_order.specs.Reading.{AreRead, IsTaken};
ghost use Rattle.ls_files.specs.declared.pair_line.PairLine.TheVariants.{Pair};

use crate::reading::read_line;
use ls_domain::Domain;
use ls_files::PairLine;
use ls_origins::PairFault;
use ls_set::{ItemSet, PLACES};
use std::alloc::{AllocError, Global};

/// The rows of the pairs of a file, or its first fault; or memory ran out.
pub(crate) fn read_rows(alloc: Global, d: &Domain, bytes: &[u8]) -> Result<Vec<ItemSet>, PairFault>
    ensures read { IfOk result (λ v. AreRead d.now bytes.now v.items) }
    ensures fault { IfErr result (IsPairFaultOf (pairs_of_file d.now bytes.now)) }
    ensures items { IfErr result (λ e. pair_items e ≡ []) }
{
    let mut rows = no_pairs(alloc, d.count())?;
    let mut text = Some(bytes);
    let mut row = 1;
    while let Some(rest) = text {
        let (line, more) = first_line(rest);
        take_line(&mut rows, row, read_line(d, line))?;
        text = more;
        row += 1;
    }
    Ok(rows)
}

// The rows of no pairs.
fn no_pairs(alloc: Global, n: u32) -> Result<Vec<ItemSet>, AllocError>
    ensures { IfOk result (λ v. v.items ≡ replicate n empty) }
{
    let mut rows = Vec::new(alloc);
    for _ in 0..n {
        rows.push(ItemSet::empty())?;
    }
    Ok(rows)
}

// Takes one line more.
fn take_line(rows: &mut [ItemSet], row: usize, line: PairLine) -> Result<(), PairFault>
    requires few { length rows.old ≤ PLACES }
    requires items { (low high : ℕ) → line ≡ Pair low high →
        (low < length rows.old) × (high < length rows.old) }
    ensures taken { (pairs : List (ℕ × ℕ)) → ArePairs (length rows.old) pairs →
        AreRows (length rows.old) pairs rows.old →
        OnOk result (IsTaken (length rows.old) pairs row line rows.new) }
    ensures as_many { length rows.new ≡ length rows.old }
    ensures fault { (pairs : List (ℕ × ℕ)) →
        IfErr result (IsPairFaultOf (with_line pairs row line)) }
    ensures items { IfErr result (λ e. pair_items e ≡ []) }
{
    match line {
        PairLine::Passed => Ok(()),
        PairLine::Bad => Err(PairFault::BadLine { row }),
        PairLine::Unknown => Err(PairFault::UnknownItem { row }),
        PairLine::Pair { low, high } => {
            put_pair(rows, low, high);
            Ok(())
        }
    }
}

// Puts the lower item into the row of the higher one.
fn put_pair(rows: &mut [ItemSet], low: u32, high: u32)
    requires low { low < PLACES }
    requires high { high < length rows.old }
    ensures { rows.new ≡ slice_set rows.old high (with (slice_index_or rows.old high empty) low) }
{
    rows[high as usize] = rows[high as usize].with(low);
}

// The first line, and what follows its line feed, if it has one.
fn first_line(text: &[u8]) -> (&[u8], Option<&[u8]>)
    ensures { MatchOption result.1 (lines text.now ≡ result.0.now ∷ [])
        (λ more. (lines text.now ≡ result.0.now ∷ lines more.now)
        × (length more.now < length text.now)) }
{
    match text.iter().position(|b| *b == b'\n') {
        None => (text, None),
        Some(end) => (&text[..end], Some(&text[end + 1..])),
    }
}
