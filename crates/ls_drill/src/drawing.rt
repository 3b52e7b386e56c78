// The related pairs of a hidden order, drawn from a generator.
ghost use Rattle.std.specs.Prelude.{◌≡◌, ◌<◌, ◌++◌, IfOk, OnOk};
ghost use Rattle.ls_drill.specs.HiddenOrders.{related};
ghost use Rattle.ls_drill.specs.Draws.{drawn, after_words, row};

use rand_core::utils::NextWord;
use rand_pcg::Pcg32;
use std::alloc::{AllocError, Global};

// The stream of the generator.
const STREAM: u64 = 54;

// Draws a word for each pair of `i` and a greater item below `n`, and adds the related ones.
fn draw_row(
    pairs: &mut Vec<(u32, u32)>,
    generator: &mut Pcg32,
    n: u32,
    i: u32,
) -> Result<(), AllocError>
    requires { i < n }
    ensures pairs { OnOk result (pairs.new.items
        ≡ pairs.old.items ++ drawn generator.old (row n i)) }
    ensures generator { OnOk result (generator.new ≡ after_words (row n i) generator.old) }
{
    for j in i + 1..n {
        if generator.next_word() % 4 == 0 {
            pairs.push((i, j))?;
        }
    }
    Ok(())
}

// The related pairs of the order on `n` items that the number makes.
pub fn related_pairs(alloc: Global, n: u32, number: u64) -> Result<Vec<(u32, u32)>, AllocError>
    ensures { IfOk result (λ v. v.items ≡ related n number) }
{
    let mut generator = Pcg32::new(number, STREAM);
    let mut pairs = Vec::new(alloc);
    for i in 0..n {
        draw_row(&mut pairs, &mut generator, n, i)?;
    }
    Ok(pairs)
}
