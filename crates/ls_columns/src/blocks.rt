// Any number of rules, in blocks.
ghost use Rattle.std.specs.Prelude.{◌≡◌, IfOk};
ghost use Rattle.ls_columns.specs.Falling.{fallen_by};
ghost use Rattle.ls_columns.specs.Rounds.{joined};

use crate::block::Block;
use ls_set::{ItemSet, PLACES, Query};
use std::alloc::{AllocError, Global};

/// The rules in blocks, in their order, unless memory runs out.
pub fn blocks_of(alloc: Global, rules: &[Query]) -> Result<Vec<Block>, AllocError>
    ensures { IfOk result (λ blocks. joined blocks.items ≡ rules.now) }
{
    let mut blocks = Vec::new(alloc);
    let mut left = rules;
    while !left.is_empty() {
        let (first, rest) = left.split_at(left.len().min(PLACES as usize));
        blocks.push(Block::new(alloc, first)?)?;
        left = rest;
    }
    Ok(blocks)
}

/// The items q of the rules of the blocks whose sets A have an item that fell and none that is
/// kept.
pub fn broken_in(blocks: &[Block], fallen: ItemSet, kept: ItemSet) -> ItemSet
    ensures { result ≡ fallen_by (joined blocks.now) fallen kept }
{
    let mut broken = ItemSet::empty();
    for block in blocks {
        broken = broken.union(block.broken(fallen, kept));
    }
    broken
}
