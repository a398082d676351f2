//! From contents to blocks.

ghost use Rattle.std.specs.Prelude.{◌≡◌, ◌+◌, ◌-◌, ◌++◌, ◌≤◌, length, map, replicate, IfOk};
ghost use Rattle.scfs_erasure.specs.Rows.{numbers_below, row_length};
ghost use Rattle.scfs_erasure.specs.Blocks.{block_of, blocks_of};

use crate::block::{Block, block_length};
use crate::decoding::block_from;
use scfs_base::{Bytes, Memory, Sequence};
use std::alloc::Global;

/// The n = 3f+1 blocks of the contents, in the order of their numbers. The contents have at most 1,048,576 bytes.
pub fn encode(alloc: Global, f: u8, contents: &[u8]) -> Result<Sequence<Block>, Memory>
    requires faults { f ≤ 3 }
    requires size { length contents.now ≤ 1048576 }
    ensures { IfOk result (λ blocks. blocks ≡ blocks_of f contents.now) }
{
    let rows = usize::from(f) + 1;
    let mut blocks = row_blocks(alloc, f, contents)?;
    for number in f + 1..3 * f + 1 {
        let block = block_from(alloc, f, &blocks.as_slice()[..rows], number)?;
        blocks.push(block)?;
    }
    Ok(blocks)
}

/// The blocks 0 to f, which are the rows of the contents.
fn row_blocks(alloc: Global, f: u8, contents: &[u8]) -> Result<Sequence<Block>, Memory>
    requires faults { f ≤ 3 }
    requires size { length contents.now ≤ 1048576 }
    ensures { IfOk result (λ blocks. blocks ≡ map (block_of f contents.now) (numbers_below (f + 1))) }
{
    let size = block_length(f, contents.len() as u32) as usize;
    let mut blocks = Sequence::new(alloc);
    let mut rest = contents;
    for number in 0..f + 1 {
        let (row, others) = rest.split_at(size.min(rest.len()));
        let bytes = filled_row(alloc, row, size)?;
        blocks.push(Block { number, bytes })?;
        rest = others;
    }
    Ok(blocks)
}

/// The bytes, and behind them zeros up to `size` bytes.
fn filled_row(alloc: Global, bytes: &[u8], size: usize) -> Result<Bytes, Memory>
    requires { length bytes.now ≤ size }
    ensures { IfOk result (λ row. row ≡ bytes.now ++ replicate (size - length bytes.now) 0) }
{
    let mut row = Vec::with_capacity(alloc, size)?;
    row.extend_from_slice(bytes)?;
    row.resize(size, 0)?;
    Ok(Bytes::from_vec(row))
}
