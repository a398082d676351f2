//! From blocks back to contents, and to further blocks.

ghost use Rattle.std.specs.Prelude.{◌≡◌, ◌≤◌, IfOk};
ghost use Rattle.scfs_erasure.specs.Rows.{row_length, piece_of_rows};
ghost use Rattle.scfs_erasure.specs.Blocks.{size_of, AreEnough, AreOnlyRows, rows_from, contents_from};

use crate::block::{Block, block_length};
use crate::combining::push_row;
use scfs_base::{Bytes, Memory};
use std::alloc::Global;

/// The contents of `length` bytes of which f+1 blocks are given: the first `length` bytes of the only rows of which the
/// blocks are the pieces.
pub fn decode(alloc: Global, f: u8, length: u32, blocks: &[Block]) -> Result<Bytes, Memory>
    requires faults { f ≤ 3 }
    requires enough { AreEnough f (row_length f length) blocks.now }
    ensures rows { IfOk result (λ contents.
        AreOnlyRows f (row_length f length) blocks.now (rows_from f (row_length f length) blocks.now)) }
    ensures contents { IfOk result (λ contents. contents ≡ contents_from f length blocks.now) }
{
    let size = block_length(f, length) as usize;
    let mut contents = Vec::with_capacity(alloc, size * (usize::from(f) + 1))?;
    for number in 0..f + 1 {
        push_row(alloc, blocks, size, number, &mut contents)?;
    }
    contents.truncate(length as usize);
    Ok(Bytes::from_vec(contents))
}

/// The block `number` of the contents of which f+1 blocks are given: the piece of that number of the only rows of which
/// the blocks are the pieces.
pub fn block_from(alloc: Global, f: u8, blocks: &[Block], number: u8) -> Result<Block, Memory>
    requires faults { f ≤ 3 }
    requires enough { AreEnough f (size_of blocks.now) blocks.now }
    ensures rows { IfOk result (λ block.
        AreOnlyRows f (size_of blocks.now) blocks.now (rows_from f (size_of blocks.now) blocks.now)) }
    ensures number { IfOk result (λ block. block.number ≡ number) }
    ensures bytes { IfOk result (λ block.
        block.bytes ≡ piece_of_rows f (size_of blocks.now) (rows_from f (size_of blocks.now) blocks.now) number) }
{
    let size = blocks[0].bytes.len();
    let mut row = Vec::with_capacity(alloc, size)?;
    push_row(alloc, blocks, size, number, &mut row)?;
    let bytes = Bytes::from_vec(row);
    Ok(Block { number, bytes })
}
