//! Rows from other rows: the values elsewhere of the polynomials through given blocks.

ghost use Rattle.std.specs.Prelude.{◌≡◌, ℕ, ◌+◌, ◌^◌, ◌<◌, ◌≤◌, ◌++◌, [], length, slice_index, slice_index_or, IfOk, OnOk, IfSome};
ghost use Rattle.std.specs.List.{All};
ghost use Rattle.scfs_gf256.specs.Rows.{add_multiples};
ghost use Rattle.scfs_gf256.specs.Polynomials.{AreBytes, AreDistinct};
ghost use Rattle.scfs_gf256.specs.Interpolation.{lagrange_factors};
ghost use Rattle.scfs_erasure.specs.Rows.{row_at};
ghost use Rattle.scfs_erasure.specs.Blocks.{numbers_of, bytes_of};

use crate::block::Block;
use scfs_base::Memory;
use scfs_gf256::{factor_at, mul_row};
use std::alloc::Global;

/// Puts behind the bytes the row of `size` bytes that the polynomials through the given blocks have at the place `number`.
/// The row of a given block is copied; any other is computed.
pub fn push_row(
    alloc: Global,
    blocks: &[Block],
    size: usize,
    number: u8,
    bytes: &mut Vec<u8>,
) -> Result<(), Memory>
    requires places { AreBytes (numbers_of blocks.now) }
    requires different { AreDistinct (numbers_of blocks.now) }
    requires long { All (λ block. length block.bytes ≡ size) blocks.now }
    requires room { length bytes.old.items + size < 2 ^ 64 }
    ensures bytes { OnOk result (All (λ block. AreBytes block.bytes) blocks.now) }
    ensures row { OnOk result (bytes.new.items
        ≡ bytes.old.items ++ row_at (numbers_of blocks.now) (bytes_of blocks.now) size number) }
{
    are_bytes(blocks);
    match given(blocks, number) {
        Some(row) => bytes.extend_from_slice(row)?,
        None => push_computed(alloc, blocks, size, number, bytes)?,
    }
    Ok(())
}

/// The blocks hold bytes: a fact for the proofs. It does nothing.
fn are_bytes(blocks: &[Block])
    ensures { All (λ block. AreBytes block.bytes) blocks.now }
{
    for place in 0..blocks.len() {
        is_row(blocks[place].bytes.as_slice());
    }
}

/// The same of one row.
fn is_row(row: &[u8])
    ensures { AreBytes row.now }
{
    let _length = row.len();
}

/// The bytes of the block of this number, if it is given.
fn given(blocks: &[Block], number: u8) -> Option<&[u8]>
    ensures { IfSome result (λ row. (place : ℕ) × (place < length blocks.now)
        × (slice_index (numbers_of blocks.now) place ≡ number)
        × (row.now ≡ slice_index_or (bytes_of blocks.now) place [])) }
{
    for place in 0..blocks.len() {
        if blocks[place].number == number {
            return Some(blocks[place].bytes.as_slice());
        }
    }
    None
}

/// Puts that row behind the bytes, added up from those of all blocks.
fn push_computed(
    alloc: Global,
    blocks: &[Block],
    size: usize,
    number: u8,
    bytes: &mut Vec<u8>,
) -> Result<(), Memory>
    requires different { AreDistinct (numbers_of blocks.now) }
    requires long { All (λ block. length block.bytes ≡ size) blocks.now }
    requires room { length bytes.old.items + size < 2 ^ 64 }
    ensures { OnOk result (bytes.new.items
        ≡ bytes.old.items ++ row_at (numbers_of blocks.now) (bytes_of blocks.now) size number) }
{
    let numbers = numbers_in(alloc, blocks)?;
    let start = bytes.len();
    bytes.resize(start + size, 0)?;
    add_rows(&numbers, number, blocks, &mut bytes[start..]);
    Ok(())
}

/// The numbers of the blocks.
fn numbers_in(alloc: Global, blocks: &[Block]) -> Result<Vec<u8>, Memory>
    ensures { IfOk result (λ numbers. numbers.items ≡ numbers_of blocks.now) }
{
    let numbers = blocks.iter().map(|block| block.number).collect(alloc)?;
    Ok(numbers)
}

/// Adds to the row at `x` what the rows of the blocks at these places count for it.
fn add_rows(places: &[u8], x: u8, blocks: &[Block], into: &mut [u8])
    requires places { places.now ≡ numbers_of blocks.now }
    requires different { AreDistinct places.now }
    requires long { All (λ block. length block.bytes ≡ length into.old) blocks.now }
    ensures { into.new ≡ add_multiples into.old (lagrange_factors places.now x) (bytes_of blocks.now) }
{
    for place in 0..blocks.len() {
        let factor = factor_at(places, place, x);
        mul_row(factor, blocks[place].bytes.as_slice(), into);
    }
}
