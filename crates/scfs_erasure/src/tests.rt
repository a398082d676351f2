//! Known blocks, and contents given back by blocks that hold parity.

ghost use Rattle.std.specs.Prelude.{◌≤◌, length};

use crate::block::{Block, block_length};
use crate::decoding::{block_from, decode};
use crate::encoding::encode;
use scfs_base::{Bytes, Memory};
use std::alloc::Global;

// The bytes of the blocks of contents, one block after the other.
fn all_bytes(alloc: Global, f: u8, contents: &[u8]) -> Result<Bytes, Memory>
    requires faults { f ≤ 3 }
    requires size { length contents.now ≤ 1048576 }
{
    let blocks = encode(alloc, f, contents)?;
    let mut bytes = Bytes::new(alloc);
    for block in blocks.as_slice() {
        bytes.extend(block.bytes.as_slice())?;
    }
    Ok(bytes)
}

// The contents, from the last f+1 of their blocks.
fn given_back(alloc: Global, f: u8, contents: &[u8]) -> Result<Bytes, Memory>
    requires faults { f ≤ 3 }
    requires size { length contents.now ≤ 1048576 }
{
    let blocks = encode(alloc, f, contents)?;
    let (_, last) = blocks.as_slice().split_at(2 * usize::from(f));
    decode(alloc, f, contents.len() as u32, last)
}

// A block of contents of two bytes, from the first two blocks.
fn further_block(alloc: Global, contents: &[u8], number: u8) -> Result<Block, Memory>
    requires { length contents.now ≤ 2 }
{
    let blocks = encode(alloc, 1, contents)?;
    block_from(alloc, 1, &blocks.as_slice()[..2], number)
}

#[test]
fn two_rows(rt: HostRuntime) -> Result<(), Memory> {
    let bytes = all_bytes(rt.alloc(), 1, &[1, 2])?;
    assert_eq!(rt; bytes.as_slice(), [1, 2, 7, 4].as_slice());
    let contents = given_back(rt.alloc(), 1, &[1, 2])?;
    assert_eq!(rt; contents.as_slice(), [1, 2].as_slice());
    Ok(())
}

#[test]
fn three_rows(rt: HostRuntime) -> Result<(), Memory> {
    let bytes = all_bytes(rt.alloc(), 2, &[1, 0, 3])?;
    assert_eq!(rt; bytes.as_slice(), [1, 0, 3, 2, 5, 4, 7].as_slice());
    let contents = given_back(rt.alloc(), 2, &[1, 0, 3])?;
    assert_eq!(rt; contents.as_slice(), [1, 0, 3].as_slice());
    Ok(())
}

#[test]
fn block_of_two_others(rt: HostRuntime) -> Result<(), Memory> {
    let block = further_block(rt.alloc(), &[1, 2], 3)?;
    assert_eq!(rt; block.number, 3);
    assert_eq!(rt; block.bytes.as_slice(), [4].as_slice());
    Ok(())
}

// Five bytes are three rows of two bytes, the last with a zero; no bytes are three rows of none.
#[test]
fn rows_filled_with_zeros(rt: HostRuntime) -> Result<(), Memory> {
    let bytes = all_bytes(rt.alloc(), 2, &[8, 7, 6, 5, 4])?;
    assert_eq!(rt; bytes.len(), 14);
    assert_eq!(rt; bytes.as_slice().get(5).copied(), Some(0));
    let contents = given_back(rt.alloc(), 2, &[8, 7, 6, 5, 4])?;
    assert_eq!(rt; contents.as_slice(), [8, 7, 6, 5, 4].as_slice());

    let none = given_back(rt.alloc(), 3, &[])?;
    assert_eq!(rt; none.len(), 0);
    Ok(())
}

#[test]
fn lengths(rt: HostRuntime) {
    assert_eq!(rt; block_length(1, 2), 1);
    assert_eq!(rt; block_length(2, 5), 2);
    assert_eq!(rt; block_length(3, 0), 0);
}
