//! A block and its length.

ghost use Rattle.std.specs.Prelude.{◌≡◌};
ghost use Rattle.scfs_erasure.specs.Rows.{row_length};

use scfs_base::Bytes;

/// A block of contents under its number, which is from 0 to n - 1 = 3f.
#[derive(Debug, Drop)]
pub struct Block {
    pub number: u8,
    pub bytes: Bytes,
}

/// How many bytes each block of contents of `length` bytes has: `length` divided by f+1, rounded up.
pub fn block_length(f: u8, length: u32) -> u32
    ensures { result ≡ row_length f length }
{
    length.div_ceil(u32::from(f) + 1)
}
