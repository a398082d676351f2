//! Products of 32 bytes at once.

ghost use Rattle.std.specs.Prelude.{◌≡◌, ℕ, ◌/◌, ◌%◌, ◌<◌, length, slice_index, bit_xor};

use std::simd::prelude::*;

/// What two tables of sixteen bytes hold for the lower and for the upper half of each byte, added.
#[inline(always)]
pub(crate) fn looked_up(low: &[u8; 16], high: &[u8; 16], bytes: u8x32) -> u8x32
    ensures lanes { length result ≡ 32 }
    ensures sums { (k : ℕ) → k < 32 → slice_index result k
        ≡ bit_xor (slice_index low.now (slice_index bytes k % 16)) (slice_index high.now (slice_index bytes k / 16)) }
{
    twice(low).swizzle_dyn_within::<16>(bytes & u8x32::splat(15))
        ^ twice(high).swizzle_dyn_within::<16>(bytes >> u8x32::splat(4))
}

/// A table of sixteen bytes, and behind it the same again.
#[inline(always)]
fn twice(table: &[u8; 16]) -> u8x32
    ensures lanes { length result ≡ 32 }
    ensures bytes { (k : ℕ) → k < 32 → slice_index result k ≡ slice_index table.now (k % 16) }
{
    u8x16::from_slice(table).swizzle([
        0, 1, 2, 3, 4, 5, 6, 7, 8, 9, 10, 11, 12, 13, 14, 15, 0, 1, 2, 3, 4, 5, 6, 7, 8, 9, 10, 11,
        12, 13, 14, 15,
    ])
}
