//! Rows of bytes.

ghost use Rattle.std.specs.Prelude.{◌≡◌, ℕ, ◌<◌, length, slice_index};
ghost use Rattle.scfs_gf256.specs.Field.{times};
ghost use Rattle.scfs_gf256.specs.Rows.{row_sum, scaled};

use crate::field::{add, mul};
use crate::lanes::looked_up;
use std::simd::prelude::*;

/// Adds `factor` times each byte of `from` to the byte at its place in `into`.
pub fn mul_row(factor: u8, from: &[u8], into: &mut [u8])
    requires { length from.now ≡ length into.old }
    ensures { into.new ≡ row_sum into.old (scaled factor from.now) }
{
    // By tables of sixteen products, one for each half of a byte, a long row costs two look-ups for 32 bytes.
    let low = multiples(factor);
    let high = multiples(mul(factor, 16));
    for block in 0..from.len() / 32 {
        let start = block * 32;
        let bytes = u8x32::from_slice(&from[start..]);
        let sums = u8x32::from_slice(&into[start..]) ^ looked_up(&low, &high, bytes);
        sums.copy_to_slice(&mut into[start..]);
    }
    for place in from.len() / 32 * 32..from.len() {
        let byte = from[place];
        let product = add(low[(byte & 15) as usize], high[(byte >> 4) as usize]);
        into[place] = add(into[place], product);
    }
}

/// The products of `factor` and each number below 16.
fn multiples(factor: u8) -> [u8; 16]
    ensures length { length result ≡ 16 }
    ensures products { (k : ℕ) → k < 16 → slice_index result k ≡ times factor k }
{
    std::array::from_fn(|k| mul(factor, k as u8))
}
