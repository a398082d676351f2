//! What a share is, and the split of a key into shares.

ghost use Rattle.std.specs.Prelude.{◌≡◌, ℕ, ◌≤◌, ◌<◌, length, slice_index, IfOk};
ghost use Rattle.scfs_shamir.specs.Shares.{share_byte, share_of, shares_of};

use scfs_base::{Coefficients, Memory, Sequence};
use scfs_gf256::value_at;
use std::alloc::Global;
use std::array;

/// A share of a key: its point, from 1 to the number of shares, and a byte for each of the key's.
#[derive(Clone, Copy, Debug, PartialEq, Eq)]
pub struct Share {
    pub point: u8,
    pub bytes: [u8; 32],
}

/// The 3f + 1 shares of the key under these coefficients, where f (1 to 3) clouds may lie: those of the points from 1
/// on, in order. Of the coefficients the first f rows count.
pub fn split(
    alloc: Global,
    f: u8,
    key: &[u8; 32],
    coefficients: &Coefficients,
) -> Result<Sequence<Share>, Memory>
    requires low { 1 ≤ f }
    requires high { f ≤ 3 }
    ensures { IfOk result (λ shares. shares ≡ shares_of f key.now coefficients.now) }
{
    let mut shares = Sequence::new(alloc);
    for point in 1..3 * f + 2 {
        shares.push(share_at(f, key, coefficients, point))?;
    }
    Ok(shares)
}

/// The share of one point.
fn share_at(f: u8, key: &[u8; 32], coefficients: &Coefficients, point: u8) -> Share
    requires { f ≤ 3 }
    ensures { result ≡ share_of f key.now coefficients.now point }
{
    Share {
        point,
        bytes: share_bytes(f, key, coefficients, point),
    }
}

/// The bytes of that share.
fn share_bytes(f: u8, key: &[u8; 32], coefficients: &Coefficients, point: u8) -> [u8; 32]
    requires { f ≤ 3 }
    ensures long { length result ≡ 32 }
    ensures bytes { (k : ℕ) → k < 32 → slice_index result k ≡ share_byte f key.now coefficients.now point k }
{
    array::from_fn(|place| share_byte(f, key, coefficients, point, place))
}

/// A byte of that share: the value at its point.
fn share_byte(f: u8, key: &[u8; 32], coefficients: &Coefficients, point: u8, place: usize) -> u8
    requires degree { f ≤ 3 }
    requires inside { place < 32 }
    ensures { result ≡ share_byte f key.now coefficients.now point place }
{
    let [first, second, third] = &coefficients.rows;
    let column = [key[place], first[place], second[place], third[place]];
    value_at(&column[..=usize::from(f)], point)
}
