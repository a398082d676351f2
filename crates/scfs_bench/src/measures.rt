//! The measured things, each over two rows of 1 MiB.

ghost use Rattle.std.specs.Prelude.{◌≡◌, ◌≤◌, ◌++◌, length, drop, IfOk, string_bytes};
ghost use Rattle.sha2.specs.Sha256.{sha256};
ghost use Rattle.hex.specs.Hex.{encode_lower};
ghost use Rattle.scfs_bench.specs.Rounds.{with_digest, with_own_stream, pattern, start, rows, round_of, rounds_of};

use scfs_base::Digest;
use scfs_digest::plain_digest;
use scfs_gf256::mul_row;
use scfs_stream::xor_stream;
use std::alloc::{AllocError, Global};
use std::mem;

/// How many bytes each thing is done over.
pub const MEBIBYTE: usize = 1_048_576;

/// The factor of a row.
const FACTOR: u8 = 29;

/// What is measured.
#[derive(Clone, Copy, Debug, PartialEq, Eq)]
pub enum Measure {
    /// The digest of the bytes, which then stands in place of their first 32.
    Digest,
    /// The stream of the key that the first 32 bytes are, added to the bytes.
    Stream,
    /// The bytes times a factor, added to the row before them.
    Row,
}

/// The digest of the bytes after a number of rounds, in lower-case hexadecimal digits.
pub fn line(alloc: Global, measure: Measure, times: u32) -> Result<String, AllocError>
    ensures { IfOk result (λ text.
        string_bytes text ≡ encode_lower (sha256 (rounds_of measure times (start MEBIBYTE)).bytes)) }
{
    let mut bytes = filled(alloc, MEBIBYTE)?;
    let mut before = filled(alloc, MEBIBYTE)?;
    rounds(measure, times, &mut bytes, &mut before);
    hex::encode(alloc, plain_digest(bytes.as_slice()).0)
}

/// This many bytes of the pattern.
#[tactic(auto, using(crate::proofs::RoundLemmas::pattern_length), unfolding(crate::specs::Rounds::pattern))]
pub fn filled(alloc: Global, size: usize) -> Result<Vec<u8>, AllocError>
    ensures bytes { IfOk result (λ bytes. bytes.items ≡ pattern size) }
    ensures size { IfOk result (λ bytes. length bytes.items ≡ size) }
{
    (0..size).map(|place| (place % 251) as u8).collect(alloc)
}

/// Does the measured thing a number of times.
#[tactic(auto, using(crate::proofs::RoundLemmas::no_rounds, crate::proofs::RoundLemmas::one_round_more))]
fn rounds(measure: Measure, times: u32, bytes: &mut Vec<u8>, before: &mut Vec<u8>)
    requires bytes { length bytes.old.items ≡ MEBIBYTE }
    requires before { length before.old.items ≡ MEBIBYTE }
    ensures { rows bytes.new.items before.new.items
        ≡ rounds_of measure times (rows bytes.old.items before.old.items) }
{
    'again: for _done in 0..times {
        round(measure, bytes, before);
    }
}

/// Does the measured thing once.
fn round(measure: Measure, bytes: &mut Vec<u8>, before: &mut Vec<u8>)
    requires bytes { length bytes.old.items ≡ MEBIBYTE }
    requires before { length before.old.items ≡ MEBIBYTE }
    ensures rows { rows bytes.new.items before.new.items
        ≡ round_of measure (rows bytes.old.items before.old.items) }
    ensures bytes { length bytes.new.items ≡ MEBIBYTE }
    ensures before { length before.new.items ≡ MEBIBYTE }
{
    match measure {
        Measure::Digest => put_digest(bytes.as_mut_slice()),
        Measure::Stream => add_own_stream(bytes.as_mut_slice()),
        Measure::Row => {
            mul_row(FACTOR, bytes.as_slice(), before.as_mut_slice());
            mem::swap(bytes, before);
        }
    }
}

fn put_digest(bytes: &mut [u8])
    requires { 32 ≤ length bytes.old }
    ensures { bytes.new ≡ with_digest bytes.old }
{
    let Digest(digest) = plain_digest(bytes);
    put_front(bytes, &digest);
}

/// Puts bytes in place of as many at the front.
pub fn put_front(bytes: &mut [u8], front: &[u8])
    requires { length front.now ≤ length bytes.old }
    ensures { bytes.new ≡ front.now ++ drop (length front.now) bytes.old }
{
    bytes[..front.len()].copy_from_slice(front);
}

fn add_own_stream(bytes: &mut [u8])
    requires low { 32 ≤ length bytes.old }
    requires high { length bytes.old ≤ MEBIBYTE }
    ensures { bytes.new ≡ with_own_stream bytes.old }
{
    let mut key = [0; 32];
    key.copy_from_slice(&bytes[..32]);
    xor_stream(&key, bytes);
}
