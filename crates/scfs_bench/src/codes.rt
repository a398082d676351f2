//! The measures of the erasure code, each over contents of 1 MiB.

ghost use Rattle.std.specs.Prelude.{◌≡◌, ◌≤◌, length, take, drop, IfOk, OnOk, string_bytes};
ghost use Rattle.sha2.specs.Sha256.{sha256};
ghost use Rattle.hex.specs.Hex.{encode_lower};
ghost use Rattle.scfs_erasure.specs.Blocks.{AreSomeOf};
ghost use Rattle.scfs_bench.specs.Rounds.{pattern};
ghost use Rattle.scfs_bench.specs.Contents.{faults_of, with_last_block, encoded_times, contents_after};

use crate::measures::{MEBIBYTE, filled, put_front};
use scfs_base::{Bytes, Memory};
use scfs_digest::plain_digest;
use scfs_erasure::{Block, decode, encode};
use std::alloc::{AllocError, Global};

/// How many faulty clouds the blocks allow for.
#[derive(Clone, Copy, Debug, PartialEq, Eq)]
pub enum Faults {
    One,
    Three,
}

/// What is measured.
#[derive(Clone, Copy, Debug, PartialEq, Eq)]
pub enum Code {
    /// The blocks of the contents; the first 32 bytes of the last then stand in place of the contents' first 32.
    Encode(Faults),
    /// The contents from the last f+1 of their blocks.
    Decode(Faults),
}

/// The digest of the contents that a measure leaves, in lower-case hexadecimal digits.
pub fn line(alloc: Global, code: Code, times: u32) -> Result<String, AllocError>
    ensures { IfOk result (λ text.
        string_bytes text ≡ encode_lower (sha256 (contents_after code times (pattern MEBIBYTE)))) }
{
    let contents = match code {
        Code::Encode(faults) => encoded(alloc, count(faults), times),
        Code::Decode(faults) => decoded(alloc, count(faults), times),
    };
    match contents {
        Ok(contents) => hex::encode(alloc, plain_digest(contents.as_slice()).0),
        Err(Memory) => Err(AllocError),
    }
}

fn count(faults: Faults) -> u8
    ensures count { result ≡ faults_of faults }
    ensures few { result ≤ 3 }
{
    match faults {
        Faults::One => 1,
        Faults::Three => 3,
    }
}

/// The pattern after it has been encoded a number of times.
#[tactic(auto, using(crate::proofs::CodeLemmas::encoded_none, crate::proofs::CodeLemmas::encoded_more))]
fn encoded(alloc: Global, f: u8, times: u32) -> Result<Bytes, Memory>
    requires { f ≤ 3 }
    ensures { IfOk result (λ contents. contents ≡ encoded_times f times (pattern MEBIBYTE)) }
{
    let mut contents = filled(alloc, MEBIBYTE)?;
    'again: for _done in 0..times {
        put_last_block(alloc, f, contents.as_mut_slice())?;
    }
    Bytes::from_slice(alloc, &contents)
}

/// Encodes the contents, and puts the first 32 bytes of the last block in place of theirs.
fn put_last_block(alloc: Global, f: u8, contents: &mut [u8]) -> Result<(), Memory>
    requires faults { f ≤ 3 }
    requires size { length contents.old ≡ MEBIBYTE }
    ensures { OnOk result (contents.new ≡ with_last_block f contents.old) }
{
    let blocks = encode(alloc, f, contents)?;
    let last = &blocks.as_slice()[usize::from(f) * 3].bytes;
    put_front(contents, front_of(last.as_slice()));
    Ok(())
}

/// The first 32 bytes.
fn front_of(bytes: &[u8]) -> &[u8]
    requires { 32 ≤ length bytes.now }
    ensures { result.now ≡ take 32 bytes.now }
{
    &bytes[..32]
}

/// The blocks from a place on.
fn blocks_from(blocks: &[Block], place: usize) -> &[Block]
    requires { place ≤ length blocks.now }
    ensures { result.now ≡ drop place blocks.now }
{
    &blocks[place..]
}

/// The pattern as it is decoded a number of times from the last f+1 of its blocks; itself for no time.
fn decoded(alloc: Global, f: u8, times: u32) -> Result<Bytes, Memory>
    requires { f ≤ 3 }
    ensures { IfOk result (λ contents. contents ≡ pattern MEBIBYTE) }
{
    let pattern = filled(alloc, MEBIBYTE)?;
    let blocks = encode(alloc, f, &pattern)?;
    let last = blocks_from(blocks.as_slice(), 2 * usize::from(f));
    decoded_from(alloc, f, times, last, &pattern)
}

/// The contents as they are decoded a number of times from f+1 of their blocks; themselves for no time.
fn decoded_from(
    alloc: Global,
    f: u8,
    times: u32,
    blocks: &[Block],
    contents: &[u8],
) -> Result<Bytes, Memory>
    requires faults { f ≤ 3 }
    requires size { length contents.now ≡ MEBIBYTE }
    requires blocks { AreSomeOf f contents.now blocks.now }
    ensures { IfOk result (λ decoded. decoded ≡ contents.now) }
{
    let mut decoded = Bytes::from_slice(alloc, contents)?;
    'again: for _done in 0..times {
        decoded = decode(alloc, f, MEBIBYTE as u32, blocks)?;
    }
    Ok(decoded)
}
