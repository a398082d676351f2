//! The measures of the sealed unit for four clouds: contents sealed, and opened again from the objects of the last two.
//! Which digest they leave is only tested, by the program's stored run.

ghost use Rattle.std.specs.Prelude.{◌≡◌, ◌≤◌, length, IfOk};

use crate::measures::{MEBIBYTE, filled, put_front};
use scfs_base::{Bytes, CloudAnswer, Digest, Memory};
use scfs_digest::plain_digest;
use scfs_quorum_read::{ReadStep, ReadTracker};
use scfs_stream::{Draw, draw};
use scfs_unit::{Sealed, seal};
use std::alloc::{AllocError, Global};

/// How many bytes the contents have.
#[derive(Clone, Copy, Debug, PartialEq, Eq)]
pub enum Size {
    Small,
    Large,
}

/// What is measured.
#[derive(Clone, Copy, Debug, PartialEq, Eq)]
pub enum Unit {
    /// Sealing; the root then stands in place of the contents' first 32 bytes.
    Seal(Size),
    /// Checking two objects and opening the contents.
    Open(Size),
}

/// The digest of the contents that a measure leaves, in lower-case hexadecimal digits.
pub fn line(alloc: Global, unit: Unit, times: u32) -> Result<String, AllocError> {
    let contents = match unit {
        Unit::Seal(size) => sealed_again(alloc, bytes_in(size), times),
        Unit::Open(size) => opened_again(alloc, bytes_in(size), times),
    };
    match contents {
        Ok(contents) => hex::encode(alloc, plain_digest(contents.as_slice()).0),
        Err(Memory) => Err(AllocError),
    }
}

fn bytes_in(size: Size) -> usize
    ensures low { 32 ≤ result }
    ensures high { result ≤ MEBIBYTE }
{
    match size {
        Size::Small => 65_536,
        Size::Large => MEBIBYTE,
    }
}

/// A draw of key and coefficients.
fn drawn() -> Draw {
    draw(&[7; 32], 1)
}

/// Puts a root in place of the first bytes.
fn put_root(contents: &mut Vec<u8>, root: Digest)
    requires { 32 ≤ length contents.old.items }
    ensures { length contents.new.items ≡ length contents.old.items }
{
    put_front(contents.as_mut_slice(), &root.0);
}

fn sealed_again(alloc: Global, size: usize, times: u32) -> Result<Bytes, Memory>
    requires low { 32 ≤ size }
    requires high { size ≤ MEBIBYTE }
{
    let draw = drawn();
    let mut contents = filled(alloc, size)?;
    'again: for _done in 0..times {
        let sealed = seal(alloc, 1, &draw, &contents)?;
        put_root(&mut contents, sealed.root);
    }
    Ok(Bytes::from_vec(contents))
}

fn opened_again(alloc: Global, size: usize, times: u32) -> Result<Bytes, Memory>
    requires { size ≤ MEBIBYTE }
{
    let contents = filled(alloc, size)?;
    let sealed = seal(alloc, 1, &drawn(), &contents)?;
    let third = answer_of(alloc, &sealed, 2)?;
    let fourth = answer_of(alloc, &sealed, 3)?;
    let mut opened = Bytes::from_vec(contents);
    'again: for _done in 0..times {
        opened = opened_from(alloc, sealed.root, size as u32, &third, &fourth)?;
    }
    Ok(opened)
}

/// What a cloud with its object answers.
fn answer_of(alloc: Global, sealed: &Sealed, cloud: usize) -> Result<CloudAnswer, Memory> {
    match sealed.objects.get(cloud) {
        Some(object) => Ok(CloudAnswer::Bytes(object.copy(alloc)?)),
        None => Ok(CloudAnswer::Absent),
    }
}

/// The contents from the answers of the clouds 2 and 3; no bytes where they don't give them.
fn opened_from(
    alloc: Global,
    root: Digest,
    size: u32,
    third: &CloudAnswer,
    fourth: &CloudAnswer,
) -> Result<Bytes, Memory>
    requires { size ≤ MEBIBYTE }
{
    let mut tracker = ReadTracker::new(alloc, 1, root, size, &[2, 3, 0, 1], None)?;
    if let ReadStep::Whole(contents) = tracker.answer(2, third)? {
        return Ok(contents);
    }
    match tracker.answer(3, fourth)? {
        ReadStep::Whole(contents) => Ok(contents),
        ReadStep::Ask(_) | ReadStep::Wait => Ok(Bytes::new(alloc)),
    }
}
