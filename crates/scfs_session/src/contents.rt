ghost use Rattle.std.specs.Prelude.{◌≡◌, ◌+◌, ◌≤◌, length, IfOk, OnOk};
ghost use Rattle.scfs_base.specs.Limits.{contents_limit};
ghost use Rattle.scfs_session.specs.Contents.{resized, written, bytes_from};

use scfs_base::{Bytes, Memory};
use std::alloc::Global;
use std::marker::Model;

/// The most bytes of a file's contents, and the most bytes of one read.
pub const CONTENTS_LIMIT: u64 = 65_536;

/// Cuts the bytes to a length, or fills them with zeros up to it. Want of memory leaves no more bytes than that.
fn resize(bytes: &mut Bytes, size: usize) -> Result<(), Memory>
    ensures ok { OnOk result (bytes.new ≡ resized bytes.old size) }
    ensures bound { length bytes.new ≤ size }
{
    bytes.truncate(size);
    while bytes.len() < size {
        bytes.push(0)?;
    }
    Ok(())
}

/// A working copy: at most `CONTENTS_LIMIT` bytes.
#[derive(Drop)]
pub struct Contents {
    bytes: Bytes,
}

impl Model for Contents {
    ghost use Rattle.std.specs.Prelude.{List, ℕ, length, ◌≤◌};
    ghost use Rattle.scfs_base.specs.Limits.{contents_limit};

    ghost Value = { List ℕ };

    ghost view = { λ contents. contents.bytes };

    ghost invariant = { λ contents. length contents.bytes ≤ contents_limit };
}

impl Contents {
    /// These bytes as a working copy.
    pub fn new(bytes: Bytes) -> Contents
        requires { length bytes ≤ contents_limit }
        ensures { result ≡ bytes }
    {
        Contents { bytes }
    }

    /// The bytes.
    pub fn into_bytes(self) -> Bytes
        ensures { result ≡ self }
    {
        self.bytes
    }

    /// How many bytes there are.
    pub fn len(&self) -> u32
        ensures { result ≡ length self.now }
    {
        self.bytes.len() as u32
    }

    /// A copy of the bytes from an offset on, or of the first `count` of them where there are more.
    pub fn read(&self, alloc: Global, offset: u64, count: u64) -> Result<Bytes, Memory>
        ensures { IfOk result (λ bytes. bytes ≡ bytes_from self.now offset count) }
    {
        let length = self.bytes.len() as u64;
        let start = offset.min(length);
        let end = start + count.min(length - start);
        Bytes::from_slice(alloc, &self.bytes.as_slice()[start as usize..end as usize])
    }

    /// Writes bytes from an offset on; an offset past the end is reached by zeros, and no bytes change nothing.
    pub fn write(&mut self, alloc: Global, offset: u64, bytes: &[u8]) -> Result<(), Memory>
        requires { offset + length bytes.now ≤ contents_limit }
        ensures { OnOk result (self.new ≡ written self.old offset bytes.now) }
    {
        if bytes.is_empty() {
            return Ok(());
        }
        let start = offset as usize;
        let end = (start + bytes.len()).min(self.bytes.len());
        let behind = Bytes::from_slice(alloc, &self.bytes.as_slice()[end..])?;
        resize(&mut self.bytes, start)?;
        self.bytes.extend(bytes)?;
        self.bytes.extend(behind.as_slice())?;
        Ok(())
    }

    /// Cuts the contents to a length, or fills them with zeros up to it.
    pub fn truncate(&mut self, size: u64) -> Result<(), Memory>
        requires { size ≤ contents_limit }
        ensures { OnOk result (self.new ≡ resized self.old size) }
    {
        resize(&mut self.bytes, size as usize)
    }
}
