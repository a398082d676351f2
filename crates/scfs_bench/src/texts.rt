//! The measures of the reader of schedules: a text read in pieces of 64 KiB, and one read byte by byte.
//! Which digest they leave is only tested, by the program's stored run.

ghost use Rattle.std.specs.Prelude.{◌<◌};

use scfs_base::Memory;
use scfs_digest::plain_digest;
use scfs_schedule::{Item, Reader};
use std::alloc::{AllocError, Global};

const HEADER: &str = "scfs 1\nf 1\nlease 100\nstale 0\n\
    agent 0 blocking 0000000000000000000000000000000000000000000000000000000000000000\nbegin\n";

/// An event's line; it has 32 bytes.
const EVENT: &str = "call 0 write 1 102 001122334455\n";

/// What is measured.
#[derive(Clone, Copy, Debug, PartialEq, Eq)]
pub enum Text {
    /// A schedule of 1,875,000 events, 60 MB, in pieces of 64 KiB.
    Pieces,
    /// A schedule of 31,250 events, 1 MB, byte by byte.
    Bytes,
}

/// The digest of how many events were read, in lower-case hexadecimal digits.
pub fn line(alloc: Global, text: Text, times: u32) -> Result<String, AllocError> {
    let (events, piece) = match text {
        Text::Pieces => (1_875_000, 65_536),
        Text::Bytes => (31_250, 1),
    };
    let schedule = schedule_of(alloc, events)?;
    let mut count = 0;
    'again: for _done in 0..times {
        match events_in(alloc, schedule.as_slice(), piece) {
            Ok(read) => count = read,
            Err(Memory) => return Err(AllocError),
        }
    }
    let count = format!(in alloc; "{count}")?;
    hex::encode(alloc, plain_digest(count.as_bytes()).0)
}

/// A schedule of so many events, without its line `end`.
fn schedule_of(alloc: Global, events: u32) -> Result<Vec<u8>, AllocError> {
    let mut text = Vec::from_slice(alloc, HEADER.as_bytes())?;
    for _ in 0..events {
        text.extend_from_slice(EVENT.as_bytes())?;
    }
    Ok(text)
}

/// How many events a reader gives of a text that is fed in pieces.
fn events_in(alloc: Global, text: &[u8], piece: usize) -> Result<u64, Memory>
    requires { 0 < piece }
{
    let mut reader = Reader::new(alloc, false);
    let mut count = 0u64;
    for piece in text.chunks(piece) {
        if reader.feed(piece).is_err() {
            return Err(Memory);
        }
        count = count.saturating_add(events_held(&mut reader, piece.len()));
    }
    Ok(count)
}

/// How many events a reader gives by now, of at most so many lines.
fn events_held(reader: &mut Reader, lines: usize) -> u64 {
    let mut count = 0u64;
    for _ in 0..=lines {
        match reader.next() {
            Ok(Some(Item::Event(_))) => count = count.saturating_add(1),
            Ok(Some(Item::Header(_))) => {}
            Ok(Some(Item::End)) | Ok(None) | Err(_) => return count,
        }
    }
    count
}
