ghost use Rattle.std.specs.Prelude.{◌≡◌, IfOk};
ghost use Rattle.std.specs.Option.{option_copied};
ghost use Rattle.scfs_schedule.specs.Grammar.{IsHeader};
ghost use Rattle.scfs_schedule.specs.declared.types.Header.{Header};
ghost use Rattle.scfs_live.specs.Finding.{IsUnder, compared, event_found, event_read, kept_found, is_left_out};

use scfs_base::{Bytes, Memory};
use scfs_schedule::{BadKind, Event, Header, read_event};
use scfs_world::is_built;
use std::alloc::Global;

/// What a whole line of an old journal is.
#[derive(Debug, Drop)]
pub enum Found {
    /// Left out.
    LeftOut,
    /// The next line of the header.
    KeepsHeader,
    /// The next line of the last event, behind a space.
    KeepsLine,
    /// The line of an event.
    Does(Event),
    /// Not the line that was made: the kept one and the made one.
    Differs(Bytes, Bytes),
    /// Not allowed.
    Wrong(BadKind),
}

/// Stands for a line that is not there.
const NO_LINE: &[u8] = b"-";

/// Whether a line ends with `~`.
pub fn is_left_out(line: &[u8]) -> bool
    ensures { result ≡ is_left_out line.now }
{
    match line.last() {
        Some(byte) => *byte == b'~',
        None => false,
    }
}

/// A kept line beside the one that was made; `same` where they are equal.
pub fn compared(alloc: Global, same: Found, kept: &[u8], made: &[u8]) -> Result<Found, Memory>
    ensures value { IfOk result (λ found. found ≡ compared same kept.now made.now) }
    ensures under { IfOk result (λ found. (header : Header) → IsUnder header same → IsUnder header found) }
{
    if kept == made {
        return Ok(same);
    }
    let kept = Bytes::from_slice(alloc, kept)?;
    let made = Bytes::from_slice(alloc, made)?;
    Ok(Found::Differs(kept, made))
}

/// A line that began with a space, where `made` is the next one to be kept.
pub fn kept_found(alloc: Global, made: Option<&[u8]>, kept: &[u8]) -> Result<Found, Memory>
    ensures value { IfOk result (λ found. found ≡ kept_found (option_copied made.entry) kept.now) }
    ensures under { IfOk result (λ found. (header : Header) → IsUnder header found) }
{
    match made {
        Some(made) => compared(alloc, Found::KeepsLine, kept, made),
        None => {
            let kept = Bytes::from_slice(alloc, kept)?;
            let made = Bytes::from_slice(alloc, NO_LINE)?;
            Ok(Found::Differs(kept, made))
        }
    }
}

/// The line of an event, where `made` is still to be kept of the event before. An event that the program can't do yet is told first.
pub fn event_found(
    alloc: Global,
    header: &Header,
    made: Option<&[u8]>,
    line: &[u8],
) -> Result<Found, Memory>
    requires { IsHeader header.now }
    ensures value { IfOk result (λ found. found ≡ event_found (option_copied made.entry) (event_read header.now line.now)) }
    ensures under { IfOk result (λ found. IsUnder header.now found) }
{
    match (read_event(alloc, header, line)?, made) {
        (Err(kind), _) => Ok(Found::Wrong(kind)),
        (Ok(event), None) => Ok(Found::Does(event)),
        (Ok(event), Some(made)) => {
            if !is_built(&event) {
                return Ok(Found::Does(event));
            }
            let kept = Bytes::from_slice(alloc, NO_LINE)?;
            let made = Bytes::from_slice(alloc, made)?;
            Ok(Found::Differs(kept, made))
        }
    }
}
