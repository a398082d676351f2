ghost use Rattle.std.specs.Prelude.{◌≡◌, ◌<◌, ◌≤◌, length};
ghost use Rattle.scfs_base.specs.Outside.{Rose};
ghost use Rattle.scfs_schedule.specs.Holding.{is_unfinished};
ghost use Rattle.scfs_live.specs.Taking.{TakesPiece};

use scfs_base::{Failed, Source};
use scfs_schedule::Lines;

/// How one read ended: so many bytes were taken and fed, and whether they end within a line; or there was the end, a failure, or want
/// of memory.
#[derive(Clone, Copy, Debug, PartialEq, Eq)]
pub enum PieceRead {
    Took(usize, bool),
    End,
    Fault,
    Memory,
}

/// Whether a text ends within a line.
fn is_unfinished(text: &[u8]) -> bool
    ensures { result ≡ is_unfinished text.now }
{
    match text.last() {
        Some(byte) => *byte != b'\n',
        None => false,
    }
}

/// Reads once into the buffer, and feeds what was read.
pub fn feed_piece<L: Source>(old: &mut L, lines: &mut Lines, buffer: &mut [u8]) -> PieceRead
    requires { 0 < length buffer.old }
    ensures takes { TakesPiece (L.left old.old) (L.left old.new) lines.old lines.new (length buffer.old) result }
    ensures ended { result ≡ PieceRead.End → Rose (L.ends old.old) (L.ends old.new) }
    ensures fault { result ≡ PieceRead.Fault → Rose (L.faults old.old) (L.faults old.new) }
    ensures later_ends { L.ends old.old ≤ L.ends old.new }
    ensures later_faults { L.faults old.old ≤ L.faults old.new }
{
    match old.read(buffer) {
        Err(Failed) => PieceRead::Fault,
        Ok(0) => PieceRead::End,
        Ok(count) => {
            let piece = &buffer[..count];
            match lines.feed(piece) {
                Ok(()) => PieceRead::Took(count, is_unfinished(piece)),
                Err(_) => PieceRead::Memory,
            }
        }
    }
}
