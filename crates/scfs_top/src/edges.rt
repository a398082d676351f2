ghost use Rattle.std.specs.Prelude.{◌≡◌, ◌<◌, ◌≤◌, length};
ghost use Rattle.scfs_base.specs.Outside.{HasCause, PutsFront, Rose};
ghost use Rattle.scfs_top.specs.Edges.{TakesPiece};

use scfs_base::{Failed, Sink, Source};
use scfs_schedule::Reader;

/// Writes the whole piece, or with a failure a front of it.
pub fn write_all<O: Sink>(out: &mut O, piece: &[u8]) -> Result<(), Failed>
    ensures bytes { PutsFront (O.written out.old) (O.written out.new) piece.now result }
    ensures cause { HasCause (O.faults out.old) (O.faults out.new) result }
{
    let mut rest = piece;
    'pieces: while !rest.is_empty() {
        let count = out.write(rest)?;
        rest = &rest[count..];
    }
    Ok(())
}

/// How one read ended: so many bytes were taken and fed, or there was the end, a failure, or want of memory.
#[derive(Clone, Copy, Debug, PartialEq, Eq)]
pub enum PieceRead {
    Took(usize),
    End,
    Fault,
    Memory,
}

/// Reads once into the buffer and feeds the reader what was read.
pub fn feed_piece<I: Source>(input: &mut I, reader: &mut Reader, buffer: &mut [u8]) -> PieceRead
    requires { 0 < length buffer.old }
    ensures takes { TakesPiece (I.left input.old) (I.left input.new) reader.old reader.new (length buffer.old) result }
    ensures ended { result ≡ PieceRead.End → Rose (I.ends input.old) (I.ends input.new) }
    ensures fault { result ≡ PieceRead.Fault → Rose (I.faults input.old) (I.faults input.new) }
    ensures later_ends { I.ends input.old ≤ I.ends input.new }
    ensures later_faults { I.faults input.old ≤ I.faults input.new }
{
    match input.read(buffer) {
        Err(Failed) => PieceRead::Fault,
        Ok(0) => PieceRead::End,
        Ok(count) => match reader.feed(&buffer[..count]) {
            Ok(()) => PieceRead::Took(count),
            Err(_) => PieceRead::Memory,
        },
    }
}
