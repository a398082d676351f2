ghost use Rattle.std.specs.Prelude.{None, ◌≡◌};

use scfs_base::{Failed, Sink, Source};
use std::io::{Read, Write};

/// An input of the system as a source, which tells nothing of its bytes.
#[derive(Drop)]
pub struct Incoming<R> {
    reader: R,
    faults: u64,
    ends: u64,
}

impl<R: Read> Incoming<R> {
    /// A source over this input.
    pub fn new(reader: R) -> Incoming<R>
        ensures counts { (result.faults ≡ 0) × (result.ends ≡ 0) }
    {
        Incoming {
            reader,
            faults: 0,
            ends: 0,
        }
    }
}

impl<R: Read> Source for Incoming<R> {
    ghost left = { λ _. None };

    ghost faults = { λ source. source.faults };

    ghost ends = { λ source. source.ends };

    fn read(&mut self, buf: &mut [u8]) -> Result<usize, Failed> {
        match self.reader.read(buf) {
            Ok(count) => {
                if count == 0 && !buf.is_empty() {
                    self.ends = self.ends.saturating_add(1);
                }
                Ok(count)
            }
            Err(_) => {
                self.faults = self.faults.saturating_add(1);
                Err(Failed)
            }
        }
    }
}

/// An output of the system as a sink, which tells nothing of its bytes. A write that took nothing is a failure.
#[derive(Drop)]
pub struct Outgoing<W> {
    writer: W,
    faults: u64,
}

impl<W: Write> Outgoing<W> {
    /// A sink over this output.
    pub fn new(writer: W) -> Outgoing<W>
        ensures count { result.faults ≡ 0 }
    {
        Outgoing { writer, faults: 0 }
    }
}

impl<W: Write> Sink for Outgoing<W> {
    ghost written = { λ _. None };

    ghost faults = { λ sink. sink.faults };

    fn write(&mut self, piece: &[u8]) -> Result<usize, Failed> {
        match self.writer.write(piece) {
            Ok(count) if count > 0 || piece.is_empty() => Ok(count),
            _ => {
                self.faults = self.faults.saturating_add(1);
                Err(Failed)
            }
        }
    }
}
