ghost use Rattle.std.specs.Prelude.{◌≡◌, ◌++◌, ◌≤◌, [], OnErr, OnOk, IfErr};
ghost use Rattle.std.specs.List.{flat_map};
ghost use Rattle.scfs_base.specs.Outside.{HasCause, PutsFront, Rose};
ghost use Rattle.scfs_schedule.specs.Text.{numbered};
ghost use Rattle.scfs_top.specs.Edges.{Passes};
ghost use Rattle.scfs_live.specs.Edges.{GetsPart};

use crate::edges::write_all;
use scfs_base::{Bytes, Failed, Memory, Sink};
use scfs_schedule::{Line, push_line};
use std::alloc::Global;
use std::marker::Model;

/// How many bytes of lines are written at the latest.
const FULL: usize = 65_536;

/// Why lines could be neither kept nor written.
#[derive(Clone, Copy, Debug, PartialEq, Eq)]
pub enum PushFault {
    Write,
    Memory,
}

/// The text of the lines that wait to be written.
#[derive(Drop)]
pub struct Waiting {
    text: Bytes,
}

impl Model for Waiting {
    ghost use Rattle.std.specs.Prelude.{List, ℕ, ◌<◌, length};
    ghost use Rattle.scfs_top.specs.Pace.{piece_limit};

    ghost Value = { List ℕ };

    ghost view = { λ w. w.text };

    ghost invariant = { λ w. length w.text < piece_limit };
}

/// Puts the text of an event's lines behind a text. An error leaves it as it was.
fn push_lines(alloc: Global, number: u64, lines: &[Line], text: &mut Bytes) -> Result<(), Memory>
    ensures ok { OnOk result (text.new ≡ text.old ++ flat_map (numbered number) lines.now) }
    ensures err { OnErr result (text.new ≡ text.old) }
{
    let before = text.len();
    for line in lines {
        if push_line(alloc, number, line, text).is_err() {
            text.truncate(before);
            return Err(Memory);
        }
    }
    Ok(())
}

/// Writes a text, or with a failure a front of it, and empties it.
fn write_out<O: Sink>(text: &mut Bytes, out: &mut O) -> Result<(), Failed>
    ensures bytes { PutsFront (O.written out.old) (O.written out.new) text.old result }
    ensures empty { text.new ≡ [] }
    ensures cause { HasCause (O.faults out.old) (O.faults out.new) result }
{
    let written = write_all(out, text.as_slice());
    text.truncate(0);
    written
}

impl Waiting {
    /// No lines.
    pub fn new(alloc: Global) -> Waiting
        ensures { result ≡ [] }
    {
        Waiting {
            text: Bytes::new(alloc),
        }
    }

    /// Writes all that waits.
    pub fn flush<O: Sink>(&mut self, out: &mut O) -> Result<(), Failed>
        ensures bytes { PutsFront (O.written out.old) (O.written out.new) self.old result }
        ensures empty { self.new ≡ [] }
        ensures cause { HasCause (O.faults out.old) (O.faults out.new) result }
    {
        write_out(&mut self.text, out)
    }

    /// Lets an event's lines wait; what waits is written once it is a piece or more. Want of memory leaves it as it was.
    pub fn push<O: Sink>(
        &mut self,
        alloc: Global,
        number: u64,
        lines: &[Line],
        out: &mut O,
    ) -> Result<(), PushFault>
        ensures passes { OnOk result (Passes (O.written out.old) (O.written out.new) self.old self.new (flat_map (numbered number) lines.now)) }
        ensures part { IfErr result (λ fault. fault ≡ PushFault.Write →
            GetsPart (O.written out.old) (O.written out.new) (self.old ++ flat_map (numbered number) lines.now)) }
        ensures nothing { IfErr result (λ fault. fault ≡ PushFault.Memory → (self.new ≡ self.old) × (out.new ≡ out.old)) }
        ensures fault { IfErr result (λ fault. fault ≡ PushFault.Write → Rose (O.faults out.old) (O.faults out.new)) }
        ensures later { O.faults out.old ≤ O.faults out.new }
    {
        if push_lines(alloc, number, lines, &mut self.text).is_err() {
            return Err(PushFault::Memory);
        }
        if self.text.len() < FULL {
            return Ok(());
        }
        match write_out(&mut self.text, out) {
            Ok(()) => Ok(()),
            Err(Failed) => Err(PushFault::Write),
        }
    }
}
