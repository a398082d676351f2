ghost use Rattle.std.specs.Prelude.{◌≡◌, ℕ, ◌+◌, ◌<◌, List, ◌++◌, length, take, drop, Some, IfOk, OnErr, OnOk};
ghost use Rattle.scfs_schedule.specs.Holding.{is_unfinished};
ghost use Rattle.scfs_schedule.specs.Splitting.{unsplit, lines_of, GivesLine};

use crate::held::Held;
use crate::progress::FirstLine;
use crate::{Stop, Which};
use scfs_base::{Bytes, Memory};
use std::alloc::Global;
use std::marker::Model;

/// Parts a text that comes in pieces of any lengths into its lines, without their bytes 0a. At most so many bytes of it
/// are taken, and at most `LINE_LIMIT` bytes of a line.
#[derive(Drop)]
pub struct Lines {
    alloc: Global,
    held: Held,
    which: Which,
    number: u64,
    passed: Option<Which>,
}

impl Model for Lines {
    ghost use Rattle.scfs_schedule.specs.Splitting.{Splitting, KeepsLines};

    ghost Value = { Splitting };

    ghost view = { λ l. record {
      which = l.which;
      number = l.number;
      rest = l.held.rest;
      room = l.held.room;
      longer = l.held.longer;
      passed = l.passed;
    } };

    ghost invariant = { λ l. KeepsLines l.held l.number };
}

impl Lines {
    /// The lines of a text of which at most `limit` bytes are taken; `which` is what that limit is of.
    pub fn new(alloc: Global, limit: u64, which: Which) -> Lines
        ensures { result ≡ unsplit limit which }
    {
        Lines {
            alloc,
            held: Held::new(alloc, limit as usize),
            which,
            number: 0,
            passed: None,
        }
    }

    /// Takes the next piece of the text, or the front of it for which there is room. An error takes nothing.
    pub fn feed(&mut self, piece: &[u8]) -> Result<(), Memory>
        ensures takes { OnOk result ((more : List ℕ) → lines_of self.old (piece.now ++ more) ≡ lines_of self.new more) }
        ensures number { OnOk result (self.new.number ≡ self.old.number) }
        ensures passed { OnOk result (self.new.passed ≡ self.old.passed) }
        ensures error { OnErr result (self.new ≡ self.old) }
    {
        self.held.take(piece)
    }

    /// The next whole line; `Ok(None)` where none is left. Where a line or the whole text passes its limit, `TooLarge` of it,
    /// and from then on the same again; `Memory` leaves everything as it was.
    pub fn next(&mut self) -> Result<Option<Bytes>, Stop>
        ensures { GivesLine result self.old self.new }
    {
        if let Some(which) = self.passed {
            return Err(Stop::TooLarge(which));
        }
        match self.held.first() {
            FirstLine::Unfinished if self.held.is_longer() => Err(self.stop(self.which)),
            FirstLine::Unfinished => Ok(None),
            FirstLine::TooLong => Err(self.stop(Which::Line)),
            FirstLine::Whole(count) => Ok(Some(self.take_line(count)?)),
        }
    }

    fn stop(&mut self, which: Which) -> Stop
        ensures stop { result ≡ Stop.TooLarge which }
        ensures passed { self.new ≡ record self.old { passed = Some which } }
    {
        self.passed = Some(which);
        Stop::TooLarge(which)
    }

    /// Takes off the first line, which has this length.
    fn take_line(&mut self, count: usize) -> Result<Bytes, Memory>
        requires { count < length self.old.rest }
        ensures line { IfOk result (λ line. line ≡ take count self.old.rest) }
        ensures after { OnOk result (self.new ≡ record self.old { number = self.old.number + 1; rest = drop (count + 1) self.old.rest }) }
        ensures error { OnErr result (self.new ≡ self.old) }
    {
        let line = Bytes::from_slice(self.alloc, self.held.front(count))?;
        self.held.drop_line(count);
        self.number += 1;
        Ok(line)
    }

    /// How many lines were given.
    pub fn number(&self) -> u64
        ensures { result ≡ self.now.number }
    {
        self.number
    }

    /// Whether bytes of an unfinished line are held.
    pub fn has_rest(&self) -> bool
        ensures { result ≡ is_unfinished self.now.rest }
    {
        self.held.ends_in_line()
    }
}
