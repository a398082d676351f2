ghost use Rattle.std.specs.Prelude.{◌≡◌, ℕ, ◌+◌, ◌<◌, ◌≤◌, List, [], ◌++◌, length, Some, None, IfOk, IfErr, OnErr, OnOk, IsSome};
ghost use Rattle.scfs_base.specs.Limits.{input_limit, line_limit};
ghost use Rattle.scfs_schedule.specs.Holding.{HoldsNoLine};
ghost use Rattle.scfs_schedule.specs.Lines.{EndsBehindHeader, Finds, Goes};
ghost use Rattle.scfs_schedule.specs.Places.{IsBehind, IsPlace};
ghost use Rattle.scfs_schedule.specs.Reading.{unread, gives, Gives, IsDrained, stop_of};

use crate::grammar::said;
use crate::held::Held;
use crate::progress::{FirstLine, Found, Progress};
use crate::{Bad, BadKind, Ending, INPUT_LIMIT, Item, Place, Said, Stop, Which};
use scfs_base::Memory;
use std::alloc::Global;
use std::marker::Model;

/// Reads a schedule that comes in pieces of any lengths, at most `INPUT_LIMIT` bytes of it and at most
/// `LINE_LIMIT` bytes of a line. A script may have only the events `call`, `turn`, `tick`, `crash` and `start`.
#[derive(Drop)]
pub struct Reader {
    alloc: Global,
    script: bool,
    held: Held,
    lines: u64,
    place: Place,
    ending: Option<Ending>,
}

impl Model for Reader {
    ghost use Rattle.scfs_schedule.specs.Reading.{Reading};
    ghost use Rattle.scfs_schedule.specs.Lines.{Keeps};

    ghost Value = { Reading };

    ghost view = { λ r. record {
      script = r.script;
      place = r.place;
      lines = r.lines;
      rest = r.held.rest;
      room = r.held.room;
      longer = r.held.longer;
      ending = r.ending;
    } };

    ghost invariant = { λ r. Keeps r.held r.lines r.place r.ending };
}

impl Reader {
    /// A reader at the beginning of a schedule or a script.
    pub fn new(alloc: Global, script: bool) -> Reader
        ensures { result ≡ unread script }
    {
        Reader {
            alloc,
            script,
            held: Held::new(alloc, INPUT_LIMIT),
            lines: 0,
            place: Place::Version,
            ending: None,
        }
    }

    /// Takes the next piece of the text, or the front of it for which there is room. After an ending, or with an error,
    /// it takes nothing.
    pub fn feed(&mut self, piece: &[u8]) -> Result<(), Stop>
        ensures takes { OnOk result ((more : List ℕ) → gives self.old (piece.now ++ more) ≡ gives self.new more) }
        ensures place { OnOk result (self.new.place ≡ self.old.place) }
        ensures lines { OnOk result (self.new.lines ≡ self.old.lines) }
        ensures ending { OnOk result (self.new.ending ≡ self.old.ending) }
        ensures held { OnOk result (length self.new.rest ≤ length self.old.rest + length piece.now) }
        ensures ended { IsSome self.old.ending → (result ≡ Ok tt) × (self.new ≡ self.old) }
        ensures memory { IfErr result (λ stop. stop ≡ Stop.Memory) }
        ensures error { OnErr result (self.new ≡ self.old) }
    {
        if self.ending.is_some() {
            return Ok(());
        }
        self.held.take(piece)?;
        Ok(())
    }

    /// Goes behind the line just taken off, to a place of the header or behind it.
    fn go_to(&mut self, place: Place)
        requires in_range { IsPlace place }
        requires open { self.old.ending ≡ None }
        requires numbered { IsBehind place (self.old.lines + 1) }
        requires counted { self.old.lines + (length self.old.rest + self.old.room) < input_limit }
        ensures { self.new ≡ record self.old { place = place; lines = self.old.lines + 1 } }
    {
        self.place = place;
        self.lines += 1;
    }

    /// Goes behind the event's line just taken off.
    fn pass_line(&mut self)
        requires open { self.old.ending ≡ None }
        requires numbered { IsBehind self.old.place (self.old.lines + 1) }
        requires counted { self.old.lines + (length self.old.rest + self.old.room) < input_limit }
        ensures { self.new ≡ record self.old { lines = self.old.lines + 1 } }
    {
        self.lines += 1;
    }

    /// Ends the text with the line just taken off.
    fn end_with(&mut self, ending: Ending)
        requires place { EndsBehindHeader (Some ending) self.old.place }
        requires counted { self.old.lines + (length self.old.rest + self.old.room) < input_limit }
        ensures { self.new ≡ record self.old { lines = self.old.lines + 1; ending = Some ending } }
    {
        self.lines += 1;
        self.ending = Some(ending);
    }

    /// Takes off the next whole line and gives what it says at the reader's place.
    fn cut_line(&mut self) -> Result<Found, Memory>
        requires { self.old.ending ≡ None }
        ensures { IfOk result (λ found. Finds found self.old self.new) }
    {
        let count = match self.held.first() {
            FirstLine::Unfinished => return Ok(Found::NoLine),
            FirstLine::TooLong => return Ok(Found::LongLine),
            FirstLine::Whole(count) => count,
        };
        let said = said(self.alloc, self.script, &self.place, self.held.front(count))?;
        self.held.drop_line(count);
        Ok(Found::Line(said))
    }

    /// Reads one line.
    fn read_line(&mut self) -> Result<Progress, Stop>
        requires { self.old.ending ≡ None }
        ensures { Goes result self.old self.new }
    {
        let said = match self.cut_line()? {
            Found::NoLine => return Ok(Progress::Nothing),
            Found::LongLine => return Err(self.stop_too_large(Which::Line)),
            Found::Line(said) => said,
        };
        match said {
            Said::Moves(place) => {
                self.go_to(place);
                Ok(Progress::Moved)
            }
            Said::Begins(header) => {
                self.go_to(Place::Events(header.copy(self.alloc)?));
                Ok(Progress::Gave(Item::Header(header)))
            }
            Said::Says(event) => {
                self.pass_line();
                Ok(Progress::Gave(Item::Event(event)))
            }
            Said::Ends => {
                self.end_with(Ending::Ended);
                Ok(Progress::Gave(Item::End))
            }
            Said::Wrong(kind) => Err(self.stop_bad(kind)),
        }
    }

    /// Stops the reader at the line just taken off, which is not allowed.
    fn stop_bad(&mut self, kind: BadKind) -> Stop
        requires { self.old.lines + (length self.old.rest + self.old.room) < input_limit }
        ensures stop { result ≡ Stop.Bad (record { line = self.old.lines + 1; kind = kind }) }
        ensures ending { self.new ≡ record self.old { lines = self.old.lines + 1; ending = Some (Ending.Stopped result) } }
    {
        let stop = Stop::Bad(Bad {
            line: self.lines + 1,
            kind,
        });
        self.end_with(Ending::Stopped(stop));
        stop
    }

    /// Stops the reader at a limit.
    fn stop_too_large(&mut self, which: Which) -> Stop
        ensures stop { result ≡ Stop.TooLarge which }
        ensures ending { self.new ≡ record self.old { ending = Some (Ending.Stopped (Stop.TooLarge which)) } }
    {
        self.ending = Some(Ending::Stopped(Stop::TooLarge(which)));
        Stop::TooLarge(which)
    }

    /// What is given where no whole line is held.
    fn wait(&mut self) -> Result<Option<Item>, Stop>
        requires open { self.old.ending ≡ None }
        requires no_line { HoldsNoLine self.old.rest }
        requires short { length self.old.rest ≤ line_limit }
        ensures { Gives result self.old self.new }
    {
        if self.held.is_longer() {
            return Err(self.stop_too_large(Which::Input));
        }
        Ok(None)
    }

    /// The next item; `Ok(None)` where the bytes fed hold no further line. A stop is given again at each further call;
    /// after want of memory a reader is only to be dropped.
    pub fn next(&mut self) -> Result<Option<Item>, Stop>
        ensures { Gives result self.old self.new }
    {
        if let Some(ending) = self.ending {
            return match ending {
                Ending::Ended => Ok(Some(Item::End)),
                Ending::Stopped(stop) => Err(stop),
            };
        }
        'lines: loop {
            match self.read_line()? {
                Progress::Nothing => return self.wait(),
                Progress::Moved => {}
                Progress::Gave(item) => return Ok(Some(item)),
            }
        }
    }

    /// How the text ends if nothing more is fed: nothing where it ended with its line `end`, else the stop.
    pub fn finish(&self) -> Option<Stop>
        requires { IsDrained self.now }
        ensures { result ≡ stop_of (gives self.now []).ending }
    {
        match self.ending {
            Some(Ending::Ended) => None,
            Some(Ending::Stopped(stop)) => Some(stop),
            None if self.held.is_longer() => Some(Stop::TooLarge(Which::Input)),
            None => Some(Stop::Bad(Bad {
                line: self.lines + 1,
                kind: BadKind::End,
            })),
        }
    }

    /// How many bytes are held that were not read yet. After `next` gave `Ok(None)` they are at most `LINE_LIMIT`.
    pub fn held(&self) -> u64
        ensures { result ≡ length self.now.rest }
    {
        self.held.len() as u64
    }

    /// The number of the line that was read last, counted from 1; 0 before the first.
    pub fn line(&self) -> u64
        ensures { result ≡ self.now.lines }
    {
        self.lines
    }
}
