ghost use Rattle.std.specs.Prelude.{◌≡◌, [], List, ℕ, IfNone, IfOk, IfSome, OnErr, OnOk, Ok};
ghost use Rattle.scfs_base.specs.Outside.{HasCause};
ghost use Rattle.scfs_schedule.specs.Reading.{IsDrained, gives};
ghost use Rattle.scfs_top.specs.Edges.{Fed, Passes};
ghost use Rattle.scfs_live.specs.Edges.{GetsPart};
ghost use Rattle.scfs_top.specs.Giving.{Draws, GivesNext, InPieces, IsAwaiting, IsFresh, ReadOn, Tells, WaitedFor, filled_by};

use crate::closing::Filled;
use crate::edges::{PieceRead, feed_piece};
use crate::waiting::Waiting;
use scfs_base::{Failed, Sink, Source};
use scfs_schedule::{Ending, Event, Header, INPUT_LIMIT, Item, Reader, Stop};
use std::alloc::Global;

/// How many bytes are read at a time.
const PIECE: usize = 65_536;

/// What a text gives next: its header, or an event; or how it ends, and how the reading of it ended; or memory was wanting.
#[derive(Drop)]
pub enum Given {
    Header(Header),
    Event(Event),
    Ended(Ending, Filled),
    Memory,
}

/// The input of a run: the reader of its text, and how many bytes more are taken.
#[derive(Drop)]
pub struct Intake {
    reader: Reader,
    room: usize,
}

/// How the text ends of which the reader gave all that it was fed.
fn ending_of(reader: &Reader) -> Ending
    requires { IsDrained reader.now }
    ensures { result ≡ (gives reader.now []).ending }
{
    match reader.finish() {
        Some(stop) => Ending::Stopped(stop),
        None => Ending::Ended,
    }
}

/// What the bytes fed give next; none where they hold no further line.
fn given_now(reader: &mut Reader) -> Option<Given>
    ensures given { IfSome result (λ given. GivesNext given [] reader.old reader.new) }
    ensures open { IfSome result (λ given. filled_by given ≡ Filled.Open) }
    ensures none { IfNone result (Fed reader.old [] reader.new × IsAwaiting reader.new) }
{
    match reader.next() {
        Err(Stop::Memory) => Some(Given::Memory),
        Err(stop) => Some(Given::Ended(Ending::Stopped(stop), Filled::Open)),
        Ok(None) => None,
        Ok(Some(Item::End)) => Some(Given::Ended(Ending::Ended, Filled::Open)),
        Ok(Some(Item::Header(header))) => Some(Given::Header(header)),
        Ok(Some(Item::Event(event))) => Some(Given::Event(event)),
    }
}

impl Intake {
    /// An input of which nothing was read: a schedule or a script.
    pub fn new(alloc: Global, script: bool) -> Intake
        ensures { IsFresh script result }
    {
        Intake {
            reader: Reader::new(alloc, script),
            room: INPUT_LIMIT + 1,
        }
    }

    /// The number of the line that was read last.
    pub fn line(&self) -> u64
        ensures { result ≡ self.now.reader.lines }
    {
        self.reader.line()
    }

    /// The text's end, where reading ended so.
    fn ended(&self, filled: Filled) -> Given
        requires { IsDrained self.now.reader }
        ensures next { GivesNext result [] self.now.reader self.now.reader }
        ensures filled { filled_by result ≡ filled }
    {
        Given::Ended(ending_of(&self.reader), filled)
    }

    /// Reads on, a piece at a time, until the text gives something.
    fn read_on<I: Source>(&mut self, input: &mut I) -> Given
        requires { IsAwaiting self.old.reader }
        ensures draws { (more : List ℕ) × Draws (I.left input.old) (I.left input.new) more self.old self.new result × InPieces self.old.reader more }
        ensures tells { Tells (I.ends input.old) (I.ends input.new) (I.faults input.old) (I.faults input.new) (filled_by result) }
    {
        let mut buffer = [0u8; PIECE];
        'reads: while self.room > 0 {
            let wanted = self.room.min(PIECE);
            match feed_piece(input, &mut self.reader, &mut buffer[..wanted]) {
                PieceRead::Took(count) => self.room -= count,
                PieceRead::End => return self.ended(Filled::End),
                PieceRead::Fault => return self.ended(Filled::Fault),
                PieceRead::Memory => return Given::Memory,
            }
            if let Some(given) = given_now(&mut self.reader) {
                return given;
            }
        }
        self.ended(Filled::Full)
    }

    /// What the text gives next, of which nothing waits to be written.
    pub fn next_alone<I: Source>(&mut self, input: &mut I) -> Given
        ensures draws { (more : List ℕ) × Draws (I.left input.old) (I.left input.new) more self.old self.new result × ReadOn self.old.reader more }
        ensures tells { Tells (I.ends input.old) (I.ends input.new) (I.faults input.old) (I.faults input.new) (filled_by result) }
    {
        match given_now(&mut self.reader) {
            Some(given) => given,
            None => self.read_on(input),
        }
    }

    /// What the text gives next. Before it is read on, all that waits is written.
    pub fn next<I: Source, O: Sink>(
        &mut self,
        input: &mut I,
        waiting: &mut Waiting,
        out: &mut O,
    ) -> Result<Given, Failed>
        ensures draws { IfOk result (λ given. (more : List ℕ) × Draws (I.left input.old) (I.left input.new) more self.old self.new given
            × WaitedFor self.old.reader more waiting.new) }
        ensures tells { IfOk result (λ given.
            Tells (I.ends input.old) (I.ends input.new) (I.faults input.old) (I.faults input.new) (filled_by given)) }
        ensures passes { OnOk result (Passes (O.written out.old) (O.written out.new) waiting.old waiting.new []) }
        ensures part { OnErr result (GetsPart (O.written out.old) (O.written out.new) waiting.old × (input.new ≡ input.old)) }
        ensures cause { HasCause (O.faults out.old) (O.faults out.new) result }
    {
        if let Some(given) = given_now(&mut self.reader) {
            return Ok(given);
        }
        waiting.flush(out)?;
        Ok(self.read_on(input))
    }
}
