ghost use Rattle.std.specs.Prelude.{◌≡◌, ◌++◌, Some, IfOk, OnOk};
ghost use Rattle.scfs_top.specs.Closing.{closing_of, fault_text, last_line_text, shown_text, status_number, status_of, stop_closing, stop_text, which_text};

use scfs_base::{Bytes, Memory};
use scfs_schedule::{Bad, BadKind, Ending, Stop, Which};
use std::alloc::Global;
use std::fmt;

/// How reading the input ended: a read gave the end, a read failed, or one byte more than is looked at was read; or it is open,
/// since the run ended first.
#[derive(Clone, Copy, Debug, PartialEq, Eq)]
pub enum Filled {
    End,
    Fault,
    Full,
    Open,
}

/// How what is played of a text ends.
#[derive(Clone, Copy, Debug, PartialEq, Eq)]
pub enum Finish {
    /// As the text does.
    Text(Ending),
    /// At the line of this number, which asks what the program can't do yet.
    Unbuilt(u64),
    /// Before the first event past the limit.
    Events,
    /// Before an event that would carry more bytes than the limit.
    Objects,
}

/// What is wrong with a line: it is not allowed, or it asks what the program can't do yet.
#[derive(Clone, Copy, Debug, PartialEq, Eq)]
pub enum LineFault {
    Bad(BadKind),
    Unbuilt,
}

/// How the program ends.
#[derive(Clone, Copy, Debug, PartialEq, Eq)]
pub enum Status {
    Done,
    Usage,
    BadInput,
    ReadFault,
    WriteFault,
    TooLarge,
    Differs,
    Memory,
}

impl Status {
    /// The exit status: 0, 2 usage, 3 bad input, 4 read fault, 5 write fault, 6 too large, 7 a kept line differs, 9 want of memory.
    pub fn number(&self) -> u8
        ensures { result ≡ status_number self.now }
    {
        match self {
            Status::Done => 0,
            Status::Usage => 2,
            Status::BadInput => 3,
            Status::ReadFault => 4,
            Status::WriteFault => 5,
            Status::TooLarge => 6,
            Status::Differs => 7,
            Status::Memory => 9,
        }
    }
}

/// The last line of an output. `Done` has the number of events; `BadInput`, `BadJournal` and `Differs` have the number of a line.
#[derive(Debug, Drop)]
pub enum LastLine {
    Done(u64),
    Usage,
    BadInput(u64, LineFault),
    BadJournal(u64, LineFault),
    ReadFault(Which),
    TooLarge(Which),
    /// With the line that the old journal kept and the one that was made, each on a line of its own.
    Differs(u64, Bytes, Bytes),
}

/// What is wrong with a line by its word.
#[derive(Clone, Copy)]
struct FaultWord(LineFault);

impl fmt::Display for FaultWord {
    ghost output = { λ word. Some (fault_text word.0) };

    fn fmt<W: fmt::Write>(&self, f: &mut fmt::Formatter<W>) -> fmt::Result {
        match self.0 {
            LineFault::Bad(BadKind::End) => write!(f, "end"),
            LineFault::Bad(BadKind::Order) => write!(f, "order"),
            LineFault::Bad(BadKind::Word) => write!(f, "word"),
            LineFault::Bad(BadKind::Number) => write!(f, "number"),
            LineFault::Bad(BadKind::Hex) => write!(f, "hex"),
            LineFault::Bad(BadKind::Path) => write!(f, "path"),
            LineFault::Unbuilt => write!(f, "unbuilt"),
        }
    }
}

/// What has a limit, or failed, by its word.
#[derive(Clone, Copy)]
struct WhichWord(Which);

impl fmt::Display for WhichWord {
    ghost output = { λ word. Some (which_text word.0) };

    fn fmt<W: fmt::Write>(&self, f: &mut fmt::Formatter<W>) -> fmt::Result {
        match self.0 {
            Which::Events => write!(f, "events"),
            Which::Input => write!(f, "input"),
            Which::Journal => write!(f, "journal"),
            Which::Line => write!(f, "line"),
            Which::Objects => write!(f, "objects"),
            Which::Out => write!(f, "out"),
        }
    }
}

impl fmt::Display for LastLine {
    ghost output = { λ line. Some (stop_text line) };

    fn fmt<W: fmt::Write>(&self, f: &mut fmt::Formatter<W>) -> fmt::Result {
        match self {
            LastLine::Done(events) => write!(f, "stop 0 {events}\n"),
            LastLine::Usage => write!(f, "stop 2 usage\n"),
            LastLine::BadInput(line, fault) => {
                write!(f, "stop 3 input {line} {}\n", FaultWord(*fault))
            }
            LastLine::BadJournal(line, fault) => {
                write!(f, "stop 3 journal {line} {}\n", FaultWord(*fault))
            }
            LastLine::ReadFault(which) => write!(f, "stop 4 {}\n", WhichWord(*which)),
            LastLine::TooLarge(which) => write!(f, "stop 6 {}\n", WhichWord(*which)),
            LastLine::Differs(line, _, _) => write!(f, "stop 7 journal {line}\n"),
        }
    }
}

impl LastLine {
    /// The status that goes with the line.
    pub fn status(&self) -> Status
        ensures { result ≡ status_of self.now }
    {
        match self {
            LastLine::Done(_) => Status::Done,
            LastLine::Usage => Status::Usage,
            LastLine::BadInput(_, _) | LastLine::BadJournal(_, _) => Status::BadInput,
            LastLine::ReadFault(_) => Status::ReadFault,
            LastLine::TooLarge(_) => Status::TooLarge,
            LastLine::Differs(_, _, _) => Status::Differs,
        }
    }

    /// The line as text, and behind it the two lines that differ.
    pub fn text(&self, alloc: Global) -> Result<Bytes, Memory>
        ensures { IfOk result (λ text. text ≡ last_line_text self.now) }
    {
        let stop = format!(in alloc; "{self}")?;
        let mut text = Bytes::from_slice(alloc, stop.as_bytes())?;
        if let LastLine::Differs(_, kept, made) = self {
            push_shown(b"kept ", kept.as_slice(), &mut text)?;
            push_shown(b"made ", made.as_slice(), &mut text)?;
        }
        Ok(text)
    }
}

/// Puts a line behind a text that shows another under a word.
fn push_shown(word: &[u8], line: &[u8], text: &mut Bytes) -> Result<(), Memory>
    ensures { OnOk result (text.new ≡ text.old ++ shown_text word.now line.now) }
{
    text.extend(word)?;
    text.extend(line)?;
    text.push(b'\n')
}

/// The last line of a run of so many events, by how what was played of its text and the reading of it ended; none for want
/// of memory.
pub fn closing_line(events: u64, finish: Finish, filled: Filled) -> Option<LastLine>
    ensures { result ≡ closing_of events finish filled }
{
    match finish {
        Finish::Events => Some(LastLine::TooLarge(Which::Events)),
        Finish::Objects => Some(LastLine::TooLarge(Which::Objects)),
        Finish::Unbuilt(line) => Some(LastLine::BadInput(line, LineFault::Unbuilt)),
        Finish::Text(Ending::Ended) => Some(LastLine::Done(events)),
        Finish::Text(Ending::Stopped(stop)) => stop_line(stop, filled),
    }
}

/// The last line of a text that stopped before its line `end`.
fn stop_line(stop: Stop, filled: Filled) -> Option<LastLine>
    ensures { result ≡ stop_closing stop filled }
{
    match stop {
        Stop::TooLarge(which) => Some(LastLine::TooLarge(which)),
        Stop::Memory => None,
        Stop::Bad(
            Bad {
                line,
                kind: BadKind::End,
            },
        ) => match filled {
            Filled::End => Some(LastLine::BadInput(line, LineFault::Bad(BadKind::End))),
            Filled::Fault => Some(LastLine::ReadFault(Which::Input)),
            Filled::Full => Some(LastLine::TooLarge(Which::Input)),
            Filled::Open => None,
        },
        Stop::Bad(Bad { line, kind }) => Some(LastLine::BadInput(line, LineFault::Bad(kind))),
    }
}
