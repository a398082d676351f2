ghost use Rattle.std.specs.Prelude.{◌≡◌, ◌++◌, OnOk, OnErr, Some};
ghost use Rattle.scfs_schedule.specs.Text.{refusal_text, kind_text, how_text, source_text, sum_text, call_text, event_text, event_line, line_text, numbered};

use crate::phrases::phrase_of;
use crate::spelling::{AnswerText, HexText, HexWord, PathWord};
use crate::{Call, Event, How, Kind, Line, Refusal, Src, Sum};
use scfs_base::{Bytes, Memory};
use std::alloc::Global;
use std::fmt;

impl fmt::Display for Refusal {
    ghost output = { λ it. Some (refusal_text it) };

    fn fmt<W: fmt::Write>(&self, f: &mut fmt::Formatter<W>) -> fmt::Result {
        match self {
            Refusal::Busy => write!(f, "1 Busy"),
            Refusal::BadName => write!(f, "2 BadName"),
            Refusal::NoEntry => write!(f, "3 NoEntry"),
            Refusal::Exists => write!(f, "4 Exists"),
            Refusal::NotDir => write!(f, "5 NotDir"),
            Refusal::IsDir => write!(f, "6 IsDir"),
            Refusal::NotEmpty => write!(f, "7 NotEmpty"),
            Refusal::Locked(agent) => write!(f, "8 Locked {agent}"),
            Refusal::IntoItself => write!(f, "9 IntoItself"),
            Refusal::TooManyHandles => write!(f, "10 TooManyHandles"),
            Refusal::BadHandle => write!(f, "11 BadHandle"),
            Refusal::ReadOnly => write!(f, "12 ReadOnly"),
            Refusal::TooLong => write!(f, "13 TooLong"),
            Refusal::LockLost => write!(f, "14 LockLost"),
            Refusal::Short(clouds) => write!(f, "15 Short {clouds}"),
            Refusal::Unavailable(version, clouds) => write!(f, "16 Unavailable {version} {clouds}"),
            Refusal::NotYet(closes) => write!(f, "17 NotYet {closes}"),
            Refusal::NoVersion => write!(f, "18 NoVersion"),
            Refusal::Changed(file, version) => write!(f, "19 Changed {} {version}", file.0),
            Refusal::Starting(clouds) => write!(f, "20 Starting {clouds}"),
            Refusal::TreeFull => write!(f, "21 TreeFull"),
        }
    }
}

impl fmt::Display for Kind {
    ghost output = { λ it. Some (kind_text it) };

    fn fmt<W: fmt::Write>(&self, f: &mut fmt::Formatter<W>) -> fmt::Result {
        match self {
            Kind::File => write!(f, "file"),
            Kind::Dir => write!(f, "dir"),
        }
    }
}

impl fmt::Display for How {
    ghost output = { λ it. Some (how_text it) };

    fn fmt<W: fmt::Write>(&self, f: &mut fmt::Formatter<W>) -> fmt::Result {
        match self {
            How::Fresh => write!(f, "fresh"),
            How::Cached => write!(f, "cached"),
        }
    }
}

impl fmt::Display for Src {
    ghost output = { λ it. Some (source_text it) };

    fn fmt<W: fmt::Write>(&self, f: &mut fmt::Formatter<W>) -> fmt::Result {
        match self {
            Src::Own => write!(f, "own"),
            Src::Empty => write!(f, "empty"),
            Src::Memory => write!(f, "memory"),
            Src::Disk => write!(f, "disk"),
            Src::Clouds => write!(f, "clouds"),
        }
    }
}

impl fmt::Display for Sum {
    ghost output = { λ it. Some (sum_text it) };

    fn fmt<W: fmt::Write>(&self, f: &mut fmt::Formatter<W>) -> fmt::Result {
        match self {
            Sum::Ack => write!(f, "ack"),
            Sum::Absent => write!(f, "absent"),
            Sum::Fail => write!(f, "fail"),
            Sum::Bytes(length, digest) => write!(f, "bytes {length} {}", HexWord(&digest.0)),
            Sum::Names(count) => write!(f, "names {count}"),
        }
    }
}

impl fmt::Display for Call {
    ghost output = { λ it. Some (call_text it) };

    fn fmt<W: fmt::Write>(&self, f: &mut fmt::Formatter<W>) -> fmt::Result {
        match self {
            Call::Mkdir(path) => write!(f, "mkdir {}", PathWord(path.as_slice())),
            Call::Rmdir(path) => write!(f, "rmdir {}", PathWord(path.as_slice())),
            Call::Create(path) => write!(f, "create {}", PathWord(path.as_slice())),
            Call::Unlink(path) => write!(f, "unlink {}", PathWord(path.as_slice())),
            Call::Stat(path) => write!(f, "stat {}", PathWord(path.as_slice())),
            Call::List(path) => write!(f, "list {}", PathWord(path.as_slice())),
            Call::Rename(from, to) => write!(
                f,
                "rename {} {}",
                PathWord(from.as_slice()),
                PathWord(to.as_slice())
            ),
            Call::OpenR(path) => write!(f, "open {} r", PathWord(path.as_slice())),
            Call::OpenW(path) => write!(f, "open {} w", PathWord(path.as_slice())),
            Call::Openat(path, version) => write!(
                f,
                "openat {} {version}",
                PathWord(path.as_slice())
            ),
            Call::Read(session, offset, count) => write!(f, "read {session} {offset} {count}"),
            Call::Write(session, offset, bytes) => write!(
                f,
                "write {session} {offset} {}",
                HexText(bytes.as_slice())
            ),
            Call::Truncate(session, length) => write!(f, "truncate {session} {length}"),
            Call::Close(session) => write!(f, "close {session}"),
            Call::Sync => write!(f, "sync"),
            Call::Versions(path) => write!(f, "versions {}", PathWord(path.as_slice())),
            Call::Collect(path) => write!(f, "collect {}", PathWord(path.as_slice())),
            Call::Purge => write!(f, "purge"),
        }
    }
}

/// An event's line without its byte 0a.
impl fmt::Display for Event {
    ghost output = { λ it. Some (event_text it) };

    fn fmt<W: fmt::Write>(&self, f: &mut fmt::Formatter<W>) -> fmt::Result {
        match self {
            Event::Call(agent, call) => write!(f, "call {agent} {call}"),
            Event::Say(cloud, answer) => write!(f, "say {cloud} {}", AnswerText(answer)),
            Event::Tick(ticks) => write!(f, "tick {ticks}"),
            Event::Space(actor) => write!(f, "space {actor}"),
            Event::Later(actor) => write!(f, "later {actor}"),
            Event::Told(actor) => write!(f, "told {actor}"),
            Event::Serve(actor) => write!(f, "serve {actor}"),
            Event::Hide(actor) => write!(f, "hide {actor}"),
            Event::Fail(actor) => write!(f, "fail {actor}"),
            Event::Give(actor) => write!(f, "give {actor}"),
            Event::Lose(actor) => write!(f, "lose {actor}"),
            Event::Drop(actor) => write!(f, "drop {actor}"),
            Event::Defer(actor) => write!(f, "defer {actor}"),
            Event::Swap(actor) => write!(f, "swap {actor}"),
            Event::Again(actor) => write!(f, "again {actor}"),
            Event::Twice(actor) => write!(f, "twice {actor}"),
            Event::Turn(actor) => write!(f, "turn {actor}"),
            Event::Crash(actor) => write!(f, "crash {actor}"),
            Event::Start(actor) => write!(f, "start {actor}"),
        }
    }
}

/// A line of the transcript without its event's number.
impl fmt::Display for Line {
    ghost output = { λ it. Some (line_text it) };

    fn fmt<W: fmt::Write>(&self, f: &mut fmt::Formatter<W>) -> fmt::Result {
        write!(f, "{}", phrase_of(self))
    }
}

/// Adds a line of the transcript, with its event's number and the byte 0a. An error leaves the text as it was.
pub fn push_line(alloc: Global, number: u64, line: &Line, text: &mut Bytes) -> Result<(), Memory>
    ensures ok { OnOk result (text.new ≡ text.old ++ numbered number line.now) }
    ensures err { OnErr result (text.new ≡ text.old) }
{
    let made = format!(in alloc; "{number} {line}\n")?;
    text.extend(made.as_bytes())
}

/// Adds the line of an event with its byte 0a. An error leaves the text as it was.
pub fn push_event(alloc: Global, event: &Event, text: &mut Bytes) -> Result<(), Memory>
    ensures ok { OnOk result (text.new ≡ text.old ++ event_line event.now) }
    ensures err { OnErr result (text.new ≡ text.old) }
{
    let made = format!(in alloc; "{event}\n")?;
    text.extend(made.as_bytes())
}
