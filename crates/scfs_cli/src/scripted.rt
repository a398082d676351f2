use crate::rows::BEGUN;
use crate::tests::{HEADER, REPLAY, Run, expect, one, truthful};
use scfs_base::{Bytes, MemSink, MemSource, Memory};
use scfs_cloud::{Cloud, SaidCloud};
use scfs_policy::{RankFacts, RankRule};
use scfs_top::{Status, scfs};
use std::alloc::Global;
use std::process::Abort;
use std::test::Fail;

// Runs of scripts over clouds in memory. The worked run's lines were worked out by another implementation.

/// What fails, and at which of its calls; of a cloud its number too.
#[derive(Clone, Copy)]
pub enum Failing {
    Nothing,
    Input(u64),
    Old(u64),
    Out(u64),
    Journal(u64),
    Cloud(usize, u64),
}

impl Failing {
    /// The number of the script's read that fails.
    fn of_input(&self) -> Option<u64> {
        match self {
            Failing::Input(call) => Some(*call),
            _ => None,
        }
    }

    /// The number of the old journal's read that fails.
    fn of_old(&self) -> Option<u64> {
        match self {
            Failing::Old(call) => Some(*call),
            _ => None,
        }
    }

    /// The number of the write to out that fails.
    fn of_out(&self) -> Option<u64> {
        match self {
            Failing::Out(call) => Some(*call),
            _ => None,
        }
    }

    /// The number of the write to the journal that fails.
    fn of_journal(&self) -> Option<u64> {
        match self {
            Failing::Journal(call) => Some(*call),
            _ => None,
        }
    }

    /// The cloud that fails, and the number of its call.
    fn of_cloud(&self) -> Option<(usize, u64)> {
        match self {
            Failing::Cloud(cloud, call) => Some((*cloud, *call)),
            _ => None,
        }
    }
}

/// How a run ended, and what it wrote.
#[derive(Drop)]
pub struct Ended {
    pub status: Status,
    pub out: MemSink,
    pub journal: MemSink,
}

/// Runs this script over these clouds, behind this old journal; both are read in pieces of 16 bytes.
fn run_over<C: Cloud>(
    alloc: Global,
    script: &[u8],
    old: &[u8],
    failing: Failing,
    clouds: &mut [C],
) -> Result<Ended, Fail> {
    let mut words = Vec::new(alloc);
    words.push(String::from_str(alloc, "run")?)?;
    let mut input = source(alloc, script, failing.of_input())?;
    let mut before = source(alloc, old, failing.of_old())?;
    let mut out = MemSink::new(alloc, one(alloc, failing.of_out())?);
    let mut journal = MemSink::new(alloc, one(alloc, failing.of_journal())?);
    let rank = RankRule::new(|facts: RankFacts| u64::from(facts.bad));
    if clouds.len() < 10 {
        return Err(Fail::from(Memory));
    }
    let status = scfs(
        alloc,
        words.as_slice(),
        &mut input,
        &mut before,
        &mut out,
        &mut journal,
        clouds,
        &rank,
    );
    Ok(Ended {
        status,
        out,
        journal,
    })
}

/// A source of these bytes in pieces of 16, of which one read may fail.
fn source(alloc: Global, bytes: &[u8], failing: Option<u64>) -> Result<MemSource, Fail> {
    let mut pieces = Vec::new(alloc);
    for _ in 0..bytes.len() {
        pieces.push(16)?;
    }
    let bytes = Bytes::from_slice(alloc, bytes)?;
    Ok(MemSource::new(bytes, pieces, one(alloc, failing)?))
}

/// Runs this script over truthful clouds.
pub fn run_script(
    alloc: Global,
    script: &[u8],
    old: &[u8],
    failing: Failing,
) -> Result<Ended, Fail> {
    let mut clouds = truthful(alloc, failing.of_cloud())?;
    run_over(alloc, script, old, failing, clouds.as_mut_slice())
}

/// The lines of the worked script.
pub const SCRIPT: &str =
    "call 0 create /a\ncall 0 open /a w\ncall 0 write 1 0 6869\ncall 0 close 1\n";

/// Its last three.
const REST: &str = "call 0 open /a w\ncall 0 write 1 0 6869\ncall 0 close 1\n";

/// The events of its run where cloud 2 fails its first call.
const EVENTS: &str = "call 0 create /a\nspace 0\ntold 0\ncall 0 open /a w\nspace 0\ntold 0\n\
    call 0 write 1 0 6869\ncall 0 close 1\nsay 0 ack\ngive 0\nsay 1 ack\ngive 1\nsay 2 fail\n\
    give 2\nsay 3 ack\ngive 3\nspace 0\ntold 0\n";

/// The lines of those behind the close.
const CLOSED: &str = "\
    9 did 0 0.0.3 ack\n10 gave 0 0.0.3 ack\n11 did 1 0.0.4 ack\n12 gave 1 0.0.4 ack\n\
    13 did 2 0.0.5 fail\n14 gave 2 0.0.5 fail\n15 did 3 0.0.6 ack\n16 gave 3 0.0.6 ack\n\
    17 committed 0.0.7 1 1\n18 closed 0 1 1\n";

/// Its first three events as the journal has them.
const FIRST: &str = "call 0 create /a\nspace 0\n 2 changed 0.0.1\ntold 0\n 3 ok 0 create 1\n";

/// Texts one behind the other.
pub fn joined(alloc: Global, parts: &[&str]) -> Result<Bytes, Fail> {
    let mut text = Bytes::new(alloc);
    for part in parts {
        text.extend(part.as_bytes())?;
    }
    Ok(text)
}

/// A script with the worked header.
pub fn script(alloc: Global, lines: &str) -> Result<Bytes, Fail> {
    joined(alloc, &[HEADER, lines, "end\n"])
}

/// The lines of a journal that a schedule has, with its last line.
pub fn schedule_in(alloc: Global, journal: &[u8]) -> Result<String, Fail> {
    let mut schedule = String::new(alloc);
    for line in journal.split(|byte| *byte == b'\n') {
        let is_event = match line {
            [] | [b' ', ..] | [.., b'~'] => false,
            _ => true,
        };
        if is_event {
            schedule.push_str(String::from_utf8_lossy(alloc, line)?.as_str())?;
            schedule.push_str("\n")?;
        }
    }
    schedule.push_str("end\n")?;
    Ok(schedule)
}

#[test]
fn the_worked_run(rt: HostRuntime) -> Result<(), Fail> {
    let alloc = rt.alloc();
    let text = script(alloc, SCRIPT)?;
    let ran = run_script(alloc, text.as_slice(), b"", Failing::Cloud(2, 1))?;
    let wanted = joined(alloc, &[BEGUN, CLOSED, "stop 0 18\n"])?;
    assert_eq!(rt; ran.out.written(), wanted.as_slice());
    assert_eq!(rt; ran.status, Status::Done);
    let events = joined(alloc, &[HEADER, EVENTS, "end\n"])?;
    let schedule = schedule_in(alloc, ran.journal.written())?;
    assert_eq!(rt; schedule.as_str().as_bytes(), events.as_slice());
    Ok(())
}

// Its journal, without the lines that it keeps, is a schedule with the same transcript.
#[test]
fn a_journal_is_replayed(rt: HostRuntime) -> Result<(), Fail> {
    let alloc = rt.alloc();
    let text = script(alloc, SCRIPT)?;
    let ran = run_script(alloc, text.as_slice(), b"", Failing::Cloud(2, 1))?;
    let schedule = schedule_in(alloc, ran.journal.written())?;
    let replay = Run {
        words: &["replay"],
        input: &[schedule.as_str()],
        ..REPLAY
    };
    expect(&rt, replay, Status::Done, &[BEGUN, CLOSED, "stop 0 18\n"])
}

#[test]
fn goes_on_over_a_journal_that_failed(rt: HostRuntime) -> Result<(), Fail> {
    let alloc = rt.alloc();
    let text = script(alloc, SCRIPT)?;
    let failed = run_script(alloc, text.as_slice(), b"", Failing::Journal(5))?;
    assert_eq!(rt; failed.status, Status::WriteFault);
    let lines = "2 changed 0.0.1\n3 ok 0 create 1\n";
    assert_eq!(rt; failed.out.written(), lines.as_bytes());
    let kept = joined(alloc, &[HEADER, FIRST])?;
    assert_eq!(rt; failed.journal.written(), kept.as_slice());
    let rest = script(alloc, REST)?;
    let ran = run_script(
        alloc,
        rest.as_slice(),
        failed.journal.written(),
        Failing::Cloud(2, 1),
    )?;
    assert_eq!(rt; ran.status, Status::Done);
    assert!(rt; ran.out.written().starts_with(b"5 locked 0.0.2 1 100\n"));
    assert!(rt;
        ran.out
            .written()
            .ends_with(b"\n18 closed 0 1 1\nstop 0 18\n")
    );
    Ok(())
}

#[test]
fn a_changed_line_differs(rt: HostRuntime) -> Result<(), Fail> {
    let alloc = rt.alloc();
    let changed = "call 0 create /a\nspace 0\n 2 changed 0.0.1\ntold 0\n 3 ok 0 create 2\n";
    let old = joined(alloc, &[HEADER, changed])?;
    let rest = script(alloc, REST)?;
    let ran = run_script(alloc, rest.as_slice(), old.as_slice(), Failing::Nothing)?;
    let wanted = "stop 7 journal 11\nkept 3 ok 0 create 2\nmade 3 ok 0 create 1\n";
    assert_eq!(rt; ran.out.written(), wanted.as_bytes());
    assert_eq!(rt; ran.status, Status::Differs);
    assert_eq!(rt; ran.journal.written(), b"".as_slice());
    Ok(())
}

// No cloud has anything to say: the close is given up at its eighth turn.
#[test]
fn clouds_that_always_fail(rt: HostRuntime) -> Result<(), Fail> {
    let alloc = rt.alloc();
    let text = script(alloc, SCRIPT)?;
    let mut clouds = Vec::new(alloc);
    for _ in 0..10 {
        clouds.push(SaidCloud::new(alloc, Vec::new(alloc)))?;
    }
    let ran = run_over(
        alloc,
        text.as_slice(),
        b"",
        Failing::Nothing,
        clouds.as_mut_slice(),
    )?;
    assert_eq!(rt; ran.status, Status::Done);
    let lines = String::from_utf8_lossy(alloc, ran.out.written())?;
    assert!(rt; lines.as_str().contains(" no 0 15 Short 0\n"));
    assert!(rt; lines.as_str().ends_with("\nstop 0 82\n"));
    Ok(())
}

/// Refuses these words, and touches nothing.
fn expect_usage(rt: &(impl Abort + AllocGlobal), words: &[&str]) -> Result<(), Fail> {
    let run = Run {
        words,
        input: &[HEADER, SCRIPT, "end\n"],
        ..REPLAY
    };
    expect(rt, run, Status::Usage, &["stop 2 usage\n"])
}

#[test]
fn words_of_a_run(rt: HostRuntime) -> Result<(), Fail> {
    expect_usage(&rt, &["run", "now"])?;
    expect_usage(&rt, &["runs"])?;
    expect_usage(&rt, &["-h"])?;
    let bad = Run {
        words: &["run"],
        input: &[HEADER, "space 0\n"],
        ..REPLAY
    };
    expect(&rt, bad, Status::BadInput, &["stop 3 input 7 word\n"])
}
