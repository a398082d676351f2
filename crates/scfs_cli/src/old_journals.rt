//! Old journals that are run again: what of them is kept, what is written, and at which line they end it.

ghost use Rattle.std.specs.Prelude.{◌≡◌, true, IfOk};
ghost use Rattle.scfs_schedule.specs.Grammar.{IsHeader};
ghost use Rattle.scfs_world.specs.Built.{is_built_header};

use scfs_base::{Bytes, MemSink, MemSource, Sequence};
use scfs_live::{LiveEnd, reopen};
use scfs_policy::{RankFacts, RankRule};
use scfs_schedule::{Header, Mode};
use std::alloc::Global;
use std::process::Abort;
use std::test::Fail;

const HEADER: &str = "scfs 1\nf 1\nlease 100\nstale 0\n\
    agent 0 blocking 0000000000000000000000000000000000000000000000000000000000000000\nbegin\n";

const EVENTS: &str =
    "call 0 create /a\nspace 0\n 2 changed 0.0.1\ntold 0\n 3 ok 0 create 1\ncall 0 open /a w\n";

/// An old journal in parts: the greatest length of each read, and the numbers of the read and of the write that fail.
#[derive(Clone, Copy)]
struct Old<'a> {
    parts: &'a [&'a str],
    piece: Option<u32>,
    failing_read: Option<u64>,
    failing_write: Option<u64>,
}

const EMPTY: Old<'static> = Old {
    parts: &[],
    piece: None,
    failing_read: None,
    failing_write: None,
};

/// One blocking agent over four clouds.
fn header(alloc: Global) -> Result<Header, Fail>
    ensures form { IfOk result (λ header. IsHeader header) }
    ensures built { IfOk result (λ header. is_built_header header ≡ true) }
{
    let mut agents = Vec::new(alloc);
    agents.push((Mode::Blocking, [0; 32]))?;
    Ok(Header {
        f: 1,
        lease: 100,
        stale: 0,
        agents: Sequence::from_vec(agents),
    })
}

fn one<T: Drop>(alloc: Global, item: Option<T>) -> Result<Vec<T>, Fail> {
    let mut items = Vec::new(alloc);
    if let Some(item) = item {
        items.push(item)?;
    }
    Ok(items)
}

/// How reopening ended, in a line.
fn end_text(alloc: Global, end: LiveEnd) -> Result<String, Fail> {
    match end {
        LiveEnd::ReadFault(which) => Ok(format!(in alloc; "read fault {which:?}")?),
        LiveEnd::WriteFault(which) => Ok(format!(in alloc; "write fault {which:?}")?),
        LiveEnd::TooLarge(which) => Ok(format!(in alloc; "too large {which:?}")?),
        LiveEnd::Bad(bad) => Ok(format!(in alloc; "bad {} {:?}", bad.line, bad.kind)?),
        LiveEnd::Unbuilt(line) => Ok(format!(in alloc; "unbuilt {line}")?),
        LiveEnd::Differs { line, kept, made } => {
            let kept = String::from_utf8_lossy(alloc, kept.as_slice())?;
            let made = String::from_utf8_lossy(alloc, made.as_slice())?;
            Ok(format!(in alloc; "differs {line}, kept {kept}, made {made}")?)
        }
        LiveEnd::Memory => Ok(format!(in alloc; "memory")?),
    }
}

/// How reopening an old journal ended, and what the journal got.
fn outcome(alloc: Global, run: Old<'_>) -> Result<(String, String), Fail> {
    let mut text = Bytes::new(alloc);
    for part in run.parts {
        text.extend(part.as_bytes())?;
    }
    let mut pieces = Vec::new(alloc);
    if let Some(piece) = run.piece {
        for _ in 0..text.len() {
            pieces.push(piece)?;
        }
    }
    let mut old = MemSource::new(text, pieces, one(alloc, run.failing_read)?);
    let mut journal = MemSink::new(alloc, one(alloc, run.failing_write)?);
    let rank = RankRule::new(|facts: RankFacts| u64::from(facts.bad));
    let header = header(alloc)?;
    let end = match reopen(alloc, &header, &mut old, &mut journal, &rank) {
        Ok(world) => format!(in alloc; "{} events", world.events())?,
        Err(end) => end_text(alloc, end)?,
    };
    Ok((end, String::from_utf8_lossy(alloc, journal.written())?))
}

/// Compares how reopening ended, and what was written, with what is wanted.
fn expect(
    rt: &(impl Abort + AllocGlobal),
    run: Old<'_>,
    end: &str,
    written: &str,
) -> Result<(), Fail> {
    let (came, text) = outcome(rt.alloc(), run)?;
    assert_eq!(rt; came.as_str(), end);
    assert_eq!(rt; text.as_str(), written);
    Ok(())
}

#[test]
fn an_empty_journal_gets_the_header(rt: HostRuntime) -> Result<(), Fail> {
    expect(&rt, EMPTY, "0 events", HEADER)
}

#[test]
fn a_whole_journal_gets_nothing(rt: HostRuntime) -> Result<(), Fail> {
    for piece in [None, Some(1), Some(7)] {
        let run = Old {
            parts: &[HEADER, EVENTS],
            piece,
            ..EMPTY
        };
        expect(&rt, run, "4 events", "")?;
    }
    Ok(())
}

#[test]
fn a_journal_that_ends_inside_its_header(rt: HostRuntime) -> Result<(), Fail> {
    let run = Old {
        parts: &["scfs 1\nf 1\nlease 100\nstale 0\n"],
        ..EMPTY
    };
    let rest =
        "agent 0 blocking 0000000000000000000000000000000000000000000000000000000000000000\nbegin\n";
    expect(&rt, run, "0 events", rest)?;
    let unfinished = Old {
        parts: &["scfs 1\nf 1\nlease 100\nstale 0\nagent 0 blo"],
        ..EMPTY
    };
    let marked =
        "~\nagent 0 blocking 0000000000000000000000000000000000000000000000000000000000000000\nbegin\n";
    expect(&rt, unfinished, "0 events", marked)
}

#[test]
fn a_journal_that_ends_inside_an_event(rt: HostRuntime) -> Result<(), Fail> {
    let lines_missing = Old {
        parts: &[HEADER, "call 0 create /a\nspace 0\n"],
        ..EMPTY
    };
    expect(&rt, lines_missing, "2 events", " 2 changed 0.0.1\n")?;
    let unfinished = Old {
        parts: &[HEADER, "call 0 create /a\nspace 0\n 2 chan"],
        ..EMPTY
    };
    expect(&rt, unfinished, "2 events", "~\n 2 changed 0.0.1\n")
}

#[test]
fn an_unfinished_event_is_none(rt: HostRuntime) -> Result<(), Fail> {
    for piece in [None, Some(1)] {
        let run = Old {
            parts: &[HEADER, "call 0 create /a\nspace 0"],
            piece,
            ..EMPTY
        };
        expect(&rt, run, "1 events", "~\n")?;
    }
    Ok(())
}

#[test]
fn lines_that_are_left_out(rt: HostRuntime) -> Result<(), Fail> {
    let in_header = Old {
        parts: &[
            "scf~\n",
            HEADER,
            "call~\n~\ncall 0 create /a\nspace 0\n 2 ch~\n",
        ],
        ..EMPTY
    };
    expect(&rt, in_header, "2 events", " 2 changed 0.0.1\n")?;
    let counted = Old {
        parts: &["~\n", HEADER, "call 0 create /a\n ~\nspace\n"],
        ..EMPTY
    };
    expect(&rt, counted, "bad 10 Word", "")
}

#[test]
fn a_line_that_differs(rt: HostRuntime) -> Result<(), Fail> {
    let line = Old {
        parts: &[
            HEADER,
            "call 0 create /a\nspace 0\n 2 changed 0.0.1\ntold 0\n 3 ok 0 create 2\n",
        ],
        ..EMPTY
    };
    expect(
        &rt,
        line,
        "differs 11, kept 3 ok 0 create 2, made 3 ok 0 create 1",
        "",
    )?;
    let header = Old {
        parts: &["scfs 1\n f 1\n"],
        ..EMPTY
    };
    expect(&rt, header, "differs 2, kept  f 1, made f 1", "")?;
    let marked = Old {
        parts: &["~\nscfs 1\n\n"],
        ..EMPTY
    };
    expect(&rt, marked, "differs 3, kept , made f 1", "")
}

#[test]
fn lines_too_few_and_too_many(rt: HostRuntime) -> Result<(), Fail> {
    let too_few = Old {
        parts: &[HEADER, "call 0 create /a\nspace 0\ntold 0\n"],
        ..EMPTY
    };
    expect(&rt, too_few, "differs 9, kept -, made 2 changed 0.0.1", "")?;
    let too_many = Old {
        parts: &[HEADER, "call 0 create /a\n 1 skip\n"],
        ..EMPTY
    };
    expect(&rt, too_many, "differs 8, kept 1 skip, made -", "")?;
    let before_events = Old {
        parts: &[HEADER, " 1 skip\n"],
        ..EMPTY
    };
    expect(&rt, before_events, "differs 7, kept 1 skip, made -", "")
}

#[test]
fn lines_that_are_not_allowed(rt: HostRuntime) -> Result<(), Fail> {
    for (line, end) in [
        ("end\n", "bad 7 Word"),
        ("\n", "bad 7 Word"),
        ("space 1\n", "bad 7 Number"),
        ("call 0 create a~~\n", "0 events"),
        ("call 0 create ~a\n", "bad 7 Path"),
        ("call 0 write 1 0 f\n", "bad 7 Hex"),
        ("call 0 sync\n", "unbuilt 7"),
    ] {
        let run = Old {
            parts: &[HEADER, line],
            ..EMPTY
        };
        expect(&rt, run, end, "")?;
    }
    let behind_missing_lines = Old {
        parts: &[HEADER, "call 0 create /a\nspace 0\nend\n"],
        ..EMPTY
    };
    expect(&rt, behind_missing_lines, "bad 9 Word", "")?;
    let unbuilt_behind_missing_lines = Old {
        parts: &[HEADER, "call 0 create /a\nspace 0\ncall 0 sync\n"],
        ..EMPTY
    };
    expect(&rt, unbuilt_behind_missing_lines, "unbuilt 9", "")
}

#[test]
fn reads_and_writes_that_fail(rt: HostRuntime) -> Result<(), Fail> {
    let first_read = Old {
        parts: &[HEADER, EVENTS],
        failing_read: Some(1),
        ..EMPTY
    };
    expect(&rt, first_read, "read fault Journal", "")?;
    let last_read = Old {
        failing_read: Some(2),
        ..first_read
    };
    expect(&rt, last_read, "read fault Journal", "")?;
    let mark = Old {
        parts: &[HEADER, "call 0 create /a\nspace 0\n 2"],
        failing_write: Some(1),
        ..EMPTY
    };
    expect(&rt, mark, "write fault Journal", "")?;
    let rest = Old {
        failing_write: Some(2),
        ..mark
    };
    expect(&rt, rest, "write fault Journal", "~\n")
}

#[test]
fn a_line_that_is_too_long(rt: HostRuntime) -> Result<(), Fail> {
    let mut long = String::new(rt.alloc());
    for _ in 0..1_048_577 {
        long.push_str("x")?;
    }
    let run = Old {
        parts: &[HEADER, "call 0 create /a\n", long.as_str()],
        ..EMPTY
    };
    expect(&rt, run, "too large Line", "")
}
