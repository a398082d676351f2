use crate::malformed::repeated;
use scfs_base::{Bytes, MemSink, MemSource, Memory};
use scfs_cloud::MemCloud;
use scfs_policy::{RankFacts, RankRule};
use scfs_top::{Status, scfs};
use std::alloc::Global;
use std::process::Abort;
use std::test::Fail;

pub const HEADER: &str = "scfs 1\nf 1\nlease 100\nstale 0\n\
    agent 0 blocking 0000000000000000000000000000000000000000000000000000000000000000\nbegin\n";

const EVENTS: &str = "call 0 create /a\nspace 0\ntold 0\ncall 0 stat /a\nspace 0\ntold 0\n";

const TRANSCRIPT: &str =
    "2 changed 0.0.1\n3 ok 0 create 1\n5 looked 0.0.2\n6 ok 0 stat file 1 0 0 fresh\n";

/// A run of the program over memory: what stands on the input, the lengths of the pieces that it is read in, and the numbers
/// of the reads and writes that fail.
#[derive(Clone, Copy)]
pub struct Run<'a> {
    pub words: &'a [&'a str],
    pub input: &'a [&'a str],
    pub piece: Option<u32>,
    pub failing_read: Option<u64>,
    pub failing_write: Option<u64>,
    /// Clouds are ranked by their good answers, in place of their bad ones.
    pub by_good: bool,
}

pub const REPLAY: Run<'static> = Run {
    words: &["replay"],
    input: &[],
    piece: None,
    failing_read: None,
    failing_write: None,
    by_good: false,
};

pub fn one<T: Drop>(alloc: Global, item: Option<T>) -> Result<Vec<T>, Fail> {
    let mut items = Vec::new(alloc);
    if let Some(item) = item {
        items.push(item)?;
    }
    Ok(items)
}

/// The status and the whole output of a run.
pub fn outcome(alloc: Global, run: Run<'_>) -> Result<(Status, String), Fail> {
    let mut words = Vec::new(alloc);
    for word in run.words {
        words.push(String::from_str(alloc, word)?)?;
    }
    let mut text = Bytes::new(alloc);
    for part in run.input {
        text.extend(part.as_bytes())?;
    }
    let mut pieces = Vec::new(alloc);
    if let Some(piece) = run.piece {
        for _ in 0..text.len() {
            pieces.push(piece)?;
        }
    }
    let mut input = MemSource::new(text, pieces, one(alloc, run.failing_read)?);
    let mut out = MemSink::new(alloc, one(alloc, run.failing_write)?);
    let by_good = run.by_good;
    let rank = RankRule::new(|facts: RankFacts| {
        u64::from(if by_good { facts.good } else { facts.bad })
    });
    let mut old = MemSource::new(Bytes::new(alloc), Vec::new(alloc), Vec::new(alloc));
    let mut journal = MemSink::new(alloc, Vec::new(alloc));
    let mut clouds = truthful(alloc, None)?;
    if clouds.len() < 10 {
        return Err(Fail::from(Memory));
    }
    let status = scfs(
        alloc,
        words.as_slice(),
        &mut input,
        &mut old,
        &mut out,
        &mut journal,
        clouds.as_mut_slice(),
        &rank,
    );
    Ok((status, String::from_utf8_lossy(alloc, out.written())?))
}

/// Ten truthful clouds, of which one may fail one of its calls: a cloud and the number of its call.
pub fn truthful(alloc: Global, failing: Option<(usize, u64)>) -> Result<Vec<MemCloud>, Fail> {
    let mut clouds = Vec::new(alloc);
    for number in 0..10 {
        let call = match failing {
            Some((cloud, call)) if cloud == number => Some(call),
            _ => None,
        };
        clouds.push(MemCloud::new(alloc, one(alloc, call)?))?;
    }
    Ok(clouds)
}

/// Compares a run's status and output with what is wanted.
pub fn expect(
    rt: &(impl Abort + AllocGlobal),
    run: Run<'_>,
    status: Status,
    parts: &[&str],
) -> Result<(), Fail> {
    let mut wanted = String::new(rt.alloc());
    for part in parts {
        wanted.push_str(part)?;
    }
    let (came, text) = outcome(rt.alloc(), run)?;
    assert_eq!(rt; text.as_str(), wanted.as_str());
    assert_eq!(rt; came, status);
    Ok(())
}

#[test]
fn creates_a_file_and_asks_for_its_status(rt: HostRuntime) -> Result<(), Fail> {
    for piece in [None, Some(1), Some(64)] {
        let run = Run {
            input: &[HEADER, EVENTS, "end\n"],
            piece,
            ..REPLAY
        };
        expect(&rt, run, Status::Done, &[TRANSCRIPT, "stop 0 6\n"])?;
    }
    Ok(())
}

#[test]
fn stops_where_the_text_ends(rt: HostRuntime) -> Result<(), Fail> {
    let without_end = Run {
        input: &[HEADER, EVENTS],
        ..REPLAY
    };
    expect(
        &rt,
        without_end,
        Status::BadInput,
        &[TRANSCRIPT, "stop 3 input 13 end\n"],
    )?;
    let cut_in_the_header = Run {
        input: &[
            "scfs 1\nf 1\nlease 100\nstale 0\n",
            "agent 0 blocking 0000000000000",
        ],
        ..REPLAY
    };
    expect(
        &rt,
        cut_in_the_header,
        Status::BadInput,
        &["stop 3 input 5 end\n"],
    )?;
    expect(&rt, REPLAY, Status::BadInput, &["stop 3 input 1 end\n"])
}

#[test]
fn stops_at_a_line_that_it_does_not_know(rt: HostRuntime) -> Result<(), Fail> {
    let unknown_call = Run {
        input: &[HEADER, "call 0 crate /a\n", "end\n"],
        ..REPLAY
    };
    expect(
        &rt,
        unknown_call,
        Status::BadInput,
        &["stop 3 input 7 word\n"],
    )
}

fn expect_usage(rt: &(impl Abort + AllocGlobal), words: &[&str]) -> Result<(), Fail> {
    let run = Run {
        words,
        input: &[HEADER, EVENTS, "end\n"],
        ..REPLAY
    };
    expect(rt, run, Status::Usage, &["stop 2 usage\n"])
}

#[test]
fn refuses_other_words(rt: HostRuntime) -> Result<(), Fail> {
    expect_usage(&rt, &["replay", "now"])?;
    expect_usage(&rt, &["dump", "dump"])?;
    expect_usage(&rt, &["play"])?;
    expect_usage(&rt, &["dumps"])?;
    expect_usage(&rt, &[])
}

#[test]
fn a_failing_read_decides_only_before_the_end(rt: HostRuntime) -> Result<(), Fail> {
    let behind_the_end = Run {
        input: &[HEADER, EVENTS, "end\n"],
        failing_read: Some(2),
        ..REPLAY
    };
    expect(
        &rt,
        behind_the_end,
        Status::Done,
        &[TRANSCRIPT, "stop 0 6\n"],
    )?;
    let before_it = Run {
        input: &[HEADER, EVENTS, "end\n"],
        piece: Some(1),
        failing_read: Some(139),
        ..REPLAY
    };
    expect(&rt, before_it, Status::ReadFault, &["stop 4 input\n"])?;
    let at_the_first = Run {
        failing_read: Some(1),
        ..REPLAY
    };
    expect(&rt, at_the_first, Status::ReadFault, &["stop 4 input\n"])
}

#[test]
fn a_failing_write_ends_the_run(rt: HostRuntime) -> Result<(), Fail> {
    let written = [
        "",
        "2 changed 0.0.1\n",
        "2 changed 0.0.1\n3 ok 0 create 1\n",
        "2 changed 0.0.1\n3 ok 0 create 1\n5 looked 0.0.2\n",
        TRANSCRIPT,
    ];
    for (before, text) in written.iter().enumerate() {
        let run = Run {
            input: &[HEADER, EVENTS, "end\n"],
            piece: Some(1),
            failing_write: Some(before as u64 + 1),
            ..REPLAY
        };
        expect(&rt, run, Status::WriteFault, &[text])?;
    }
    Ok(())
}

/// Before each read all lines are written that wait, and the last line is written alone.
#[test]
fn lines_are_written_together_before_a_read(rt: HostRuntime) -> Result<(), Fail> {
    for (piece, writes) in [(None, 2), (Some(64), 2), (Some(10), 3), (Some(1), 5)] {
        let run = Run {
            input: &[HEADER, EVENTS, "end\n"],
            piece,
            failing_write: Some(writes),
            ..REPLAY
        };
        expect(&rt, run, Status::WriteFault, &[TRANSCRIPT])?;
        let one_more = Run {
            failing_write: Some(writes + 1),
            ..run
        };
        expect(&rt, one_more, Status::Done, &[TRANSCRIPT, "stop 0 6\n"])?;
    }
    Ok(())
}

/// Lines are written once they are 65,536 bytes: 6,665 lines are the first that are so long. The first 65,536 bytes of the input
/// end in the 9,346th event's line.
#[test]
fn lines_wait_for_a_piece_at_most(rt: HostRuntime) -> Result<(), Fail> {
    let events = repeated(rt.alloc(), "told 0\n", 10_000)?;
    let text = format!(in rt.alloc(); "{HEADER}{events}end\n")?;
    for (failing, status, last) in [
        (2, Status::WriteFault, "\n6665 skip\n"),
        (3, Status::WriteFault, "\n9345 skip\n"),
        (4, Status::WriteFault, "\n10000 skip\n"),
        (5, Status::Done, "\n10000 skip\nstop 0 10000\n"),
    ] {
        let run = Run {
            words: &["replay"],
            input: &[text.as_str()],
            failing_write: Some(failing),
            ..REPLAY
        };
        let (came, written) = outcome(rt.alloc(), run)?;
        assert!(&rt; written.as_str().ends_with(last));
        assert_eq!(&rt; came, status);
    }
    Ok(())
}

#[test]
fn refuses_calls_and_steps(rt: HostRuntime) -> Result<(), Fail> {
    let run = Run {
        input: &[
            HEADER,
            "space 0\ntold 0\ncall 0 stat /b\ncall 0 create /b\nspace 0\ntold 0\n",
            "call 0 create /b\nspace 0\ntold 0\ncall 0 create /b\nspace 0\ntold 0\nend\n",
        ],
        ..REPLAY
    };
    let lines =
        "1 skip\n2 skip\n4 no 0 1 Busy\n5 refused 0.0.1 3 NoEntry\n6 no 0 3 NoEntry\n8 changed 0.0.2\n\
        9 ok 0 create 1\n11 refused 0.0.3 4 Exists\n12 no 0 4 Exists\nstop 0 12\n";
    expect(&rt, run, Status::Done, &[lines])
}
