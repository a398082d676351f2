//! Lines and headers that are not allowed, each with its kind and its line, and the limits of a text.

use crate::tests::{HEADER, REPLAY, Run, outcome};
use scfs_top::Status;
use std::alloc::Global;
use std::process::Abort;
use std::test::Fail;

/// Each is bad behind the header, as a word that is not in its table or as too many or too few words.
const WORDS: [&str; 17] = [
    "",
    " space 0",
    "spaces 0",
    "crash",
    "call",
    "call 0",
    "call 0 crate /a",
    "call 9 crate /a",
    "call x stat",
    "call 0 create",
    "call 0 create /a /b",
    "call 0 create /a ",
    "space 0 ",
    "space  0",
    "Space 0",
    "end now",
    "end ",
];

/// More of them.
const MORE_WORDS: [&str; 12] = [
    "say 0",
    "say 0 nothing",
    "say 9 nothing",
    "say 0 ack 1",
    "say 0 bytes",
    "say 0 names /a /a /a /a /a /a /a /a /a /a /a /a /a /a /a /a /a",
    "call 0 open /a",
    "call 0 open /a x",
    "call 0 sync now",
    "tick",
    "tick 1 2",
    "call 0 grant /a 0 r",
];

const NUMBERS: [&str; 19] = [
    "space ",
    "space 1",
    "space 01",
    "space -1",
    "space +0",
    "space x",
    "serve 4",
    "say 4 ack",
    "tick 0",
    "tick 1000000001",
    "tick 18446744073709551616",
    "call 1 stat /a",
    "call 00 stat /a",
    "call 0 read 1 00 1",
    "call 0 read 1 18446744073709551616 1",
    "call 0 write x 0 -",
    "call 0 truncate 1 1.5",
    "call 0 close 0x1",
    "call 0 openat /a 01",
];

const HEX_WORDS: [&str; 5] = [
    "call 0 write 1 0 0F",
    "call 0 write 1 0 0",
    "call 0 write 1 0 ",
    "call 0 write 1 0 --",
    "say 0 bytes 0g",
];

const PATHS: [&str; 10] = [
    "call 0 create ",
    "call 0 stat /%C3",
    "call 0 stat /%41",
    "call 0 stat /%7",
    "call 0 stat /\u{e9}",
    "call 0 stat %%",
    "call 0 list /~",
    "call 0 rename /a /%zz",
    "call 0 openat /%2f x",
    "say 0 names /%2F",
];

/// Each is in form, and the program can't do it yet.
const UNBUILT: [&str; 10] = [
    "call 0 mkdir /a",
    "call 0 rmdir /a",
    "call 0 unlink /a",
    "call 0 list /",
    "call 0 rename /a /b",
    "call 0 openat /a 1",
    "call 0 sync",
    "call 0 versions /a",
    "call 0 collect /a",
    "call 0 purge",
];

/// The beginning of a text, the line at which it stops, and the kind.
const HEADERS: [(&str, u64, &str); 15] = [
    ("scfs 2\n", 1, "number"),
    ("scfs 01\n", 1, "number"),
    ("scfs\n", 1, "word"),
    ("scfs 1 1\n", 1, "word"),
    (" scfs 1\n", 1, "order"),
    ("\n", 1, "order"),
    ("f 1\n", 1, "order"),
    ("scfs 1", 1, "end"),
    ("scfs 1\nf 0\n", 2, "number"),
    ("scfs 1\nf 4\n", 2, "number"),
    ("scfs 1\nf 1 2\n", 2, "word"),
    ("scfs 1\nlease 1\n", 2, "order"),
    ("scfs 1\nf 1\nlease 0\n", 3, "number"),
    ("scfs 1\nf 1\nlease 1000000001\n", 3, "number"),
    ("scfs 1\nf 1\nlease 1\nstale 1000000001\n", 4, "number"),
];

const AGENTS: [(&str, u64, &str); 10] = [
    ("scfs 1\nf 1\nlease 100\nstale 0\nbegin\n", 5, "order"),
    (
        "scfs 1\nf 1\nlease 100\nstale 0\nagent 1 blocking 0000000000000000000000000000000000000000000000000000000000000000\n",
        5,
        "number",
    ),
    (
        "scfs 1\nf 1\nlease 100\nstale 0\nagent 0 lazy 0000000000000000000000000000000000000000000000000000000000000000\n",
        5,
        "word",
    ),
    (
        "scfs 1\nf 1\nlease 100\nstale 0\nagent 0 blocking 00\n",
        5,
        "hex",
    ),
    (
        "scfs 1\nf 1\nlease 100\nstale 0\nagent 0 blocking\n",
        5,
        "word",
    ),
    (
        "scfs 1\nf 1\nlease 100\nstale 0\nagent 0 blocking 0000000000000000000000000000000000000000000000000000000000000000\nend\n",
        6,
        "order",
    ),
    (
        "scfs 1\nf 1\nlease 100\nstale 0\nagent 0 blocking 0000000000000000000000000000000000000000000000000000000000000000\nbegin x\n",
        6,
        "word",
    ),
    (
        "scfs 1\nf 1\nlease 100\nstale 0\nagent 0 private 0000000000000000000000000000000000000000000000000000000000000000\nbegin\n",
        6,
        "unbuilt",
    ),
    (
        "scfs 1\nf 1\nlease 100\nstale 7\nagent 0 blocking 0000000000000000000000000000000000000000000000000000000000000000\nbegin\n",
        6,
        "unbuilt",
    ),
    (
        "scfs 1\nf 1\nlease 100\nstale 0\n\
         agent 0 blocking 0000000000000000000000000000000000000000000000000000000000000000\n\
         agent 1 nonblocking 0000000000000000000000000000000000000000000000000000000000000000\nbegin\n",
        7,
        "unbuilt",
    ),
];

/// The status and the whole output of a run over this text.
fn replayed(alloc: Global, text: &str) -> Result<(Status, String), Fail> {
    let run = Run {
        words: &["replay"],
        input: &[text],
        ..REPLAY
    };
    outcome(alloc, run)
}

/// A run over this text stops at this line with this kind.
fn stops(rt: &(impl Abort + AllocGlobal), text: &str, line: u64, kind: &str) -> Result<(), Fail> {
    let last = format!(in rt.alloc(); "stop 3 input {line} {kind}\n")?;
    let (status, out) = replayed(rt.alloc(), text)?;
    assert_eq!(rt; out.as_str(), last.as_str());
    assert_eq!(rt; status, Status::BadInput);
    Ok(())
}

/// Each of these lines stops a run behind the header.
fn all_stop(rt: &(impl Abort + AllocGlobal), lines: &[&str], kind: &str) -> Result<(), Fail> {
    for line in lines {
        let text = format!(in rt.alloc(); "{HEADER}{line}\nend\n")?;
        stops(rt, text.as_str(), 7, kind)?;
    }
    Ok(())
}

#[test]
fn wrong_words(rt: HostRuntime) -> Result<(), Fail> {
    all_stop(&rt, &WORDS, "word")?;
    all_stop(&rt, &MORE_WORDS, "word")
}

#[test]
fn words_out_of_form(rt: HostRuntime) -> Result<(), Fail> {
    all_stop(&rt, &NUMBERS, "number")?;
    all_stop(&rt, &HEX_WORDS, "hex")?;
    all_stop(&rt, &PATHS, "path")
}

#[test]
fn what_can_not_be_done_yet(rt: HostRuntime) -> Result<(), Fail> {
    all_stop(&rt, &UNBUILT, "unbuilt")
}

#[test]
fn wrong_headers(rt: HostRuntime) -> Result<(), Fail> {
    for (text, line, kind) in HEADERS {
        stops(&rt, text, line, kind)?;
    }
    for (text, line, kind) in AGENTS {
        stops(&rt, text, line, kind)?;
    }
    Ok(())
}

/// This line a number of times.
pub fn repeated(alloc: Global, line: &str, times: u32) -> Result<String, Fail> {
    let mut text = String::new(alloc);
    for _ in 0..times {
        text.push_str(line)?;
    }
    Ok(text)
}

/// A run whose text passes a limit behind the header, and how its output ends.
fn passes(rt: &(impl Abort + AllocGlobal), rest: &str, last: &str) -> Result<(), Fail> {
    let text = format!(in rt.alloc(); "{HEADER}{rest}")?;
    let (status, out) = replayed(rt.alloc(), text.as_str())?;
    assert!(rt; out.as_str().ends_with(last));
    assert_eq!(rt; status, Status::TooLarge);
    Ok(())
}

#[test]
fn a_line_that_is_too_long(rt: HostRuntime) -> Result<(), Fail> {
    let line = repeated(rt.alloc(), "a", 1_048_577)?;
    passes(&rt, line.as_str(), "stop 6 line\n")
}

#[test]
fn a_line_that_is_just_short_enough(rt: HostRuntime) -> Result<(), Fail> {
    let line = repeated(rt.alloc(), "a", 1_048_576)?;
    let text = format!(in rt.alloc(); "{HEADER}{line}\n")?;
    stops(&rt, text.as_str(), 7, "word")
}

#[test]
fn one_event_more_than_a_run_may_have(rt: HostRuntime) -> Result<(), Fail> {
    let events = repeated(rt.alloc(), "told 0\n", 1_000_001)?;
    passes(&rt, events.as_str(), "1000000 skip\nstop 6 events\n")
}

#[test]
fn an_input_that_is_too_long(rt: HostRuntime) -> Result<(), Fail> {
    let name = repeated(rt.alloc(), "a", 255)?;
    let line = format!(in rt.alloc(); "call 0 stat /{name}\n")?;
    let events = repeated(rt.alloc(), line.as_str(), 251_000)?;
    passes(&rt, events.as_str(), "no 0 1 Busy\nstop 6 input\n")
}

/// A close of 65,536 bytes leaves Puts of 32,937 bytes in the queues; each copy of one carries 64 bytes more.
#[test]
fn more_bytes_than_a_run_may_carry(rt: HostRuntime) -> Result<(), Fail> {
    let copies = repeated(rt.alloc(), "again 0\n", 16_270)?;
    let events = format!(in rt.alloc();
        "call 0 create /a\nspace 0\ntold 0\ncall 0 open /a w\nspace 0\ntold 0\n\
        call 0 truncate 1 65536\ncall 0 close 1\n{copies}end\n"
    )?;
    passes(&rt, events.as_str(), "stop 6 objects\n")
}
