use crate::rows::{BEGIN, CLOSE, PAIR};
use crate::tests::{HEADER, REPLAY, Run, expect};
use scfs_top::Status;
use std::test::Fail;

// Dumps. The roots and digests were worked out by another implementation of the sealed unit.

const DUMP: Run<'static> = Run {
    words: &["dump"],
    ..REPLAY
};

/// Agent 1 makes a file with a quote and a backslash in its name, and closes it once.
const BESIDE: &str = "\
    tick 3\ncall 1 create /\"b\\c%20\nspace 1\ntold 1\ncall 1 open /\"b\\c%20 w\nspace 1\ntold 1\n\
    call 1 write 1 0 627965\ncall 1 close 1\nserve 0\nserve 1\nserve 2\nserve 3\ngive 0\ngive 1\n\
    give 2\ngive 3\nspace 1\ntold 1\n";

/// Agent 0 opens the file that it made, writes behind its contents and closes.
const AGAIN: &str = "\
    call 0 open /a w\nspace 0\ntold 0\nserve 0\ngive 0\nserve 1\ngive 1\ncall 0 write 2 2 2121\n\
    call 0 close 2\n";

const TREE: &str = "\
    {\"clock\":12,\"nodes\":[{\"id\":1,\"kind\":\"file\",\"length\":4,\"name\":\"a\",\"newest\":2,\
    \"parent\":1152921504606846976},{\"id\":72057594037927937,\"kind\":\"file\",\"length\":3,\
    \"name\":\"\\\"b\\\\c%20\",\"newest\":1,\"parent\":1152921504606846976}],\
    \"versions\":[{\"agent\":0,\
    \"content\":\"76a9b75cfbd6b4f10ea0a7cfd0f170c720f092cacd4e1ee75c137f03d088b5de\",\"count\":1,\
    \"id\":1,\"incarnation\":0,\"length\":2,\"number\":1,\
    \"root\":\"0f92cb4bb1c463003225171107d04b3b191ee6ad7e182319e5b8a89a5b8f82b9\",\"time\":7},\
    {\"agent\":0,\"content\":\"373f1ac69a73e13f506da19969d316d340fa91aa137435467309f06bbb3067ab\",\
    \"count\":2,\"id\":1,\"incarnation\":0,\"length\":4,\"number\":2,\
    \"root\":\"c13259707e64235628c39bc3bd2c7df035a0e0c40156c492e87ced49563adec0\",\"time\":12},\
    {\"agent\":1,\"content\":\"ba0a48da93009a92320fae8e5188f12e2598e40fc0d37026523e4843b3aeb162\",\
    \"count\":1,\"id\":72057594037927937,\"incarnation\":0,\"length\":3,\"number\":1,\
    \"root\":\"4f98e50f56bc695e8a41dba0598a56e8e0e7a694445a645df15931322c7b2cf7\",\"time\":3}]}\n";

// The file of the lower id comes first, though its versions were committed later.
#[test]
fn two_files_and_three_versions(rt: HostRuntime) -> Result<(), Fail> {
    for piece in [None, Some(7)] {
        let run = Run {
            input: &[
                PAIR, BESIDE, "tick 4\n", BEGIN, CLOSE, "tick 5\n", AGAIN, CLOSE, "end\n",
            ],
            piece,
            ..DUMP
        };
        expect(&rt, run, Status::Done, &[TREE, "stop 0 58\n"])?;
    }
    Ok(())
}

const EMPTY: &str = "{\"clock\":0,\"nodes\":[],\"versions\":[]}\n";

#[test]
fn nothing_but_the_clock(rt: HostRuntime) -> Result<(), Fail> {
    let run = Run {
        input: &[HEADER, "end\n"],
        ..DUMP
    };
    expect(&rt, run, Status::Done, &[EMPTY, "stop 0 0\n"])
}

// Behind a run that did not come to the end of its text stands the last line alone.
#[test]
fn no_dump_of_a_run_that_stopped(rt: HostRuntime) -> Result<(), Fail> {
    let bad = Run {
        input: &[PAIR, BEGIN, "serve 4\nend\n"],
        ..DUMP
    };
    expect(&rt, bad, Status::BadInput, &["stop 3 input 16 number\n"])?;
    let unread = Run {
        input: &[PAIR, BEGIN, "end\n"],
        piece: Some(1),
        failing_read: Some(300),
        ..DUMP
    };
    expect(&rt, unread, Status::ReadFault, &["stop 4 input\n"])?;
    expect(&rt, DUMP, Status::BadInput, &["stop 3 input 1 end\n"])
}

// All is written at once, and nothing before it.
#[test]
fn one_write_of_all(rt: HostRuntime) -> Result<(), Fail> {
    let run = Run {
        input: &[HEADER, "end\n"],
        piece: Some(1),
        failing_write: Some(1),
        ..DUMP
    };
    expect(&rt, run, Status::WriteFault, &[""])?;
    let one_more = Run {
        failing_write: Some(2),
        ..run
    };
    expect(&rt, one_more, Status::Done, &[EMPTY, "stop 0 0\n"])
}
