use crate::scripted::{Ended, Failing, SCRIPT, run_script, schedule_in, script};
use crate::tests::{REPLAY, Run, outcome};
use scfs_base::Bytes;
use scfs_top::Status;
use std::alloc::Global;
use std::process::Abort;
use std::test::Fail;

// Runs that something stops, and what goes on from what they left.

/// More calls than any of the runs makes.
const CALLS: u64 = 40;

/// The worked run with this failing.
fn stopped(alloc: Global, failing: Failing) -> Result<Ended, Fail> {
    let text = script(alloc, SCRIPT)?;
    run_script(alloc, text.as_slice(), b"", failing)
}

/// What a run left goes on with no further event of a script: it ends well; and then nothing is missing, and the journal is a
/// schedule of as many events.
fn expect_going_on(rt: &(impl Abort + AllocGlobal), journal: &[u8]) -> Result<(), Fail> {
    let alloc = rt.alloc();
    let text = script(alloc, "")?;
    let first = run_script(alloc, text.as_slice(), journal, Failing::Nothing)?;
    assert_eq!(rt; first.status, Status::Done);
    let mut whole = Bytes::from_slice(alloc, journal)?;
    whole.extend(first.journal.written())?;
    let again = run_script(alloc, text.as_slice(), whole.as_slice(), Failing::Nothing)?;
    assert_eq!(rt; again.status, Status::Done);
    assert_eq!(rt; again.journal.written(), b"".as_slice());
    let schedule = schedule_in(alloc, whole.as_slice())?;
    let replay = Run {
        words: &["replay"],
        input: &[schedule.as_str()],
        ..REPLAY
    };
    let (status, transcript) = outcome(alloc, replay)?;
    assert_eq!(rt; status, Status::Done);
    let stop = again.out.written();
    assert!(rt; transcript.as_str().as_bytes().ends_with(stop));
    assert!(rt; stop.starts_with(b"stop 0 "));
    Ok(())
}

/// A run that stopped so: journal and out got fronts of what a whole run writes, out with this last line; and what it left goes on.
fn expect_front(
    rt: &(impl Abort + AllocGlobal),
    whole: &Ended,
    ran: &Ended,
    last: &[u8],
) -> Result<(), Fail> {
    assert!(rt; whole.journal.written().starts_with(ran.journal.written()));
    match ran.out.written().strip_suffix(last) {
        Some(lines) => assert!(rt; whole.out.written().starts_with(lines)),
        None => panic!(rt; "another last line"),
    }
    expect_going_on(rt, ran.journal.written())
}

// Each read of the script fails in turn, until all of it was read.
#[test]
fn each_read_of_the_script_fails(rt: HostRuntime) -> Result<(), Fail> {
    let whole = stopped(rt.alloc(), Failing::Nothing)?;
    let mut done = false;
    for call in 1..=CALLS {
        let ran = stopped(rt.alloc(), Failing::Input(call))?;
        match ran.status {
            Status::ReadFault => {
                assert!(rt; !done);
                expect_front(&rt, &whole, &ran, b"stop 4 input\n")?;
            }
            status => {
                assert_eq!(rt; status, Status::Done);
                assert_eq!(rt; ran.out.written(), whole.out.written());
                done = true;
            }
        }
    }
    assert!(rt; done);
    Ok(())
}

// Each read of the old journal fails in turn, also the one that tells its end: nothing is written then.
#[test]
fn each_read_of_the_old_journal_fails(rt: HostRuntime) -> Result<(), Fail> {
    let alloc = rt.alloc();
    let whole = stopped(alloc, Failing::Nothing)?;
    let old = whole.journal.written();
    let reads = (old.len() as u64 + 15) / 16 + 1;
    let text = script(alloc, "")?;
    for call in 1..=reads + 1 {
        let ran = run_script(alloc, text.as_slice(), old, Failing::Old(call))?;
        let last: &[u8] = if call <= reads {
            b"stop 4 journal\n"
        } else {
            b"stop 0 18\n"
        };
        assert_eq!(rt; ran.out.written(), last);
        assert_eq!(rt; ran.journal.written(), b"".as_slice());
    }
    Ok(())
}

// Each write to out fails in turn: one for each of 16 events with lines, and one for the last line. The journal has the event's piece, and
// no further one.
#[test]
fn each_write_to_out_fails(rt: HostRuntime) -> Result<(), Fail> {
    let whole = stopped(rt.alloc(), Failing::Nothing)?;
    for call in 1..=18 {
        let ran = stopped(rt.alloc(), Failing::Out(call))?;
        let status = if call <= 17 {
            Status::WriteFault
        } else {
            Status::Done
        };
        assert_eq!(rt; ran.status, status);
        expect_front(&rt, &whole, &ran, b"")?;
    }
    Ok(())
}

// Each write to the journal fails in turn: out has no line of its event. The header is one piece, and each event another.
#[test]
fn each_write_to_the_journal_fails(rt: HostRuntime) -> Result<(), Fail> {
    let whole = stopped(rt.alloc(), Failing::Nothing)?;
    for call in 1..=20 {
        let ran = stopped(rt.alloc(), Failing::Journal(call))?;
        let status = if call <= 19 {
            Status::WriteFault
        } else {
            Status::Done
        };
        assert_eq!(rt; ran.status, status);
        expect_front(&rt, &whole, &ran, b"")?;
    }
    Ok(())
}

// A cloud fails its one call: the close has three others.
#[test]
fn a_call_of_a_cloud_fails(rt: HostRuntime) -> Result<(), Fail> {
    let whole = stopped(rt.alloc(), Failing::Nothing)?;
    for cloud in 0..4 {
        for call in 1..=2 {
            let ran = stopped(rt.alloc(), Failing::Cloud(cloud, call))?;
            assert_eq!(rt; ran.status, Status::Done);
            assert!(rt;
                ran.out
                    .written()
                    .ends_with(b"\n18 closed 0 1 1\nstop 0 18\n")
            );
            let same = ran.journal.written() == whole.journal.written();
            assert_eq!(rt; same, call == 2);
            expect_going_on(&rt, ran.journal.written())?;
        }
    }
    Ok(())
}

// The journal of the worked run ends anywhere: what is left goes on.
#[test]
fn each_front_of_a_journal_goes_on(rt: HostRuntime) -> Result<(), Fail> {
    let whole = stopped(rt.alloc(), Failing::Cloud(2, 1))?;
    let journal = whole.journal.written();
    for end in 0..=journal.len() {
        expect_going_on(&rt, &journal[..end])?;
    }
    Ok(())
}
