ghost use Rattle.std.specs.Prelude.{◌≤◌, length};
ghost use Rattle.scfs_base.specs.Limits.{contents_limit};

use crate::{CONTENTS_LIMIT, Sessions};
use scfs_base::{Bytes, FileId, Memory};
use scfs_schedule::Refusal;
use std::alloc::Global;
use std::test::Fail;

/// A call at a session.
#[derive(Clone, Copy)]
enum Try<'a> {
    Read(u64, u64),
    Write(u64, &'a [u8]),
    Truncate(u64),
}

/// Session 1 of file 7, from its version 3, with these contents.
fn opened(alloc: Global, writes: bool, contents: &[u8]) -> Result<Sessions, Memory>
    requires { length contents.now ≤ contents_limit }
{
    let contents = Bytes::from_slice(alloc, contents)?;
    let mut sessions = Sessions::new(alloc)?;
    sessions.add(1, FileId(7), 3, writes, contents)?;
    Ok(sessions)
}

/// The length that a call answers, of the bytes that it read or of the contents that it left, or its refusal.
fn answer(
    sessions: &mut Sessions,
    session: u64,
    call: Try<'_>,
) -> Result<Result<u32, Refusal>, Memory> {
    match call {
        Try::Read(offset, count) => match sessions.read(session, offset, count)? {
            Ok(bytes) => Ok(Ok(bytes.len().min(70_000) as u32)),
            Err(refusal) => Ok(Err(refusal)),
        },
        Try::Write(offset, bytes) => sessions.write(session, offset, bytes),
        Try::Truncate(length) => sessions.truncate(session, length),
    }
}

/// The first of these calls at a session, counted from 0, that answers otherwise.
fn first_wrong(
    sessions: &mut Sessions,
    session: u64,
    calls: &[(Try<'_>, Result<u32, Refusal>)],
) -> Result<Option<usize>, Memory> {
    for (place, (call, wanted)) in calls.iter().enumerate() {
        if answer(sessions, session, *call)? != *wanted {
            return Ok(Some(place));
        }
    }
    Ok(None)
}

/// Whether a session of that number has these contents.
fn has(sessions: &Sessions, session: u64, contents: &[u8]) -> Result<bool, Memory> {
    match sessions.read(session, 0, 65_536)? {
        Ok(bytes) => Ok(bytes.as_slice() == contents),
        Err(_) => Ok(false),
    }
}

#[test]
fn the_contents_end_at_their_limit(rt: HostRuntime) -> Result<(), Fail> {
    let mut sessions = opened(rt.alloc(), true, b"")?;
    let calls = [
        (Try::Write(65_535, b"0".as_slice()), Ok(65_536)),
        (Try::Write(65_536, b"0".as_slice()), Err(Refusal::TooLong)),
        (Try::Truncate(65_537), Err(Refusal::TooLong)),
        (Try::Write(65_536, b"".as_slice()), Ok(65_536)),
        (Try::Read(65_535, 5), Ok(1)),
        (Try::Read(u64::MAX, 65_536), Ok(0)),
        (Try::Read(0, 65_537), Err(Refusal::TooLong)),
        (Try::Write(u64::MAX, b"0".as_slice()), Err(Refusal::TooLong)),
    ];
    assert_eq!(rt; first_wrong(&mut sessions, 1, &calls)?, None);
    Ok(())
}

#[test]
fn refusals_come_in_their_order(rt: HostRuntime) -> Result<(), Fail> {
    let mut sessions = opened(rt.alloc(), false, b"abc")?;
    let reading = [
        (Try::Write(65_536, b"0".as_slice()), Err(Refusal::ReadOnly)),
        (Try::Truncate(65_537), Err(Refusal::ReadOnly)),
        (Try::Read(1, 1), Ok(1)),
    ];
    assert_eq!(rt; first_wrong(&mut sessions, 1, &reading)?, None);
    let missing = [
        (Try::Write(65_536, b"0".as_slice()), Err(Refusal::BadHandle)),
        (Try::Truncate(65_537), Err(Refusal::BadHandle)),
        (Try::Read(0, 65_537), Err(Refusal::BadHandle)),
    ];
    assert_eq!(rt; first_wrong(&mut sessions, 2, &missing)?, None);
    assert!(rt; has(&sessions, 1, b"abc")?);
    Ok(())
}

#[test]
fn changes_leave_these_contents(rt: HostRuntime) -> Result<(), Fail> {
    let mut sessions = opened(rt.alloc(), true, b"abcd")?;
    for (call, contents) in [
        (Try::Write(1, b"XY".as_slice()), b"aXYd".as_slice()),
        (Try::Write(6, b"z".as_slice()), b"aXYd\0\0z".as_slice()),
        (Try::Truncate(2), b"aX".as_slice()),
        (Try::Truncate(4), b"aX\0\0".as_slice()),
        (Try::Write(3, b"qr".as_slice()), b"aX\0qr".as_slice()),
        (Try::Write(9, b"".as_slice()), b"aX\0qr".as_slice()),
    ] {
        assert!(rt; answer(&mut sessions, 1, call)?.is_ok());
        assert!(rt; has(&sessions, 1, contents)?);
    }
    Ok(())
}

#[test]
fn a_session_ends_once(rt: HostRuntime) -> Result<(), Fail> {
    let mut sessions = opened(rt.alloc(), true, b"abc")?;
    assert_eq!(rt; sessions.len(), 1);
    let left = sessions.take(1).ok().ok_or("no session")?;
    assert_eq!(rt; (left.id, left.base, left.writes), (FileId(7), 3, true));
    assert_eq!(rt; left.contents.as_slice(), b"abc".as_slice());
    assert!(rt; sessions.take(1).is_err());
    assert_eq!(rt; sessions.len(), 0);
    Ok(())
}
