//! Readings of a unit on four clouds, of which two good answers are enough.

ghost use Rattle.std.specs.Prelude.{◌≡◌, ◌≢◌, ◌<◌, ◌≤◌, IfOk, Some};

use super::*;
use scfs_base::{Bytes, CloudAnswer, Memory};
use scfs_stream::draw;
use scfs_unit::{Sealed, seal};
use std::alloc::Global;
use std::test::Fail;

// A unit of two bytes.
fn unit(alloc: Global) -> Result<Sealed, Memory> {
    seal(alloc, 1, &draw(&[5; 32], 1), b"hi")
}

// A reading of it, as if it had this length, that ends at the turn `turns`.
fn reading(alloc: Global, length: u32, turns: u8) -> Result<ReadTracker, Memory>
    requires size { length ≤ 1048576 }
    requires turns { turns ≢ 0 }
    ensures f { IfOk result (λ tracker. tracker.reading.f ≡ 1) }
    ensures left { IfOk result (λ tracker. tracker.left ≡ Some turns) }
{
    let sealed = unit(alloc)?;
    ReadTracker::new(alloc, 1, sealed.root, length, &[2, 0, 1, 3], Some(turns))
}

// What a cloud sends: the object of a cloud, the object of that cloud in another upload, one zero, or no bytes.
#[derive(Clone, Copy)]
enum Sent {
    Object(u8),
    OtherUpload(u8),
    Zero,
    Absent,
}

// The answer with that.
fn answer_with(
    alloc: Global,
    sealed: &Sealed,
    other: &Sealed,
    sent: &Sent,
) -> Result<CloudAnswer, Memory> {
    let object = match sent {
        Sent::Object(cloud) => sealed.objects.get(usize::from(*cloud)),
        Sent::OtherUpload(cloud) => other.objects.get(usize::from(*cloud)),
        Sent::Zero => return Ok(CloudAnswer::Bytes(Bytes::from_slice(alloc, &[0])?)),
        Sent::Absent => None,
    };
    match object {
        Some(bytes) => Ok(CloudAnswer::Bytes(bytes.copy(alloc)?)),
        None => Ok(CloudAnswer::Absent),
    }
}

// What an answer brings, in words; a reading that is whole is told nothing.
fn told(
    alloc: Global,
    tracker: &mut ReadTracker,
    cloud: u8,
    answer: &CloudAnswer,
) -> Result<String, Memory>
    requires f { tracker.old.reading.f ≡ 1 }
    requires cloud { cloud < 4 }
    ensures { IfOk result (λ words. tracker.new.reading.f ≡ 1) }
{
    if tracker.good() > 1 {
        return Ok(String::from_str(alloc, "over")?);
    }
    match tracker.answer(cloud, answer)? {
        ReadStep::Ask(next) => Ok(format!(in alloc; "ask {next}")?),
        ReadStep::Wait => Ok(String::from_str(alloc, "wait")?),
        ReadStep::Whole(bytes) if bytes.as_slice() == b"hi".as_slice() => Ok(String::from_str(
            alloc, "hi",
        )?),
        ReadStep::Whole(_) => Ok(String::from_str(alloc, "other contents")?),
    }
}

// Whether the answers of these clouds bring this, in turn.
fn brings(
    alloc: Global,
    tracker: &mut ReadTracker,
    answers: &[(u8, Sent, &str)],
) -> Result<bool, Memory>
    requires { tracker.old.reading.f ≡ 1 }
{
    let sealed = unit(alloc)?;
    let other = seal(alloc, 1, &draw(&[6; 32], 1), b"ho")?;
    for (cloud, sent, expected) in answers {
        let answer = answer_with(alloc, &sealed, &other, sent)?;
        if *cloud > 3 || told(alloc, tracker, *cloud, &answer)?.as_str() != *expected {
            return Ok(false);
        }
    }
    Ok(true)
}

// Two bad answers of one cloud ask the last two clouds. A repeated and a bad answer of a good cloud bring nothing, and a
// late good answer is the second.
#[test]
fn bad_repeated_and_late_answers(rt: HostRuntime) -> Result<(), Fail> {
    let mut tracker = reading(rt.alloc(), 2, 8)?;
    let answers = [
        (2, Sent::Absent, "ask 1"),
        (2, Sent::Zero, "ask 3"),
        (2, Sent::Absent, "wait"),
        (0, Sent::Object(0), "wait"),
        (0, Sent::Object(0), "wait"),
        (0, Sent::Absent, "wait"),
        (2, Sent::Object(2), "hi"),
    ];
    assert!(rt; brings(rt.alloc(), &mut tracker, &answers)?);
    assert_eq!(rt; tracker.good(), 2);
    assert!(rt; tracker.wants(1) && !tracker.wants(2));
    Ok(())
}

// The objects of another cloud and of another upload are bad.
#[test]
fn other_objects(rt: HostRuntime) -> Result<(), Fail> {
    let mut tracker = reading(rt.alloc(), 2, 8)?;
    let answers = [
        (0, Sent::Object(1), "ask 1"),
        (0, Sent::OtherUpload(0), "ask 3"),
    ];
    assert!(rt; brings(rt.alloc(), &mut tracker, &answers)?);
    Ok(())
}

// So is an object of another length than is read.
#[test]
fn other_length(rt: HostRuntime) -> Result<(), Fail> {
    let mut tracker = reading(rt.alloc(), 3, 8)?;
    let answers = [(0, Sent::Object(0), "ask 1")];
    assert!(rt; brings(rt.alloc(), &mut tracker, &answers)?);
    Ok(())
}

// After a turn every cloud is asked, so a bad answer asks no further one; the second turn is the last.
#[test]
fn turns(rt: HostRuntime) -> Result<(), Fail> {
    let mut tracker = reading(rt.alloc(), 2, 2)?;
    assert_eq!(rt; tracker.turn(), TurnStep::Again);
    let answers = [(2, Sent::Absent, "wait"), (3, Sent::Object(3), "wait")];
    assert!(rt; brings(rt.alloc(), &mut tracker, &answers)?);
    assert_eq!(rt; tracker.good(), 1);
    Ok(())
}

#[test]
fn last_turn(rt: HostRuntime) -> Result<(), Fail> {
    let mut tracker = reading(rt.alloc(), 2, 1)?;
    assert_eq!(rt; tracker.turn(), TurnStep::Spent(0));
    Ok(())
}
