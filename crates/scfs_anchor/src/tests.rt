ghost use Rattle.std.specs.Prelude.{◌≡◌, ◌≢◌, ◌^◌, ◌<◌, [], IfOk};
ghost use Rattle.scfs_tuples.specs.Steps.{IsStep};

use crate::shapes::{DIRECTORY, FILE, ROOT, given, given_text};
use crate::{
    Path, Sight, VersionRow, commit, open_read, open_write, refusal, renew, rows, sight, unlock,
    unlock_all, versions,
};
use scfs_base::{Bytes, Digest, FileId, Memory, Sequence, UploadNo};
use scfs_schedule::Refusal;
use scfs_tuples::{Reply, Space, Step, StepResult, Template};
use std::alloc::Global;
use std::test::Fail;

/// Whether the bytes spell a path.
fn is_path(alloc: Global, bytes: &[u8]) -> Result<bool, Memory> {
    Ok(Path::read(alloc, bytes)?.is_some())
}

/// A slash and then so many letters, again and again.
fn deep(alloc: Global, names: usize, letters: usize) -> Result<Bytes, Memory> {
    let mut bytes = Bytes::new(alloc);
    for _ in 0..names {
        bytes.push(b'/')?;
        for _ in 0..letters {
            bytes.push(b'a')?;
        }
    }
    Ok(bytes)
}

#[test]
fn paths_are_names_after_slashes(rt: HostRuntime) -> Result<(), Fail> {
    for (bytes, good) in [
        (b"/".as_slice(), true),
        (b"/a/.b".as_slice(), true),
        ("/\u{e9}".as_bytes(), true),
        (b"".as_slice(), false),
        (b"a/b".as_slice(), false),
        (b"//".as_slice(), false),
        (b"/a/".as_slice(), false),
        (b"/a/..".as_slice(), false),
        (b"/.".as_slice(), false),
        (b"/\xff".as_slice(), false),
    ] {
        assert_eq!(rt; is_path(rt.alloc(), bytes)?, good);
    }
    for (names, letters, good) in [
        (1, 255, true),
        (1, 256, false),
        (32, 1, true),
        (33, 1, false),
    ] {
        let bytes = deep(rt.alloc(), names, letters)?;
        assert_eq!(rt; is_path(rt.alloc(), bytes.as_slice())?, good);
    }
    Ok(())
}

/// Whether the first bytes spell the path of a directory on the way to that of the second.
fn leads_to(alloc: Global, above: &[u8], names: &[u8]) -> Result<bool, Fail> {
    let above = Path::read(alloc, above)?.ok_or("no path")?;
    let names = Path::read(alloc, names)?.ok_or("no path")?;
    Ok(above.is_proper_prefix(&names))
}

#[test]
fn a_proper_prefix_is_a_directory_on_the_way(rt: HostRuntime) -> Result<(), Fail> {
    for (above, names, leads) in [
        (b"/".as_slice(), b"/a".as_slice(), true),
        (b"/a".as_slice(), b"/a/b".as_slice(), true),
        (b"/a".as_slice(), b"/a".as_slice(), false),
        (b"/a".as_slice(), b"/ab".as_slice(), false),
        (b"/a/b".as_slice(), b"/a".as_slice(), false),
    ] {
        assert_eq!(rt; leads_to(rt.alloc(), above, names)?, leads);
    }
    Ok(())
}

/// The step that puts a node below the root.
fn put_node(alloc: Global, id: u64, name: &[u8], kind: u64) -> Result<Step, Memory>
    ensures { IfOk result (λ step. IsStep step) }
{
    let shape = given_text(alloc, b"node")?;
    let name = given_text(alloc, name)?;
    let numbers = (given(id), given(ROOT), given(kind));
    let gives = vec![in alloc;
        shape,
        numbers.0,
        numbers.1,
        name,
        numbers.2,
        given(0),
        given(0),
    ]?;
    let node = Template {
        gives: Sequence::from_vec(gives),
        life: None,
    };
    Ok(Step {
        conds: Sequence::new(alloc),
        all: Sequence::new(alloc),
        puts: Sequence::from_vec(vec![in alloc; node]?),
    })
}

/// Does a step, of which nothing further is said.
fn done(space: &mut Space, now: u64, step: &Step) -> Result<Reply, Memory>
    requires moment { now < 2 ^ 62 }
    requires step { IsStep step.now }
{
    space.act(now, step)
}

/// A space with the file `/f`, number 1, and the directory `/d`, number 2.
fn space_with_a_file(alloc: Global) -> Result<Space, Memory> {
    let mut space = Space::new(alloc);
    done(&mut space, 0, &put_node(alloc, 1, b"f", FILE)?)?;
    done(&mut space, 0, &put_node(alloc, 2, b"d", DIRECTORY)?)?;
    Ok(space)
}

/// Why the space refuses a step at this moment, if it does.
fn refused(space: &mut Space, now: u64, step: &Step) -> Result<Option<Refusal>, Memory>
    requires moment { now < 2 ^ 62 }
    requires step { IsStep step.now }
{
    let reply = done(space, now, step)?;
    match &reply.result {
        StepResult::Refused { index: _, tuple: _ } => Ok(Some(refusal(step, &reply))),
        _ => Ok(None),
    }
}

/// What the space shows of a file that is opened at this moment.
fn seen(space: &mut Space, now: u64, step: &Step) -> Result<Sight, Memory>
    requires moment { now < 2 ^ 62 }
    requires step { IsStep step.now }
{
    sight(&done(space, now, step)?)
}

/// The path below the root that the bytes spell.
fn path(alloc: Global, bytes: &[u8]) -> Result<Path, Fail>
    ensures { IfOk result (λ path. path ≢ []) }
{
    let path = Path::read(alloc, bytes)?.ok_or("no path")?;
    if path.is_root() {
        Err("the root")?;
    }
    Ok(path)
}

/// The first version of file 1, by an upload of agent 3 in its incarnation 4, as it is completed at this moment.
fn first_version(time: u64) -> VersionRow
    ensures { result.number ≡ 1 }
{
    VersionRow {
        id: FileId(1),
        number: 1,
        root: Digest([1; 32]),
        content: Digest([2; 32]),
        length: 9,
        upload: UploadNo {
            agent: 3,
            incarnation: 4,
            count: 5,
        },
        time,
    }
}

/// A step of session 6 of agent 3, in its incarnation 4, on the file `/f`, number 1.
#[derive(Clone, Copy)]
enum Asked {
    Read,
    Open,
    Commit,
    Renew,
    Unlock,
    UnlockAll,
    Versions,
}

/// The step, with a lease of 10 ticks.
fn step_for(alloc: Global, asked: Asked) -> Result<Step, Fail>
    ensures { IfOk result (λ step. IsStep step) }
{
    match asked {
        Asked::Read => reading(alloc, b"/f", None),
        Asked::Open => opening(alloc),
        Asked::Commit => Ok(commit_first(alloc)?),
        Asked::Renew => Ok(renew_for_10(alloc)?),
        Asked::Unlock => Ok(unlock(alloc, FileId(1), 3, 4, 6)?),
        Asked::UnlockAll => Ok(unlock_all(alloc, 3)?),
        Asked::Versions => looking(alloc),
    }
}

/// The step that opens the file for writing.
fn opening(alloc: Global) -> Result<Step, Fail>
    ensures { IfOk result (λ step. IsStep step) }
{
    let step = open_write(alloc, &path(alloc, b"/f")?, 3, 4, 6, 10)?;
    Ok(step)
}

/// The step that looks at the file's versions.
fn looking(alloc: Global) -> Result<Step, Fail>
    ensures { IfOk result (λ step. IsStep step) }
{
    let step = versions(alloc, &path(alloc, b"/f")?)?;
    Ok(step)
}

/// The step that renews the lock.
fn renew_for_10(alloc: Global) -> Result<Step, Memory>
    ensures { IfOk result (λ step. IsStep step) }
{
    renew(alloc, FileId(1), 3, 4, 6, 10)
}

/// The step that completes the first version.
fn commit_first(alloc: Global) -> Result<Step, Memory>
    ensures { IfOk result (λ step. IsStep step) }
{
    commit(alloc, &first_version(0), 6)
}

/// The step that opens a path for reading.
fn reading(alloc: Global, bytes: &[u8], version: Option<u64>) -> Result<Step, Fail>
    ensures { IfOk result (λ step. IsStep step) }
{
    let step = open_read(alloc, &path(alloc, bytes)?, version)?;
    Ok(step)
}

/// Whether a step at this moment is refused so, or not.
fn answers(
    alloc: Global,
    space: &mut Space,
    now: u8,
    asked: Asked,
    wanted: Option<Refusal>,
) -> Result<bool, Fail> {
    let step = step_for(alloc, asked)?;
    Ok(refused(space, u64::from(now), &step)? == wanted)
}

/// Whether a step at this moment sees this.
fn sees(
    alloc: Global,
    space: &mut Space,
    now: u8,
    asked: Asked,
    wanted: &Sight,
) -> Result<bool, Fail> {
    let step = step_for(alloc, asked)?;
    Ok(seen(space, u64::from(now), &step)? == *wanted)
}

#[test]
fn a_path_is_refused_at_its_first_bad_name(rt: HostRuntime) -> Result<(), Fail> {
    let mut space = space_with_a_file(rt.alloc())?;
    for (bytes, version, wanted) in [
        (b"/g".as_slice(), None, Some(Refusal::NoEntry)),
        (b"/g/f".as_slice(), None, Some(Refusal::NoEntry)),
        (b"/f/g".as_slice(), None, Some(Refusal::NotDir)),
        (b"/d".as_slice(), None, Some(Refusal::IsDir)),
        (b"/d/g".as_slice(), None, Some(Refusal::NoEntry)),
        (b"/f".as_slice(), Some(1), Some(Refusal::NoVersion)),
        (b"/f".as_slice(), Some(0), None),
    ] {
        let step = reading(rt.alloc(), bytes, version)?;
        assert_eq!(rt; refused(&mut space, 7, &step)?, wanted);
    }
    Ok(())
}

/// Whether these steps are refused so, one after the other.
fn all_answer(
    alloc: Global,
    space: &mut Space,
    steps: &[(u8, Asked, Option<Refusal>)],
) -> Result<bool, Fail> {
    for (now, asked, wanted) in steps {
        if !answers(alloc, space, *now, *asked, *wanted)? {
            return Ok(false);
        }
    }
    Ok(true)
}

/// What is seen of the file before its first version.
fn sight_at_first(lock: Option<(u8, u32, u64)>) -> Sight {
    Sight {
        id: FileId(1),
        newest: 0,
        row: None,
        lock,
    }
}

/// What is seen of the file after its first version.
fn sight_after(row: VersionRow) -> Sight {
    Sight {
        id: FileId(1),
        newest: 1,
        row: Some(row),
        lock: None,
    }
}

#[test]
fn a_file_is_locked_until_its_commit(rt: HostRuntime) -> Result<(), Fail> {
    let mut space = space_with_a_file(rt.alloc())?;
    let none = sight_at_first(None);
    assert!(rt; sees(rt.alloc(), &mut space, 7, Asked::Open, &none)?);
    let locked = sight_at_first(Some((3, 4, 6)));
    assert!(rt; sees(rt.alloc(), &mut space, 9, Asked::Read, &locked)?);
    let commits = [
        (16, Asked::Commit, None),
        (16, Asked::Commit, Some(Refusal::LockLost)),
    ];
    assert!(rt; all_answer(rt.alloc(), &mut space, &commits)?);
    let after = sight_after(first_version(16));
    assert!(rt; sees(rt.alloc(), &mut space, 18, Asked::Read, &after)?);
    Ok(())
}

#[test]
fn locks_end_are_renewed_and_taken_away(rt: HostRuntime) -> Result<(), Fail> {
    let mut space = space_with_a_file(rt.alloc())?;
    let steps = [
        (10, Asked::Open, None),
        (19, Asked::Renew, None),
        (28, Asked::Open, Some(Refusal::Locked(3))),
        (29, Asked::Renew, Some(Refusal::LockLost)),
        (29, Asked::Open, None),
        (30, Asked::Unlock, None),
        (30, Asked::Open, None),
        (31, Asked::UnlockAll, None),
        (31, Asked::Open, None),
    ];
    assert!(rt; all_answer(rt.alloc(), &mut space, &steps)?);
    Ok(())
}

/// Whether a look at the versions shows this row alone.
fn lists(alloc: Global, space: &mut Space, now: u64, first: &VersionRow) -> Result<bool, Fail>
    requires { now < 2 ^ 62 }
{
    let step = step_for(alloc, Asked::Versions)?;
    let rows = rows(alloc, &done(space, now, &step)?)?;
    match rows.as_slice().first() {
        Some(row) => Ok(*row == *first && rows.len() == 1),
        None => Ok(false),
    }
}

#[test]
fn versions_are_listed(rt: HostRuntime) -> Result<(), Fail> {
    let mut space = space_with_a_file(rt.alloc())?;
    let steps = [(7, Asked::Open, None), (8, Asked::Commit, None)];
    assert!(rt; all_answer(rt.alloc(), &mut space, &steps)?);
    assert!(rt; lists(rt.alloc(), &mut space, 9, &first_version(8))?);
    Ok(())
}
