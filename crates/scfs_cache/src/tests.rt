use crate::{AgentCache, KeptAnswers, KeptStat};
use scfs_base::{Bytes, FileId, Memory, NameList, UploadNo};
use std::test::Fail;

/// An upload of this count.
fn upload(count: u8) -> UploadNo {
    UploadNo {
        agent: 2,
        incarnation: 1,
        count: u32::from(count),
    }
}

/// Keeps uploads with the counts from 1 to this one, each with its count as its contents.
fn keep_to(cache: &mut AgentCache, last: u8) -> Result<(), Memory> {
    for count in 1..=last {
        cache.keep(&upload(count), &[count])?;
    }
    Ok(())
}

/// Whether the upload of this count is found on disk, with its contents, or nowhere.
fn find(cache: &mut AgentCache, count: u8) -> Result<Option<bool>, Memory> {
    match cache.find(&upload(count))? {
        Some(hit) if hit.contents.as_slice() == [count].as_slice() => Ok(Some(hit.from_disk)),
        _ => Ok(None),
    }
}

#[test]
fn the_seventeenth_leaves_the_first_on_disk(rt: HostRuntime) -> Result<(), Fail> {
    let mut cache = AgentCache::new(rt.alloc())?;
    keep_to(&mut cache, 17)?;
    assert_eq!(rt; find(&mut cache, 2)?, Some(false));
    assert_eq!(rt; find(&mut cache, 1)?, Some(true));
    assert_eq!(rt; find(&mut cache, 1)?, Some(false));
    assert_eq!(rt; find(&mut cache, 2)?, Some(false));
    assert_eq!(rt; find(&mut cache, 3)?, Some(true));
    assert_eq!(rt; find(&mut cache, 18)?, None);
    Ok(())
}

#[test]
fn a_crash_leaves_the_disk(rt: HostRuntime) -> Result<(), Fail> {
    let mut cache = AgentCache::new(rt.alloc())?;
    keep_to(&mut cache, 1)?;
    cache.crash();
    assert_eq!(rt; find(&mut cache, 1)?, Some(true));
    assert_eq!(rt; find(&mut cache, 1)?, Some(false));
    Ok(())
}

#[test]
fn a_memory_hit_is_no_use_on_disk(rt: HostRuntime) -> Result<(), Fail> {
    let mut cache = AgentCache::new(rt.alloc())?;
    keep_to(&mut cache, 1)?;
    for count in 2..=65 {
        assert_eq!(rt; find(&mut cache, 1)?, Some(false));
        cache.keep(&upload(count), &[count])?;
    }
    cache.crash();
    assert_eq!(rt; find(&mut cache, 1)?, None);
    assert_eq!(rt; find(&mut cache, 2)?, Some(true));
    Ok(())
}

#[test]
fn an_answer_is_given_again_below_its_age(rt: HostRuntime) -> Result<(), Fail> {
    let value = KeptStat {
        kind: 0,
        id: FileId(7),
        newest: 3,
        length: 5,
    };
    let mut answers = KeptAnswers::new(rt.alloc())?;
    answers.keep_stat(b"/a", 10, value)?;
    assert_eq!(rt; answers.stat(b"/a", 14, 5), Some(value));
    assert_eq!(rt; answers.stat(b"/a", 15, 5), None);
    assert_eq!(rt; answers.stat(b"/b", 14, 5), None);
    answers.clear();
    assert_eq!(rt; answers.stat(b"/a", 14, 5), None);
    Ok(())
}

#[test]
fn a_list_is_given_again_below_its_age(rt: HostRuntime) -> Result<(), Fail> {
    let mut names = NameList::new(rt.alloc());
    names.push(Bytes::from_slice(rt.alloc(), b"x")?)?;
    let mut answers = KeptAnswers::new(rt.alloc())?;
    answers.keep_list(b"/a", 10, &names)?;
    let given = answers.list(b"/a", 14, 5)?.ok_or("no list")?;
    assert_eq!(rt; given.len(), 1);
    assert_eq!(rt; given.as_slice()[0].as_slice(), b"x".as_slice());
    assert!(rt; answers.list(b"/a", 15, 5)?.is_none());
    assert!(rt; answers.stat(b"/a", 14, 5).is_none());
    Ok(())
}
