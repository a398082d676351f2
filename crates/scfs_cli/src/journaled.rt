use crate::journal::{JournalIn, JournalOut};
use scfs_base::{Failed, Memory, Sink, Source};
use std::fs;
use std::test::Fail;

fn failed(_: Failed) -> Memory {
    Memory
}

#[test]
fn a_journal_file(rt: HostRuntime) -> Result<(), Fail> {
    let mut buffer = [0; 16];
    let mut missing = JournalIn::new(&rt, "journal-of-test");
    let count = missing.read(&mut buffer).map_err(failed)?;
    assert_eq!(rt; count, 0);
    let mut first = JournalOut::new(&rt, "journal-of-test");
    let _ = first.write(b"scfs").map_err(failed)?;
    let mut second = JournalOut::new(&rt, "journal-of-test");
    let _ = second.write(b" 1\n").map_err(failed)?;
    let mut old = JournalIn::new(&rt, "journal-of-test");
    let count = old.read(&mut buffer).map_err(failed)?;
    assert_eq!(rt; count, 7);
    let mut folder = JournalIn::new(&rt, ".");
    assert!(rt; folder.read(&mut buffer).is_err());
    let _ = fs::remove_file(&rt, "journal-of-test");
    Ok(())
}
