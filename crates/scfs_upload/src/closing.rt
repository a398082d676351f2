use scfs_base::{Bytes, FileId};

/// A closed session that is not completed: its number, its file, the version that it began from, and its contents.
#[derive(Debug, Drop)]
pub struct Closed {
    pub session: u64,
    pub id: FileId,
    pub base: u32,
    pub contents: Bytes,
}
