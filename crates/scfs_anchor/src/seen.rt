use scfs_base::{Digest, FileId, UploadNo};

/// A completed version of a file: its number, from 1, the root of its sealed unit, the digest and the length of its contents,
/// the upload that put it, and the moment at which it was completed.
#[derive(Clone, Copy, Debug, PartialEq, Eq)]
pub struct VersionRow {
    pub id: FileId,
    pub number: u32,
    pub root: Digest,
    pub content: Digest,
    pub length: u32,
    pub upload: UploadNo,
    pub time: u64,
}

/// What an open sees: the file, its newest version, the row of the version that is opened (none for version 0), and the agent,
/// the incarnation and the session of the live lock.
#[derive(Clone, Copy, Debug, PartialEq, Eq)]
pub struct Sight {
    pub id: FileId,
    pub newest: u32,
    pub row: Option<VersionRow>,
    pub lock: Option<(u8, u32, u64)>,
}
