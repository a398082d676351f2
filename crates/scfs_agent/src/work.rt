use scfs_anchor::{Path, VersionRow};
use scfs_base::{FileId, RequestNo, Sequence};
use scfs_quorum_read::ReadTracker;
use scfs_quorum_write::PutTracker;
use scfs_session::Ended;
use scfs_unit::Sealed;

/// A request that was made of a cloud.
#[derive(Clone, Copy, Debug, PartialEq, Eq)]
pub struct Asked {
    pub request: RequestNo,
    pub cloud: u8,
}

/// What an agent asks of the space.
#[derive(Drop)]
pub enum Asking {
    /// A new file of this id.
    Make(Path, FileId),
    /// What is known of a node, or of the root.
    Look(Path),
    /// An open for a session of this number.
    OpenRead(Path, u64),
    OpenWrite(Path, u64),
    /// The close of a session of this number, as this version.
    Commit(u64, VersionRow),
    /// The lock of a session of this number on a file is given back.
    Unlock(FileId, u64),
    /// All locks of the agent are given back.
    UnlockAll,
    /// The lock of a session of this number on a file lives longer.
    Renew(FileId, u64),
}

/// A step that was asked of the space and whose reply was not told yet.
#[derive(Drop)]
pub struct Pending {
    pub number: RequestNo,
    pub asking: Asking,
}

/// An open that reads the clouds: the session that it will be, the row of the version that it saw, the Gets so far, and what the
/// answers to them came to.
#[derive(Drop)]
pub struct Fetch {
    pub session: u64,
    pub writes: bool,
    pub row: VersionRow,
    pub gets: Sequence<Asked>,
    pub tracker: ReadTracker,
}

/// The upload of a closed session: its number and what it left, the row of the version that it will be, its sealed unit, the Puts
/// so far, the acknowledgements, and the turns since it began.
#[derive(Drop)]
pub struct Upload {
    pub session: u64,
    pub left: Ended,
    pub row: VersionRow,
    pub unit: Sealed,
    pub puts: Sequence<Asked>,
    pub acks: PutTracker,
    pub turns: u32,
}

/// What an agent is at: it is down; it starts; it is ready, and no call is unanswered, or one is, which waits for its step, for the
/// clouds, or for its close.
#[derive(Drop)]
pub enum Work {
    Down,
    Starting,
    Idle,
    Step,
    Fetch(Fetch),
    Upload(Upload),
}
