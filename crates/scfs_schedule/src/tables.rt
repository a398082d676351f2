/// The first word of an event that names an agent alone.
#[derive(Clone, Copy, Debug, PartialEq, Eq)]
pub enum AgentWord {
    Space,
    Later,
    Told,
    Turn,
    Crash,
    Start,
}

/// The first word of an event that names a cloud alone.
#[derive(Clone, Copy, Debug, PartialEq, Eq)]
pub enum CloudWord {
    Serve,
    Hide,
    Fail,
    Give,
    Lose,
    Drop,
    Defer,
    Swap,
    Again,
    Twice,
}

/// The word of a call.
#[derive(Clone, Copy, Debug, PartialEq, Eq)]
pub enum CallWord {
    Mkdir,
    Rmdir,
    Create,
    Unlink,
    Stat,
    List,
    Rename,
    Open,
    Openat,
    Read,
    Write,
    Truncate,
    Close,
    Sync,
    Versions,
    Collect,
    Purge,
}

/// The word of a cloud's answer.
#[derive(Clone, Copy, Debug, PartialEq, Eq)]
pub enum AnswerWord {
    Ack,
    Absent,
    Fail,
    Bytes,
    Names,
}
