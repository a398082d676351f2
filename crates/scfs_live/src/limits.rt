/// The greatest number of events of a run.
pub const EVENTS_LIMIT: u64 = 1_000_000;

/// The most bytes of an old journal that are looked at.
pub const JOURNAL_LIMIT: u64 = 536_870_912;
