/// The greatest number of events of a run.
pub const EVENTS_LIMIT: u64 = 1_000_000;
