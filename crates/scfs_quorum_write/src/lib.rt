//! How far the acknowledgements of an upload have come: different clouds are counted, once each, for each of its parts.
#![tactic(auto)]

mod cloud_set;
mod progress;
mod tracker;

pub use progress::Progress;
pub use tracker::PutTracker;
