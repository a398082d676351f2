//! The reading of a unit from its clouds: which are asked, whose answers are good, and the contents once f+1 different
//! clouds gave good ones, whatever the others answer.
#![tactic(auto)]

mod steps;
mod tracker;

pub use steps::{ReadStep, TurnStep};
pub use tracker::ReadTracker;

#[cfg(test)]
mod tests;
