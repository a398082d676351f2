//! The closed sessions of an agent, uploaded one at a time in the order of their closes.
#![tactic(auto)]

mod beginning;
mod closing;
mod progress;
mod queue;

pub use beginning::Begun;
pub use closing::Closed;
pub use queue::UploadQueue;

#[cfg(test)]
mod tests;
