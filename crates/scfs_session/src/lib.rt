//! The working copies of open files: reads, writes and truncates of a session, and why they are refused.
#![tactic(auto)]

mod contents;
mod sessions;

pub use contents::CONTENTS_LIMIT;
pub use sessions::{Ended, Sessions};

#[cfg(test)]
mod tests;
