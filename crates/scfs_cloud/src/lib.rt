//! Storage clouds that nobody trusts: what a cloud promises, asking one, and what is kept of its answer.
#![tactic(auto)]

mod answers;
mod asking;
mod cloud;
mod cutting;
mod file_names;
mod folder;
mod memory;
mod said;

pub use asking::ask_cloud;
pub use cloud::{Cloud, CloudFault, Exchange};
pub use cutting::NAME_LIMIT;
pub use file_names::object_names_are_read;
pub use folder::DirCloud;
pub use memory::{MemCloud, short_names_stay};
pub use said::SaidCloud;

#[cfg(test)]
mod tests;
