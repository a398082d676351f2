//! What an agent keeps: the contents of uploads, in memory and on disk, and the answers to its questions. Each list has
//! what was used last.
#![tactic(auto)]

mod agent_cache;
mod kept_answers;
mod laws;
mod paths;
mod uploads;

pub use agent_cache::{AgentCache, Hit};
pub use kept_answers::{KeptAnswers, KeptStat};
pub use laws::{caches_have_the_last_uses, last_uses_stay};

#[cfg(test)]
mod tests;
