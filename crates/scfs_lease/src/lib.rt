//! The locks of an agent's sessions: how long each lasts, and when it is time to renew one.
#![tactic(auto)]

mod leases;

pub use leases::Leases;

#[cfg(test)]
mod tests;
