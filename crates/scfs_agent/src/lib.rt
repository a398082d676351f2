//! One agent: a machine from inputs to outputs. It knows no queue and no store, and no other agent.
#![tactic(auto)]

mod agent;
mod calls;
mod fetching;
mod leasing;
mod lives;
mod ordering;
mod outputs;
mod told;
mod types;
mod uploading;
mod work;

pub use agent::Agent;
pub use types::{Input, Output};
pub use work::{Asked, Asking, Fetch, Pending, Upload, Work};
