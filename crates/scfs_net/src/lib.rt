//! Storage clouds as queues and stores: what each cloud was asked and has not answered, what it answered and nobody was
//! given yet, and the objects that it holds.
#![tactic(auto)]

mod cloud;
mod messages;
mod name;
mod net;
mod store;
mod weights;

pub use messages::{
    Asked, CARRIED_LIMIT, Did, Given, Moved, NAMES_LIMIT, NetFault, REQUEST_WEIGHT,
};
pub use net::Net;
pub use store::Store;

#[cfg(test)]
mod tests;
