//! The tuple space: a list of tuples with ends of life, and one conditional step at a time.
#![tactic(auto)]

mod acting;
mod copies;
mod fields;
mod index;
mod looks;
mod matching;
mod order;
mod picking;
mod plain;
mod putting;
mod search;
mod shelves;
mod slots;
mod space;
mod testing;
mod trial;
mod types;

pub use looks::{Looks, Steps};
pub use plain::PlainSpace;
pub use slots::Slots;
pub use space::Space;
pub use types::{Cond, Field, Give, Pattern, Reply, Step, StepResult, Template, Tuple, Want};

#[cfg(test)]
mod tests;
