//! The world of one run: its agents at their seats, its space, and its clouds. One event is one step of the machine; nothing else has
//! state.
#![tactic(auto)]

mod built;
mod clouds;
mod doing;
mod fault;
mod laws;
mod ranges;
mod seat;
mod served;
mod shown;
mod world;

pub use built::{is_built, is_built_header};
pub use fault::{StepFault, WorldEnd};
pub use laws::{standing_worlds_are_shown, states_are_whole};
pub use ranges::brings_bytes;
pub use seat::{Seat, StepAsked, StepReply};
pub use world::{Stepped, World};
