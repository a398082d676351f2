//! Running again: what a call of `scfs` with the word `run` leaves in its journal, and what the next one makes of it. The functions only
//! carry the laws.
#![tactic(auto)]

mod laws;

pub use laws::{calls_go_on, calls_leave_journals, one_rule_goes_on, second_calls_go_on};
