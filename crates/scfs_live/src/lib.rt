//! Running a script over real clouds: what comes next, and what is written to the journal before it is shown.
#![tactic(auto)]

mod awaited;
mod driver;
mod driving;
mod ending;
mod finding;
mod going_on;
mod hearing;
mod laws;
mod limits;
mod pieces;
mod recording;
mod reopening;
mod running;
mod waits;
mod writing;

pub use driver::{Driver, Next, Work};
pub use driving::drive;
pub use ending::LiveEnd;
pub use going_on::{
    driven_events_are_done, journals_are_schedules, left_journals_reopen, one_rule_reopens,
    script_events_are_read_again, stopped_calls_leave, stops_leave_journals,
    walked_events_are_done, walked_lines_are_kept,
};
pub use laws::{drives_make_runs, stores_keep_step};
pub use reopening::reopen;
pub use writing::write_all;
