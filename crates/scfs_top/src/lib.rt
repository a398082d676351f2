//! The top call: plays a schedule, dumps the tree that it leaves, or runs a script over clouds.
#![tactic(auto)]

mod built;
mod call;
mod closing;
mod dump;
mod edges;
mod intake;
mod limits;
mod nowhere;
mod play;
mod run;
mod stopping;
mod tree_rows;
mod waiting;

pub use call::scfs;
pub use closing::Status;
pub use dump::dump_text;
