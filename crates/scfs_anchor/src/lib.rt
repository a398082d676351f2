//! The steps that agents ask of the tuple space for files, and what its replies say: opens, commits, renewals, unlocks and
//! looks at versions, over tuples that stand for a tree of directories and files.
#![tactic(auto)]

mod conditions;
mod fields;
mod laws;
mod name_steps;
mod path;
mod replies;
mod seen;
mod shapes;
mod steps;

pub use conditions::ask_directory;
pub use fields::number_at;
pub use laws::{
    no_tuples_hold_the_empty_tree, steps_serve_as_on_the_machine, tuples_hold_the_tree_later,
};
pub use name_steps::{create, stat};
pub use path::Path;
pub use replies::{refusal, rows, sight, sight_of};
pub use seen::{Sight, VersionRow};
pub use shapes::{
    DIRECTORY, FILE, NodeWants, ROOT, directory, given, given_text, node, number, text,
};
pub use steps::{commit, open_read, open_write, renew, unlock, unlock_all, versions};

#[cfg(test)]
mod tests;
