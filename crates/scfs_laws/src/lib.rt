//! What holds of every history of the machine: reads show what sessions hold, opens are of the newest version, closes were completed under
//! their locks, names and locks are alone, and where no two different blocks share a digest what happens is a run of the file map. The
//! functions only carry the laws.
#![tactic(auto)]

mod clash;
mod laws;

pub use clash::{no_clash_before, runs_without_clash, sound_without_clash};
pub use laws::{
    commits_are_acknowledged, commits_are_fenced, layers_agree, opens_are_newest, reads_are_held,
    runs_of_prefixes, trees_are_whole,
};
