//! What was reported as stored stays stored: each version in the shared tree is held by more clouds that never lied than there may be bad ones. The
//! functions only carry the laws.
#![tactic(auto)]

mod laws;

pub use laws::{
    committed_versions_stay, serving_is_faithful, stored_names_are_uploads,
    truthful_clouds_stay_so, versions_stay_safe,
};
