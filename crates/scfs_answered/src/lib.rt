//! Opens that are given enough are answered: more clouds' own objects than there may be bad ones give back what was closed, whatever
//! all other clouds answer. The functions only carry the laws.
#![tactic(auto)]

mod laws;

pub use laws::{opens_are_answered, safe_versions_are_opened};
