//! The sharing of a key (Shamir 1979) into 3f + 1 shares: any f + 1 of them give it back, and any f of them fit every
//! key, each by exactly one list of coefficients.
//!
//! It goes byte by byte over the field of 256 elements. A byte of the key is the value at 0 of a polynomial of degree at
//! most f, whose other coefficients are drawn; that byte of the share of the point x is the value at x.
#![tactic(auto)]

mod laws;
mod recovery;
mod sharing;
#[cfg(test)]
mod tests;

pub use laws::any_shares_fit_every_key;
pub use recovery::{fit, join};
pub use sharing::{Share, split};
