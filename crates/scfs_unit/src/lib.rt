//! The sealed unit (DepSky-CA, Bessani et al. 2011, in a profile of this project): contents are encrypted under a key of
//! their own, cut into 3f+1 blocks, and put on as many clouds, each with a share of the key and with the digests of all
//! pieces. Any f+1 pieces give the contents back, and an object that a cloud changed is refused, unless two different
//! blocks share a digest.
#![tactic(auto)]

mod checking;
mod laws;
mod opening;
mod pieces;
mod sealing;

pub use checking::{check_object, object_length};
pub use laws::{acceptance_laws, unsealing_laws};
pub use opening::open_unit;
pub use pieces::{BadPiece, GoodPiece, KeptPiece, keep_piece};
pub use sealing::{Sealed, seal};

#[cfg(test)]
mod tests;
