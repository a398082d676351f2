//! The keystream under which contents are encrypted, and the draw of an upload's key and coefficients, both from
//! ChaCha20 (Bernstein 2008, RFC 8439) with a 64-bit counter. Nothing here takes memory or refuses.
#![tactic(auto)]

mod cipher;
mod drawing;
mod laws;
mod sealing;

pub use cipher::xor_stream;
pub use drawing::draw;
pub use laws::{is_made_of_words, undoes_itself};
pub use sealing::Draw;

#[cfg(test)]
mod tests;
