//! Erasure coding: contents as n = 3f+1 blocks, any f+1 of which give them back. f is at most 3.
//!
//! The contents, filled with zeros, are f+1 rows of equal length. In each column the bytes of the rows are the values
//! at the places 0 to f of one polynomial over the field of 256 elements, and block i has its value at i. So the first
//! f+1 blocks are the rows themselves.
#![tactic(auto)]

mod block;
mod combining;
mod decoding;
mod encoding;
mod laws;
#[cfg(test)]
mod tests;

pub use block::{Block, block_length};
pub use decoding::{block_from, decode};
pub use encoding::encode;
pub use laws::erasure_laws;
