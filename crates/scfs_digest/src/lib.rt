//! SHA-256 digests (FIPS 180-4) of what is stored and drawn, and HMAC-SHA-256 tags (RFC 2104).
//! Each text that is digested for a purpose of its own begins with that purpose's prefix byte.
//! Nothing here takes memory or refuses.
#![tactic(auto)]

mod digests;
mod laws;
mod tags;

pub use digests::{block_digest, content_digest, draw_seed, plain_digest, record_key, root_digest};
pub use laws::{prefixes_tell_apart, texts_tell_apart};
pub use tags::{tag, tag_fits};

#[cfg(test)]
mod tests;
