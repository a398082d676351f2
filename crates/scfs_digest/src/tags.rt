ghost use Rattle.std.specs.Prelude.{◌≡◌, ◌≤◌, ◌++◌, ◌↔◌, IsTrue, length};
ghost use Rattle.sha2.specs.Sha256.{sha256};
ghost use Rattle.scfs_digest.specs.Hmac.{hmac, key_block, added};

use scfs_base::Digest;
use sha2::{Digest as Hasher, Sha256};

// The bytes that HMAC adds to its key, for the inner and for the outer digest.
const INNER_PAD: u8 = 0x36;

const OUTER_PAD: u8 = 0x5c;

/// The HMAC-SHA-256 tag of a text (RFC 2104). The key has at most 64 bytes.
pub fn tag(key: &[u8], text: &[u8]) -> Digest
    requires { length key.now ≤ 64 }
    ensures { result.0 ≡ hmac key.now text.now }
{
    let inner = keyed_digest(key, INNER_PAD, text);
    Digest(keyed_digest(key, OUTER_PAD, &inner))
}

// The digest of the padded key and the text behind it.
fn keyed_digest(key: &[u8], pad: u8, text: &[u8]) -> [u8; 32]
    requires { length key.now ≤ 64 }
    ensures { result ≡ sha256 (added pad (key_block key.now) ++ text.now) }
{
    let mut block = padded_key(key);
    add_pad(&mut block, pad);
    let mut hasher = Sha256::new_with_prefix(block);
    hasher.update(text);
    hasher.finalize()
}

// The key, filled with zeros to a block of 64 bytes.
fn padded_key(key: &[u8]) -> [u8; 64]
    requires { length key.now ≤ 64 }
    ensures { result ≡ key_block key.now }
{
    let mut block = [0; 64];
    block[..key.len()].copy_from_slice(key);
    block
}

// Adds the pad to each byte.
fn add_pad(block: &mut [u8], pad: u8)
    ensures { block.new ≡ added pad block.old }
{
    for byte in block.iter_mut() {
        *byte ^= pad;
    }
}

/// Whether the text has this tag: true exactly where the tag is equal. Every byte of the tag is looked at, whatever
/// differs, which is how the loop is written and no clause's promise. The key has at most 64 bytes.
pub fn tag_fits(key: &[u8], text: &[u8], tag: &Digest) -> bool
    requires { length key.now ≤ 64 }
    ensures { IsTrue result ↔ (tag.now.0 ≡ hmac key.now text.now) }
{
    same_bytes(&tag.0, &self::tag(key, text).0)
}

// Whether all bytes are the same. The loop has no early end.
fn same_bytes(ours: &[u8; 32], theirs: &[u8; 32]) -> bool
    ensures { IsTrue result ↔ (ours.now ≡ theirs.now) }
{
    let mut different = 0;
    for (i, byte) in ours.iter().enumerate() {
        different |= byte ^ theirs[i];
    }
    different == 0
}
