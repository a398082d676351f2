ghost use Rattle.std.specs.Prelude.{◌≡◌, ◌<◌, ◌^◌};
ghost use Rattle.sha2.specs.Sha256.{sha256};
ghost use Rattle.scfs_digest.specs.Texts.{root_text, block_text, content_text, draw_text, record_key_text};

use scfs_base::{Digest, UploadNo};
use sha2::{Digest as Hasher, Sha256};

// The prefix byte of each purpose.
const ROOT: u8 = 0;

const BLOCK: u8 = 1;

const CONTENT: u8 = 2;

const DRAW: u8 = 3;

const RECORD_KEY: u8 = 4;

/// The digest of the piece of a unit that is put on a cloud.
pub fn block_digest(cloud: u8, piece: &[u8]) -> Digest
    ensures { result.0 ≡ sha256 (block_text cloud piece.now) }
{
    let mut hasher = Sha256::new_with_prefix([BLOCK, cloud]);
    hasher.update(piece);
    Digest(hasher.finalize())
}

/// The root of a unit: the digest of its manifest.
pub fn root_digest(manifest: &[u8]) -> Digest
    ensures { result.0 ≡ sha256 (root_text manifest.now) }
{
    let mut hasher = Sha256::new_with_prefix([ROOT]);
    hasher.update(manifest);
    Digest(hasher.finalize())
}

/// The digest of a file's contents.
pub fn content_digest(contents: &[u8]) -> Digest
    ensures { result.0 ≡ sha256 (content_text contents.now) }
{
    let mut hasher = Sha256::new_with_prefix([CONTENT]);
    hasher.update(contents);
    Digest(hasher.finalize())
}

/// The digest of the bytes alone, with no prefix.
pub fn plain_digest(bytes: &[u8]) -> Digest
    ensures { result.0 ≡ sha256 bytes.now }
{
    Digest(Sha256::digest(bytes))
}

/// The seed of the generator that draws an upload's key and coefficients, from its agent's secret seed.
pub fn draw_seed(seed: &[u8; 32], upload: &UploadNo) -> [u8; 32]
    requires { upload.now.incarnation < 2 ^ 24 }
    ensures { result ≡ sha256 (draw_text seed.now upload.now) }
{
    let [_, high, middle, low] = upload.incarnation.to_be_bytes();
    let mut hasher = Sha256::new_with_prefix([DRAW]);
    hasher.update(seed);
    hasher.update([upload.agent, high, middle, low]);
    hasher.update(upload.count.to_be_bytes());
    hasher.finalize()
}

/// The key under which an agent tags its private records, from its secret seed.
pub fn record_key(seed: &[u8; 32], agent: u8) -> [u8; 32]
    ensures { result ≡ sha256 (record_key_text seed.now agent) }
{
    let mut hasher = Sha256::new_with_prefix([RECORD_KEY]);
    hasher.update(seed);
    hasher.update([agent]);
    hasher.finalize()
}
