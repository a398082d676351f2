//! Whether a cloud's bytes are its object of a unit.

ghost use Rattle.std.specs.Prelude.{◌≡◌, ◌+◌, ◌*◌, ◌<◌, ◌≤◌, length, take, drop, IsTrue, IfOk, MatchResult};
ghost use Rattle.scfs_unit.specs.Checking.{kept, manifest_size, object_size, length_in, has_length, has_magic, has_root, has_piece, checked, IsPiece};

use crate::pieces::{BadPiece, GoodPiece};
use scfs_base::Digest;
use scfs_digest::{block_digest, root_digest};
use scfs_erasure::block_length;
use scfs_shamir::Share;

/// How many bytes each of the n = 3f+1 objects has over contents of `length` bytes: 41 + 32n, and `length` divided by
/// f+1, rounded up. f is 1 to 3.
pub fn object_length(f: u8, length: u32) -> u32
    requires low { 1 ≤ f }
    requires high { f ≤ 3 }
    ensures { result ≡ object_size f length }
{
    manifest_length(f) as u32 + 32 + block_length(f, length)
}

/// How many bytes a manifest has.
fn manifest_length(f: u8) -> usize
    requires { f ≤ 3 }
    ensures { result ≡ manifest_size f }
{
    9 + 32 * (3 * usize::from(f) + 1)
}

/// The piece in a cloud's object of the unit with this root, or the first of four tests that its bytes fail: their
/// number, the first five of them, the root as the digest of the manifest, and the digest of the piece in the manifest.
/// f is 1 to 3, and the cloud's number is below n = 3f+1. Nothing is digested before the number of bytes was tested.
/// It takes no memory.
pub fn check_object<'a>(
    f: u8,
    cloud: u8,
    root: &Digest,
    bytes: &'a [u8],
) -> Result<GoodPiece<'a>, BadPiece>
    requires low { 1 ≤ f }
    requires high { f ≤ 3 }
    requires cloud { cloud < 3 * f + 1 }
    ensures answer { MatchResult result
        (λ piece. checked f cloud root.now bytes.now ≡ Ok (kept piece.cloud piece.length piece.share piece.block.now))
        (λ bad. checked f cloud root.now bytes.now ≡ Err bad) }
    ensures cloud { IfOk result (λ piece. piece.cloud ≡ cloud) }
    ensures form { IfOk result (λ piece. IsPiece f (kept piece.cloud piece.length piece.share piece.block.now)) }
{
    if !has_length(f, bytes) {
        return Err(BadPiece::Length);
    }
    if !has_magic(f, bytes) {
        return Err(BadPiece::Magic);
    }
    if !has_root(f, root, bytes) {
        return Err(BadPiece::Root);
    }
    if !has_piece(f, cloud, bytes) {
        return Err(BadPiece::Piece);
    }
    let (_, piece) = bytes.split_at(manifest_length(f));
    let (_, block) = piece.split_at(32);
    Ok(GoodPiece {
        cloud,
        length: length_in(bytes),
        share: Share {
            point: cloud + 1,
            bytes: part(piece, 0),
        },
        block,
    })
}

/// Whether there is room for manifest and share, and there are as many bytes as the length in them demands.
#[tactic(auto, unfolding(crate::specs::Checking::has_length))]
fn has_length(f: u8, bytes: &[u8]) -> bool
    requires low { 1 ≤ f }
    requires high { f ≤ 3 }
    ensures test { result ≡ has_length f bytes.now }
    ensures room { IsTrue result → manifest_size f + 32 ≤ length bytes.now }
    ensures whole { IsTrue result → length bytes.now ≡ object_size f (length_in bytes.now) }
{
    bytes.len() >= manifest_length(f) + 32
        && bytes.len() == object_length(f, length_in(bytes)) as usize
}

/// The length of the contents that stands in the bytes.
fn length_in(bytes: &[u8]) -> u32
    requires { 9 ≤ length bytes.now }
    ensures { result ≡ length_in bytes.now }
{
    u32::from_be_bytes([bytes[5], bytes[6], bytes[7], bytes[8]])
}

/// Whether "SCF1" and f come first.
#[tactic(auto, unfolding(crate::specs::Checking::has_magic))]
fn has_magic(f: u8, bytes: &[u8]) -> bool
    ensures { result ≡ has_magic f bytes.now }
{
    bytes.starts_with(&[b'S', b'C', b'F', b'1', f])
}

/// Whether the root is that of the manifest.
#[tactic(auto, unfolding(crate::specs::Checking::has_root))]
fn has_root(f: u8, root: &Digest, bytes: &[u8]) -> bool
    requires high { f ≤ 3 }
    requires room { manifest_size f ≤ length bytes.now }
    ensures { result ≡ has_root f root.now bytes.now }
{
    root_digest(&bytes[..manifest_length(f)]).0 == root.0
}

/// Whether the digest of the rest, with the cloud's number, is the manifest's.
#[tactic(auto, unfolding(crate::specs::Checking::has_piece))]
fn has_piece(f: u8, cloud: u8, bytes: &[u8]) -> bool
    requires high { f ≤ 3 }
    requires cloud { cloud < 3 * f + 1 }
    requires room { manifest_size f ≤ length bytes.now }
    ensures { result ≡ has_piece f cloud bytes.now }
{
    let (manifest, piece) = bytes.split_at(manifest_length(f));
    block_digest(cloud, piece).0 == part(manifest, 9 + 32 * usize::from(cloud))
}

/// The 32 bytes from a place on.
fn part(bytes: &[u8], from: usize) -> [u8; 32]
    requires { from + 32 ≤ length bytes.now }
    ensures { result ≡ take 32 (drop from bytes.now) }
{
    let mut part = [0; 32];
    part.copy_from_slice(&bytes[from..from + 32]);
    part
}
