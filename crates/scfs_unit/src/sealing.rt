//! From contents to the objects of the clouds.

ghost use Rattle.std.specs.Prelude.{◌≡◌, ◌≤◌, ◌++◌, length, map, IfOk};
ghost use Rattle.sha2.specs.Sha256.{sha256};
ghost use Rattle.scfs_erasure.specs.Blocks.{blocks_of};
ghost use Rattle.scfs_stream.specs.Stream.{ciphered};
ghost use Rattle.scfs_unit.specs.Unit.{unit_pieces, piece_bytes, piece_text, manifest_over, sealed};
ghost use Rattle.scfs_unit.specs.Steps.{paired};

use crate::pieces::KeptPiece;
use scfs_base::{Bytes, Digest, Memory, Sequence};
use scfs_digest::{block_digest, content_digest, root_digest};
use scfs_erasure::{Block, encode};
use scfs_shamir::{Share, split};
use scfs_stream::{Draw, xor_stream};
use std::alloc::Global;

/// Contents as they are stored: the manifest, its digest, which is the root of the unit, the digest of the contents, and
/// the objects of the clouds 0 to 3f.
#[derive(Debug, Drop)]
pub struct Sealed {
    pub manifest: Bytes,
    pub root: Digest,
    pub content: Digest,
    pub objects: Sequence<Bytes>,
}

/// Seals the contents for n = 3f+1 clouds (f from 1 to 3) under the key and the coefficients that were drawn for this
/// alone. The contents have at most 1,048,576 bytes.
pub fn seal(alloc: Global, f: u8, draw: &Draw, contents: &[u8]) -> Result<Sealed, Memory>
    requires low { 1 ≤ f }
    requires high { f ≤ 3 }
    requires size { length contents.now ≤ 1048576 }
    ensures { IfOk result (λ it. it ≡ sealed f draw.now contents.now) }
{
    let pieces = pieces_of(alloc, f, draw, contents)?;
    let manifest = manifest_over(alloc, f, contents.len() as u32, pieces.as_slice())?;
    let objects = objects_over(alloc, manifest.as_slice(), pieces.as_slice())?;
    Ok(Sealed {
        root: root_digest(manifest.as_slice()),
        content: content_digest(contents),
        manifest,
        objects,
    })
}

/// The pieces of the clouds, in the order of their numbers.
fn pieces_of(
    alloc: Global,
    f: u8,
    draw: &Draw,
    contents: &[u8],
) -> Result<Sequence<KeptPiece>, Memory>
    requires low { 1 ≤ f }
    requires high { f ≤ 3 }
    requires size { length contents.now ≤ 1048576 }
    ensures { IfOk result (λ pieces. pieces ≡ unit_pieces f draw.now contents.now) }
{
    let shares = split(alloc, f, &draw.key, &draw.coefficients)?;
    let blocks = encrypted_blocks(alloc, f, &draw.key, contents)?;
    let pieces = paired(
        alloc,
        contents.len() as u32,
        shares.as_slice(),
        blocks.as_slice(),
    )?;
    Ok(pieces)
}

/// The blocks of the encrypted contents.
fn encrypted_blocks(
    alloc: Global,
    f: u8,
    key: &[u8; 32],
    contents: &[u8],
) -> Result<Sequence<Block>, Memory>
    requires high { f ≤ 3 }
    requires size { length contents.now ≤ 1048576 }
    ensures { IfOk result (λ blocks. blocks ≡ blocks_of f (ciphered key.now contents.now)) }
{
    let mut encrypted = Vec::from_slice(alloc, contents)?;
    xor_stream(key, &mut encrypted);
    encode(alloc, f, &encrypted)
}

/// The piece of each block, with the share at its place.
fn paired(
    alloc: Global,
    size: u32,
    shares: &[Share],
    blocks: &[Block],
) -> Result<Sequence<KeptPiece>, Memory>
    requires { length blocks.now ≤ length shares.now }
    ensures { IfOk result (λ pieces. pieces ≡ paired size shares.now blocks.now) }
{
    let mut pieces = Sequence::new(alloc);
    for (place, block) in blocks.iter().enumerate() {
        pieces.push(KeptPiece {
            cloud: block.number,
            length: size,
            share: shares[place],
            block: block.bytes.copy(alloc)?,
        })?;
    }
    Ok(pieces)
}

/// The manifest over these pieces.
fn manifest_over(alloc: Global, f: u8, size: u32, pieces: &[KeptPiece]) -> Result<Bytes, Memory>
    ensures { IfOk result (λ it. it ≡ manifest_over f size pieces.now) }
{
    let mut manifest = Bytes::from_slice(alloc, b"SCF1")?;
    manifest.push(f)?;
    manifest.extend(&size.to_be_bytes())?;
    for piece in pieces {
        let digest = piece_digest(alloc, piece)?;
        manifest.extend(&digest.0)?;
    }
    Ok(manifest)
}

/// The digest of a piece.
fn piece_digest(alloc: Global, piece: &KeptPiece) -> Result<Digest, Memory>
    ensures { IfOk result (λ digest. digest.0 ≡ sha256 (piece_text piece.now)) }
{
    let bytes = with_piece(alloc, &[], piece)?;
    Ok(block_digest(piece.cloud, bytes.as_slice()))
}

/// These bytes, and behind them those of the piece.
fn with_piece(alloc: Global, front: &[u8], piece: &KeptPiece) -> Result<Bytes, Memory>
    ensures { IfOk result (λ bytes. bytes ≡ front.now ++ piece_bytes piece.now) }
{
    let mut bytes = Bytes::from_slice(alloc, front)?;
    bytes.extend(&piece.share.bytes)?;
    bytes.extend(piece.block.as_slice())?;
    Ok(bytes)
}

/// The object of each piece.
fn objects_over(
    alloc: Global,
    manifest: &[u8],
    pieces: &[KeptPiece],
) -> Result<Sequence<Bytes>, Memory>
    ensures { IfOk result (λ objects. objects ≡ map (λ piece. manifest.now ++ piece_bytes piece) pieces.now) }
{
    let mut objects = Sequence::new(alloc);
    for piece in pieces {
        objects.push(with_piece(alloc, manifest, piece)?)?;
    }
    Ok(objects)
}
