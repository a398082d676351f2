//! A cloud's piece of a unit, as it stands in the bytes that the cloud gave, and as it is kept.

ghost use Rattle.std.specs.Prelude.{◌≡◌, IfOk};
ghost use Rattle.scfs_unit.specs.Checking.{kept};

use scfs_base::{Bytes, Memory};
use scfs_shamir::Share;
use std::alloc::Global;

/// The piece in an accepted object: the cloud that holds it, the length of the contents in bytes, the share of the key,
/// whose point is the cloud's number and one, and the block of the encrypted contents.
#[derive(Clone, Copy, Debug)]
pub struct GoodPiece<'a> {
    pub cloud: u8,
    pub length: u32,
    pub share: Share,
    pub block: &'a [u8],
}

/// The same piece, with a block of its own.
#[derive(Debug, Drop)]
pub struct KeptPiece {
    pub cloud: u8,
    pub length: u32,
    pub share: Share,
    pub block: Bytes,
}

/// The first test that bytes fail as a cloud's object.
#[derive(Clone, Copy, Debug, PartialEq, Eq)]
pub enum BadPiece {
    /// There are fewer bytes than manifest and share have, or not as many as the length in them demands.
    Length,
    /// They don't begin with "SCF1" and f.
    Magic,
    /// The root is not the digest of the manifest.
    Root,
    /// The digest of the rest, with the cloud's number, is not the manifest's.
    Piece,
}

/// The piece with a copy of its block.
pub fn keep_piece(alloc: Global, piece: &GoodPiece<'_>) -> Result<KeptPiece, Memory>
    ensures { IfOk result (λ it. it ≡ kept piece.now.cloud piece.now.length piece.now.share piece.now.block.now) }
{
    let block = Bytes::from_slice(alloc, piece.block)?;
    Ok(KeptPiece {
        cloud: piece.cloud,
        length: piece.length,
        share: piece.share,
        block,
    })
}
