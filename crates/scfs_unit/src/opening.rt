//! From pieces back to the contents.

ghost use Rattle.std.specs.Prelude.{◌≡◌, ◌≤◌, ◌<◌, ℕ, List, length, IfOk};
ghost use Rattle.std.specs.List.{All};
ghost use Rattle.scfs_gf256.specs.Polynomials.{IsOnlyFit, AreBytes};
ghost use Rattle.scfs_erasure.specs.Rows.{row_length};
ghost use Rattle.scfs_erasure.specs.Blocks.{AreOnlyRows, rows_from};
ghost use Rattle.scfs_shamir.specs.Recovery.{points_of, bytes_at, joining_polynomial};
ghost use Rattle.scfs_stream.specs.declared.sealing.Draw.{Draw};
ghost use Rattle.scfs_stream.specs.Stream.{ciphered};
ghost use Rattle.scfs_unit.specs.Unit.{IsDraw};
ghost use Rattle.scfs_unit.specs.Unsealing.{shares_in, blocks_in, length_of, unseal, AreEnough, AreSomeOf};

use crate::pieces::KeptPiece;
use scfs_base::{Bytes, Memory};
use scfs_erasure::{Block, decode};
use scfs_shamir::{Share, join};
use scfs_stream::xor_stream;
use std::alloc::Global;

/// The contents of which f+1 pieces are given (f from 1 to 3): accepted under one root, of different clouds and of one
/// length, which is at most 1,048,576. Of pieces of one seal they are what was sealed, whichever pieces they are.
pub fn open_unit(alloc: Global, f: u8, pieces: &[KeptPiece]) -> Result<Bytes, Memory>
    requires low { 1 ≤ f }
    requires high { f ≤ 3 }
    requires enough { AreEnough f pieces.now }
    ensures key { IfOk result (λ contents. (k : ℕ) → k < 32 → IsOnlyFit
        (joining_polynomial (shares_in pieces.now) k) (points_of (shares_in pieces.now)) (bytes_at (shares_in pieces.now) k)) }
    ensures rows { IfOk result (λ contents. let size = row_length f (length_of pieces.now) in
        AreOnlyRows f size (blocks_in pieces.now) (rows_from f size (blocks_in pieces.now))) }
    ensures contents { IfOk result (λ contents. contents ≡ unseal f pieces.now) }
    ensures sealed { IfOk result (λ opened. (draw : Draw) (contents : List ℕ) → IsDraw draw → AreBytes contents
        → AreSomeOf f draw contents pieces.now → opened ≡ contents) }
{
    let shares = placed_shares(alloc, pieces)?;
    let key = join(f, &shares);
    let blocks = numbered_blocks(alloc, pieces)?;
    let encrypted = decode(alloc, f, pieces[0].length, &blocks)?;
    let contents = with_stream(alloc, &key, encrypted.as_slice())?;
    Ok(contents)
}

/// The shares, each at the point after its cloud's number.
fn placed_shares(alloc: Global, pieces: &[KeptPiece]) -> Result<Vec<Share>, Memory>
    requires { All (λ piece. piece.cloud < 10) pieces.now }
    ensures { IfOk result (λ shares. shares.items ≡ shares_in pieces.now) }
{
    let mut shares = Vec::new(alloc);
    for piece in pieces {
        shares.push(Share {
            point: piece.cloud + 1,
            bytes: piece.share.bytes,
        })?;
    }
    Ok(shares)
}

/// The blocks, each under its cloud's number.
fn numbered_blocks(alloc: Global, pieces: &[KeptPiece]) -> Result<Vec<Block>, Memory>
    ensures { IfOk result (λ blocks. blocks.items ≡ blocks_in pieces.now) }
{
    let mut blocks = Vec::new(alloc);
    for piece in pieces {
        blocks.push(Block {
            number: piece.cloud,
            bytes: piece.block.copy(alloc)?,
        })?;
    }
    Ok(blocks)
}

/// The bytes with the key's stream added.
fn with_stream(alloc: Global, key: &[u8; 32], bytes: &[u8]) -> Result<Bytes, Memory>
    requires { length bytes.now ≤ 1048576 }
    ensures { IfOk result (λ added. added ≡ ciphered key.now bytes.now) }
{
    let mut added = Vec::from_slice(alloc, bytes)?;
    xor_stream(key, &mut added);
    Ok(Bytes::from_vec(added))
}
