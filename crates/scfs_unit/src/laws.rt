//! What holds of seals, objects and pieces: each clause is a law of the words that the other contracts are written in.
//! The functions do nothing.

ghost use Rattle.std.specs.Prelude.{◌≡◌, ℕ, ◌+◌, ◌*◌, ◌<◌, ◌≤◌, ◌^◌, List, ◌++◌, length};
ghost use Rattle.scfs_base.specs.declared.naming.Digest.{Digest};
ghost use Rattle.scfs_gf256.specs.Polynomials.{AreBytes};
ghost use Rattle.scfs_stream.specs.declared.sealing.Draw.{Draw};
ghost use Rattle.scfs_unit.specs.declared.pieces.KeptPiece.{KeptPiece};
ghost use Rattle.scfs_unit.specs.Unit.{unit_piece, object, sealed, IsDraw};
ghost use Rattle.scfs_unit.specs.Checking.{checked, IsPiece};
ghost use Rattle.scfs_unit.specs.Clash.{blocks_of_seal, blocks_of_answer, NoClash};
ghost use Rattle.scfs_unit.specs.Unsealing.{unseal, AreEnough, AreSomeOf};

/// Under the root of a seal its objects are accepted, each for its cloud, and nothing else is where no two different
/// blocks of the seal and of the given bytes share a digest.
pub fn acceptance_laws()
    ensures objects { (f : ℕ) (draw : Draw) (contents : List ℕ) (cloud : ℕ) → length contents < 2 ^ 32 → cloud < 3 * f + 1
        → checked f cloud (sealed f draw contents).root (object f draw contents cloud) ≡ Ok (unit_piece f draw contents cloud) }
    ensures only { (f : ℕ) (draw : Draw) (contents : List ℕ) (cloud : ℕ) (bytes : List ℕ) (piece : KeptPiece)
        → cloud < 3 * f + 1 → NoClash (blocks_of_seal f draw contents ++ blocks_of_answer f cloud bytes)
        → checked f cloud (sealed f draw contents).root bytes ≡ Ok piece → bytes ≡ object f draw contents cloud }
    ensures pieces { (f cloud : ℕ) (root : Digest) (bytes : List ℕ) (piece : KeptPiece) → cloud < 3 * f + 1
        → checked f cloud root bytes ≡ Ok piece → (piece.cloud ≡ cloud) × IsPiece f piece }
{}

/// Any f+1 pieces of one seal are enough to open it, and hold what was sealed.
pub fn unsealing_laws()
    ensures enough { (f : ℕ) (draw : Draw) (contents : List ℕ) (pieces : List KeptPiece) → length contents ≤ 1048576
        → AreSomeOf f draw contents pieces → AreEnough f pieces }
    ensures gives_back { (f : ℕ) (draw : Draw) (contents : List ℕ) (pieces : List KeptPiece) → f ≤ 3 → IsDraw draw
        → AreBytes contents → AreSomeOf f draw contents pieces → unseal f pieces ≡ contents }
{}
