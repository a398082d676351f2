//! What holds of the machine by its definitions; the functions only carry the laws.

ghost use Rattle.std.specs.Prelude.{◌≡◌, ℕ, Some};
ghost use Rattle.scfs_base.specs.declared.cloud.CloudAnswer.{CloudAnswer};
ghost use Rattle.scfs_schedule.specs.declared.types.Header.{Header};
ghost use Rattle.scfs_unit.specs.declared.pieces.KeptPiece.{KeptPiece};
ghost use Rattle.scfs_model.specs.Reading.{Reading, piece_in};
ghost use Rattle.scfs_model.specs.UnitFormat.{under};

/// A good piece is of the cloud that answered.
pub fn pieces_are_of_their_clouds()
    ensures { (header : Header) (r : Reading) (c : ℕ) (answer : CloudAnswer) (piece : KeptPiece) →
        piece_in (under header) r c answer ≡ Some piece → piece.cloud ≡ c }
{}
