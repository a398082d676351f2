//! What holds of shares and keys, whatever was drawn: the clauses are laws of the words that the other contracts are
//! written in. The functions do nothing.

ghost use Rattle.std.specs.Prelude.{◌≡◌, ℕ, ◌≤◌, List, length};
ghost use Rattle.std.specs.List.{All};
ghost use Rattle.scfs_base.specs.declared.naming.Coefficients.{Coefficients};
ghost use Rattle.scfs_gf256.specs.Polynomials.{AreDistinct};
ghost use Rattle.scfs_shamir.specs.declared.sharing.Share.{Share};
ghost use Rattle.scfs_shamir.specs.Recovery.{points_of, IsRow, IsShare, IsOnlySharing};

/// Any f shares of different points fit every key by exactly one list of coefficients.
pub fn any_shares_fit_every_key()
    ensures { (f : ℕ) (shares : List Share) (key : List ℕ) → 1 ≤ f → f ≤ 3 → length shares ≡ f
        → All (IsShare f) shares → AreDistinct (points_of shares) → IsRow key
        → (coefficients : Coefficients) × IsOnlySharing f key shares coefficients }
{}
