//! What holds of contents and their blocks: each clause is a law of the words that the other contracts are written in.
//! The function does nothing.

ghost use Rattle.std.specs.Prelude.{◌≡◌, ℕ, ◌+◌, ◌*◌, ◌<◌, ◌≤◌, List, ◌++◌, map, length, replicate, slice_index};
ghost use Rattle.std.specs.List.{concat};
ghost use Rattle.scfs_gf256.specs.Rows.{column_of};
ghost use Rattle.scfs_gf256.specs.Polynomials.{value_of, AreBytes, IsFit};
ghost use Rattle.scfs_erasure.specs.declared.block.Block.{Block};
ghost use Rattle.scfs_erasure.specs.Rows.{numbers_below, row_length, rows_of, piece};
ghost use Rattle.scfs_erasure.specs.Blocks.{size_of, AreEnough, AreSomeOf, rows_from, contents_from};

/// Any f+1 blocks of contents give the contents back, and fix each further block.
pub fn erasure_laws()
    // The rows are the contents, filled with zeros.
    ensures rows { (f : ℕ) (contents : List ℕ)
        → (zeros : ℕ) × (concat (rows_of f contents) ≡ contents ++ replicate zeros 0) }
    ensures row_lengths { (f size : ℕ) → size ≤ (f + 1) * row_length f size }

    // In each column a piece has the value of the polynomial with f+1 coefficients that has the rows' bytes at 0 to f.
    ensures piece { (f : ℕ) (contents : List ℕ) (i k : ℕ) (c : List ℕ) → f ≤ 3 → AreBytes contents
        → k < row_length f (length contents)
        → IsFit c (numbers_below (f + 1)) (column_of (rows_of f contents) k)
        → slice_index (piece f contents i) k ≡ value_of c i }
    ensures piece_lengths { (f : ℕ) (contents : List ℕ) (i : ℕ)
        → length (piece f contents i) ≡ row_length f (length contents) }

    // The first f+1 pieces are the rows.
    ensures first_pieces { (f : ℕ) (contents : List ℕ) → f ≤ 3 → AreBytes contents
        → map (piece f contents) (numbers_below (f + 1)) ≡ rows_of f contents }

    // Any f+1 blocks of contents are enough, have the rows of the contents, and give the contents back.
    ensures enough { (f : ℕ) (contents : List ℕ) (blocks : List Block) → AreSomeOf f contents blocks
        → AreEnough f (row_length f (length contents)) blocks }
    ensures same_rows { (f : ℕ) (contents : List ℕ) (blocks : List Block) → f ≤ 3 → AreBytes contents
        → AreSomeOf f contents blocks
        → rows_from f (row_length f (length contents)) blocks ≡ rows_of f contents }
    ensures gives_back { (f : ℕ) (contents : List ℕ) (blocks : List Block) → f ≤ 3 → AreBytes contents
        → AreSomeOf f contents blocks → contents_from f (length contents) blocks ≡ contents }
    ensures size { (f size : ℕ) (blocks : List Block) → AreEnough f size blocks → size_of blocks ≡ size }
{}
