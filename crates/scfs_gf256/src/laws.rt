//! What holds of the field, of polynomials over it and of rows of bytes: each clause is a law of the words that the
//! other contracts are written in. The functions do nothing.

ghost use Rattle.std.specs.Prelude.{◌≡◌, ◌≢◌, ◌⊎◌, ℕ, ◌<◌, List, [], ◌∷◌, map, length, replicate, slice_index};
ghost use Rattle.std.specs.Prelude.{bit_xor};
ghost use Rattle.std.specs.List.{All};
ghost use Rattle.scfs_gf256.specs.Field.{product_of, times, inverse_of};
ghost use Rattle.scfs_gf256.specs.Rows.{row_sum, scaled, dot_product, add_multiples, column_of};
ghost use Rattle.scfs_gf256.specs.Polynomials.{value_of, AreBytes, AreDistinct, IsOnlyFit};
ghost use Rattle.scfs_gf256.specs.Interpolation.{coefficients_of, lagrange_factors, unit_values};

/// Sums are bytes, may be grouped and ordered at will, and have the unit 0. Each byte is its own opposite.
pub fn sum_laws()
    ensures byte { (a b : ℕ) → a < 256 → b < 256 → bit_xor a b < 256 }
    ensures associative { (a b c : ℕ) → bit_xor (bit_xor a b) c ≡ bit_xor a (bit_xor b c) }
    ensures commutative { (a b : ℕ) → bit_xor a b ≡ bit_xor b a }
    ensures zero { (a : ℕ) → bit_xor a 0 ≡ a }
    ensures opposite { (a : ℕ) → bit_xor a a ≡ 0 }
{}

/// Products are bytes, may be grouped and ordered at will, have the unit 1 and distribute over sums. None of bytes
/// other than 0 is 0, and each such byte has an inverse.
pub fn product_laws()
    // The product of the polynomials is some multiple of 0x11b plus the product in the field.
    ensures remainder { (a b : ℕ) → a < 256 → b < 256
        → (q : ℕ) × (product_of 8 a b ≡ bit_xor (product_of 7 0x11b q) (times a b)) }
    ensures byte { (a b : ℕ) → times a b < 256 }
    ensures associative { (a b c : ℕ) → times (times a b) c ≡ times a (times b c) }
    ensures commutative { (a b : ℕ) → times a b ≡ times b a }
    ensures distributive { (a b c : ℕ) → times a (bit_xor b c) ≡ bit_xor (times a b) (times a c) }
    ensures one { (a : ℕ) → a < 256 → times a 1 ≡ a }
    ensures zero { (a : ℕ) → times a 0 ≡ 0 }
    ensures no_zero_divisors { (a b : ℕ) → a < 256 → b < 256 → times a b ≡ 0 → (a ≡ 0) ⊎ (b ≡ 0) }
    ensures inverse { (a : ℕ) → a < 256 → a ≢ 0 → times a (inverse_of a) ≡ 1 }
{}

/// The value of a sum is the sum of the values, that of a multiple the multiple of the value.
pub fn value_laws()
    ensures byte { (c : List ℕ) (x : ℕ) → value_of c x < 256 }
    ensures sums { (c d : List ℕ) (x : ℕ) → length c ≡ length d
        → value_of (row_sum c d) x ≡ bit_xor (value_of c x) (value_of d x) }
    ensures multiples { (factor : ℕ) (c : List ℕ) (x : ℕ)
        → value_of (scaled factor c) x ≡ times factor (value_of c x) }
    ensures horner { (c : ℕ) (cs : List ℕ) (x : ℕ) → c < 256
        → value_of (c ∷ cs) x ≡ bit_xor c (times x (value_of cs x)) }
    ensures at_zero { (c : ℕ) (cs : List ℕ) → c < 256 → value_of (c ∷ cs) 0 ≡ c }
{}

/// As many values at distinct places as there are coefficients fix these coefficients. The value elsewhere is the sum
/// of the given values, each times a factor that the places alone determine: what interpolation gives there for the
/// value 1 at its place and 0 at all others.
pub fn interpolation_laws()
    ensures one_fit { (xs ys : List ℕ) → AreBytes xs → AreBytes ys → length xs ≡ length ys → AreDistinct xs
        → IsOnlyFit (coefficients_of xs ys) xs ys }
    ensures gives_back { (c xs : List ℕ) → AreBytes c → AreBytes xs → length c ≡ length xs → AreDistinct xs
        → coefficients_of xs (map (value_of c) xs) ≡ c }
    ensures linear { (xs ys : List ℕ) (x : ℕ) → length xs ≡ length ys
        → value_of (coefficients_of xs ys) x ≡ dot_product (lagrange_factors xs x) ys }
    ensures factors { (xs : List ℕ) (x place : ℕ) → place < length xs
        → slice_index (lagrange_factors xs x) place
        ≡ value_of (coefficients_of xs (unit_values (length xs) place)) x }
    ensures as_many { (xs : List ℕ) (x : ℕ) → length (lagrange_factors xs x) ≡ length xs }

    // Whole rows are interpolated by the same factors: byte k of their sum is the value that column k gives.
    ensures rows { (xs : List ℕ) (rows : List (List ℕ)) (n x k : ℕ) → length xs ≡ length rows
        → All (λ row. length row ≡ n) rows
        → slice_index (add_multiples (replicate n 0) (lagrange_factors xs x) rows) k
        ≡ value_of (coefficients_of xs (column_of rows k)) x }
{}

/// Sums and multiples of rows are those of the bytes at each place.
pub fn row_laws()
    ensures sums { (xs ys : List ℕ) (k : ℕ) → length xs ≡ length ys
        → slice_index (row_sum xs ys) k ≡ bit_xor (slice_index xs k) (slice_index ys k) }
    ensures multiples { (factor : ℕ) (row : List ℕ) (k : ℕ)
        → slice_index (scaled factor row) k ≡ times factor (slice_index row k) }
    ensures columns { (start factors : List ℕ) (rows : List (List ℕ)) (k : ℕ)
        → All (λ row. length row ≡ length start) rows
        → slice_index (add_multiples start factors rows) k
        ≡ bit_xor (slice_index start k) (dot_product factors (column_of rows k)) }
    ensures length { (start factors : List ℕ) (rows : List (List ℕ))
        → All (λ row. length row ≡ length start) rows
        → length (add_multiples start factors rows) ≡ length start }
{}
