//! What some of the shares of a key tell: f + 1 the key, f the coefficients of any key.

ghost use Rattle.std.specs.Prelude.{◌≡◌, ◌≢◌, ℕ, ◌+◌, ◌≤◌, ◌<◌, List, [], ◌∷◌, length, map, replicate, take, bit_xor, slice_index};
ghost use Rattle.std.specs.List.{All};
ghost use Rattle.scfs_base.specs.declared.naming.Coefficients.{Coefficients};
ghost use Rattle.scfs_gf256.specs.Field.{times};
ghost use Rattle.scfs_gf256.specs.Rows.{row_sum, scaled, add_multiples};
ghost use Rattle.scfs_gf256.specs.Polynomials.{AreBytes, AreDistinct, IsOnlyFit};
ghost use Rattle.scfs_gf256.specs.Interpolation.{coefficients_of, lagrange_factors};
ghost use Rattle.scfs_shamir.specs.Recovery.{points_of, bytes_at, joining_polynomial, joined};
ghost use Rattle.scfs_shamir.specs.Recovery.{fitted_polynomial, IsPoint, IsRow, AreRows, AreSharesOf, IsOnlySharing};

use crate::sharing::Share;
use scfs_base::Coefficients;
use scfs_gf256::{add, factor_at, interpolate_at, inv, mul, mul_row};

/// The key of which these are f + 1 shares (f at most 3) of different points. Of any such shares it is, byte by byte,
/// the value at 0 of the only polynomial of f + 1 coefficients that has their bytes at their points.
pub fn join(f: u8, shares: &[Share]) -> [u8; 32]
    requires high { f ≤ 3 }
    requires count { length shares.now ≡ f + 1 }
    requires distinct { AreDistinct (points_of shares.now) }
    ensures fit { (k : ℕ) → k < 32
        → IsOnlyFit (joining_polynomial shares.now k) (points_of shares.now) (bytes_at shares.now k) }
    ensures value { result ≡ joined shares.now }
    ensures key { (key : List ℕ) (coefficients : Coefficients) → IsRow key → AreRows coefficients
        → AreSharesOf f key coefficients shares.now → result ≡ key }
{
    let points = points(shares);
    joined(&points[..=usize::from(f)], shares)
}

/// That key, where the points are those of the shares.
fn joined(points: &[u8], shares: &[Share]) -> [u8; 32]
    requires points { points.now ≡ points_of shares.now }
    requires distinct { AreDistinct points.now }
    ensures points { AreBytes points.now }
    ensures rows { All (λ share. IsRow share.bytes) shares.now }
    ensures sum { result ≡ add_multiples (replicate 32 0) (lagrange_factors points.now 0) (map (λ share. share.bytes) shares.now) }
{
    let mut key = [0; 32];
    // What a share counts for the value at 0 is the same for each of its bytes.
    for place in 0..shares.len() {
        let factor = factor_at(points, place, 0);
        add_share(factor, &shares[place].bytes, &mut key);
    }
    key
}

/// Adds the bytes of a share, times a factor, to the key.
fn add_share(factor: u8, share: &[u8; 32], key: &mut [u8; 32])
    ensures row { IsRow share.now }
    ensures sum { key.new ≡ row_sum key.old (scaled factor share.now) }
{
    mul_row(factor, share.as_slice(), key.as_mut_slice());
}

/// The only coefficients under which the split of this key gives these f shares (f from 1 to 3) of different points.
/// The rows from f on are zero.
pub fn fit(f: u8, shares: &[Share], key: &[u8; 32]) -> Coefficients
    requires low { 1 ≤ f }
    requires high { f ≤ 3 }
    requires count { length shares.now ≡ f }
    requires points { All (λ share. IsPoint f share.point) shares.now }
    requires distinct { AreDistinct (points_of shares.now) }
    ensures { IsOnlySharing f key.now shares.now result }
{
    let mut linear = [0; 32];
    let mut quadratic = [0; 32];
    let mut cubic = [0; 32];
    for place in 0..32 {
        let [first, second, third] = fit_byte(f, shares, key, place);
        linear[place] = first;
        quadratic[place] = second;
        cubic[place] = third;
    }
    Coefficients {
        rows: [linear, quadratic, cubic],
    }
}

/// The coefficients of the powers 1 to 3 for one byte of the key.
fn fit_byte(f: u8, shares: &[Share], key: &[u8; 32], place: usize) -> [u8; 3]
    requires low { 1 ≤ f }
    requires high { f ≤ 3 }
    requires count { length shares.now ≡ f }
    requires points { All (λ share. IsPoint f share.point) shares.now }
    requires distinct { AreDistinct (points_of shares.now) }
    requires inside { place < 32 }
    ensures coefficients { let all = fitted_polynomial shares.now key.now place in
        result ≡ slice_index all 1 ∷ slice_index all 2 ∷ slice_index all 3 ∷ [] }
    ensures fit { IsOnlyFit (fitted_polynomial shares.now key.now place)
        (0 ∷ points_of shares.now) (slice_index key.now place ∷ bytes_at shares.now place) }
    ensures long { All (λ share. length share.bytes ≡ 32) shares.now }
{
    let count = usize::from(f);
    let points = points(shares);
    let bytes = bytes_at(shares, place);
    higher_coefficients(&points[..count], &bytes[..count], key[place])
}

/// The points of at most four shares, followed by zeros.
fn points(shares: &[Share]) -> [u8; 4]
    requires { length shares.now ≤ 4 }
    ensures { take (length shares.now) result ≡ points_of shares.now }
{
    let mut points = [0; 4];
    for (at, share) in shares.iter().enumerate() {
        points[at] = share.point;
    }
    points
}

/// The byte that each of at most four shares has at a place, followed by zeros.
fn bytes_at(shares: &[Share], place: usize) -> [u8; 4]
    requires few { length shares.now ≤ 4 }
    requires inside { place < 32 }
    ensures bytes { take (length shares.now) result ≡ bytes_at shares.now place }
    ensures long { All (λ share. length share.bytes ≡ 32) shares.now }
{
    let mut bytes = [0; 4];
    for (at, share) in shares.iter().enumerate() {
        bytes[at] = share.bytes[place];
    }
    bytes
}

/// The coefficients of the powers 1 to 3 of the only polynomial of one coefficient more than there are places that is
/// `constant` at 0 and has the values `ys` at the places `xs`.
fn higher_coefficients(xs: &[u8], ys: &[u8], constant: u8) -> [u8; 3]
    requires lengths { length xs.now ≡ length ys.now }
    requires some { 0 < length xs.now }
    requires few { length xs.now ≤ 3 }
    requires distinct { AreDistinct xs.now }
    requires nonzero { All (λ x. x ≢ 0) xs.now }
    ensures fit { IsOnlyFit (coefficients_of (0 ∷ xs.now) (constant ∷ ys.now)) (0 ∷ xs.now) (constant ∷ ys.now) }
    ensures coefficients { let all = coefficients_of (0 ∷ xs.now) (constant ∷ ys.now) in
        result ≡ slice_index all 1 ∷ slice_index all 2 ∷ slice_index all 3 ∷ [] }
{
    let count = xs.len();
    // The value at 0 is the constant coefficient, and what is left of the polynomial is x times the one of the others.
    let first = quotients(xs, ys, constant);
    let linear = interpolate_at(xs, &first[..count], 0);
    let second = quotients(xs, &first[..count], linear);
    let quadratic = interpolate_at(xs, &second[..count], 0);
    let third = quotients(xs, &second[..count], quadratic);
    [linear, quadratic, interpolate_at(xs, &third[..count], 0)]
}

/// The values y less the constant, divided by their places x; followed by zeros.
fn quotients(xs: &[u8], ys: &[u8], constant: u8) -> [u8; 3]
    requires lengths { length xs.now ≡ length ys.now }
    requires few { length xs.now ≤ 3 }
    requires nonzero { All (λ x. x ≢ 0) xs.now }
    ensures { (k : ℕ) → k < length xs.now
        → times (slice_index xs.now k) (slice_index result k) ≡ bit_xor (slice_index ys.now k) constant }
{
    let mut quotients = [0; 3];
    for (at, &x) in xs.iter().enumerate() {
        quotients[at] = quotient(x, ys[at], constant);
    }
    quotients
}

/// A value less the constant, divided by its place.
fn quotient(x: u8, value: u8, constant: u8) -> u8
    requires { x ≢ 0 }
    ensures { times x result ≡ bit_xor value constant }
{
    mul(add(value, constant), inv(x))
}
