//! Values of polynomials over the field, and their interpolation.

ghost use Rattle.std.specs.Prelude.{◌≡◌, ◌<◌, ◌+◌, ◌++◌, length, take, drop, slice_index};
ghost use Rattle.scfs_gf256.specs.Polynomials.{value_of, AreDistinct, IsOnlyFit};
ghost use Rattle.scfs_gf256.specs.Interpolation.{from_roots, coefficients_of, lagrange_factors};

use crate::field::{add, inv, mul};

/// The value at `x` of the polynomial in which `coefficients[j]` is the factor of x^j.
pub fn value_at(coefficients: &[u8], x: u8) -> u8
    ensures { result ≡ value_of coefficients.now x }
{
    let highest_first = coefficients.iter().rev();
    highest_first.fold(0, |value, &coefficient| add(coefficient, mul(x, value)))
}

/// The value at `x` of the only polynomial of as many coefficients as there are points that has, at each place of `xs`,
/// the value in `ys`. There is at least one point, and the places differ.
pub fn interpolate_at(xs: &[u8], ys: &[u8], x: u8) -> u8
    requires lengths { length xs.now ≡ length ys.now }
    requires points { 0 < length xs.now }
    requires distinct { AreDistinct xs.now }
    ensures fit { IsOnlyFit (coefficients_of xs.now ys.now) xs.now ys.now }
    ensures value { result ≡ value_of (coefficients_of xs.now ys.now) x }
{
    let mut value = 0;
    for (place, &y) in ys.iter().enumerate() {
        value = add(value, mul(factor_at(xs, place, x), y));
    }
    value
}

/// The factor with which the value at `xs[place]` counts for the value at `x`: the sum of the values, each times its
/// factor, is what interpolation gives. The places differ.
pub fn factor_at(xs: &[u8], place: usize, x: u8) -> u8
    requires inside { place < length xs.now }
    requires distinct { AreDistinct xs.now }
    ensures { result ≡ slice_index (lagrange_factors xs.now x) place }
{
    let own = product_of_others(xs, place, xs[place]);
    mul(inv(own), product_of_others(xs, place, x))
}

/// The product of x - r over all `xs` but that at `place`.
fn product_of_others(xs: &[u8], place: usize, x: u8) -> u8
    requires { place < length xs.now }
    ensures { result ≡ value_of (from_roots (take place xs.now ++ drop (place + 1) xs.now)) x }
{
    mul(product_at(&xs[..place], x), product_at(&xs[place + 1..], x))
}

/// The product of x - root over all roots.
fn product_at(roots: &[u8], x: u8) -> u8
    ensures { result ≡ value_of (from_roots roots.now) x }
{
    roots
        .iter()
        .fold(1, |product, &root| mul(product, add(x, root)))
}
