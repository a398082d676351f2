//! The field of 256 elements of FIPS 197, polynomials over it and their interpolation.
//!
//! A byte is a polynomial over two elements, its bit j being the coefficient of x^j. The sum is the exclusive or, the
//! product that of the polynomials, reduced by x^8 + x^4 + x^3 + x + 1.
//! Nothing here takes memory.
#![tactic(auto)]

mod field;
mod lanes;
mod laws;
mod polynomials;
mod rows;
#[cfg(test)]
mod tests;

pub use field::{add, inv, mul};
pub use laws::{interpolation_laws, product_laws, row_laws, sum_laws, value_laws};
pub use polynomials::{factor_at, interpolate_at, value_at};
pub use rows::mul_row;
