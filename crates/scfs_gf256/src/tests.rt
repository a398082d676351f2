//! Known products, values and points.

use crate::field::{add, inv, mul};
use crate::polynomials::{interpolate_at, value_at};
use crate::rows::mul_row;

// The products are the examples of FIPS 197, as is the inverse of 0x53.
#[test]
fn known_products(rt: HostRuntime) {
    assert_eq!(rt; add(0x57, 0x83), 0xd4);
    assert_eq!(rt; mul(0x57, 0x83), 0xc1);
    assert_eq!(rt; mul(0x57, 0x13), 0xfe);
    assert_eq!(rt; mul(0x03, 0x03), 0x05);
    assert_eq!(rt; inv(0x01), 0x01);
    assert_eq!(rt; inv(0x53), 0xca);
}

#[test]
fn known_row(rt: HostRuntime) {
    let mut row = [0; 3];
    mul_row(0x57, &[0x83, 0x13, 0x01], &mut row);
    assert_eq!(rt; row, [0xc1, 0xfe, 0x57]);
}

// Bytes in blocks of 32 and the rest after them are multiplied alike.
#[test]
fn known_long_row(rt: HostRuntime) {
    let mut row = [0x57; 71];
    mul_row(0x57, &[0x83; 71], &mut row);
    assert_eq!(rt; row, [0x96; 71]);
}

// A block of 32 bytes and one byte after it.
#[test]
fn known_row_past_a_block(rt: HostRuntime) {
    let mut row = [0; 33];
    mul_row(0x57, &[0x13; 33], &mut row);
    assert_eq!(rt; row, [0xfe; 33]);
}

// The column 01, 00, 03 of the places 0, 1 and 2 goes on with 02, 05, 04 and 07, and the last three give it back.
#[test]
fn known_points(rt: HostRuntime) {
    assert_eq!(rt; value_at(&[0x01, 0x03], 0x03), 0x04);
    assert_eq!(rt; interpolate_at(&[0, 1, 2], &[0x01, 0x00, 0x03], 3), 0x02);
    assert_eq!(rt; interpolate_at(&[0, 1, 2], &[0x01, 0x00, 0x03], 6), 0x07);
    assert_eq!(rt; interpolate_at(&[4, 5, 6], &[0x05, 0x04, 0x07], 2), 0x03);
}
