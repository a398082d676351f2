//! The operations of the field on bytes.

ghost use Rattle.std.specs.Prelude.{◌≡◌, ◌≢◌, bit_xor};
ghost use Rattle.scfs_gf256.specs.Field.{times};

/// The sum of `a` and `b`, which is also their difference.
pub fn add(a: u8, b: u8) -> u8
    ensures { result ≡ bit_xor a b }
{
    a ^ b
}

/// The product of `a` and `b`. No branch and no table depends on them.
pub fn mul(a: u8, b: u8) -> u8
    ensures { result ≡ times a b }
{
    let mut product = 0;
    let mut shifted = a;
    for place in 0..8u32 {
        product ^= shifted * ((b >> place) & 1);
        shifted = twice(shifted);
    }
    product
}

/// The product of `a` and the polynomial x.
fn twice(a: u8) -> u8
    ensures { result ≡ times a 2 }
{
    (a << 1) ^ (a >> 7) * 0x1b
}

/// The inverse of `a`, whose product with `a` is 1: its power 254, since its power 255 is 1.
pub fn inv(a: u8) -> u8
    requires { a ≢ 0 }
    ensures { times a result ≡ 1 }
{
    let mut square = a;
    let mut product = 1;
    for _turn in 0..7u32 {
        square = mul(square, square);
        product = mul(product, square);
    }
    product
}
