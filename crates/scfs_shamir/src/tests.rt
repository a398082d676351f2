//! Known shares.

ghost use Rattle.std.specs.Prelude.{◌≡◌};

use crate::laws::any_shares_fit_every_key;
use crate::recovery::{fit, join};
use crate::sharing::{Share, split};
use scfs_base::Coefficients;
use std::alloc::{AllocError, Global};
use std::test::Fail;

// A share of one byte throughout.
fn even_share(point: u8, byte: u8) -> Share
    ensures { result.point ≡ point }
{
    Share {
        point,
        bytes: [byte; 32],
    }
}

// A line over the field: the byte 53 at 0, and the slope 0a.
#[test]
fn line(rt: HostRuntime) -> Result<(), Fail> {
    let coefficients = Coefficients {
        rows: [[0x0a; 32], [0; 32], [0; 32]],
    };
    let shares = split(rt.alloc(), 1, &[0x53; 32], &coefficients)?;
    let expected = [
        even_share(1, 0x59),
        even_share(2, 0x47),
        even_share(3, 0x4d),
        even_share(4, 0x7b),
    ];
    assert_eq!(rt; shares.as_slice(), expected.as_slice());
    assert_eq!(rt;
        join(1, &[even_share(4, 0x7b), even_share(2, 0x47)]),
        [0x53; 32]
    );
    assert_eq!(rt; fit(1, &[even_share(1, 0x59)], &[0x53; 32]), coefficients);
    Ok(())
}

// The same share fits another key by another slope.
#[test]
fn other_key(rt: HostRuntime) {
    let coefficients = fit(1, &[even_share(1, 0x59)], &[0; 32]);
    assert_eq!(rt; coefficients.rows, [[0x59; 32], [0; 32], [0; 32]]);
    any_shares_fit_every_key();
}

// The bytes in lowercase hexadecimal digits.
fn hexadecimal(alloc: Global, bytes: &[u8]) -> Result<String, AllocError> {
    let mut text = String::new(alloc);
    for byte in bytes {
        text.push_str(format!(in alloc; "{byte:02x}")?.as_str())?;
    }
    Ok(text)
}

// Bytes that rise by a step.
fn rising(first: u8, step: u8) -> [u8; 32] {
    let mut bytes = [first; 32];
    for (place, byte) in bytes.iter_mut().enumerate() {
        *byte = first.wrapping_add(step.wrapping_mul(place as u8));
    }
    bytes
}

// Shares of polynomials of degree 3, by another implementation (in Python).
#[test]
fn cubic(rt: HostRuntime) -> Result<(), Fail> {
    let key = rising(0, 1);
    let coefficients = Coefficients {
        rows: [rising(1, 3), rising(2, 5), rising(3, 7)],
    };
    let shares = split(rt.alloc(), 3, &key, &coefficients)?;
    let shares = shares.as_slice();
    assert_eq!(rt; shares.len(), 10);
    assert_eq!(rt;
        hexadecimal(rt.alloc(), shares[0].bytes.as_slice())?.as_str(),
        "000818000028180000786840403808000008f8c0c0a8b8808098680000180800"
    );
    assert_eq!(rt;
        hexadecimal(rt.alloc(), shares[9].bytes.as_slice())?.as_str(),
        "3b559490917ceaa774f33dcdcc20a7c9a5cbc39f9ed8161dce83debfbeba7b15"
    );

    let of_point = |point: u8, place: usize| Share {
        point,
        bytes: shares[place].bytes,
    };
    let four = [
        of_point(10, 9),
        of_point(3, 2),
        of_point(7, 6),
        of_point(4, 3),
    ];
    assert_eq!(rt; join(3, &four), key);
    assert_eq!(rt; fit(3, &four[1..], &key), coefficients);
    Ok(())
}
