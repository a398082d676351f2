use super::*;
use std::alloc::{AllocError, Global};
use std::test::Fail;

// The bytes in lowercase hexadecimal digits.
fn hexadecimal(alloc: Global, bytes: &[u8]) -> Result<String, AllocError> {
    let mut text = String::new(alloc);
    for byte in bytes {
        text.push_str(format!(in alloc; "{byte:02x}")?.as_str())?;
    }
    Ok(text)
}

// The seed 0, 1, 2, and so on.
fn rising() -> [u8; 32] {
    let mut seed = [0; 32];
    for (i, byte) in seed.iter_mut().enumerate() {
        *byte = i as u8;
    }
    seed
}

// The first test vectors of RFC 8439's appendix: the zero key, from the block counter 0 on.
#[test]
fn zero_key(rt: HostRuntime) -> Result<(), Fail> {
    let mut short = [0; 16];
    xor_stream(&[0; 32], &mut short);
    assert_eq!(rt;
        hexadecimal(rt.alloc(), short.as_slice())?.as_str(),
        "76b8e0ada0f13d90405d6ae55386bd28"
    );

    let mut long = [0; 83];
    xor_stream(&[0; 32], &mut long);
    assert_eq!(rt;
        hexadecimal(rt.alloc(), &long[62..])?.as_str(),
        "65869f07e7be5551387a98ba977c732d080dcb0f29"
    );
    Ok(())
}

// Bytes past the generator's buffer of 256, and an end inside a word, by another implementation (in Python).
#[test]
fn far_bytes(rt: HostRuntime) -> Result<(), Fail> {
    let mut bytes = [0; 1003];
    xor_stream(&rising(), &mut bytes);
    assert_eq!(rt;
        hexadecimal(rt.alloc(), &bytes[990..])?.as_str(),
        "c3e8acdecb518c353e95009941"
    );
    xor_stream(&rising(), &mut bytes);
    assert!(rt; bytes.iter().all(|byte| *byte == 0));
    Ok(())
}

// The draws of one seed, by another implementation (in Python).
#[test]
fn draws(rt: HostRuntime) -> Result<(), Fail> {
    let zeros = "0000000000000000000000000000000000000000000000000000000000000000";
    let first = "2b23cce7a26023ab3f0eef693ac87f64258235eab1f7a32dc22762a0485b410c";
    let second = "18b84231ade6a6d113615c61af434e27f8b1f3f5e1ad5b5cecf8fc122a35755c";
    let third = "7208086dd1ee3c5d9d815824640e003c9ba0f65ede5d59ce0d2a4a7f31955acd";
    for (f, expected) in [(1, [first, zeros, zeros]), (3, [first, second, third])] {
        let drawn = draw(&rising(), f);
        assert_eq!(rt;
            hexadecimal(rt.alloc(), drawn.key.as_slice())?.as_str(),
            "39fd2b7dd9c5196a8dbd0377b8dc4a498a35d86fbcde6accb2cc7d4cd8ea2492"
        );
        for (row, coefficients) in drawn.coefficients.rows.iter().zip(expected.iter()) {
            assert_eq!(rt;
                hexadecimal(rt.alloc(), row.as_slice())?.as_str(),
                *coefficients
            );
        }
    }
    Ok(())
}

// The laws have nothing to run.
#[test]
fn laws_return() {
    undoes_itself();
    is_made_of_words();
}
