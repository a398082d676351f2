use super::*;
use scfs_base::{Digest, UploadNo};
use std::alloc::{AllocError, Global};
use std::test::Fail;

// The bytes in lowercase hexadecimal digits.
fn hexadecimal(alloc: Global, bytes: &[u8]) -> Result<String, AllocError> {
    let mut text = String::new(alloc);
    for byte in bytes {
        text.push_str(format!(in alloc; "{byte:02x}")?.as_str())?;
    }
    Ok(text)
}

// The examples of FIPS 180-4 for messages of one block and of two.
#[test]
fn sha_256_examples(rt: HostRuntime) -> Result<(), Fail> {
    let two_blocks = b"abcdbcdecdefdefgefghfghighijhijkijkljklmklmnlmnomnopnopq";
    for (message, digest) in [
        (
            b"".as_slice(),
            "e3b0c44298fc1c149afbf4c8996fb92427ae41e4649b934ca495991b7852b855",
        ),
        (
            b"abc".as_slice(),
            "ba7816bf8f01cfea414140de5dae2223b00361a396177a9cb410ff61f20015ad",
        ),
        (
            two_blocks.as_slice(),
            "248d6a61d20638b8e5c026930c3e6039a33ce45964ff2167f6ecedd419db06c1",
        ),
    ] {
        let shown = hexadecimal(rt.alloc(), plain_digest(message).0.as_slice())?;
        assert_eq!(rt; shown.as_str(), digest);
    }
    Ok(())
}

// The digests of texts that begin with a prefix byte, by another implementation (Python's hashlib).
#[test]
fn prefixed_digests(rt: HostRuntime) -> Result<(), Fail> {
    let mut seed = [0; 32];
    for (i, byte) in seed.iter_mut().enumerate() {
        *byte = i as u8;
    }
    let upload = UploadNo {
        agent: 7,
        incarnation: 0x0001_0203,
        count: 0x0405_0607,
    };
    let Digest(root) = root_digest(b"manifest");
    let Digest(block) = block_digest(2, b"piece");
    let Digest(content) = content_digest(b"contents");
    let draw = draw_seed(&seed, &upload);
    let key = record_key(&seed, 9);
    for (digest, expected) in [
        (
            root.as_slice(),
            "c8ecfeafb2915efa3050c1fc311a7d38e64ec1df446f1d62f1a80513080e381a",
        ),
        (
            block.as_slice(),
            "8fb1f10f657e56b0664be3c26d215f0be377f68420b0e047a26d0ac291830c04",
        ),
        (
            content.as_slice(),
            "2fd269cc5012b99c1170ca1fd49133315ea1fba0a6823cd4eacbff98b8b8a6f7",
        ),
        (
            draw.as_slice(),
            "158b5667c23152d6a7598751552d902d5ddcdc430f09cc0f10e6922d03a587d0",
        ),
        (
            key.as_slice(),
            "adb2bd24a589eda56ade4d113a4afdc8e222b5d227ce4ba5638f91076ade2ffb",
        ),
    ] {
        let shown = hexadecimal(rt.alloc(), digest)?;
        assert_eq!(rt; shown.as_str(), expected);
    }
    Ok(())
}

// The test cases of RFC 4231 whose keys have at most 64 bytes and whose tags are whole.
#[test]
fn hmac_cases(rt: HostRuntime) -> Result<(), Fail> {
    let rising = [
        1, 2, 3, 4, 5, 6, 7, 8, 9, 10, 11, 12, 13, 14, 15, 16, 17, 18, 19, 20, 21, 22, 23, 24, 25,
    ];
    for (key, text, expected) in [
        (
            [0x0b; 20].as_slice(),
            b"Hi There".as_slice(),
            "b0344c61d8db38535ca8afceaf0bf12b881dc200c9833da726e9376c2e32cff7",
        ),
        (
            b"Jefe".as_slice(),
            b"what do ya want for nothing?".as_slice(),
            "5bdcc146bf60754e6a042426089575c75a003f089d2739839dec58b964ec3843",
        ),
        (
            [0xaa; 20].as_slice(),
            [0xdd; 50].as_slice(),
            "773ea91e36800e46854db8ebd09181a72959098b3ef8c122d9635514ced565fe",
        ),
        (
            rising.as_slice(),
            [0xcd; 50].as_slice(),
            "82558a389a443c0ea4cc819899f2083a85f0faa3e578f8077a2e3ff46729665b",
        ),
    ] {
        assert!(rt; key.len() <= 64);
        let shown = hexadecimal(rt.alloc(), tag(key, text).0.as_slice())?;
        assert_eq!(rt; shown.as_str(), expected);
    }
    Ok(())
}

#[test]
fn a_tag_fits_alone(rt: HostRuntime) {
    let Digest(bytes) = tag(b"Jefe", b"what do ya want for nothing?");
    assert!(rt; tag_fits(b"Jefe", b"what do ya want for nothing?", &Digest(bytes)));
    assert!(rt; !tag_fits(b"Jefe", b"what do ya want for nothing!", &Digest(bytes)));
    for place in [0, 15, 31] {
        let mut other = bytes;
        other[place] ^= 1;
        assert!(rt;
            !tag_fits(b"Jefe", b"what do ya want for nothing?", &Digest(other)),
            "at {place}"
        );
    }
}

// The laws have nothing to run.
#[test]
fn laws_return() {
    prefixes_tell_apart();
    texts_tell_apart();
}
