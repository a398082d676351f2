//! Known objects, opened again from any of their clouds, and what is refused.

ghost use Rattle.std.specs.Prelude.{◌≡◌, ◌+◌, ◌*◌, ◌<◌, ◌≤◌, length, IfOk, IfSome};
ghost use Rattle.std.specs.List.{All};
ghost use Rattle.scfs_gf256.specs.Polynomials.{AreDistinct};
ghost use Rattle.scfs_unit.specs.Checking.{IsPiece};

use super::*;
use scfs_base::{Bytes, Memory};
use scfs_stream::{Draw, draw};
use std::alloc::{AllocError, Global};
use std::test::Fail;

// What is drawn for an upload, by its generator's seed.
fn drawn(f: u8, seed: u8) -> Draw
    requires low { 1 ≤ f }
    requires high { f ≤ 3 }
{
    draw(&[seed; 32], f)
}

// Whether there is an object for each cloud, of this many bytes, and that is the length that was told.
fn has_objects(alloc: Global, f: u8, contents: &[u8], size: usize) -> Result<bool, Memory>
    requires low { 1 ≤ f }
    requires high { f ≤ 3 }
    requires size { length contents.now ≤ 1048576 }
{
    let sealed = seal(alloc, f, &drawn(f, 5), contents)?;
    let told = object_length(f, contents.len() as u32) as usize;
    let objects = sealed.objects.as_slice();
    let fits = objects.iter().all(|object| object.len() == size);
    Ok(fits && told == size && objects.len() == 3 * usize::from(f) + 1)
}

#[test]
fn known_lengths(rt: HostRuntime) -> Result<(), Fail> {
    assert!(rt; has_objects(rt.alloc(), 1, b"hi", 170)?);
    assert!(rt; has_objects(rt.alloc(), 1, b"sealed", 172)?);
    assert!(rt; has_objects(rt.alloc(), 3, b"", 361)?);
    Ok(())
}

// The bytes in lowercase hexadecimal digits.
fn hexadecimal(alloc: Global, bytes: &[u8]) -> Result<String, AllocError> {
    let mut text = String::new(alloc);
    for byte in bytes {
        text.push_str(format!(in alloc; "{byte:02x}")?.as_str())?;
    }
    Ok(text)
}

// The bytes 0, 7, 14 and so on, which is what the second unit below is sealed from.
fn sevens(alloc: Global) -> Result<Vec<u8>, AllocError>
    ensures { IfOk result (λ bytes. length bytes.items ≤ 101) }
{
    let mut bytes = vec![in alloc; 0; 101]?;
    for (place, byte) in bytes.iter_mut().enumerate() {
        *byte = (place as u8).wrapping_mul(7);
    }
    Ok(bytes)
}

// Roots by another implementation of all that a unit is made of (in Python).
#[test]
fn known_roots(rt: HostRuntime) -> Result<(), Fail> {
    let sealed = seal(rt.alloc(), 1, &drawn(1, 5), b"hi")?;
    assert_eq!(rt;
        hexadecimal(rt.alloc(), &sealed.root.0)?.as_str(),
        "2046887a7fdb00a22b6425aa8c6d74e98b3d700607265932e729f5956b9ae692"
    );
    assert_eq!(rt;
        hexadecimal(rt.alloc(), &sealed.content.0)?.as_str(),
        "76a9b75cfbd6b4f10ea0a7cfd0f170c720f092cacd4e1ee75c137f03d088b5de"
    );
    let contents = sevens(rt.alloc())?;
    let sealed = seal(rt.alloc(), 3, &drawn(3, 5), &contents)?;
    assert_eq!(rt;
        hexadecimal(rt.alloc(), &sealed.root.0)?.as_str(),
        "626c9ab1d1154de36c278208298f99d2af7492ca8b32b7926d84f182fe95c622"
    );
    Ok(())
}

// The piece in a cloud's object, if it is accepted with this length.
fn accepted(
    alloc: Global,
    f: u8,
    sealed: &Sealed,
    size: u32,
    cloud: u8,
) -> Result<Option<KeptPiece>, Memory>
    requires low { 1 ≤ f }
    requires high { f ≤ 3 }
    requires cloud { cloud < 3 * f + 1 }
    ensures form { IfOk result (λ it. IfSome it (λ piece. IsPiece f piece)) }
    ensures cloud { IfOk result (λ it. IfSome it (λ piece. piece.cloud ≡ cloud)) }
    ensures length { IfOk result (λ it. IfSome it (λ piece. piece.length ≡ size)) }
{
    let Some(object) = sealed.objects.get(usize::from(cloud)) else {
        return Ok(None);
    };
    match check_object(f, cloud, &sealed.root, object.as_slice()) {
        Ok(piece) if piece.length == size => Ok(Some(keep_piece(alloc, &piece)?)),
        _ => Ok(None),
    }
}

// The contents, from the objects of these clouds, if they are accepted with this length.
fn opened(
    alloc: Global,
    f: u8,
    sealed: &Sealed,
    size: u32,
    clouds: &[u8],
) -> Result<Option<Bytes>, Memory>
    requires low { 1 ≤ f }
    requires high { f ≤ 3 }
    requires size { size ≤ 1048576 }
    requires count { length clouds.now ≡ f + 1 }
    requires below { All (λ cloud. cloud < 3 * f + 1) clouds.now }
    requires different { AreDistinct clouds.now }
{
    let mut pieces = Vec::new(alloc);
    for &cloud in clouds {
        match accepted(alloc, f, sealed, size, cloud)? {
            Some(piece) => pieces.push(piece)?,
            None => return Ok(None),
        }
    }
    Ok(Some(open_unit(alloc, f, &pieces)?))
}

// Whether these contents come back from two clouds of four.
fn comes_back(alloc: Global, contents: &[u8], first: u8, second: u8) -> Result<bool, Memory>
    requires order { first < second }
    requires below { second < 4 }
    requires size { length contents.now ≤ 1048576 }
{
    let sealed = seal(alloc, 1, &drawn(1, 5), contents)?;
    let again = opened(alloc, 1, &sealed, contents.len() as u32, &[first, second])?;
    Ok(again.is_some_and(|bytes| bytes.as_slice() == contents))
}

#[test]
fn every_pair_opens(rt: HostRuntime) -> Result<(), Fail> {
    for second in 1..4 {
        for first in 0..second {
            assert!(rt; comes_back(rt.alloc(), b"hi", first, second)?);
            assert!(rt; comes_back(rt.alloc(), b"sealed", first, second)?);
        }
    }
    Ok(())
}

#[test]
fn last_four_open(rt: HostRuntime) -> Result<(), Fail> {
    let contents = sevens(rt.alloc())?;
    let sealed = seal(rt.alloc(), 3, &drawn(3, 5), &contents)?;
    let again = opened(rt.alloc(), 3, &sealed, contents.len() as u32, &[6, 7, 8, 9])?;
    assert!(rt; again.is_some_and(|bytes| bytes.as_slice() == contents.as_slice()));
    Ok(())
}

// The test that the bytes fail as the object of cloud 0.
fn failed(sealed: &Sealed, bytes: &[u8]) -> Option<BadPiece> {
    check_object(1, 0, &sealed.root, bytes).err()
}

// The bytes with one of them replaced.
fn replaced(alloc: Global, bytes: &[u8], at: usize, byte: u8) -> Result<Vec<u8>, Memory> {
    let mut bytes = Vec::from_slice(alloc, bytes)?;
    if let Some(place) = bytes.get_mut(at) {
        *place = byte;
    }
    Ok(bytes)
}

#[test]
fn changed_bytes_are_refused(rt: HostRuntime) -> Result<(), Fail> {
    let sealed = seal(rt.alloc(), 1, &drawn(1, 5), b"hi")?;
    let object = sealed.objects.get(0).ok_or("no object")?.as_slice();
    assert_eq!(rt; failed(&sealed, object), None);

    let with_magic = replaced(rt.alloc(), object, 0, b'T')?;
    assert_eq!(rt; failed(&sealed, &with_magic), Some(BadPiece::Magic));
    let with_digest = replaced(
        rt.alloc(),
        object,
        20,
        !object.get(20).copied().unwrap_or(0),
    )?;
    assert_eq!(rt; failed(&sealed, &with_digest), Some(BadPiece::Root));
    let with_end = replaced(
        rt.alloc(),
        object,
        169,
        !object.get(169).copied().unwrap_or(0),
    )?;
    assert_eq!(rt; failed(&sealed, &with_end), Some(BadPiece::Piece));
    Ok(())
}

#[test]
fn other_lengths_are_refused(rt: HostRuntime) -> Result<(), Fail> {
    let sealed = seal(rt.alloc(), 1, &drawn(1, 5), b"hi")?;
    let object = sealed.objects.get(0).ok_or("no object")?;
    let mut longer = object.copy(rt.alloc())?;
    longer.push(0)?;
    assert_eq!(rt; failed(&sealed, longer.as_slice()), Some(BadPiece::Length));
    longer.truncate(169);
    assert_eq!(rt; failed(&sealed, longer.as_slice()), Some(BadPiece::Length));
    assert_eq!(rt; failed(&sealed, &[]), Some(BadPiece::Length));
    Ok(())
}

#[test]
fn other_objects_are_refused(rt: HostRuntime) -> Result<(), Fail> {
    let sealed = seal(rt.alloc(), 1, &drawn(1, 5), b"hi")?;
    let other_cloud = sealed.objects.get(1).ok_or("no object")?;
    assert_eq!(rt;
        failed(&sealed, other_cloud.as_slice()),
        Some(BadPiece::Piece)
    );

    let other = seal(rt.alloc(), 1, &drawn(1, 6), b"ho")?;
    let other_upload = other.objects.get(0).ok_or("no object")?;
    assert_eq!(rt;
        failed(&sealed, other_upload.as_slice()),
        Some(BadPiece::Root)
    );
    Ok(())
}

// The laws have nothing to run.
#[test]
fn laws_return() {
    acceptance_laws();
    unsealing_laws();
}
