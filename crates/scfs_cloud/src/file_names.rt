ghost use Rattle.std.specs.Prelude.{◌≡◌, ◌==◌, ◌∷◌, ◌++◌, ℕ, List, map, Some, IfOk, IsTrue};
ghost use Rattle.std.specs.List.{list_all};
ghost use Rattle.scfs_cloud.specs.Folder.{is_name_byte, is_object_name, file_byte, file_name, object_byte, object_of};

use scfs_base::{Bytes, Memory};
use std::alloc::{AllocError, Global};

/// Whether a byte may stand in the name of an object.
fn is_name_byte(byte: u8) -> bool
    ensures { result ≡ is_name_byte byte }
{
    byte.is_ascii_digit() || byte.is_ascii_lowercase() || byte == b'/'
}

/// Whether each byte may stand in the name of an object.
fn are_name_bytes(bytes: &[u8]) -> bool
    ensures { result ≡ list_all is_name_byte bytes.now }
{
    bytes.iter().all(|byte| is_name_byte(*byte))
}

/// Whether bytes may name an object: digits, small letters and `/`, with a `/` among them.
pub fn is_object_name(name: &[u8]) -> bool
    ensures { result ≡ is_object_name name.now }
{
    let has_slash = name.contains(&b'/');
    has_slash && are_name_bytes(name)
}

/// A byte of a file's name.
fn file_byte(byte: u8) -> u8
    ensures { result ≡ file_byte byte }
{
    if byte == b'/' { b'_' } else { byte }
}

/// A byte of an object's name.
fn object_byte(byte: u8) -> u8
    ensures { result ≡ object_byte byte }
{
    if byte == b'_' { b'/' } else { byte }
}

/// The path of an object's file in a folder.
pub fn file_path(alloc: Global, folder: &str, name: &[u8]) -> Result<Vec<u8>, AllocError>
    ensures { IfOk result (λ path. path.items ≡ folder.now ++ 47 ∷ file_name name.now) }
{
    let mut path = Vec::from_slice(alloc, folder.as_bytes())?;
    path.push(b'/')?;
    for byte in name {
        path.push(file_byte(*byte))?;
    }
    Ok(path)
}

/// The object whose file in a folder has that name, where there is one.
pub fn object_of(alloc: Global, file: &str) -> Result<Option<Bytes>, Memory>
    ensures { IfOk result (λ name. name ≡ object_of file.now) }
{
    let mut name = Bytes::new(alloc);
    for byte in file.as_bytes() {
        name.push(object_byte(*byte))?;
    }
    if is_object_name(name.as_slice()) {
        Ok(Some(name))
    } else {
        Ok(None)
    }
}

/// The name of an object is read back from its file.
pub fn object_names_are_read()
    ensures { (name : List ℕ) → IsTrue (is_object_name name) → object_of (file_name name) ≡ Some name }
{}
