ghost use Rattle.std.specs.Prelude.{◌≡◌, ◌≤◌, [], ◌↔◌, length, IfOk, IsTrue};
ghost use Rattle.std.specs.List.{list_all};
ghost use Rattle.std.specs.Str.{is_utf8};
ghost use Rattle.scfs_base.specs.Pieces.{pieces};
ghost use Rattle.scfs_anchor.specs.Names.{is_name, if_names, names_of, is_proper_prefix};

use scfs_base::{Bytes, Memory, Sequence, cut};
use std::alloc::Global;
use std::marker::Model;
use std::str;

/// The most names of a path.
pub const DEPTH_LIMIT: usize = 32;

/// The most bytes of a name.
pub const NAME_LIMIT: usize = 255;

/// Whether the bytes are UTF-8.
fn is_text(bytes: &[u8]) -> bool
    ensures { result ≡ is_utf8 bytes.now }
{
    str::from_utf8(bytes).is_ok()
}

/// Whether what stands between two slashes is a name.
#[tactic(auto, unfolding(crate::specs::Names::is_name))]
fn is_name(name: &[u8]) -> bool
    ensures { result ≡ is_name name.now }
{
    !name.is_empty()
        && name.len() <= NAME_LIMIT
        && is_text(name)
        && name != b".".as_slice()
        && name != b"..".as_slice()
}

/// What stands between slashes.
fn parts(alloc: Global, text: &[u8]) -> Result<Sequence<Bytes>, Memory>
    ensures { IfOk result (λ parts. parts ≡ pieces 47 text.now) }
{
    let mut parts = Sequence::new(alloc);
    let mut rest = text;
    while let Some((part, tail)) = cut(rest, b'/') {
        parts.push(Bytes::from_slice(alloc, part)?)?;
        rest = tail;
    }
    parts.push(Bytes::from_slice(alloc, rest)?)?;
    Ok(parts)
}

/// Whether all parts are names.
fn are_names(parts: &[Bytes]) -> bool
    ensures { result ≡ list_all is_name parts.now }
{
    parts.iter().all(|part| is_name(part.as_slice()))
}

/// The names of what follows the first slash.
fn names_in(alloc: Global, text: &[u8]) -> Result<Option<Sequence<Bytes>>, Memory>
    ensures { IfOk result (λ names. names ≡ if_names (pieces 47 text.now)) }
{
    let names = parts(alloc, text)?;
    if names.len() <= DEPTH_LIMIT && are_names(names.as_slice()) {
        Ok(Some(names))
    } else {
        Ok(None)
    }
}

/// A path, seen as its names from the root down: at most 32, none for the root. A name has 1 to 255 bytes of UTF-8, no slash,
/// and is neither `.` nor `..`.
#[derive(Drop)]
pub struct Path {
    names: Sequence<Bytes>,
}

impl Model for Path {
    ghost use Rattle.std.specs.Prelude.{List, ℕ, length, ◌≤◌};

    ghost Value = { List (List ℕ) };

    ghost view = { λ path. path.names };

    ghost invariant = { λ path. length path.names ≤ 32 };
}

impl Path {
    /// The path that the bytes spell: `/` alone, or one to 32 times a `/` and a name. None exactly where they spell no path.
    #[tactic(auto, using(crate::proofs::NameLemmas::reads_names))]
    pub fn read(alloc: Global, bytes: &[u8]) -> Result<Option<Path>, Memory>
        ensures { IfOk result (λ path. path ≡ names_of bytes.now) }
    {
        if bytes == b"/".as_slice() {
            return Ok(Some(Path {
                names: Sequence::new(alloc),
            }));
        }
        let Some((before, text)) = cut(bytes, b'/') else {
            return Ok(None);
        };
        if !before.is_empty() {
            return Ok(None);
        }
        match names_in(alloc, text)? {
            None => Ok(None),
            Some(names) => Ok(Some(Path { names })),
        }
    }

    /// The names from the root down.
    pub fn names(&self) -> &[Bytes]
        ensures names { result.now ≡ self.now }
        ensures depth { length result.now ≤ 32 }
    {
        self.names.as_slice()
    }

    /// Whether it is the root, `/` alone.
    pub fn is_root(&self) -> bool
        ensures { IsTrue result ↔ (self.now ≡ []) }
    {
        self.names.is_empty()
    }

    /// Whether it is a directory's path on the way to the other.
    pub fn is_proper_prefix(&self, other: &Path) -> bool
        ensures { result ≡ is_proper_prefix self.now other.now }
    {
        is_front(self.names.as_slice(), other.names.as_slice())
    }
}

/// Whether the second names begin with the first and go on.
fn is_front(above: &[Bytes], names: &[Bytes]) -> bool
    ensures { result ≡ is_proper_prefix above.now names.now }
{
    let mut above = above;
    let mut names = names;
    while let Some((first, rest)) = above.split_first() {
        match names.split_first() {
            Some((name, others)) if first.as_slice() == name.as_slice() => {
                above = rest;
                names = others;
            }
            _ => return false,
        }
    }
    !names.is_empty()
}
