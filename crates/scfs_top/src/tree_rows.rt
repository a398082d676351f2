//! What the tuples of a space say of its tree.

ghost use Rattle.std.specs.Prelude.{◌≡◌, ◌++◌, IfOk, OnOk};
ghost use Rattle.std.specs.List.{flat_map};
ghost use Rattle.scfs_anchor.specs.Fields.{digest_at, small_at, byte_at, text_at};
ghost use Rattle.scfs_anchor.specs.Replies.{row_in};
ghost use Rattle.scfs_top.specs.TreeRows.{kind_of, node_in, nodes_said, versions_said};

use scfs_anchor::{DIRECTORY, VersionRow, number_at};
use scfs_base::{Bytes, Digest, FileId, Memory, UploadNo};
use scfs_schedule::Kind;
use scfs_tuples::{Field, Tuple};
use std::alloc::Global;

/// A directory or a file under its name in its parent, its newest version and that version's length.
#[derive(Debug, Drop)]
pub struct NodeRow {
    pub id: FileId,
    pub parent: FileId,
    pub name: Bytes,
    pub kind: Kind,
    pub newest: u64,
    pub length: u64,
}

/// The nodes and the versions of a tree.
#[derive(Debug, Drop)]
pub struct TreeRows {
    pub nodes: Vec<NodeRow>,
    pub versions: Vec<VersionRow>,
}

/// The text that the field at this place holds, no bytes where it holds none.
fn text_at(fields: &[Field], at: usize) -> &[u8]
    ensures { result.now ≡ text_at fields.now at }
{
    match fields.get(at) {
        Some(Field::Text(text)) => text.as_slice(),
        _ => &[],
    }
}

/// The number that a field holds, as one of 32 bits; the greatest where it is greater.
fn small_at(fields: &[Field], at: usize) -> u32
    ensures { result ≡ small_at fields.now at }
{
    number_at(fields, at).min(u64::from(u32::MAX)) as u32
}

/// The same as a number of 8 bits.
fn byte_at(fields: &[Field], at: usize) -> u8
    ensures { result ≡ byte_at fields.now at }
{
    number_at(fields, at).min(u64::from(u8::MAX)) as u8
}

/// The digest that a field holds, zeros where it holds none.
fn digest_at(fields: &[Field], at: usize) -> Digest
    ensures { result ≡ digest_at fields.now at }
{
    let text = text_at(fields, at);
    let mut bytes = [0; 32];
    if text.len() == 32 {
        bytes.copy_from_slice(text);
    }
    Digest(bytes)
}

/// The kind that a node's number stands for.
fn kind_of(number: u64) -> Kind
    ensures { result ≡ kind_of number }
{
    if number == DIRECTORY {
        Kind::Dir
    } else {
        Kind::File
    }
}

/// The node that fields hold.
fn node_in(alloc: Global, fields: &[Field]) -> Result<NodeRow, Memory>
    ensures { IfOk result (λ node. node ≡ node_in fields.now) }
{
    Ok(NodeRow {
        id: FileId(number_at(fields, 1)),
        parent: FileId(number_at(fields, 2)),
        name: Bytes::from_slice(alloc, text_at(fields, 3))?,
        kind: kind_of(number_at(fields, 4)),
        newest: number_at(fields, 5),
        length: number_at(fields, 6),
    })
}

/// The version that fields hold.
fn row_in(fields: &[Field]) -> VersionRow
    ensures { result ≡ row_in fields.now }
{
    VersionRow {
        id: FileId(number_at(fields, 1)),
        number: small_at(fields, 2),
        root: digest_at(fields, 3),
        content: digest_at(fields, 4),
        length: small_at(fields, 5),
        upload: UploadNo {
            agent: byte_at(fields, 6),
            incarnation: small_at(fields, 7),
            count: small_at(fields, 8),
        },
        time: number_at(fields, 9),
    }
}

/// Puts the node that a tuple says, where it says one, behind the others.
fn push_node(alloc: Global, tuple: &Tuple, nodes: &mut Vec<NodeRow>) -> Result<(), Memory>
    ensures { OnOk result (nodes.new.items ≡ nodes.old.items ++ nodes_said tuple.now) }
{
    let fields = tuple.fields.as_slice();
    if text_at(fields, 0) == b"node".as_slice() {
        nodes.push(node_in(alloc, fields)?)?;
    }
    Ok(())
}

/// Puts the version that a tuple says, where it says one, behind the others.
fn push_version(tuple: &Tuple, versions: &mut Vec<VersionRow>) -> Result<(), Memory>
    ensures { OnOk result (versions.new.items ≡ versions.old.items ++ versions_said tuple.now) }
{
    let fields = tuple.fields.as_slice();
    if text_at(fields, 0) == b"ver".as_slice() {
        versions.push(row_in(fields))?;
    }
    Ok(())
}

/// The nodes and the versions that tuples say, in their order.
pub fn rows_in(alloc: Global, tuples: &[Tuple]) -> Result<TreeRows, Memory>
    ensures nodes { IfOk result (λ tree. tree.nodes.items ≡ flat_map nodes_said tuples.now) }
    ensures versions { IfOk result (λ tree. tree.versions.items ≡ flat_map versions_said tuples.now) }
{
    let mut nodes = Vec::new(alloc);
    let mut versions = Vec::new(alloc);
    for tuple in tuples {
        push_node(alloc, tuple, &mut nodes)?;
        push_version(tuple, &mut versions)?;
    }
    Ok(TreeRows { nodes, versions })
}
