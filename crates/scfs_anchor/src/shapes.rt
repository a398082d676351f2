ghost use Rattle.std.specs.Prelude.{◌≡◌, IfOk};
ghost use Rattle.scfs_anchor.specs.Shapes.{number, text, node, version, lock, given, given_text, new_lock, directory};

use scfs_base::{Bytes, Memory, Sequence};
use scfs_tuples::{Field, Give, Pattern, Template, Want};
use std::alloc::Global;

/// The number of the root directory.
pub const ROOT: u64 = 1 << 60;

/// The number that stands for a directory in a node's tuple.
pub const DIRECTORY: u64 = 0;

/// The number that stands for a file in a node's tuple.
pub const FILE: u64 = 1;

/// This number is wanted.
pub fn number(n: u64) -> Want
    ensures { result ≡ number n }
{
    Want::Eq(Field::Num(n))
}

/// This text is wanted.
pub fn text(alloc: Global, bytes: &[u8]) -> Result<Want, Memory>
    ensures { IfOk result (λ want. want ≡ text bytes.now) }
{
    Ok(Want::Eq(Field::Text(Bytes::from_slice(alloc, bytes)?)))
}

/// This number is put.
pub fn given(n: u64) -> Give
    ensures { result ≡ given n }
{
    Give::Val(Field::Num(n))
}

/// This text is put.
pub fn given_text(alloc: Global, bytes: &[u8]) -> Result<Give, Memory>
    ensures { IfOk result (λ give. give ≡ given_text bytes.now) }
{
    Ok(Give::Val(Field::Text(Bytes::from_slice(alloc, bytes)?)))
}

/// What is wanted of a node.
#[derive(Drop)]
pub struct NodeWants {
    pub id: Want,
    pub parent: Want,
    pub name: Want,
    pub kind: Want,
    pub newest: Want,
    pub length: Want,
}

/// The pattern of a node.
pub fn node(alloc: Global, wants: NodeWants) -> Result<Pattern, Memory>
    ensures { IfOk result (λ pattern. pattern ≡ node wants.id wants.parent wants.name wants.kind wants.newest wants.length) }
{
    let shape = text(alloc, b"node")?;
    let NodeWants {
        id,
        parent,
        name,
        kind,
        newest,
        length,
    } = wants;
    let wants = vec![in alloc; shape, id, parent, name, kind, newest, length]?;
    Ok(Pattern {
        wants: Sequence::from_vec(wants),
    })
}

/// The pattern of a version of a file.
pub fn version(alloc: Global, id: Want, number: Want) -> Result<Pattern, Memory>
    ensures { IfOk result (λ pattern. pattern ≡ version id number) }
{
    let shape = text(alloc, b"ver")?;
    let wants = vec![in alloc;
        shape,
        id,
        number,
        Want::Any,
        Want::Any,
        Want::Any,
        Want::Any,
        Want::Any,
        Want::Any,
        Want::Any,
    ]?;
    Ok(Pattern {
        wants: Sequence::from_vec(wants),
    })
}

/// The pattern of a lock on a file.
pub fn lock(
    alloc: Global,
    id: Want,
    agent: Want,
    incarnation: Want,
    session: Want,
) -> Result<Pattern, Memory>
    ensures { IfOk result (λ pattern. pattern ≡ lock id agent incarnation session) }
{
    let shape = text(alloc, b"lock")?;
    let wants = vec![in alloc; shape, id, agent, incarnation, session]?;
    Ok(Pattern {
        wants: Sequence::from_vec(wants),
    })
}

/// The template of a lock on a file.
pub fn new_lock(
    alloc: Global,
    id: Give,
    agent: u8,
    incarnation: u32,
    session: u64,
    life: u64,
) -> Result<Template, Memory>
    ensures { IfOk result (λ template. template ≡ new_lock id agent incarnation session life) }
{
    let shape = given_text(alloc, b"lock")?;
    let gives = vec![in alloc;
        shape,
        id,
        given(u64::from(agent)),
        given(u64::from(incarnation)),
        given(session),
    ]?;
    Ok(Template {
        gives: Sequence::from_vec(gives),
        life: Some(life),
    })
}

/// The directory in which a name is looked up, where so many names stand before it.
pub fn directory(at: u8) -> Want
    ensures { result ≡ directory at }
{
    if at == 0 {
        number(ROOT)
    } else {
        Want::Bind(at - 1)
    }
}
