ghost use Rattle.std.specs.Prelude.{◌≡◌, ◌≢◌, ◌≤◌, ◌<◌, [], ◌++◌, length, map, IfOk, OnOk};
ghost use Rattle.scfs_anchor.specs.Shapes.{directory, node, number, text};
ghost use Rattle.scfs_anchor.specs.Plans.{Condition, on_the_way, file, reach, before_last};

use crate::shapes::{DIRECTORY, FILE, NodeWants, directory, node, number, text};
use scfs_base::{Bytes, Memory, Sequence};
use scfs_tuples::{Cond, Pattern, Want};
use std::alloc::Global;

/// A node of this name, where so many names stand before it; the variable of that number stands for its id.
fn named(alloc: Global, at: u8, name: &[u8], kind: Want, newest: Want) -> Result<Pattern, Memory>
    ensures { IfOk result (λ pattern. pattern ≡ node (Want.Bind at) (directory at) (text name.now) kind newest Want.Any) }
{
    let wants = NodeWants {
        id: Want::Bind(at),
        parent: directory(at),
        name: text(alloc, name)?,
        kind,
        newest,
        length: Want::Any,
    };
    node(alloc, wants)
}

/// Asks that a name on the way is there and is a directory.
pub fn ask_directory(
    alloc: Global,
    at: u8,
    name: &[u8],
    conds: &mut Sequence<Cond>,
) -> Result<(), Memory>
    ensures { OnOk result (conds.new ≡ conds.old ++ map (λ (c : Condition). c.cond) (on_the_way at name.now)) }
{
    conds.push(Cond::Need(named(alloc, at, name, Want::Any, Want::Any)?))?;
    conds.push(Cond::Need(named(alloc, at, name, number(DIRECTORY), Want::Any)?))
}

/// Asks that the last name is there and is a file.
fn ask_file(alloc: Global, at: u8, name: &[u8], conds: &mut Sequence<Cond>) -> Result<(), Memory>
    requires { at < 255 }
    ensures { OnOk result (conds.new ≡ conds.old ++ map (λ (c : Condition). c.cond) (file at name.now)) }
{
    conds.push(Cond::Need(named(alloc, at, name, Want::Any, Want::Bind(at + 1))?))?;
    conds.push(Cond::Need(named(alloc, at, name, number(FILE), Want::Bind(at + 1))?))
}

/// The conditions of a path to a file, and the variable that stands for the file's id.
#[derive(Drop)]
pub struct Reached {
    pub conds: Sequence<Cond>,
    pub id: u8,
}

/// Asks that a path leads to a file.
pub fn reach_file(alloc: Global, names: &[Bytes]) -> Result<Reached, Memory>
    requires below { names.now ≢ [] }
    requires depth { length names.now ≤ 32 }
    ensures conds { IfOk result (λ reached. reached.conds ≡ map (λ (c : Condition). c.cond) (reach file 0 names.now)) }
    ensures id { IfOk result (λ reached. reached.id ≡ before_last names.now) }
    ensures depth { IfOk result (λ reached. reached.id < 32) }
{
    let mut conds = Sequence::new(alloc);
    let mut at = 0;
    let mut rest = names;
    'names: while let Some((name, others)) = rest.split_first() {
        if others.is_empty() {
            ask_file(alloc, at, name.as_slice(), &mut conds)?;
            return Ok(Reached { conds, id: at });
        }
        ask_directory(alloc, at, name.as_slice(), &mut conds)?;
        at += 1;
        rest = others;
    }
    Ok(Reached { conds, id: at })
}
