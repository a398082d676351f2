ghost use Rattle.std.specs.Prelude.{◌≡◌, ◌≢◌, ◌≤◌, ◌<◌, ◌+◌, [], ◌∷◌, ◌++◌, length, map, IfOk, OnOk};
ghost use Rattle.scfs_tuples.specs.Steps.{IsStep};
ghost use Rattle.scfs_anchor.specs.Shapes as shapes;
ghost use Rattle.scfs_anchor.specs.Plans.{Condition, step_of, reach, before_last};
ghost use Rattle.scfs_anchor.specs.StepPlans.{create, stat, there, file_template, nothing_more, parent_of, last_name};

use crate::Path;
use crate::conditions::ask_directory;
use crate::shapes::{FILE, NodeWants, ROOT, directory, given, given_text, node, text};
use scfs_base::{Bytes, FileId, Memory, Sequence};
use scfs_tuples::{Cond, Give, Pattern, Step, Template, Want};
use std::alloc::Global;

/// The names before the last one: their conditions, how many they are, and the last name.
#[derive(Drop)]
struct Way<'a> {
    conds: Sequence<Cond>,
    at: u8,
    name: &'a [u8],
}

/// The way to the last name of a path below the root.
fn way_to<'a>(alloc: Global, names: &'a [Bytes]) -> Result<Way<'a>, Memory>
    requires below { names.now ≢ [] }
    requires depth { length names.now ≤ 32 }
    ensures conds { IfOk result (λ way. way.conds ≡ map (λ (c : Condition). c.cond) (reach nothing_more 0 names.now)) }
    ensures at { IfOk result (λ way. way.at ≡ before_last names.now) }
    ensures depth { IfOk result (λ way. way.at < 32) }
    ensures name { IfOk result (λ way. way.name.now ≡ last_name names.now) }
{
    let mut conds = Sequence::new(alloc);
    let mut at = 0;
    let mut name: &[u8] = &[];
    let mut rest = names;
    'each: while let Some((first, others)) = rest.split_first() {
        name = first.as_slice();
        if others.is_empty() {
            return Ok(Way { conds, at, name });
        }
        ask_directory(alloc, at, name, &mut conds)?;
        at += 1;
        rest = others;
    }
    Ok(Way { conds, at, name })
}

/// The directory behind so many names.
fn parent_of(at: u8) -> Give
    ensures { result ≡ parent_of at }
{
    if at == 0 {
        given(ROOT)
    } else {
        Give::Var(at - 1)
    }
}

/// The pattern of a last name that has to be free.
fn free(alloc: Global, at: u8, name: &[u8]) -> Result<Pattern, Memory>
    ensures { IfOk result (λ pattern. pattern ≡ shapes.node Want.Any (shapes.directory at) (shapes.text name.now) Want.Any Want.Any Want.Any) }
{
    let wants = NodeWants {
        id: Want::Any,
        parent: directory(at),
        name: text(alloc, name)?,
        kind: Want::Any,
        newest: Want::Any,
        length: Want::Any,
    };
    node(alloc, wants)
}

/// The pattern of a last name that has to be there: variables stand for its id, its kind, its newest version and its length.
fn there(alloc: Global, at: u8, name: &[u8]) -> Result<Pattern, Memory>
    requires { at < 32 }
    ensures { IfOk result (λ pattern. pattern ≡
        shapes.node (Want.Bind at) (shapes.directory at) (shapes.text name.now) (Want.Bind (at + 1)) (Want.Bind (at + 2)) (Want.Bind (at + 3))) }
{
    let wants = NodeWants {
        id: Want::Bind(at),
        parent: directory(at),
        name: text(alloc, name)?,
        kind: Want::Bind(at + 1),
        newest: Want::Bind(at + 2),
        length: Want::Bind(at + 3),
    };
    node(alloc, wants)
}

/// The template of a new file.
fn new_file(alloc: Global, at: u8, name: &[u8], id: FileId) -> Result<Template, Memory>
    ensures { IfOk result (λ template. template ≡ file_template at name.now id) }
{
    let shape = given_text(alloc, b"node")?;
    let name = given_text(alloc, name)?;
    let gives = vec![in alloc;
        shape,
        given(id.0),
        parent_of(at),
        name,
        given(FILE),
        given(0),
        given(0),
    ]?;
    Ok(Template {
        gives: Sequence::from_vec(gives),
        life: None,
    })
}

/// The step that makes a file of this id at a path, unless its last name is there.
pub fn create(alloc: Global, path: &Path, id: FileId) -> Result<Step, Memory>
    requires { path.now ≢ [] }
    ensures step { IfOk result (λ step. step ≡ step_of (create path.now id)) }
    ensures allowed { IfOk result (λ step. IsStep step) }
{
    let Way {
        mut conds,
        at,
        name,
    } = way_to(alloc, path.names())?;
    conds.push(Cond::NoneOf(free(alloc, at, name)?))?;
    let file = new_file(alloc, at, name, id)?;
    Ok(Step {
        conds,
        all: Sequence::new(alloc),
        puts: Sequence::from_vec(vec![in alloc; file]?),
    })
}

/// The step that looks at the node of a path: it binds id, kind, newest version and length last; at the root it looks at
/// nothing.
pub fn stat(alloc: Global, path: &Path) -> Result<Step, Memory>
    ensures step { IfOk result (λ step. step ≡ step_of (stat path.now)) }
    ensures allowed { IfOk result (λ step. IsStep step) }
{
    let conds = if path.is_root() {
        Sequence::new(alloc)
    } else {
        look(alloc, path.names())?
    };
    Ok(Step {
        conds,
        all: Sequence::new(alloc),
        puts: Sequence::new(alloc),
    })
}

/// The conditions of a look at the node of a path below the root.
fn look(alloc: Global, names: &[Bytes]) -> Result<Sequence<Cond>, Memory>
    requires below { names.now ≢ [] }
    requires depth { length names.now ≤ 32 }
    ensures { IfOk result (λ conds. conds ≡ map (λ (c : Condition). c.cond) (reach there 0 names.now)) }
{
    let Way {
        mut conds,
        at,
        name,
    } = way_to(alloc, names)?;
    conds.push(Cond::Need(there(alloc, at, name)?))?;
    Ok(conds)
}
