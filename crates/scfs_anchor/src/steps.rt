ghost use Rattle.std.specs.Prelude.{◌≡◌, ◌≢◌, ◌^◌, ◌<◌, ◌≤◌, [], ◌∷◌, ◌++◌, map, IfOk, OnOk};
ghost use Rattle.scfs_tuples.specs.Steps.{IsStep};
ghost use Rattle.scfs_anchor.specs.Shapes as shapes;
ghost use Rattle.scfs_anchor.specs.Plans as plans;
ghost use Rattle.scfs_anchor.specs.Plans.{step_of};

use crate::conditions::{Reached, reach_file};
use crate::shapes::{FILE, NodeWants, given, given_text, lock, new_lock, node, number, version};
use crate::{Path, VersionRow};
use scfs_base::{FileId, Memory, Sequence};
use scfs_tuples::{Cond, Give, Pattern, Step, Template, Want};
use std::alloc::Global;

/// One item as a list.
fn alone<T: Drop>(alloc: Global, item: T) -> Result<Sequence<T>, Memory>
    ensures { IfOk result (λ items. items ≡ item ∷ []) }
{
    let mut items = Sequence::new(alloc);
    items.push(item)?;
    Ok(items)
}

/// The pattern of the lock on the file whose id the variable stands for.
fn any_lock(alloc: Global, id: u8) -> Result<Pattern, Memory>
    ensures { IfOk result (λ pattern. pattern ≡ shapes.lock (Want.Bind id) Want.Any Want.Any Want.Any) }
{
    lock(alloc, Want::Bind(id), Want::Any, Want::Any, Want::Any)
}

/// The patterns of what an open shows: the version asked for, else the newest, and the lock.
fn sight(alloc: Global, id: u8, asked: Option<u64>) -> Result<Sequence<Pattern>, Memory>
    requires { id < 255 }
    ensures { IfOk result (λ all. all ≡ plans.sight id asked) }
{
    let number = match asked {
        None => Want::Bind(id + 1),
        Some(asked) => number(asked),
    };
    let row = version(alloc, Want::Bind(id), number)?;
    let locks = any_lock(alloc, id)?;
    Ok(Sequence::from_vec(vec![in alloc; row, locks]?))
}

/// The step of an open for reading: of this version, or of the newest. Its reply shows the sight.
pub fn open_read(alloc: Global, path: &Path, version: Option<u64>) -> Result<Step, Memory>
    requires { path.now ≢ [] }
    ensures step { IfOk result (λ step. step ≡ step_of (plans.open_read path.now version)) }
    ensures allowed { IfOk result (λ step. IsStep step) }
{
    let Reached { mut conds, id } = reach_file(alloc, path.names())?;
    ask_version(alloc, id, version, &mut conds)?;
    Ok(Step {
        conds,
        all: sight(alloc, id, version)?,
        puts: Sequence::new(alloc),
    })
}

/// Asks that the version that an open wants is there; version 0 always is.
fn ask_version(
    alloc: Global,
    id: u8,
    wanted: Option<u64>,
    conds: &mut Sequence<Cond>,
) -> Result<(), Memory>
    ensures { OnOk result (conds.new ≡ conds.old ++ map (λ (c : plans.Condition). c.cond) (plans.wanted_version id wanted)) }
{
    match wanted {
        None => Ok(()),
        Some(wanted) => {
            if wanted > 0 {
                let row = version(alloc, Want::Bind(id), number(wanted))?;
                conds.push(Cond::Need(row))?;
            }
            Ok(())
        }
    }
}

/// The step of an open for writing by a session, whose lock lives `lease` ticks. Its reply shows the sight.
pub fn open_write(
    alloc: Global,
    path: &Path,
    agent: u8,
    incarnation: u32,
    session: u64,
    lease: u64,
) -> Result<Step, Memory>
    requires { path.now ≢ [] }
    ensures step { IfOk result (λ step. step ≡ step_of (plans.open_write path.now agent incarnation session lease)) }
    ensures allowed { lease < 2 ^ 62 → IfOk result (λ step. IsStep step) }
{
    let Reached { mut conds, id } = reach_file(alloc, path.names())?;
    conds.push(Cond::NoneOf(any_lock(alloc, id)?))?;
    let taken = new_lock(alloc, Give::Var(id), agent, incarnation, session, lease)?;
    Ok(Step {
        conds,
        all: sight(alloc, id, None)?,
        puts: alone(alloc, taken)?,
    })
}

/// The step that looks at all versions of a file.
pub fn versions(alloc: Global, path: &Path) -> Result<Step, Memory>
    requires { path.now ≢ [] }
    ensures step { IfOk result (λ step. step ≡ step_of (plans.versions path.now)) }
    ensures allowed { IfOk result (λ step. IsStep step) }
{
    let Reached { conds, id } = reach_file(alloc, path.names())?;
    let rows = version(alloc, Want::Bind(id), Want::Any)?;
    Ok(Step {
        conds,
        all: alone(alloc, rows)?,
        puts: Sequence::new(alloc),
    })
}

/// The pattern of a session's lock on a file.
fn session_lock(
    alloc: Global,
    id: FileId,
    agent: u8,
    incarnation: u32,
    session: u64,
) -> Result<Pattern, Memory>
    ensures { IfOk result (λ pattern. pattern ≡ plans.session_lock id agent incarnation session) }
{
    let agent = number(u64::from(agent));
    let incarnation = number(u64::from(incarnation));
    lock(alloc, number(id.0), agent, incarnation, number(session))
}

/// The template of the tuple of a version that is completed now.
fn new_version(alloc: Global, row: &VersionRow) -> Result<Template, Memory>
    ensures { IfOk result (λ template. template ≡ plans.new_version row.now) }
{
    let shape = given_text(alloc, b"ver")?;
    let root = given_text(alloc, row.root.0.as_slice())?;
    let content = given_text(alloc, row.content.0.as_slice())?;
    let gives = vec![in alloc;
        shape,
        given(row.id.0),
        given(u64::from(row.number)),
        root,
        content,
        given(u64::from(row.length)),
        given(u64::from(row.upload.agent)),
        given(u64::from(row.upload.incarnation)),
        given(u64::from(row.upload.count)),
        Give::Now,
    ]?;
    Ok(Template {
        gives: Sequence::from_vec(gives),
        life: None,
    })
}

/// The template of a file's node that a commit leaves: it has the name that the node had.
fn new_node(alloc: Global, row: &VersionRow) -> Result<Template, Memory>
    ensures { IfOk result (λ template. template ≡ plans.new_node row.now) }
{
    let shape = given_text(alloc, b"node")?;
    let gives = vec![in alloc;
        shape,
        given(row.id.0),
        Give::Var(0),
        Give::Var(1),
        given(FILE),
        given(u64::from(row.number)),
        given(u64::from(row.length)),
    ]?;
    Ok(Template {
        gives: Sequence::from_vec(gives),
        life: None,
    })
}

/// The pattern of a file's node whose newest version is the one before this.
fn node_before(alloc: Global, row: &VersionRow) -> Result<Pattern, Memory>
    requires { 1 ≤ row.now.number }
    ensures { IfOk result (λ pattern. pattern ≡ plans.node_before row.now) }
{
    let wants = NodeWants {
        id: number(row.id.0),
        parent: Want::Bind(0),
        name: Want::Bind(1),
        kind: number(FILE),
        newest: number(u64::from(row.number - 1)),
        length: Want::Any,
    };
    node(alloc, wants)
}

/// The step that completes a version: under the lock of the session that uploaded it, on the version before. The lock goes.
/// The version's own time is not looked at: it is completed at the step's moment.
pub fn commit(alloc: Global, row: &VersionRow, session: u64) -> Result<Step, Memory>
    requires { 1 ≤ row.now.number }
    ensures step { IfOk result (λ step. step ≡ step_of (plans.commit row.now session)) }
    ensures allowed { IfOk result (λ step. IsStep step) }
{
    let upload = row.upload;
    let held = session_lock(alloc, row.id, upload.agent, upload.incarnation, session)?;
    let before = node_before(alloc, row)?;
    let node = new_node(alloc, row)?;
    let version = new_version(alloc, row)?;
    Ok(Step {
        conds: Sequence::from_vec(vec![in alloc; Cond::Take(held), Cond::Take(before)]?),
        all: Sequence::new(alloc),
        puts: Sequence::from_vec(vec![in alloc; node, version]?),
    })
}

/// The step after which a session's lock lives `lease` ticks from then on.
pub fn renew(
    alloc: Global,
    id: FileId,
    agent: u8,
    incarnation: u32,
    session: u64,
    lease: u64,
) -> Result<Step, Memory>
    ensures step { IfOk result (λ step. step ≡ step_of (plans.renew id agent incarnation session lease)) }
    ensures allowed { lease < 2 ^ 62 → IfOk result (λ step. IsStep step) }
{
    let held = session_lock(alloc, id, agent, incarnation, session)?;
    let lock = new_lock(alloc, given(id.0), agent, incarnation, session, lease)?;
    Ok(Step {
        conds: alone(alloc, Cond::Take(held))?,
        all: Sequence::new(alloc),
        puts: alone(alloc, lock)?,
    })
}

/// The step that takes a session's lock away.
pub fn unlock(
    alloc: Global,
    id: FileId,
    agent: u8,
    incarnation: u32,
    session: u64,
) -> Result<Step, Memory>
    ensures step { IfOk result (λ step. step ≡ step_of (plans.unlock id agent incarnation session)) }
    ensures allowed { IfOk result (λ step. IsStep step) }
{
    let held = session_lock(alloc, id, agent, incarnation, session)?;
    Ok(Step {
        conds: alone(alloc, Cond::TakeAll(held))?,
        all: Sequence::new(alloc),
        puts: Sequence::new(alloc),
    })
}

/// The step that takes all locks of an agent away.
pub fn unlock_all(alloc: Global, agent: u8) -> Result<Step, Memory>
    ensures step { IfOk result (λ step. step ≡ step_of (plans.unlock_all agent)) }
    ensures allowed { IfOk result (λ step. IsStep step) }
{
    let agent = number(u64::from(agent));
    let held = lock(alloc, Want::Any, agent, Want::Any, Want::Any)?;
    Ok(Step {
        conds: alone(alloc, Cond::TakeAll(held))?,
        all: Sequence::new(alloc),
        puts: Sequence::new(alloc),
    })
}
