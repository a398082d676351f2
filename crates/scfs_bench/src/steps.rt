//! The measures of the tuple space: steps like that of a commit, each over a number of files.

ghost use Rattle.std.specs.Prelude.{◌≡◌, ◌+◌, ◌^◌, ◌<◌, ◌≤◌, IfOk, OnOk, string_bytes};
ghost use Rattle.sha2.specs.Sha256.{sha256};
ghost use Rattle.hex.specs.Hex.{encode_lower};
ghost use Rattle.scfs_tuples.specs.Steps.{IsStep};
ghost use Rattle.scfs_bench.specs.Commits.{after, commit_of, done_after, filled_with, files_of, lock_of, lock_wants, new_file_of, node_of, node_wants, ran, ran_of};

use scfs_base::{Bytes, Memory, Sequence};
use scfs_digest::plain_digest;
use scfs_tuples::{Cond, Field, Give, Pattern, Space, Step, StepResult, Template, Want};
use std::alloc::{AllocError, Global};

/// How many tuples stand in the space, two for each file.
#[derive(Clone, Copy, Debug, PartialEq, Eq)]
pub enum Crowd {
    Thousand,
    HundredThousand,
}

/// A space, and how many steps were done in it.
#[derive(Drop)]
pub struct Run {
    pub space: Space,
    pub done: u64,
}

/// The digest of how many steps were done, in lower-case hexadecimal digits: those that make the files, and the commits after
/// them.
pub fn line(alloc: Global, crowd: Crowd, times: u32) -> Result<String, AllocError>
    ensures { IfOk result (λ text. string_bytes text ≡ encode_lower (sha256 (done_after crowd times))) }
{
    match committed(alloc, files(crowd), times) {
        Ok(run) => {
            let done = format!(in alloc; "{}", run.done)?;
            hex::encode(alloc, plain_digest(done.as_bytes()).0)
        }
        Err(Memory) => Err(AllocError),
    }
}

fn files(crowd: Crowd) -> u64
    ensures count { result ≡ files_of crowd }
    ensures some { 0 < result }
    ensures few { result ≤ 50000 }
{
    match crowd {
        Crowd::Thousand => 500,
        Crowd::HundredThousand => 50_000,
    }
}

/// What is left after the files were made and a number of commits were asked for, of each file in turn.
#[tactic(auto, using(crate::proofs::CommitLemmas::no_commits, crate::proofs::CommitLemmas::one_commit_more))]
fn committed(alloc: Global, files: u64, times: u32) -> Result<Run, Memory>
    requires some { 0 < files }
    requires few { files ≤ 50000 }
    ensures { IfOk result (λ run. ran_of run ≡ after files times) }
{
    let mut run = filled(alloc, files)?;
    'again: for done in 0..times {
        let round = u64::from(done);
        let step = commit(alloc, round % files, round / files)?;
        act(&mut run, &step)?;
    }
    Ok(run)
}

/// A space of files, each with its node and its lock.
#[tactic(auto, using(crate::proofs::CommitLemmas::no_files, crate::proofs::CommitLemmas::one_file_more))]
fn filled(alloc: Global, files: u64) -> Result<Run, Memory>
    requires { files ≤ 50000 }
    ensures run { IfOk result (λ run. ran_of run ≡ filled_with files) }
    ensures few { IfOk result (λ run. run.done ≤ files) }
{
    let mut run = Run {
        space: Space::new(alloc),
        done: 0,
    };
    'each: for id in 0..files {
        let step = new_file(alloc, id)?;
        act(&mut run, &step)?;
    }
    Ok(run)
}

/// Does a step, and counts it if it is done.
fn act(run: &mut Run, step: &Step) -> Result<(), Memory>
    requires step { IsStep step.now }
    requires few { run.old.done < 2 ^ 63 }
    ensures ran { OnOk result (ran_of run.new ≡ ran step.now (ran_of run.old)) }
    ensures few { OnOk result (run.new.done ≤ run.old.done + 1) }
{
    match run.space.act(0, step)?.result {
        StepResult::Did { .. } => run.done += 1,
        StepResult::Refused { .. } => (),
    }
    Ok(())
}

/// The step that makes a file: its node and its lock.
fn new_file(alloc: Global, id: u64) -> Result<Step, Memory>
    ensures step { IfOk result (λ step. step ≡ new_file_of id) }
    ensures well_formed { IfOk result (λ step. IsStep step) }
{
    let parent = Give::Val(Field::Num(0));
    let name = Give::Val(text(alloc, b"a")?);
    let node = node(alloc, id, parent, name, 0)?;
    let lock = lock(alloc, id)?;
    Ok(Step {
        conds: Sequence::new(alloc),
        all: Sequence::new(alloc),
        puts: Sequence::from_vec(vec![in alloc; node, lock]?),
    })
}

/// The step that commits a file's next version and keeps its lock: it takes the lock and the node of that version, and puts the
/// node of the next.
fn commit(alloc: Global, id: u64, newest: u64) -> Result<Step, Memory>
    requires { newest < 2 ^ 63 }
    ensures step { IfOk result (λ step. step ≡ commit_of id newest) }
    ensures well_formed { IfOk result (λ step. IsStep step) }
{
    let locked = Cond::Take(lock_pattern(alloc, id)?);
    let there = Cond::Take(node_pattern(alloc, id, newest)?);
    let node = node(alloc, id, Give::Var(0), Give::Var(1), newest + 1)?;
    let lock = lock(alloc, id)?;
    Ok(Step {
        conds: Sequence::from_vec(vec![in alloc; locked, there]?),
        all: Sequence::new(alloc),
        puts: Sequence::from_vec(vec![in alloc; node, lock]?),
    })
}

/// A file's node.
fn node(alloc: Global, id: u64, parent: Give, name: Give, newest: u64) -> Result<Template, Memory>
    ensures { IfOk result (λ template. template ≡ node_of id parent name newest) }
{
    let shape = Give::Val(text(alloc, b"node")?);
    let id = Give::Val(Field::Num(id));
    let kind = Give::Val(Field::Num(1));
    let newest = Give::Val(Field::Num(newest));
    let length = Give::Val(Field::Num(0));
    let gives = vec![in alloc; shape, id, parent, name, kind, newest, length]?;
    Ok(Template {
        gives: Sequence::from_vec(gives),
        life: None,
    })
}

/// A file's lock, of session 0 of agent 0.
fn lock(alloc: Global, id: u64) -> Result<Template, Memory>
    ensures { IfOk result (λ template. template ≡ lock_of id) }
{
    let shape = Give::Val(text(alloc, b"lock")?);
    let id = Give::Val(Field::Num(id));
    let agent = Give::Val(Field::Num(0));
    let session = Give::Val(Field::Num(0));
    let gives = vec![in alloc; shape, id, agent, session]?;
    Ok(Template {
        gives: Sequence::from_vec(gives),
        life: Some(1_000_000),
    })
}

/// The pattern of a file's node at its newest version, which binds directory and name.
fn node_pattern(alloc: Global, id: u64, newest: u64) -> Result<Pattern, Memory>
    ensures { IfOk result (λ pattern. pattern ≡ record { wants = node_wants id newest }) }
{
    let shape = Want::Eq(text(alloc, b"node")?);
    let id = Want::Eq(Field::Num(id));
    let kind = Want::Eq(Field::Num(1));
    let newest = Want::Eq(Field::Num(newest));
    let wants = vec![in alloc;
        shape,
        id,
        Want::Bind(0),
        Want::Bind(1),
        kind,
        newest,
        Want::Any,
    ]?;
    Ok(Pattern {
        wants: Sequence::from_vec(wants),
    })
}

/// The pattern of a file's lock.
fn lock_pattern(alloc: Global, id: u64) -> Result<Pattern, Memory>
    ensures { IfOk result (λ pattern. pattern ≡ record { wants = lock_wants id }) }
{
    let shape = Want::Eq(text(alloc, b"lock")?);
    let id = Want::Eq(Field::Num(id));
    let agent = Want::Eq(Field::Num(0));
    let session = Want::Eq(Field::Num(0));
    let wants = vec![in alloc; shape, id, agent, session]?;
    Ok(Pattern {
        wants: Sequence::from_vec(wants),
    })
}

fn text(alloc: Global, bytes: &[u8]) -> Result<Field, Memory>
    ensures { IfOk result (λ field. field ≡ Field.Text bytes.now) }
{
    Ok(Field::Text(Bytes::from_slice(alloc, bytes)?))
}
