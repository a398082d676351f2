ghost use Rattle.std.specs.Prelude.{◌≡◌, map, slice_get, IfOk, List};
ghost use Rattle.scfs_tuples.specs.declared.types.Tuple.{Tuple};
ghost use Rattle.scfs_anchor.specs.Replies.{ShowsSight, ShowsRows, row_in, holder_in, shown, sight_in, sight_of, rows_of, is_shape, wanted, is_any, missing_node, refusal_of, refusal_at, refusal_in, changed};
ghost use Rattle.scfs_anchor.specs.Plans.{holder};

use crate::fields::{byte_at, digest_at, number_at, small_at};
use crate::shapes::DIRECTORY;
use crate::{Sight, VersionRow};
use scfs_base::{FileId, Memory, Sequence, UploadNo};
use scfs_schedule::Refusal;
use scfs_tuples::{Cond, Field, Pattern, Reply, Step, StepResult, Tuple, Want};
use std::alloc::Global;

/// The row of a version that fields hold.
fn row_in(fields: &[Field]) -> VersionRow
    ensures { result ≡ row_in fields.now }
{
    VersionRow {
        id: FileId(number_at(fields, 1)),
        number: small_at(fields, 2),
        root: digest_at(fields, 3),
        content: digest_at(fields, 4),
        length: small_at(fields, 5),
        upload: UploadNo {
            agent: byte_at(fields, 6),
            incarnation: small_at(fields, 7),
            count: small_at(fields, 8),
        },
        time: number_at(fields, 9),
    }
}

/// The tuples that a pattern of the step showed.
fn shown(rows: &[Sequence<Tuple>], at: usize) -> &[Tuple]
    ensures { result.now ≡ shown rows.now at }
{
    match rows.get(at) {
        Some(tuples) => tuples.as_slice(),
        None => &[],
    }
}

/// What fields and tuples say of a file that is opened.
fn sight_in(bound: &[Field], rows: &[Sequence<Tuple>]) -> Sight
    ensures { result ≡ sight_in bound.now rows.now }
{
    let row = match shown(rows, 0).first() {
        Some(tuple) => Some(row_in(tuple.fields.as_slice())),
        None => None,
    };
    let lock = match shown(rows, 1).first() {
        Some(tuple) => {
            let fields = tuple.fields.as_slice();
            Some((
                byte_at(fields, 2),
                small_at(fields, 3),
                number_at(fields, 4),
            ))
        }
        None => None,
    };
    Sight {
        id: FileId(number_at(bound, bound.len().saturating_sub(2))),
        newest: small_at(bound, bound.len().saturating_sub(1)),
        row,
        lock,
    }
}

/// What a result says of a file that is opened.
pub fn sight_of(came: &StepResult) -> Sight
    ensures { result ≡ sight_of came.now }
{
    match came {
        StepResult::Did {
            bound,
            taken: _,
            rows,
        } => sight_in(bound.as_slice(), rows.as_slice()),
        StepResult::Refused { index: _, tuple: _ } => sight_in(&[], &[]),
    }
}

/// The sight that the reply to an open shows.
pub fn sight(reply: &Reply) -> Result<Sight, Memory>
    ensures { (seen : Sight) → ShowsSight reply.entry.now seen → IfOk result (λ sight. sight ≡ seen) }
{
    Ok(sight_of(&reply.result))
}

/// The rows that the reply to a look at the versions of a file shows, in its order.
pub fn rows(alloc: Global, reply: &Reply) -> Result<Sequence<VersionRow>, Memory>
    ensures { (seen : List VersionRow) → ShowsRows reply.entry.now seen → IfOk result (λ rows. rows ≡ seen) }
{
    read_rows(alloc, &reply.result)
}

/// The rows of a result.
fn read_rows(alloc: Global, came: &StepResult) -> Result<Sequence<VersionRow>, Memory>
    ensures { IfOk result (λ rows. rows ≡ rows_of came.now) }
{
    match came {
        StepResult::Did {
            bound: _,
            taken: _,
            rows,
        } => rows_in(alloc, shown(rows.as_slice(), 0)),
        StepResult::Refused { index: _, tuple: _ } => Ok(Sequence::new(alloc)),
    }
}

/// The rows that tuples hold.
fn rows_in(alloc: Global, tuples: &[Tuple]) -> Result<Sequence<VersionRow>, Memory>
    ensures { IfOk result (λ rows. rows ≡ map (λ (t : Tuple). row_in t.fields) tuples.now) }
{
    let mut rows = Sequence::new(alloc);
    for tuple in tuples {
        rows.push(row_in(tuple.fields.as_slice()))?;
    }
    Ok(rows)
}

/// Whether a pattern is of this shape.
fn is_shape(pattern: &Pattern, shape: &[u8]) -> bool
    ensures { result ≡ is_shape pattern.now.wants shape.now }
{
    match pattern.wants.as_slice().first() {
        Some(Want::Eq(Field::Text(text))) => text.as_slice() == shape,
        _ => false,
    }
}

/// The number that is wanted of the field at this place, if there is one.
fn wanted(pattern: &Pattern, at: usize) -> Option<u64>
    ensures { result ≡ wanted (slice_get pattern.now.wants at) }
{
    match pattern.wants.get(at) {
        Some(Want::Eq(Field::Num(n))) => Some(*n),
        _ => None,
    }
}

/// Whether any field at this place will do.
fn is_any(pattern: &Pattern, at: usize) -> bool
    ensures { result ≡ is_any (slice_get pattern.now.wants at) }
{
    match pattern.wants.get(at) {
        Some(Want::Any) => true,
        _ => false,
    }
}

/// The agent of a lock that was found.
fn holder(found: &Option<Tuple>) -> u8
    ensures { result ≡ holder found.now }
{
    match found {
        Some(tuple) => byte_at(tuple.fields.as_slice(), 2),
        None => 0,
    }
}

/// A node that is needed is not there: of any kind, a directory, or a file.
fn missing_node(kind: Option<u64>) -> Refusal
    ensures { result ≡ missing_node kind }
{
    match kind {
        None => Refusal::NoEntry,
        Some(DIRECTORY) => Refusal::NotDir,
        Some(_) => Refusal::IsDir,
    }
}

/// A planned tuple is gone: the mark of a gone file, or a version.
fn changed(pattern: &Pattern, version: u64) -> Refusal
    ensures { result ≡ changed pattern.now.wants version }
{
    Refusal::Changed(FileId(wanted(pattern, 1).unwrap_or(0)), version)
}

/// Why a step is refused where a condition fails.
fn refusal_of(cond: &Cond, found: &Option<Tuple>) -> Refusal
    ensures { result ≡ refusal_of cond.now found.now }
{
    match cond {
        Cond::Need(pattern) if is_shape(pattern, b"ver") => Refusal::NoVersion,
        Cond::Need(pattern) => missing_node(wanted(pattern, 4)),
        Cond::NoneOf(pattern) if is_shape(pattern, b"lock") => Refusal::Locked(holder(found)),
        Cond::NoneOf(pattern) if is_any(pattern, 3) => Refusal::NotEmpty,
        Cond::NoneOf(_) => Refusal::Exists,
        Cond::Take(pattern) if is_shape(pattern, b"gone") => changed(pattern, 0),
        Cond::Take(pattern) if is_shape(pattern, b"ver") => {
            changed(pattern, wanted(pattern, 2).unwrap_or(0))
        }
        Cond::Take(_) | Cond::TakeAll(_) => Refusal::LockLost,
    }
}

/// Why the step was refused, as its reply says: by the shape of the condition that failed, and the tuple that was found.
pub fn refusal(step: &Step, reply: &Reply) -> Refusal
    ensures { result ≡ refusal_in step.now.conds reply.entry.now.result }
{
    match &reply.result {
        StepResult::Did {
            bound: _,
            taken: _,
            rows: _,
        } => Refusal::LockLost,
        StepResult::Refused { index, tuple } => refusal_at(step.conds.as_slice(), *index, tuple),
    }
}

/// Why a step of these conditions is refused where that of this number fails.
fn refusal_at(conds: &[Cond], index: u64, found: &Option<Tuple>) -> Refusal
    ensures { result ≡ refusal_at conds.now index found.now }
{
    match conds.get(index as usize) {
        Some(cond) => refusal_of(cond, found),
        None => Refusal::LockLost,
    }
}
