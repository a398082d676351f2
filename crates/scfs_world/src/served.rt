ghost use Rattle.std.specs.Prelude.{◌≡◌, ◌+◌, ◌^◌, ◌<◌, slice_get};
ghost use Rattle.scfs_tuples.specs.Steps.{IsLife, IsStep, Lives};
ghost use Rattle.scfs_world.specs.Showing.{committed_line, done_line, file_shown, line_of, lock_line, looked_line, number_put, put_line};

use scfs_anchor::refusal;
use scfs_base::{FileId, RequestNo};
use scfs_schedule::Line;
use scfs_tuples::{Cond, Field, Give, Reply, Step, StepResult, Template};

/// The number that a template puts at this place, 0 where it puts none.
fn number_put(template: &Template, at: usize) -> u64
    ensures { result ≡ number_put (slice_get template.now.gives at) }
{
    match template.gives.get(at) {
        Some(Give::Val(Field::Num(n))) => *n,
        _ => 0,
    }
}

/// The file that an open shows.
fn file_shown(bound: &[Field]) -> FileId
    ensures { result ≡ file_shown bound.now }
{
    match bound.get(bound.len().saturating_sub(2)) {
        Some(Field::Num(n)) => FileId(*n),
        _ => FileId(0),
    }
}

/// The line of a step that puts nothing.
fn looked_line(request: RequestNo, taken: u64, conds: &[Cond]) -> Line
    ensures { result ≡ looked_line request taken conds.now }
{
    match conds.first() {
        Some(Cond::TakeAll(_)) => Line::Unlocked(request, taken),
        _ => Line::Looked(request),
    }
}

/// The line of a step that puts a lock, which lives so long.
fn lock_line(request: RequestNo, now: u64, life: u64, bound: &[Field], step: &Step) -> Line
    requires moment { now < 2 ^ 62 }
    requires life { life < 2 ^ 62 }
    ensures { result ≡ lock_line request now life bound.now step.now.all }
{
    if step.all.is_empty() {
        return Line::Renewed(request, now + life);
    }
    Line::Locked(request, file_shown(bound), now + life)
}

/// The line of a step that puts one tuple.
fn put_line(request: RequestNo, now: u64, bound: &[Field], step: &Step, put: &Template) -> Line
    requires moment { now < 2 ^ 62 }
    requires life { IsLife put.now.life }
    ensures { result ≡ put_line request now bound.now step.now.all put.now.life }
{
    match put.life {
        None => Line::Changed(request),
        Some(life) => lock_line(request, now, life, bound, step),
    }
}

/// The line of a step that puts a node and this version.
fn committed_line(request: RequestNo, version: &Template) -> Line
    ensures { result ≡ committed_line request version.now }
{
    let file = FileId(number_put(version, 1));
    Line::Committed(request, file, number_put(version, 2))
}

/// The line of a step that was done.
fn done_line(request: RequestNo, step: &Step, now: u64, bound: &[Field], taken: u64) -> Line
    requires moment { now < 2 ^ 62 }
    requires lives { Lives step.now.puts }
    ensures { result ≡ done_line request step.now now bound.now taken step.now.puts }
{
    match step.puts.as_slice() {
        [] => looked_line(request, taken, step.conds.as_slice()),
        [put] => put_line(request, now, bound, step, put),
        [_, version, ..] => committed_line(request, version),
    }
}

/// The line of a step that the space served, with this reply.
pub fn line_of(request: RequestNo, step: &Step, reply: &Reply) -> Line
    requires moment { reply.now.now < 2 ^ 62 }
    requires step { IsStep step.now }
    ensures { result ≡ line_of request step.now reply.entry.now }
{
    match &reply.result {
        StepResult::Did {
            bound,
            taken,
            rows: _,
        } => done_line(request, step, reply.now, bound.as_slice(), *taken),
        StepResult::Refused { index: _, tuple: _ } => {
            Line::Refused(request, refusal(step, reply))
        }
    }
}
