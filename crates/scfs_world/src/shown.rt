ghost use Rattle.std.specs.Prelude.{◌≡◌, [], ◌∷◌, IfOk};
ghost use Rattle.scfs_model.specs.Clouds.{did_message};
ghost use Rattle.scfs_model.specs.Layers.{Row};
ghost use Rattle.scfs_model.specs.States.{State, answers_by, request_line, sum_of};
ghost use Rattle.scfs_model.specs.UnitFormat.{under};
ghost use Rattle.scfs_schedule.specs.declared.types.Header.{Header};
ghost use Rattle.scfs_schedule.specs.declared.types.Line.TheVariants as lines;
ghost use Rattle.scfs_world.specs.Showing.{moved_lines};

use scfs_base::{CloudAnswer, CloudRequest, Memory, RequestNo, Sequence};
use scfs_digest::plain_digest;
use scfs_net::{Did, Moved};
use scfs_schedule::{Line, Sum};
use std::alloc::Global;

/// A list of one line.
pub fn one_line(alloc: Global, line: Line) -> Result<Sequence<Line>, Memory>
    ensures { IfOk result (λ shown. shown ≡ line ∷ []) }
{
    Ok(Sequence::from_vec(vec![in alloc; line]?))
}

/// What a line says of an answer.
pub fn sum_of(answer: &CloudAnswer) -> Sum
    ensures { (header : Header) → result ≡ sum_of (under header) answer.now }
{
    match answer {
        CloudAnswer::Ack => Sum::Ack,
        CloudAnswer::Absent => Sum::Absent,
        CloudAnswer::Bytes(bytes) => {
            Sum::Bytes(bytes.len() as u64, plain_digest(bytes.as_slice()))
        }
        CloudAnswer::Names(names) => Sum::Names(names.len() as u64),
        CloudAnswer::Fail => Sum::Fail,
    }
}

/// The line of a request to a cloud.
pub fn request_line(
    alloc: Global,
    request: RequestNo,
    cloud: u8,
    body: &CloudRequest,
) -> Result<Line, Memory>
    ensures { IfOk result (λ line. (header : Header) → line ≡ request_line (under header) request cloud body.now) }
{
    Ok(match body {
        CloudRequest::Put { name, body } => Line::Put(
            request,
            cloud,
            name.copy(alloc)?,
            body.len() as u64,
            plain_digest(body.as_slice()),
        ),
        CloudRequest::Get { name, limit: _ } => Line::Get(request, cloud, name.copy(alloc)?),
        CloudRequest::Delete { name } => Line::Del(request, cloud, name.copy(alloc)?),
        CloudRequest::List { prefix } => Line::Ls(request, cloud, prefix.copy(alloc)?),
    })
}

/// The lines of an event at a cloud's queue: one that says so where there was nothing to move.
pub fn moved_lines(alloc: Global, moved: Moved) -> Result<Sequence<Line>, Memory>
    ensures { IfOk result (λ shown. shown ≡ moved_lines moved) }
{
    match moved {
        Moved::Done => Ok(Sequence::new(alloc)),
        Moved::Skipped => one_line(alloc, Line::Skip),
    }
}

/// The lines of what a cloud answered.
pub fn did_lines(alloc: Global, cloud: u8, did: Option<Did>) -> Result<Sequence<Line>, Memory>
    ensures { IfOk result (λ shown. (header : Header) (state : State Row) →
        shown ≡ (answers_by (under header) state cloud (did_message did)).lines) }
{
    match did {
        None => one_line(alloc, Line::Skip),
        Some(did) => {
            let sum = sum_of(&did.answer);
            one_line(alloc, Line::Did(cloud, did.request, sum))
        }
    }
}
