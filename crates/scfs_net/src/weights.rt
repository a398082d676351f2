ghost use Rattle.std.specs.Prelude.{◌≡◌, ◌-◌, ◌^◌, min};
ghost use Rattle.scfs_net.specs.Queues.{asked_weight, answer_weight};

use crate::REQUEST_WEIGHT;
use scfs_base::{CloudAnswer, CloudRequest};

/// The bytes that a request carries when it is placed in a queue, or the greatest number where there are more.
pub fn weight_of_request(request: &CloudRequest) -> u64
    ensures { result ≡ min (asked_weight request.now) (2 ^ 64 - 1) }
{
    match request {
        CloudRequest::Put { name: _, body } => REQUEST_WEIGHT.saturating_add(body.len() as u64),
        _ => REQUEST_WEIGHT,
    }
}

/// The bytes that an answer carries when it is placed in a queue.
pub fn weight_of_answer(answer: &CloudAnswer) -> u64
    ensures { result ≡ answer_weight answer.now }
{
    match answer {
        CloudAnswer::Bytes(bytes) => bytes.len() as u64,
        _ => 0,
    }
}
