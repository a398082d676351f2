ghost use Rattle.std.specs.Prelude.{◌≡◌, [], IsTrue};
ghost use Rattle.scfs_cloud.specs.Asking.{acked, found};
ghost use Rattle.scfs_cloud.specs.Cutting.{suits};
ghost use Rattle.scfs_base.specs.declared.cloud.CloudRequest.TheVariants as CloudRequest;
ghost use Rattle.scfs_base.specs.declared.cloud.CloudAnswer.TheVariants as CloudAnswer;

use scfs_base::{Bytes, CloudAnswer, CloudRequest, NameList};
use std::alloc::Global;

/// Whether the call that a request is can give this answer.
pub fn suits(request: &CloudRequest, answer: &CloudAnswer) -> bool
    ensures { result ≡ suits request.now answer.now }
{
    matches!(
        (request, answer),
        (
            CloudRequest::Put { name: _, body: _ } | CloudRequest::Delete { name: _ },
            CloudAnswer::Ack
        ) | (
            CloudRequest::Get { name: _, limit: _ },
            CloudAnswer::Absent | CloudAnswer::Bytes(_)
        ) | (CloudRequest::List { prefix: _ }, CloudAnswer::Names(_))
    )
}

/// Lets go of the answer to a Put or a Delete.
pub fn done(answer: CloudAnswer)
    ensures { IsTrue (suits (CloudRequest.Delete []) answer) → acked result ≡ answer }
{
    let _ = answer;
}

/// The bytes of an answer to a Get.
pub fn bytes_of(answer: CloudAnswer) -> Option<Bytes>
    ensures { IsTrue (suits (CloudRequest.Get [] 0) answer) → found result ≡ answer }
{
    match answer {
        CloudAnswer::Bytes(bytes) => Some(bytes),
        _ => None,
    }
}

/// The names of an answer to a List.
pub fn names_of(alloc: Global, answer: CloudAnswer) -> NameList
    ensures { IsTrue (suits (CloudRequest.List []) answer) → CloudAnswer.Names result ≡ answer }
{
    match answer {
        CloudAnswer::Names(names) => names,
        _ => NameList::new(alloc),
    }
}
