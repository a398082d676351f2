ghost use Rattle.std.specs.Prelude.{IfOk, IsTrue};
ghost use Rattle.scfs_base.specs.declared.cloud.CloudAnswer.TheVariants as CloudAnswer;
ghost use Rattle.scfs_cloud.specs.Cutting.{suits};
ghost use Rattle.scfs_cloud.specs.Asking.{Asks, IsCounted, IsLogged, IsStored, said, same};

use crate::cutting::cut_answer;
use crate::{Cloud, CloudFault};
use scfs_base::{CloudAnswer, CloudRequest, Memory};
use std::alloc::Global;

/// Makes the call that a request is.
fn call<C: Cloud>(cloud: &mut C, request: &CloudRequest) -> Result<CloudAnswer, CloudFault>
    ensures counted { IsCounted (C.faults cloud.old) (C.faults cloud.new) (said same result) }
    ensures logged { IsLogged (C.log cloud.old) (C.log cloud.new) request.now (said same result) }
    ensures stored { IsStored (C.store cloud.old) (C.store cloud.new) request.now (said same result) }
    ensures suited { IfOk result (λ answer. IsTrue (suits request.now answer)) }
{
    match request {
        CloudRequest::Put { name, body } => match cloud.put(name.as_slice(), body.as_slice()) {
            Ok(()) => Ok(CloudAnswer::Ack),
            Err(fault) => Err(fault),
        },
        CloudRequest::Get { name, limit } => match cloud.get(name.as_slice(), *limit) {
            Ok(None) => Ok(CloudAnswer::Absent),
            Ok(Some(bytes)) => Ok(CloudAnswer::Bytes(bytes)),
            Err(fault) => Err(fault),
        },
        CloudRequest::Delete { name } => match cloud.delete(name.as_slice()) {
            Ok(()) => Ok(CloudAnswer::Ack),
            Err(fault) => Err(fault),
        },
        CloudRequest::List { prefix } => match cloud.list(prefix.as_slice()) {
            Ok(names) => Ok(CloudAnswer::Names(names)),
            Err(fault) => Err(fault),
        },
    }
}

/// Asks a cloud. Its failure is the answer Fail; of any other answer what is kept is given: the bytes of a Get up to its
/// limit, and of the names in byte order, each cut to `NAME_LIMIT` bytes, the 16 greatest.
pub fn ask_cloud<C: Cloud>(
    alloc: Global,
    cloud: &mut C,
    request: &CloudRequest,
) -> Result<CloudAnswer, Memory>
    ensures { Asks request.now (C.log cloud.old) (C.log cloud.new) (C.store cloud.old) (C.store cloud.new)
        (C.faults cloud.old) (C.faults cloud.new) result }
{
    match call(cloud, request) {
        Ok(answer) => cut_answer(alloc, request, answer),
        Err(CloudFault::Failed) => Ok(CloudAnswer::Fail),
        Err(CloudFault::Memory) => Err(Memory),
    }
}
