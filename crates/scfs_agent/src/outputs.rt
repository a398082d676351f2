ghost use Rattle.std.specs.Prelude.{◌≡◌, ◌<◌, ◌≤◌, ◌+◌, ◌*◌, ◌^◌, [], ◌∷◌, ◌++◌, length, IfOk, OnOk};
ghost use Rattle.scfs_model.specs.Asked as machine;
ghost use Rattle.scfs_model.specs.Format.{object_at};
ghost use Rattle.scfs_model.specs.Names.{same_request, upload_name};
ghost use Rattle.scfs_agent.specs.Views.{asked_of};
ghost use Rattle.scfs_agent.specs.Outputs.{get_body, put_body, sent_to, sent_outputs};

use crate::{Asked, Output};
use scfs_base::{Bytes, CloudRequest, Memory, RequestNo, Sequence, UploadNo};
use scfs_schedule::Line;
use scfs_unit::{Sealed, object_length};
use std::alloc::Global;

/// One output as a list.
pub fn alone(alloc: Global, output: Output) -> Result<Sequence<Output>, Memory>
    ensures { IfOk result (λ given. given ≡ output ∷ []) }
{
    Ok(Sequence::from_vec(vec![in alloc; output]?))
}

/// A line, and these outputs behind it.
pub fn after_line(
    alloc: Global,
    line: Line,
    more: Sequence<Output>,
) -> Result<Sequence<Output>, Memory>
    ensures { IfOk result (λ given. given ≡ Output.Line line ∷ more) }
{
    let mut given = alone(alloc, Output::Line(line))?;
    extend(&mut given, more)?;
    Ok(given)
}

/// Puts further outputs behind others.
pub fn extend(all: &mut Sequence<Output>, more: Sequence<Output>) -> Result<(), Memory>
    ensures { OnOk result (all.new ≡ all.old ++ more) }
{
    let mut left = more;
    'each: while let Some(output) = left.pop_front() {
        all.push(output)?;
    }
    Ok(())
}

/// Whether two requests have one number.
pub fn same_request(one: RequestNo, other: RequestNo) -> bool
    ensures { result ≡ same_request one other }
{
    one.agent == other.agent && one.incarnation == other.incarnation && one.number == other.number
}

/// Whether an answer of a cloud is to one of these requests, made of that cloud.
pub fn is_answer_to(asked: &[Asked], cloud: u8, request: RequestNo) -> bool
    ensures { result ≡ machine.is_answer_to (asked_of asked.now) cloud request }
{
    let mut rest = asked;
    'each: while let Some((first, others)) = rest.split_first() {
        if first.cloud == cloud && same_request(first.request, request) {
            return true;
        }
        rest = others;
    }
    false
}

/// Requests to these clouds, numbered behind those drawn before.
pub fn numbered(
    alloc: Global,
    agent: u8,
    incarnation: u32,
    drawn: u64,
    clouds: &[u8],
) -> Result<Sequence<Asked>, Memory>
    requires { drawn + length clouds.now < 2 ^ 64 }
    ensures numbers { IfOk result (λ asked. asked_of asked ≡ machine.asked_of agent incarnation drawn clouds.now) }
    ensures count { IfOk result (λ asked. length asked ≡ length clouds.now) }
{
    let mut asked = Sequence::new(alloc);
    let mut last = drawn;
    let mut rest = clouds;
    'each: while let Some((cloud, others)) = rest.split_first() {
        last += 1;
        let request = RequestNo {
            agent,
            incarnation,
            number: last,
        };
        asked.push(Asked {
            request,
            cloud: *cloud,
        })?;
        rest = others;
    }
    Ok(asked)
}

/// Puts further requests behind those asked before.
pub fn append(all: &mut Sequence<Asked>, more: &[Asked]) -> Result<(), Memory>
    ensures { OnOk result (all.new ≡ all.old ++ more.now) }
{
    let mut rest = more;
    'each: while let Some((asked, others)) = rest.split_first() {
        all.push(*asked)?;
        rest = others;
    }
    Ok(())
}

/// The name of an upload's objects.
fn object_name(alloc: Global, upload: UploadNo) -> Result<Bytes, Memory>
    ensures { IfOk result (λ name. name ≡ upload_name upload) }
{
    let low = UploadNo {
        agent: upload.agent,
        incarnation: upload.incarnation % (1 << 24),
        count: upload.count,
    };
    Bytes::from_slice(alloc, &scfs_base::upload_name(&low, 0))
}

/// The Gets of an upload's objects, with contents of this length.
pub fn get_outputs(
    alloc: Global,
    f: u8,
    upload: UploadNo,
    length: u32,
    asked: &[Asked],
) -> Result<Sequence<Output>, Memory>
    requires low { 1 ≤ f }
    requires high { f ≤ 3 }
    ensures { IfOk result (λ given. given ≡ sent_outputs (sent_to (get_body f upload length) (asked_of asked.now))) }
{
    let mut given = Sequence::new(alloc);
    let mut rest = asked;
    'each: while let Some((first, others)) = rest.split_first() {
        let body = CloudRequest::Get {
            name: object_name(alloc, upload)?,
            limit: object_length(f, length) + 1,
        };
        given.push(Output::Cloud(first.cloud, first.request, body))?;
        rest = others;
    }
    Ok(given)
}

/// The object of a cloud, no bytes where there is none.
fn object_at(alloc: Global, unit: &Sealed, cloud: u8) -> Result<Bytes, Memory>
    ensures { IfOk result (λ bytes. bytes ≡ object_at unit.now cloud) }
{
    match unit.objects.get(usize::from(cloud)) {
        Some(object) => object.copy(alloc),
        None => Ok(Bytes::new(alloc)),
    }
}

/// The Puts of an upload's objects.
pub fn put_outputs(
    alloc: Global,
    upload: UploadNo,
    unit: &Sealed,
    asked: &[Asked],
) -> Result<Sequence<Output>, Memory>
    ensures { IfOk result (λ given. given ≡ sent_outputs (sent_to (put_body upload unit.now) (asked_of asked.now))) }
{
    let mut given = Sequence::new(alloc);
    let mut rest = asked;
    'each: while let Some((first, others)) = rest.split_first() {
        let body = CloudRequest::Put {
            name: object_name(alloc, upload)?,
            body: object_at(alloc, unit, first.cloud)?,
        };
        given.push(Output::Cloud(first.cloud, first.request, body))?;
        rest = others;
    }
    Ok(given)
}
