ghost use Rattle.std.specs.Prelude.{◌≡◌, [], None, Some, IfOk, IsTrue};
ghost use Rattle.scfs_base.specs.declared.cloud.CloudRequest.TheVariants as CloudRequest;
ghost use Rattle.scfs_base.specs.declared.cloud.CloudAnswer.TheVariants as CloudAnswer;
ghost use Rattle.scfs_cloud.specs.Asking.{IsCounted, IsLogged, IsStored, said, acked, found, same};
ghost use Rattle.scfs_cloud.specs.Cutting.{suits};
ghost use Rattle.scfs_cloud.specs.InMemory.{SaysNext};

use crate::answers::{bytes_of, done, names_of, suits};
use crate::{Cloud, CloudFault, Exchange};
use scfs_base::{Bytes, CloudAnswer, CloudRequest, NameList, Sequence};
use std::alloc::Global;
use std::marker::Model;

/// A cloud whose answers are said beforehand, seen as those to come, its log and its count of faults.
#[derive(Drop)]
pub struct SaidCloud {
    alloc: Global,
    answers: Sequence<CloudAnswer>,
    log: Sequence<Exchange>,
    faults: u64,
}

impl Model for SaidCloud {
    ghost use Rattle.scfs_cloud.specs.InMemory.{Said};

    ghost Value = { Said };

    ghost view = { λ cloud. record { answers = cloud.answers; log = cloud.log; faults = cloud.faults } };
}

impl SaidCloud {
    /// A cloud that gives these answers in their order. A call that can not give the answer whose turn it is uses it up and
    /// fails, and so does every call once they are used up.
    pub fn new(alloc: Global, answers: Vec<CloudAnswer>) -> SaidCloud
        ensures { result ≡ record { answers = answers.items; log = []; faults = 0 } }
    {
        SaidCloud {
            alloc,
            answers: Sequence::from_vec(answers),
            log: Sequence::new(alloc),
            faults: 0,
        }
    }

    /// The requests and answers so far, the oldest first.
    pub fn log(&self) -> &[Exchange]
        ensures { result.now ≡ self.now.log }
    {
        self.log.as_slice()
    }

    /// Uses up the next answer and gives it, if the request can have it.
    fn ask(&mut self, request: CloudRequest) -> Result<CloudAnswer, CloudFault>
        ensures next { SaysNext self.old self.new request (said same result) }
        ensures counted { IsCounted self.old.faults self.new.faults (said same result) }
        ensures logged { IsLogged (Some self.old.log) (Some self.new.log) request (said same result) }
        ensures suited { IfOk result (λ answer. IsTrue (suits request answer)) }
    {
        match self.answers.pop_front() {
            Some(answer) if suits(&request, &answer) => {
                let logged = Exchange {
                    request,
                    answer: answer.copy(self.alloc)?,
                };
                self.log.push(logged)?;
                Ok(answer)
            }
            _ => {
                let answer = CloudAnswer::Fail;
                self.log.push(Exchange { request, answer })?;
                self.faults = self.faults.saturating_add(1);
                Err(CloudFault::Failed)
            }
        }
    }
}

impl Cloud for SaidCloud {
    ghost faults = { λ cloud. cloud.faults };

    ghost log = { λ cloud. Some cloud.log };

    ghost store = { λ _. None };

    fn put(&mut self, name: &[u8], body: &[u8]) -> Result<(), CloudFault>
        ensures next { SaysNext self.old self.new (CloudRequest.Put name.now body.now) (said acked result) }
        ensures counted { IsCounted self.old.faults self.new.faults (said acked result) }
        ensures logged { IsLogged (Some self.old.log) (Some self.new.log) (CloudRequest.Put name.now body.now) (said acked result) }
        ensures stored { IsStored None None (CloudRequest.Put name.now body.now) (said acked result) }
    {
        let request = CloudRequest::Put {
            name: Bytes::from_slice(self.alloc, name)?,
            body: Bytes::from_slice(self.alloc, body)?,
        };
        match self.ask(request) {
            Ok(answer) => Ok(done(answer)),
            Err(fault) => Err(fault),
        }
    }

    fn get(&mut self, name: &[u8], limit: u32) -> Result<Option<Bytes>, CloudFault>
        ensures next { SaysNext self.old self.new (CloudRequest.Get name.now limit) (said found result) }
        ensures counted { IsCounted self.old.faults self.new.faults (said found result) }
        ensures logged { IsLogged (Some self.old.log) (Some self.new.log) (CloudRequest.Get name.now limit) (said found result) }
        ensures stored { IsStored None None (CloudRequest.Get name.now limit) (said found result) }
    {
        let request = CloudRequest::Get {
            name: Bytes::from_slice(self.alloc, name)?,
            limit,
        };
        match self.ask(request) {
            Ok(answer) => Ok(bytes_of(answer)),
            Err(fault) => Err(fault),
        }
    }

    fn delete(&mut self, name: &[u8]) -> Result<(), CloudFault>
        ensures next { SaysNext self.old self.new (CloudRequest.Delete name.now) (said acked result) }
        ensures counted { IsCounted self.old.faults self.new.faults (said acked result) }
        ensures logged { IsLogged (Some self.old.log) (Some self.new.log) (CloudRequest.Delete name.now) (said acked result) }
        ensures stored { IsStored None None (CloudRequest.Delete name.now) (said acked result) }
    {
        let request = CloudRequest::Delete {
            name: Bytes::from_slice(self.alloc, name)?,
        };
        match self.ask(request) {
            Ok(answer) => Ok(done(answer)),
            Err(fault) => Err(fault),
        }
    }

    fn list(&mut self, prefix: &[u8]) -> Result<NameList, CloudFault>
        ensures next { SaysNext self.old self.new (CloudRequest.List prefix.now) (said CloudAnswer.Names result) }
        ensures counted { IsCounted self.old.faults self.new.faults (said CloudAnswer.Names result) }
        ensures logged { IsLogged (Some self.old.log) (Some self.new.log) (CloudRequest.List prefix.now) (said CloudAnswer.Names result) }
        ensures stored { IsStored None None (CloudRequest.List prefix.now) (said CloudAnswer.Names result) }
    {
        let request = CloudRequest::List {
            prefix: Bytes::from_slice(self.alloc, prefix)?,
        };
        match self.ask(request) {
            Ok(answer) => Ok(names_of(self.alloc, answer)),
            Err(fault) => Err(fault),
        }
    }
}
