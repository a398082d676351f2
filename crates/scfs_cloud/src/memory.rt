ghost use Rattle.std.specs.Prelude.{◌≡◌, [], Some, IfOk, IsTrue, OnErr, OnOk};
ghost use Rattle.scfs_base.specs.declared.cloud.CloudRequest.{CloudRequest};
ghost use Rattle.scfs_base.specs.declared.cloud.CloudRequest.TheVariants as CloudRequest;
ghost use Rattle.scfs_base.specs.declared.cloud.CloudAnswer.TheVariants as CloudAnswer;
ghost use Rattle.scfs_net.specs.Store.{Objects};
ghost use Rattle.scfs_net.specs.Queues.{answer_of, objects_with};
ghost use Rattle.scfs_cloud.specs.Asking.{IsCounted, IsLogged, IsStored, said, acked, found, same};
ghost use Rattle.scfs_cloud.specs.Cutting.{cut_answer, suits, HasShortNames, PutsShortName};
ghost use Rattle.scfs_cloud.specs.InMemory.{AreOrdered, TellsTruth};

use crate::answers::{bytes_of, done, names_of};
use crate::{Cloud, CloudFault, Exchange};
use scfs_base::{Bytes, CloudAnswer, CloudRequest, Memory, NameList, Sequence};
use scfs_net::Store;
use std::alloc::Global;
use std::marker::Model;

/// A truthful cloud in memory, seen as what it holds, its log, the numbers (from 1) of the calls that fail, and its counts.
#[derive(Drop)]
pub struct MemCloud {
    alloc: Global,
    store: Store,
    log: Sequence<Exchange>,
    fails: Vec<u64>,
    calls: u64,
    faults: u64,
}

impl Model for MemCloud {
    ghost use Rattle.scfs_cloud.specs.InMemory.{Truthful, AreOrdered};

    ghost Value = { Truthful };

    ghost view = { λ cloud. record {
      objects = cloud.store;
      log = cloud.log;
      fails = cloud.fails.items;
      calls = cloud.calls;
      faults = cloud.faults;
    } };

    ghost invariant = { λ cloud. AreOrdered cloud.store };
}

/// Serves a request.
fn serve(alloc: Global, store: &mut Store, request: &CloudRequest) -> Result<CloudAnswer, Memory>
    requires { AreOrdered store.old }
    ensures ordered { AreOrdered store.new }
    ensures answer { IfOk result (λ answer. answer ≡ answer_of store.old request.now) }
    ensures served { OnOk result (store.new ≡ objects_with store.old request.now) }
    ensures whole { IfOk result (λ answer. HasShortNames store.old → cut_answer request.now answer ≡ answer) }
    ensures suited { IfOk result (λ answer. IsTrue (suits request.now answer)) }
    ensures err { OnErr result (store.new ≡ store.old) }
{
    let answer = store.answer(alloc, request)?;
    store.settle(request.copy(alloc)?, &answer)?;
    Ok(answer)
}

/// Serving a request leaves short names short.
pub fn short_names_stay()
    ensures { (objects : Objects) (request : CloudRequest) → HasShortNames objects → PutsShortName request
        → HasShortNames (objects_with objects request) }
{}

impl MemCloud {
    /// A cloud that holds nothing, whose calls with the numbers `fails` (from 1) fail.
    pub fn new(alloc: Global, fails: Vec<u64>) -> MemCloud
        ensures { result ≡ record { objects = []; log = []; fails = fails.items; calls = 0; faults = 0 } }
    {
        MemCloud {
            alloc,
            store: Store::new(alloc),
            log: Sequence::new(alloc),
            fails,
            calls: 0,
            faults: 0,
        }
    }

    /// The requests and answers so far, the oldest first.
    pub fn log(&self) -> &[Exchange]
        ensures { result.now ≡ self.now.log }
    {
        self.log.as_slice()
    }

    /// Serves the request, or fails.
    fn ask(&mut self, request: CloudRequest) -> Result<CloudAnswer, CloudFault>
        ensures truth { TellsTruth self.old self.new request (said same result) }
        ensures counted { IsCounted self.old.faults self.new.faults (said same result) }
        ensures logged { IsLogged (Some self.old.log) (Some self.new.log) request (said same result) }
        ensures stored { IsStored (Some self.old.objects) (Some self.new.objects) request (said same result) }
        ensures suited { IfOk result (λ answer. IsTrue (suits request answer)) }
    {
        self.calls = self.calls.saturating_add(1);
        if self.fails.contains(&self.calls) {
            let answer = CloudAnswer::Fail;
            self.log.push(Exchange { request, answer })?;
            self.faults = self.faults.saturating_add(1);
            return Err(CloudFault::Failed);
        }
        let answer = serve(self.alloc, &mut self.store, &request)?;
        let logged = Exchange {
            request,
            answer: answer.copy(self.alloc)?,
        };
        self.log.push(logged)?;
        Ok(answer)
    }
}

impl Cloud for MemCloud {
    ghost faults = { λ cloud. cloud.faults };

    ghost log = { λ cloud. Some cloud.log };

    ghost store = { λ cloud. Some cloud.objects };

    fn put(&mut self, name: &[u8], body: &[u8]) -> Result<(), CloudFault>
        ensures truth { TellsTruth self.old self.new (CloudRequest.Put name.now body.now) (said acked result) }
        ensures counted { IsCounted self.old.faults self.new.faults (said acked result) }
        ensures logged { IsLogged (Some self.old.log) (Some self.new.log) (CloudRequest.Put name.now body.now) (said acked result) }
        ensures stored { IsStored (Some self.old.objects) (Some self.new.objects) (CloudRequest.Put name.now body.now) (said acked result) }
    {
        let request = CloudRequest::Put {
            name: Bytes::from_slice(self.alloc, name)?,
            body: Bytes::from_slice(self.alloc, body)?,
        };
        match self.ask(request) {
            Ok(answer) => Ok(done(answer)),
            Err(fault) => Err(fault),
        }
    }

    fn get(&mut self, name: &[u8], limit: u32) -> Result<Option<Bytes>, CloudFault>
        ensures truth { TellsTruth self.old self.new (CloudRequest.Get name.now limit) (said found result) }
        ensures counted { IsCounted self.old.faults self.new.faults (said found result) }
        ensures logged { IsLogged (Some self.old.log) (Some self.new.log) (CloudRequest.Get name.now limit) (said found result) }
        ensures stored { IsStored (Some self.old.objects) (Some self.new.objects) (CloudRequest.Get name.now limit) (said found result) }
    {
        let request = CloudRequest::Get {
            name: Bytes::from_slice(self.alloc, name)?,
            limit,
        };
        match self.ask(request) {
            Ok(answer) => Ok(bytes_of(answer)),
            Err(fault) => Err(fault),
        }
    }

    fn delete(&mut self, name: &[u8]) -> Result<(), CloudFault>
        ensures truth { TellsTruth self.old self.new (CloudRequest.Delete name.now) (said acked result) }
        ensures counted { IsCounted self.old.faults self.new.faults (said acked result) }
        ensures logged { IsLogged (Some self.old.log) (Some self.new.log) (CloudRequest.Delete name.now) (said acked result) }
        ensures stored { IsStored (Some self.old.objects) (Some self.new.objects) (CloudRequest.Delete name.now) (said acked result) }
    {
        let request = CloudRequest::Delete {
            name: Bytes::from_slice(self.alloc, name)?,
        };
        match self.ask(request) {
            Ok(answer) => Ok(done(answer)),
            Err(fault) => Err(fault),
        }
    }

    fn list(&mut self, prefix: &[u8]) -> Result<NameList, CloudFault>
        ensures truth { TellsTruth self.old self.new (CloudRequest.List prefix.now) (said CloudAnswer.Names result) }
        ensures counted { IsCounted self.old.faults self.new.faults (said CloudAnswer.Names result) }
        ensures logged { IsLogged (Some self.old.log) (Some self.new.log) (CloudRequest.List prefix.now) (said CloudAnswer.Names result) }
        ensures stored { IsStored (Some self.old.objects) (Some self.new.objects) (CloudRequest.List prefix.now) (said CloudAnswer.Names result) }
    {
        let request = CloudRequest::List {
            prefix: Bytes::from_slice(self.alloc, prefix)?,
        };
        match self.ask(request) {
            Ok(answer) => Ok(names_of(self.alloc, answer)),
            Err(fault) => Err(fault),
        }
    }
}
