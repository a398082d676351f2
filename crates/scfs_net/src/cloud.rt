ghost use Rattle.std.specs.Prelude.{◌≡◌, ◌≢◌, ◌-◌, ◌^◌, ◌↔◌, [], min, IfOk, IsTrue, OnOk, slice_get};
ghost use Rattle.std.specs.Option.{option_copied, option_map};
ghost use Rattle.scfs_net.specs.Queues.{new_cloud, asked, serving, hiding, hidden_answer, always, did_at, did_weight, oldest_request_weight, oldest_reply_weight, answered, lost, taken, deferred, swapped, repeated, doubled, moved};

use crate::store::Store;
use crate::weights::{weight_of_answer, weight_of_request};
use crate::{Asked, Did, Given, Moved};
use scfs_base::{CloudAnswer, CloudRequest, Memory, NameList, RequestNo};
use std::alloc::Global;
use std::collections::VecDeque;
use std::marker::Model;

/// One cloud: the requests that wait for it, the replies that wait to be given, and what it holds.
#[derive(Drop)]
pub struct Cloud {
    requests: VecDeque<Asked>,
    replies: VecDeque<Given>,
    store: Store,
}

impl Model for Cloud {
    ghost use Rattle.scfs_net.specs.Queues.{CloudState};

    ghost Value = { CloudState };

    ghost view = { λ cloud. record {
      requests = cloud.requests.items;
      replies = cloud.replies.items;
      objects = cloud.store;
    } };
}

impl Cloud {
    /// A cloud that nobody asked yet. It takes no memory.
    pub fn new(alloc: Global) -> Cloud
        ensures { result ≡ new_cloud }
    {
        Cloud {
            requests: VecDeque::new(alloc),
            replies: VecDeque::new(alloc),
            store: Store::new(alloc),
        }
    }

    /// The oldest request.
    pub fn oldest(&self) -> Option<&CloudRequest>
        ensures { option_copied result ≡ option_map (λ asked. asked.body) (slice_get self.now.requests 0) }
    {
        match self.requests.front() {
            None => None,
            Some(asked) => Some(&asked.body),
        }
    }

    /// Whether a reply waits.
    pub fn replies(&self) -> bool
        ensures { IsTrue result ↔ (self.now.replies ≢ []) }
    {
        !self.replies.is_empty()
    }

    /// The bytes that a copy of the oldest request carries, or the greatest number where there are more.
    pub fn oldest_request_weight(&self) -> u64
        ensures { result ≡ min (oldest_request_weight self.now.requests) (2 ^ 64 - 1) }
    {
        match self.requests.front() {
            None => 0,
            Some(asked) => weight_of_request(&asked.body),
        }
    }

    /// The bytes that a copy of the oldest reply carries.
    pub fn oldest_reply_weight(&self) -> u64
        ensures { result ≡ oldest_reply_weight self.now.replies }
    {
        match self.replies.front() {
            None => 0,
            Some(given) => weight_of_answer(&given.answer),
        }
    }

    /// The bytes that this answer to the oldest request carries, if one waits.
    pub fn said_weight(&self, answer: &CloudAnswer) -> u64
        ensures { result ≡ did_weight (did_at (always answer.now) self.now) }
    {
        if self.requests.is_empty() {
            0
        } else {
            weight_of_answer(answer)
        }
    }

    /// Places a request at the back.
    pub fn ask(&mut self, request: RequestNo, body: CloudRequest) -> Result<(), Memory>
        ensures { OnOk result (self.new ≡ asked request body self.old) }
    {
        self.requests.push_back(Asked { request, body })?;
        Ok(())
    }

    /// Loses the oldest request.
    pub fn lose(&mut self) -> Moved
        ensures answer { result ≡ moved self.old.requests }
        ensures after { self.new ≡ lost self.old }
    {
        match self.requests.pop_front() {
            None => Moved::Skipped,
            Some(_) => Moved::Done,
        }
    }

    /// Takes the oldest reply.
    pub fn take(&mut self) -> Option<Given>
        ensures answer { result ≡ slice_get self.old.replies 0 }
        ensures after { self.new ≡ taken self.old }
    {
        self.replies.pop_front()
    }

    /// Moves the oldest request to the back.
    pub fn defer(&mut self) -> Moved
        ensures answer { result ≡ moved self.old.requests }
        ensures after { self.new ≡ deferred self.old }
    {
        if self.requests.is_empty() {
            return Moved::Skipped;
        }
        self.requests.rotate_left(1);
        Moved::Done
    }

    /// Moves the oldest reply to the back.
    pub fn swap(&mut self) -> Moved
        ensures answer { result ≡ moved self.old.replies }
        ensures after { self.new ≡ swapped self.old }
    {
        if self.replies.is_empty() {
            return Moved::Skipped;
        }
        self.replies.rotate_left(1);
        Moved::Done
    }

    /// Answers the oldest request, if one waits: its reply goes to the back.
    pub fn answer(&mut self, alloc: Global, answer: CloudAnswer) -> Result<Option<Did>, Memory>
        ensures { IfOk result (λ did. (did ≡ did_at (always answer) self.old) × (self.new ≡ answered (always answer) self.old)) }
    {
        let Some(asked) = self.requests.pop_front() else {
            return Ok(None);
        };
        let request = asked.request;
        self.store.settle(asked.body, &answer)?;
        let given = Given {
            request,
            answer: answer.copy(alloc)?,
        };
        self.replies.push_back(given)?;
        Ok(Some(Did { request, answer }))
    }

    /// What this cloud answers to its oldest request when it serves it; any answer will do where none waits.
    pub fn served(&self, alloc: Global) -> Result<CloudAnswer, Memory>
        ensures { IfOk result (λ answer. did_at (always answer) self.now ≡ did_at serving self.now) }
    {
        match self.requests.front() {
            None => Ok(CloudAnswer::Fail),
            Some(asked) => self.store.answer(alloc, &asked.body),
        }
    }

    /// What it answers to its oldest request when it hides its objects; any answer will do where none waits.
    pub fn hidden(&self, alloc: Global) -> CloudAnswer
        ensures { did_at (always result) self.now ≡ did_at hiding self.now }
    {
        match self.requests.front() {
            None => CloudAnswer::Fail,
            Some(asked) => answer_hidden(alloc, &asked.body),
        }
    }

    /// Places a copy of the oldest request at the back.
    pub fn repeat(&mut self, alloc: Global) -> Result<Moved, Memory>
        ensures { IfOk result (λ done. (done ≡ moved self.old.requests) × (self.new ≡ repeated self.old)) }
    {
        let Some(oldest) = self.requests.front() else {
            return Ok(Moved::Skipped);
        };
        let copied = Asked {
            request: oldest.request,
            body: oldest.body.copy(alloc)?,
        };
        self.requests.push_back(copied)?;
        Ok(Moved::Done)
    }

    /// Places a copy of the oldest reply at the back.
    pub fn double(&mut self, alloc: Global) -> Result<Moved, Memory>
        ensures { IfOk result (λ done. (done ≡ moved self.old.replies) × (self.new ≡ doubled self.old)) }
    {
        let Some(oldest) = self.replies.front() else {
            return Ok(Moved::Skipped);
        };
        let copied = Given {
            request: oldest.request,
            answer: oldest.answer.copy(alloc)?,
        };
        self.replies.push_back(copied)?;
        Ok(Moved::Done)
    }
}

/// What a cloud that hides its objects answers to a request.
fn answer_hidden(alloc: Global, request: &CloudRequest) -> CloudAnswer
    ensures { result ≡ hidden_answer request.now }
{
    match request {
        CloudRequest::Put { name: _, body: _ } | CloudRequest::Delete { name: _ } =>
            CloudAnswer::Ack,
        CloudRequest::Get { name: _, limit: _ } => CloudAnswer::Absent,
        CloudRequest::List { prefix: _ } => CloudAnswer::Names(NameList::new(alloc)),
    }
}
