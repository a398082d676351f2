ghost use Rattle.std.specs.Prelude.{◌≡◌, ◌+◌, ◌*◌, ◌<◌, ◌≤◌, ◌^◌, [], ◌∷◌, ◌++◌, length, None, option_map};
ghost use Rattle.std.specs.Prelude.{IfOk, OnOk, OnErr, IfSome, IsSome};
ghost use Rattle.std.specs.Option.{option_copied, ForSome};
ghost use Rattle.scfs_base.specs.Limits.{contents_limit};
ghost use Rattle.scfs_upload.specs.Uploading.{Uploading, brought, with_ack, with_turn};
ghost use Rattle.scfs_upload.specs.Queue.{current, next, begun, after_begin, is_missing, own};

use crate::beginning::begin;
use crate::progress::Uploading;
use crate::{Begun, Closed};
use scfs_base::{Memory, UploadNo};
use scfs_quorum_write::Progress;
use std::alloc::Global;
use std::collections::VecDeque;
use std::marker::Model;

/// The closed sessions of an agent that are not completed, seen as the list of them in the order of their closes, and the
/// upload of the first, where that is in progress.
#[derive(Drop)]
pub struct UploadQueue {
    alloc: Global,
    closed: VecDeque<Closed>,
    uploading: Option<Uploading>,
}

impl Model for UploadQueue {
    ghost use Rattle.scfs_upload.specs.Queue.{Queue};
    ghost use Rattle.scfs_upload.specs.Codes.{queue_code};

    ghost Value = { Queue };

    ghost coded = { queue_code };

    ghost use Rattle.scfs_upload.specs.Inside.{IsInForm};

    ghost view = { λ queue. record { closed = queue.closed.items; uploading = queue.uploading } };

    ghost invariant = { IsInForm };
}

impl UploadQueue {
    /// No closed session.
    pub fn new(alloc: Global) -> Result<UploadQueue, Memory>
        ensures { IfOk result (λ queue. queue ≡ record { closed = []; uploading = None }) }
    {
        Ok(UploadQueue {
            alloc,
            closed: VecDeque::new(alloc),
            uploading: None,
        })
    }

    /// A session was closed, with at most 65,536 bytes of contents: it goes behind the others. An error changes nothing.
    pub fn push(&mut self, closed: Closed) -> Result<(), Memory>
        requires short { length closed.contents ≤ contents_limit }
        ensures after { OnOk result (self.new ≡ record self.old { closed = self.old.closed ++ closed ∷ [] }) }
        ensures err { OnErr result (self.new ≡ self.old) }
    {
        self.closed.push_back(closed)?;
        Ok(())
    }

    /// Begins the upload of the first closed session to 3f+1 clouds under this number, sealed from its agent's secret seed. It
    /// is none exactly where one is in progress or no session waits, and then nothing changes, nor at an error.
    pub fn begin(
        &mut self,
        f: u8,
        seed: &[u8; 32],
        upload: UploadNo,
    ) -> Result<Option<Begun>, Memory>
        requires low { 1 ≤ f }
        requires high { f ≤ 3 }
        requires incarnation { upload.incarnation < 2 ^ 24 }
        ensures answer { IfOk result (λ it. it ≡ option_map (begun f seed.now upload) (next self.old)) }
        ensures after { OnOk result (self.new ≡ after_begin f upload self.old) }
        ensures err { OnErr result (self.new ≡ self.old) }
    {
        if self.uploading.is_some() {
            return Ok(None);
        }
        let Some(closed) = self.closed.front() else {
            return Ok(None);
        };
        let begun = begin(self.alloc, f, seed, upload, closed)?;
        self.uploading = Some(Uploading::new(self.alloc, f, upload)?);
        Ok(Some(begun))
    }

    /// A cloud acknowledged the upload in progress.
    pub fn acked(&mut self, cloud: u8) -> Progress
        requires one { IsSome self.old.uploading }
        requires cloud { ForSome self.old.uploading (λ it. cloud < 3 * it.f + 1) }
        ensures answer { IfSome self.old.uploading (λ it. result ≡ brought it cloud) }
        ensures after { self.new ≡ record self.old { uploading = option_map (with_ack cloud) self.old.uploading } }
    {
        match &mut self.uploading {
            Some(it) => it.acked(cloud),
            None => unreachable!(),
        }
    }

    /// Whether an upload is in progress that a cloud did not acknowledge.
    pub fn missing(&self, cloud: u8) -> bool
        requires cloud { ForSome self.now.uploading (λ it. cloud < 3 * it.f + 1) }
        ensures { result ≡ is_missing cloud self.now.uploading }
    {
        match &self.uploading {
            Some(it) => it.lacks(cloud),
            None => false,
        }
    }

    /// A turn of the upload in progress: how many came since it began. The count ends at 2^64 - 1.
    pub fn turn(&mut self) -> u64
        requires one { IsSome self.old.uploading }
        ensures count { IfSome self.new.uploading (λ it. result ≡ it.turns) }
        ensures after { self.new ≡ record self.old { uploading = option_map with_turn self.old.uploading } }
    {
        match &mut self.uploading {
            Some(it) => it.turn(),
            None => unreachable!(),
        }
    }

    /// The closed session whose upload is in progress, if one is.
    pub fn current(&self) -> Option<&Closed>
        ensures { option_copied result ≡ current self.now }
    {
        if self.uploading.is_none() {
            return None;
        }
        self.closed.front()
    }

    /// The upload in progress ended: its session is taken away, and none is in progress.
    pub fn ended(&mut self) -> Result<Closed, Memory>
        requires one { IsSome self.old.uploading }
        ensures first { IfOk result (λ closed. self.old.closed ≡ closed ∷ self.new.closed) }
        ensures none { self.new.uploading ≡ None }
    {
        self.uploading = None;
        match self.closed.pop_front() {
            Some(closed) => Ok(closed),
            None => unreachable!(),
        }
    }

    /// How many closed sessions are not completed.
    pub fn waiting(&self) -> u64
        ensures { result ≡ length self.now.closed }
    {
        self.closed.len() as u64
    }

    /// The closed session of this number, if it is not completed.
    pub fn own(&self, session: u64) -> Option<&Closed>
        ensures { option_copied result ≡ own session self.now }
    {
        self.closed.iter().find(|it| it.session == session)
    }
}
