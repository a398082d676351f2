ghost use Rattle.std.specs.Prelude.{◌≡◌, ◌+◌, ◌*◌, ◌<◌, ◌≤◌, IfOk};
ghost use Rattle.scfs_upload.specs.Uploading.{just_begun, brought, with_ack, with_turn, lacks};

use scfs_base::{Memory, UploadNo};
use scfs_quorum_write::{Progress, PutTracker};
use std::alloc::Global;
use std::marker::Model;

/// An upload in progress, seen as its number, the clouds that acknowledged it, and how many turns came since it began.
#[derive(Drop)]
pub struct Uploading {
    upload: UploadNo,
    acks: PutTracker,
    turns: u64,
}

impl Model for Uploading {
    ghost use Rattle.std.specs.Prelude.{◌≡◌, length};
    ghost use Rattle.scfs_quorum_write.specs.Acks.{clouds_of};
    ghost use Rattle.scfs_upload.specs.Uploading.{Uploading as Upload};
    ghost use Rattle.scfs_upload.specs.Codes.{uploading_code};

    ghost Value = { Upload };

    ghost coded = { uploading_code };

    ghost view = { λ it. record { upload = it.upload; f = it.acks.f; acked = clouds_of it.acks 0; turns = it.turns } };

    ghost invariant = { λ it. length it.acks.parts ≡ 1 };
}

impl Uploading {
    /// It begins: no cloud acknowledged it.
    pub(crate) fn new(alloc: Global, f: u8, upload: UploadNo) -> Result<Uploading, Memory>
        requires { f ≤ 3 }
        ensures { IfOk result (λ it. it ≡ just_begun f upload) }
    {
        let acks = PutTracker::new(alloc, f, 1)?;
        Ok(Uploading {
            upload,
            acks,
            turns: 0,
        })
    }

    /// A cloud acknowledged it.
    pub(crate) fn acked(&mut self, cloud: u8) -> Progress
        requires cloud { cloud < 3 * self.old.f + 1 }
        ensures answer { result ≡ brought self.old cloud }
        ensures after { self.new ≡ with_ack cloud self.old }
    {
        self.acks.acked(cloud, 0)
    }

    /// Whether a cloud did not acknowledge it yet.
    pub(crate) fn lacks(&self, cloud: u8) -> bool
        requires cloud { cloud < 3 * self.now.f + 1 }
        ensures { result ≡ lacks cloud self.now }
    {
        self.acks.missing(cloud, 0)
    }

    /// A turn: how many came since it began.
    pub(crate) fn turn(&mut self) -> u64
        ensures count { result ≡ self.new.turns }
        ensures after { self.new ≡ with_turn self.old }
    {
        self.turns = self.turns.saturating_add(1);
        self.turns
    }
}
