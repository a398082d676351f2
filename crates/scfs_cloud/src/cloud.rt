ghost use Rattle.std.specs.Prelude.{◌≡◌, ℕ, List, Option};
ghost use Rattle.scfs_base.specs.declared.cloud.CloudRequest.TheVariants as CloudRequest;
ghost use Rattle.scfs_base.specs.declared.cloud.CloudAnswer.TheVariants as CloudAnswer;
ghost use Rattle.scfs_net.specs.Store.{Objects};
ghost use Rattle.scfs_cloud.specs.declared.cloud.CloudFault.TheVariants as CloudFault;
ghost use Rattle.scfs_cloud.specs.declared.cloud.Exchange.{Exchange};
ghost use Rattle.scfs_cloud.specs.Asking.{IsCounted, IsLogged, IsStored, said, acked, found};

use scfs_base::{Bytes, CloudAnswer, CloudRequest, Memory, NameList};

/// A request, and what the cloud answered to it.
#[derive(Debug, Drop)]
pub struct Exchange {
    pub request: CloudRequest,
    pub answer: CloudAnswer,
}

/// Why a cloud gave no answer.
#[derive(Clone, Copy, Debug, PartialEq, Eq)]
pub enum CloudFault {
    /// The cloud could not answer; its count of faults rose.
    Failed,
    /// Want of memory; the cloud may only be dropped.
    Memory,
}

impl From<Memory> for CloudFault {
    ghost from_gives = { λ _ fault. fault ≡ CloudFault.Memory };

    fn from(_: Memory) -> Self {
        CloudFault::Memory
    }
}

/// A storage cloud. Where it does not tell its store, nothing is promised of what an answer holds.
pub trait Cloud {
    /// How often it failed; the count ends at 2^64 - 1.
    ghost faults: { Self → ℕ };

    /// Its requests and answers, the oldest first, where it tells them.
    ghost log: { Self → Option (List Exchange) };

    /// What it holds, where it tells it.
    ghost store: { Self → Option Objects };

    /// Stores the body under the name.
    fn put(&mut self, name: &[u8], body: &[u8]) -> Result<(), CloudFault>
        ensures counted { IsCounted (faults self.old) (faults self.new) (said acked result) }
        ensures logged { IsLogged (log self.old) (log self.new) (CloudRequest.Put name.now body.now) (said acked result) }
        ensures stored { IsStored (store self.old) (store self.new) (CloudRequest.Put name.now body.now) (said acked result) };

    /// Gives the bytes under the name, of which no more than `limit` are looked at.
    fn get(&mut self, name: &[u8], limit: u32) -> Result<Option<Bytes>, CloudFault>
        ensures counted { IsCounted (faults self.old) (faults self.new) (said found result) }
        ensures logged { IsLogged (log self.old) (log self.new) (CloudRequest.Get name.now limit) (said found result) }
        ensures stored { IsStored (store self.old) (store self.new) (CloudRequest.Get name.now limit) (said found result) };

    /// Removes what is under the name.
    fn delete(&mut self, name: &[u8]) -> Result<(), CloudFault>
        ensures counted { IsCounted (faults self.old) (faults self.new) (said acked result) }
        ensures logged { IsLogged (log self.old) (log self.new) (CloudRequest.Delete name.now) (said acked result) }
        ensures stored { IsStored (store self.old) (store self.new) (CloudRequest.Delete name.now) (said acked result) };

    /// Gives the names that begin with the prefix.
    fn list(&mut self, prefix: &[u8]) -> Result<NameList, CloudFault>
        ensures counted { IsCounted (faults self.old) (faults self.new) (said CloudAnswer.Names result) }
        ensures logged { IsLogged (log self.old) (log self.new) (CloudRequest.List prefix.now) (said CloudAnswer.Names result) }
        ensures stored { IsStored (store self.old) (store self.new) (CloudRequest.List prefix.now) (said CloudAnswer.Names result) };
}
