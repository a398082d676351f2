ghost use Rattle.std.specs.Prelude.{◌≡◌};
ghost use Rattle.scfs_world.specs.Faults.{fault_of};
ghost use Rattle.scfs_world.specs.declared.fault.StepFault.TheVariants as StepFault;

use scfs_base::Memory;
use scfs_net::NetFault;

/// Why an event was not done.
#[derive(Clone, Copy, Debug, PartialEq, Eq)]
pub enum StepFault {
    /// The requests and replies of the run would carry too many bytes.
    TooLarge,
    /// Want of memory.
    Memory,
}

impl From<Memory> for StepFault {
    ghost from_gives = { λ _ fault. fault ≡ StepFault.Memory };

    fn from(_: Memory) -> Self {
        StepFault::Memory
    }
}

impl From<NetFault> for StepFault {
    ghost from_gives = { λ given fault. fault ≡ fault_of given };

    fn from(fault: NetFault) -> Self {
        match fault {
            NetFault::TooLarge => StepFault::TooLarge,
            NetFault::Memory => StepFault::Memory,
        }
    }
}

/// The end of a world, with its cause.
#[derive(Clone, Copy, Debug, PartialEq, Eq)]
pub struct WorldEnd {
    pub fault: StepFault,
}
