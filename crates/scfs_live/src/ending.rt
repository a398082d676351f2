use scfs_base::{Bytes, Memory};
use scfs_schedule::{Bad, Which};

/// Why a live run stops before its script ends. A fault of reading or writing, a limit or a faulty line is of what `Which` says;
/// `Bad` is a line of the old journal that is no event, and `Unbuilt` the number of one whose event the program can't do yet.
#[derive(Debug, Drop)]
pub enum LiveEnd {
    ReadFault(Which),
    WriteFault(Which),
    TooLarge(Which),
    Bad(Bad),
    Unbuilt(u64),
    /// The line of the old journal with this number is not the one that the run made; `-` stands for a line that is not there.
    Differs { line: u64, kept: Bytes, made: Bytes },
    Memory,
}

impl From<Memory> for LiveEnd {
    ghost use Rattle.std.specs.Prelude.{◌≡◌};
    ghost use Rattle.scfs_live.specs.declared.ending.LiveEnd.TheVariants as ends;

    ghost from_gives = { λ _ end. end ≡ ends.Memory };

    fn from(_: Memory) -> Self {
        LiveEnd::Memory
    }
}
