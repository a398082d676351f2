ghost use Rattle.std.specs.Prelude.{None, ◌≡◌};

use scfs_base::{Failed, Sink};

/// A sink that takes all, keeps nothing and tells nothing.
#[derive(Drop)]
pub struct Nowhere;

impl Sink for Nowhere {
    ghost written = { λ _. None };

    ghost faults = { λ _. 0 };

    fn write(&mut self, piece: &[u8]) -> Result<usize, Failed> {
        Ok(piece.len())
    }
}
