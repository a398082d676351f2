ghost use Rattle.std.specs.Prelude.{◌≡◌, ℕ};
ghost use Rattle.scfs_base.specs.InMemory.{one_more};

/// What counts looks at tuples.
pub trait Looks {
    /// How many looks there were; the count ends at 2^64 - 1.
    ghost count: { Self → ℕ };

    /// Counts one look.
    fn look(&mut self)
        ensures { count self.new ≡ one_more (count self.old) };
}

/// A plain count of looks, which ends at 2^64 - 1.
#[derive(Clone, Copy, Debug, PartialEq, Eq)]
pub struct Steps {
    pub looked: u64,
}

impl Looks for Steps {
    ghost count = { λ s. s.looked };

    fn look(&mut self)
        ensures { self.new.looked ≡ one_more self.old.looked }
    {
        self.looked = self.looked.saturating_add(1);
    }
}
