ghost use Rattle.std.specs.Prelude.{◌≡◌, ◌<◌, ◌≤◌};
ghost use Rattle.std.specs.FinSet as set;

use std::marker::Model;

/// The greatest number of clouds, 3f+1 for the greatest f.
pub const CLOUDS: usize = 10;

/// A set of clouds with numbers below `CLOUDS`.
#[derive(Drop)]
pub struct CloudSet {
    marks: [bool; CLOUDS],
}

impl Model for CloudSet {
    ghost use Rattle.std.specs.Coded.{coded_ℕ};
    ghost use Rattle.std.specs.FinSet as set;
    ghost use Rattle.scfs_quorum_write.specs.Marks.{Clouds, marked};

    ghost Value = { Clouds };

    ghost coded = { set.code coded_ℕ };

    ghost view = { λ clouds. marked clouds.marks };
}

impl CloudSet {
    /// The empty set.
    pub fn new() -> CloudSet
        ensures { result ≡ set.empty }
    {
        CloudSet {
            marks: [false; CLOUDS],
        }
    }

    /// Whether the cloud is in the set.
    pub fn contains(&self, cloud: u8) -> bool
        requires { cloud < 10 }
        ensures { result ≡ set.contains self.now cloud }
    {
        self.marks[cloud as usize]
    }

    /// Puts the cloud into the set.
    pub fn insert(&mut self, cloud: u8)
        requires { cloud < 10 }
        ensures { self.new ≡ set.insert self.old cloud }
    {
        self.marks[cloud as usize] = true;
    }

    /// How many clouds are in the set, at most 10.
    pub fn len(&self) -> u8
        ensures count { result ≡ set.len self.now }
        ensures bound { result ≤ 10 }
    {
        let mut count = 0;
        for mark in self.marks.iter() {
            if *mark {
                count += 1;
            }
        }
        count
    }
}
