ghost use Rattle.std.specs.Prelude.{◌≡◌, ◌+◌, ◌*◌, ◌<◌, ◌≤◌, map, length, not, IfOk};
ghost use Rattle.std.specs.FinSet as set;
ghost use Rattle.scfs_quorum_write.specs.Acks.{no_acks, clouds_of, with_ack, least_of, count_of, is_complete, progress};

use crate::Progress;
use crate::cloud_set::CloudSet;
use scfs_base::Memory;
use std::alloc::Global;
use std::marker::Model;

/// How far an upload of some parts is acknowledged by the n = 3f+1 clouds, seen as the set of clouds that acknowledged
/// each part.
#[derive(Drop)]
pub struct PutTracker {
    f: u8,
    parts: Vec<CloudSet>,
}

impl Model for PutTracker {
    ghost use Rattle.std.specs.Prelude.{◌≤◌};
    ghost use Rattle.scfs_quorum_write.specs.Acks.{Acks, acks_code};

    ghost Value = { Acks };

    ghost coded = { acks_code };

    ghost view = { λ tracker. record { f = tracker.f; parts = tracker.parts.items } };

    ghost invariant = { λ tracker. tracker.f ≤ 3 };
}

/// The least number of different clouds over the parts.
fn least_count(parts: &[CloudSet]) -> u8
    ensures count { result ≡ least_of (map set.len parts.now) }
    ensures bound { result ≤ 10 }
{
    let Some((first, others)) = parts.split_first() else {
        return 0;
    };
    let mut least = first.len();
    let mut rest = others;
    'each: while let Some((part, others)) = rest.split_first() {
        least = least.min(part.len());
        rest = others;
    }
    least
}

impl PutTracker {
    /// Nothing is acknowledged yet. There is at least one part.
    pub fn new(alloc: Global, f: u8, parts: u16) -> Result<PutTracker, Memory>
        requires { f ≤ 3 }
        ensures { IfOk result (λ tracker. tracker ≡ no_acks f parts) }
    {
        let mut sets = Vec::new(alloc);
        'made: for _number in 0..parts {
            sets.push(CloudSet::new())?;
        }
        Ok(PutTracker { f, parts: sets })
    }

    /// The cloud acknowledged the part.
    pub fn acked(&mut self, cloud: u8, part: u16) -> Progress
        requires cloud { cloud < 3 * self.old.f + 1 }
        requires part { part < length self.old.parts }
        ensures answer { result ≡ progress self.old cloud part }
        ensures after { self.new ≡ with_ack self.old cloud part }
    {
        let was_complete = self.is_complete();
        if !self.insert(cloud, part) {
            Progress::Already
        } else if self.is_complete() && !was_complete {
            Progress::Done
        } else {
            Progress::Counted(self.count())
        }
    }

    /// Counts the cloud for the part; false where it was counted before.
    fn insert(&mut self, cloud: u8, part: u16) -> bool
        requires cloud { cloud < 3 * self.old.f + 1 }
        requires part { part < length self.old.parts }
        ensures answer { result ≡ not (set.contains (clouds_of self.old part) cloud) }
        ensures after { self.new ≡ with_ack self.old cloud part }
    {
        let was_missing = self.missing(cloud, part);
        self.parts[part as usize].insert(cloud);
        was_missing
    }

    /// Whether n-f or more different clouds acknowledged each part.
    fn is_complete(&self) -> bool
        ensures { result ≡ is_complete self.now }
    {
        least_count(self.parts.as_slice()) > 2 * self.f
    }

    /// Whether the cloud did not acknowledge the part yet.
    pub fn missing(&self, cloud: u8, part: u16) -> bool
        requires cloud { cloud < 3 * self.now.f + 1 }
        requires part { part < length self.now.parts }
        ensures { result ≡ not (set.contains (clouds_of self.now part) cloud) }
    {
        !self.parts[part as usize].contains(cloud)
    }

    /// How many different clouds acknowledged each part, at the least.
    pub fn count(&self) -> u8
        ensures { result ≡ count_of self.now }
    {
        least_count(self.parts.as_slice())
    }
}

#[cfg(test)]
mod tests {
    use super::*;
    use std::test::Fail;

    #[test]
    fn one_part_with_a_repeated_and_a_late_cloud(rt: HostRuntime) -> Result<(), Fail> {
        let mut tracker = PutTracker::new(rt.alloc(), 1, 1)?;
        assert!(rt; tracker.missing(2, 0));
        assert_eq!(rt; tracker.acked(2, 0), Progress::Counted(1));
        assert!(rt; !tracker.missing(2, 0));
        assert_eq!(rt; tracker.acked(2, 0), Progress::Already);
        assert_eq!(rt; tracker.acked(0, 0), Progress::Counted(2));
        assert_eq!(rt; tracker.acked(3, 0), Progress::Done);
        assert_eq!(rt; tracker.acked(3, 0), Progress::Already);
        assert_eq!(rt; tracker.acked(1, 0), Progress::Counted(4));
        assert_eq!(rt; tracker.count(), 4);
        Ok(())
    }

    #[test]
    fn two_parts_are_done_with_the_later(rt: HostRuntime) -> Result<(), Fail> {
        let mut tracker = PutTracker::new(rt.alloc(), 1, 2)?;
        assert_eq!(rt; tracker.acked(0, 0), Progress::Counted(0));
        assert_eq!(rt; tracker.acked(1, 0), Progress::Counted(0));
        assert_eq!(rt; tracker.acked(2, 0), Progress::Counted(0));
        assert_eq!(rt; tracker.acked(0, 1), Progress::Counted(1));
        assert_eq!(rt; tracker.acked(1, 1), Progress::Counted(2));
        assert_eq!(rt; tracker.acked(3, 1), Progress::Done);
        assert_eq!(rt; tracker.count(), 3);
        Ok(())
    }
}
