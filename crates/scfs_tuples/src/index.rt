ghost use Rattle.std.specs.Prelude.{◌≡◌, [], OnOk, IfOk, length};
ghost use Rattle.scfs_tuples.specs.Index.{Adds, Removes, slots_at};

use scfs_base::Memory;
use std::alloc::Global;
use std::collections::{BTreeMap, BTreeSet};

/// For each key the set of slots of the tuples that have it.
#[derive(Drop)]
pub struct Index<K: Ord> {
    alloc: Global,
    slots: BTreeMap<K, BTreeSet<u64>>,
}

impl<K: Ord + Drop> Index<K> {
    /// An index without any slot. It takes no memory.
    pub fn new(alloc: Global) -> Index<K>
        ensures { (k : K) → slots_at K.cmp result.slots k ≡ [] }
    {
        Index {
            alloc,
            slots: BTreeMap::new(alloc),
        }
    }

    /// The slots under a key, rising.
    pub fn at(&self, key: &K) -> Result<Vec<u64>, Memory>
        ensures { IfOk result (λ slots. slots.items ≡ slots_at K.cmp self.now.slots key.now) }
    {
        match self.slots.get(key) {
            Some(slots) => Ok(slots.iter().copied().collect(self.alloc)?),
            None => Ok(Vec::new(self.alloc)),
        }
    }

    /// How many slots stand under a key.
    pub fn count(&self, key: &K) -> usize
        ensures { result ≡ length (slots_at K.cmp self.now.slots key.now) }
    {
        match self.slots.get(key) {
            Some(slots) => slots.len(),
            None => 0,
        }
    }

    /// Puts a slot among those under a key, where there is one.
    pub fn insert(&mut self, key: Option<K>, slot: u64) -> Result<(), Memory>
        ensures { OnOk result (Adds K.cmp key slot self.old.slots self.new.slots) }
    {
        if let Some(key) = key {
            let mut slots = self.slots.remove(&key).unwrap_or(BTreeSet::new(self.alloc));
            slots.insert(slot)?;
            self.slots.insert(key, slots)?;
        }
        Ok(())
    }

    /// Takes a slot from those under a key, where there is one.
    pub fn remove(&mut self, key: Option<K>, slot: u64) -> Result<(), Memory>
        ensures { OnOk result (Removes K.cmp key slot self.old.slots self.new.slots) }
    {
        if let Some(key) = key {
            if let Some(mut slots) = self.slots.remove(&key) {
                slots.remove(&slot);
                if !slots.is_empty() {
                    self.slots.insert(key, slots)?;
                }
            }
        }
        Ok(())
    }
}
