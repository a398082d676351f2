ghost use Rattle.std.specs.Prelude.{◌≡◌, ◌+◌, ◌-◌, ◌^◌, ◌<◌, [], ◌∷◌, ◌++◌, OnOk, IfOk, slice_get, true, false};
ghost use Rattle.scfs_tuples.specs.Filed.{IsFiled, SetsEnd, pair_of, tuples_of, without};

use crate::fields::copy_field;
use crate::index::Index;
use crate::{Field, Tuple};
use scfs_base::Memory;
use std::alloc::Global;
use std::collections::{BTreeMap, BTreeSet};

/// Tuples by slot, and beside them the slots by first field, by first and second, by first and third, and by end of life.
#[derive(Drop)]
pub struct Shelves {
    pub alloc: Global,
    pub tuples: BTreeMap<u64, Tuple>,
    pub next: u64,
    pub by_first: Index<Field>,
    pub by_second: Index<(Field, Field)>,
    pub by_third: Index<(Field, Field)>,
    pub by_end: BTreeSet<(u64, u64)>,
}

/// The first field of a tuple.
fn first_key(alloc: Global, tuple: &Tuple) -> Result<Option<Field>, Memory>
    ensures { IfOk result (λ key. key ≡ slice_get tuple.now.fields 0) }
{
    match tuple.fields.get(0) {
        Some(first) => Ok(Some(copy_field(alloc, first)?)),
        None => Ok(None),
    }
}

/// The first field of a tuple, and the one at a further place.
fn pair_key(alloc: Global, tuple: &Tuple, at: usize) -> Result<Option<(Field, Field)>, Memory>
    ensures { IfOk result (λ key. key ≡ pair_of (slice_get tuple.now.fields 0) (slice_get tuple.now.fields at)) }
{
    match tuple.fields.get(0) {
        Some(first) => match tuple.fields.get(at) {
            Some(second) => Ok(Some((copy_field(alloc, first)?, copy_field(alloc, second)?))),
            None => Ok(None),
        },
        None => Ok(None),
    }
}

/// Adds a slot under its end of life, where it has one.
fn add_end(ends: &mut BTreeSet<(u64, u64)>, until: Option<u64>, slot: u64) -> Result<(), Memory>
    ensures { OnOk result (SetsEnd true until slot ends.old ends.new) }
{
    if let Some(until) = until {
        ends.insert((until, slot))?;
    }
    Ok(())
}

/// Takes a slot from under its end of life, where it has one.
fn remove_end(ends: &mut BTreeSet<(u64, u64)>, until: Option<u64>, slot: u64)
    ensures { SetsEnd false until slot ends.old ends.new }
{
    if let Some(until) = until {
        ends.remove(&(until, slot));
    }
}

impl Shelves {
    /// Shelves without any tuple. They take no memory.
    pub fn new(alloc: Global) -> Shelves
        ensures filed { IsFiled result }
        ensures empty { result.tuples.entries ≡ [] }
        ensures next { result.next ≡ 0 }
    {
        Shelves {
            alloc,
            tuples: BTreeMap::new(alloc),
            next: 0,
            by_first: Index::new(alloc),
            by_second: Index::new(alloc),
            by_third: Index::new(alloc),
            by_end: BTreeSet::new(alloc),
        }
    }

    /// Puts a tuple into the next slot.
    pub fn push(&mut self, tuple: Tuple) -> Result<(), Memory>
        requires filed { IsFiled self.old }
        requires room { self.old.next < 2 ^ 64 - 1 }
        ensures filed { OnOk result (IsFiled self.new) }
        ensures entries { OnOk result (self.new.tuples.entries ≡ self.old.tuples.entries ++ (self.old.next, tuple) ∷ []) }
        ensures next { OnOk result (self.new.next ≡ self.old.next + 1) }
    {
        let slot = self.next;
        self.by_first.insert(first_key(self.alloc, &tuple)?, slot)?;
        self.by_second
            .insert(pair_key(self.alloc, &tuple, 1)?, slot)?;
        self.by_third
            .insert(pair_key(self.alloc, &tuple, 2)?, slot)?;
        add_end(&mut self.by_end, tuple.until, slot)?;
        self.tuples.insert(slot, tuple)?;
        self.next += 1;
        Ok(())
    }

    /// Empties a slot.
    pub fn remove(&mut self, slot: u64) -> Result<(), Memory>
        requires { IsFiled self.old }
        ensures filed { OnOk result (IsFiled self.new) }
        ensures entries { OnOk result (self.new.tuples.entries ≡ without slot self.old.tuples.entries) }
    {
        if let Some(tuple) = self.tuples.remove(&slot) {
            self.by_first.remove(first_key(self.alloc, &tuple)?, slot)?;
            self.by_second
                .remove(pair_key(self.alloc, &tuple, 1)?, slot)?;
            self.by_third
                .remove(pair_key(self.alloc, &tuple, 2)?, slot)?;
            remove_end(&mut self.by_end, tuple.until, slot);
        }
        Ok(())
    }

    /// The same tuples in the slots from 0.
    pub fn renumbered(self) -> Result<Shelves, Memory>
        requires { IsFiled self }
        ensures filed { IfOk result (λ shelves. IsFiled shelves) }
        ensures tuples { IfOk result (λ shelves. tuples_of shelves.tuples.entries ≡ tuples_of self.tuples.entries) }
        ensures room { IfOk result (λ shelves. shelves.next < 2 ^ 63) }
    {
        let Shelves {
            alloc,
            mut tuples,
            ..
        } = self;
        let count = tuples.len();
        let mut shelves = Shelves::new(alloc);
        'each: while let Some((_, tuple)) = tuples.pop_first() {
            shelves.push(tuple)?;
        }
        Ok(shelves)
    }

    /// The same tuples, with a slot for one more.
    pub fn with_room(self) -> Result<Shelves, Memory>
        requires { IsFiled self }
        ensures filed { IfOk result (λ shelves. IsFiled shelves) }
        ensures tuples { IfOk result (λ shelves. tuples_of shelves.tuples.entries ≡ tuples_of self.tuples.entries) }
        ensures room { IfOk result (λ shelves. shelves.next < 2 ^ 64 - 1) }
    {
        if self.next < u64::MAX {
            return Ok(self);
        }
        Ok(self.renumbered()?)
    }
}
