ghost use Rattle.std.specs.Prelude.{◌≡◌, [], ◌∷◌, ◌++◌, ◌<◌, ◌&&◌, ◌^◌, IfOk, MatchOption, Some, length};
ghost use Rattle.std.specs.List.{filter};
ghost use Rattle.std.specs.Option.{option_copied};
ghost use Rattle.scfs_base.specs.InMemory.{one_more};
ghost use Rattle.scfs_tuples.specs.Filed.{Apart, AreNear, IsEnded, IsFiled, fewer, live_entries, slots_of, tuple_at, tuples_of, without};
ghost use Rattle.scfs_tuples.specs.Near.{fixed_at, has};

use crate::fields::copy_field;
use crate::shelves::Shelves;
use crate::{Field, Looks, Tuple, Want};
use scfs_base::Memory;
use std::alloc::Global;
use std::marker::Model;

/// Tuples by slot, seen as the list of slots and their tuples, by rising slot. Beside it stand sets of slots by first field,
/// by first and second, by first and third, and by end of life; each is exactly the filter of the list.
#[derive(Drop)]
pub struct Slots {
    shelves: Shelves,
}

impl Model for Slots {
    ghost use Rattle.std.specs.Prelude.{List, ℕ};
    ghost use Rattle.scfs_tuples.specs.Filed.{IsFiled};
    ghost use Rattle.scfs_tuples.specs.declared.types.Tuple.{Tuple};

    ghost Value = { List (ℕ × Tuple) };

    ghost view = { λ s. s.shelves.tuples.entries };

    ghost invariant = { λ s. IsFiled s.shelves };
}

/// The field that the want at a place is fixed to.
fn fixed<'a>(wants: &'a [Want], at: usize, bound: &'a [Field]) -> Option<&'a Field>
    ensures { option_copied result ≡ fixed_at bound.now wants.now at }
{
    match wants.get(at) {
        Some(Want::Eq(field)) => Some(field),
        Some(Want::Any) => None,
        Some(Want::Bind(variable)) => bound.get(usize::from(*variable)),
        None => None,
    }
}

impl Slots {
    pub(crate) fn new(alloc: Global) -> Slots
        ensures { result ≡ [] }
    {
        Slots {
            shelves: Shelves::new(alloc),
        }
    }

    /// The tuple in a slot; None exactly where the slot is empty. Only this shows a tuple, and each call counts one look.
    pub fn get<L: Looks>(&self, slot: u64, steps: &mut L) -> Option<&Tuple>
        ensures tuple { option_copied result ≡ tuple_at self.now slot }
        ensures counted { L.count steps.new ≡ one_more (L.count steps.old) }
    {
        steps.look();
        self.shelves.tuples.get(&slot)
    }

    /// How many tuples there are.
    pub(crate) fn len(&self) -> usize
        ensures count { result ≡ length self.now }
        ensures small { result < 2 ^ 63 }
    {
        self.shelves.tuples.len()
    }

    /// All slots that hold a tuple, rising.
    pub(crate) fn all(&self) -> Result<Vec<u64>, Memory>
        ensures slots { IfOk result (λ slots. slots.items ≡ slots_of self.now) }
        ensures apart { Apart self.now }
    {
        Ok(
            self.shelves
                .tuples
                .keys()
                .copied()
                .collect(self.shelves.alloc)?,
        )
    }

    /// The slots of the tuples with this first field, rising.
    pub(crate) fn with_first(&self, first: &Field) -> Result<Vec<u64>, Memory>
        ensures { IfOk result (λ slots. slots.items ≡ slots_of (filter (λ e. has 0 first.now e.1) self.now)) }
    {
        Ok(self.shelves.by_first.at(first)?)
    }

    /// Two fields as a key.
    fn pair(&self, first: &Field, other: &Field) -> Result<(Field, Field), Memory>
        ensures { IfOk result (λ key. key ≡ (first.now, other.now)) }
    {
        let alloc = self.shelves.alloc;
        Ok((copy_field(alloc, first)?, copy_field(alloc, other)?))
    }

    /// The slots of the tuples with these first and second fields, rising.
    pub(crate) fn with_second(&self, first: &Field, second: &Field) -> Result<Vec<u64>, Memory>
        ensures { IfOk result (λ slots. slots.items ≡ slots_of (filter (λ e. has 0 first.now e.1 && has 1 second.now e.1) self.now)) }
    {
        let key = self.pair(first, second)?;
        Ok(self.shelves.by_second.at(&key)?)
    }

    /// The slots of the tuples with these first and third fields, rising.
    pub(crate) fn with_third(&self, first: &Field, third: &Field) -> Result<Vec<u64>, Memory>
        ensures { IfOk result (λ slots. slots.items ≡ slots_of (filter (λ e. has 0 first.now e.1 && has 2 third.now e.1) self.now)) }
    {
        let key = self.pair(first, third)?;
        Ok(self.shelves.by_third.at(&key)?)
    }

    /// The slots of the tuples with this first field, and with this second or this third one, whichever are fewer, rising.
    fn with_fewer(&self, first: &Field, second: &Field, third: &Field) -> Result<Vec<u64>, Memory>
        ensures { IfOk result (λ slots. slots.items ≡ fewer
            (slots_of (filter (λ e. has 0 first.now e.1 && has 1 second.now e.1) self.now))
            (slots_of (filter (λ e. has 0 first.now e.1 && has 2 third.now e.1) self.now))) }
    {
        let second = self.pair(first, second)?;
        let third = self.pair(first, third)?;
        if self.shelves.by_third.count(&third) < self.shelves.by_second.count(&second) {
            return Ok(self.shelves.by_third.at(&third)?);
        }
        Ok(self.shelves.by_second.at(&second)?)
    }

    /// The slots of the tuples to look at for a pattern, rising: of those equal in the first field, and in the second or third
    /// field where that is fixed, whichever are fewer.
    pub(crate) fn near(&self, wants: &[Want], bound: &[Field]) -> Result<Vec<u64>, Memory>
        ensures near { IfOk result (λ slots. AreNear bound.now wants.now self.now slots.items) }
        ensures apart { Apart self.now }
    {
        let _ = &self.shelves;
        match fixed(wants, 0, bound) {
            Some(first) => Ok(self.near_first(first, wants, bound)?),
            None => Ok(self.all()?),
        }
    }

    /// The same for a pattern whose first want is fixed to that field.
    fn near_first(&self, first: &Field, wants: &[Want], bound: &[Field]) -> Result<Vec<u64>, Memory>
        requires { fixed_at bound.now wants.now 0 ≡ Some first.now }
        ensures { IfOk result (λ slots. AreNear bound.now wants.now self.now slots.items) }
    {
        let third = fixed(wants, 2, bound);
        match fixed(wants, 1, bound) {
            Some(second) => match third {
                Some(third) => Ok(self.with_fewer(first, second, third)?),
                None => Ok(self.with_second(first, second)?),
            },
            None => match third {
                Some(third) => Ok(self.with_third(first, third)?),
                None => Ok(self.with_first(first)?),
            },
        }
    }

    /// A slot whose tuple's life has ended; None exactly where all tuples are live.
    pub(crate) fn ended(&self, now: u64) -> Option<u64>
        ensures { MatchOption result (live_entries now self.now ≡ self.now) (λ slot. IsEnded now slot self.now) }
    {
        match self.shelves.by_end.first() {
            Some((until, slot)) => if *until <= now { Some(*slot) } else { None },
            None => None,
        }
    }

    /// The live tuples alone.
    pub(crate) fn expire(self, now: u64) -> Result<Slots, Memory>
        ensures { IfOk result (λ slots. slots ≡ live_entries now self) }
    {
        let mut slots = self;
        'each: while let Some(slot) = slots.ended(now) {
            slots = slots.remove(slot)?;
        }
        Ok(slots)
    }

    /// Puts a tuple behind the others.
    pub(crate) fn push(self, tuple: Tuple) -> Result<Slots, Memory>
        ensures { IfOk result (λ slots. tuples_of slots ≡ tuples_of self ++ tuple ∷ []) }
    {
        let Slots { shelves } = self;
        let mut shelves = shelves.with_room()?;
        shelves.push(tuple)?;
        Ok(Slots { shelves })
    }

    /// Empties a slot.
    pub(crate) fn remove(self, slot: u64) -> Result<Slots, Memory>
        ensures { IfOk result (λ slots. slots ≡ without slot self) }
    {
        let Slots { mut shelves } = self;
        shelves.remove(slot)?;
        Ok(Slots { shelves })
    }
}
