ghost use Rattle.std.specs.Prelude.{◌≡◌, ℕ, ◌+◌, ◌^◌, ◌<◌, ◌≤◌, List, [], IfOk, IfSome, OnOk, length};
ghost use Rattle.scfs_tuples.specs.Bound.{near_count};
ghost use Rattle.scfs_tuples.specs.Filed.{tuples_of, without};
ghost use Rattle.scfs_tuples.specs.Matching.{first_match, matches, without_first, without_matches};
ghost use Rattle.scfs_tuples.specs.Search.{standing};
ghost use Rattle.scfs_tuples.specs.Trial.{Tests, left_in, match_of, wants_of};
ghost use Rattle.scfs_tuples.specs.declared.types.Tuple.{Tuple};

use crate::search::{Met, find, find_all, take_slots};
use crate::testing::Verdict;
use crate::{Cond, Field, Looks, Pattern, Slots, Tuple};
use scfs_base::{Memory, Sequence};
use std::alloc::Global;
use std::collections::BTreeSet;

/// Where testing stands: the bindings, how many tuples were taken by conditions that take all, and the slots taken.
#[derive(Drop)]
pub struct Trial {
    pub bound: Sequence<Field>,
    pub taken: u64,
    pub gone: BTreeSet<u64>,
}

impl Trial {
    /// With nothing bound and nothing taken.
    pub fn new(alloc: Global) -> Trial
        ensures bound { result.bound ≡ [] }
        ensures taken { result.taken ≡ 0 }
        ensures gone { (es : List (ℕ × Tuple)) → standing result.gone es ≡ es }
    {
        Trial {
            bound: Sequence::new(alloc),
            taken: 0,
            gone: BTreeSet::new(alloc),
        }
    }

    /// The first tuple that fits, of those that were not taken.
    fn find<L: Looks>(
        &self,
        alloc: Global,
        slots: &Slots,
        p: &Pattern,
        steps: &mut L,
    ) -> Result<Option<Met>, Memory>
        ensures first { IfOk result (λ met.
            first_match p.now.wants (left_in self.now slots.now) self.now.bound ≡ match_of met) }
        ensures rest { IfOk result (λ met. IfSome met (λ m.
            without_first p.now.wants (left_in self.now slots.now) self.now.bound
            ≡ tuples_of (without m.slot (standing self.now.gone slots.now)))) }
        ensures looks { L.count steps.new ≤ L.count steps.old + near_count self.now.bound p.now.wants (tuples_of slots.now) }
    {
        Ok(find(
            alloc,
            slots,
            &self.gone,
            p.wants.as_slice(),
            self.bound.as_slice(),
            steps,
        )?)
    }

    /// Takes the tuple in a slot.
    fn take(&mut self, slot: u64) -> Result<(), Memory>
        ensures gone { OnOk result ((es : List (ℕ × Tuple)) → standing self.new.gone es ≡ without slot (standing self.old.gone es)) }
        ensures others { OnOk result (self.new ≡ record self.old { gone = self.new.gone }) }
    {
        self.gone.insert(slot)?;
        Ok(())
    }

    /// Takes all tuples that fit.
    fn take_all<L: Looks>(
        &mut self,
        alloc: Global,
        slots: &Slots,
        p: &Pattern,
        steps: &mut L,
    ) -> Result<(), Memory>
        requires { self.old.taken + length (standing self.old.gone slots.now) < 2 ^ 64 }
        ensures left { OnOk result (left_in self.new slots.now
            ≡ without_matches p.now.wants (left_in self.old slots.now) self.old.bound) }
        ensures bound { OnOk result (self.new.bound ≡ self.old.bound) }
        ensures taken { OnOk result (self.new.taken
            ≡ self.old.taken + length (matches p.now.wants (left_in self.old slots.now) self.old.bound)) }
        ensures fewer { OnOk result (self.new.taken + length (standing self.new.gone slots.now)
            ≤ self.old.taken + length (standing self.old.gone slots.now)) }
        ensures looks { L.count steps.new ≤ L.count steps.old + near_count self.old.bound p.now.wants (tuples_of slots.now) }
    {
        let found = find_all(
            alloc,
            slots,
            &self.gone,
            p.wants.as_slice(),
            self.bound.as_slice(),
            steps,
        )?;
        take_slots(&mut self.gone, found.as_slice())?;
        self.taken += found.len() as u64;
        Ok(())
    }

    /// Tests the next condition.
    pub fn meets<L: Looks>(
        &mut self,
        alloc: Global,
        slots: &Slots,
        cond: &Cond,
        steps: &mut L,
    ) -> Result<Verdict, Memory>
        requires { self.old.taken + length (standing self.old.gone slots.now) < 2 ^ 64 }
        ensures tests { IfOk result (λ verdict. Tests cond.now slots.now self.old self.new verdict) }
        ensures looks { L.count steps.new ≤ L.count steps.old + near_count self.old.bound (wants_of cond.now) (tuples_of slots.now) }
    {
        match cond {
            Cond::Need(p) => match self.find(alloc, slots, p, steps)? {
                Some(met) => {
                    self.bound = met.bound;
                    Ok(Verdict::Holds)
                }
                None => Ok(Verdict::Fails(None)),
            },
            Cond::NoneOf(p) => match self.find(alloc, slots, p, steps)? {
                Some(met) => Ok(Verdict::Fails(Some(met.tuple))),
                None => Ok(Verdict::Holds),
            },
            Cond::Take(p) => match self.find(alloc, slots, p, steps)? {
                Some(met) => {
                    self.take(met.slot)?;
                    self.bound = met.bound;
                    Ok(Verdict::Holds)
                }
                None => Ok(Verdict::Fails(None)),
            },
            Cond::TakeAll(p) => {
                self.take_all(alloc, slots, p, steps)?;
                Ok(Verdict::Holds)
            }
        }
    }
}
