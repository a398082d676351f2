ghost use Rattle.std.specs.Prelude.{◌≡◌, ℕ, ◌+◌, ◌^◌, ◌<◌, ◌≤◌, List, [], ◌∷◌, IfOk, OnOk, length};
ghost use Rattle.scfs_tuples.specs.After.{tested};
ghost use Rattle.scfs_tuples.specs.Matching.{matches, without_matches};
ghost use Rattle.scfs_tuples.specs.Plain.{IsFirst, goes_on};
ghost use Rattle.scfs_tuples.specs.declared.types.Cond.{Cond};

use crate::picking::{Found, first_of, others_of};
use crate::{Cond, Field, Pattern, Tuple};
use scfs_base::{Memory, Sequence};
use std::alloc::Global;

/// Whether one condition holds; if a `NoneOf` does not, then the tuple that it found.
#[derive(Drop)]
pub enum Verdict {
    Holds,
    Fails(Option<Tuple>),
}

/// Where testing stands: the bindings, how many tuples were taken by conditions that take all, and the tuples left.
#[derive(Drop)]
pub struct Standing {
    pub bound: Sequence<Field>,
    pub taken: u64,
    pub left: Sequence<Tuple>,
}

impl Standing {
    /// The first tuple that fits, of those left.
    fn first(&self, alloc: Global, p: &Pattern) -> Result<Option<Found>, Memory>
        ensures { IfOk result (λ found. IsFirst p.now.wants self.now.left self.now.bound found) }
    {
        Ok(first_of(
            alloc,
            p.wants.as_slice(),
            self.left.as_slice(),
            self.bound.as_slice(),
        )?)
    }

    /// Takes all tuples that fit.
    fn take_all(&mut self, alloc: Global, p: &Pattern) -> Result<(), Memory>
        requires { self.old.taken + length self.old.left < 2 ^ 64 }
        ensures left { OnOk result (self.new.left ≡ without_matches p.now.wants self.old.left self.old.bound) }
        ensures bound { OnOk result (self.new.bound ≡ self.old.bound) }
        ensures taken { OnOk result (self.new.taken
            ≡ self.old.taken + length (matches p.now.wants self.old.left self.old.bound)) }
        ensures fewer { OnOk result (self.new.taken + length self.new.left ≤ self.old.taken + length self.old.left) }
    {
        let others = others_of(
            alloc,
            p.wants.as_slice(),
            self.left.as_slice(),
            self.bound.as_slice(),
        )?;
        self.taken += (self.left.len() - others.len()) as u64;
        self.left = others;
        Ok(())
    }

    /// Tests the next condition.
    pub fn meets(&mut self, alloc: Global, cond: &Cond) -> Result<Verdict, Memory>
        requires { self.old.taken + length self.old.left < 2 ^ 64 }
        ensures fewer { OnOk result (self.new.taken + length self.new.left ≤ self.old.taken + length self.old.left) }
        ensures verdict { IfOk result (λ verdict. (cs : List Cond) (at : ℕ) →
            tested (cond.now ∷ cs) at self.old.left self.old.bound self.old.taken
            ≡ goes_on verdict at (tested cs (at + 1) self.new.left self.new.bound self.new.taken)) }
    {
        match cond {
            Cond::Need(p) => match self.first(alloc, p)? {
                Some(found) => {
                    self.bound = found.bound;
                    Ok(Verdict::Holds)
                }
                None => Ok(Verdict::Fails(None)),
            },
            Cond::NoneOf(p) => match self.first(alloc, p)? {
                Some(found) => Ok(Verdict::Fails(Some(found.tuple))),
                None => Ok(Verdict::Holds),
            },
            Cond::Take(p) => match self.first(alloc, p)? {
                Some(found) => {
                    self.left.remove(found.at);
                    self.bound = found.bound;
                    Ok(Verdict::Holds)
                }
                None => Ok(Verdict::Fails(None)),
            },
            Cond::TakeAll(p) => {
                self.take_all(alloc, p)?;
                Ok(Verdict::Holds)
            }
        }
    }
}
