ghost use Rattle.std.specs.Prelude.{◌≡◌, ◌+◌, ◌^◌, ◌<◌, ◌≤◌, [], IfOk, OnOk};
ghost use Rattle.scfs_tuples.specs.After.{left_after, reply_of};
ghost use Rattle.scfs_tuples.specs.Bound.{most_looks};
ghost use Rattle.scfs_tuples.specs.Steps.{IsStep};

use crate::acting::step_over;
use crate::search::copies;
use crate::{Looks, Reply, Slots, Step, Steps, Tuple};
use scfs_base::{Memory, Sequence};
use std::alloc::Global;
use std::marker::Model;
use std::mem;

/// The tuple space, seen as the list of its tuples.
#[derive(Drop)]
pub struct Space {
    alloc: Global,
    slots: Slots,
}

impl Model for Space {
    ghost use Rattle.std.specs.Prelude.{List};
    ghost use Rattle.scfs_tuples.specs.Filed.{tuples_of};
    ghost use Rattle.scfs_tuples.specs.declared.types.Tuple.{Tuple};

    ghost Value = { List Tuple };

    ghost view = { λ s. tuples_of s.slots };
}

impl Space {
    /// A space with no tuple. It takes no memory.
    pub fn new(alloc: Global) -> Space
        ensures { result ≡ [] }
    {
        Space {
            alloc,
            slots: Slots::new(alloc),
        }
    }

    /// Does a step at this moment. First the tuples whose life has ended go. Then the conditions are tested in order; if all
    /// hold, then the taken tuples go and the step's own are put behind the others, else nothing further changes.
    pub fn act(&mut self, now: u64, step: &Step) -> Result<Reply, Memory>
        requires moment { now < 2 ^ 62 }
        requires step { IsStep step.now }
        ensures reply { IfOk result (λ reply. reply ≡ reply_of self.old now step.now) }
        ensures left { OnOk result (self.new ≡ left_after self.old now step.now) }
    {
        let mut steps = Steps { looked: 0 };
        Ok(self.act_counted(now, step, &mut steps)?)
    }

    /// As `act`, and counts each look at a tuple.
    pub fn act_counted<L: Looks>(
        &mut self,
        now: u64,
        step: &Step,
        steps: &mut L,
    ) -> Result<Reply, Memory>
        requires moment { now < 2 ^ 62 }
        requires step { IsStep step.now }
        requires count { L.count steps.old < 2 ^ 63 }
        ensures reply { IfOk result (λ reply. reply ≡ reply_of self.old now step.now) }
        ensures left { OnOk result (self.new ≡ left_after self.old now step.now) }
        ensures looks { L.count steps.new ≤ L.count steps.old + most_looks self.old now step.now }
    {
        let slots = mem::replace(&mut self.slots, Slots::new(self.alloc)).expire(now)?;
        let after = step_over(self.alloc, slots, now, step, steps)?;
        self.slots = after.slots;
        Ok(after.reply)
    }

    /// The tuples in list order.
    pub fn tuples(&self) -> Result<Sequence<Tuple>, Memory>
        ensures { IfOk result (λ tuples. tuples ≡ self.now) }
    {
        Ok(copies(self.alloc, &self.slots)?)
    }
}
