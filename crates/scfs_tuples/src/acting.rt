ghost use Rattle.std.specs.Prelude.{◌≡◌, ◌+◌, ◌^◌, ◌<◌, ◌≤◌, List, [], ◌++◌, IfOk, map};
ghost use Rattle.scfs_tuples.specs.After.{left_among, left_by, reply_among, result_of, tested, tuple_of};
ghost use Rattle.scfs_tuples.specs.Bound.{looks_in, row_looks};
ghost use Rattle.scfs_tuples.specs.Ending.{ended_in, looks_left, passed};
ghost use Rattle.scfs_tuples.specs.Filed.{tuples_of};
ghost use Rattle.scfs_tuples.specs.Matching.{row};
ghost use Rattle.scfs_tuples.specs.Search.{standing};
ghost use Rattle.scfs_tuples.specs.Steps.{Lives};
ghost use Rattle.scfs_tuples.specs.declared.types.Pattern.{Pattern};

use crate::putting::made;
use crate::search::row_of;
use crate::testing::Verdict;
use crate::trial::Trial;
use crate::{Cond, Field, Looks, Pattern, Reply, Slots, Step, StepResult, Template, Tuple};
use scfs_base::{Memory, Sequence};
use std::alloc::Global;
use std::collections::BTreeSet;

/// What testing all conditions came to.
#[derive(Drop)]
pub enum Ending {
    Passed(Trial),
    Failed { index: u64, tuple: Option<Tuple> },
}

/// Tests the conditions in order.
fn test<L: Looks>(
    alloc: Global,
    slots: &Slots,
    conds: &[Cond],
    steps: &mut L,
) -> Result<Ending, Memory>
    ensures ending { IfOk result (λ ending. tested conds.now 0 (tuples_of slots.now) [] 0 ≡ ended_in slots.now ending) }
    ensures further { IfOk result (λ ending. (all : List Pattern) → L.count steps.new + looks_left slots.now all ending
        ≤ L.count steps.old + looks_in conds.now (tuples_of slots.now) (tuples_of slots.now) [] all) }
    ensures looks { (all : List Pattern) → L.count steps.new
        ≤ L.count steps.old + looks_in conds.now (tuples_of slots.now) (tuples_of slots.now) [] all }
{
    let count = conds.len() as u64;
    let tuples = slots.len() as u64;
    let mut trial = Trial::new(alloc);
    let mut index = 0;
    let mut rest = conds;
    'each: while let Some((cond, others)) = rest.split_first() {
        if let Verdict::Fails(tuple) = trial.meets(alloc, slots, cond, steps)? {
            return Ok(Ending::Failed { index, tuple });
        }
        index += 1;
        rest = others;
    }
    Ok(Ending::Passed(trial))
}

/// The tuples that agree with each pattern.
fn rows<L: Looks>(
    alloc: Global,
    slots: &Slots,
    all: &[Pattern],
    bound: &[Field],
    steps: &mut L,
) -> Result<Sequence<Sequence<Tuple>>, Memory>
    ensures rows { IfOk result (λ rows. rows ≡ map (λ (p : Pattern). row bound.now (tuples_of slots.now) p.wants) all.now) }
    ensures looks { L.count steps.new ≤ L.count steps.old + row_looks bound.now (tuples_of slots.now) all.now }
{
    let mut rows = Sequence::new(alloc);
    let mut rest = all;
    'each: while let Some((pattern, others)) = rest.split_first() {
        rows.push(row_of(alloc, slots, pattern.wants.as_slice(), bound, steps)?)?;
        rest = others;
    }
    Ok(rows)
}

/// The slots without those that were taken.
fn settle(slots: Slots, gone: BTreeSet<u64>) -> Result<Slots, Memory>
    ensures { IfOk result (λ left. left ≡ standing gone slots) }
{
    let mut left = slots;
    let mut gone = gone;
    'each: while let Some(slot) = gone.pop_first() {
        left = left.remove(slot)?;
    }
    Ok(left)
}

/// Puts the tuple of each template behind the others.
fn put_all(
    alloc: Global,
    now: u64,
    puts: &[Template],
    bound: &[Field],
    slots: Slots,
) -> Result<Slots, Memory>
    requires moment { now < 2 ^ 62 }
    requires lives { Lives puts.now }
    ensures { IfOk result (λ left. tuples_of left ≡ tuples_of slots ++ map (tuple_of now bound.now) puts.now) }
{
    let mut left = slots;
    let mut rest = puts;
    'each: while let Some((template, others)) = rest.split_first() {
        left = left.push(made(alloc, now, template, bound)?)?;
        rest = others;
    }
    Ok(left)
}

/// What a step comes to: its reply, and the slots that it leaves.
#[derive(Drop)]
pub struct After {
    pub reply: Reply,
    pub slots: Slots,
}

/// Ends a step whose conditions hold.
fn finish<L: Looks>(
    alloc: Global,
    slots: Slots,
    trial: Trial,
    now: u64,
    step: &Step,
    steps: &mut L,
) -> Result<After, Memory>
    requires moment { now < 2 ^ 62 }
    requires lives { Lives step.now.puts }
    ensures reply { IfOk result (λ after. after.reply ≡ record {
      now = now;
      result = result_of (passed trial slots) (tuples_of slots) step.now.all;
    }) }
    ensures left { IfOk result (λ after. tuples_of after.slots ≡ left_by (passed trial slots) now (tuples_of slots) step.now.puts) }
    ensures looks { L.count steps.new ≤ L.count steps.old + row_looks trial.bound (tuples_of slots) step.now.all }
{
    let Trial { bound, taken, gone } = trial;
    let rows = rows(alloc, &slots, step.all.as_slice(), bound.as_slice(), steps)?;
    let slots = settle(slots, gone)?;
    let slots = put_all(alloc, now, step.puts.as_slice(), bound.as_slice(), slots)?;
    let result = StepResult::Did { bound, taken, rows };
    Ok(After {
        reply: Reply { now, result },
        slots,
    })
}

/// Does a step over slots whose tuples are all live.
pub fn step_over<L: Looks>(
    alloc: Global,
    slots: Slots,
    now: u64,
    step: &Step,
    steps: &mut L,
) -> Result<After, Memory>
    requires moment { now < 2 ^ 62 }
    requires lives { Lives step.now.puts }
    ensures reply { IfOk result (λ after. after.reply ≡ reply_among (tuples_of slots) now step.now) }
    ensures left { IfOk result (λ after. tuples_of after.slots ≡ left_among (tuples_of slots) now step.now) }
    ensures looks { L.count steps.new
        ≤ L.count steps.old + looks_in step.now.conds (tuples_of slots) (tuples_of slots) [] step.now.all }
{
    match test(alloc, &slots, step.conds.as_slice(), steps)? {
        Ending::Passed(trial) => Ok(finish(alloc, slots, trial, now, step, steps)?),
        Ending::Failed { index, tuple } => {
            let result = StepResult::Refused { index, tuple };
            Ok(After {
                reply: Reply { now, result },
                slots,
            })
        }
    }
}
