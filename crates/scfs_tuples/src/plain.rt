ghost use Rattle.std.specs.Prelude.{◌≡◌, ◌^◌, ◌<◌, ◌++◌, [], IfOk, OnOk, length, map};
ghost use Rattle.scfs_tuples.specs.After.{left_after, reply_of, tested, tuple_of};
ghost use Rattle.scfs_tuples.specs.Matching.{row};
ghost use Rattle.scfs_tuples.specs.Plain.{tested_of};
ghost use Rattle.scfs_tuples.specs.Steps.{IsStep, Lives};
ghost use Rattle.scfs_tuples.specs.declared.types.Pattern.{Pattern};

use crate::fields::copy_tuples;
use crate::picking::{live_of, row_of};
use crate::putting::made;
use crate::testing::{Standing, Verdict};
use crate::{Cond, Field, Pattern, Reply, Step, StepResult, Template, Tuple};
use scfs_base::{Memory, Sequence};
use std::alloc::Global;
use std::marker::Model;

/// What testing all conditions came to.
#[derive(Drop)]
enum Outcome {
    Passed(Standing),
    Failed { index: u64, tuple: Option<Tuple> },
}

/// Tests the conditions in order.
fn test(alloc: Global, conds: &[Cond], live: &[Tuple]) -> Result<Outcome, Memory>
    ensures { IfOk result (λ outcome. tested conds.now 0 live.now [] 0 ≡ tested_of outcome) }
{
    let count = conds.len() as u64;
    let tuples = live.len() as u64;
    let mut standing = Standing {
        bound: Sequence::new(alloc),
        taken: 0,
        left: copy_tuples(alloc, live)?,
    };
    let mut index = 0;
    let mut rest = conds;
    'each: while let Some((cond, others)) = rest.split_first() {
        if let Verdict::Fails(tuple) = standing.meets(alloc, cond)? {
            return Ok(Outcome::Failed { index, tuple });
        }
        index += 1;
        rest = others;
    }
    Ok(Outcome::Passed(standing))
}

/// The tuples that agree with each pattern.
fn rows(
    alloc: Global,
    all: &[Pattern],
    tuples: &[Tuple],
    bound: &[Field],
) -> Result<Sequence<Sequence<Tuple>>, Memory>
    ensures { IfOk result (λ rows. rows ≡ map (λ (p : Pattern). row bound.now tuples.now p.wants) all.now) }
{
    let mut rows = Sequence::new(alloc);
    for pattern in all {
        rows.push(row_of(alloc, pattern.wants.as_slice(), tuples, bound)?)?;
    }
    Ok(rows)
}

/// Puts the tuple of each template behind the others.
fn put_all(
    alloc: Global,
    now: u64,
    puts: &[Template],
    bound: &[Field],
    tuples: &mut Sequence<Tuple>,
) -> Result<(), Memory>
    requires moment { now < 2 ^ 62 }
    requires lives { Lives puts.now }
    ensures { OnOk result (tuples.new ≡ tuples.old ++ map (tuple_of now bound.now) puts.now) }
{
    let mut rest = puts;
    'each: while let Some((template, others)) = rest.split_first() {
        tuples.push(made(alloc, now, template, bound)?)?;
        rest = others;
    }
    Ok(())
}

/// The tuple space as a plain list, each step worked out as it is defined.
#[derive(Drop)]
pub struct PlainSpace {
    alloc: Global,
    tuples: Sequence<Tuple>,
}

impl Model for PlainSpace {
    ghost use Rattle.std.specs.Prelude.{List};
    ghost use Rattle.scfs_tuples.specs.declared.types.Tuple.{Tuple};

    ghost Value = { List Tuple };

    ghost view = { λ s. s.tuples };
}

impl PlainSpace {
    /// A space with no tuple. It takes no memory.
    pub fn new(alloc: Global) -> PlainSpace
        ensures { result ≡ [] }
    {
        PlainSpace {
            alloc,
            tuples: Sequence::new(alloc),
        }
    }

    /// The tuples in list order.
    pub fn tuples(&self) -> &[Tuple]
        ensures { result.now ≡ self.now }
    {
        self.tuples.as_slice()
    }

    /// Does a step at this moment: the tuples whose life has ended go, the conditions are tested in order, and if all hold, then
    /// the taken tuples go and the step's own are put behind the others.
    pub fn act(&mut self, now: u64, step: &Step) -> Result<Reply, Memory>
        requires moment { now < 2 ^ 62 }
        requires step { IsStep step.now }
        ensures reply { IfOk result (λ reply. reply ≡ reply_of self.old now step.now) }
        ensures left { OnOk result (self.new ≡ left_after self.old now step.now) }
    {
        let live = live_of(self.alloc, now, self.tuples.as_slice())?;
        match test(self.alloc, step.conds.as_slice(), live.as_slice())? {
            Outcome::Passed(standing) => {
                let Standing {
                    bound,
                    taken,
                    mut left,
                } = standing;
                let known = bound.as_slice();
                let rows = rows(self.alloc, step.all.as_slice(), live.as_slice(), known)?;
                put_all(self.alloc, now, step.puts.as_slice(), known, &mut left)?;
                self.tuples = left;
                let result = StepResult::Did { bound, taken, rows };
                Ok(Reply { now, result })
            }
            Outcome::Failed { index, tuple } => {
                self.tuples = live;
                let result = StepResult::Refused { index, tuple };
                Ok(Reply { now, result })
            }
        }
    }
}
