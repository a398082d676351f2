ghost use Rattle.std.specs.Prelude.{◌≡◌, ◌≤◌, ◌∷◌, IfSome, IsTrue, List};
ghost use Rattle.scfs_tuples.specs.Steps.{Follows, Gives, InOrder, IsStep, Lives, Name, count_after};
ghost use Rattle.scfs_tuples.specs.declared.types.Cond.{Cond};
ghost use Rattle.scfs_tuples.specs.declared.types.Template.{Template};

use crate::{Cond, Give, Step, Template, Want};

/// How many variables are bound after a pattern that binds, where its variables are in order.
fn in_order(count: u64, wants: &[Want]) -> Option<u64>
    requires { count ≤ 256 }
    ensures order { IfSome result (λ after. InOrder count wants.now) }
    ensures count { IfSome result (λ after. after ≡ count_after count wants.now) }
    ensures small { IfSome result (λ after. after ≤ 256) }
{
    let mut after = count;
    let mut rest = wants;
    'each: while let Some((want, others)) = rest.split_first() {
        if let Want::Bind(variable) = want {
            let variable = u64::from(*variable);
            if variable > after {
                return None;
            }
            after = after.max(variable + 1);
        }
        rest = others;
    }
    Some(after)
}

/// Whether fields name bound variables alone.
fn gives(count: u64, gives: &[Give]) -> bool
    ensures { IsTrue result → Gives count gives.now }
{
    let mut rest = gives;
    'each: while let Some((give, others)) = rest.split_first() {
        if let Give::Var(variable) = give {
            if u64::from(*variable) >= count {
                return false;
            }
        }
        rest = others;
    }
    true
}

/// Whether templates name bound variables alone.
fn named(count: u64, puts: &[Template]) -> bool
    ensures { IsTrue result → Name count puts.now }
{
    let mut rest = puts;
    'each: while let Some((template, others)) = rest.split_first() {
        if !gives(count, template.gives.as_slice()) {
            return false;
        }
        rest = others;
    }
    true
}

/// Whether each life is below 2^62.
fn lives(puts: &[Template]) -> bool
    ensures { IsTrue result → Lives puts.now }
{
    let mut rest = puts;
    'each: while let Some((template, others)) = rest.split_first() {
        if let Some(life) = template.life {
            if life >= 1 << 62 {
                return false;
            }
        }
        rest = others;
    }
    true
}

/// How many variables are bound after a condition, where its variables are in order.
fn after(count: u64, cond: &Cond) -> Option<u64>
    requires { count ≤ 256 }
    ensures order { IfSome result (λ after. (cs : List Cond) (puts : List Template) → Follows after cs puts → Follows count (cond.now ∷ cs) puts) }
    ensures small { IfSome result (λ after. after ≤ 256) }
{
    match cond {
        Cond::Need(p) => in_order(count, p.wants.as_slice()),
        Cond::Take(p) => in_order(count, p.wants.as_slice()),
        Cond::NoneOf(p) => in_order(count, p.wants.as_slice()).map(|_| count),
        Cond::TakeAll(p) => in_order(count, p.wants.as_slice()).map(|_| count),
    }
}

/// Whether variables are numbered from 0 in the order of first use, and templates name bound ones alone.
fn follows(conds: &[Cond], puts: &[Template]) -> bool
    ensures { IsTrue result → Follows 0 conds.now puts.now }
{
    let mut count = 0;
    let mut rest = conds;
    'each: while let Some((cond, others)) = rest.split_first() {
        match after(count, cond) {
            Some(next) => count = next,
            None => return false,
        }
        rest = others;
    }
    named(count, puts)
}

/// Whether it is a step.
pub fn checked(step: &Step) -> bool
    ensures { IsTrue result → IsStep step.now }
{
    follows(step.conds.as_slice(), step.puts.as_slice()) && lives(step.puts.as_slice())
}
