ghost use Rattle.std.specs.Prelude.{◌≡◌, IfOk};

use crate::fields::copy_field;
use crate::{Cond, Give, Pattern, Step, Template, Want};
use scfs_base::{Memory, Sequence};
use std::alloc::Global;

fn copy_want(alloc: Global, want: &Want) -> Result<Want, Memory>
    ensures { IfOk result (λ copied. copied ≡ want.now) }
{
    Ok(match want {
        Want::Eq(field) => Want::Eq(copy_field(alloc, field)?),
        Want::Any => Want::Any,
        Want::Bind(variable) => Want::Bind(*variable),
    })
}

fn copy_wants(alloc: Global, wants: &[Want]) -> Result<Sequence<Want>, Memory>
    ensures { IfOk result (λ copies. copies ≡ wants.now) }
{
    let mut copies = Sequence::new(alloc);
    for want in wants {
        copies.push(copy_want(alloc, want)?)?;
    }
    Ok(copies)
}

fn copy_pattern(alloc: Global, pattern: &Pattern) -> Result<Pattern, Memory>
    ensures { IfOk result (λ copied. copied ≡ pattern.now) }
{
    let wants = copy_wants(alloc, pattern.wants.as_slice())?;
    Ok(Pattern { wants })
}

fn copy_patterns(alloc: Global, patterns: &[Pattern]) -> Result<Sequence<Pattern>, Memory>
    ensures { IfOk result (λ copies. copies ≡ patterns.now) }
{
    let mut copies = Sequence::new(alloc);
    for pattern in patterns {
        copies.push(copy_pattern(alloc, pattern)?)?;
    }
    Ok(copies)
}

fn copy_cond(alloc: Global, cond: &Cond) -> Result<Cond, Memory>
    ensures { IfOk result (λ copied. copied ≡ cond.now) }
{
    Ok(match cond {
        Cond::Need(pattern) => Cond::Need(copy_pattern(alloc, pattern)?),
        Cond::NoneOf(pattern) => Cond::NoneOf(copy_pattern(alloc, pattern)?),
        Cond::Take(pattern) => Cond::Take(copy_pattern(alloc, pattern)?),
        Cond::TakeAll(pattern) => Cond::TakeAll(copy_pattern(alloc, pattern)?),
    })
}

fn copy_conds(alloc: Global, conds: &[Cond]) -> Result<Sequence<Cond>, Memory>
    ensures { IfOk result (λ copies. copies ≡ conds.now) }
{
    let mut copies = Sequence::new(alloc);
    for cond in conds {
        copies.push(copy_cond(alloc, cond)?)?;
    }
    Ok(copies)
}

fn copy_give(alloc: Global, give: &Give) -> Result<Give, Memory>
    ensures { IfOk result (λ copied. copied ≡ give.now) }
{
    Ok(match give {
        Give::Val(field) => Give::Val(copy_field(alloc, field)?),
        Give::Var(variable) => Give::Var(*variable),
        Give::Now => Give::Now,
    })
}

fn copy_gives(alloc: Global, gives: &[Give]) -> Result<Sequence<Give>, Memory>
    ensures { IfOk result (λ copies. copies ≡ gives.now) }
{
    let mut copies = Sequence::new(alloc);
    for give in gives {
        copies.push(copy_give(alloc, give)?)?;
    }
    Ok(copies)
}

fn copy_template(alloc: Global, template: &Template) -> Result<Template, Memory>
    ensures { IfOk result (λ copied. copied ≡ template.now) }
{
    let gives = copy_gives(alloc, template.gives.as_slice())?;
    Ok(Template {
        gives,
        life: template.life,
    })
}

fn copy_templates(alloc: Global, templates: &[Template]) -> Result<Sequence<Template>, Memory>
    ensures { IfOk result (λ copies. copies ≡ templates.now) }
{
    let mut copies = Sequence::new(alloc);
    for template in templates {
        copies.push(copy_template(alloc, template)?)?;
    }
    Ok(copies)
}

impl Step {
    /// The same step again.
    pub fn copy(&self, alloc: Global) -> Result<Step, Memory>
        ensures { IfOk result (λ copied. copied ≡ self.now) }
    {
        Ok(Step {
            conds: copy_conds(alloc, self.conds.as_slice())?,
            all: copy_patterns(alloc, self.all.as_slice())?,
            puts: copy_templates(alloc, self.puts.as_slice())?,
        })
    }
}
