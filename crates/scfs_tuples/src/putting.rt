ghost use Rattle.std.specs.Prelude.{◌≡◌, ◌^◌, ◌<◌, ◌++◌, IfOk, OnOk, length, map};
ghost use Rattle.scfs_tuples.specs.After.{field_of, tuple_of};
ghost use Rattle.scfs_tuples.specs.Steps.{IsLife};

use crate::fields::copy_field;
use crate::{Field, Give, Template, Tuple};
use scfs_base::{Memory, Sequence};
use std::alloc::Global;

/// The field that a template gives.
fn give(alloc: Global, now: u64, give: &Give, bound: &[Field]) -> Result<Field, Memory>
    ensures { IfOk result (λ f. f ≡ field_of now bound.now give.now) }
{
    match give {
        Give::Val(field) => copy_field(alloc, field),
        Give::Var(variable) => match bound.get(usize::from(*variable)) {
            Some(known) => copy_field(alloc, known),
            None => Ok(Field::Num(0)),
        },
        Give::Now => Ok(Field::Num(now)),
    }
}

/// The tuple that a template puts.
pub fn made(alloc: Global, now: u64, template: &Template, bound: &[Field]) -> Result<Tuple, Memory>
    requires moment { now < 2 ^ 62 }
    requires life { IsLife template.now.life }
    ensures { IfOk result (λ t. t ≡ tuple_of now bound.now template.now) }
{
    let mut fields = Sequence::new(alloc);
    for g in template.gives.as_slice() {
        fields.push(give(alloc, now, g, bound)?)?;
    }
    let until = match template.life {
        Some(life) => Some(now + life),
        None => None,
    };
    Ok(Tuple { fields, until })
}
