ghost use Rattle.std.specs.Prelude.{◌≡◌, IfOk};
ghost use Rattle.scfs_tuples.specs.Matching.{field_eq};

use crate::{Field, Tuple};
use scfs_base::{Memory, Sequence};
use std::alloc::Global;

/// Whether two fields are equal.
pub fn same(a: &Field, b: &Field) -> bool
    ensures { result ≡ field_eq a.now b.now }
{
    match a {
        Field::Num(x) => match b {
            Field::Num(y) => *x == *y,
            Field::Text(_) => false,
        },
        Field::Text(x) => match b {
            Field::Num(_) => false,
            Field::Text(y) => x.as_slice() == y.as_slice(),
        },
    }
}

/// The same field again.
pub fn copy_field(alloc: Global, field: &Field) -> Result<Field, Memory>
    ensures { IfOk result (λ copy. copy ≡ field.now) }
{
    match field {
        Field::Num(number) => Ok(Field::Num(*number)),
        Field::Text(text) => Ok(Field::Text(text.copy(alloc)?)),
    }
}

/// The same fields again, in their order.
pub fn copy_fields(alloc: Global, fields: &[Field]) -> Result<Sequence<Field>, Memory>
    ensures { IfOk result (λ copies. copies ≡ fields.now) }
{
    let mut copies = Sequence::new(alloc);
    for field in fields {
        copies.push(copy_field(alloc, field)?)?;
    }
    Ok(copies)
}

/// The same tuple again.
pub fn copy_tuple(alloc: Global, tuple: &Tuple) -> Result<Tuple, Memory>
    ensures { IfOk result (λ copy. copy ≡ tuple.now) }
{
    let fields = copy_fields(alloc, tuple.fields.as_slice())?;
    Ok(Tuple {
        fields,
        until: tuple.until,
    })
}

/// The same tuples again, in their order.
pub fn copy_tuples(alloc: Global, tuples: &[Tuple]) -> Result<Sequence<Tuple>, Memory>
    ensures { IfOk result (λ copies. copies ≡ tuples.now) }
{
    let mut copies = Sequence::new(alloc);
    for tuple in tuples {
        copies.push(copy_tuple(alloc, tuple)?)?;
    }
    Ok(copies)
}
