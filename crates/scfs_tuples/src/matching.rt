ghost use Rattle.std.specs.Prelude.{◌≡◌, IfOk, Some, None, if◌then◌else◌};
ghost use Rattle.scfs_tuples.specs.Matching.{agrees, fits, want_agrees, want_fits};

use crate::fields::{copy_field, copy_fields, same};
use crate::{Field, Want};
use scfs_base::{Memory, Sequence};
use std::alloc::Global;

/// Tests one want, and adds what it binds.
fn want_fits_to(
    alloc: Global,
    want: &Want,
    field: &Field,
    bound: &mut Sequence<Field>,
) -> Result<bool, Memory>
    ensures { IfOk result (λ ok. want_fits want.now field.now bound.old ≡ if ok then Some bound.new else None) }
{
    match want {
        Want::Eq(wanted) => Ok(same(wanted, field)),
        Want::Any => Ok(true),
        Want::Bind(variable) => match bound.get(usize::from(*variable)) {
            Some(known) => Ok(same(known, field)),
            None => {
                bound.push(copy_field(alloc, field)?)?;
                Ok(true)
            }
        },
    }
}

/// The bindings after a tuple of these fields, where it fits.
pub fn fits_to(
    alloc: Global,
    wants: &[Want],
    fields: &[Field],
    bound: &[Field],
) -> Result<Option<Sequence<Field>>, Memory>
    ensures { IfOk result (λ after. after ≡ fits wants.now fields.now bound.now) }
{
    let mut binding = copy_fields(alloc, bound)?;
    let mut wants = wants;
    let mut fields = fields;
    'each: while let Some((want, other_wants)) = wants.split_first() {
        let Some((field, other_fields)) = fields.split_first() else {
            return Ok(None);
        };
        if !want_fits_to(alloc, want, field, &mut binding)? {
            return Ok(None);
        }
        wants = other_wants;
        fields = other_fields;
    }
    if fields.is_empty() {
        Ok(Some(binding))
    } else {
        Ok(None)
    }
}

fn want_agrees_to(want: &Want, field: &Field, bound: &[Field]) -> bool
    ensures { result ≡ want_agrees bound.now want.now field.now }
{
    match want {
        Want::Eq(wanted) => same(wanted, field),
        Want::Any => true,
        Want::Bind(variable) => match bound.get(usize::from(*variable)) {
            Some(known) => same(known, field),
            None => true,
        },
    }
}

/// Whether a tuple of these fields agrees with the pattern, under bindings that stand.
pub fn agrees_to(wants: &[Want], fields: &[Field], bound: &[Field]) -> bool
    ensures { result ≡ agrees bound.now wants.now fields.now }
{
    let mut wants = wants;
    let mut fields = fields;
    'each: while let Some((want, other_wants)) = wants.split_first() {
        let Some((field, other_fields)) = fields.split_first() else {
            return false;
        };
        if !want_agrees_to(want, field, bound) {
            return false;
        }
        wants = other_wants;
        fields = other_fields;
    }
    fields.is_empty()
}
