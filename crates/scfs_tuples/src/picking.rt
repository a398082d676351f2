ghost use Rattle.std.specs.Prelude.{◌≡◌, ◌+◌, IfOk, length, map};
ghost use Rattle.scfs_tuples.specs.After.{live};
ghost use Rattle.scfs_tuples.specs.Matching.{matches, row, without_matches};
ghost use Rattle.scfs_tuples.specs.Plain.{IsFirst};

use crate::fields::copy_tuple;
use crate::matching::{agrees_to, fits_to};
use crate::{Field, Tuple, Want};
use scfs_base::{Memory, Sequence};
use std::alloc::Global;

/// A tuple that fits, its place in the list, and the bindings after it.
#[derive(Drop)]
pub struct Found {
    pub at: usize,
    pub tuple: Tuple,
    pub bound: Sequence<Field>,
}

/// The first tuple that fits.
pub fn first_of(
    alloc: Global,
    wants: &[Want],
    tuples: &[Tuple],
    bound: &[Field],
) -> Result<Option<Found>, Memory>
    ensures { IfOk result (λ found. IsFirst wants.now tuples.now bound.now found) }
{
    for (at, tuple) in tuples.iter().enumerate() {
        if let Some(bound) = fits_to(alloc, wants, tuple.fields.as_slice(), bound)? {
            let tuple = copy_tuple(alloc, tuple)?;
            return Ok(Some(Found { at, tuple, bound }));
        }
    }
    Ok(None)
}

/// The tuples that do not fit.
pub fn others_of(
    alloc: Global,
    wants: &[Want],
    tuples: &[Tuple],
    bound: &[Field],
) -> Result<Sequence<Tuple>, Memory>
    ensures others { IfOk result (λ left. left ≡ without_matches wants.now tuples.now bound.now) }
    ensures count { IfOk result (λ left. length (matches wants.now tuples.now bound.now) + length left ≡ length tuples.now) }
{
    let mut left = Sequence::new(alloc);
    for tuple in tuples {
        if fits_to(alloc, wants, tuple.fields.as_slice(), bound)?.is_none() {
            left.push(copy_tuple(alloc, tuple)?)?;
        }
    }
    Ok(left)
}

/// The tuples that agree with the pattern.
pub fn row_of(
    alloc: Global,
    wants: &[Want],
    tuples: &[Tuple],
    bound: &[Field],
) -> Result<Sequence<Tuple>, Memory>
    ensures { IfOk result (λ found. found ≡ row bound.now tuples.now wants.now) }
{
    let mut found = Sequence::new(alloc);
    for tuple in tuples {
        if agrees_to(wants, tuple.fields.as_slice(), bound) {
            found.push(copy_tuple(alloc, tuple)?)?;
        }
    }
    Ok(found)
}

/// The tuples that are live at this moment.
pub fn live_of(alloc: Global, now: u64, tuples: &[Tuple]) -> Result<Sequence<Tuple>, Memory>
    ensures { IfOk result (λ left. left ≡ live now tuples.now) }
{
    let mut left = Sequence::new(alloc);
    for tuple in tuples {
        if tuple.until.is_none_or(|until| now < until) {
            left.push(copy_tuple(alloc, tuple)?)?;
        }
    }
    Ok(left)
}
