ghost use Rattle.std.specs.Prelude.{◌≡◌, ◌+◌, ◌≤◌, [], ◌∷◌, IfOk, OnOk, List, ℕ, length, is_some, if◌then◌else◌};
ghost use Rattle.std.specs.List.{filter};
ghost use Rattle.std.specs.Option.{option_copied, option_map};
ghost use Rattle.scfs_tuples.specs.Bound.{near_count};
ghost use Rattle.scfs_tuples.specs.Filed.{Apart, slots_of, tuples_of};
ghost use Rattle.scfs_tuples.specs.Matching.{is_match, row};
ghost use Rattle.scfs_tuples.specs.Search.{entries_at, entry_at, first_entry, listed, standing, without_all};
ghost use Rattle.scfs_tuples.specs.declared.types.Tuple.{Tuple};

use crate::fields::copy_tuple;
use crate::matching::{agrees_to, fits_to};
use crate::{Field, Looks, Slots, Steps, Tuple, Want};
use scfs_base::{Memory, Sequence};
use std::alloc::Global;
use std::collections::BTreeSet;

/// A tuple that fits, its slot, and the bindings after it.
#[derive(Drop)]
pub struct Met {
    pub slot: u64,
    pub tuple: Tuple,
    pub bound: Sequence<Field>,
}

/// Looks at a slot that was not taken: the tuple and the bindings after it, where it fits.
fn fits_at<'a, L: Looks>(
    alloc: Global,
    slots: &'a Slots,
    gone: &BTreeSet<u64>,
    slot: u64,
    wants: &[Want],
    bound: &[Field],
    steps: &mut L,
) -> Result<Option<(&'a Tuple, Sequence<Field>)>, Memory>
    ensures met { IfOk result (λ met. option_map (λ m. record { slot = slot; tuple = m.0.now; bound = m.1 }) met
        ≡ first_entry wants.now (standing gone.now (entry_at slots.now slot)) bound.now) }
    ensures slots { IfOk result (λ met. (if is_some met then slot ∷ [] else [])
        ≡ slots_of (filter (λ e. is_match wants.now bound.now e.1) (standing gone.now (entry_at slots.now slot)))) }
    ensures looks { L.count steps.new ≤ L.count steps.old + 1 }
{
    if gone.contains(&slot) {
        return Ok(None);
    }
    let Some(tuple) = slots.get(slot, steps) else {
        return Ok(None);
    };
    match fits_to(alloc, wants, tuple.fields.as_slice(), bound)? {
        Some(bound) => Ok(Some((tuple, bound))),
        None => Ok(None),
    }
}

/// The first tuple that fits, of those in these slots that were not taken.
fn find_in<L: Looks>(
    alloc: Global,
    slots: &Slots,
    near: &[u64],
    gone: &BTreeSet<u64>,
    wants: &[Want],
    bound: &[Field],
    steps: &mut L,
) -> Result<Option<Met>, Memory>
    ensures met { IfOk result (λ met. met ≡ first_entry wants.now (standing gone.now (entries_at slots.now near.now)) bound.now) }
    ensures looks { L.count steps.new ≤ L.count steps.old + length near.now }
{
    let mut rest = near;
    'each: while let Some((slot, others)) = rest.split_first() {
        if let Some((tuple, bound)) = fits_at(alloc, slots, gone, *slot, wants, bound, steps)? {
            let tuple = copy_tuple(alloc, tuple)?;
            return Ok(Some(Met {
                slot: *slot,
                tuple,
                bound,
            }));
        }
        rest = others;
    }
    Ok(None)
}

/// The first tuple that fits, of those that were not taken.
pub fn find<L: Looks>(
    alloc: Global,
    slots: &Slots,
    gone: &BTreeSet<u64>,
    wants: &[Want],
    bound: &[Field],
    steps: &mut L,
) -> Result<Option<Met>, Memory>
    ensures met { IfOk result (λ met. met ≡ first_entry wants.now (standing gone.now slots.now) bound.now) }
    ensures looks { L.count steps.new ≤ L.count steps.old + near_count bound.now wants.now (tuples_of slots.now) }
    ensures apart { IfOk result (λ met. Apart slots.now) }
{
    let near = slots.near(wants, bound)?;
    Ok(find_in(alloc, slots, near.as_slice(), gone, wants, bound, steps)?)
}

/// The slots of all tuples that fit, of those in these slots that were not taken.
fn find_all_in<L: Looks>(
    alloc: Global,
    slots: &Slots,
    near: &[u64],
    gone: &BTreeSet<u64>,
    wants: &[Want],
    bound: &[Field],
    steps: &mut L,
) -> Result<Vec<u64>, Memory>
    ensures found { IfOk result (λ found. found.items
        ≡ slots_of (filter (λ e. is_match wants.now bound.now e.1) (standing gone.now (entries_at slots.now near.now)))) }
    ensures looks { L.count steps.new ≤ L.count steps.old + length near.now }
{
    let mut found = Vec::new(alloc);
    let mut rest = near;
    'each: while let Some((slot, others)) = rest.split_first() {
        if fits_at(alloc, slots, gone, *slot, wants, bound, steps)?.is_some() {
            found.push(*slot)?;
        }
        rest = others;
    }
    Ok(found)
}

/// The slots of all tuples that fit, of those that were not taken.
pub fn find_all<L: Looks>(
    alloc: Global,
    slots: &Slots,
    gone: &BTreeSet<u64>,
    wants: &[Want],
    bound: &[Field],
    steps: &mut L,
) -> Result<Vec<u64>, Memory>
    ensures found { IfOk result (λ found. found.items
        ≡ slots_of (filter (λ e. is_match wants.now bound.now e.1) (standing gone.now slots.now))) }
    ensures looks { L.count steps.new ≤ L.count steps.old + near_count bound.now wants.now (tuples_of slots.now) }
    ensures apart { IfOk result (λ found. Apart slots.now) }
{
    let near = slots.near(wants, bound)?;
    Ok(find_all_in(alloc, slots, near.as_slice(), gone, wants, bound, steps)?)
}

/// Looks at a slot: its tuple, where it agrees with the pattern under bindings that stand.
fn agrees_at<'a, L: Looks>(
    slots: &'a Slots,
    slot: u64,
    wants: &[Want],
    bound: &[Field],
    steps: &mut L,
) -> Option<&'a Tuple>
    ensures agrees { listed (option_copied result) ≡ row bound.now (tuples_of (entry_at slots.now slot)) wants.now }
    ensures looks { L.count steps.new ≤ L.count steps.old + 1 }
{
    match slots.get(slot, steps) {
        Some(tuple) => {
            if agrees_to(wants, tuple.fields.as_slice(), bound) {
                Some(tuple)
            } else {
                None
            }
        }
        None => None,
    }
}

/// The tuples in these slots that agree with the pattern, under bindings that stand.
fn row_in<L: Looks>(
    alloc: Global,
    slots: &Slots,
    near: &[u64],
    wants: &[Want],
    bound: &[Field],
    steps: &mut L,
) -> Result<Sequence<Tuple>, Memory>
    ensures row { IfOk result (λ found. found ≡ row bound.now (tuples_of (entries_at slots.now near.now)) wants.now) }
    ensures looks { L.count steps.new ≤ L.count steps.old + length near.now }
{
    let mut found = Sequence::new(alloc);
    let mut rest = near;
    'each: while let Some((slot, others)) = rest.split_first() {
        if let Some(tuple) = agrees_at(slots, *slot, wants, bound, steps) {
            found.push(copy_tuple(alloc, tuple)?)?;
        }
        rest = others;
    }
    Ok(found)
}

/// All tuples that agree with the pattern, under bindings that stand.
pub fn row_of<L: Looks>(
    alloc: Global,
    slots: &Slots,
    wants: &[Want],
    bound: &[Field],
    steps: &mut L,
) -> Result<Sequence<Tuple>, Memory>
    ensures row { IfOk result (λ found. found ≡ row bound.now (tuples_of slots.now) wants.now) }
    ensures looks { L.count steps.new ≤ L.count steps.old + near_count bound.now wants.now (tuples_of slots.now) }
{
    let near = slots.near(wants, bound)?;
    Ok(row_in(alloc, slots, near.as_slice(), wants, bound, steps)?)
}

/// Marks slots as taken.
pub fn take_slots(gone: &mut BTreeSet<u64>, slots: &[u64]) -> Result<(), Memory>
    ensures { OnOk result ((es : List (ℕ × Tuple)) → standing gone.new es ≡ without_all slots.now (standing gone.old es)) }
{
    let mut rest = slots;
    'each: while let Some((slot, others)) = rest.split_first() {
        gone.insert(*slot)?;
        rest = others;
    }
    Ok(())
}

/// All tuples, in list order.
pub fn copies(alloc: Global, slots: &Slots) -> Result<Sequence<Tuple>, Memory>
    ensures { IfOk result (λ copies. copies ≡ tuples_of slots.now) }
{
    let all = slots.all()?;
    Ok(copies_in(alloc, slots, all.as_slice())?)
}

/// The tuples in these slots.
fn copies_in(alloc: Global, slots: &Slots, all: &[u64]) -> Result<Sequence<Tuple>, Memory>
    ensures { IfOk result (λ copies. copies ≡ tuples_of (entries_at slots.now all.now)) }
{
    let mut steps = Steps { looked: 0 };
    let mut copies = Sequence::new(alloc);
    let mut rest = all;
    'each: while let Some((slot, others)) = rest.split_first() {
        if let Some(tuple) = slots.get(*slot, &mut steps) {
            copies.push(copy_tuple(alloc, tuple)?)?;
        }
        rest = others;
    }
    Ok(copies)
}
