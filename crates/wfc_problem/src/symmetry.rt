//! The last of the checks: that what may stand beside a value has the value beside it the other
//! way.
//!
//! It is linear in the number of supports. The values of a direction are gone through in rising
//! order, so that a place for each other value, which goes on over its list the other way, never
//! has to go back.

ghost use Rattle.std.specs.Prelude.{◌≡◌, ℕ, ◌+◌, ◌*◌, ◌<◌, ◌≤◌, ◌↔◌, IfNone, IfSome, IsTrue, false, length, slice_index};
ghost use Rattle.std.specs.Result.{result_err};
ghost use Rattle.wfc_model.specs.Direction.{opposite};
ghost use Rattle.wfc_problem.specs.Fault.{is_mutual, symmetry_fault};
ghost use Rattle.wfc_problem.specs.Network.{HasTables, IsIndexed, ok, values};
ghost use Rattle.wfc_problem.specs.Symmetry.{IsEarliest, IsEndOf, AreBefore, ArePassed, IsPassed, HasReached, HaveReached};

use crate::{MAX_VALUES, Parts, ProblemFault, opposite};

/// How many values' lists are read at a time where the symmetry is tested.
const BLOCK: u16 = 128;

pub fn check_symmetry(parts: &Parts) -> Result<(), ProblemFault>
    requires sized { HasTables parts.now }
    requires indexed { IsIndexed parts.now }
    ensures value { result_err result ≡ symmetry_fault parts.now }
{
    match first_one_sided(parts) {
        None => Ok(()),
        Some((value, dir)) => Err(ProblemFault::NotSymmetric { value, dir }),
    }
}

/// The least value that supports one that doesn't support it, and the first direction in which it
/// does so.
fn first_one_sided(parts: &Parts) -> Option<(u16, u8)>
    requires sized { HasTables parts.now }
    requires indexed { IsIndexed parts.now }
    ensures value { IsEarliest (is_mutual parts.now) (values parts.now) parts.now.dirs result }
{
    let mut first = None;
    let mut end = parts.weights.len() as u16;
    for dir in 0..parts.dirs {
        let value = end_of_mutual(parts, dir, end);
        if value < end {
            first = Some((value, dir));
            end = value;
        }
    }
    first
}

/// How many values below `end`, from the first on, support in this direction only such as support
/// them.
///
/// Supports are looked at in blocks of neighbouring values, so that few lists are read at a time
/// the other way.
fn end_of_mutual(parts: &Parts, dir: u8, end: u16) -> u16
    requires sized { HasTables parts.now }
    requires indexed { IsIndexed parts.now }
    requires dir_in { dir < parts.now.dirs }
    requires end_in { end ≤ values parts.now }
    ensures value { IsEndOf (λ value. is_mutual parts.now value dir) end result }
{
    let mut passed = [0; MAX_VALUES as usize];
    let mut found = end;
    for block in 0..parts.weights.len() as u16 / BLOCK + 1 {
        found = end_of_block(parts, dir, (block + 1) * BLOCK, found, &mut passed);
    }
    found
}

/// Goes on over the supports below `high` of the values below `end`, up to the first value that one
/// of them lacks.
fn end_of_block(parts: &Parts, dir: u8, high: u16, end: u16, passed: &mut [u16]) -> u16
    requires sized { HasTables parts.now }
    requires indexed { IsIndexed parts.now }
    requires dir_in { dir < parts.now.dirs }
    requires end_in { end ≤ values parts.now }
    requires passed { ArePassed parts.now dir passed.old }
    ensures few { result ≤ end }
    ensures fails { result < end → is_mutual parts.now result dir ≡ false }
    ensures passed { ArePassed parts.now dir passed.new }
    ensures reached { HaveReached parts.now dir high result passed.new }
{
    let mut places = [0; MAX_VALUES as usize];
    for value in 0..end {
        match passed_below(parts, value, dir, high, passed[value as usize], &mut places) {
            Some(at) => passed[value as usize] = at,
            None => return value,
        }
    }
    end
}

/// Goes on over the supports of `value` that are below `high`, and answers how many are passed, if
/// each supports it.
fn passed_below(
    parts: &Parts,
    value: u16,
    dir: u8,
    high: u16,
    passed: u16,
    places: &mut [u16],
) -> Option<u16>
    requires sized { HasTables parts.now }
    requires indexed { IsIndexed parts.now }
    requires value_in { value < values parts.now }
    requires dir_in { dir < parts.now.dirs }
    requires passed { IsPassed parts.now dir value passed }
    requires before { AreBefore parts.now (opposite dir) value places.old }
    ensures passed { IfSome result (IsPassed parts.now dir value) }
    ensures reached { IfSome result (HasReached parts.now dir value high) }
    ensures fails { IfNone result (is_mutual parts.now value dir ≡ false) }
    ensures before { AreBefore parts.now (opposite dir) value places.new }
{
    let back = opposite(dir);
    let list = parts.supports(value, dir);
    let mut at = passed;
    while (at as usize) < list.len() && list[at as usize] < high {
        if !supports_back(parts, list[at as usize], back, value, places) {
            return None;
        }
        at += 1;
    }
    Some(at)
}

/// Whether `value` is among those that may stand beside `other`. The place in that list goes on to
/// the first that isn't below `value`: values come in rising order, so no place has to go back.
fn supports_back(parts: &Parts, other: u16, dir: u8, value: u16, places: &mut [u16]) -> bool
    requires sized { HasTables parts.now }
    requires indexed { IsIndexed parts.now }
    requires other_in { other < values parts.now }
    requires dir_in { dir < parts.now.dirs }
    requires before { AreBefore parts.now dir value places.old }
    ensures value { result ≡ ok parts.now dir other value }
    ensures before { AreBefore parts.now dir value places.new }
{
    let list = parts.supports(other, dir);
    let at = first_from(list, places[other as usize], value);
    places[other as usize] = at;
    is_at(list, at, value)
}

/// The first place at or behind `at` of which the number isn't below `value`, or the list's end.
#[inline]
fn first_from(list: &[u16], mut at: u16, value: u16) -> u16
    requires few { length list.now ≤ MAX_VALUES }
    ensures below { (k : ℕ) → at ≤ k → k < result → slice_index list.now k < value }
    ensures least { result < length list.now → value ≤ slice_index list.now result }
{
    while (at as usize) < list.len() && list[at as usize] < value {
        at += 1;
    }
    at
}

/// Whether `value` stands at this place.
#[inline]
fn is_at(list: &[u16], at: u16, value: u16) -> bool
    ensures value { IsTrue result ↔ ((at < length list.now) × (slice_index list.now at ≡ value)) }
{
    (at as usize) < list.len() && list[at as usize] == value
}
