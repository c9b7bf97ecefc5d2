//! An index of sizes: the functions that make it, mend it, and look the first cell up.
//!
//! It is a tree of least sizes. A block is 32 cells, an area 32 blocks, a region 32 areas, and of each of these the size
//! of the cell that comes first is kept. A region is 32,768 cells, and a problem has at most 8,388,608, so at most 256
//! regions. A new size changes at most one entry of each of the three lists, and looks at 32 entries of a list at most; a
//! pick goes down from the regions to the cell, and looks at 256 regions and 32 entries of each other list at most.

ghost use Rattle.std.specs.Prelude.{◌≡◌, ℕ, ◌+◌, ◌*◌, ◌/◌, ◌<◌, ◌≤◌, ◌^◌, [], length, slice_index, slice_set, IfOk, IfNone, IfSome};
ghost use Rattle.wfc_choose.specs.Index.{time_of, IsFirst, IsIndex, IsLeastIn, IsSummary};
ghost use Rattle.wfc_choose.specs.Pick.{picked_cell};
ghost use Rattle.wfc_choose.specs.declared.RuleKind.TheVariants.{Fewest};
ghost use Rattle.wfc_choose.specs.declared.index.TheConstants.{FAN};
ghost use Rattle.wfc_problem.specs.declared.TheConstants.{MAX_PAIRS};

use std::alloc::{AllocError, Global};

/// How many entries of one list have one entry in the next.
pub const FAN: usize = 32;

/// When a cell of this size comes: 2 first, 0 and 1 last.
#[inline]
pub fn time_of(size: u16) -> u16
    ensures value { result ≡ time_of size }
{
    size.wrapping_sub(2)
}

/// The size that comes at this time.
#[inline]
fn size_at_time(time: u16) -> u16
    ensures value { time_of result ≡ time }
{
    time.wrapping_add(2)
}

/// Where a block ends in a list.
#[inline]
fn block_end(list: &[u16], block: usize) -> usize
    requires block_in { block * FAN < length list.now }
    requires limit { length list.now ≤ MAX_PAIRS }
    ensures some { block * FAN < result }
    ensures within { result ≤ length list.now }
    ensures block { result ≤ block * FAN + FAN }
    ensures whole { (j : ℕ) → j < block * FAN + FAN → j < length list.now → j < result }
{
    (block * FAN + FAN).min(list.len())
}

/// The size of a block that comes first.
#[inline]
fn least_of(list: &[u16], block: usize) -> u16
    requires block_in { block * FAN < length list.now }
    requires limit { length list.now ≤ MAX_PAIRS }
    ensures least { IsLeastIn list.now block result }
{
    let start = block * FAN;
    let mut least = time_of(list[start]);
    for at in start..block_end(list, block) {
        least = least.min(time_of(list[at]));
    }
    size_at_time(least)
}

/// The sizes that come first, one for each block of a list.
pub fn summary_of(alloc: Global, below: &[u16]) -> Result<Vec<u16>, AllocError>
    requires limit { length below.now ≤ MAX_PAIRS }
    ensures summary { IfOk result (λ above. IsSummary below.now above.items) }
{
    let blocks = below.len().div_ceil(FAN);
    let mut above = Vec::with_capacity(alloc, blocks)?;
    for block in 0..blocks {
        above.push(least_of(below, block))?;
    }
    Ok(above)
}

/// Mends the entry above one that was `was` before, and answers what that entry was, if it changes.
#[inline]
fn mend(below: &[u16], above: &mut [u16], at: usize, was: u16) -> Option<u16>
    requires at_in { at < length below.now }
    requires limit { length below.now ≤ MAX_PAIRS }
    requires before { IsSummary (slice_set below.now at was) above.old }
    ensures summary { IsSummary below.now above.new }
    ensures same { IfNone result (above.new ≡ above.old) }
    ensures mended { IfSome result (λ old. slice_set above.new (at / FAN) old ≡ above.old) }
{
    if below[at] == was {
        return None;
    }
    let block = at / FAN;
    let old = above[block];
    if time_of(below[at]) < time_of(old) {
        above[block] = below[at];
        return Some(old);
    }
    if time_of(old) < time_of(was) {
        return None;
    }
    let least = least_of(below, block);
    if least == old {
        return None;
    }
    above[block] = least;
    Some(old)
}

/// Mends the lists above a cell whose size was `was` before.
#[inline(never)]
pub fn mend_above(
    sizes: &[u16],
    blocks: &mut [u16],
    areas: &mut [u16],
    regions: &mut [u16],
    cell: usize,
    was: u16,
)
    requires cell_in { cell < length sizes.now }
    requires before { IsIndex (slice_set sizes.now cell was) blocks.old areas.old regions.old }
    ensures index { IsIndex sizes.now blocks.new areas.new regions.new }
{
    let Some(was) = mend(sizes, blocks, cell, was) else {
        return;
    };
    let Some(was) = mend(blocks, areas, cell / FAN, was) else {
        return;
    };
    mend(areas, regions, cell / FAN / FAN, was);
}

/// The first entry of a list before which none comes.
fn first_of(list: &[u16]) -> usize
    requires some { 0 < length list.now }
    requires limit { length list.now ≤ MAX_PAIRS }
    ensures first { IsFirst list.now result }
{
    let mut first = 0;
    for at in 1..list.len() {
        if time_of(list[at]) < time_of(list[first]) {
            first = at;
        }
    }
    first
}

/// The first entry of a list before which none comes, told from the block that has it.
#[inline]
fn first_below(above: &[u16], below: &[u16], block: usize) -> usize
    requires limit { length below.now ≤ MAX_PAIRS }
    requires summary { IsSummary below.now above.now }
    requires above { IsFirst above.now block }
    ensures first { IsFirst below.now result }
{
    let least = above[block];
    for at in block * FAN..block_end(below, block) {
        if below[at] == least {
            return at;
        }
    }
    unreachable!()
}

/// The first cell of an index, if it is open.
pub fn first_open(sizes: &[u16], blocks: &[u16], areas: &[u16], regions: &[u16]) -> Option<u32>
    requires index { IsIndex sizes.now blocks.now areas.now regions.now }
    ensures exact { result ≡ picked_cell (record { kind = Fewest; ranks = [] }) sizes.now }
{
    if regions.is_empty() {
        return None;
    }
    let region = first_of(regions);
    let area = first_below(regions, areas, region);
    let block = first_below(areas, blocks, area);
    let cell = first_below(blocks, sizes, block);
    if sizes[cell] < 2 {
        return None;
    }
    Some(cell as u32)
}
