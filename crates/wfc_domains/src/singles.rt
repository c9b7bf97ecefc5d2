//! Counts that have bytes of their own.

ghost use Rattle.std.specs.Prelude.{◌≡◌, ℕ, ◌+◌, ◌-◌, ◌*◌, ◌%◌, ◌<◌, ◌≤◌, ◌⊎◌, ◌↔◌, IfOk, IsFalse, IsTrue};
ghost use Rattle.std.specs.Prelude.{length, map, replicate, slice_index, slice_set, vec_len};
ghost use Rattle.wfc_domains.specs.Changes.{marked_entry, plain_entry, AreChanged};
ghost use Rattle.wfc_domains.specs.Loaded.{IsRowCopied};

use crate::copies::copy_row;
use std::alloc::{AllocError, Global};
use std::marker::Model;

/// How much the part of a marked count is above that of the count alone.
const MARK: u8 = 128;

/// How much one more in a large part is worth.
const WHOLE: u8 = 255;

/// A list of counts. Each can be marked beside, where none can be above 127: a count and its mark take one byte then,
/// and else a count takes two. A mark leaves the count as it is.
#[derive(Drop)]
pub struct Singles {
    small: Vec<u8>,
    large: Vec<u8>,
}

impl Model for Singles {
    ghost use Rattle.wfc_domains.specs.Singles.{LimitedEntries, singles_view, AreSingles};

    ghost Value = { LimitedEntries };

    ghost view = { singles_view };

    ghost invariant = { AreSingles };
}

impl Singles {
    /// So many counts of which each is 0, each with a large part or none.
    pub fn zeros(alloc: Global, small: usize, large: usize) -> Result<Singles, AllocError>
        requires both { (large ≡ 0) ⊎ (large ≡ small) }
        ensures zeros { IfOk result (λ singles. singles.entries ≡ replicate small 0) }
        ensures narrow { IfOk result (λ singles. 127 ≤ singles.limit) }
        ensures wide { IfOk result (λ singles. 0 < large → singles.limit ≡ 32640) }
    {
        Ok(Singles {
            small: vec![in alloc; 0; small]?,
            large: vec![in alloc; 0; large]?,
        })
    }

    /// No counts. It takes no memory.
    #[inline]
    pub fn none(alloc: Global) -> Singles
        ensures none { length result.entries ≡ 0 }
        ensures narrow { 127 ≤ result.limit }
    {
        Singles {
            small: Vec::new(alloc),
            large: Vec::new(alloc),
        }
    }

    /// Where they take memory from.
    #[inline]
    pub fn allocator(&self) -> Global {
        *self.small.allocator()
    }

    /// Whether counts can be marked; else none is.
    #[inline]
    pub fn is_narrow(&self) -> bool
        ensures narrow { IsTrue result → self.now.limit ≡ 127 }
        ensures wide { IsFalse result → (i : ℕ) → slice_index self.now.entries i < 32768 }
    {
        self.large.len() == 0
    }

    /// The count at a place.
    #[inline]
    pub fn count(&self, place: usize) -> u32
        requires place_in { place < length self.now.entries }
        ensures value { result ≡ slice_index self.now.entries place % 32768 }
    {
        let small = u32::from(self.small[place]);
        if place < self.large.len() {
            small + 255 * u32::from(self.large[place])
        } else {
            small % 128
        }
    }

    /// One less at a place, and whether none is left there and it isn't marked.
    #[inline(always)]
    pub fn down(&mut self, place: usize) -> bool
        requires place_in { place < length self.old.entries }
        requires some { 0 < slice_index self.old.entries place % 32768 }
        ensures bare { IsTrue result ↔ (slice_index self.old.entries place ≡ 1) }
        ensures changed { self.new ≡ record self.old {
          entries = slice_set self.old.entries place (slice_index self.old.entries place - 1);
        } }
    {
        let left = self.small[place] - 1;
        self.small[place] = left;
        if left != 0 {
            return false;
        }
        refill(&mut self.small, &mut self.large, place)
    }

    /// One more at a place.
    #[inline]
    pub fn up(&mut self, place: usize)
        requires place_in { place < length self.old.entries }
        requires limit { slice_index self.old.entries place % 32768 < self.old.limit }
        ensures changed { self.new ≡ record self.old {
          entries = slice_set self.old.entries place (slice_index self.old.entries place + 1);
        } }
    {
        let small = self.small[place];
        if small == WHOLE {
            carry(&mut self.small, &mut self.large, place);
        } else {
            self.small[place] = small + 1;
        }
    }

    /// Sets the count at a place, without a mark.
    #[inline]
    pub fn set(&mut self, place: usize, count: u16)
        requires place_in { place < length self.old.entries }
        requires limit { count ≤ self.old.limit }
        ensures changed { self.new
            ≡ record self.old { entries = slice_set self.old.entries place count } }
    {
        if place < self.large.len() {
            let large = large_part(count);
            self.small[place] = (count - 255 * large) as u8;
            self.large[place] = large as u8;
        } else {
            self.small[place] = count as u8;
        }
    }

    /// Marks four counts from a place on. Without a loop it is one change of four bytes.
    #[inline]
    pub fn mark_four(&mut self, start: usize)
        requires narrow { self.old.limit ≡ 127 }
        requires start_in { start + 4 ≤ length self.old.entries }
        ensures limit { self.new.limit ≡ self.old.limit }
        ensures marked { AreChanged marked_entry self.old.entries self.new.entries start 4 }
    {
        mark_all(&mut self.small[start..start + 4]);
    }

    /// Marks so many counts from a place on.
    #[inline]
    pub fn mark(&mut self, start: usize, count: usize)
        requires narrow { self.old.limit ≡ 127 }
        requires start_in { start + count ≤ length self.old.entries }
        ensures limit { self.new.limit ≡ self.old.limit }
        ensures marked { AreChanged marked_entry self.old.entries self.new.entries start count }
    {
        mark_parts(&mut self.small[start..start + count]);
    }

    /// Takes the marks from so many counts from a place on.
    #[inline]
    pub fn unmark(&mut self, start: usize, count: usize)
        requires narrow { self.old.limit ≡ 127 }
        requires start_in { start + count ≤ length self.old.entries }
        ensures limit { self.new.limit ≡ self.old.limit }
        ensures unmarked { AreChanged plain_entry self.old.entries self.new.entries start count }
    {
        unmark_parts(&mut self.small[start..start + count]);
    }

    /// Copies a row of entries to a place behind it.
    pub fn copy(&mut self, start: usize, row: usize, dest: usize)
        requires before { start + row ≤ dest }
        requires dest_in { dest + row ≤ length self.old.entries }
        ensures limit { self.new.limit ≡ self.old.limit }
        ensures copied { IsRowCopied self.old.entries self.new.entries start row dest }
    {
        copy_row(&mut self.small, start, row, dest);
        if self.large.len() > 0 {
            copy_row(&mut self.large, start, row, dest);
        }
    }

    /// Whether a count may be 0 among so many of them from a place on: none is where this answers no.
    #[inline]
    pub fn has_none(&self, start: usize, row: usize) -> bool
        requires start_in { start + row ≤ length self.now.entries }
        ensures some { IsFalse result → (i : ℕ) → i < row
            → 0 < slice_index self.now.entries (start + i) % 32768 }
    {
        has_zero(&self.small[start..start + row])
    }
}

/// The large part of a count. What it leaves for the small one is 0 only where the count is.
fn large_part(count: u16) -> u16
    requires limit { count ≤ 32640 }
    ensures room { 255 * result ≤ count }
    ensures rest { count ≤ 255 * result + 255 }
    ensures few { result ≤ 127 }
    ensures some { 0 < result → 255 * result < count }
{
    if count == 0 { 0 } else { (count - 1) / 255 }
}

/// Fills the small part of a count, which came to 0, from the large one. Whether there is nothing to fill it from.
#[inline(always)]
fn refill(small: &mut Vec<u8>, large: &mut Vec<u8>, place: usize) -> bool
    requires place_in { place < vec_len small.old }
    ensures none { IsTrue result → (slice_index large.old.items place ≡ 0)
        × (small.new.items ≡ small.old.items) × (large.new.items ≡ large.old.items) }
    ensures some { IsFalse result → 0 < slice_index large.old.items place }
    ensures small { IsFalse result → small.new.items ≡ slice_set small.old.items place 255 }
    ensures large { IsFalse result → large.new.items
        ≡ slice_set large.old.items place (slice_index large.old.items place - 1) }
{
    if large.len() == 0 {
        return true;
    }
    refill_wide(small, large, place)
}

/// The same where there are large parts.
#[inline(never)]
fn refill_wide(small: &mut [u8], large: &mut [u8], place: usize) -> bool
    requires place_in { place < length small.old }
    ensures none { IsTrue result → (slice_index large.old place ≡ 0) × (small.new ≡ small.old)
        × (large.new ≡ large.old) }
    ensures some { IsFalse result → 0 < slice_index large.old place }
    ensures small { IsFalse result → small.new ≡ slice_set small.old place 255 }
    ensures large { IsFalse result → large.new
        ≡ slice_set large.old place (slice_index large.old place - 1) }
{
    let part = part_at(large, place);
    if part == 0 {
        return true;
    }
    small[place] = WHOLE;
    large[place] = part - 1;
    false
}

/// One more at a place whose small part is full.
#[inline]
fn carry(small: &mut Vec<u8>, large: &mut Vec<u8>, place: usize)
    requires place_in { place < vec_len small.old }
    requires large_in { place < vec_len large.old }
    requires room { slice_index large.old.items place < 255 }
    ensures small { small.new.items ≡ slice_set small.old.items place 1 }
    ensures large { large.new.items
        ≡ slice_set large.old.items place (slice_index large.old.items place + 1) }
{
    let part = large[place];
    small[place] = 1;
    large[place] = part + 1;
}

/// The part at a place, 0 where there is none.
#[inline]
fn part_at(parts: &[u8], place: usize) -> u8
    ensures value { result ≡ slice_index parts.now place }
{
    match parts.get(place) {
        Some(part) => *part,
        None => 0,
    }
}

/// Marks four counts.
#[inline]
fn mark_all(four: &mut [u8])
    requires four { length four.old ≡ 4 }
    ensures marked { four.new ≡ map (λ small. small % 128 + 128) four.old }
{
    four[0] = four[0] % MARK + MARK;
    four[1] = four[1] % MARK + MARK;
    four[2] = four[2] % MARK + MARK;
    four[3] = four[3] % MARK + MARK;
}

/// Marks counts.
#[inline(never)]
fn mark_parts(parts: &mut [u8])
    ensures marked { parts.new ≡ map (λ small. small % 128 + 128) parts.old }
{
    for part in parts.iter_mut() {
        *part = *part % MARK + MARK;
    }
}

/// Takes the marks from counts.
#[inline]
fn unmark_parts(parts: &mut [u8])
    ensures unmarked { parts.new ≡ map (λ small. small % 128) parts.old }
{
    for part in parts.iter_mut() {
        *part %= MARK;
    }
}

/// Whether a small part is 0 or 128: no count is 0 where none is.
fn has_zero(entries: &[u8]) -> bool
    ensures none { IsFalse result → (k : ℕ) → k < length entries.now
        → 0 < slice_index entries.now k % 128 }
{
    let mut found = false;
    for entry in entries {
        if *entry % MARK == 0 {
            found = true;
        }
    }
    found
}
