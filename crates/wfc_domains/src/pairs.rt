//! Counts of which two share a byte.

ghost use Rattle.std.specs.Prelude.{◌≡◌, ◌≢◌, ℕ, ◌+◌, ◌-◌, ◌*◌, ◌/◌, ◌%◌, ◌<◌, ◌≤◌, ◌↔◌, IfOk, IsFalse, IsTrue};
ghost use Rattle.std.specs.Prelude.{length, replicate, slice_index, slice_set};
ghost use Rattle.wfc_domains.specs.Changes.{marked_entry, plain_entry, AreChanged};
ghost use Rattle.wfc_domains.specs.Loaded.{IsRowCopied};
ghost use Rattle.wfc_domains.specs.Pairs.{unit_at, mask_at, half_at, paired_entries};

use crate::copies::copy_row;
use crate::counters::lowering::unit_at;
use std::alloc::{AllocError, Global};
use std::marker::Model;

/// How many numbers a half has.
const HALF: u8 = 16;

/// How much the half of a marked count is above that of the count alone.
const MARK: u8 = 8;

/// A list of counts up to 7, each of which can be marked, in the two halves of bytes: a half has the count in three bits
/// and the mark in the fourth.
#[derive(Drop)]
pub struct Pairs {
    bytes: Vec<u8>,
}

impl Model for Pairs {
    ghost use Rattle.std.specs.Prelude.{List, ℕ};
    ghost use Rattle.wfc_domains.specs.Pairs.{pairs_view};

    ghost Value = { List ℕ };

    ghost view = { pairs_view };
}

/// The half of a byte at a place.
#[inline]
fn half_at(byte: u8, place: usize) -> u8
    ensures value { result ≡ half_at byte place }
    ensures few { result < 16 }
{
    if place % 2 == 0 {
        byte % HALF
    } else {
        byte / HALF
    }
}

/// The byte with another half at a place.
#[inline]
fn with_half(byte: u8, place: usize, half: u8) -> u8
    requires few { half < 16 }
    ensures here { half_at result place ≡ half }
    ensures other { (k : ℕ) → k % 2 ≢ place % 2 → half_at result k ≡ half_at byte k }
{
    if place % 2 == 0 {
        byte / HALF * HALF + half
    } else {
        byte % HALF + half * HALF
    }
}

/// The byte with both counts marked.
#[inline]
fn with_marks(byte: u8) -> u8
    ensures marked { (k : ℕ) → half_at result k ≡ half_at byte k % 8 + 8 }
{
    byte % MARK + byte / HALF % MARK * HALF + MARK * (HALF + 1)
}

impl Pairs {
    /// Counts of which each is 0, two in each of so many bytes.
    pub fn zeros(alloc: Global, bytes: usize) -> Result<Pairs, AllocError>
        ensures ok { IfOk result (λ pairs. pairs ≡ replicate (2 * bytes) 0) }
    {
        Ok(Pairs {
            bytes: vec![in alloc; 0; bytes]?,
        })
    }

    /// No counts. It takes no memory.
    #[inline]
    pub fn none(alloc: Global) -> Pairs
        ensures none { length result ≡ 0 }
    {
        Pairs {
            bytes: Vec::new(alloc),
        }
    }

    /// The count at a place.
    #[inline]
    pub fn count(&self, place: usize) -> u8
        requires place_in { place < length self.now }
        ensures value { result ≡ slice_index self.now place % 32768 }
    {
        half_at(self.bytes[place / 2], place) % MARK
    }

    /// One less at a place, and whether none is left there and it isn't marked.
    #[inline(always)]
    pub fn down(&mut self, place: usize, unit: u8, mask: u8) -> bool
        requires unit { unit ≡ unit_at place }
        requires mask { mask ≡ mask_at place }
        requires place_in { place < length self.old }
        requires some { 0 < slice_index self.old place % 32768 }
        ensures bare { IsTrue result ↔ (slice_index self.old place ≡ 1) }
        ensures changed { self.new ≡ slice_set self.old place (slice_index self.old place - 1) }
    {
        let left = self.bytes[place / 2] - unit;
        self.bytes[place / 2] = left;
        left & mask == 0
    }

    /// One more at a place.
    #[inline]
    pub fn up(&mut self, place: usize)
        requires place_in { place < length self.old }
        requires limit { slice_index self.old place % 32768 < 7 }
        ensures changed { self.new ≡ slice_set self.old place (slice_index self.old place + 1) }
    {
        let more = self.bytes[place / 2] + unit_at(place);
        self.bytes[place / 2] = more;
    }

    /// Sets the count at a place, without a mark.
    #[inline]
    pub fn set(&mut self, place: usize, count: u8)
        requires place_in { place < length self.old }
        requires limit { count ≤ 7 }
        ensures changed { self.new ≡ slice_set self.old place count }
    {
        let byte = self.bytes[place / 2];
        self.bytes[place / 2] = with_half(byte, place, count);
    }

    /// Marks four counts from an even place on. It is a change of two bytes.
    #[inline]
    pub fn mark_four(&mut self, start: usize)
        requires even { start % 2 ≡ 0 }
        requires start_in { start + 4 ≤ length self.old }
        ensures marked { AreChanged marked_entry self.old self.new start 4 }
    {
        let at = start / 2;
        let first = with_marks(self.bytes[at]);
        self.bytes[at] = first;
        let second = with_marks(self.bytes[at + 1]);
        self.bytes[at + 1] = second;
    }

    /// Marks so many counts from a place on.
    #[inline]
    pub fn mark(&mut self, start: usize, count: usize)
        requires start_in { start + count ≤ length self.old }
        ensures marked { AreChanged marked_entry self.old self.new start count }
    {
        mark_halves(&mut self.bytes, start, count);
    }

    /// Takes the marks from so many counts from a place on.
    #[inline]
    pub fn unmark(&mut self, start: usize, count: usize)
        requires start_in { start + count ≤ length self.old }
        ensures unmarked { AreChanged plain_entry self.old self.new start count }
    {
        unmark_halves(&mut self.bytes, start, count);
    }

    /// Copies a row of an even number of entries from one even place to another behind it.
    pub fn copy(&mut self, start: usize, row: usize, dest: usize)
        requires even { (start % 2 ≡ 0) × (row % 2 ≡ 0) × (dest % 2 ≡ 0) }
        requires before { start + row ≤ dest }
        requires dest_in { dest + row ≤ length self.old }
        ensures copied { IsRowCopied self.old self.new start row dest }
    {
        copy_row(&mut self.bytes, start / 2, row / 2, dest / 2);
    }

    /// Whether a count may be 0 among an even number of them from an even place on: none is where this answers no.
    #[inline]
    pub fn has_none(&self, start: usize, row: usize) -> bool
        requires even { (start % 2 ≡ 0) × (row % 2 ≡ 0) }
        requires start_in { start + row ≤ length self.now }
        ensures some { IsFalse result → (i : ℕ) → i < row
            → 0 < slice_index self.now (start + i) % 32768 }
    {
        let at = start / 2;
        has_zero_half(&self.bytes[at..at + row / 2])
    }
}

/// Marks so many counts from a place on.
#[inline(never)]
fn mark_halves(bytes: &mut [u8], start: usize, count: usize)
    requires start_in { start + count ≤ 2 * length bytes.old }
    ensures marked { AreChanged marked_entry (paired_entries bytes.old)
        (paired_entries bytes.new) start count }
{
    for place in start..start + count {
        let byte = bytes[place / 2];
        bytes[place / 2] = with_half(byte, place, half_at(byte, place) % MARK + MARK);
    }
}

/// Takes the marks from so many counts from a place on.
#[inline]
fn unmark_halves(bytes: &mut [u8], start: usize, count: usize)
    requires start_in { start + count ≤ 2 * length bytes.old }
    ensures unmarked { AreChanged plain_entry (paired_entries bytes.old)
        (paired_entries bytes.new) start count }
{
    for place in start..start + count {
        let byte = bytes[place / 2];
        bytes[place / 2] = with_half(byte, place, half_at(byte, place) % MARK);
    }
}

/// Whether a half is 0 or 8: no count is 0 where none is.
fn has_zero_half(bytes: &[u8]) -> bool
    ensures none { IsFalse result → (k : ℕ) → k < length bytes.now
        → (0 < slice_index bytes.now k % 8) × (0 < slice_index bytes.now k / 16 % 8) }
{
    let mut least = MARK;
    for byte in bytes {
        least = least.min(*byte % MARK).min(*byte / HALF % MARK);
    }
    least == 0
}
