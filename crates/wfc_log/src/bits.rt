//! Flags in one bit each.

ghost use Rattle.std.specs.Prelude.{◌≡◌, ◌≢◌, ℕ, ◌<◌, ◌≤◌, ◌^◌, true, false, IfOk, length, slice_index_or, slice_set};
ghost use Rattle.std.specs.Int.{bit_at};

use std::alloc::{AllocError, Global};
use std::marker::Model;

/// A list of flags, eight of them in a byte.
#[derive(Drop)]
pub struct Bits {
    len: usize,
    bytes: Vec<u8>,
}

impl Model for Bits {
    ghost use Rattle.std.specs.Prelude.{Bool, List};
    ghost use Rattle.wfc_log.specs.Bits.{flags_of_bits, HasBits};

    ghost Value = { List Bool };

    ghost view = { flags_of_bits };

    ghost invariant = { HasBits };
}

/// The byte with a bit set.
#[inline]
fn with_bit(byte: u8, bit: usize) -> u8
    requires bit_in { bit < 8 }
    ensures set { bit_at result bit ≡ 1 }
    ensures others { (k : ℕ) → k ≢ bit → bit_at result k ≡ bit_at byte k }
{
    byte | 1 << bit
}

/// The byte with a bit cleared.
#[inline]
fn without_bit(byte: u8, bit: usize) -> u8
    requires bit_in { bit < 8 }
    ensures clear { bit_at result bit ≡ 0 }
    ensures others { (k : ℕ) → k < 8 → k ≢ bit → bit_at result k ≡ bit_at byte k }
{
    byte & !(1 << bit)
}

/// The first bit of a byte from `from` on that is set, or 8 where none is.
#[inline]
fn next_bit(byte: u8, from: usize) -> usize
    requires from_in { from < 8 }
    ensures from { from ≤ result }
    ensures within { result ≤ 8 }
    ensures clear { (k : ℕ) → from ≤ k → k < result → bit_at byte k ≡ 0 }
    ensures set { result < 8 → bit_at byte result ≡ 1 }
{
    let rest = byte >> from;
    if rest == 0 {
        8
    } else {
        from + rest.trailing_zeros() as usize
    }
}

impl Bits {
    /// So many flags, all of them set.
    pub fn all(alloc: Global, len: usize) -> Result<Bits, AllocError>
        ensures len { IfOk result (λ bits. length bits ≡ len) }
        ensures set { IfOk result (λ bits. (k : ℕ) → k < len → slice_index_or bits k false ≡ true) }
    {
        Ok(Bits {
            len,
            bytes: vec![in alloc; 255; len / 8 + 1]?,
        })
    }

    /// The flag at an index.
    #[inline]
    pub fn get(&self, index: usize) -> bool
        requires index_in { index < length self.now }
        ensures value { result ≡ slice_index_or self.now index false }
    {
        (self.bytes[index / 8] >> (index % 8)) & 1 == 1
    }

    /// The first index from `from` on whose flag is set, or `end` where none below it is. What a byte lacks is passed over
    /// at once.
    #[inline]
    pub fn next(&self, from: usize, end: usize) -> usize
        requires from_in { from ≤ end }
        requires end_in { end ≤ length self.now }
        requires small { end ≤ 2 ^ 63 }
        ensures from { from ≤ result }
        ensures within { result ≤ end }
        ensures clear { (k : ℕ) → from ≤ k → k < result → slice_index_or self.now k false ≡ false }
        ensures set { result < end → slice_index_or self.now result false ≡ true }
    {
        let mut at = from;
        while at < end {
            let first = at % 8;
            let bit = next_bit(self.bytes[at / 8], first);
            if bit < 8 {
                return (at - first + bit).min(end);
            }
            at += 8 - first;
        }
        end
    }

    /// Sets the flag at an index.
    #[inline]
    pub fn set(&mut self, index: usize)
        requires index_in { index < length self.old }
        ensures set { self.new ≡ slice_set self.old index true }
    {
        let place = index / 8;
        self.bytes[place] = with_bit(self.bytes[place], index % 8);
    }

    /// Clears the flag at an index.
    #[inline]
    pub fn clear(&mut self, index: usize)
        requires index_in { index < length self.old }
        ensures clear { self.new ≡ slice_set self.old index false }
    {
        let place = index / 8;
        self.bytes[place] = without_bit(self.bytes[place], index % 8);
    }
}
