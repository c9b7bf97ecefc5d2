//! Numbers of three bytes, or of three bytes and two bits.

ghost use Rattle.std.specs.Prelude.{◌≡◌, ◌<◌, ◌++◌, ◌∷◌, [], length, take, slice_get, Some, IfOk};
ghost use Rattle.wfc_log.specs.Numbered.{empty_numbers};

use crate::tops::Tops;
use std::alloc::{AllocError, Global};
use std::marker::Model;

/// How many numbers two bytes tell apart.
const LOWS: u32 = 65_536;

/// And three bytes.
pub const SHORT: u32 = 16_777_216;

/// Numbers in parts: a low one of two bytes, one of a byte, and, where the numbers that there can be are too many for
/// three bytes, a top one of two bits.
#[derive(Drop)]
pub struct Numbers {
    room: usize,
    wide: bool,
    lows: Vec<u16>,
    bytes: Vec<u8>,
    tops: Tops,
}

impl Model for Numbers {
    ghost use Rattle.wfc_log.specs.Numbered.{Packed};
    ghost use Rattle.wfc_log.specs.Packed.{packed_view, ArePacked};

    ghost Value = { Packed };

    ghost view = { packed_view };

    ghost invariant = { ArePacked };
}

impl Numbers {
    /// No numbers, and room for so many: below 2 ^ 26 where they are wide, else below 2 ^ 24.
    pub fn new(alloc: Global, room: usize, wide: bool) -> Result<Numbers, AllocError>
        ensures ok { IfOk result (λ numbers. numbers ≡ empty_numbers room wide) }
    {
        Ok(Numbers {
            room,
            wide,
            lows: Vec::with_capacity(alloc, room)?,
            bytes: Vec::with_capacity(alloc, room)?,
            tops: Tops::new(alloc, if wide { room } else { 0 })?,
        })
    }

    /// How many there are.
    #[inline]
    pub fn len(&self) -> usize
        ensures value { result ≡ length self.now.numbers }
    {
        self.lows.len()
    }

    /// The number at an index.
    #[inline]
    pub fn at(&self, index: usize) -> u32
        requires index_in { index < length self.now.numbers }
        ensures value { slice_get self.now.numbers index ≡ Some result }
    {
        let short = LOWS * u32::from(self.bytes[index]) + u32::from(self.lows[index]);
        if self.wide {
            SHORT * u32::from(self.tops.at(index)) + short
        } else {
            short
        }
    }

    /// One more.
    #[inline]
    pub fn push(&mut self, number: u32)
        requires room { length self.old.numbers < self.old.room }
        requires few { number < self.old.limit }
        ensures more { self.new ≡ record self.old { numbers = self.old.numbers ++ number ∷ [] } }
    {
        self.lows.push_reserved((number % LOWS) as u16);
        self.bytes.push_reserved((number / LOWS % 256) as u8);
        if self.wide {
            self.tops.push((number / SHORT) as u8);
        }
    }

    /// Keeps so many.
    #[inline]
    pub fn truncate(&mut self, keep: usize)
        ensures front { self.new ≡ record self.old { numbers = take keep self.old.numbers } }
    {
        self.lows.truncate(keep);
        self.bytes.truncate(keep);
        self.tops.truncate(keep);
    }
}
