//! Numbers of two bits, four in a byte.

ghost use Rattle.std.specs.Prelude.{◌≡◌, ℕ, ◌<◌, ◌++◌, ◌∷◌, [], length, take, slice_get, Some, IfOk};
ghost use Rattle.wfc_log.specs.Tops.{top_at};

use std::alloc::{AllocError, Global};
use std::marker::Model;

/// A list of numbers below 4. What is behind the last of them in its byte says nothing.
#[derive(Drop)]
pub struct Tops {
    room: usize,
    len: usize,
    bytes: Vec<u8>,
}

impl Model for Tops {
    ghost use Rattle.wfc_log.specs.Numbered.{Packed};
    ghost use Rattle.wfc_log.specs.Tops.{tops_view, AreTops};

    ghost Value = { Packed };

    ghost view = { tops_view };

    ghost invariant = { AreTops };
}

/// The byte with a number at a place, and what was there at the places before.
#[inline]
fn with_top(byte: u8, place: usize, top: u8) -> u8
    requires place_in { place < 4 }
    requires few { top < 4 }
    ensures here { top_at result place ≡ top }
    ensures before { (k : ℕ) → k < place → top_at result k ≡ top_at byte k }
{
    byte % (1 << (2 * place)) + (top << (2 * place))
}

impl Tops {
    /// No numbers, and room for so many.
    pub fn new(alloc: Global, room: usize) -> Result<Tops, AllocError>
        ensures ok { IfOk result (λ tops. tops ≡ record { room = room; limit = 4; numbers = [] }) }
    {
        Ok(Tops {
            room,
            len: 0,
            bytes: Vec::with_capacity(alloc, room.div_ceil(4))?,
        })
    }

    /// The number at an index.
    #[inline]
    pub fn at(&self, index: usize) -> u8
        requires index_in { index < length self.now.numbers }
        ensures value { slice_get self.now.numbers index ≡ Some result }
    {
        (self.bytes[index / 4] >> (2 * (index % 4))) % 4
    }

    /// One more.
    #[inline]
    pub fn push(&mut self, top: u8)
        requires room { length self.old.numbers < self.old.room }
        requires few { top < 4 }
        ensures more { self.new ≡ record self.old { numbers = self.old.numbers ++ top ∷ [] } }
    {
        let (at, place) = (self.len / 4, self.len % 4);
        self.len += 1;
        if at < self.bytes.len() {
            self.bytes[at] = with_top(self.bytes[at], place, top);
        } else {
            self.bytes.push_reserved(top);
        }
    }

    /// Keeps so many.
    #[inline]
    pub fn truncate(&mut self, keep: usize)
        ensures front { self.new ≡ record self.old { numbers = take keep self.old.numbers } }
    {
        self.len = self.len.min(keep);
    }
}
