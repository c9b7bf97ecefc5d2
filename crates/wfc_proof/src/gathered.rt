//! A text that is gathered before it is put, in a buffer of fixed size.

ghost use Rattle.std.specs.Prelude.{◌≡◌, ◌≤◌, ◌+◌, ◌∷◌, ◌++◌, [], length, decimal};

use itoa::Buffer;
use std::marker::Model;

/// How many bytes there is room for: a head's lines, with each number of ten digits.
pub(crate) const ROOM: usize = 256;

/// The bytes of a text. They take no memory of the heap.
#[derive(Drop)]
pub(crate) struct Gathered {
    bytes: [u8; ROOM],
    filled: usize,
}

impl Model for Gathered {
    ghost use Rattle.std.specs.Prelude.{List, ℕ, ◌≤◌, take};
    ghost use Rattle.wfc_proof.specs.declared.gathered.TheConstants.{ROOM};

    ghost Value = { List ℕ };

    ghost view = { λ p. take p.filled p.bytes };

    ghost invariant = { λ p. p.filled ≤ ROOM };
}

impl Gathered {
    /// No bytes.
    pub(crate) fn new() -> Gathered
        ensures none { result ≡ [] }
    {
        Gathered {
            bytes: [0; ROOM],
            filled: 0,
        }
    }

    pub(crate) fn as_slice(&self) -> &[u8]
        ensures bytes { result.now ≡ self.now }
    {
        &self.bytes[..self.filled]
    }

    /// Adds bytes, for which there has to be room.
    pub(crate) fn push(&mut self, bytes: &[u8])
        requires room { length self.old + length bytes.now ≤ ROOM }
        ensures pushed { self.new ≡ self.old ++ bytes.now }
        ensures longer { length self.new ≡ length self.old + length bytes.now }
    {
        let end = self.filled + bytes.len();
        self.bytes[self.filled..end].copy_from_slice(bytes);
        self.filled = end;
    }

    /// Adds a blank and a number in decimal.
    pub(crate) fn push_number(&mut self, n: u32)
        requires room { length self.old + 11 ≤ ROOM }
        ensures pushed { self.new ≡ self.old ++ 32 ∷ decimal n }
        ensures longer { length self.new ≤ length self.old + 11 }
    {
        self.push(b" ");
        let mut buffer = Buffer::new();
        self.push(buffer.format(n).as_bytes());
    }
}
