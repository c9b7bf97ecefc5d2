//! Bytes that are gathered until there are enough of them for a sink.

ghost use Rattle.std.specs.Prelude.{◌≡◌, ◌≤◌, ◌+◌, ◌++◌, [], length, decimal, OnOk};
ghost use Rattle.wfc_outside.specs.Sink.{Puts};
ghost use Rattle.wfc_render.specs.Gathering.{Gathers};

use itoa::Buffer;
use std::marker::Model;
use wfc_outside::{Sink, SinkFault, write_all};

/// How many bytes are gathered.
pub(crate) const PIECE: usize = 16384;

/// The bytes that a sink has not got yet. They take no memory of the heap.
#[derive(Drop)]
pub(crate) struct Piece {
    bytes: [u8; PIECE],
    filled: usize,
}

impl Model for Piece {
    ghost use Rattle.std.specs.Prelude.{List, ℕ, ◌≤◌, take};
    ghost use Rattle.wfc_render.specs.declared.gathering.TheConstants.{PIECE};

    ghost Value = { List ℕ };

    ghost view = { λ p. take p.filled p.bytes };

    ghost invariant = { λ p. p.filled ≤ PIECE };
}

impl Piece {
    /// No bytes.
    pub(crate) fn new() -> Piece
        ensures none { result ≡ [] }
    {
        Piece {
            bytes: [0; PIECE],
            filled: 0,
        }
    }

    /// How many bytes more there is room for.
    fn room(&self) -> usize
        ensures sum { result + length self.now ≡ PIECE }
    {
        PIECE - self.filled
    }

    fn as_slice(&self) -> &[u8]
        ensures bytes { result.now ≡ self.now }
    {
        &self.bytes[..self.filled]
    }

    fn push(&mut self, bytes: &[u8])
        requires room { length self.old + length bytes.now ≤ PIECE }
        ensures pushed { self.new ≡ self.old ++ bytes.now }
    {
        let end = self.filled + bytes.len();
        self.bytes[self.filled..end].copy_from_slice(bytes);
        self.filled = end;
    }

    fn clear(&mut self)
        ensures none { self.new ≡ [] }
    {
        self.filled = 0;
    }
}

/// Puts what is held into the sink. After `Failed` the sink has taken a front of it.
pub(crate) fn flush<S: Sink>(sink: &mut S, piece: &mut Piece) -> Result<(), SinkFault>
    ensures put { Puts (S.seen sink.old) (S.seen sink.new) piece.old result }
    ensures none { OnOk result (piece.new ≡ []) }
{
    write_all(sink, piece.as_slice())?;
    piece.clear();
    Ok(())
}

/// Gathers some bytes. What is held goes to the sink where there is no room for them.
#[inline]
pub(crate) fn put<S: Sink>(sink: &mut S, piece: &mut Piece, bytes: &[u8]) -> Result<(), SinkFault>
    requires short { length bytes.now ≤ PIECE }
    ensures gathered { Gathers (S.seen sink.old) (S.seen sink.new)
        piece.old bytes.now piece.new result }
{
    if piece.room() < bytes.len() {
        flush(sink, piece)?;
    }
    piece.push(bytes);
    Ok(())
}

/// Gathers the digits of a number.
#[inline]
pub(crate) fn put_number<S: Sink>(sink: &mut S, piece: &mut Piece, n: u32) -> Result<(), SinkFault>
    ensures gathered { Gathers (S.seen sink.old) (S.seen sink.new)
        piece.old (decimal n) piece.new result }
{
    let mut buffer = Buffer::new();
    put(sink, piece, buffer.format(n).as_bytes())
}
