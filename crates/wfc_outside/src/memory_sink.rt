//! A sink in memory, which shows the bytes that it took.

ghost use Rattle.std.specs.Prelude.{◌≡◌, ◌↔◌, ◌<◌, ◌≤◌, true, length, take, IfOk, IsErr, OnOk, OnErr};
ghost use Rattle.wfc_outside.specs.Count.{HasRisen, next_count};
ghost use Rattle.wfc_outside.specs.MemorySink.{IsToFail, after_failing, after_finishing, after_taking, fresh_sink};
ghost use Rattle.wfc_outside.specs.MemorySink.{seen_sink, sink_failing_finish, sink_listing, taken_count};

use crate::count::one_more;
use crate::{NoMemory, Sink, SinkFault};
use std::alloc::Global;
use std::marker::Model;

/// A sink that keeps its bytes in memory, takes at most a piece of some bytes at a time, has room for so many bytes
/// and fails at the calls that were listed, and at each finishing where that was asked for.
#[derive(Drop)]
pub struct MemorySink {
    bytes: Vec<u8>,
    finished: bool,
    piece: usize,
    room: usize,
    calls: u64,
    failing: Vec<u64>,
    finish_fails: bool,
    faults: u64,
}

impl Model for MemorySink {
    ghost use Rattle.std.specs.Prelude.{◌<◌, ◌≤◌, vec_len, vec_capacity};
    ghost use Rattle.wfc_outside.specs.MemorySink.{MemorySinkView};

    ghost Value = { MemorySinkView };

    ghost view = { λ s. record {
      bytes = s.bytes.items;
      finished = s.finished;
      piece = s.piece;
      room = s.room;
      calls = s.calls;
      failing = s.failing.items;
      finish_fails = s.finish_fails;
      faults = s.faults;
    } };

    ghost invariant = { λ s. (0 < s.piece) × (vec_len s.bytes ≤ s.room) × (s.room ≤ vec_capacity s.bytes) };
}

impl MemorySink {
    /// A sink that takes at most `piece` bytes at a time, and `room` bytes in all, for which it takes the memory now.
    pub fn new(alloc: Global, piece: usize, room: usize) -> Result<MemorySink, NoMemory>
        requires some { 1 ≤ piece }
        ensures fresh { IfOk result (λ sink. sink ≡ fresh_sink piece room) }
    {
        Ok(MemorySink {
            bytes: Vec::with_capacity(alloc, room)?,
            finished: false,
            piece,
            room,
            calls: 0,
            failing: Vec::new(alloc),
            finish_fails: false,
            faults: 0,
        })
    }

    /// Makes the call of `write` of this number fail. Calls are counted from 1, and no further than 2^64 - 1.
    pub fn fail_at(&mut self, call: u64) -> Result<(), NoMemory>
        ensures ok { OnOk result (self.new ≡ sink_listing self.old call) }
        ensures no_memory { OnErr result (self.new ≡ self.old) }
    {
        self.failing.push(call)?;
        Ok(())
    }

    /// Makes each later call of `finish` fail. It takes no memory.
    pub fn fail_finish(&mut self)
        ensures asked { self.new ≡ sink_failing_finish self.old }
    {
        self.finish_fails = true;
    }

    fn fault(&mut self) -> SinkFault
        ensures one_more { self.new ≡ record self.old { faults = next_count self.old.faults } }
        ensures counted { HasRisen self.old.faults self.new.faults }
    {
        self.faults = one_more(self.faults);
        SinkFault::Failed
    }

    /// The bytes that the sink took.
    pub fn bytes(&self) -> &[u8]
        ensures taken { result.now ≡ self.now.bytes }
        ensures within { length self.now.bytes ≤ self.now.room }
    {
        self.bytes.as_slice()
    }

    /// As `Sink` has it. It fails exactly at a listed call, or where the piece isn't empty and the room is used up, and
    /// takes no memory.
    pub fn write(&mut self, bytes: &[u8]) -> Result<usize, SinkFault>
        ensures fails { IsErr result ↔ IsToFail self.old bytes.now }
        ensures count { IfOk result (λ n. n ≡ taken_count self.old bytes.now) }
        ensures taken { IfOk result (λ n. self.new ≡ after_taking self.old (take n bytes.now)) }
        ensures failed { OnErr result (self.new ≡ after_failing self.old) }
        ensures some { IfOk result (λ n. 0 < length bytes.now → 0 < n) }
        ensures counted { OnErr result (HasRisen self.old.faults self.new.faults) }
    {
        self.calls = one_more(self.calls);
        let left = self.room - self.bytes.len();
        if self.failing.contains(&self.calls) || (left == 0 && !bytes.is_empty()) {
            return Err(self.fault());
        }
        let count = bytes.len().min(self.piece).min(left);
        if count > 0 {
            self.finished = false;
        }
        self.bytes.extend_from_slice(&bytes[..count]).unwrap();
        Ok(count)
    }

    /// As `Sink` has it. It fails exactly after `fail_finish`.
    pub fn finish(&mut self) -> Result<(), SinkFault>
        ensures fails { IsErr result ↔ (self.old.finish_fails ≡ true) }
        ensures finished { self.new ≡ after_finishing self.old }
        ensures counted { OnErr result (HasRisen self.old.faults self.new.faults) }
    {
        if self.finish_fails {
            return Err(self.fault());
        }
        self.finished = true;
        Ok(())
    }
}

impl Sink for MemorySink {
    ghost seen = { seen_sink };

    fn write(&mut self, bytes: &[u8]) -> Result<usize, SinkFault> {
        MemorySink::write(self, bytes)
    }

    fn finish(&mut self) -> Result<(), SinkFault> {
        MemorySink::finish(self)
    }
}
