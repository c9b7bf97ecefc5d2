//! A file that is read in pieces, of which one is kept, and its lines.

ghost use Rattle.std.specs.Prelude.{◌≡◌, ℕ, ◌+◌, ◌-◌, ◌<◌, ◌≤◌, length};

use memchr::memchr;
use std::alloc::{AllocError, Global};
use wfc_outside::{Folder, ReadFault};

/// How many bytes are read at a time.
const PIECE: usize = 4096;

/// How many bytes of a line are kept at most, without its end.
const LINE: usize = 64;

/// A file that is read in pieces, from its start on.
#[derive(Drop)]
pub(crate) struct Stream<'n> {
    name: &'n str,
    /// The last piece. Its bytes from `from` to `to` aren't given yet.
    piece: Vec<u8>,
    from: usize,
    to: usize,
    /// How many bytes of the file were read.
    at: u64,
    /// How many bytes may be given in all.
    most: u64,
    /// How many bytes may still be given.
    room: u64,
    ghost some: { 0 < length piece.items },
    ghost short: { length piece.items ≤ 4096 },
    ghost ordered: { from ≤ to },
    ghost inside: { to ≤ length piece.items },
    ghost balanced: { at + room ≡ most + (to - from) },
    ghost small: { most ≤ 1099511627776 },
}

/// What stands behind the bytes of a line: its line feed, a byte too many, the end of the file, or bytes that may not be given.
#[derive(Clone, Copy, Debug, PartialEq, Eq)]
pub(crate) enum LineEnd {
    Feed,
    Long,
    End,
    Over,
}

impl<'n> Stream<'n> {
    ghost use Rattle.std.specs.Prelude.{◌≡◌, ◌≤◌, ◌^◌, List, [], length, true, false, take, Ok, IfOk, MatchResult};
    ghost use Rattle.wfc_check.specs.Stream.{CausesStop, EndsLine, GathersLine, HasGiven, HasGivenKept, HasLeft};
    ghost use Rattle.wfc_check.specs.Stream.{HasReadFile, IsLeft, fresh_view, stream_view};

    /// The start of a file, of which at most `room` bytes may be given.
    pub(crate) fn new(alloc: Global, name: &'n str, room: u64) -> Result<Stream<'n>, AllocError>
        requires small { room ≤ 1099511627776 }
        ensures fresh { IfOk result (λ stream. stream_view stream ≡ fresh_view name.now room) }
        ensures most { IfOk result (λ stream. stream.most ≡ room) }
    {
        Ok(Stream {
            name,
            piece: vec![in alloc; 0; PIECE]?,
            from: 0,
            to: 0,
            at: 0,
            most: room,
            room,
        })
    }

    /// Reads a piece if none is kept, and says whether there is a byte.
    fn refill<F: Folder>(&mut self, folder: &mut F) -> Result<bool, ReadFault>
        ensures unread { MatchResult result (λ _. F.seen folder.new ≡ F.seen folder.old)
            (λ fault. CausesStop self.old.name.now (F.seen folder.old) (F.seen folder.new) fault) }
        ensures name { self.new.name ≡ self.old.name }
        ensures most { self.new.most ≡ self.old.most }
        ensures given { F.bytes_given folder.new + self.old.at
            ≤ F.bytes_given folder.old + self.new.at }
        ensures some { result ≡ Ok true → self.new.from < self.new.to }
        ensures steps { result ≡ Ok true → HasGiven (F.seen folder.old).contents (stream_view
            self.old) (stream_view self.new) [] }
        ensures left { result ≡ Ok true → HasReadFile (F.seen folder.old).contents (stream_view
            self.old) → HasLeft (F.seen folder.old).contents (stream_view self.new) }
        ensures end { result ≡ Ok false
            → IsLeft (F.seen folder.old).contents (stream_view self.old) [] }
    {
        if self.from < self.to {
            return Ok(true);
        }
        let given = folder.read_at(self.name, self.at, self.piece.as_mut_slice())?;
        self.from = 0;
        self.to = given;
        self.at += given as u64;
        Ok(given > 0)
    }

    /// Goes past bytes that are kept.
    #[inline]
    fn pass(&mut self, count: usize)
        requires kept { self.old.from + count ≤ self.old.to }
        requires room { count ≤ self.old.room }
        ensures passed { HasGivenKept (stream_view self.old) (stream_view self.new)
            (take count (stream_view self.old).kept) }
        ensures name { self.new.name ≡ self.old.name }
        ensures most { self.new.most ≡ self.old.most }
    {
        self.from += count;
        self.room -= count as u64;
    }

    /// Adds bytes that are kept to a line, up to its end, and says whether it came.
    fn gather(&mut self, line: &mut Vec<u8>) -> Result<bool, AllocError>
        requires some { self.old.from < self.old.to }
        requires room { 0 < self.old.room }
        requires short { length line.old.items ≤ LINE }
        ensures gathered { IfOk result (GathersLine (stream_view self.old) (stream_view self.new)
            line.old.items line.new.items) }
        ensures name { self.new.name ≡ self.old.name }
        ensures most { self.new.most ≡ self.old.most }
        ensures at { self.new.at ≡ self.old.at }
    {
        let kept = (self.to - self.from).min(LINE + 1 - line.len());
        let most = self.room.min(kept as u64) as usize;
        let bytes = &self.piece[self.from..self.from + most];
        match memchr(b'\n', bytes) {
            Some(end) => {
                line.extend_from_slice(&bytes[..end])?;
                self.pass(end + 1);
                Ok(true)
            }
            None => {
                line.extend_from_slice(bytes)?;
                self.pass(most);
                Ok(false)
            }
        }
    }

    /// The next line, without its end. After 65 bytes of a line it goes no further.
    pub(crate) fn next_line<F: Folder>(
        &mut self,
        folder: &mut F,
        line: &mut Vec<u8>,
    ) -> Result<LineEnd, ReadFault>
        ensures unread { MatchResult result (λ _. F.seen folder.new ≡ F.seen folder.old)
            (λ fault. CausesStop self.old.name.now (F.seen folder.old) (F.seen folder.new) fault) }
        ensures name { self.new.name ≡ self.old.name }
        ensures most { self.new.most ≡ self.old.most }
        ensures given { F.bytes_given folder.new + self.old.at
            ≤ F.bytes_given folder.old + self.new.at }
        ensures line { IfOk result (EndsLine (F.seen folder.old).contents (stream_view self.old)
            (stream_view self.new) line.new.items) }
    {
        line.clear();
        'read: loop {
            if !self.refill(folder)? {
                return Ok(LineEnd::End);
            }
            if self.room == 0 {
                return Ok(LineEnd::Over);
            }
            if self.gather(line)? {
                return Ok(LineEnd::Feed);
            }
            if line.len() > LINE {
                return Ok(LineEnd::Long);
            }
        }
    }
}
