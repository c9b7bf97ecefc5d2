//! A folder in memory, whose files are told.

ghost use Rattle.std.specs.Prelude.{◌≡◌, ◌≢◌, ◌↔◌, ℕ, ◌-◌, ◌≤◌, List, Some, None, min, length, take, drop, position};
ghost use Rattle.std.specs.Prelude.{IfOk, IfSome, IsErrOf, IsSome, OnOk, OnErr};
ghost use Rattle.std.specs.Str.{bytes_eq};
ghost use Rattle.std.specs.String.{string_bytes};
ghost use Rattle.wfc_outside.specs.Count.{HasRisen, IsListedNext, next_count};
ghost use Rattle.wfc_outside.specs.Folder.{GivesFrom, IsFaultOf};
ghost use Rattle.wfc_outside.specs.MemoryFolder.{after_adding, after_call, after_failed_call, after_giving, bytes_of};
ghost use Rattle.wfc_outside.specs.MemoryFolder.{folder_listing, fresh_folder, given_count, seen_folder};

use crate::count::one_more;
use crate::{Folder, FolderFault, NoMemory};
use std::alloc::Global;
use std::marker::Model;

#[derive(Drop)]
struct StoredFile {
    name: String,
    bytes: Vec<u8>,
    faults: u64,
}

impl Model for StoredFile {
    ghost use Rattle.std.specs.String.{string_bytes};
    ghost use Rattle.wfc_outside.specs.MemoryFolder.{MemoryFile};

    ghost Value = { MemoryFile };

    ghost view = { λ f. record { name = string_bytes f.name; bytes = f.bytes.items; faults = f.faults } };
}

impl StoredFile {
    fn is_named(&self, name: &str) -> bool
        ensures named { result ≡ bytes_eq self.now.name name.now }
    {
        self.name.as_str() == name
    }

    fn count_fault(&mut self)
        ensures counted { self.new ≡ record self.old { faults = next_count self.old.faults } }
        ensures rises { HasRisen self.old.faults (next_count self.old.faults) }
    {
        self.faults = one_more(self.faults);
    }

    fn replace(&mut self, bytes: Vec<u8>)
        ensures replaced { self.new ≡ record self.old { bytes = bytes.items } }
    {
        self.bytes = bytes;
    }

    /// Gives bytes from the place `at` on, as many as there are, as the buffer holds and as a piece has.
    fn give(&self, at: u64, piece: usize, buf: &mut [u8]) -> usize
        ensures count { result ≡ min (min (length self.now.bytes - at) (length buf.old)) piece }
        ensures given { take result buf.new ≡ take result (drop at self.now.bytes) }
    {
        let start = self.bytes.len().min(at as usize);
        let rest = &self.bytes[start..];
        let count = rest.len().min(buf.len()).min(piece);
        buf[..count].copy_from_slice(&rest[..count]);
        count
    }
}

fn place_of(files: &[StoredFile], name: &str) -> Option<usize>
    ensures first { result ≡ position (λ file. bytes_eq file.name name.now) files.now }
{
    files.iter().position(|file| file.is_named(name))
}

/// A folder that keeps its files in memory, gives at most a piece of some bytes at a time and fails at the calls that
/// were listed.
#[derive(Drop)]
pub struct MemoryFolder {
    files: Vec<StoredFile>,
    piece: usize,
    calls: u64,
    given: u64,
    failing: Vec<u64>,
}

impl Model for MemoryFolder {
    ghost use Rattle.std.specs.Prelude.{◌<◌};
    ghost use Rattle.wfc_outside.specs.MemoryFolder.{MemoryFolderView};

    ghost Value = { MemoryFolderView };

    ghost view = { λ f. record { files = f.files.items; piece = f.piece; calls = f.calls; given = f.given; failing = f.failing.items } };

    ghost invariant = { λ f. 0 < f.piece };
}

impl MemoryFolder {
    /// A folder without files that gives at most `piece` bytes at a time.
    pub fn new(alloc: Global, piece: usize) -> MemoryFolder
        requires some { 1 ≤ piece }
        ensures fresh { result ≡ fresh_folder piece }
    {
        MemoryFolder {
            files: Vec::new(alloc),
            piece,
            calls: 0,
            given: 0,
            failing: Vec::new(alloc),
        }
    }

    /// How many bytes it has given, counted no further than 2^64 - 1.
    pub fn bytes_given(&self) -> u64
        ensures value { result ≡ self.now.given }
    {
        self.given
    }

    /// Adds a file, or replaces the bytes of the one of that name.
    pub fn add(&mut self, name: String, bytes: Vec<u8>) -> Result<(), NoMemory>
        ensures ok { OnOk result
            (self.new ≡ after_adding self.old (string_bytes name) bytes.items) }
        ensures told { OnOk result (bytes_of self.new (string_bytes name) ≡ Some bytes.items) }
        ensures others { OnOk result ((other : List ℕ) → other ≢ string_bytes name
            → bytes_of self.new other ≡ bytes_of self.old other) }
        ensures no_memory { OnErr result (self.new ≡ self.old) }
    {
        match place_of(&self.files, name.as_str()) {
            Some(place) => self.files[place].replace(bytes),
            None => self.files.push(StoredFile {
                name,
                bytes,
                faults: 0,
            })?,
        }
        Ok(())
    }

    /// Makes the call of `read_at` of this number fail where it asks for a file that is there. Calls are counted from 1,
    /// and no further than 2^64 - 1.
    pub fn fail_at(&mut self, call: u64) -> Result<(), NoMemory>
        ensures ok { OnOk result (self.new ≡ folder_listing self.old call) }
        ensures no_memory { OnErr result (self.new ≡ self.old) }
    {
        self.failing.push(call)?;
        Ok(())
    }

    /// As `Folder` has it. It answers `Missing` exactly where the name isn't there, and `Failed` exactly at a listed
    /// call on a name that is there.
    pub fn read_at(&mut self, name: &str, at: u64, buf: &mut [u8]) -> Result<usize, FolderFault>
        ensures missing_exactly { IsErrOf result FolderFault.Missing
            ↔ (bytes_of self.old name.now ≡ None) }
        ensures failed_exactly { IsErrOf result FolderFault.Failed
            ↔ (IsListedNext self.old.failing self.old.calls × IsSome (bytes_of self.old name.now)) }
        ensures count { IfOk result (λ n. IfSome (bytes_of self.old name.now)
            (λ file. n ≡ given_count self.old file at buf.old)) }
        ensures given { IfOk result (λ n.
            GivesFrom (seen_folder self.old).contents name.now at buf.new n) }
        ensures ok { IfOk result (λ n. self.new ≡ after_giving self.old n) }
        ensures missing { IsErrOf result FolderFault.Missing → self.new ≡ after_call self.old }
        ensures failed { IsErrOf result FolderFault.Failed
            → self.new ≡ after_failed_call self.old name.now }
        ensures counted { IsErrOf result FolderFault.Failed
            → IsFaultOf (seen_folder self.old) (seen_folder self.new) name.now }
    {
        self.calls = one_more(self.calls);
        let Some(place) = place_of(&self.files, name) else {
            return Err(FolderFault::Missing);
        };
        if self.failing.contains(&self.calls) {
            self.files[place].count_fault();
            return Err(FolderFault::Failed);
        }
        let count = self.files[place].give(at, self.piece, buf);
        self.given = self.given.saturating_add(count as u64);
        Ok(count)
    }
}

impl Folder for MemoryFolder {
    ghost seen = { seen_folder };

    ghost bytes_given = { λ f. f.given };

    fn read_at(&mut self, name: &str, at: u64, buf: &mut [u8]) -> Result<usize, FolderFault> {
        MemoryFolder::read_at(self, name, at, buf)
    }
}
