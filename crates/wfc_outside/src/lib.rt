//! The outside of the program: folders that give bytes of named files, and sinks that take bytes.
//!
//! A device's fault is counted where it happens, so that a contract can say that a fault was answered only where
//! one was met. Both traits say what is known of the bytes: a folder or a sink in memory tells them, a real one
//! doesn't.
#![tactic(auto)]

ghost use Rattle.std.specs.Prelude.{◌≡◌, ℕ, ◌+◌, ◌<◌, ◌≤◌, length, take, IfOk, OnOk, OnErr, IsErrOf};
ghost use Rattle.wfc_outside.specs.Folder.{FolderView, GivesFrom, IsFaultOf, IsMissing};
ghost use Rattle.wfc_outside.specs.Sink.{SinkView, after_bytes, Finishes, IsFault};

mod count;
mod devices;
pub mod laws;
mod memory_folder;
mod memory_sink;
mod whole;

pub use devices::{DiskFolder, StderrSink, StdoutSink, StreamSink};
pub use memory_folder::MemoryFolder;
pub use memory_sink::MemorySink;
use std::alloc::{AllocError, AllocFailed};
pub use whole::{MAX_FILE_BYTES, ReadFault, read_all, write_all};

/// Memory ran out.
#[derive(Clone, Copy, Debug, PartialEq, Eq)]
pub struct NoMemory;

impl From<AllocError> for NoMemory {
    fn from(_error: AllocError) -> NoMemory {
        NoMemory
    }
}

impl<T: Drop> From<AllocFailed<T>> for NoMemory {
    fn from(_error: AllocFailed<T>) -> NoMemory {
        NoMemory
    }
}

/// Why a folder gave nothing.
#[derive(Clone, Copy, Debug, PartialEq, Eq)]
pub enum FolderFault {
    Missing,
    Failed,
}

/// Named files that can be read from any place.
pub trait Folder {
    /// Its files, where they are told, and its count of faults for each name.
    ghost seen: { Self → FolderView };

    /// How many bytes it has given, as far as it counts them.
    ghost bytes_given: { Self → ℕ };

    /// Reads bytes of the named file from byte `at` on into `buf`, and answers how many. `Ok(0)` for a buffer with room
    /// comes only at or past the file's end. What of `buf` lies behind the answered count is left open.
    fn read_at(&mut self, name: &str, at: u64, buf: &mut [u8]) -> Result<usize, FolderFault>
        ensures ok { OnOk result (seen self.new ≡ seen self.old) }
        ensures within { IfOk result (λ n. n ≤ length buf.new) }
        ensures given { IfOk result (λ n.
            GivesFrom (seen self.old).contents name.now at buf.new n) }

        // No more bytes are counted than are given.
        ensures counted { IfOk result (λ n. bytes_given self.new ≤ bytes_given self.old + n) }
        ensures none_counted { OnErr result (bytes_given self.new ≤ bytes_given self.old) }

        // What is told stands in each case, and no count falls.
        ensures missing { IsErrOf result FolderFault.Missing
            → IsMissing (seen self.old) (seen self.new) name.now }
        ensures failed { IsErrOf result FolderFault.Failed
            → IsFaultOf (seen self.old) (seen self.new) name.now };
}

/// Why a sink took nothing.
#[derive(Clone, Copy, Debug, PartialEq, Eq)]
pub enum SinkFault {
    Failed,
}

/// Something that takes bytes in order.
pub trait Sink {
    /// The bytes that it took and whether they are finished, where that is told, and its count of faults.
    ghost seen: { Self → SinkView };

    /// Takes a front of the bytes, and answers how long it is: at least one byte where there is one. After `Failed`
    /// nothing more was taken.
    fn write(&mut self, bytes: &[u8]) -> Result<usize, SinkFault>
        ensures within { IfOk result (λ n. n ≤ length bytes.now) }
        ensures some { IfOk result (λ n. 0 < length bytes.now → 0 < n) }
        ensures ok { IfOk result (λ n.
            seen self.new ≡ after_bytes (seen self.old) (take n bytes.now)) }
        ensures failed { OnErr result (IsFault (seen self.old) (seen self.new)) };

    /// Says that nothing follows, and passes on what is held back.
    fn finish(&mut self) -> Result<(), SinkFault>
        ensures finished { Finishes (seen self.old) (seen self.new) result };
}
