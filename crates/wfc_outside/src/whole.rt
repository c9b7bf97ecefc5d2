//! Whole files read and whole pieces written, however little a folder gives or a sink takes at a time.

ghost use Rattle.std.specs.Prelude.{◌≡◌, ◌+◌, ◌≤◌, length, IfOk, OnOk, IsErrOf};
ghost use Rattle.wfc_outside.specs.Folder.{IsFaultOf, IsMissing, IsToldAs};
ghost use Rattle.wfc_outside.specs.Sink.{Puts};
ghost use Rattle.wfc_outside.specs.Whole.{IsLongerThan};

use crate::{Folder, FolderFault, Sink, SinkFault};
use std::alloc::{AllocError, Global};
use thiserror::Error;

/// How many bytes a file may have at most that is read whole.
pub const MAX_FILE_BYTES: u64 = 16_777_216;

/// How many bytes are asked for at a time where the limit leaves room for as many.
const PIECE: u64 = 8192;

/// Why a file was not read whole.
#[derive(Clone, Copy, Debug, PartialEq, Eq, Error)]
pub enum ReadFault {
    #[error("the file is missing")]
    Missing,
    #[error("the file could not be read")]
    Failed,
    #[error("the file is too long")]
    TooLong,
    #[error("memory ran out")]
    NoMemory,
}

impl From<FolderFault> for ReadFault {
    ghost use Rattle.std.specs.Prelude.{◌≡◌};
    ghost use Rattle.wfc_outside.specs.ReadFault.{read_fault};

    ghost from_gives = { λ fault result. result ≡ read_fault fault };

    fn from(fault: FolderFault) -> ReadFault {
        match fault {
            FolderFault::Missing => ReadFault::Missing,
            FolderFault::Failed => ReadFault::Failed,
        }
    }
}

impl From<AllocError> for ReadFault {
    ghost use Rattle.std.specs.Prelude.{◌≡◌};
    ghost use Rattle.wfc_outside.specs.declared.whole.ReadFault.TheVariants.{NoMemory};

    ghost from_gives = { λ _ result. result ≡ NoMemory };

    fn from(_error: AllocError) -> ReadFault {
        ReadFault::NoMemory
    }
}

fn zeros(alloc: Global, count: usize) -> Result<Vec<u8>, AllocError>
    ensures len { IfOk result (λ zeros. length zeros.items ≡ count) }
{
    vec![in alloc; 0; count]
}

/// Reads the whole of the named file, which may have at most `limit` bytes.
///
/// It ends at the latest when it was given one byte past the limit, and asks for no other file; a test shows the latter.
pub fn read_all<F: Folder>(
    alloc: Global,
    folder: &mut F,
    name: &str,
    limit: u64,
) -> Result<Vec<u8>, ReadFault>
    requires limited { limit ≤ MAX_FILE_BYTES }

    ensures given { F.bytes_given folder.new ≤ F.bytes_given folder.old + limit + 1 }

    ensures ok { OnOk result (F.seen folder.new ≡ F.seen folder.old) }
    ensures within { IfOk result (λ bytes. length bytes.items ≤ limit) }
    ensures whole { IfOk result (λ bytes.
        IsToldAs (F.seen folder.old).contents name.now bytes.items) }

    ensures missing { IsErrOf result ReadFault.Missing
        → IsMissing (F.seen folder.old) (F.seen folder.new) name.now }
    ensures failed { IsErrOf result ReadFault.Failed
        → IsFaultOf (F.seen folder.old) (F.seen folder.new) name.now }
    ensures too_long { IsErrOf result ReadFault.TooLong
        → IsLongerThan (F.seen folder.old).contents name.now limit }
    ensures too_long_same { IsErrOf result ReadFault.TooLong
        → F.seen folder.new ≡ F.seen folder.old }
    ensures no_memory { IsErrOf result ReadFault.NoMemory
        → F.seen folder.new ≡ F.seen folder.old }
{
    let mut zeros = zeros(alloc, PIECE as usize)?;
    let buffer = zeros.as_mut_slice();
    let mut bytes = Vec::new(alloc);
    loop {
        let room = limit + 1 - bytes.len() as u64;
        let piece = &mut buffer[..room.min(PIECE) as usize];
        let given = folder.read_at(name, bytes.len() as u64, piece)?;
        if given == 0 {
            return Ok(bytes);
        }
        if (bytes.len() + given) as u64 > limit {
            return Err(ReadFault::TooLong);
        }
        bytes.extend_from_slice(&piece[..given])?;
    }
}

/// Puts all the bytes into the sink, one piece after another.
///
/// After `Failed` the sink has taken a front of them.
pub fn write_all<S: Sink>(sink: &mut S, bytes: &[u8]) -> Result<(), SinkFault>
    ensures put { Puts (S.seen sink.old) (S.seen sink.new) bytes.now result }
{
    let mut done = 0;
    while done < bytes.len() {
        done += sink.write(&bytes[done..])?;
    }
    Ok(())
}
