//! The reading of a file.

ghost use Rattle.std.specs.Prelude.{IfOk, length, ◌≤◌};
ghost use Rattle.wfc_outside.specs.Gives.{result_map};
ghost use Rattle.wfc_plan.specs.Files.{file_plan};
ghost use Rattle.wfc_plan.specs.Plan.{Goes};

use crate::fault::{Fault, Source};
use std::alloc::Global;
use wfc_outside::{Folder, MAX_FILE_BYTES, read_all};

/// The whole of a file of at most `MAX_FILE_BYTES` bytes. A fault names what the file is to the command.
pub fn whole_file<F: Folder>(
    alloc: Global,
    folder: &mut F,
    source: Source,
    name: &str,
) -> Result<Vec<u8>, Fault>
    ensures goes { Goes (file_plan source name.now)
        (F.seen folder.old) (F.seen folder.new) (result_map (λ bytes. bytes.items) result) }
    ensures short { IfOk result (λ bytes. length bytes.items ≤ MAX_FILE_BYTES) }
{
    match read_all(alloc, folder, name, MAX_FILE_BYTES) {
        Ok(bytes) => Ok(bytes),
        Err(fault) => Err(Fault::Unread { source, fault }),
    }
}
