//! Why a text isn't accepted.

use thiserror::Error;
use wfc_outside::{NoMemory, ReadFault};
use wfc_proof::{Reject, Shape};

/// Why a text isn't accepted as the refutation of a problem. Lines are counted from 1.
#[derive(Clone, Copy, Debug, PartialEq, Eq, Error)]
pub enum CheckFault {
    /// The line of the proof isn't right where it stands.
    #[error("line {line} is refused: {reject:?}")]
    Rejected { line: u64, reject: Reject },
    /// The line isn't of the form of its place, is longer than 64 bytes, or has no end.
    #[error("line {line} is no line of a refutation")]
    BadLine { line: u64 },
    /// The head has these numbers, and the problem others.
    #[error("the text is of {cells} cells and {values} values")]
    HeaderDiffers { cells: u32, values: u32 },
    /// The text ends before the end of its proof.
    #[error("the text ends before its proof does")]
    NotEnded,
    #[error("the file is missing")]
    Missing,
    #[error("the file could not be read")]
    Failed,
    #[error("the file is too long")]
    TooLong,
    #[error("memory ran out")]
    NoMemory,
    /// The head names this shape, and the request has another.
    #[error("the text is for another request: {found:?}")]
    OptionsDiffer { found: Shape },
}

impl From<NoMemory> for CheckFault {
    ghost use Rattle.std.specs.Prelude.{◌≡◌};
    ghost use Rattle.wfc_check.specs.declared.fault.CheckFault.TheVariants.{NoMemory};

    ghost from_gives = { λ _ result. result ≡ NoMemory };

    fn from(_error: NoMemory) -> CheckFault {
        CheckFault::NoMemory
    }
}

impl From<ReadFault> for CheckFault {
    ghost use Rattle.std.specs.Prelude.{◌≡◌};
    ghost use Rattle.wfc_check.specs.Fault.{check_fault};

    ghost from_gives = { λ fault result. result ≡ check_fault fault };

    fn from(fault: ReadFault) -> CheckFault {
        match fault {
            ReadFault::Missing => CheckFault::Missing,
            ReadFault::Failed => CheckFault::Failed,
            ReadFault::TooLong => CheckFault::TooLong,
            ReadFault::NoMemory => CheckFault::NoMemory,
        }
    }
}
