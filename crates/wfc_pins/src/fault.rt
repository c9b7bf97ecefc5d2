//! Why no problem can be built.

ghost use Rattle.std.specs.Prelude.{◌≡◌};

use std::alloc::{AllocError, AllocFailed};
use thiserror::Error;
use wfc_outside::NoMemory;

/// Why a request has no problem. A line is one of the pins file.
#[derive(Clone, Copy, Debug, PartialEq, Eq, Error)]
pub enum BuildFault {
    /// A side of the output is below the side of a window.
    #[error("the output is smaller than a window")]
    SizeBelowN,
    /// The pixel or tile of this line is not in the output.
    #[error("a pin lies outside")]
    PinOutside { line: u32 },
    /// The symbol of this line is none of the sample.
    #[error("a pin has an unknown symbol")]
    UnknownSymbol { line: u32 },
    /// There are more pairs of a cell and a value than a problem may have, namely `product`.
    #[error("too many pairs of a cell and a value")]
    TooLarge { product: u64 },
    #[error("memory ran out")]
    NoMemory,
    /// The tile of this line is a hole.
    #[error("a pin lies in a hole")]
    PinInHole { line: u32 },
}

impl From<NoMemory> for BuildFault {
    ghost use Rattle.wfc_pins.specs.declared.fault.BuildFault.TheVariants as faults;

    ghost from_gives = { λ _ fault. fault ≡ faults.NoMemory };

    fn from(_error: NoMemory) -> BuildFault {
        BuildFault::NoMemory
    }
}

impl From<AllocError> for BuildFault {
    ghost use Rattle.wfc_pins.specs.declared.fault.BuildFault.TheVariants as faults;

    ghost from_gives = { λ _ fault. fault ≡ faults.NoMemory };

    fn from(_error: AllocError) -> BuildFault {
        BuildFault::NoMemory
    }
}

impl<T: Drop> From<AllocFailed<T>> for BuildFault {
    ghost use Rattle.wfc_pins.specs.declared.fault.BuildFault.TheVariants as faults;

    ghost from_gives = { λ _ fault. fault ≡ faults.NoMemory };

    fn from(_error: AllocFailed<T>) -> BuildFault {
        BuildFault::NoMemory
    }
}
