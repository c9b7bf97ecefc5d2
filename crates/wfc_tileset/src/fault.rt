//! Why bytes are no tile set.

ghost use Rattle.std.specs.Prelude.{◌≡◌};

use std::alloc::{AllocError, AllocFailed};
use thiserror::Error;
use wfc_outside::NoMemory;

/// Where a fault stands: at the top of the document, in a tile or in a declared pair, which count
/// from 0.
#[derive(Clone, Copy, Debug, PartialEq, Eq)]
pub enum Place {
    Top,
    Tile(u32),
    Pair(u32),
}

/// A key of the document.
#[derive(Clone, Copy, Debug, PartialEq, Eq)]
pub enum Key {
    Tile,
    Pair,
    Name,
    Class,
    Weight,
    Picture,
    Left,
    Right,
}

/// Why bytes are no tile set: the first fault, where the document itself comes first, then the two
/// arrays, the tiles one by one, the number of variants, the pairs one by one and at last the
/// pictures one by one.
#[derive(Clone, Copy, Debug, PartialEq, Eq, Error)]
pub enum TileFault {
    /// The bytes aren't UTF-8, or no TOML document.
    #[error("no TOML document")]
    Toml,
    #[error("no tile")]
    NoTiles,
    #[error("a key is missing")]
    MissingKey { place: Place, key: Key },
    /// What stands there has another kind: a text where a number is to be, or the like.
    #[error("a value has the wrong kind")]
    WrongKind { place: Place, key: Key },
    #[error("no such class")]
    BadClass { tile: u32 },
    /// The weight isn't 1 to 1,000,000.
    #[error("a weight is out of range")]
    BadWeight { tile: u32 },
    /// The picture is no PPM or no grid, isn't square or has a side above 64.
    #[error("a picture is no picture of a tile")]
    BadPicture { tile: u32 },
    /// The picture's side isn't that of tile 0.
    #[error("pictures have different sides")]
    SizeDiffers { tile: u32 },
    #[error("two tiles have one name")]
    DoubleName { tile: u32 },
    #[error("a pair names a tile that isn't there")]
    UnknownTile { pair: u32 },
    /// What stands behind a name isn't one digit 0 to 7.
    #[error("a pair names no action")]
    BadTurn { pair: u32 },
    #[error("too many variants")]
    TooManyVariants { count: u32 },
    #[error("a picture's file is missing")]
    Missing { tile: u32 },
    #[error("a picture's file can't be read")]
    Failed { tile: u32 },
    /// The tile has a picture of another kind than tile 0, or one of the two has none.
    #[error("pictures of different kinds")]
    MixedKinds { tile: u32 },
    #[error("out of memory")]
    NoMemory,
    /// The name isn't 1 to 64 letters, digits, `_` and `-`.
    #[error("a name has other bytes, or is too long")]
    BadName { tile: u32 },
}

impl From<NoMemory> for TileFault {
    ghost use Rattle.wfc_tileset.specs.declared.fault.TileFault.TheVariants as faults;

    ghost from_gives = { λ _ fault. fault ≡ faults.NoMemory };

    fn from(_error: NoMemory) -> TileFault {
        TileFault::NoMemory
    }
}

impl From<AllocError> for TileFault {
    ghost use Rattle.wfc_tileset.specs.declared.fault.TileFault.TheVariants as faults;

    ghost from_gives = { λ _ fault. fault ≡ faults.NoMemory };

    fn from(_error: AllocError) -> TileFault {
        TileFault::NoMemory
    }
}

impl<T: Drop> From<AllocFailed<T>> for TileFault {
    ghost use Rattle.wfc_tileset.specs.declared.fault.TileFault.TheVariants as faults;

    ghost from_gives = { λ _ fault. fault ≡ faults.NoMemory };

    fn from(_error: AllocFailed<T>) -> TileFault {
        TileFault::NoMemory
    }
}
