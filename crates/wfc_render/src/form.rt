//! The forms of a map, and what is written of one.

use thiserror::Error;
use wfc_picture::Kind;

/// How a map is written: as a PPM file of bytes or of decimal numbers, as a grid of characters, or as the plain numbers of
/// its pixels or tiles.
#[derive(Clone, Copy, Debug, PartialEq, Eq)]
pub enum Form {
    P6,
    P3,
    Grid,
    Cells,
}

/// What is written of a map of `width` by `height` pixels or tiles: the kind of its sample, the form, and how many pixels
/// the side of a tile has, which is 1 for a map of pixels.
#[derive(Clone, Copy, Debug, PartialEq, Eq)]
pub struct Layout {
    pub kind: Kind,
    pub form: Form,
    pub width: u32,
    pub height: u32,
    pub side: u32,
}

/// Why a map has no layout.
#[derive(Clone, Copy, Debug, PartialEq, Eq, Error)]
pub enum RenderFault {
    #[error("the sample's kind has no such form")]
    FormDiffers,
    #[error("the map has too many pixels")]
    TooLarge { pixels: u64 },
}
