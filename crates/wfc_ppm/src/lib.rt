//! Pictures of colours in the Netpbm format PPM, raw (P6) and plain (P3): read and written.
#![tactic(auto)]

ghost use Rattle.std.specs.Prelude.{◌≡◌};
ghost use Rattle.wfc_ppm.specs.Ppm.{IsPpm};

mod field;
pub mod laws;
#[tactic(auto, using(crate::proofs::FaultLemmas::green_fault, crate::proofs::FaultLemmas::blue_fault))]
mod plain;
mod raw;
#[tactic(auto, using(crate::proofs::FaultLemmas::height_fault))]
mod reading;
mod writing;

pub use reading::{PpmFault, read};
use std::marker::Model;
use wfc_picture::Colour;
pub use writing::{
    line_room, push_p3_head, push_p3_pixel, push_p6_head, push_p6_pixel, write_p3, write_p6,
};

/// A picture: `width` times `height` pixels, row by row. Both sides are at least 1, and each sample is at most `maxval`,
/// which is at least 1.
#[derive(Debug, Drop)]
pub struct Ppm {
    pub width: u32,
    pub height: u32,
    pub maxval: u16,
    pub pixels: Vec<Colour>,
}

impl Model for Ppm {
    ghost use Rattle.wfc_ppm.specs.Ppm.{PpmView, IsPpm};

    ghost Value = { PpmView };

    ghost view = { λ p. record { width = p.width; height = p.height; maxval = p.maxval; pixels = p.pixels.items } };

    ghost invariant = { λ p. IsPpm record { width = p.width; height = p.height; maxval = p.maxval; pixels = p.pixels.items } };
}
