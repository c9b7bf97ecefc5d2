//! Reading a mask.

ghost use Rattle.std.specs.Prelude.{◌≡◌, ◌<◌, ◌≤◌, ◌++◌, ◌∷◌, ◌==◌, [], if◌then◌else◌, length, position, IfOk, IfSome, OnOk};
ghost use Rattle.wfc_outside.specs.Gives.{Gives};
ghost use Rattle.wfc_tiled.specs.Mask.{is_no_mask_byte, mask_of, places_of};

use crate::holes::Mask;
use std::alloc::{AllocError, AllocFailed, Global};
use thiserror::Error;
use wfc_grid::{Grid, MAX_GRID_BYTES};
use wfc_model::MAX_OUTPUT_SIDE;
use wfc_outside::NoMemory;

/// Why a grid is no mask.
#[derive(Clone, Copy, Debug, PartialEq, Eq, Error)]
pub enum MaskFault {
    /// The grid has these sides, which aren't those of the map.
    #[error("the mask has other sides than the map")]
    SizeDiffers { width: u32, height: u32 },
    /// A byte of the grid is no dot and no `#`. Lines and columns count from 1.
    #[error("the mask has another byte than a dot and #")]
    BadSymbol { line: u32, column: u32 },
    #[error("the mask has no place")]
    AllHoles,
    #[error("memory ran out")]
    NoMemory,
}

impl From<AllocError> for MaskFault {
    ghost use Rattle.wfc_tiled.specs.declared.reading.MaskFault.TheVariants as faults;

    ghost from_gives = { λ _ fault. fault ≡ faults.NoMemory };

    fn from(_error: AllocError) -> MaskFault {
        MaskFault::NoMemory
    }
}

impl<T: Drop> From<AllocFailed<T>> for MaskFault {
    ghost use Rattle.wfc_tiled.specs.declared.reading.MaskFault.TheVariants as faults;

    ghost from_gives = { λ _ fault. fault ≡ faults.NoMemory };

    fn from(_error: AllocFailed<T>) -> MaskFault {
        MaskFault::NoMemory
    }
}

impl From<NoMemory> for MaskFault {
    ghost use Rattle.wfc_tiled.specs.declared.reading.MaskFault.TheVariants as faults;

    ghost from_gives = { λ _ fault. fault ≡ faults.NoMemory };

    fn from(_error: NoMemory) -> MaskFault {
        MaskFault::NoMemory
    }
}

/// The mask that a grid spells for a map of these sides: a dot is a place, and a `#` a hole.
///
/// The first of these faults is answered: other sides, the first other byte row by row, and that no
/// place is left.
pub fn mask(alloc: Global, grid: &Grid, width: u32, height: u32) -> Result<Mask, MaskFault>
    requires some_width { 0 < width }
    requires some_height { 0 < height }
    requires width_limit { width ≤ MAX_OUTPUT_SIDE }
    requires height_limit { height ≤ MAX_OUTPUT_SIDE }
    requires limit { length grid.now.bytes ≤ MAX_GRID_BYTES }
    ensures exact { Gives MaskFault.NoMemory (λ mask. mask) result
        (mask_of grid.now width height) }
{
    if grid.width != width || grid.height != height {
        return Err(MaskFault::SizeDiffers {
            width: grid.width,
            height: grid.height,
        });
    }
    let bytes = grid.as_bytes();
    if let Some(at) = first_other(bytes) {
        return Err(MaskFault::BadSymbol {
            line: at / width + 1,
            column: at % width + 1,
        });
    }
    let places = places_of(alloc, bytes)?;
    if places.is_empty() {
        return Err(MaskFault::AllHoles);
    }
    Ok(Mask::new(width, height, places))
}

/// The first byte that is no place and no hole.
fn first_other(bytes: &[u8]) -> Option<u32>
    requires few { length bytes.now ≤ MAX_GRID_BYTES }
    ensures value { result ≡ position is_no_mask_byte bytes.now }
{
    match place_of_other(bytes) {
        Some(at) => Some(at as u32),
        None => None,
    }
}

/// Where the first byte stands that is no place and no hole, if there is one.
fn place_of_other(bytes: &[u8]) -> Option<usize>
    ensures value { result ≡ position is_no_mask_byte bytes.now }
    ensures within { IfSome result (λ at. at < length bytes.now) }
{
    bytes.iter().position(|byte| is_no_mask_byte(*byte))
}

/// Whether a byte is no place and no hole.
fn is_no_mask_byte(byte: u8) -> bool
    ensures value { result ≡ is_no_mask_byte byte }
{
    !(byte == b'.' || byte == b'#')
}

/// The numbers of the places of a grid.
fn places_of(alloc: Global, bytes: &[u8]) -> Result<Vec<u32>, NoMemory>
    requires few { length bytes.now ≤ MAX_GRID_BYTES }
    ensures value { IfOk result (λ places. places.items ≡ places_of bytes.now) }
{
    let mut places = Vec::new(alloc);
    for place in 0..bytes.len() as u32 {
        push_place(&mut places, place, bytes[place as usize])?;
    }
    Ok(places)
}

/// Puts a place behind the others, if its byte is a dot.
fn push_place(places: &mut Vec<u32>, place: u32, byte: u8) -> Result<(), NoMemory>
    ensures pushed { OnOk result (places.new.items
        ≡ places.old.items ++ (if byte == 46 then place ∷ [] else [])) }
{
    if byte == b'.' {
        places.push(place)?;
    }
    Ok(())
}
