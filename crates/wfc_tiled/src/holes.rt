//! Masks: which places of a tile map have a tile.

ghost use Rattle.std.specs.Prelude.{◌≡◌, ◌*◌, ◌<◌, ◌≤◌, length, IfOk, IfSome, nat_eq, position};
ghost use Rattle.std.specs.List.Sorted.{IsStrictlyIncreasing};
ghost use Rattle.std.specs.List.{range_with_len};
ghost use Rattle.wfc_places.specs.Steps.{place_number};
ghost use Rattle.wfc_tiled.specs.Mask.{IsMask, cell_number, plain_mask};

use std::alloc::Global;
use std::marker::Model;
use wfc_model::MAX_OUTPUT_SIDE;
use wfc_outside::NoMemory;

/// Which places of a map have a tile. It is seen as its sides and the numbers of these places, row
/// by row.
#[derive(Debug, Drop)]
pub struct Mask {
    width: u32,
    height: u32,
    places: Vec<u32>,
}

impl Model for Mask {
    ghost use Rattle.wfc_tiled.specs.Mask.{MaskView, IsMask};

    ghost Value = { MaskView };

    ghost view = { λ m. record { width = m.width; height = m.height; places = m.places.items } };

    ghost invariant = { λ m. IsMask record { width = m.width; height = m.height; places = m.places.items } };
}

impl Mask {
    /// The mask of these places.
    pub(crate) fn new(width: u32, height: u32, places: Vec<u32>) -> Mask
        requires mask { IsMask (record { width = width; height = height; places = places.items }) }
        ensures value { result ≡ record { width = width; height = height; places = places.items } }
    {
        Mask {
            width,
            height,
            places,
        }
    }

    /// The mask without holes.
    pub(crate) fn plain(alloc: Global, width: u32, height: u32) -> Result<Mask, NoMemory>
        requires some_width { 0 < width }
        requires some_height { 0 < height }
        requires width_limit { width ≤ MAX_OUTPUT_SIDE }
        requires height_limit { height ≤ MAX_OUTPUT_SIDE }
        ensures value { IfOk result (λ mask. mask ≡ plain_mask width height) }
    {
        let places = all_places(alloc, width * height)?;
        Ok(Mask::new(width, height, places))
    }

    /// How many places have a tile.
    pub fn cells(&self) -> u32
        ensures value { result ≡ length self.now.places }
        ensures mask { IsMask self.now }
    {
        self.places.len() as u32
    }

    /// The cell of the place in column `x` of row `y`, none where it is a hole.
    #[inline]
    pub fn cell(&self, x: u32, y: u32) -> Option<u32>
        requires column_in { x < self.now.width }
        requires row_in { y < self.now.height }
        ensures value { result ≡ cell_number self.now (place_number self.now.width x y) }
        ensures mask { IsMask self.now }
        ensures cell_in { IfSome result (λ cell. cell < length self.now.places) }
    {
        self.cell_of(y * self.width + x)
    }

    /// The cell of the place with this number, none where it is a hole.
    #[inline]
    #[tactic(auto, using(crate::proofs::MaskLemmas::few))]
    pub(crate) fn cell_of(&self, place: u32) -> Option<u32>
        ensures value { result ≡ cell_number self.now place }
        ensures cell_in { IfSome result (λ cell. cell < length self.now.places) }
    {
        place_in(&self.places, place)
    }

    /// How many columns the map has.
    pub fn width(&self) -> u32
        ensures value { result ≡ self.now.width }
        ensures mask { IsMask self.now }
    {
        self.width
    }

    /// How many rows the map has.
    pub fn height(&self) -> u32
        ensures value { result ≡ self.now.height }
        ensures mask { IsMask self.now }
    {
        self.height
    }

    /// The numbers of the places that have a tile.
    pub(crate) fn places(&self) -> &[u32]
        ensures value { result.now ≡ self.now.places }
        ensures mask { IsMask self.now }
    {
        &self.places
    }
}

/// Where a number stands among rising numbers: in its own place, where all before it are among them.
#[inline]
fn place_in(numbers: &[u32], number: u32) -> Option<u32>
    requires rising { IsStrictlyIncreasing numbers.now }
    requires few { length numbers.now ≤ 16777216 }
    ensures value { result ≡ position (nat_eq number) numbers.now }
    ensures within { IfSome result (λ at. at < length numbers.now) }
{
    let own = number as usize;
    if own < numbers.len() && numbers[own] == number {
        return Some(number);
    }
    match numbers.binary_search(&number) {
        Ok(at) => Some(at as u32),
        Err(_) => None,
    }
}

/// All numbers below a count.
fn all_places(alloc: Global, count: u32) -> Result<Vec<u32>, NoMemory>
    ensures value { IfOk result (λ places. places.items ≡ range_with_len 0 count) }
{
    let mut places = Vec::with_capacity(alloc, count as usize)?;
    for place in 0..count {
        places.push(place)?;
    }
    Ok(places)
}
