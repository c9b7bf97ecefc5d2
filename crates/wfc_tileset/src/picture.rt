//! Pictures of tiles.

ghost use Rattle.std.specs.Prelude.{◌≡◌, ◌-◌, ◌<◌, ◌≤◌, ◌^◌, true, length, map, IfOk};
ghost use Rattle.std.specs.Option.{option_map};
ghost use Rattle.wfc_grid.specs.Reading.{grid_of};
ghost use Rattle.wfc_ppm.specs.Reading.{ppm_of};
ghost use Rattle.wfc_tileset.specs.Pictures.{IsPicture, fitting_picture, fitting_first, if_read, is_tile_size, kind_of};
ghost use Rattle.wfc_tileset.specs.Pictures.{of_grid, of_ppm, one_kind, tile_picture_of, pixel_in, side_of};
ghost use Rattle.wfc_tileset.specs.Pictures.{turned_pixel, variant_pixel};
ghost use Rattle.wfc_tileset.specs.Shown.{is_of_kind};

use crate::fault::TileFault;
use crate::terms::is_ppm_name;
use std::alloc::Global;
use std::marker::Model;
use wfc_grid::{Grid, GridFault};
use wfc_outside::{MAX_FILE_BYTES, NoMemory};
use wfc_picture::{Colour, Kind, Symbol};
use wfc_ppm::{Ppm, PpmFault};

/// The longest side of a tile's picture, in pixels.
pub const MAX_TILE_SIDE: u32 = 64;

/// A picture of a tile: what its pixels show row by row, from a grid of characters or a picture of
/// colours.
#[derive(Drop)]
pub struct TilePicture {
    kind: Kind,
    side: u32,
    pixels: Vec<Symbol>,
}

impl Model for TilePicture {
    ghost use Rattle.wfc_tileset.specs.Tiles.{PictureView};

    ghost Value = { PictureView };

    ghost use Rattle.wfc_tileset.specs.Pictures.{IsPicture};

    ghost view = { λ p. record { kind = p.kind; side = p.side; pixels = p.pixels.items } };

    ghost invariant = { λ p. IsPicture (record { kind = p.kind; side = p.side; pixels = p.pixels.items }) };
}

impl TilePicture {
    /// The picture of a file with this name and these bytes, if it is one of a tile.
    pub fn of_file(
        alloc: Global,
        name: &[u8],
        bytes: &[u8],
    ) -> Result<Option<TilePicture>, NoMemory>
        ensures value { IfOk result (λ picture. picture ≡ tile_picture_of name.now bytes.now) }
    {
        if bytes.len() as u64 > MAX_FILE_BYTES {
            return Ok(None);
        }
        if is_ppm_name(name) {
            read_ppm(alloc, bytes)
        } else {
            read_grid(alloc, bytes)
        }
    }

    /// The kind of file that it is.
    pub fn kind(&self) -> Kind
        ensures value { result ≡ self.now.kind }
    {
        self.kind
    }

    /// How long its side is.
    pub fn side(&self) -> u32
        ensures value { result ≡ self.now.side }
        ensures picture { IsPicture self.now }
    {
        self.side
    }

    /// What the picture shows in a column of a row.
    #[inline]
    fn pixel(&self, x: u32, y: u32) -> Symbol
        requires x_in { x < self.now.side }
        requires y_in { y < self.now.side }
        ensures value { result ≡ pixel_in self.now x y }
        ensures shown { is_of_kind self.now.kind result ≡ true }
    {
        self.pixels[y as usize * self.side as usize + x as usize]
    }

    /// What it shows after so many quarter turns, counter-clockwise.
    #[inline]
    fn turned_pixel(&self, turns: u8, x: u32, y: u32) -> Symbol
        requires turns_in { turns < 4 }
        requires x_in { x < self.now.side }
        requires y_in { y < self.now.side }
        ensures value { result ≡ turned_pixel self.now turns x y }
        ensures shown { is_of_kind self.now.kind result ≡ true }
    {
        let last = self.side() - 1;
        match turns {
            0 => self.pixel(x, y),
            1 => self.pixel(last - y, x),
            2 => self.pixel(last - x, last - y),
            _ => self.pixel(y, last - x),
        }
    }

    /// What a variant of the tile shows, by its number among those of the tile.
    #[inline]
    pub fn of_variant(&self, variant: u8, x: u32, y: u32) -> Symbol
        requires variant_in { variant < 8 }
        requires x_in { x < self.now.side }
        requires y_in { y < self.now.side }
        ensures value { result ≡ variant_pixel self.now variant x y }
        ensures shown { is_of_kind self.now.kind result ≡ true }
    {
        if variant < 4 {
            self.turned_pixel(variant, x, y)
        } else {
            self.turned_pixel(variant - 4, self.side() - 1 - x, y)
        }
    }
}

/// Whether a picture with these sides may be one of a tile.
fn is_tile_size(width: u32, height: u32) -> bool
    ensures value { result ≡ is_tile_size width height }
{
    width == height && width <= MAX_TILE_SIDE
}

/// The picture of a tile that a grid is, if it is one.
fn read_grid(alloc: Global, bytes: &[u8]) -> Result<Option<TilePicture>, NoMemory>
    requires short { length bytes.now ≤ MAX_FILE_BYTES }
    ensures value { IfOk result (λ picture. picture ≡ if_read of_grid (grid_of bytes.now)) }
{
    match wfc_grid::read(alloc, bytes) {
        Ok(grid) => of_grid(alloc, grid),
        Err(GridFault::NoMemory) => Err(NoMemory),
        Err(_) => Ok(None),
    }
}

/// The picture of a tile that a grid shows, if it may. The grid is let go.
fn of_grid(alloc: Global, grid: Grid) -> Result<Option<TilePicture>, NoMemory>
    ensures value { IfOk result (λ picture. picture ≡ of_grid grid) }
{
    let side = grid.width;
    if !is_tile_size(side, grid.height) {
        return Ok(None);
    }
    let pixels = characters(alloc, grid.as_bytes())?;
    Ok(Some(TilePicture {
        kind: Kind::Grid,
        side,
        pixels,
    }))
}

/// What characters show.
fn characters(alloc: Global, bytes: &[u8]) -> Result<Vec<Symbol>, NoMemory>
    ensures value { IfOk result (λ symbols.
        symbols.items ≡ map (λ byte. Symbol.Char byte) bytes.now) }
{
    let mut symbols = Vec::with_capacity(alloc, bytes.len())?;
    for byte in bytes {
        symbols.push(Symbol::Char(*byte))?;
    }
    Ok(symbols)
}

/// The picture of a tile that a picture of colours is, if it is one.
fn read_ppm(alloc: Global, bytes: &[u8]) -> Result<Option<TilePicture>, NoMemory>
    requires short { length bytes.now ≤ MAX_FILE_BYTES }
    ensures value { IfOk result (λ picture. picture ≡ if_read of_ppm (ppm_of bytes.now)) }
{
    match wfc_ppm::read(alloc, bytes) {
        Ok(ppm) => of_ppm(alloc, ppm),
        Err(PpmFault::NoMemory) => Err(NoMemory),
        Err(_) => Ok(None),
    }
}

/// The picture of a tile that a picture of colours shows, if it may. That picture is let go.
fn of_ppm(alloc: Global, ppm: Ppm) -> Result<Option<TilePicture>, NoMemory>
    ensures value { IfOk result (λ picture. picture ≡ of_ppm ppm) }
{
    let side = ppm.width;
    let maxval = ppm.maxval;
    if !is_tile_size(side, ppm.height) {
        return Ok(None);
    }
    let pixels = colours(alloc, ppm.pixels.as_slice())?;
    Ok(Some(TilePicture {
        kind: Kind::Ppm { maxval },
        side,
        pixels,
    }))
}

/// What colours show.
fn colours(alloc: Global, colours: &[Colour]) -> Result<Vec<Symbol>, NoMemory>
    ensures value { IfOk result (λ symbols.
        symbols.items ≡ map (λ colour. Symbol.Rgb colour) colours.now) }
{
    let mut symbols = Vec::with_capacity(alloc, colours.len())?;
    for colour in colours {
        symbols.push(Symbol::Rgb(*colour))?;
    }
    Ok(symbols)
}

/// The picture behind these, if it is of the kind and the side of the first.
pub fn fitting_picture(
    before: &[TilePicture],
    picture: TilePicture,
) -> Result<TilePicture, TileFault>
    requires few { length before.now < 2 ^ 32 }
    ensures exact { result ≡ fitting_picture before.now picture }
    ensures picture { IfOk result IsPicture }
{
    let _side = picture.side();
    match before {
        [] => Ok(picture),
        [first, ..] => fitting_first(before.len() as u32, first, picture),
    }
}

/// The picture of a tile, if it is of the kind and the side of the first.
fn fitting_first(
    tile: u32,
    first: &TilePicture,
    picture: TilePicture,
) -> Result<TilePicture, TileFault>
    ensures exact { result ≡ fitting_first tile first.now picture }
    ensures picture { IfOk result IsPicture }
{
    if !one_kind(picture.kind(), first.kind()) {
        return Err(TileFault::MixedKinds { tile });
    }
    if picture.side() != first.side() {
        return Err(TileFault::SizeDiffers { tile });
    }
    Ok(picture)
}

/// Whether two kinds are one.
fn one_kind(a: Kind, b: Kind) -> bool
    ensures value { result ≡ one_kind a b }
{
    match (a, b) {
        (Kind::Grid, Kind::Grid) | (Kind::Plain, Kind::Plain) => true,
        (Kind::Ppm { maxval }, Kind::Ppm { maxval: other }) => maxval == other,
        _ => false,
    }
}

/// What pictures are, which are of one kind.
pub fn kind_of(pictures: &[TilePicture]) -> Kind
    ensures value { result ≡ kind_of pictures.now }
{
    match pictures {
        [] => Kind::Plain,
        [first, ..] => first.kind(),
    }
}

/// How long the side of pictures is, which are all as large.
pub fn side_of(pictures: &[TilePicture]) -> u32
    ensures value { result ≡ side_of pictures.now }
    ensures some_side { 1 ≤ result }
    ensures limit { result ≤ MAX_TILE_SIDE }
{
    match pictures {
        [] => 1,
        [first, ..] => first.side(),
    }
}
