//! The pictures that a tile set takes, and what its variants show of them.

ghost use Rattle.std.specs.Prelude.{◌≡◌, ◌<◌, ◌≤◌, ◌⊎◌, true, length, IfOk, IsSome, None, OnErr};
ghost use Rattle.std.specs.Option.{option_map};
ghost use Rattle.wfc_outside.specs.Gives.{Gives};
ghost use Rattle.wfc_picture.specs.declared.symbol.Kind.TheVariants as kinds;
ghost use Rattle.wfc_tileset.specs.Tiles.{tile_at, variant_total};
ghost use Rattle.wfc_tileset.specs.Pictures.{IsPicture, IsPictured, kind_of, next_name, picture_for, picture_name};
ghost use Rattle.wfc_tileset.specs.Pictures.{picture_taken, pixel_at, side_of};
ghost use Rattle.wfc_tileset.specs.Shown.{is_of_kind};

use crate::picture::{MAX_TILE_SIDE, TilePicture, fitting_picture, kind_of, side_of};
use crate::{Tile, TileFault, TileSet};
use std::alloc::Global;
use wfc_picture::{Kind, Symbol};

impl TileSet {
    /// The name of the file with a tile's picture, if it has one.
    pub fn picture_name(&self, tile: u32) -> Option<&str>
        ensures value { option_map (λ name. name.now) result ≡ picture_name self.now tile }
    {
        named_picture(self.variants.tiles(), tile)
    }

    /// How many pictures are taken: those of the first tiles.
    pub fn pictures(&self) -> u32
        ensures value { result ≡ length self.now.pictures }
    {
        self.pictures.len() as u32
    }

    /// Takes the picture of the next tile, which has to name one, by the bytes of its file.
    ///
    /// The fault is the first in this order: `BadPicture`, where there are more than 16,777,216 bytes,
    /// or these are no PPM, or no grid where the file's name is not that of a PPM, or the picture is
    /// not square or its side above 64; `MixedKinds`, where its maxval is not that of tile 0's; and
    /// `SizeDiffers`, where its side is not that of tile 0's.
    pub fn take_picture(&mut self, alloc: Global, bytes: &[u8]) -> Result<(), TileFault>
        requires named { IsSome (picture_name self.old (length self.old.pictures)) }
        ensures exact { Gives TileFault.NoMemory (λ _. self.new) result
            (picture_taken self.old bytes.now) }
        ensures unchanged { OnErr result (self.new ≡ self.old) }
    {
        let picture = self.next_picture(alloc, bytes)?;
        self.pictures.push(picture)?;
        Ok(())
    }

    /// The picture of the next tile, by the bytes of its file.
    fn next_picture(&self, alloc: Global, bytes: &[u8]) -> Result<TilePicture, TileFault>
        requires named { IsSome (picture_name self.now (length self.now.pictures)) }
        ensures exact { Gives TileFault.NoMemory (λ picture. picture) result
            (picture_for self.now bytes.now) }
        ensures picture { IfOk result IsPicture }
    {
        let tile = self.pictures();
        let name = self.next_name();
        match TilePicture::of_file(alloc, name.as_bytes(), bytes)? {
            Some(picture) => fitting_picture(&self.pictures, picture),
            None => Err(TileFault::BadPicture { tile }),
        }
    }

    /// The name of the file with the next tile's picture, and an empty one where it has none.
    fn next_name(&self) -> &str
        ensures value { result.now ≡ next_name self.now }
    {
        match self.picture_name(self.pictures()) {
            Some(name) => name,
            None => "",
        }
    }

    /// What the pictures are, grids or PPM files of one maxval: `Plain` where none is taken.
    pub fn kind(&self) -> Kind
        ensures value { result ≡ kind_of self.now.pictures }
        ensures complete { picture_name self.now (length self.now.pictures) ≡ None
            → (result ≡ kinds.Plain) ⊎ IsPictured self.now }
    {
        kind_of(&self.pictures)
    }

    /// How long the side of a tile's picture is, in pixels; 1 where none is taken.
    pub fn side(&self) -> u32
        ensures value { result ≡ side_of self.now.pictures }
        ensures some_side { 1 ≤ result }
        ensures limit { result ≤ MAX_TILE_SIDE }
    {
        side_of(&self.pictures)
    }

    /// What a variant shows in a column of a row: its tile's picture, turned and reflected.
    #[inline]
    pub fn pixel(&self, v: u16, x: u32, y: u32) -> Symbol
        requires v_in { v < variant_total self.now.tiles }
        requires pictured { IsPictured self.now }
        requires x_in { x < side_of self.now.pictures }
        requires y_in { y < side_of self.now.pictures }
        ensures exact { result ≡ pixel_at self.now v x y }
        ensures shown { is_of_kind (kind_of self.now.pictures) result ≡ true }
    {
        let (tile, index) = self.variants.at(v);
        let picture = &self.pictures[tile as usize];
        picture.of_variant(index, x, y)
    }
}

/// The name of the file with a tile's picture, if there is such a tile and it has one.
fn named_picture(tiles: &[Tile], tile: u32) -> Option<&str>
    ensures value { option_map (λ name. name.now) result ≡ (tile_at tiles.now tile).picture }
{
    match tiles.get(tile as usize) {
        Some(tile) => match &tile.picture {
            Some(name) => Some(name.as_str()),
            None => None,
        },
        None => None,
    }
}
