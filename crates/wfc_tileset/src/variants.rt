//! The variants of tiles, numbered tile by tile.

ghost use Rattle.std.specs.Prelude.{◌≡◌, ℕ, ◌<◌, ◌≤◌, ◌++◌, length, map, IfOk, OnOk, IfSome, IfNone};
ghost use Rattle.std.specs.List.{range_with_len};
ghost use Rattle.wfc_symmetry.specs.Class.{variant_count};
ghost use Rattle.wfc_tileset.specs.Tiles.{variant_total, variant_at, tile_at, moved_variant};
ghost use Rattle.wfc_tileset.specs.Allowed.{named_variant, IsPairEnd};
ghost use Rattle.wfc_tileset.specs.Numbers.{variant_number, IsNamed, IsVariant};

use crate::tile::{End, Tile};
use crate::word::has_variant;
use std::alloc::Global;
use std::marker::Model;
use wfc_outside::NoMemory;
use wfc_symmetry::{Class, act, cardinality};

/// The most variants of a tile set.
pub const MAX_VARIANTS: u16 = 4096;

/// Tiles, all their variants in order, and for each tile the number of its first variant.
#[derive(Drop)]
pub struct Variants {
    tiles: Vec<Tile>,
    list: Vec<(u32, u8)>,
    first: Vec<u16>,
}

impl Model for Variants {
    ghost use Rattle.std.specs.Prelude.{List};
    ghost use Rattle.wfc_tileset.specs.Tiles.{TileView};
    ghost use Rattle.wfc_tileset.specs.Numbers.{IsNumbered};

    ghost Value = { List TileView };

    ghost view = { λ v. v.tiles.items };

    ghost invariant = { λ v. IsNumbered v.tiles.items v.list.items v.first.items };
}

impl Variants {
    /// Numbers the variants of tiles, of which there are few enough.
    pub fn new(alloc: Global, tiles: Vec<Tile>) -> Result<Variants, NoMemory>
        requires limit { variant_total tiles.items ≤ MAX_VARIANTS }
        ensures tiles { IfOk result (λ variants. variants ≡ tiles.items) }
    {
        let mut list = Vec::new(alloc);
        let mut first = Vec::new(alloc);
        for tile in &tiles {
            let t = first.len() as u32;
            first.push(list.len() as u16)?;
            push_variants(&mut list, t, tile.class)?;
        }
        Ok(Variants { tiles, list, first })
    }

    /// The tiles.
    pub fn tiles(&self) -> &[Tile]
        ensures value { result.now ≡ self.now }
        ensures few { length self.now ≤ MAX_VARIANTS }
    {
        &self.tiles
    }

    /// How many variants there are.
    #[inline]
    pub fn count(&self) -> u16
        ensures value { result ≡ variant_total self.now }
        ensures limit { result ≤ MAX_VARIANTS }
    {
        self.list.len() as u16
    }

    /// A variant by its number.
    #[inline]
    pub fn at(&self, v: u16) -> (u32, u8)
        requires v_in { v < variant_total self.now }
        ensures value { result ≡ variant_at self.now v }
        ensures variant { IsVariant self.now result }
    {
        self.list[v as usize]
    }

    /// The number of a variant.
    #[inline]
    pub fn number(&self, variant: (u32, u8)) -> u16
        requires variant { IsVariant self.now variant }
        ensures value { result ≡ variant_number self.now variant }
        ensures number_in { result < variant_total self.now }
    {
        self.first[variant.0 as usize] + u16::from(variant.1)
    }

    /// The first tile that has this name and a variant with this number.
    pub fn named_first(&self, name: &[u8], index: u8) -> Option<u32>
        ensures found { IfSome result (λ tile. IsNamed self.now name.now index tile) }
        ensures first { IfSome result (λ tile.
            (t : ℕ) → t < tile → IsNamed self.now name.now index t → ⊥) }
        ensures none { IfNone result ((tile : ℕ) → IsNamed self.now name.now index tile → ⊥) }
    {
        let tiles = self.tiles();
        for t in 0..tiles.len() as u32 {
            let tile = &tiles[t as usize];
            if has_variant(tile, name, index) {
                return Some(t);
            }
        }
        None
    }

    /// What action `k` makes of a variant.
    pub fn moved_variant(&self, variant: (u32, u8), k: u8) -> (u32, u8)
        requires variant { IsVariant self.now variant }
        requires action_in { k < 8 }
        ensures value { result ≡ moved_variant self.now variant k }
        ensures variant { IsVariant self.now result }
    {
        let class = self.tiles[variant.0 as usize].class;
        (variant.0, act(class, variant.1, k))
    }

    /// The variant that one end of a declared pair names.
    pub fn named_variant(&self, end: End) -> (u32, u8)
        requires end_in { IsPairEnd self.now end }
        ensures value { result ≡ named_variant self.now end }
        ensures variant { IsVariant self.now result }
    {
        self.moved_variant((end.tile, 0), end.turn)
    }
}

/// Puts the variants of a tile behind the others.
fn push_variants(list: &mut Vec<(u32, u8)>, tile: u32, class: Class) -> Result<(), NoMemory>
    ensures pushed { OnOk result (list.new.items
        ≡ list.old.items ++ map (λ i. (tile, i)) (range_with_len 0 (variant_count class))) }
{
    for index in 0..cardinality(class) {
        list.push((tile, index))?;
    }
    Ok(())
}
