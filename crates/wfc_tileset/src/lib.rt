//! Tile sets: tiles with their classes and weights, the pairs that may touch, and which variants
//! may therefore stand beside each other.
#![tactic(auto)]

ghost use Rattle.std.specs.Prelude.{◌≡◌, ℕ, ◌<◌, ◌≤◌, ◌↔◌, [], length, IfOk, IfSome, IfNone, IsTrue};
ghost use Rattle.wfc_tileset.specs.Tiles.{moved_variant, variant_total, variant_at, variant_of, tile_at, SpellsVariant};
ghost use Rattle.wfc_tileset.specs.Allowed.{IsAcross, IsDown, IsPairEnd, may_be_above, may_be_left, named_variant};
ghost use Rattle.wfc_tileset.specs.Names.{AreNames};
ghost use Rattle.wfc_tileset.specs.Numbers.{variant_number};
ghost use Rattle.wfc_tileset.specs.TileSets.{IsTileSet};

mod document;
pub mod document_laws;
mod drawing;
mod fault;
pub mod laws;
mod marks;
mod names;
mod pairs;
mod picture;
pub mod picture_laws;
mod reading;
mod terms;
mod tile;
mod tiles;
mod variants;
mod word;

pub use document::member;
pub use fault::{Key, Place, TileFault};
use marks::{across_table, down_table, is_marked};
pub use names::Names;
use names::names_of;
pub use picture::MAX_TILE_SIDE;
use picture::TilePicture;
pub use reading::{MAX_DOCUMENT_BYTES, read};
use std::alloc::Global;
use std::marker::Model;
pub use terms::{is_ppm_name, name_length, turn_digit};
pub use tile::{End, Pair, Tile};
pub use variants::MAX_VARIANTS;
use variants::Variants;
use wfc_outside::NoMemory;

/// What a map of tiles has at a hole: no variant has this number.
pub const HOLE: u32 = 65_535;

/// Tiles, the pairs that they declare, what these allow, and the pictures of tiles that are taken so
/// far. Tiles and variants count from 0, and variants are numbered tile by tile. Two flags are kept
/// for each two variants.
#[derive(Drop)]
pub struct TileSet {
    variants: Variants,
    pairs: Vec<Pair>,
    across: Vec<bool>,
    down: Vec<bool>,
    pictures: Vec<TilePicture>,
}

impl Model for TileSet {
    ghost use Rattle.wfc_tileset.specs.Tiles.{TileSetView};
    ghost use Rattle.wfc_tileset.specs.TileSets.{HasClosedTables};

    ghost Value = { TileSetView };

    ghost view = { λ s. record { tiles = s.variants; pairs = s.pairs.items; pictures = s.pictures.items } };

    ghost invariant = { λ s. HasClosedTables
        (record { tiles = s.variants; pairs = s.pairs.items; pictures = s.pictures.items })
        s.across.items s.down.items };
}

impl TileSet {
    /// The tile set of tiles and declared pairs, of which no picture is taken. Its time is linear in
    /// the pairs and in the square of the number of variants.
    pub fn new(alloc: Global, tiles: Vec<Tile>, pairs: Vec<Pair>) -> Result<TileSet, NoMemory>
        requires tile_set { IsTileSet
            (record { tiles = tiles.items; pairs = pairs.items; pictures = [] }) }
        ensures ok { IfOk result (λ set. set
            ≡ record { tiles = tiles.items; pairs = pairs.items; pictures = [] }) }
    {
        let variants = Variants::new(alloc, tiles)?;
        let across = across_table(alloc, &variants, &pairs)?;
        let down = down_table(alloc, &variants, &pairs)?;
        Ok(TileSet {
            variants,
            pairs,
            across,
            down,
            pictures: Vec::new(alloc),
        })
    }

    /// How many tiles there are.
    pub fn tiles(&self) -> u32
        ensures value { result ≡ length self.now.tiles }
    {
        self.variants.tiles().len() as u32
    }

    /// How many variants there are.
    #[inline]
    pub fn variants(&self) -> u16
        ensures value { result ≡ variant_total self.now.tiles }
        ensures limit { result ≤ MAX_VARIANTS }
        ensures tile_set { IsTileSet self.now }
    {
        self.variants.count()
    }

    /// The tile of a variant, and which of that tile's variants it is.
    pub fn tile_of(&self, v: u16) -> (u32, u8)
        requires v_in { v < variant_total self.now.tiles }
        ensures value { result ≡ variant_at self.now.tiles v }
    {
        self.variants.at(v)
    }

    /// The name of a tile.
    pub fn name(&self, tile: u32) -> &str
        requires tile_in { tile < length self.now.tiles }
        ensures value { result.now ≡ (tile_at self.now.tiles tile).name }
    {
        let tiles = self.variants.tiles();
        let named = &tiles[tile as usize];
        named.name.as_str()
    }

    /// The names of the tiles, each with the number of the first tile that has it.
    pub fn names(&self, alloc: Global) -> Result<Names, NoMemory>
        ensures names { IfOk result (λ names. AreNames names self.now.tiles) }
    {
        names_of(alloc, self.variants.tiles())
    }

    /// The number of the variant that an action makes of the one that an end names.
    pub fn image_of_end(&self, end: End, k: u8) -> u16
        requires end_in { IsPairEnd self.now.tiles end }
        requires action_in { k < 8 }
        ensures value { result ≡ variant_number self.now.tiles
            (moved_variant self.now.tiles (named_variant self.now.tiles end) k) }
        ensures number_in { result < variant_total self.now.tiles }
    {
        self.variants.number(
            self.variants
                .moved_variant(self.variants.named_variant(end), k),
        )
    }

    /// The variant that a word spells: the first, where several tiles have one name.
    pub fn find(&self, word: &[u8]) -> Option<u16>
        ensures exact { result ≡ variant_of self.now.tiles word.now }
        ensures found { IfSome result (SpellsVariant self.now.tiles word.now) }
        ensures none { IfNone result ((v : ℕ) → SpellsVariant self.now.tiles word.now v → ⊥) }
    {
        let (name, index) = word::parts(word)?;
        let tile = self.variants.named_first(name, index)?;
        Some(self.variants.number((tile, index)))
    }

    /// How much a variant weighs in a draw: as much as its tile.
    pub fn weight(&self, v: u16) -> u32
        requires v_in { v < variant_total self.now.tiles }
        ensures value { result ≡ (tile_at self.now.tiles (variant_at self.now.tiles v).0).weight }
    {
        let (tile, _index) = self.variants.at(v);
        let tiles = self.variants.tiles();
        let weighed = &tiles[tile as usize];
        weighed.weight
    }

    /// Whether a variant may stand to the left of another.
    #[inline]
    pub fn across(&self, left: u16, right: u16) -> bool
        requires left_in { left < variant_total self.now.tiles }
        requires right_in { right < variant_total self.now.tiles }
        ensures allowed { IsTrue result
            ↔ IsAcross self.now (variant_at self.now.tiles left) (variant_at self.now.tiles right) }
        ensures value { result ≡ may_be_left self.now left right }
    {
        is_marked(&self.across, &self.variants, left, right)
    }

    /// Whether a variant may stand above another.
    #[inline]
    pub fn down(&self, upper: u16, lower: u16) -> bool
        requires upper_in { upper < variant_total self.now.tiles }
        requires lower_in { lower < variant_total self.now.tiles }
        ensures allowed { IsTrue result
            ↔ IsDown self.now (variant_at self.now.tiles upper) (variant_at self.now.tiles lower) }
        ensures value { result ≡ may_be_above self.now upper lower }
    {
        is_marked(&self.down, &self.variants, upper, lower)
    }
}
