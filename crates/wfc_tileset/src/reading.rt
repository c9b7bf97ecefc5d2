//! Reading a tile set.

ghost use Rattle.std.specs.Prelude.{◌≡◌, ◌<◌, ◌≤◌, length, IfOk};
ghost use Rattle.std.specs.List.{All};
ghost use Rattle.wfc_outside.specs.Gives.{Gives};
ghost use Rattle.toml.specs.View.{table_view, items_view};
ghost use Rattle.wfc_tileset.specs.Document.{some_tiles, few_variants, result_then, set_from, set_of};
ghost use Rattle.wfc_tileset.specs.Tiles.{HasWeight, variant_total};
ghost use Rattle.wfc_tileset.specs.TileSets.{AreAlike};

use crate::TileSet;
use crate::document::{MAX_ELEMENTS, document, elements_in, member};
use crate::fault::{Key, TileFault};
use crate::pairs::pairs_from;
use crate::tile::Tile;
use crate::tiles::tiles_from;
use crate::variants::MAX_VARIANTS;
use std::alloc::Global;
use toml::{Table, Value};
use wfc_symmetry::cardinality;

/// The most bytes of a document.
pub const MAX_DOCUMENT_BYTES: usize = 16_777_216;

/// The tile set that a TOML document spells, whose pictures are named and not read.
///
/// The fault is the first in this order: the document itself; the arrays of tiles and of pairs; the
/// tiles one by one, in each the name, the class, the weight and the picture's name; the number of
/// variants; and the pairs one by one, in each the left end and the right end.
pub fn read(alloc: Global, bytes: &[u8]) -> Result<TileSet, TileFault>
    requires limit { length bytes.now ≤ MAX_DOCUMENT_BYTES }
    ensures exact { Gives TileFault.NoMemory (λ set. set) result (set_of bytes.now) }
{
    let table = document(alloc, bytes)?;
    set_from(alloc, &table)
}

/// The tile set of a document.
fn set_from(alloc: Global, table: &Table) -> Result<TileSet, TileFault>
    ensures exact { Gives TileFault.NoMemory (λ set. set) result (set_from (table_view table.now)) }
{
    let tile_elements = elements_in(Key::Tile, member(table, "tile"))?;
    let pair_elements = elements_in(Key::Pair, member(table, "pair"))?;
    let tiles = some_tiles(alloc, tile_elements)?;
    let pairs = pairs_from(alloc, &tiles, pair_elements)?;
    Ok(TileSet::new(alloc, tiles, pairs)?)
}

/// At least one tile, and no more variants than a tile set has.
fn some_tiles(alloc: Global, elements: &[Value]) -> Result<Vec<Tile>, TileFault>
    requires few { length elements.now ≤ MAX_ELEMENTS }
    ensures exact { Gives TileFault.NoMemory (λ tiles. tiles.items) result
        (result_then (some_tiles (items_view elements.now)) few_variants) }
    ensures limit { IfOk result (λ tiles. variant_total tiles.items ≤ MAX_VARIANTS) }
    ensures some_tile { IfOk result (λ tiles. 0 < length tiles.items) }
    ensures few_tiles { IfOk result (λ tiles. length tiles.items ≤ MAX_ELEMENTS) }
    ensures weighed { IfOk result (λ tiles. All HasWeight tiles.items) }
    ensures alike { IfOk result (λ tiles. AreAlike tiles.items) }
{
    if elements.is_empty() {
        return Err(TileFault::NoTiles);
    }
    let tiles = tiles_from(alloc, elements)?;
    let count = variant_total(&tiles);
    if count > u32::from(MAX_VARIANTS) {
        return Err(TileFault::TooManyVariants { count });
    }
    Ok(tiles)
}

/// How many variants the tiles have together.
fn variant_total(tiles: &[Tile]) -> u32
    requires few { length tiles.now ≤ MAX_ELEMENTS }
    ensures value { result ≡ variant_total tiles.now }
{
    let mut count = 0;
    for tile in tiles {
        count += u32::from(cardinality(tile.class));
    }
    count
}
