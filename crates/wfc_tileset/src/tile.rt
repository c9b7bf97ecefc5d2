//! A tile, and the pairs of tiles that a tile set declares.

use std::marker::Model;
use wfc_symmetry::Class;

/// One end of a declared pair: a tile by its number, and the action, 0 to 7, on its first variant.
#[derive(Clone, Copy, Debug, PartialEq, Eq)]
pub struct End {
    pub tile: u32,
    pub turn: u8,
}

/// Two ends, of which one may stand to the left of the other.
#[derive(Clone, Copy, Debug, PartialEq, Eq)]
pub struct Pair {
    pub left: End,
    pub right: End,
}

/// A tile: each of its variants has its weight in a draw.
#[derive(Debug, Drop)]
pub struct Tile {
    pub name: String,
    pub class: Class,
    pub weight: u32,
    /// The name of the file with the picture of its first variant.
    pub picture: Option<String>,
}

impl Model for Tile {
    ghost use Rattle.std.specs.Prelude.{option_map};
    ghost use Rattle.std.specs.String.{string_bytes};
    ghost use Rattle.wfc_tileset.specs.Tiles.{TileView};

    ghost Value = { TileView };

    ghost view = { λ t. record {
      name = string_bytes t.name;
      class = t.class;
      weight = t.weight;
      picture = option_map string_bytes t.picture;
    } };
}
