//! Words that spell variants.

ghost use Rattle.std.specs.Prelude.{◌≡◌, ◌+◌, ◌<◌, ◌++◌, ◌↔◌, [], ◌∷◌, List, ℕ, IfSome, IfNone, IsTrue};
ghost use Rattle.wfc_symmetry.specs.Class.{variant_count};
ghost use Rattle.wfc_tileset.specs.Tiles.{TileView};

use crate::tile::Tile;
use wfc_symmetry::cardinality;

/// The name and the number that a word is made of: the number is a digit behind a slash.
pub fn parts(word: &[u8]) -> Option<(&[u8], u8)>
    ensures parts { IfSome result (λ p. p.0.now ++ 47 ∷ (48 + p.1) ∷ [] ≡ word.now) }
    ensures none { IfNone result ((name : List ℕ) (index : ℕ) → index < 8
        → name ++ 47 ∷ (48 + index) ∷ [] ≡ word.now → ⊥) }
{
    if word.len() < 2 {
        return None;
    }
    let end = word.len() - 2;
    let digit = word[end + 1];
    if word[end] != b'/' || digit < b'0' || digit > b'7' {
        return None;
    }
    Some((&word[..end], digit - b'0'))
}

/// Whether a tile has this name and a variant with this number.
pub fn has_variant(tile: &Tile, name: &[u8], index: u8) -> bool
    ensures value { IsTrue result ↔ ((tile.now.name ≡ name.now)
        × (index < variant_count tile.now.class)) }
{
    tile.name.as_bytes() == name && index < cardinality(tile.class)
}
