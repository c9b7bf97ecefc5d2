//! Laws of the allowed pairs, each a function with no body whose contract is the law. They run
//! nothing.

ghost use Rattle.std.specs.Prelude.{◌≡◌, ℕ, ◌<◌, List, [], ◌∷◌, length, Contains, None, Some, codes, map, replicate};
ghost use Rattle.std.specs.List.{range_with_len, All};
ghost use Rattle.wfc_symmetry.specs.declared.class.Class.TheVariants.{X, I, L, T, F, Slash};
ghost use Rattle.wfc_symmetry.specs.declared.class.Class.{Class};
ghost use Rattle.wfc_tileset.specs.declared.tile.Pair.{Pair};
ghost use Rattle.wfc_tileset.specs.Tiles.{TileView, TileSetView, Variant, variants, variant_total, variant_at, variant_of, moved_variant, SpellsVariant};
ghost use Rattle.wfc_tileset.specs.Allowed.{named_variant, across_pairs, down_pairs, IsAcross, IsDown, IsPair, ArePairs};
ghost use Rattle.wfc_tileset.specs.Documents.{two_tiles};
ghost use Rattle.wfc_tileset.specs.Samples.{straight_lines, crossing, tile_of_class};

/// The variants of a junction, a cross and a straight, tile by tile, and how many there are.
pub fn variants_by_example()
    ensures numbered { variants (tile_of_class T ∷ tile_of_class X ∷ tile_of_class I ∷ [])
        ≡ (0, 0) ∷ (0, 1) ∷ (0, 2) ∷ (0, 3) ∷ (1, 0) ∷ (2, 0) ∷ (2, 1) ∷ [] }
    ensures fifth { variant_at (tile_of_class T ∷ tile_of_class X ∷ tile_of_class I ∷ []) 5
        ≡ (2, 0) }
    ensures total { variant_total (tile_of_class T ∷ tile_of_class X ∷ tile_of_class I ∷ []) ≡ 7 }
{}

/// A variant is spelled by the name of its tile, a slash and its number among that tile's: eight of a tile without symmetry
/// stand before the four of a junction.
pub fn spellings_by_example()
    ensures found { map (variant_of two_tiles) (codes "f/0" ∷ codes "f/7" ∷ codes "t/2" ∷ [])
        ≡ Some 0 ∷ Some 7 ∷ Some 10 ∷ [] }
    ensures none { map (variant_of two_tiles) (codes "f/8" ∷ codes "t/4" ∷ codes "t" ∷ codes "t 2"
        ∷ []) ≡ None ∷ None ∷ None ∷ None ∷ [] }
    ensures spelled { SpellsVariant two_tiles (codes "t/2") 10 }
    ensures other { SpellsVariant two_tiles (codes "t/2") 2 → ⊥ }
    ensures past { SpellsVariant two_tiles (codes "t/4") 12 → ⊥ }
{}

/// Straight lines that may go on to the right: then they may go on below too, and nothing else may.
pub fn lines_by_example()
    ensures across { across_pairs straight_lines ≡ replicate 4 ((0, 0), (0, 0)) }
    ensures down { down_pairs straight_lines ≡ replicate 4 ((0, 1), (0, 1)) }
{}

/// A tile without symmetry after action 5, to the left of a junction after a quarter turn.
pub fn allowed_by_example()
    ensures across { across_pairs crossing
        ≡ ((0, 5), (1, 1)) ∷ ((0, 3), (1, 1)) ∷ ((1, 3), (0, 1)) ∷ ((1, 3), (0, 7)) ∷ [] }
    ensures down { down_pairs crossing
        ≡ ((1, 2), (0, 4)) ∷ ((0, 2), (1, 0)) ∷ ((1, 2), (0, 0)) ∷ ((0, 6), (1, 0)) ∷ [] }
{}

/// A declared pair is allowed.
pub fn declared_pairs_are_allowed()
    ensures declared { (set : TileSetView) (pair : Pair) → Contains set.pairs pair
        → IsAcross set (named_variant set.tiles pair.left) (named_variant set.tiles pair.right) }
{}

/// What is allowed stays so after a quarter turn, which brings the right one up and the upper one
/// to the left, and after a reflection, which exchanges left and right.
pub fn allowed_under_the_group()
    ensures turned_up { (set : TileSetView) (v w : Variant) → ArePairs set → IsAcross set v w
        → IsDown set (moved_variant set.tiles w 1) (moved_variant set.tiles v 1) }
    ensures turned_left { (set : TileSetView) (v w : Variant) → ArePairs set → IsDown set v w
        → IsAcross set (moved_variant set.tiles v 1) (moved_variant set.tiles w 1) }
    ensures reflected { (set : TileSetView) (v w : Variant) → ArePairs set → IsAcross set v w
        → IsAcross set (moved_variant set.tiles w 4) (moved_variant set.tiles v 4) }
    ensures reflected_below { (set : TileSetView) (v w : Variant) → ArePairs set → IsDown set v w
        → IsDown set (moved_variant set.tiles v 4) (moved_variant set.tiles w 4) }
{}
