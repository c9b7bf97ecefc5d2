//! Laws of documents, each a function with no body whose contract is the law. They run nothing.

ghost use Rattle.std.specs.Prelude.{◌≡◌, ℕ, List, [], ◌∷◌, map, replicate, codes, pos, negsuc, true, false, Some, None, Ok, Err};
ghost use Rattle.toml.specs.Data.{Items, Members, array, no_members, member};
ghost use Rattle.wfc_symmetry.specs.declared.class.Class.TheVariants.{X, T, F};
ghost use Rattle.wfc_tileset.specs.declared.fault.TileFault.TheVariants as fault;
ghost use Rattle.wfc_tileset.specs.Tiles.{TileView, TileSetView, HasWeight, variant_total};
ghost use Rattle.wfc_tileset.specs.Document.{parsed_document, set_from, set_of, symmetry_class, tile_weight, is_name, is_name_byte};
ghost use Rattle.wfc_tileset.specs.Document.{same_kind, few_variants, tile_with, set_with, pair_with, pair_end_with};
ghost use Rattle.wfc_tileset.specs.Says.{AreNamedBehind, SaysEnd, SaysSet, SaysTile};
ghost use Rattle.wfc_tileset.specs.Documents.{wrong_pairs, wrong_pair_faults, wrong_tiles, wrong_tile_faults};
ghost use Rattle.wfc_tileset.specs.Documents.{two_tiles, table_of_tile, drawn_data, document_of, items_of};
ghost use Rattle.wfc_tileset.specs.Documents.{HasArrays, HasVariants, bytes_beside, class_words, classes_of_words, tiles_f_t, with_pair};

use crate::document::MAX_ELEMENTS;
use crate::{HOLE, MAX_DOCUMENT_BYTES, MAX_VARIANTS};

/// What a document says of two tiles and a pair: an action stands behind a blank, and none is
/// action 0.
pub fn documents_by_example()
    ensures pair { set_from (with_pair (codes "f 5") (codes "t"))
        ≡ Ok (set_with two_tiles (pair_with (pair_end_with 0 5) (pair_end_with 1 0) ∷ [])) }
    ensures picture { set_from (document_of (drawn_data (codes "a") (codes "b") 70 ∷ []) [])
        ≡ Ok (set_with (tile_with (codes "a") T 70 (Some (codes "b")) ∷ []) []) }
    ensures without_pairs { set_from (member (codes "tile") (array (items_of tiles_f_t)) no_members)
        ≡ Ok (set_with two_tiles []) }
{}

/// The first fault of a pair: the left end comes first, its name before its action.
pub fn faults_of_pairs()
    ensures first { map set_from wrong_pairs ≡ wrong_pair_faults }
{}

/// The first fault of the tiles, which come before any pair, as too many variants do, and of the two
/// arrays, which come before any tile.
pub fn faults_of_tiles()
    ensures first { map set_from wrong_tiles ≡ wrong_tile_faults }
    ensures variants_before_pairs { (ms : Members) (items pairs : Items) → HasArrays ms items pairs
        → HasVariants items 4097 → set_from ms ≡ Err (fault.TooManyVariants 4097) }
{}

/// The limits are these numbers: the bytes of a document, the elements of an array, and the variants
/// of a tile set.
pub fn limits_are()
    ensures bytes { MAX_DOCUMENT_BYTES ≡ 16777216 }
    ensures elements { MAX_ELEMENTS ≡ 16777216 }
    ensures variants { MAX_VARIANTS ≡ 4096 }
    ensures hole { HOLE ≡ 65535 }
    ensures most { (tiles : List TileView) → variant_total tiles ≡ 4096
        → few_variants tiles ≡ Ok tiles }
    ensures more { (tiles : List TileView) → variant_total tiles ≡ 4097
        → few_variants tiles ≡ Err (fault.TooManyVariants 4097) }
{}

/// The bounds of weights: 1 to 1,000,000, both in a document and in a tile set.
pub fn weights_of_tiles()
    ensures read { map tile_weight (pos 0 ∷ pos 1 ∷ pos 1000000 ∷ pos 1000001 ∷ negsuc 0 ∷ [])
        ≡ None ∷ Some 1 ∷ Some 1000000 ∷ None ∷ None ∷ [] }
    ensures least { HasWeight (tile_with (codes "a") X 1 None) }
    ensures most { HasWeight (tile_with (codes "a") X 1000000 None) }
    ensures zero { HasWeight (tile_with (codes "a") X 0 None) → ⊥ }
    ensures more { HasWeight (tile_with (codes "a") X 1000001 None) → ⊥ }
{}

/// The bounds of names: 1 to 64 bytes, each a letter, a digit, `_` or `-`.
pub fn names_of_tiles()
    ensures lengths { map (λ n. is_name (replicate n 97)) (0 ∷ 1 ∷ 64 ∷ 65 ∷ [])
        ≡ false ∷ true ∷ true ∷ false ∷ [] }
    ensures ends { is_name (codes "AZaz09_-") ≡ true }
    ensures others { map is_name_byte bytes_beside ≡ replicate 8 false }
{}

/// Classes by their letters.
pub fn words_of_tiles()
    ensures classes { map symmetry_class class_words ≡ classes_of_words }
{}

/// A tile set is read exactly where the document says it, key by key; so a document says no two.
/// The relation takes from the reader which words are classes, which bytes may stand in a name and
/// which names are those of a PPM, and from `toml` what a document is and has at a key; neither an
/// order nor a fault. What a picture's file has, it does not say.
pub fn read_sets_are_said()
    ensures said { (bytes : List ℕ) (set : TileSetView) → set_of bytes ≡ Ok set
        → (ms : Members) × (parsed_document bytes ≡ Ok ms) × SaysSet ms set }
    ensures read { (bytes : List ℕ) (ms : Members) (set : TileSetView)
        → parsed_document bytes ≡ Ok ms → SaysSet ms set → set_of bytes ≡ Ok set }
    ensures one { (ms : Members) (a b : TileSetView) → SaysSet ms a → SaysSet ms b → a ≡ b }
{}

/// What is said of a tile and of an end of a pair, and what is not: a weight that is not the table's, an action of another
/// digit, a tile of another name.
pub fn said_by_example()
    ensures weight { SaysTile (table_of_tile (codes "a") (codes "T") 70)
        (tile_with (codes "a") T 1 None) → ⊥ }
    ensures class { SaysTile (table_of_tile (codes "a") (codes "T") 70)
        (tile_with (codes "a") F 70 None) → ⊥ }
    ensures turn { SaysEnd two_tiles (codes "t 3") (pair_end_with 1 3) }
    ensures no_turn { SaysEnd two_tiles (codes "f") (pair_end_with 0 0) }
    ensures other_turn { SaysEnd two_tiles (codes "t 3") (pair_end_with 1 2) → ⊥ }
    ensures other_tile { SaysEnd two_tiles (codes "t 3") (pair_end_with 0 3) → ⊥ }
    ensures past { SaysEnd two_tiles (codes "t 8") (pair_end_with 1 8) → ⊥ }
    ensures named_twice { AreNamedBehind []
        (tile_with (codes "a") T 1 None ∷ tile_with (codes "a") F 2 None ∷ []) → ⊥ }
{}
