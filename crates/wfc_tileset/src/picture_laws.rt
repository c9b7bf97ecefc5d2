//! Laws of the pictures of tiles, each a function with no body whose contract is the law. They run
//! nothing.

ghost use Rattle.std.specs.Prelude.{◌≡◌, ℕ, List, [], ◌∷◌, ◌++◌, codes, length, map, true, false, Some, None, Ok, Err};
ghost use Rattle.std.specs.List.{range_with_len};
ghost use Rattle.wfc_grid.specs.Reading.{grid_of};
ghost use Rattle.wfc_tileset.specs.declared.fault.TileFault.TheVariants as fault;
ghost use Rattle.wfc_tileset.specs.Pictures.{if_read, is_tile_size, of_grid, tile_picture_of, picture_taken, pixel_at, with_picture};
ghost use Rattle.wfc_tileset.specs.Samples.{faulty_files, four_characters, four_shown, four_variants, one_colour, one_taken};
ghost use Rattle.wfc_tileset.specs.Tiles.{PictureView};

use crate::MAX_TILE_SIDE;

/// The longest side, and the longest file.
pub fn longest_side()
    ensures side { MAX_TILE_SIDE ≡ 64 }
    ensures sizes { map (λ side. is_tile_size side side) (1 ∷ 64 ∷ 65 ∷ [])
        ≡ true ∷ true ∷ false ∷ [] }
    ensures square { is_tile_size 3 4 ≡ false }
    ensures most { (bytes : List ℕ) → length bytes ≡ 16777216
        → tile_picture_of (codes "t.txt") bytes ≡ if_read of_grid (grid_of bytes) }
    ensures more { (name bytes : List ℕ) → length bytes ≡ 16777217
        → tile_picture_of name bytes ≡ None }
{}

/// The eight variants of a picture, row by row: each of the first four is a quarter turn,
/// counter-clockwise, of the one before, and each of the last four has the rows of the one four
/// before the other way round.
pub fn variants_by_example()
    ensures shown { map (four_shown four_characters) (range_with_len 0 8) ≡ four_variants }
{}

/// What files are pictures of tiles: a grid where the name is not that of a PPM, square, and without
/// a fault.
pub fn files_by_example()
    ensures grid { tile_picture_of (codes "t.txt") (codes "ab\ncd\n") ≡ Some four_characters }
    ensures ppm { tile_picture_of (codes "t.ppm") (codes "P3 1 1 9 1 2 3") ≡ Some (one_colour 9) }
    ensures others { map (tile_picture_of (codes "t.ppm")) (codes "ab\ncd\n" ∷ codes
        "P3 1 1 2 1 2 3" ∷ codes "P3 2 1 9 1 2 3 1 2 3" ∷ []) ≡ None ∷ None ∷ None ∷ [] }
    ensures not_square { map (tile_picture_of (codes "t.txt")) (codes "ab" ∷ codes "a\nb" ∷ [] ∷ [])
        ≡ None ∷ None ∷ None ∷ [] }
{}

/// The next picture of a tile set, and its first fault: what is no picture, another maxval, and
/// another side.
pub fn taken_by_example()
    ensures taken { picture_taken one_taken (codes "P3 1 1 9 1 2 3")
        ≡ Ok (with_picture one_taken (one_colour 9)) }
    ensures faults { map (picture_taken one_taken) faulty_files
        ≡ Err (fault.BadPicture 1) ∷ Err (fault.MixedKinds 1) ∷ Err (fault.SizeDiffers 1) ∷ [] }
{}
