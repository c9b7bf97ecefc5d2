//! What the definitions give on small cases without symmetry. Each function does nothing; its
//! contract is the law.

ghost use Rattle.std.specs.Prelude.{◌≡◌, ℕ, ◌<◌, List, [], ◌∷◌, map, true, false, codes, Ok, Err};
ghost use Rattle.wfc_model.specs.Legal.{banned_pin, kept_pin};
ghost use Rattle.wfc_model.specs.Raster.{raster_of};
ghost use Rattle.wfc_tileset.specs.Samples.{crossing, straight_lines};
ghost use Rattle.wfc_tileset.specs.Tiles.{TileSetView};
ghost use Rattle.wfc_tileset.specs.declared.TheConstants.{HOLE};
ghost use Rattle.wfc_pins.specs.PinView.{PinView};
ghost use Rattle.wfc_tiled.specs.Built.{HasManyPairs, checked_tile_map_pins, pair_fault, tile_pair_count, tile_map_pins, roomy_mask};
ghost use Rattle.wfc_tiled.specs.Mask.{MaskView, mask_of, plain_mask};
ghost use Rattle.wfc_tiled.specs.Maps.{IsLegalTileMap, IsNext, numbers_of_places, tile_map};
ghost use Rattle.wfc_tiled.specs.Subject.{HoldsPinAt, cell_column, cell_row};
ghost use Rattle.wfc_tiled.specs.Tiles.{tile_base_table, fitting_variants, tile_neighbour_table, tile_support_table, variant_weights};
ghost use Rattle.wfc_tiled.specs.Small.{faults_of_lines, faulty_lines, flat_neighbours, kept_line_banned_cross, four_places, four_tiles, four_with, line_and_cross};
ghost use Rattle.wfc_tiled.specs.Small.{three_by_two_grid, tile_pin_line, two_holes};
ghost use Rattle.wfc_tiled.specs.declared.reading.MaskFault.TheVariants as mask_faults;
ghost use Rattle.wfc_pins.specs.declared.fault.BuildFault.TheVariants as build_faults;
ghost use Rattle.wfc_problem.specs.declared.TheConstants.{MAX_PAIRS, NO_CELL};

/// What lies to the left, below, to the right and above, on a map that doesn't wrap, on one that
/// does, and on one that is one place wide.
pub fn neighbours_by_example()
    ensures flat { tile_neighbour_table two_holes false ≡ flat_neighbours }
    ensures wrapped { tile_neighbour_table two_holes true ≡ 1 ∷ 2 ∷ NO_CELL ∷ 2 ∷ NO_CELL ∷ NO_CELL
        ∷ 0 ∷ NO_CELL ∷ NO_CELL ∷ 0 ∷ 3 ∷ 0 ∷ 2 ∷ NO_CELL ∷ NO_CELL ∷ NO_CELL ∷ [] }
    ensures own_neighbour { tile_neighbour_table (plain_mask 1 2) true
        ≡ 0 ∷ 1 ∷ 0 ∷ 1 ∷ 1 ∷ 0 ∷ 1 ∷ 0 ∷ [] }
{}

/// Which variants may stand beside one, direction by direction, and what they weigh.
pub fn supports_by_example()
    ensures lines { tile_support_table straight_lines
        ≡ (0 ∷ []) ∷ [] ∷ (0 ∷ []) ∷ [] ∷ [] ∷ (1 ∷ []) ∷ [] ∷ (1 ∷ []) ∷ [] }
    ensures right { fitting_variants crossing 5 2 ≡ 9 ∷ [] }
    ensures left { fitting_variants crossing 9 0 ≡ 3 ∷ 5 ∷ [] }
    ensures below { fitting_variants crossing 10 1 ≡ 0 ∷ 4 ∷ [] }
    ensures above { fitting_variants crossing 4 3 ≡ 10 ∷ [] }
    ensures weights { variant_weights line_and_cross.tiles ≡ 3 ∷ 3 ∷ 5 ∷ [] }
{}

/// A pin keeps one variant at the cell of its place, and a ban takes one away.
pub fn pins_by_example()
    ensures base { tile_base_table straight_lines two_holes (kept_pin 0 1 1 ∷ banned_pin 2 0 0 ∷ [])
        ≡ true ∷ true ∷ false ∷ true ∷ false ∷ true ∷ true ∷ true ∷ [] }
    ensures read { tile_map_pins line_and_cross.tiles two_holes kept_line_banned_cross
        ≡ Ok (kept_pin 2 0 1 ∷ banned_pin 1 1 2 ∷ []) }
    ensures faults { map (λ line. tile_map_pins line_and_cross.tiles two_holes (line ∷ []))
        faulty_lines ≡ faults_of_lines }
{}

/// Where there are few enough pairs of a place and a variant, the answer is the mask, and the pins
/// that the lines mean; too many are refused before a line at fault.
pub fn builds_by_pairs()
    ensures counted { tile_pair_count line_and_cross two_holes ≡ 12 }
    ensures roomy { roomy_mask line_and_cross two_holes ≡ Ok two_holes }
    ensures pins { checked_tile_map_pins line_and_cross two_holes kept_line_banned_cross
        ≡ Ok (kept_pin 2 0 1 ∷ banned_pin 1 1 2 ∷ []) }
    ensures line { checked_tile_map_pins line_and_cross two_holes (tile_pin_line 3 true 1 0 (codes
        "x/0") ∷ []) ≡ Err (build_faults.PinInHole 3) }
    ensures crowded_mask { (set : TileSetView) (mask : MaskView) → MAX_PAIRS < tile_pair_count set
        mask → roomy_mask set mask ≡ Err (build_faults.TooLarge (tile_pair_count set mask)) }
    ensures crowded_pins { (set : TileSetView) (mask : MaskView) (lines : List PinView) →
        HasManyPairs set mask → checked_tile_map_pins set mask lines ≡ Err (pair_fault set mask) }
{}

/// Masks of grids, and their first faults.
pub fn masks_by_example()
    ensures read { mask_of (three_by_two_grid (codes ".#...#")) 3 2 ≡ Ok two_holes }
    ensures sides { mask_of (three_by_two_grid (codes "x#...#")) 2 3 ≡ Err (mask_faults.SizeDiffers
        3 2) }
    ensures symbol { mask_of (three_by_two_grid (codes ".#..x ")) 3 2 ≡ Err (mask_faults.BadSymbol 2
        2) }
    ensures holes { mask_of (three_by_two_grid (codes "######")) 3 2 ≡ Err mask_faults.AllHoles }
{}

/// A map is made of an assignment, and gives it again.
pub fn maps_by_example()
    ensures made { tile_map two_holes (7 ∷ 8 ∷ 9 ∷ 6 ∷ [])
        ≡ raster_of 3 2 (7 ∷ 65535 ∷ 8 ∷ 9 ∷ 6 ∷ 65535 ∷ []) }
    ensures read { numbers_of_places two_holes
        (raster_of 3 2 (7 ∷ 65535 ∷ 8 ∷ 9 ∷ 6 ∷ 65535 ∷ [])) ≡ 7 ∷ 8 ∷ 9 ∷ 6 ∷ [] }
{}

/// The next column or row is one further, and behind the last the first where the map wraps.
pub fn next_by_example()
    ensures forth { IsNext 3 false 1 2 }
    ensures back { IsNext 3 false 2 1 → ⊥ }
    ensures past { IsNext 3 false 2 3 → ⊥ }
    ensures flat { IsNext 3 false 2 0 → ⊥ }
    ensures wrapped { IsNext 3 true 2 0 }
    ensures wrapped_back { IsNext 3 true 0 2 → ⊥ }
    ensures too_soon { IsNext 3 true 1 0 → ⊥ }
    ensures own { IsNext 1 true 0 0 }
{}

/// A legal map with holes and a pin. It is none with two neighbours exchanged, across or down, where
/// it wraps, with a variant in a hole or a hole in a place, or with a pin in a hole.
pub fn legal_maps_by_example()
    ensures taken { IsLegalTileMap crossing four_places false (kept_pin 1 0 9 ∷ []) four_tiles }
    ensures across { IsLegalTileMap crossing four_places false [] (four_with HOLE 9 5 10 4) → ⊥ }
    ensures down { IsLegalTileMap crossing four_places false [] (four_with HOLE 5 9 4 10) → ⊥ }
    ensures wrapped { IsLegalTileMap crossing four_places true [] four_tiles → ⊥ }
    ensures in_a_hole { IsLegalTileMap crossing four_places false [] (four_with 5 5 9 10 4) → ⊥ }
    ensures no_tile { IsLegalTileMap crossing four_places false []
        (four_with HOLE 5 9 10 HOLE) → ⊥ }
    ensures other_pin { IsLegalTileMap crossing four_places false (kept_pin 0 0 9 ∷ [])
        four_tiles → ⊥ }
    ensures pin_in_a_hole { IsLegalTileMap crossing four_places false (banned_pin 2 0 9 ∷ [])
        four_tiles → ⊥ }
{}

/// A map one wide that wraps is its own neighbour across: a line that stands above itself may not
/// stand beside itself.
pub fn narrow_maps_by_example()
    ensures across { IsLegalTileMap straight_lines (plain_mask 1 2) true []
        (raster_of 1 2 (1 ∷ 1 ∷ [])) → ⊥ }
    ensures down { IsLegalTileMap straight_lines (plain_mask 2 1) true []
        (raster_of 2 1 (0 ∷ 0 ∷ [])) → ⊥ }
{}

/// Where the cells of a map with holes lie, and which pins a variant holds in the third column of
/// the second row.
pub fn cells_by_example()
    ensures columns { map (cell_column two_holes) (0 ∷ 1 ∷ 2 ∷ 3 ∷ []) ≡ 0 ∷ 2 ∷ 0 ∷ 1 ∷ [] }
    ensures rows { map (cell_row two_holes) (0 ∷ 1 ∷ 2 ∷ 3 ∷ []) ≡ 0 ∷ 0 ∷ 1 ∷ 1 ∷ [] }
    ensures kept { HoldsPinAt 2 1 5 (kept_pin 2 1 5) }
    ensures other { HoldsPinAt 2 1 6 (kept_pin 2 1 5) → ⊥ }
    ensures banned { HoldsPinAt 2 1 6 (banned_pin 2 1 5) }
    ensures banned_there { HoldsPinAt 2 1 5 (banned_pin 2 1 5) → ⊥ }
    ensures elsewhere { HoldsPinAt 2 1 6 (kept_pin 1 2 5) }
{}
