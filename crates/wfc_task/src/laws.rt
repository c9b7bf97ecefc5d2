//! Laws of the definitions, each a function with no body whose contract is the law. They run nothing.

ghost use Rattle.std.specs.Prelude.{Err, List, None, Ok, Some, [], codes, false, length, true, ℕ, ◌↔◌, ◌∷◌, ◌≡◌};
ghost use Rattle.wfc_grid.specs.Grid.{GridView};
ghost use Rattle.wfc_model.specs.Raster.{Raster};
ghost use Rattle.wfc_outside.specs.Folder.{File};
ghost use Rattle.wfc_outside.specs.Gives.{result_map};
ghost use Rattle.wfc_outside.specs.declared.whole.ReadFault.TheVariants.{Missing, TooLong};
ghost use Rattle.wfc_overlap.specs.Sample.{output_with};
ghost use Rattle.wfc_picture.specs.Small.{rgb};
ghost use Rattle.wfc_picture.specs.declared.symbol.Kind.TheVariants as kinds;
ghost use Rattle.wfc_picture.specs.declared.symbol.Symbol.TheVariants.{Char};
ghost use Rattle.wfc_pins.specs.PinView.{PinView};
ghost use Rattle.wfc_plan.specs.Plan.{or_refuse, outcome};
ghost use Rattle.wfc_plan.specs.declared.fault.Fault.TheVariants.{Unread};
ghost use Rattle.wfc_plan.specs.declared.fault.Refusal.TheVariants as refusals;
ghost use Rattle.wfc_plan.specs.declared.fault.Source.TheVariants.{Mask, Picture, Pins, Sample};
ghost use Rattle.wfc_problem.specs.Assignment.{IsLegalAssignment};
ghost use Rattle.wfc_problem.specs.Network.{Network};
ghost use Rattle.wfc_render.specs.Layout.{layout_of};
ghost use Rattle.wfc_render.specs.declared.form.Form.TheVariants.{Grid, P6};
ghost use Rattle.wfc_task.specs.Maps.{IsLegal, IsLegalBy, asked_output, map_of, rules_of};
ghost use Rattle.wfc_task.specs.Posed.{HoldsOfPosed, OfTiles, Posed, posed_plan};
ghost use Rattle.wfc_task.specs.SamplePlans.{pins_plan, sample_plan, sampled_plan};
ghost use Rattle.wfc_task.specs.Sampled.{shown_by_grid, shown_by_ppm};
ghost use Rattle.wfc_task.specs.Small.{IsLong, IsReadTooLong, file, sample_asked, tiles_asked, wide_asked, windows_asked, with_pins, with_sample};
ghost use Rattle.wfc_task.specs.Small.{inner_windows, reflected_windows, small_lesson, wrapped_windows};
ghost use Rattle.wfc_task.specs.Small.{character_pair, colour_pair, wrapped_asked};
ghost use Rattle.wfc_task.specs.Sources.{window_side_of};
ghost use Rattle.wfc_tileset.specs.Document.{is_ppm_name};
ghost use Rattle.wfc_task.specs.TilePlans.{document_plan, mask_plan, mask_plan_by, tile_picture_plan};
ghost use Rattle.wfc_task.specs.TileSteps.{mask_in, posed_tiles, tile_layout};
ghost use Rattle.wfc_task.specs.Tiling.{HasSides, mask_or_whole};
ghost use Rattle.wfc_tiled.specs.Built.{tile_map_problem};
ghost use Rattle.wfc_tiled.specs.Maps.{IsLegalTileMap};
ghost use Rattle.wfc_tiled.specs.Mask.{MaskView, mask_of, plain_mask};
ghost use Rattle.wfc_tiled.specs.Tiles.{problem_of_tiles};
ghost use Rattle.wfc_tileset.specs.Pictures.{kind_of, side_of};
ghost use Rattle.wfc_tileset.specs.Tiles.{TileSetView};
ghost use Rattle.wfc_words.specs.RequestView.{RequestView};
ghost use Rattle.wfc_words.specs.declared.kinds.SourceModel.TheVariants.{Overlap, Tiles};

/// The problem of a request is made exactly where it is that of the files.
pub fn posed_problems_are_given()
    ensures problem { (asked : RequestView) (files : List File) (P : Network) →
        (outcome (posed_plan asked) files ≡ Ok P) ↔ Posed asked files P }
{}

/// Names of pictures in colours, by example.
pub fn picture_names_by_example()
    ensures small { is_ppm_name (codes "a.ppm") ≡ true }
    ensures large { is_ppm_name (codes "a.PPM") ≡ true }
    ensures mixed { is_ppm_name (codes "a.Ppm") ≡ false }
    ensures inside { is_ppm_name (codes "ppm.txt") ≡ false }
{}

/// A legal assignment of the problem of a request makes a legal map, and where there is a legal map there is a legal
/// assignment, whatever the map is made of.
pub fn maps_are_assignments()
    ensures made { HoldsOfPosed (λ asked files P posed. (a : List ℕ) → IsLegalAssignment P a →
        IsLegal asked files P posed (map_of asked files P posed a)) }
    ensures there { HoldsOfPosed (λ asked files P posed. (m : Raster) →
        IsLegal asked files P posed m → (a : List ℕ) × IsLegalAssignment P a) }
{}

/// A file with a byte more than 16,777,216 is refused as too long in each role: a sample, a tile set, the picture of a tile, a
/// pins file and a mask.
pub fn long_files_are_refused()
    ensures sample { (asked : RequestView) (files : List File) → IsLong files asked.file
        → outcome (sampled_plan asked) files ≡ Err (Unread Sample TooLong) }
    ensures document { (asked : RequestView) (files : List File) → IsLong files asked.file
        → outcome (document_plan asked) files ≡ Err (Unread Sample TooLong) }
    ensures picture { (set : TileSetView) (files : List File) (name : List ℕ) → IsLong files name
        → IsReadTooLong (tile_picture_plan (Some name) set) files (Picture (length set.pictures)) }
    ensures pins { (files : List File) (name : List ℕ) → IsLong files name
        → outcome (pins_plan (Some name)) files ≡ Err (Unread Pins TooLong) }
    ensures mask { (asked : RequestView) (files : List File) (name : List ℕ) → IsLong files name
        → outcome (mask_plan_by (Some name) asked) files ≡ Err (Unread Mask TooLong) }
{}

/// A mask has the sides of the map that is asked for, and not the other way round.
pub fn sides_of_masks()
    ensures sides { HasSides wide_asked (plain_mask 3 2) }
    ensures exchanged { HasSides wide_asked (plain_mask 2 3) → ⊥ }
    ensures higher { HasSides wide_asked (plain_mask 3 1) → ⊥ }
    ensures whole { mask_or_whole wide_asked None ≡ plain_mask 3 2 }
    ensures given { (mask : MaskView) → mask_or_whole wide_asked (Some mask) ≡ mask }
{}

/// What a request asks of windows and of its map, by example: each side, count and flag stands where it belongs.
pub fn requests_ask_for_maps()
    ensures rules { rules_of windows_asked
        ≡ record { n = 3; symmetry = 5; wrap_in = true; wrap_out = false } }
    ensures output { asked_output windows_asked ≡ output_with 7 4 false }
    ensures side { window_side_of (Overlap 3) ≡ 3 }
    ensures no_side { window_side_of Tiles ≡ 0 }
{}

/// And what it asks of a tile map: its sides, and that of its two flags which is of the map.
pub fn requests_ask_for_tile_maps()
    ensures problem { (set : TileSetView) (mask : MaskView) (lines : List PinView) →
        posed_tiles wrapped_asked set mask lines
        ≡ or_refuse refusals.Build (tile_map_problem set mask true lines) }
    ensures given { (files : List File) (P : Network) (of : OfTiles wrapped_asked files P) →
        P ≡ problem_of_tiles of.set of.mask true of.problem.pins }
    ensures maps { (files : List File) (P : Network) (of : OfTiles wrapped_asked files P)
        (m : Raster) → IsLegalBy Tiles wrapped_asked files P of m
        ↔ IsLegalTileMap of.set of.mask true of.problem.pins m }
    ensures mask { (grid : GridView) →
        mask_in wrapped_asked grid ≡ or_refuse refusals.Mask (mask_of grid 7 4) }
    ensures layout { (set : TileSetView) → tile_layout set wrapped_asked ≡ or_refuse refusals.Render
        (layout_of (kind_of set.pictures) (Some P6) 7 4 (side_of set.pictures)) }
{}

/// What a sample shows, by example: a picture in colours its greatest sample too, and a grid.
pub fn samples_show_symbols()
    ensures ppm { shown_by_ppm colour_pair
        ≡ record { kind = kinds.Ppm 9; width = 2; symbols = rgb 1 2 3 ∷ rgb 9 5 4 ∷ [] } }
    ensures grid { shown_by_grid character_pair
        ≡ record { kind = kinds.Grid; width = 2; symbols = Char 120 ∷ Char 121 ∷ [] } }
{}

/// What a small sample teaches, by example: its palette, and its windows row by row, one at each pixel where the sample wraps, whether
/// the map does or not.
pub fn small_samples_teach()
    ensures plain { outcome (sample_plan (sample_asked 2 Grid)) (with_sample [])
        ≡ Ok (small_lesson inner_windows (1 ∷ 1 ∷ [])) }
    ensures wrapped { outcome (sample_plan (record (sample_asked 2 Grid) { wrap_in = true }))
        (with_sample []) ≡ Ok (small_lesson wrapped_windows (1 ∷ 2 ∷ 1 ∷ 1 ∷ 1 ∷ [])) }
    ensures wide { outcome (sample_plan (record (sample_asked 2 Grid) { wrap_out = true }))
        (with_sample []) ≡ Ok (small_lesson inner_windows (1 ∷ 1 ∷ [])) }
    ensures images { outcome (sample_plan (record (sample_asked 2 Grid) { symmetry = 2 }))
        (with_sample []) ≡ Ok (small_lesson reflected_windows (1 ∷ 1 ∷ 1 ∷ 1 ∷ [])) }
{}

/// What a mask and a pins file say, by example, each the file of its own name: the hole of a map of two by one, and the one symbol that
/// its second pixel may have.
pub fn small_files_are_read()
    ensures mask { outcome (mask_plan tiles_asked) (file (codes "m") (codes "#.\n") ∷ [])
        ≡ Ok (record { width = 2; height = 1; places = 1 ∷ [] }) }
    ensures no_mask { outcome (mask_plan tiles_asked) (file (codes "p") (codes "#.\n") ∷ [])
        ≡ Err (Unread Mask Missing) }
    ensures pin { result_map (λ (P : Network). P.base) (outcome (posed_plan (sample_asked 1 Grid))
        (with_pins (codes "pin 1 0 y\n"))) ≡ Ok (true ∷ true ∷ false ∷ true ∷ []) }
{}
