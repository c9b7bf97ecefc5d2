//! What the definitions give on small cases without symmetry. Each function does nothing; its
//! contract is the law.

ghost use Rattle.std.specs.Prelude.{◌≡◌, ℕ, List, [], ◌∷◌, map, true, false, codes, None, Some, Ok, Err};
ghost use Rattle.toml.specs.Data.{member, no_members, string};
ghost use Rattle.wfc_model.specs.Raster.{raster_of};
ghost use Rattle.wfc_picture.specs.declared.symbol.Kind.TheVariants as kinds;
ghost use Rattle.wfc_pins.specs.declared.fault.BuildFault.TheVariants as build;
ghost use Rattle.wfc_pins.specs.declared.pins.PinFault.TheVariants as pin_faults;
ghost use Rattle.wfc_render.specs.declared.form.Form.TheVariants.{P6, Grid, Cells};
ghost use Rattle.wfc_render.specs.declared.form.RenderFault.TheVariants as render_faults;
ghost use Rattle.wfc_tiled.specs.Small.{line_and_cross};
ghost use Rattle.wfc_tileset.specs.Samples.{crossing, small_pair_end, straight_lines};
ghost use Rattle.wfc_problem.specs.declared.TheConstants.{NO_CELL};
ghost use Rattle.wfc_box.specs.BoxPins.{box_pins_of};
ghost use Rattle.wfc_box.specs.BoxProblem.{all_beside_in_box, all_fitting_in_box, box_base_table, problem_of_box};
ghost use Rattle.wfc_box.specs.BoxText.{box_layout_of, box_text};
ghost use Rattle.wfc_box.specs.Boxes.{IsLegalBox, box_of, box_cell, frame_of, number_in_box, numbers_of_box, places_in};
ghost use Rattle.wfc_box.specs.Built.{box_pins_in};
ghost use Rattle.wfc_box.specs.Small.{banned_in, bad_box_lines, flat, kept_in, box_line, one_stack, pillar, single};
ghost use Rattle.wfc_box.specs.Small.{lower_alone, lower_in_an_array, pins_of_one, stack_data, twelve, two_box_lines, two_by_two, with_stacks, wrapped_frame};
ghost use Rattle.wfc_box.specs.StackDocument.{stack_end_from, stack_with, stacks_in};
ghost use Rattle.wfc_box.specs.Stacks.{IsStacked, stacked_pairs};
ghost use Rattle.wfc_box.specs.declared.fault.StackFault.TheVariants as stack_faults;
ghost use Rattle.wfc_box.specs.declared.fault.StackKey.TheVariants as keys;

/// Both variants of a declared stack are turned by the same action.
pub fn stacks_by_example()
    ensures turned { stacked_pairs crossing.tiles (one_stack ∷ [])
        ≡ (1, 10) ∷ (2, 11) ∷ (3, 8) ∷ (0, 9) ∷ (5, 10) ∷ (6, 9) ∷ (7, 8) ∷ (4, 11) ∷ [] }
    ensures allowed { IsStacked (stacked_pairs crossing.tiles (one_stack ∷ [])) 2 11 }
    ensures exchanged { IsStacked (stacked_pairs crossing.tiles (one_stack ∷ [])) 11 2 → ⊥ }
{}

/// Places are numbered layer by layer, and within a layer row by row.
pub fn places_by_example()
    ensures places { places_in flat ≡ 24 }
    ensures numbers { box_cell flat 2 0 1 ∷ box_cell flat 0 1 3 ∷ box_cell flat 1 1 2 ∷ []
        ≡ 8 ∷ 21 ∷ 16 ∷ [] }
{}

/// What lies to the left, below, to the right and above on the layer, and on the next layer and the
/// one before. Layers may wrap, but the box doesn't.
pub fn neighbours_by_example()
    ensures flat { all_beside_in_box flat 8 ≡ 7 ∷ 11 ∷ NO_CELL ∷ NO_CELL ∷ 14 ∷ 2 ∷ [] }
    ensures wrapped { all_beside_in_box wrapped_frame 8 ≡ 7 ∷ 11 ∷ 6 ∷ 11 ∷ 14 ∷ 2 ∷ [] }
    ensures bottom { all_beside_in_box wrapped_frame 3 ≡ 5 ∷ 0 ∷ 4 ∷ 0 ∷ 9 ∷ NO_CELL ∷ [] }
    ensures top { all_beside_in_box wrapped_frame 22 ≡ 21 ∷ 19 ∷ 23 ∷ 19 ∷ NO_CELL ∷ 16 ∷ [] }
{}

/// Which variants may stand beside one, direction by direction: above a lower one the upper one,
/// and below an upper one the lower one.
pub fn supports_by_example()
    ensures lower { all_fitting_in_box straight_lines ((0, 1) ∷ []) 0
        ≡ (0 ∷ []) ∷ [] ∷ (0 ∷ []) ∷ [] ∷ (1 ∷ []) ∷ [] ∷ [] }
    ensures upper { all_fitting_in_box straight_lines ((0, 1) ∷ []) 1
        ≡ [] ∷ (1 ∷ []) ∷ [] ∷ (1 ∷ []) ∷ [] ∷ (0 ∷ []) ∷ [] }
    ensures across { all_fitting_in_box crossing ((5, 10) ∷ (9, 5) ∷ []) 5
        ≡ [] ∷ [] ∷ (9 ∷ []) ∷ [] ∷ (10 ∷ []) ∷ (9 ∷ []) ∷ [] }
    ensures down { all_fitting_in_box crossing ((5, 10) ∷ (9, 5) ∷ []) 10
        ≡ [] ∷ (0 ∷ 4 ∷ []) ∷ [] ∷ [] ∷ [] ∷ (5 ∷ []) ∷ [] }
{}

/// A problem has a cell for each place and six directions, and each variant weighs what its tile does.
pub fn problems_by_example()
    ensures cells { (problem_of_box line_and_cross [] flat []).cells ≡ 24 }
    ensures dirs { (problem_of_box line_and_cross [] flat []).dirs ≡ 6 }
    ensures weights { (problem_of_box line_and_cross [] flat []).weights ≡ 3 ∷ 3 ∷ 5 ∷ [] }
{}

/// A pin keeps one variant at the cell of its place, and a ban takes one away.
pub fn pins_by_example()
    ensures base { box_base_table straight_lines two_by_two (kept_in 1 0 1 1 ∷ banned_in 0 0 1 1 ∷
        []) ≡ true ∷ true ∷ true ∷ true ∷ true ∷ false ∷ false ∷ true ∷ [] }
    ensures read { box_pins_of (codes "#\npin 2 05 1 x/0\r\n\nban 1 0 3 y") ≡ Ok
        (box_line 2 true 2 5 1 (codes "x/0") ∷ box_line 4 false 1 0 3 (codes "y") ∷ []) }
    ensures bad { box_pins_of (codes "pin 0 1 2 a\npin 0 1 a") ≡ Err (pin_faults.BadLine 2) }
    ensures meant { box_pins_in line_and_cross.tiles flat two_box_lines
        ≡ Ok (kept_in 2 0 3 1 ∷ banned_in 0 1 2 2 ∷ []) }
    ensures faults { map pins_of_one bad_box_lines ≡ Err (build.PinOutside 1)
        ∷ Err (build.PinOutside 2) ∷ Err (build.PinOutside 3) ∷ Err (build.UnknownSymbol 5) ∷ [] }
{}

/// What stands where in a box, and that a box and its numbers give each other.
pub fn boxes_by_example()
    ensures numbers { number_in_box twelve 2 0 1 ∷ number_in_box twelve 0 1 0 ∷ [] ≡ 9 ∷ 4 ∷ [] }
    ensures read { numbers_of_box (frame_of 3 2 2 false) twelve
        ≡ 1 ∷ 2 ∷ 3 ∷ 4 ∷ 5 ∷ 6 ∷ 7 ∷ 8 ∷ 9 ∷ 10 ∷ 11 ∷ 12 ∷ [] }
    ensures made { box_of (frame_of 3 2 2 true)
        (1 ∷ 2 ∷ 3 ∷ 4 ∷ 5 ∷ 6 ∷ 7 ∷ 8 ∷ 9 ∷ 10 ∷ 11 ∷ 12 ∷ []) ≡ twelve }
{}

/// The stacks of documents, and their faults: in a stack the lower end is looked at first, and in an
/// end the name before the action.
pub fn documents_by_example()
    ensures none { stacks_in line_and_cross.tiles (Some no_members) ≡ Ok [] }
    ensures read { stacks_in line_and_cross.tiles (Some (with_stacks (stack_data (codes "line 1")
        (codes "x") ∷ []))) ≡ Ok (stack_with (small_pair_end 0 1) (small_pair_end 1 0) ∷ []) }
    ensures not_array { stacks_in line_and_cross.tiles
        (Some (member (codes "stack") (string []) no_members)) ≡ Err stack_faults.NotArray }
    ensures not_table { stacks_in line_and_cross.tiles (Some (with_stacks
        (stack_data (codes "x") (codes "x") ∷ string [] ∷ []))) ≡ Err (stack_faults.NotTable 1) }
    ensures missing { stacks_in line_and_cross.tiles (Some (with_stacks (lower_alone ∷ [])))
        ≡ Err (stack_faults.MissingKey 0 keys.Upper) }
    ensures not_text { stacks_in line_and_cross.tiles (Some (with_stacks
        (stack_data (codes "x") (codes "x") ∷ lower_in_an_array ∷ [])))
        ≡ Err (stack_faults.NotText 1 keys.Lower) }
    ensures unknown { stacks_in line_and_cross.tiles (Some (with_stacks
        (stack_data (codes "y") (codes "x 9") ∷ []))) ≡ Err (stack_faults.UnknownTile 0) }
    ensures turn { stacks_in line_and_cross.tiles (Some (with_stacks
        (stack_data (codes "line 0") (codes "x 9") ∷ []))) ≡ Err (stack_faults.BadTurn 0) }
    ensures name_first { stack_end_from line_and_cross.tiles 3 (codes "y 9")
        ≡ Err (stack_faults.UnknownTile 3) }
{}

/// The forms of boxes, of which one that the kind lacks comes before too many pixels, and the text of
/// one.
pub fn texts_by_example()
    ensures grid { box_layout_of kinds.Grid None 3 2 4 2 ≡ Ok Grid }
    ensures cells { box_layout_of kinds.Grid (Some Cells) 3 2 4 2 ≡ Ok Cells }
    ensures colours { box_layout_of (kinds.Ppm 255) None 3 2 4 2 ≡ Ok Cells }
    ensures other { box_layout_of (kinds.Ppm 255) (Some P6) 3 2 4 2
        ≡ Err render_faults.FormDiffers }
    ensures no_grid { box_layout_of kinds.Plain (Some Grid) 3 2 4 1
        ≡ Err render_faults.FormDiffers }
    ensures form_first { box_layout_of (kinds.Ppm 255) (Some P6) 4096 4096 256 64
        ≡ Err render_faults.FormDiffers }
    ensures most { box_layout_of kinds.Plain None 4096 64 64 1 ≡ Ok Cells }
    ensures large { box_layout_of kinds.Plain None 4096 64 16 3
        ≡ Err (render_faults.TooLarge 37748736) }
    ensures text { box_text Cells straight_lines (raster_of 2 1 (0 ∷ 1 ∷ []) ∷ raster_of 2 1 (1 ∷ 1
        ∷ []) ∷ []) ≡ codes "layer 0\n0 1\nlayer 1\n1 1\n" }
{}

/// A box is legal where each upper variant may stand on the lower one, and not the other way round;
/// it has as many layers as its frame says, and a pin holds in its layer.
pub fn legal_boxes()
    ensures upright { IsLegalBox straight_lines ((0, 1) ∷ []) pillar (kept_in 0 0 1 1 ∷ [])
        (single 0 ∷ single 1 ∷ []) }
    ensures exchanged { IsLegalBox straight_lines ((0, 1) ∷ []) pillar []
        (single 1 ∷ single 0 ∷ []) → ⊥ }
    ensures shallow { IsLegalBox straight_lines ((0, 1) ∷ []) pillar [] (single 0 ∷ []) → ⊥ }
    ensures other_layer { IsLegalBox straight_lines ((0, 1) ∷ []) pillar (kept_in 0 0 0 1 ∷ [])
        (single 0 ∷ single 1 ∷ []) → ⊥ }
{}
