//! What the definitions give on small cases without symmetry. Each function does nothing; its
//! contract is the law.

ghost use Rattle.std.specs.Prelude.{◌≡◌, ℕ, ◌∷◌, true, false, List, [], codes, None, Some, Ok, Err};
ghost use Rattle.wfc_model.specs.Legal.{banned_pin, kept_pin};
ghost use Rattle.wfc_model.specs.Raster.{raster_of};
ghost use Rattle.wfc_overlap.specs.Sample.{output_with};
ghost use Rattle.wfc_overlap.specs.Small.{window_pin_line};
ghost use Rattle.wfc_blocks.specs.Blocks.{HasWindow, area_with, block_at, block_count, block_from, blocks_across};
ghost use Rattle.wfc_blocks.specs.Blocks.{blocks_along, blocks_down, blocks_of, lies_in, output_of_block, stride, whole_of};
ghost use Rattle.wfc_blocks.specs.Canvas.{empty_canvas, canvas_picture, lines_of_block, number_set, pin_in_block, pins_of_block, set_line};
ghost use Rattle.wfc_search.specs.Small.{scanline};
ghost use Rattle.wfc_blocks.specs.Growth.{AreNumbersBelow, IsGrowable, IsSetBefore, seed_of_block};
ghost use Rattle.wfc_blocks.specs.Grown.{growable_of, grown_of};
ghost use Rattle.wfc_blocks.specs.Promises.{HasSpentBlock};
ghost use Rattle.wfc_blocks.specs.Small.{block_with, board_set, first_is_a, first_set, five_by_four, five_terms, lone_pixels, nine_set, one_board, one_board_terms, right_block_lines};
ghost use Rattle.wfc_blocks.specs.Small.{stuck_board, three_pins, twenty_texts, two_boards, two_file_lines, two_letters, two_pins};
ghost use Rattle.wfc_blocks.specs.declared.grown.Grown.TheVariants as grown;
ghost use Rattle.wfc_blocks.specs.declared.grown.GrowFault.TheVariants as faults;

/// A block begins so far behind the one before that they share one pixel less than a window is
/// wide. Along a side there are as many as hold all starts of windows, the last one perhaps in
/// part, and one where the side is no longer than a block.
pub fn blocks_along_sides()
    ensures strides { stride 2 3 ∷ stride 1 3 ∷ stride 3 3 ∷ [] ≡ 2 ∷ 3 ∷ 1 ∷ [] }
    ensures twos { blocks_along 2 2 4 ≡ 3 }
    ensures exact { blocks_along 2 3 5 ≡ 2 }
    ensures rest { blocks_along 2 3 6 ≡ 3 }
    ensures apart { blocks_along 1 3 7 ≡ 3 }
    ensures one { blocks_along 2 9 5 ≡ 1 }
    ensures least { blocks_along 2 2 2 ≡ 1 }
{}

/// Five columns and four rows in blocks of three for windows of two: two in a row, two rows. The
/// lower two end at the area's edge. With windows of one pixel they share none, and the right ones
/// end at the edge too.
pub fn blocks_of_five_by_four()
    ensures counts { blocks_across 2 five_by_four ∷ blocks_down 2 five_by_four
        ∷ block_count 2 (area_with 7 4 3) ∷ [] ≡ 2 ∷ 2 ∷ 6 ∷ [] }
    ensures shared { blocks_of 2 five_by_four ≡ block_with 0 0 0 3 3 ∷ block_with 1 2 0 3 3
        ∷ block_with 2 0 2 3 2 ∷ block_with 3 2 2 3 2 ∷ [] }
    ensures apart { blocks_of 1 five_by_four ≡ block_with 0 0 0 3 3 ∷ block_with 1 3 0 2 3
        ∷ block_with 2 0 3 3 1 ∷ block_with 3 3 3 2 1 ∷ [] }
    ensures steps_of_one { block_at 3 five_by_four 4 ≡ block_with 4 1 1 3 3 }
    ensures single { blocks_of 2 (area_with 5 4 9) ≡ block_with 0 0 0 5 4 ∷ [] }
    ensures whole { whole_of five_by_four ≡ output_with 5 4 false }
    ensures part { output_of_block (block_at 2 five_by_four 2) ≡ output_with 3 2 false }
{}

/// A block begins at its first pixel and ends before its sides do. A window lies in it from there
/// to where it just fits.
pub fn pixels_of_a_block()
    ensures first { lies_in (block_at 2 five_by_four 2) 0 2 ≡ true }
    ensures last { lies_in (block_at 2 five_by_four 2) 2 3 ≡ true }
    ensures above { lies_in (block_at 2 five_by_four 2) 0 1 ≡ false }
    ensures beside { lies_in (block_at 2 five_by_four 2) 3 2 ≡ false }
    ensures below { lies_in (block_at 2 five_by_four 2) 2 4 ≡ false }
    ensures before { lies_in (block_at 2 five_by_four 3) 1 3 ≡ false }
    ensures window { HasWindow 2 (block_at 2 five_by_four 3) 3 2 }
    ensures past { HasWindow 2 (block_at 2 five_by_four 3) 4 2 → ⊥ }
    ensures under { HasWindow 2 (block_at 2 five_by_four 3) 3 3 → ⊥ }
    ensures left_of { HasWindow 2 (block_at 2 five_by_four 3) 1 2 → ⊥ }
    ensures over { HasWindow 2 (block_at 2 five_by_four 3) 3 1 → ⊥ }
{}

/// Of a canvas whose first block is set, that block has the picture's numbers, and none stands
/// elsewhere.
pub fn set_pixels()
    ensures set { first_set 2 1 ≡ Some 16 }
    ensures right { first_set 3 1 ≡ None }
    ensures below { first_set 2 3 ≡ None }
    ensures empty { empty_canvas 0 0 ≡ None }
    ensures number { number_set (first_set 1 2) ≡ 18 }
    ensures picture { canvas_picture (area_with 4 2 3) first_set
        ≡ raster_of 4 2 (11 ∷ 12 ∷ 13 ∷ 0 ∷ 14 ∷ 15 ∷ 16 ∷ 0 ∷ []) }
{}

/// The pins of the block to the right: what is set in its first column, from above, and then the
/// file's pin and ban that lie in it, all seen from its first pixel. Below, the first row is set.
pub fn pins_of_blocks()
    ensures right { pins_of_block three_pins first_set (block_at 2 five_by_four 1) ≡ kept_pin 0 0 13
        ∷ kept_pin 0 1 16 ∷ kept_pin 0 2 19 ∷ banned_pin 2 1 7 ∷ kept_pin 0 2 9 ∷ [] }
    ensures below { pins_of_block two_pins first_set (block_at 2 five_by_four 2)
        ≡ kept_pin 0 0 17 ∷ kept_pin 1 0 18 ∷ kept_pin 2 0 19 ∷ kept_pin 1 1 5 ∷ [] }
    ensures corner { pins_of_block [] first_set (block_at 2 five_by_four 3) ≡ kept_pin 0 0 19 ∷ [] }
    ensures first { pins_of_block (kept_pin 2 1 4 ∷ []) empty_canvas (block_at 2 five_by_four 0)
        ≡ kept_pin 2 1 4 ∷ [] }
    ensures moved { pin_in_block (block_from five_by_four 0 1 2) (banned_pin 4 3 8)
        ≡ banned_pin 3 1 8 }
{}

/// The same as lines of a pins file: those of set pixels have the line 0 and the text of their
/// symbol, and those of the file keep their line and their symbol.
pub fn lines_of_blocks()
    ensures set { set_line twenty_texts 2 1 19 ≡ window_pin_line 0 true 2 1 (codes "t") }
    ensures right { lines_of_block twenty_texts two_file_lines first_set (block_at 2 five_by_four 1)
        ≡ right_block_lines }
{}

/// The seed of a block is the seed and its number, modulo 2^64.
pub fn seeds_of_blocks()
    ensures more { seed_of_block 7 (block_at 2 five_by_four 3) ≡ 10 }
    ensures over { seed_of_block 18446744073709551615 (block_at 2 five_by_four 3) ≡ 2 }
{}

/// Growth whole. In blocks of two by two a board whose first pixel is kept is set pixel by pixel.
/// Where one board alone was learned, the second block is stuck at what the first set: `b` above
/// `a`.
pub fn grown_boards()
    ensures map { grown_of two_boards two_letters (area_with 3 3 2) first_is_a scanline 0 7
        ≡ Ok (grown.Map (raster_of 3 3 (0 ∷ 1 ∷ 0 ∷ 1 ∷ 0 ∷ 1 ∷ 0 ∷ 1 ∷ 0 ∷ []))) }
    ensures stuck { grown_of one_board two_letters (area_with 3 2 2) [] scanline 0 7
        ≡ Ok (grown.Stuck stuck_board) }
    ensures below { AreNumbersBelow 2 two_boards }
    ensures not_below { AreNumbersBelow 1 two_boards → ⊥ }
{}

/// Before the first block nothing is set, and before the second what the first set.
pub fn canvases_before_blocks()
    ensures first { IsSetBefore (area_with 3 2 2) one_board_terms (block_with 0 0 0 2 2)
        empty_canvas }
    ensures second { IsSetBefore (area_with 3 2 2) one_board_terms (block_with 1 1 0 2 2)
        board_set }
    ensures not_yet { IsSetBefore (area_with 3 2 2) one_board_terms (block_with 0 0 0 2 2)
        board_set → ⊥ }
    ensures no_longer { IsSetBefore (area_with 3 2 2) one_board_terms (block_with 1 1 0 2 2)
        empty_canvas → ⊥ }
{}

/// A block whose run is spent: each choice fails. Where the second of two blocks is stuck, none is.
pub fn spent_blocks()
    ensures spent { HasSpentBlock (area_with 3 3 3) five_terms }
    ensures stuck { HasSpentBlock (area_with 3 2 2) one_board_terms → ⊥ }
{}

/// What isn't grown: a side below that of a window, which comes before all else, too many blocks, a
/// pin outside, which comes before its symbol, and a symbol that there isn't.
pub fn refused_growth()
    ensures narrow { grown_of one_board two_letters (area_with 1 99 2)
        (window_pin_line 4 true 3 0 (codes "a") ∷ []) scanline 0 7 ≡ Err faults.SizeBelowN }
    ensures many { grown_of one_board two_letters (area_with 10 10 2) (window_pin_line 4 true 10 0
        (codes "a") ∷ []) scanline 0 7 ≡ Err (faults.TooManyBlocks 81) }
    ensures most { grown_of one_board two_letters (area_with 9 9 2)
        (window_pin_line 4 true 9 0 (codes "c") ∷ []) scanline 0 7 ≡ Err (faults.PinOutside 4) }
    ensures unknown { grown_of one_board two_letters (area_with 9 9 2)
        (window_pin_line 5 false 8 8 (codes "c") ∷ []) scanline 0 7 ≡ Err (faults.UnknownSymbol 5) }
{}

/// The pairs of a pixel and a pattern are counted in the first block, of 256 by 1,024 pixels or of
/// 481 by 545, each with 32 patterns: as many as a problem may have, and 32 more. Too many blocks
/// come before too many pairs, and these before a line at fault.
pub fn pairs_of_a_block()
    ensures most { growable_of (lone_pixels 32) two_letters (area_with 256 4000 1024) first_is_a
        ≡ Ok (kept_pin 0 0 0 ∷ []) }
    ensures crowded { grown_of (lone_pixels 32) two_letters (area_with 481 4000 545)
        (window_pin_line 4 true 481 0 (codes "a") ∷ []) scanline 0 7
        ≡ Err (faults.TooLarge 8388640) }
    ensures many { grown_of (lone_pixels 40) two_letters (area_with 4000 4096 500)
        (window_pin_line 4 true 4000 0 (codes "a") ∷ []) scanline 0 7
        ≡ Err (faults.TooManyBlocks 72) }
    ensures many_fewer { grown_of (lone_pixels 40) two_letters (area_with 4000 4000 500)
        (window_pin_line 4 true 4000 0 (codes "a") ∷ []) scanline 0 7
        ≡ Err (faults.TooLarge 10000000) }
    ensures growable { IsGrowable (lone_pixels 32) (area_with 256 4000 1024) }
    ensures not_growable { IsGrowable (lone_pixels 32) (area_with 481 4000 545) → ⊥ }
{}
