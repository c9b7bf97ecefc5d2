//! What the definitions give on small cases without symmetry. Each function does nothing; its
//! contract is the law.

ghost use Rattle.std.specs.Prelude.{◌≡◌, ℕ, ◌<◌, ◌≤◌, List, [], ◌∷◌, true, false, codes, Ok, Err};
ghost use Rattle.wfc_model.specs.Legal.{banned_pin, kept_pin};
ghost use Rattle.wfc_model.specs.Raster.{raster_of};
ghost use Rattle.wfc_overlap.specs.Bridge.{AreInside, HasWindowsOf, IsRoom, IsTaughtBy, numbers_of_windows, window_pair_count, picture_of};
ghost use Rattle.wfc_overlap.specs.Built.{IsCrowded, picture_problem, checked_picture_pins, picture_pin, picture_pins, problem_by_lines, texts_of};
ghost use Rattle.wfc_overlap.specs.Sample.{Output, output_with, problem_of_sample};
ghost use Rattle.wfc_places.specs.Steps.{IsStepFrom};
ghost use Rattle.wfc_overlap.specs.Subject.{HoldsPin, IsPlaceOf, place_cell};
ghost use Rattle.wfc_overlap.specs.Small.{window_pin_line, no_pattern, one_pattern, rules_with};
ghost use Rattle.wfc_overlap.specs.Small.{blank_and_letter, kept_and_banned, kept_blank, six_numbers, three_by_two, three_symbols};
ghost use Rattle.wfc_overlap.specs.Small.{twelve_flags, twelve_neighbours, two_patterns, unknown_first};
ghost use Rattle.wfc_pattern.specs.Patterns.{PatternsView};
ghost use Rattle.wfc_picture.specs.declared.symbol.Symbol.{Symbol};
ghost use Rattle.wfc_pins.specs.PinView.{PinView};
ghost use Rattle.wfc_pins.specs.declared.fault.BuildFault.TheVariants.{SizeBelowN, PinOutside, UnknownSymbol, TooLarge};
ghost use Rattle.wfc_problem.specs.declared.TheConstants.{MAX_PAIRS, NO_CELL};

/// Two cells side by side, and a `2` pinned to the middle of the upper row, or a `6` banned from
/// the lower right corner.
pub fn two_cells()
    ensures cells { (problem_of_sample two_patterns three_by_two []).cells ≡ 2 }
    ensures dirs { (problem_of_sample two_patterns three_by_two []).dirs ≡ 4 }
    ensures weights { (problem_of_sample two_patterns three_by_two []).weights ≡ 3 ∷ 1 ∷ [] }
    ensures neighbours { (problem_of_sample two_patterns three_by_two []).neighbours
        ≡ NO_CELL ∷ NO_CELL ∷ 1 ∷ NO_CELL ∷ 0 ∷ NO_CELL ∷ NO_CELL ∷ NO_CELL ∷ [] }
    ensures supports { (problem_of_sample two_patterns three_by_two []).supports
        ≡ [] ∷ [] ∷ (1 ∷ []) ∷ [] ∷ (0 ∷ []) ∷ [] ∷ [] ∷ [] ∷ [] }
    ensures kept { (problem_of_sample two_patterns three_by_two (kept_pin 1 0 2 ∷ [])).base
        ≡ true ∷ false ∷ false ∷ true ∷ [] }
    ensures banned { (problem_of_sample two_patterns three_by_two (banned_pin 2 1 6 ∷ [])).base
        ≡ true ∷ true ∷ true ∷ false ∷ [] }
    ensures both { (problem_of_sample two_patterns three_by_two
        (kept_pin 1 0 2 ∷ banned_pin 0 1 3 ∷ [])).base ≡ false ∷ false ∷ false ∷ true ∷ [] }
{}

/// An output of three by four that wraps: a cell for each pixel, and beside each the four around
/// it. A `2` pinned to its first pixel is met where the one pattern has its upper right number
/// there, or stands clear of it.
pub fn wrapped_cells()
    ensures neighbours { (problem_of_sample (no_pattern 2) (output_with 3 4 true) []).neighbours
        ≡ twelve_neighbours }
    ensures base { (problem_of_sample one_pattern (output_with 3 4 true) (kept_pin 0 0 2 ∷ [])).base
        ≡ twelve_flags }
    ensures own_neighbour { (problem_of_sample (no_pattern 1) (output_with 1 2 true) []).neighbours
        ≡ 0 ∷ 1 ∷ 0 ∷ 1 ∷ 1 ∷ 0 ∷ 1 ∷ 0 ∷ [] }
{}

/// A picture is painted by an assignment and gives it again; where the output wraps, each place
/// paints its own pixel.
pub fn small_pictures()
    ensures picture { picture_of two_patterns three_by_two (0 ∷ 1 ∷ []) ≡ six_numbers }
    ensures numbers { numbers_of_windows two_patterns three_by_two six_numbers ≡ 0 ∷ 1 ∷ [] }
    ensures wrapped { picture_of two_patterns (output_with 3 2 true) (0 ∷ 1 ∷ 0 ∷ 1 ∷ 1 ∷ 0 ∷ [])
        ≡ raster_of 3 2 (1 ∷ 2 ∷ 1 ∷ 2 ∷ 2 ∷ 1 ∷ []) }
    ensures taken { HasWindowsOf two_patterns three_by_two (0 ∷ 1 ∷ []) six_numbers }
    ensures refused { HasWindowsOf two_patterns three_by_two (1 ∷ 0 ∷ []) six_numbers → ⊥ }
{}

/// The sides of an output are to have room for a window, and its pairs of a place and a pattern are
/// limited.
pub fn outputs_with_room()
    ensures flat { window_pair_count two_patterns (output_with 4 3 false) ≡ 12 }
    ensures wrapped { window_pair_count two_patterns (output_with 4 3 true) ≡ 24 }
    ensures limit { MAX_PAIRS ≡ 8388608 }
    ensures taken { IsRoom two_patterns (output_with 2 2 false) }
    ensures narrow { IsRoom two_patterns (output_with 1 2 true) → ⊥ }
    ensures low { IsRoom two_patterns (output_with 2 1 true) → ⊥ }
    ensures crowded { (patterns : PatternsView) (output : Output) →
        MAX_PAIRS < window_pair_count patterns output → IsRoom patterns output → ⊥ }
{}

/// Whether the sample wraps decides on the patterns, and whether the output wraps doesn't.
pub fn taught_patterns()
    ensures taken { IsTaughtBy six_numbers (rules_with 2 1 false true)
        two_patterns (output_with 3 2 true) }
    ensures other_side { IsTaughtBy six_numbers (rules_with 1 1 false true)
        two_patterns (output_with 3 2 true) → ⊥ }
    ensures other_wrap { IsTaughtBy six_numbers (rules_with 2 1 false true)
        two_patterns three_by_two → ⊥ }
    ensures other_sample { IsTaughtBy six_numbers (rules_with 2 1 true false)
        two_patterns three_by_two → ⊥ }
    ensures more_images { IsTaughtBy six_numbers (rules_with 2 2 false false)
        two_patterns three_by_two → ⊥ }
{}

/// A pin lies inside in its column and in its row, and so does each behind it.
pub fn pins_inside()
    ensures taken { AreInside three_by_two (kept_pin 2 0 7 ∷ banned_pin 0 1 8 ∷ []) }
    ensures column { AreInside three_by_two (kept_pin 3 0 7 ∷ []) → ⊥ }
    ensures row { AreInside three_by_two (kept_pin 0 2 7 ∷ []) → ⊥ }
    ensures later { AreInside three_by_two (kept_pin 2 1 7 ∷ banned_pin 1 2 8 ∷ []) → ⊥ }
{}

/// A line is read by the texts of the symbols, and a place outside is its first fault.
pub fn lines_by_symbols()
    ensures texts { texts_of three_symbols ≡ codes "a" ∷ codes "\\s" ∷ codes "1,0,30" ∷ [] }
    ensures kept { picture_pin (texts_of three_symbols) 3 2 (window_pin_line 7 true 2 1 (codes
        "\\s")) ≡ Ok (kept_pin 2 1 1) }
    ensures banned { picture_pin (texts_of three_symbols) 3 2 (window_pin_line 7 false 0 1 (codes
        "1,0,30")) ≡ Ok (banned_pin 0 1 2) }
    ensures column { picture_pin (texts_of three_symbols) 3 2 (window_pin_line 7 true 3 1 (codes
        "b")) ≡ Err (PinOutside 7) }
    ensures row { picture_pin (texts_of three_symbols) 3 2 (window_pin_line 7 false 1 2 (codes "a"))
        ≡ Err (PinOutside 7) }
    ensures unknown { picture_pin (texts_of three_symbols) 3 2 (window_pin_line 7 true 2 1 (codes
        " ")) ≡ Err (UnknownSymbol 7) }
{}

/// All lines are read in order, and the first that has a fault is answered.
pub fn lines_in_order()
    ensures read { picture_pins (codes "a" ∷ codes "b" ∷ []) 3 2 kept_and_banned
        ≡ Ok (kept_pin 2 0 1 ∷ banned_pin 1 1 0 ∷ []) }
    ensures unknown { picture_pins (codes "a" ∷ []) 3 2 unknown_first ≡ Err (UnknownSymbol 3) }
    ensures outside { picture_pins (codes "a" ∷ []) 3 2 (window_pin_line 2 true 3 0 (codes "a")
        ∷ window_pin_line 3 true 1 1 (codes "b") ∷ []) ≡ Err (PinOutside 2) }
{}

/// The pins that lines mean, and the problem of them; and a place outside, by which a line is refused.
pub fn small_builds()
    ensures pins { checked_picture_pins two_patterns three_symbols three_by_two blank_and_letter
        ≡ Ok (kept_pin 1 0 1 ∷ banned_pin 2 1 0 ∷ []) }
    ensures problem { picture_problem two_patterns three_symbols three_by_two (kept_blank ∷ [])
        ≡ Ok (problem_of_sample two_patterns three_by_two (kept_pin 1 0 1 ∷ [])) }
    ensures line { picture_problem two_patterns three_symbols three_by_two
        (window_pin_line 5 true 1 2 (codes "a") ∷ []) ≡ Err (PinOutside 5) }
{}

/// An output that is narrower or lower than a window is refused, however many pairs there are and
/// whatever the lines say.
pub fn builds_by_sides()
    ensures narrow_pins { (p : PatternsView) (s : List Symbol) (o : Output) (l : List PinView) →
        o.width < p.n → checked_picture_pins p s o l ≡ Err SizeBelowN }
    ensures low_pins { (p : PatternsView) (s : List Symbol) (o : Output) (l : List PinView) →
        o.height < p.n → checked_picture_pins p s o l ≡ Err SizeBelowN }
    ensures narrow { (p : PatternsView) (s : List Symbol) (o : Output) (l : List PinView) →
        o.width < p.n → picture_problem p s o l ≡ Err SizeBelowN }
    ensures low { (p : PatternsView) (s : List Symbol) (o : Output) (l : List PinView) →
        o.height < p.n → picture_problem p s o l ≡ Err SizeBelowN }
{}

/// Of an output that is large enough, too many pairs are refused whatever the lines say, and else
/// the lines decide.
pub fn builds_by_pairs()
    ensures crowded_pins { (p : PatternsView) (s : List Symbol) (o : Output) (l : List PinView) →
        IsCrowded p o → checked_picture_pins p s o l ≡ Err (TooLarge (window_pair_count p o)) }
    ensures roomy_pins { (p : PatternsView) (s : List Symbol) (o : Output) (l : List PinView) →
        IsRoom p o → checked_picture_pins p s o l ≡ picture_pins (texts_of s) o.width o.height l }
    ensures crowded { (p : PatternsView) (s : List Symbol) (o : Output) (l : List PinView) →
        IsCrowded p o → picture_problem p s o l ≡ Err (TooLarge (window_pair_count p o)) }
    ensures roomy { (p : PatternsView) (s : List Symbol) (o : Output) (l : List PinView) →
        IsRoom p o → picture_problem p s o l ≡ problem_by_lines p s o l }
{}

/// Places of an output of three by two: two side by side; and the cells of one of four by three.
pub fn small_places()
    ensures last { IsPlaceOf two_patterns three_by_two 1 0 }
    ensures past { IsPlaceOf two_patterns three_by_two 2 0 → ⊥ }
    ensures below { IsPlaceOf two_patterns three_by_two 0 1 → ⊥ }
    ensures wrapped { IsPlaceOf two_patterns (output_with 3 2 true) 2 1 }
    ensures flat_cell { place_cell two_patterns (output_with 4 3 false) 1 1 ≡ 4 }
    ensures wrapped_cell { place_cell two_patterns (output_with 4 3 true) 1 2 ≡ 9 }
{}

/// A step among three columns and two rows, and among one column.
pub fn small_steps()
    ensures right { IsStepFrom false 3 2 2 0 1 1 1 }
    ensures back { IsStepFrom false 3 2 2 1 1 0 1 → ⊥ }
    ensures down { IsStepFrom false 3 2 1 2 0 2 1 }
    ensures up { IsStepFrom false 3 2 1 2 1 2 0 → ⊥ }
    ensures flat { IsStepFrom false 3 2 2 2 1 0 1 → ⊥ }
    ensures wrapped { IsStepFrom true 3 2 2 2 1 0 1 }
    ensures wrapped_too_soon { IsStepFrom true 3 2 2 1 1 0 1 → ⊥ }
    ensures wrapped_down { IsStepFrom true 3 2 1 2 1 2 0 }
    ensures own { IsStepFrom true 1 2 2 0 1 0 1 }
{}

/// Which pins a window at the second place of an output of three by two holds: it reaches the pixels
/// right of the first column.
pub fn small_holds()
    ensures kept { HoldsPin 2 three_by_two 1 0 (1 ∷ 2 ∷ 3 ∷ 4 ∷ []) (kept_pin 2 0 2) }
    ensures other { HoldsPin 2 three_by_two 1 0 (1 ∷ 2 ∷ 3 ∷ 4 ∷ []) (kept_pin 2 0 3) → ⊥ }
    ensures banned { HoldsPin 2 three_by_two 1 0 (1 ∷ 2 ∷ 3 ∷ 4 ∷ []) (banned_pin 1 1 2) }
    ensures banned_there { HoldsPin 2 three_by_two 1 0 (1 ∷ 2 ∷ 3 ∷ 4 ∷ []) (banned_pin 1 1 3) → ⊥ }
    ensures clear { HoldsPin 2 three_by_two 1 0 (1 ∷ 2 ∷ 3 ∷ 4 ∷ []) (kept_pin 0 1 9) }
{}
