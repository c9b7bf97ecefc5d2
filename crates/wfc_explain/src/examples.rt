//! What the definitions give on small problems. Each function does nothing; its contract is the
//! law.

ghost use Rattle.std.specs.Prelude.{◌≡◌, ℕ, Bool, true, false, List, [], ◌∷◌, codes, map, Ok, Err, None, Some};
ghost use Rattle.wfc_model.specs.Legal.{banned_pin, kept_pin};
ghost use Rattle.wfc_overlap.specs.Sample.{problem_of_sample};
ghost use Rattle.wfc_overlap.specs.Small.{window_pin_line as sample_line, three_by_two, three_symbols, two_patterns};
ghost use Rattle.wfc_pins.specs.declared.fault.BuildFault.TheVariants.{PinInHole, PinOutside};
ghost use Rattle.wfc_search.specs.Small.{pair, ring, scanline, twos};
ghost use Rattle.wfc_search.specs.declared.Outcome.TheVariants as outcome;
ghost use Rattle.wfc_tiled.specs.Mask.{plain_mask};
ghost use Rattle.wfc_tiled.specs.Small.{line_and_cross, tile_pin_line as tile_line, two_holes};
ghost use Rattle.wfc_tiled.specs.Tiles.{problem_of_tiles};
ghost use Rattle.wfc_explain.specs.Blame.{HasMap, IsTrueCore, IsTrueExplained, KeepsMaps, core_lines};
ghost use Rattle.wfc_explain.specs.KeptLines.{kept_of};
ghost use Rattle.wfc_explain.specs.Masks.{given_mask};
ghost use Rattle.wfc_explain.specs.Outcomes.{outcome_with};
ghost use Rattle.wfc_explain.specs.Pinned.{IsAlike, IsFewer};
ghost use Rattle.wfc_explain.specs.Problems.{pinned_sample, pinned_tiles, sample_pins, tiles_pins};
ghost use Rattle.wfc_explain.specs.Small.{blank_line, one_kept, no_lines, one_line, two_cells_with, ring_with};
ghost use Rattle.wfc_explain.specs.Small.{three_choices, three_lines, turned_line, two_more_lines, two_of_three, two_sample_lines, two_tile_lines, two_turned_lines};
ghost use Rattle.wfc_explain.specs.Trials.{all_lines, core_of, trial_with, explanation_of, outcome_mark, lines_without};
ghost use Rattle.wfc_explain.specs.declared.explained.Explained.TheVariants.{Core, MapExists, Spent};
ghost use Rattle.wfc_explain.specs.declared.explained.Mark.TheVariants.{Needed, Undecided};

/// Of two lines that contradict each other the first is dropped, since the second contradicts a
/// third too; these two are needed. What the budget can't decide is kept, and a larger one drops it.
pub fn small_explanations()
    ensures needed { explanation_of three_lines scanline 0 twos
        ≡ Core (one_kept 1 Needed ∷ one_kept 2 Needed ∷ []) }
    ensures undecided { explanation_of one_line scanline 0 twos ≡ Core (one_kept 0 Undecided ∷ []) }
    ensures dropped { explanation_of one_line scanline 1 twos ≡ Core [] }
    ensures spent { explanation_of (no_lines ring) scanline 0 twos ≡ Spent }
    ensures none { explanation_of (no_lines ring) scanline 1 twos ≡ Core [] }
    ensures map { explanation_of (no_lines pair) scanline 0 twos ≡ MapExists }
{}

/// The outcomes of runs: of the second line alone, of it and the first, and of the first and the
/// third.
pub fn small_outcomes()
    ensures outcomes { map (outcome_with three_lines scanline 0 twos) three_choices
        ≡ outcome.Map ∷ outcome.NoMap ∷ outcome.Map ∷ [] }
    ensures marks { map outcome_mark (outcome.Map ∷ outcome.NoMap ∷ outcome.Spent ∷ [])
        ≡ Some Needed ∷ None ∷ Some Undecided ∷ [] }
{}

/// A line is left out, and is dropped or stays.
pub fn lines_are_decided()
    ensures all { all_lines 2 ≡ true ∷ true ∷ [] }
    ensures without { lines_without (true ∷ true ∷ false ∷ []) 0 ≡ false ∷ true ∷ false ∷ [] }
    ensures dropped { trial_with (two_of_three (one_kept 5 Needed ∷ [])) 1 None
        ≡ record { keep = true ∷ false ∷ false ∷ []; core = one_kept 5 Needed ∷ [] } }
    ensures stays { trial_with (two_of_three (one_kept 5 Needed ∷ [])) 1 (Some Undecided)
        ≡ two_of_three (one_kept 5 Needed ∷ one_kept 1 Undecided ∷ []) }
    ensures only { core_lines 4 (one_kept 1 Needed ∷ one_kept 3 Undecided ∷ [])
        ≡ false ∷ true ∷ false ∷ true ∷ [] }
{}

/// Fewer lines are kept where each one is kept by the other too, and problems are alike but for
/// their bases.
pub fn relations_by_example()
    ensures fewer { IsFewer (false ∷ true ∷ []) (true ∷ true ∷ []) }
    ensures more { IsFewer (true ∷ true ∷ []) (false ∷ true ∷ []) → ⊥ }
    ensures alike { IsAlike pair (two_cells_with (true ∷ false ∷ true ∷ [])) }
    ensures other { IsAlike pair ring → ⊥ }
{}

/// Some lines admit a map, and others none. That a map exists is said of all lines together. And
/// where more of them have one, fewer do, but not where a line is kept exactly if it is left out.
pub fn maps_by_example()
    ensures map { HasMap (two_cells_with (true ∷ false ∷ true ∷ [])) }
    ensures no_map { HasMap (two_cells_with (true ∷ true ∷ false ∷ [])) → ⊥ }
    ensures exists { IsTrueExplained two_turned_lines MapExists }
    ensures none_exists { IsTrueExplained two_more_lines MapExists → ⊥ }
    ensures keeps { KeepsMaps two_more_lines }
    ensures loses { KeepsMaps two_turned_lines → ⊥ }
{}

/// The lines of a core rise, are lines, admit no map, and need each one that is marked so.
pub fn cores_by_example()
    ensures falls { IsTrueCore three_lines (one_kept 2 Needed ∷ one_kept 1 Needed ∷ []) → ⊥ }
    ensures outside { IsTrueCore three_lines (one_kept 1 Needed ∷ one_kept 3 Needed ∷ []) → ⊥ }
    ensures mapped { IsTrueCore three_lines (one_kept 0 Needed ∷ one_kept 2 Needed ∷ []) → ⊥ }
    ensures unneeded { IsTrueCore three_lines
        (one_kept 0 Undecided ∷ one_kept 1 Needed ∷ one_kept 2 Needed ∷ []) → ⊥ }
    ensures undecided { IsTrueCore three_lines
        (one_kept 0 Undecided ∷ one_kept 1 Needed ∷ one_kept 2 Undecided ∷ []) }
    ensures needed { IsTrueCore three_lines (one_kept 1 Needed ∷ one_kept 2 Needed ∷ []) }
{}

/// What is kept of a list.
pub fn lines_are_kept()
    ensures kept { kept_of {X = ℕ} (true ∷ false ∷ true ∷ []) (5 ∷ 6 ∷ 7 ∷ []) ≡ 5 ∷ 7 ∷ [] }
    ensures short { kept_of {X = ℕ} (false ∷ true ∷ []) (5 ∷ 6 ∷ 7 ∷ []) ≡ 6 ∷ [] }
{}

/// The pins of lines, and the problem of a sample and of a tile set with the pins of the lines that
/// are kept.
pub fn pinned_problems()
    ensures sample_lines { sample_pins two_patterns three_symbols three_by_two
        (blank_line ∷ sample_line 7 false 2 1 (codes "a") ∷ []) ≡ Ok two_sample_lines }
    ensures sample_fault { sample_pins two_patterns three_symbols three_by_two
        (blank_line ∷ sample_line 7 false 3 1 (codes "a") ∷ []) ≡ Err (PinOutside 7) }
    ensures sample_count { (pinned_sample two_sample_lines).lines ≡ 2 }
    ensures sample_first { (pinned_sample two_sample_lines).problem_of (true ∷ false ∷ [])
        ≡ problem_of_sample two_patterns three_by_two (kept_pin 1 0 1 ∷ []) }
    ensures sample_second { (pinned_sample two_sample_lines).problem_of (false ∷ true ∷ [])
        ≡ problem_of_sample two_patterns three_by_two (banned_pin 2 1 0 ∷ []) }
    ensures tile_lines { tiles_pins line_and_cross two_holes false
        (turned_line 0 1 ∷ tile_line 7 false 2 0 (codes "x/0") ∷ []) ≡ Ok two_tile_lines }
    ensures tile_fault { tiles_pins line_and_cross two_holes false
        (turned_line 1 0 ∷ tile_line 7 false 9 9 (codes "x/0") ∷ []) ≡ Err (PinInHole 4) }
    ensures tile_count { (pinned_tiles two_tile_lines).lines ≡ 2 }
    ensures tile_second { (pinned_tiles two_tile_lines).problem_of (false ∷ true ∷ [])
        ≡ problem_of_tiles line_and_cross two_holes false (banned_pin 2 0 2 ∷ []) }
    ensures plain { given_mask None 3 2 ≡ plain_mask 3 2 }
{}
