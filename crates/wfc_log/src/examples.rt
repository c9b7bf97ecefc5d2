//! What the definitions give on a small problem without symmetry. Each function does nothing; its
//! contract is the law.

ghost use Rattle.std.specs.Prelude.{◌≡◌, true, false, [], ◌∷◌, map};
ghost use Rattle.std.specs.List.{range_with_len};
ghost use Rattle.wfc_problem.specs.Corner.{corner};
ghost use Rattle.wfc_problem.specs.Network.{in_base};
ghost use Rattle.wfc_log.specs.Domains.{has, size_of, flags_of, base_of, less, Fits};
ghost use Rattle.wfc_log.specs.Log.{AreLogged, IsLogged, extent_of, sizes_after};
ghost use Rattle.wfc_log.specs.Numbered.{first_sizes, limit_of, numbers_from, packed_numbers, removal_number, placed_removals};
ghost use Rattle.wfc_log.specs.Sample.{two_rows, unsupported_removal, cut_first, later};
ghost use Rattle.wfc_log.specs.Tops.{tops_in};
ghost use Rattle.wfc_log.specs.declared.Cause.TheVariants.{Arc};

/// Flags are read row by row, and nothing stands out of range; a value less is one at its cell alone.
pub fn domains_are_read()
    ensures row { map (has two_rows 1) (range_with_len 0 4) ≡ false ∷ true ∷ true ∷ false ∷ [] }
    ensures no_cell { has two_rows 2 0 ≡ false }
    ensures sizes { map (size_of two_rows) (range_with_len 0 3) ≡ 1 ∷ 2 ∷ 0 ∷ [] }
    ensures base { flags_of corner (in_base corner) ≡ base_of corner }
    ensures fits { Fits corner (base_of corner) }
    ensures fits_not { Fits corner two_rows → ⊥ }
    ensures less { map (less (in_base corner) 1 2 1) (range_with_len 0 3) ≡ false ∷ true ∷ false
        ∷ [] }
    ensures elsewhere { map (less (in_base corner) 1 2 3) (range_with_len 0 3) ≡ true ∷ false ∷ true
        ∷ [] }
{}

/// A removal tells how many values its cell had; kept as a number, it is told by what the cells have left.
pub fn logs_are_read()
    ensures extent { extent_of corner
        ≡ record { cells = 4; values = 3; dirs = 4; sizes = 2 ∷ 2 ∷ 3 ∷ 2 ∷ [] } }
    ensures left { sizes_after (2 ∷ 2 ∷ 3 ∷ 2 ∷ []) (2 ∷ 0 ∷ 2 ∷ []) ≡ 1 ∷ 2 ∷ 1 ∷ 2 ∷ [] }
    ensures logged { AreLogged (extent_of corner) (2 ∷ 2 ∷ 3 ∷ 2 ∷ [])
        (unsupported_removal ∷ cut_first ∷ later ∷ []) }
    ensures twice { AreLogged (extent_of corner) (2 ∷ 2 ∷ 3 ∷ 2 ∷ [])
        (cut_first ∷ cut_first ∷ []) → ⊥ }
    ensures none_left { IsLogged (extent_of corner) (0 ∷ []) (record cut_first { before = 0 }) → ⊥ }
    ensures no_direction { IsLogged (extent_of corner) (2 ∷ []) (record cut_first { cause = Arc 4 })
        → ⊥ }
    ensures first { first_sizes 3 4 (1 ∷ 2 ∷ 2 ∷ 2 ∷ []) (38 ∷ 4 ∷ []) ≡ 2 ∷ 2 ∷ 3 ∷ 2 ∷ [] }
    ensures numbers { map (removal_number 3 4) (unsupported_removal ∷ cut_first ∷ []) ≡ 38 ∷ 4 ∷ [] }
    ensures removals { placed_removals 3 4 (2 ∷ 2 ∷ 3 ∷ 2 ∷ []) (38 ∷ 4 ∷ [])
        ≡ unsupported_removal ∷ cut_first ∷ [] }
    ensures parts { numbers_from 65536 (38 ∷ 4 ∷ []) (0 ∷ 1 ∷ []) ≡ 38 ∷ 65540 ∷ [] }
    ensures wide { packed_numbers true (5 ∷ 7 ∷ []) (2 ∷ 1 ∷ []) (3 ∷ 0 ∷ [])
        ≡ 50462725 ∷ 65543 ∷ [] }
    ensures narrow { packed_numbers false (5 ∷ 7 ∷ []) (2 ∷ 1 ∷ []) [] ≡ 131077 ∷ 65543 ∷ [] }
    ensures limits { map limit_of (false ∷ true ∷ []) ≡ 16777216 ∷ 67108864 ∷ [] }
    ensures tops { tops_in 6 (228 ∷ 54 ∷ []) ≡ 0 ∷ 1 ∷ 2 ∷ 3 ∷ 2 ∷ 1 ∷ [] }
{}
