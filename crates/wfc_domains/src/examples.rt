//! What the definitions give on a small problem without symmetry. Each function does nothing; its
//! contract is the law.

ghost use Rattle.std.specs.Prelude.{◌≡◌, true, false, [], ◌∷◌, length, map, nat_lt};
ghost use Rattle.std.specs.List.{range_with_len};
ghost use Rattle.wfc_problem.specs.Corner.{corner};
ghost use Rattle.wfc_problem.specs.Network.{in_base};
ghost use Rattle.wfc_problem.specs.declared.Literal.TheVariants.{Is};
ghost use Rattle.wfc_domains.specs.declared.board.Board.{Board};
ghost use Rattle.wfc_domains.specs.declared.board.TheConstants.{LISTED};
ghost use Rattle.wfc_domains.specs.Board.{IsListed};
ghost use Rattle.wfc_domains.specs.Counters.{count_of, with_count, counts_of, no_counts, cost_at, cost_of};
ghost use Rattle.wfc_domains.specs.Halves.{entries_from, limit_from};
ghost use Rattle.wfc_domains.specs.Pairs.{unit_at, mask_at, paired_entries};
ghost use Rattle.wfc_domains.specs.Singles.{IsCountSplit};
ghost use Rattle.wfc_log.specs.Domains.{has};
ghost use Rattle.wfc_domains.specs.Removals.{without, IsUnsupported, IsCause, AreRemoved};
ghost use Rattle.wfc_log.specs.Sample.{unsupported_removal, cut_first, later};
ghost use Rattle.wfc_domains.specs.Sample.{numbered_table, undersized_removal, displaced_removal, two_levels, one_level, repeated_level};
ghost use Rattle.wfc_domains.specs.Store.{IsBefore, IsLeastUnsupported, IsLeastEmpty, IsLongLevel, level_mark, list_limit, added_of, before_of, without_last};
ghost use Rattle.wfc_log.specs.declared.Cause.TheVariants.{Assumed, Arc};

/// A value of the base that no value above supports; what is a true cause, and what is none; what removals leave.
pub fn removals_are_judged()
    ensures bare { IsUnsupported corner (in_base corner) 2 1 3 }
    ensures supported { IsUnsupported corner (in_base corner) 2 0 3 → ⊥ }
    ensures no_neighbour { IsUnsupported corner (in_base corner) 2 1 0 → ⊥ }
    ensures assumed { IsCause corner (Is 1 0 ∷ []) (in_base corner) 0 0 Assumed }
    ensures assumed_not { IsCause corner (Is 1 0 ∷ []) (in_base corner) 0 1 Assumed → ⊥ }
    ensures cut_first { IsCause corner (Is 1 0 ∷ []) (in_base corner) 2 1 (Arc 3) → ⊥ }
    ensures removed { AreRemoved corner [] (in_base corner) (unsupported_removal ∷ []) }
    ensures before { AreRemoved corner [] (in_base corner) (undersized_removal ∷ []) → ⊥ }
    ensures left { map (without (in_base corner) (unsupported_removal ∷ cut_first
        ∷ []) 2) (range_with_len 0 3) ≡ true ∷ false ∷ true ∷ [] }
    ensures left_more { map (without (in_base corner) (unsupported_removal ∷ cut_first
        ∷ []) 0) (range_with_len 0 3) ≡ false ∷ true ∷ false ∷ [] }
    ensures once { AreRemoved corner [] (in_base corner) (unsupported_removal ∷ unsupported_removal
        ∷ []) → ⊥ }
    ensures behind_the_last { AreRemoved corner (Is 1 0 ∷ []) (λ c v. nat_lt c 2)
        (record cut_first { before = 3 } ∷ []) → ⊥ }
{}

/// Levels are told apart by their marks; the cell counts before the value, and the value before the direction.
pub fn levels_are_read()
    ensures mark { level_mark (3 ∷ 5 ∷ 4 ∷ []) ≡ 4 }
    ensures no_mark { level_mark [] ≡ 0 }
    ensures added { added_of two_levels ≡ later ∷ [] }
    ensures before { map (before_of two_levels 0) (range_with_len 0 3) ≡ false ∷ true ∷ false ∷ [] }
    ensures before_later { map (before_of two_levels 3) (range_with_len 0 3) ≡ true ∷ false ∷ true
        ∷ [] }
    ensures last { without_last two_levels ≡ one_level }
    ensures cell { IsBefore 1 9 9 2 0 0 }
    ensures value { IsBefore 2 0 5 2 1 3 }
    ensures dir { IsBefore 2 1 2 2 1 3 }
    ensures itself { IsBefore 2 1 3 2 1 3 → ⊥ }
    ensures least_not { IsLeastUnsupported corner (in_base corner) displaced_removal → ⊥ }
    ensures least_empty { IsLeastEmpty corner (λ c v. nat_lt c 2) 2 }
    ensures not_least { IsLeastEmpty corner (λ c v. nat_lt c 2) 3 → ⊥ }
{}

/// A list has at most two removals a cell, or 4,096 in a small problem. A level is long by its own removals alone, and a
/// list begins with it.
pub fn long_levels_are_told()
    ensures listed { LISTED ≡ 4096 }
    ensures few_cells { list_limit (record corner { cells = 2047 }) ≡ 4096 }
    ensures many_cells { list_limit (record corner { cells = 2049 }) ≡ 4098 }
    ensures long { IsLongLevel (repeated_level 4096) }
    ensures short { IsLongLevel (repeated_level 4095) → ⊥ }
    ensures begins { (b : Board) → b.trail.start ≡ 5 → b.levels.marks ≡ 3 ∷ 5 ∷ [] → IsListed b }
    ensures begins_late { (b : Board) → b.trail.start ≡ 6 → b.levels.marks ≡ 3 ∷ 5 ∷ []
        → length b.trail.removals ≡ 7 → IsListed b → ⊥ }
{}

/// Counters are read by cell, value and direction; what a removal costs is what it lowers.
pub fn counters_are_read()
    ensures last { count_of numbered_table 1 2 3 ≡ 123 }
    ensures inner { count_of numbered_table 0 1 2 ≡ 106 }
    ensures set { count_of (with_count numbered_table 1 0 2 7) 1 0 2 ≡ 7 }
    ensures kept { count_of (with_count numbered_table 1 0 2 7) 1 0 3 ≡ 115 }
    ensures counts { map (count_of (counts_of corner (in_base corner) 127) 0 1) (range_with_len 0 4)
        ≡ 0 ∷ 2 ∷ 1 ∷ 0 ∷ [] }
    ensures removed { map (count_of (counts_of corner (in_base corner) 127) 1 0)
        (range_with_len 0 4) ≡ 0 ∷ 0 ∷ 1 ∷ 0 ∷ [] }
    ensures none { count_of (no_counts corner 127) 3 2 3 ≡ 0 }
    ensures cost { cost_at corner 0 1 ≡ 3 }
    ensures costs { cost_of corner (unsupported_removal ∷ record cut_first { value = 1 } ∷ []) ≡ 4 }
{}

/// A small part alone has a count up to 127 and its mark; beside a large one it has a count up to 255.
pub fn entries_are_read()
    ensures narrow { entries_from (3 ∷ 127 ∷ 128 ∷ 133 ∷ []) [] ≡ 3 ∷ 127 ∷ 32768 ∷ 32773 ∷ [] }
    ensures wide { entries_from (133 ∷ 255 ∷ 1 ∷ 255 ∷ []) (0 ∷ 0 ∷ 1 ∷ 127 ∷ [])
        ≡ 133 ∷ 255 ∷ 256 ∷ 32640 ∷ [] }
    ensures narrow_limit { limit_from [] ≡ 127 }
    ensures wide_limit { limit_from (0 ∷ []) ≡ 32640 }
    ensures split { IsCountSplit 255 127 }
    ensures nothing_small { IsCountSplit 0 1 → ⊥ }
    ensures no_room { IsCountSplit 1 128 → ⊥ }
{}

/// Of two counts in a byte that at the even place is in the lower half; each is up to 7, beside its mark.
pub fn pairs_are_read()
    ensures entries { paired_entries (33 ∷ 143 ∷ []) ≡ 1 ∷ 2 ∷ 32775 ∷ 32768 ∷ [] }
    ensures units { map unit_at (6 ∷ 7 ∷ []) ≡ 1 ∷ 16 ∷ [] }
    ensures masks { map mask_at (6 ∷ 7 ∷ []) ≡ 15 ∷ 240 ∷ [] }
{}
