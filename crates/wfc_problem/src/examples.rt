//! What the definitions give on a small problem without symmetry. Each function does nothing; its
//! contract is the law.

ghost use Rattle.std.specs.Prelude.{◌≡◌, ℕ, true, false, List, [], ◌∷◌, map, replicate, slice_set, Option, Some, None};
ghost use Rattle.std.specs.List.{range_with_len};
ghost use Rattle.wfc_problem.specs.Assignment.{IsLegalAssignment, LiesIn};
ghost use Rattle.wfc_problem.specs.Corner.{corner, corner_with_neighbour, corner_with_supports, crossroads, crossroads_sides};
ghost use Rattle.wfc_problem.specs.Domains.{IsSupported, IsArcConsistent, IsDead, IsLiteralIn, HasOnly, base_with, leaves, support_count};
ghost use Rattle.wfc_problem.specs.Fault.{problem_fault_of, pair_count_fault};
ghost use Rattle.wfc_problem.specs.Hops.{hop_cell, hop_entry, hops_table};
ghost use Rattle.wfc_problem.specs.HopsMade.{hop_of};
ghost use Rattle.wfc_problem.specs.Network.{IsProblem, values, value_weight, neighbour, beside, supports_of, ok, in_base};
ghost use Rattle.wfc_problem.specs.Rounds.{depth_of, greatest};
ghost use Rattle.wfc_problem.specs.Sizes.{first_values, is_dead, sizes_of, values_at};
ghost use Rattle.wfc_problem.specs.Strides.{AreSides, AreStrides, IsSide, sides_at, sides_by_kind};
ghost use Rattle.wfc_problem.specs.Whole.{is_whole, network_of};
ghost use Rattle.wfc_problem.specs.declared.Literal.TheVariants.{Is, Not};
ghost use Rattle.wfc_problem.specs.declared.TheConstants.{NO_CELL, NO_HOP};
ghost use Rattle.wfc_problem.specs.declared.Part.TheVariants.{Cells, Neighbours, Weights, Supports, Base};
ghost use Rattle.wfc_problem.specs.declared.ProblemFault.TheVariants.{TooLarge, NotSymmetric, BadIndex, NotBack, Lengths, BadWeight};

/// The tables are read row by row, and nothing is there out of range.
pub fn tables_are_read()
    ensures values { values corner ≡ 3 }
    ensures weights { map (value_weight corner) (range_with_len 0 4) ≡ 5 ∷ 1 ∷ 3 ∷ 0 ∷ [] }
    ensures neighbours { map (neighbour corner 0) (range_with_len 0 5)
        ≡ None ∷ Some 2 ∷ Some 1 ∷ None ∷ None ∷ [] }
    ensures no_cell { neighbour corner 4 0 ≡ None }
    ensures beside { beside corner 2 ≡ NO_CELL ∷ NO_CELL ∷ NO_CELL ∷ 0 ∷ [] }
    ensures beside_no_cell { beside corner 4 ≡ [] }
    ensures supports { map (supports_of corner 1) (range_with_len 0 5)
        ≡ (0 ∷ []) ∷ (0 ∷ 2 ∷ []) ∷ (2 ∷ []) ∷ (2 ∷ []) ∷ [] ∷ [] }
    ensures no_value { supports_of corner 3 0 ≡ [] }
    ensures ok { map (ok corner 2 0) (range_with_len 0 4) ≡ false ∷ true ∷ true ∷ false ∷ [] }
    ensures ok_no_dir { ok corner 4 0 1 ≡ false }
    ensures base { map (in_base corner 1) (range_with_len 0 4) ≡ false ∷ true ∷ true ∷ false ∷ [] }
    ensures base_no_cell { in_base corner 4 0 ≡ false }
    ensures depth { depth_of corner ≡ 9 }
{}

/// A hop is added to a cell's number, and cells of one kind have one row of hops.
pub fn hops_are_read()
    ensures cell { map (hop_cell 5) (4294967294 ∷ NO_HOP ∷ 3 ∷ 0 ∷ [])
        ≡ Some 3 ∷ None ∷ Some 8 ∷ Some 5 ∷ [] }
    ensures entry { map (hop_entry 5) (4294967294 ∷ NO_HOP ∷ 3 ∷ 0 ∷ [])
        ≡ 3 ∷ NO_CELL ∷ 8 ∷ 5 ∷ [] }
    ensures asked { map (hop_of 5) (3 ∷ NO_CELL ∷ 8 ∷ 5 ∷ [])
        ≡ 4294967294 ∷ NO_HOP ∷ 3 ∷ 0 ∷ [] }
    ensures by_kinds { hops_table 3 2 (1 ∷ 0 ∷ 0 ∷ []) (4294967295 ∷ NO_HOP ∷ NO_HOP ∷ 1 ∷ [])
        ≡ NO_CELL ∷ 1 ∷ 0 ∷ NO_CELL ∷ 1 ∷ NO_CELL ∷ [] }
    ensures by_cells { hops_table 2 3 [] (1 ∷ NO_HOP ∷ 0 ∷ NO_HOP ∷ 4294967295 ∷ 0 ∷ [])
        ≡ 1 ∷ NO_CELL ∷ 0 ∷ NO_CELL ∷ 0 ∷ 1 ∷ [] }
{}

/// A stride leads from where the row of a cell begins to where that of its neighbour does, and a cell has the sides of its
/// kind, if there are any.
pub fn sides_are_told()
    ensures to_the_right { IsSide corner 3 0 2 1 3 }
    ensures down { IsSide corner 3 0 1 2 6 }
    ensures back { IsSide corner 3 1 0 4294967295 4294967293 }
    ensures no_neighbour { IsSide corner 3 0 0 NO_HOP 0 → ⊥ }
    ensures other_stride { IsSide corner 3 0 2 1 6 → ⊥ }
    ensures other_hop { IsSide corner 3 0 2 2 6 → ⊥ }
    ensures four { AreSides crossroads 3 2 crossroads_sides }
    ensures other_cell { AreSides crossroads 3 1 crossroads_sides → ⊥ }
    ensures other_row { AreSides crossroads 5 2 crossroads_sides → ⊥ }
    ensures no_four { AreSides (record crossroads { dirs = 6 }) 3 2 crossroads_sides → ⊥ }
    ensures by_kind { sides_by_kind (1 ∷ 0 ∷ 2 ∷ 1 ∷ []) (None ∷ Some crossroads_sides ∷ [])
        ≡ Some crossroads_sides ∷ None ∷ None ∷ Some crossroads_sides ∷ [] }
    ensures at_cell { sides_at (None ∷ Some crossroads_sides ∷ []) 1 ≡ Some crossroads_sides }
    ensures past { sides_at (Some crossroads_sides ∷ []) 1 ≡ None }
    ensures none_kept { AreStrides corner 3 [] }
    ensures not_its_own { AreStrides corner 3 (Some crossroads_sides ∷ []) → ⊥ }
{}

/// A base is whole where it has each value at each cell, the last one too.
pub fn whole_bases_are_told()
    ensures part { is_whole corner ≡ false }
    ensures without_flags { (network_of true corner).base ≡ replicate 12 true }
    ensures whole { is_whole (network_of true corner) ≡ true }
    ensures but_one { is_whole (record corner { base = slice_set (replicate 12 true) 11 false })
        ≡ false }
    ensures with_flags { network_of false corner ≡ corner }
{}

/// These parts are a problem, and each change of one of them is the fault that is named.
#[tactic(auto, unfolding(crate::specs::Fault::problem_fault_of))]
pub fn faults_are_named()
    ensures problem { IsProblem corner }
    ensures refused { IsProblem (record corner { weights = 5 ∷ 0 ∷ 3 ∷ [] }) → ⊥ }
    ensures cells { problem_fault_of (record corner { cells = 0 }) ≡ Some (Lengths Cells) }
    ensures dirs { problem_fault_of (record corner { dirs = 5 }) ≡ Some (Lengths Cells) }
    ensures weights { problem_fault_of (record corner { weights = [] }) ≡ Some (Lengths Weights) }
    ensures neighbours { problem_fault_of (record corner { neighbours = [] })
        ≡ Some (Lengths Neighbours) }
    ensures supports { problem_fault_of (record corner { supports = [] })
        ≡ Some (Lengths Supports) }
    ensures base { problem_fault_of (record corner { base = [] }) ≡ Some (Lengths Base) }
    ensures fits { pair_count_fault (record corner { cells = 2048; weights = replicate 4096 1 }) ≡
        None }
    ensures size { pair_count_fault (record corner { cells = 2049; weights = replicate 4096 1 })
        ≡ Some (TooLarge 8392704) }
    ensures entry { problem_fault_of (corner_with_neighbour 3 4) ≡ Some (BadIndex Neighbours 3) }
    ensures falling { problem_fault_of (corner_with_supports 2 (2 ∷ 1 ∷ []))
        ≡ Some (BadIndex Supports 2) }
    ensures support { problem_fault_of (corner_with_supports 6 (3 ∷ []))
        ≡ Some (BadIndex Supports 6) }
    ensures weight { problem_fault_of (record corner { weights = 5 ∷ 16777217 ∷ 0 ∷ [] })
        ≡ Some (BadWeight 1) }
    ensures one_way { problem_fault_of (corner_with_neighbour 4 NO_CELL) ≡ Some (NotBack 0 2) }
    ensures one_sided { problem_fault_of (corner_with_supports 10 []) ≡ Some (NotSymmetric 0 0) }
{}

/// An assignment has a value for each cell, of its base, and neighbours may stand beside each
/// other.
pub fn assignments_are_judged()
    ensures legal { IsLegalAssignment corner (1 ∷ 2 ∷ 2 ∷ 0 ∷ []) }
    ensures short { IsLegalAssignment corner (1 ∷ 2 ∷ 2 ∷ []) → ⊥ }
    ensures base { IsLegalAssignment corner (2 ∷ 0 ∷ 1 ∷ 2 ∷ []) → ⊥ }
    ensures across { IsLegalAssignment corner (1 ∷ 1 ∷ 2 ∷ 2 ∷ []) → ⊥ }
    ensures below { IsLegalAssignment corner (0 ∷ 1 ∷ 2 ∷ 2 ∷ []) → ⊥ }
    ensures lies { LiesIn (1 ∷ 2 ∷ 2 ∷ 0 ∷ []) (in_base corner) }
    ensures lies_not { LiesIn (1 ∷ 2 ∷ 2 ∷ 1 ∷ []) (in_base corner) → ⊥ }
{}

/// `Is` leaves its value alone at its cell, `Not` all but its value, and both leave other cells as
/// they are.
pub fn literals_are_applied()
    ensures is_there { map (leaves (Is 2 3) 3) (range_with_len 0 4)
        ≡ false ∷ false ∷ true ∷ false ∷ [] }
    ensures is_elsewhere { map (leaves (Is 2 3) 2) (range_with_len 0 4)
        ≡ true ∷ true ∷ true ∷ true ∷ [] }
    ensures not_there { map (leaves (Not 2 3) 3) (range_with_len 0 4)
        ≡ true ∷ true ∷ false ∷ true ∷ [] }
    ensures not_elsewhere { map (leaves (Not 2 3) 2) (range_with_len 0 4)
        ≡ true ∷ true ∷ true ∷ true ∷ [] }
    ensures base { map (base_with corner (Not 1 2 ∷ Is 2 3 ∷ []) 2) (range_with_len 0 4)
        ≡ true ∷ false ∷ true ∷ false ∷ [] }
    ensures literal_in { IsLiteralIn corner (Is 2 3) }
    ensures cell_out { IsLiteralIn corner (Not 0 4) → ⊥ }
    ensures value_out { IsLiteralIn corner (Is 3 2) → ⊥ }
{}

/// Supports are counted at the neighbour, and there are none where there is no neighbour.
pub fn supports_are_counted()
    ensures counts { map (support_count corner (in_base corner) 0 0) (range_with_len 0 5)
        ≡ 0 ∷ 1 ∷ 2 ∷ 0 ∷ 0 ∷ [] }
    ensures supported { IsSupported corner (in_base corner) 2 0 3 }
    ensures unsupported { IsSupported corner (in_base corner) 2 1 3 → ⊥ }
    ensures no_neighbour { IsSupported corner (in_base corner) 2 1 2 }
    ensures consistent { IsArcConsistent corner (greatest corner []) }
    ensures inconsistent { IsArcConsistent corner (in_base corner) → ⊥ }
{}

/// What the greatest domains keep, cell by cell, and when they are dead.
#[tactic(auto, unfolding(crate::specs::Rounds::greatest))]
pub fn domains_shrink()
    ensures sizes { sizes_of corner (in_base corner) ≡ 2 ∷ 2 ∷ 3 ∷ 2 ∷ [] }
    ensures values { map (values_at corner (greatest corner [])) (range_with_len 0 4)
        ≡ (0 ∷ 1 ∷ []) ∷ (1 ∷ 2 ∷ []) ∷ (0 ∷ 2 ∷ []) ∷ (0 ∷ 2 ∷ []) ∷ [] }
    ensures first { first_values corner (greatest corner (Is 2 3 ∷ [])) ≡ 0 ∷ 1 ∷ 0 ∷ 2 ∷ [] }
    ensures only { HasOnly corner (greatest corner (Is 2 3 ∷ [])) (0 ∷ 1 ∷ 0 ∷ 2 ∷ []) }
    ensures several { HasOnly corner (in_base corner) (0 ∷ 1 ∷ 0 ∷ 2 ∷ []) → ⊥ }
    ensures alive { IsDead corner (greatest corner []) → ⊥ }
    ensures dead { IsDead corner (greatest corner (Is 1 2 ∷ [])) }
    ensures is_dead { map (λ literals. is_dead corner (greatest corner literals))
        ([] ∷ (Is 1 2 ∷ []) ∷ []) ≡ false ∷ true ∷ [] }
{}
