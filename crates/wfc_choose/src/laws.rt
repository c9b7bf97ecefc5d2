//! What the definitions imply. Each function does nothing; its contract is the law.

ghost use Rattle.std.specs.Prelude.{◌≡◌, ℕ, ◌<◌, ◌≤◌, ◌↔◌, List, [], ◌∷◌, length};
ghost use Rattle.std.specs.Prelude.{Option, Some, None, Contains, IsFalse, map, slice_index};
ghost use Rattle.wfc_choose.specs.Draw.{drawn_value, IsDrawnByShare, IsInShare, trio};
ghost use Rattle.wfc_choose.specs.Pick.{Rule, picked_cell, urge, IsOpen};
ghost use Rattle.wfc_choose.specs.declared.RuleKind.TheVariants.{Scanline, Fewest, Ranked};
ghost use Rattle.wfc_choose.specs.declared.TheConstants.{NO_RANK};
ghost use Rattle.wfc_problem.specs.Domains.{Test};
ghost use Rattle.wfc_problem.specs.Network.{Network, IsProblem};
ghost use Rattle.wfc_problem.specs.Sizes.{is_dead, sizes_of, values_at, size_at};

/// The picked cell is one with two values or more, and none is picked only where there is no such cell. No other
/// comes before it by the rule, and none below it is level with it.
pub fn picks_are_open()
    ensures is_open { (rule : Rule) (sizes : List ℕ) (c : ℕ) → picked_cell rule sizes ≡ Some c
        → IsOpen sizes c }
    ensures none { (rule : Rule) (sizes : List ℕ) (c : ℕ) → picked_cell rule sizes ≡ None →
        c < length sizes → slice_index sizes c ≤ 1 }
    ensures least { (rule : Rule) (sizes : List ℕ) (c other : ℕ) → picked_cell rule sizes ≡ Some c
        → IsOpen sizes other → urge rule sizes c ≤ urge rule sizes other }
    ensures first { (rule : Rule) (sizes : List ℕ) (c other : ℕ) → picked_cell rule sizes ≡ Some c
        → IsOpen sizes other → urge rule sizes other ≡ urge rule sizes c → c ≤ other }
{}

/// Where no cell is empty, none is picked exactly where each has one value.
pub fn none_picked_means_single()
    ensures single { (P : Network) (rule : Rule) (D : Test) → IsFalse (is_dead P D) →
        (picked_cell rule (sizes_of P D) ≡ None) ↔ ((c : ℕ) → c < P.cells → size_at P D c ≡ 1) }
{}

/// Of a cell that isn't empty one of its values is drawn.
pub fn draws_are_values()
    ensures one { (P : Network) → IsProblem P → (D : Test) (c word : ℕ) → 0 < size_at P D c →
        Contains (values_at P D c) (drawn_value P (values_at P D c) word) }
{}

/// Of the values of a cell one is drawn exactly where the sum of the weights of those before it is at most the word
/// modulo the sum of all, and that sum with its own weight is above it.
pub fn draws_are_by_weight()
    ensures share { (P : Network) → IsProblem P → (D : Test) (c word : ℕ)
        → IsDrawnByShare P (values_at P D c) word }
{}

/// Each kind of rule picks its own cell of the sizes 1, 5, 0, 3, 2, 2, and none of 1, 0, 1. A cell without a rank comes
/// last, and of cells with one rank the least comes first.
pub fn small_picks()
    ensures scanline { picked_cell (record { kind = Scanline; ranks = [] })
        (1 ∷ 5 ∷ 0 ∷ 3 ∷ 2 ∷ 2 ∷ []) ≡ Some 1 }
    ensures fewest { picked_cell (record { kind = Fewest; ranks = [] })
        (1 ∷ 5 ∷ 0 ∷ 3 ∷ 2 ∷ 2 ∷ []) ≡ Some 4 }
    ensures ranked { picked_cell (record { kind = Ranked; ranks = 0 ∷ 9 ∷ 0 ∷ 8 ∷ [] })
        (1 ∷ 5 ∷ 0 ∷ 3 ∷ 2 ∷ 2 ∷ []) ≡ Some 3 }
    ensures level { picked_cell (record { kind = Ranked; ranks = 0 ∷ 9 ∷ 0 ∷ 9 ∷ [] })
        (1 ∷ 5 ∷ 0 ∷ 3 ∷ 2 ∷ 2 ∷ []) ≡ Some 1 }
    ensures unranked { picked_cell (record { kind = Ranked; ranks = [] })
        (1 ∷ 1 ∷ 0 ∷ 3 ∷ 2 ∷ 2 ∷ []) ≡ Some 3 }
    ensures none { picked_cell (record { kind = Fewest; ranks = [] }) (1 ∷ 0 ∷ 1 ∷ []) ≡ None }
    ensures empty { picked_cell (record { kind = Scanline; ranks = [] }) [] ≡ None }
{}

/// Of the values 0 and 2 of weights 3 and 5 the words 2, 3, 7 and 8 draw 0, 2, 2 and 0: 8 goes round.
pub fn small_draws()
    ensures drawn { map (drawn_value trio (0 ∷ 2 ∷ [])) (2 ∷ 3 ∷ 7 ∷ 8 ∷ [])
        ≡ 0 ∷ 2 ∷ 2 ∷ 0 ∷ [] }
{}

/// The share of the value 2 of weight 5 behind the value 0 of weight 3 goes from 3 to 7.
pub fn small_shares()
    ensures inside { IsInShare trio (0 ∷ []) 2 3 × IsInShare trio (0 ∷ []) 2 7 }
    ensures below { IsInShare trio (0 ∷ []) 2 2 → ⊥ }
    ensures above { IsInShare trio (0 ∷ []) 2 8 → ⊥ }
{}

/// The rank of a cell without one.
pub fn numbers()
    ensures rank { NO_RANK ≡ 4294967295 }
{}
