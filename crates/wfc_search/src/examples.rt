//! What the definitions give on small problems. Each function does nothing; its contract is the law.

ghost use Rattle.std.specs.Prelude.{◌≡◌, ℕ, true, false, List, [], ◌∷◌, map, Option, Some, None};
ghost use Rattle.wfc_log.specs.declared.Cause.TheVariants.{Assumed, Arc};
ghost use Rattle.wfc_log.specs.declared.Verdict.TheVariants.{Alive, Dead};
ghost use Rattle.wfc_problem.specs.Rounds.{greatest, depth_of};
ghost use Rattle.wfc_problem.specs.declared.Literal.TheVariants.{Is, Not};
ghost use Rattle.wfc_proof.specs.declared.Line.TheVariants.{Remove, Try, Empty, End, Found, Out};
ghost use Rattle.wfc_search.specs.Between.{Cuts, IsBetween, ways_left, work_left};
ghost use Rattle.wfc_search.specs.Last.{choice_in};
ghost use Rattle.wfc_search.specs.Run.{last_choice, most_turns, outcome_of};
ghost use Rattle.wfc_search.specs.Search.{draws_after, outcome_after};
ghost use Rattle.wfc_search.specs.Small.{choice_at, choice_behind, one_removal, pair, removal_by, ring, ring_store};
ghost use Rattle.wfc_search.specs.Small.{scanline, summary, twos};
ghost use Rattle.wfc_search.specs.Telling.{end_line, level_lines, opening_lines, removal_lines, turn_lines};
ghost use Rattle.wfc_search.specs.Volume.{at_least_one, product, volume_of};
ghost use Rattle.wfc_search.specs.declared.Outcome.TheVariants.{Map, NoMap, Spent};
ghost use Rattle.wfc_search.specs.declared.Turn.TheVariants.{Chose, Retracted, Ended};
ghost use Rattle.wfc_search.specs.declared.TheConstants.{MAX_BUDGET};

/// The largest budget, and products.
pub fn numbers()
    ensures budget { MAX_BUDGET ≡ 1000000000 }
    ensures product { product (2 ∷ 3 ∷ 5 ∷ []) ≡ 30 }
    ensures nothing { product [] ≡ 1 }
    ensures empty { product (2 ∷ 0 ∷ 5 ∷ []) ≡ 0 }
    ensures at_least_one { map at_least_one (0 ∷ 1 ∷ 3 ∷ []) ≡ 1 ∷ 1 ∷ 3 ∷ [] }
{}

/// The last choice is the last `Is`, with what stands before it.
pub fn last_choices()
    ensures last { last_choice (Is 1 0 ∷ Not 1 2 ∷ Is 5 1 ∷ Not 0 2 ∷ Not 4 3 ∷ [])
        ≡ Some (choice_behind (Is 1 0 ∷ Not 1 2 ∷ []) 1 5) }
    ensures none { last_choice (Not 1 2 ∷ Not 4 3 ∷ []) ≡ None }
{}

/// A choice by its place in the list is a choice by what stands before it.
pub fn choices_by_their_places()
    ensures some { choice_in (Is 1 0 ∷ Not 1 2 ∷ Is 5 1 ∷ Not 0 2 ∷ []) (Some (choice_at 2 1 5))
        ≡ Some (choice_behind (Is 1 0 ∷ Not 1 2 ∷ []) 1 5) }
    ensures none { choice_in (Is 1 0 ∷ []) None ≡ None }
{}

/// A pair of cells that differ has a map, in which a word of 2 draws value 1 of weight 3 first. A ring of three cells
/// that differ has none: without a budget the run is spent at once, and with one it finds out.
pub fn small_runs()
    ensures pair { summary (outcome_of pair scanline 0 twos) ≡ Some (Map, Is 1 0 ∷ [], 0, 1) }
    ensures spent { summary (outcome_of ring scanline 0 twos) ≡ Some (Spent, Is 1 0 ∷ [], 0, 1) }
    ensures none { summary (outcome_of ring scanline 1 twos) ≡ Some (NoMap, Not 1 0 ∷ [], 1, 1) }
    ensures volumes { map volume_of (pair ∷ ring ∷ []) ≡ 4 ∷ 8 ∷ [] }
    ensures turns { most_turns ring 1 ≡ 14 }
{}

/// A literal cuts what stands, and a choice has another value beside its own. What is left to try, and to do.
pub fn literals_cut()
    ensures choice { Cuts ring (greatest ring []) (Is 1 0) }
    ensures only { Cuts pair (greatest pair (Is 1 0 ∷ [])) (Is 0 1) → ⊥ }
    ensures gone { Cuts pair (greatest pair (Is 1 0 ∷ [])) (Not 1 1) → ⊥ }
    ensures last { Cuts pair (greatest pair (Is 1 0 ∷ [])) (Not 0 1) }
    ensures outside { Cuts ring (greatest ring []) (Not 0 3) → ⊥ }
    ensures between { IsBetween ring 1 [] 0 }
    ensures too_many { IsBetween ring 1 [] 2 → ⊥ }
    ensures ways { ways_left ring [] ∷ ways_left ring (Is 1 0 ∷ []) ∷ ways_left ring (Not 1 0 ∷ [])
        ∷ [] ≡ 8 ∷ 2 ∷ 1 ∷ [] }
    ensures work { work_left ring 1 (Is 1 0 ∷ []) 0 ∷ work_left ring 1 (Not 1 0 ∷ []) 1 ∷ []
        ≡ 12 ∷ 5 ∷ [] }
{}

/// Of the removals those for want of support are told, in their order, and then the cell that is empty. Before the first
/// turn the opening is told; a choice tells its value first, a retraction no line of its own, and an end its line.
pub fn lines_are_told()
    ensures removals { removal_lines (removal_by Assumed 4 2 3 ∷ one_removal
        ∷ removal_by (Arc 0) 5 0 1 ∷ []) ≡ Remove 5 1 3 ∷ Remove 5 0 0 ∷ [] }
    ensures level { level_lines (ring_store (Not 1 0 ∷ []) 5 (1 ∷ []) (Dead 6)
        (removal_by (Arc 1) 7 7 2 ∷ one_removal ∷ [])) ≡ Remove 5 1 3 ∷ Empty 6 ∷ [] }
    ensures opening { opening_lines (ring_store [] 6 [] Alive (one_removal ∷ []))
        ≡ Remove 5 1 3 ∷ [] }
    ensures no_opening { opening_lines
        (ring_store (Not 1 0 ∷ []) 6 (0 ∷ []) Alive (one_removal ∷ [])) ≡ [] }
    ensures choice { turn_lines (Chose 3 8) (ring_store (Is 8 3 ∷ []) 6 (0 ∷ []) (Dead 6)
        (one_removal ∷ [])) ≡ Try 3 8 ∷ Remove 5 1 3 ∷ Empty 6 ∷ [] }
    ensures retraction { turn_lines (Retracted 3 8)
        (ring_store (Not 8 3 ∷ []) 6 (0 ∷ []) Alive (one_removal ∷ [])) ≡ Remove 5 1 3 ∷ [] }
    ensures ends { map end_line (Map ∷ NoMap ∷ Spent ∷ []) ≡ Found ∷ End ∷ Out ∷ [] }
    ensures end { turn_lines (Ended Spent) (ring_store [] 6 [] (Dead 6) (one_removal ∷ []))
        ≡ Out ∷ [] }
    ensures draws { map (λ turn. draws_after turn 7) (Chose 3 8 ∷ Retracted 3 8 ∷ Ended Map ∷ [])
        ≡ 8 ∷ 7 ∷ 7 ∷ [] }
    ensures outcomes { map outcome_after (Chose 3 8 ∷ Retracted 3 8 ∷ Ended Spent ∷ [])
        ≡ None ∷ None ∷ Some Spent ∷ [] }
{}
