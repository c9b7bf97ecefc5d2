//! Laws of the run, each a function with no body whose contract is the law. They run nothing.

ghost use Rattle.std.specs.Prelude.{◌≡◌, ◌≢◌, ℕ, ◌+◌, ◌<◌, ◌≤◌, ◌↔◌, ◌⊎◌, List, [], Contains};
ghost use Rattle.std.specs.Prelude.{IsTrue, false, length, Option, Some, None, slice_index};
ghost use Rattle.std.specs.List.Sorted.{IsStrictlyIncreasing};
ghost use Rattle.rand_core.specs.Stream.{Stream};
ghost use Rattle.wfc_problem.specs.Assignment.{IsLegalAssignment};
ghost use Rattle.wfc_problem.specs.Domains.{Test, Within, IsDead};
ghost use Rattle.wfc_problem.specs.Network.{Network, IsProblem, in_base};
ghost use Rattle.wfc_problem.specs.Rounds.{depth_of};
ghost use Rattle.wfc_problem.specs.declared.Literal.{Literal};
ghost use Rattle.wfc_search.specs.Between.{IsBetween, IsGrown, IsRunState, turns_to_come, work_left};
ghost use Rattle.wfc_choose.specs.Draw.{drawn_value};
ghost use Rattle.wfc_choose.specs.Pick.{Rule, picked_cell, urge};
ghost use Rattle.wfc_search.specs.Run.{State, start, turn_of, LeadsTo, IsRun, last_of, most_turns, end_from, outcome_of};
ghost use Rattle.wfc_search.specs.Each.{IsLastOfRun, HasOneRunAtMost, HoldsAtEnds, HoldsAtLastTurns, HoldsAtStates};
ghost use Rattle.wfc_search.specs.Each.{HoldsOfRuns, HoldsOfTellings};
ghost use Rattle.wfc_problem.specs.Sizes.{is_dead, sizes_of, values_at};
ghost use Rattle.wfc_search.specs.Search.{IsTrueEnd};
ghost use Rattle.wfc_search.specs.Volume.{volume_of};
ghost use Rattle.wfc_proof.specs.declared.Line.TheVariants.{Remove, Try, Empty, End, Found};
ghost use Rattle.std.specs.Prelude.{◌∷◌};
ghost use Rattle.wfc_search.specs.Proved.{AreProof, CountsChoices, empties_in, tries_in};
ghost use Rattle.wfc_search.specs.declared.Outcome.{Outcome};
ghost use Rattle.wfc_search.specs.declared.Outcome.TheVariants.{Map, NoMap, Spent};
ghost use Rattle.wfc_search.specs.declared.Turn.TheVariants.{Ended};

/// Literals that each cut something are no more than the pairs of a cell and a base value.
pub fn cuts_are_few()
    ensures few { (P : Network) → IsProblem P → (literals : List Literal) → IsGrown P literals →
        length literals ≤ depth_of P }
{}

/// Each turn keeps what holds between turns, from the start on, and leaves less to do.
pub fn turns_keep()
    ensures start { (P : Network) (budget : ℕ) → IsBetween P budget [] 0 }
    ensures next { HoldsAtStates (λ P rule budget s. (t : State) → LeadsTo
        (turn_of P rule budget s) t → IsRunState P budget t) }
    ensures few { (P : Network) → IsProblem P → (budget retractions : ℕ) (standing : List Literal) →
        IsBetween P budget standing retractions → length standing ≤ depth_of P }
    ensures falls { HoldsAtStates (λ P rule budget s. (t : State) → LeadsTo
        (turn_of P rule budget s) t → turns_to_come P budget t < turns_to_come P budget s) }
    ensures most { (P : Network) (budget retractions : ℕ) (standing : List Literal) →
        work_left P budget standing retractions < most_turns P budget }
{}

/// The end from a state is that of its turn, if the turn ends, and else that from the next state. It is reached at a
/// state whose turn ends.
pub fn ends_carry_over()
    ensures ended { HoldsAtStates (λ P rule budget s. (u : State) (o : Outcome)
        → turn_of P rule budget s ≡ (Ended o, u) → end_from P rule budget s ≡ Some (o, u)) }
    ensures next { HoldsAtStates (λ P rule budget s. (t : State) → LeadsTo
        (turn_of P rule budget s) t → end_from P rule budget s ≡ end_from P rule budget t) }
    ensures reached { HoldsAtStates (λ P rule budget s. (t : State) (outcome : Outcome)
        → end_from P rule budget s ≡ Some (outcome, t) → IsLastOfRun P rule budget outcome t) }
{}

/// What a turn that ends says, at any state of a run.
pub fn ends_tell()
    ensures map { (P : Network) → IsProblem P → (rule : Rule) (budget : ℕ) (s u : State) →
        turn_of P rule budget s ≡ (Ended Map, u) → IsTrueEnd P budget s.standing Map }
    ensures no_map { HoldsAtLastTurns NoMap
        (λ P budget s. (a : List ℕ) → IsLegalAssignment P a → ⊥) }
    ensures spent { HoldsAtLastTurns Spent
        (λ P budget s. (s.retractions ≡ budget) × (budget < volume_of P)) }
{}

/// A problem has one run with these words. It has at most (budget + 1) * (depth + 1) turns, and `outcome_of` is its
/// end with its last state.
pub fn runs_end()
    ensures exists { (P : Network) → IsProblem P → (rule : Rule) (budget : ℕ) (words : Stream) →
        (later : List State) × (outcome : Outcome) × IsRun P rule budget words later outcome }
    ensures one { (P : Network) (rule : Rule) (budget : ℕ) (words : Stream) →
        HasOneRunAtMost P rule budget words }
    ensures turns { HoldsOfRuns (λ P rule budget words later outcome.
        length later + 1 ≤ most_turns P budget) }
    ensures outcome { HoldsOfRuns (λ P rule budget words later outcome.
        outcome_of P rule budget words ≡ Some (outcome, last_of (start words) later)) }
{}

/// A run that ends in `Map` gives a legal assignment, and one that ends in `NoMap` says that there is none.
pub fn outcomes_tell()
    ensures map { HoldsAtEnds Map (λ P budget s. IsTrueEnd P budget s.standing Map) }
    ensures no_map { HoldsAtEnds NoMap
        (λ P budget s. (a : List ℕ) → IsLegalAssignment P a → ⊥) }
    ensures spent { HoldsAtEnds Spent (λ P budget s. s.retractions ≡ budget) }
{}

/// A budget of the volume is enough: where the product of all sizes of the first domains is at most the budget, the
/// run isn't spent.
pub fn volume_is_enough()
    ensures enough { (P : Network) → IsProblem P → (rule : Rule) (budget : ℕ) (words : Stream)
        (s : State) → volume_of P ≤ budget → outcome_of P rule budget words ≢ Some (Spent, s) }
{}

/// Of two runs over one problem never does one end in `Map` and the other in `NoMap`.
pub fn outcomes_agree()
    ensures agree { HoldsAtEnds Map (λ P budget s. (other : Rule) (most : ℕ) (more : Stream)
        (t : State) → outcome_of P other most more ≢ Some (NoMap, t)) }
{}

/// What the lines of a whole run are, from the opening of a store on: without a map, a proof that closes the base domains,
/// and its end; at another end a proof that follows from them, of which a branch is left open, and the line of that end.
/// Its trials are the run's choices in order, and it names an empty cell for each dead state.
pub fn runs_tell_proofs()
    ensures told { HoldsOfTellings (λ P rule budget s outcome lines. AreProof P outcome lines) }
    ensures counts { HoldsOfTellings (λ P rule budget s outcome lines.
        CountsChoices P rule budget s outcome lines) }
{}

/// The trials of lines are in their order, the cell before the value, and each empty cell counts once.
pub fn tellings_by_example()
    ensures tries { tries_in (Remove 9 8 1 ∷ Try 1 2 ∷ Empty 5 ∷ Try 4 3 ∷ Found ∷ [])
        ≡ (1, 2) ∷ (4, 3) ∷ [] }
    ensures empties { empties_in (Empty 5 ∷ Try 1 2 ∷ Remove 9 8 1 ∷ Empty 5 ∷ Empty 6 ∷ End ∷ [])
        ≡ 3 }
{}
