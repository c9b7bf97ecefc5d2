//! Laws of journals and proofs, each a function with no body whose contract is the law. They run nothing.

ghost use Rattle.std.specs.Prelude.{◌≡◌, ℕ, ◌↔◌, ◌+◌, ◌<◌, ◌≤◌, [], ◌∷◌, List, length, map, None, Some, Ok, Err};
ghost use Rattle.std.specs.Prelude.{false, true};
ghost use Rattle.wfc_problem.specs.Assignment.{IsLegalAssignment, LiesIn};
ghost use Rattle.wfc_problem.specs.Domains.{Test, Within, IsEmptyAt};
ghost use Rattle.wfc_problem.specs.Network.{Network, IsProblem, in_base};
ghost use Rattle.wfc_problem.specs.Rounds.{pairs, depth_of};
ghost use Rattle.wfc_problem.specs.declared.Literal.TheVariants.{Is, Not};
ghost use Rattle.wfc_proof.specs.Checker.{HasBranchBehind, HasOpenBranch, line_steps, node_fault};
ghost use Rattle.wfc_proof.specs.Checker.Point.{going, closed, ended};
ghost use Rattle.wfc_proof.specs.Journal.{Target, quiet, IsWhole, counted_as, after_line, after_lines, IsRefused};
ghost use Rattle.wfc_proof.specs.Journal.{IsCutOff};
ghost use Rattle.wfc_proof.specs.Lines.{AreClosing, AreEnding, AreLeftOpen, nodes_of_lines};
ghost use Rattle.wfc_proof.specs.Proof.{IsLeastStanding, IsLeastSupport, Proof, Closes, nodes, IsRemoval, IsSplit};
ghost use Rattle.wfc_proof.specs.Proof.Node.{removes, splits, empties};
ghost use Rattle.wfc_proof.specs.Proof.Proof.{empty, remove, split, left_off};
ghost use Rattle.wfc_proof.specs.Small.{after_a_trial, from_base, journal_over, journal_with, refused_after_a_trial};
ghost use Rattle.wfc_proof.specs.Small.{wide_fault, wide_fault_after};
ghost use Rattle.wfc_proof.specs.declared.Line.{Line};
ghost use Rattle.wfc_proof.specs.declared.Line.TheVariants.{Remove, Span, Try, Empty, End, Found, Out};
ghost use Rattle.wfc_proof.specs.declared.Reject.TheVariants.{NotStanding, HasSupport, NoNeighbour, NotEmpty};
ghost use Rattle.wfc_proof.specs.declared.Reject.TheVariants.{AfterEnd, IndexRange, NotClosed, OnlyValue};

/// A span counts as the removals of its values, in rising order, and each other line as itself.
pub fn spans_are_removals()
    ensures span { counted_as (Span 7 2 4 3) ≡ Remove 7 2 3 ∷ Remove 7 3 3 ∷ Remove 7 4 3 ∷ [] }
    ensures one { counted_as (Span 7 4 4 3) ≡ Remove 7 4 3 ∷ [] }
    ensures whole { IsWhole (Span 7 4 4 3) }
    ensures backwards { IsWhole (Span 7 5 4 3) → ⊥ }
    ensures removes { counted_as (Remove 7 2 3) ≡ Remove 7 2 3 ∷ [] }
    ensures tries { counted_as (Try 7 2) ≡ Try 7 2 ∷ [] }
    ensures empties { counted_as (Empty 7) ≡ Empty 7 ∷ [] }
    ensures end { counted_as End ≡ End ∷ [] }
    ensures found { counted_as Found ≡ Found ∷ [] }
    ensures out { counted_as Out ≡ Out ∷ [] }
{}

/// A line comes behind those that were told before, and nothing else changes. A quiet journal stays as it is.
pub fn lines_come_behind()
    ensures told { after_line (journal_with (Some (Try 1 2 ∷ [])) false 3) (Span 4 5 6 0)
        ≡ journal_with (Some (Try 1 2 ∷ Remove 4 5 0 ∷ Remove 4 6 0 ∷ [])) false 3 }
    ensures quiet { (lines : List Line) → after_lines quiet lines ≡ quiet }
{}

/// A refused line counts among those that were handed over, and a fault was counted. A quiet journal refuses none.
pub fn refusals_are_counted()
    ensures refused { IsRefused after_a_trial (refused_after_a_trial (Empty 5 ∷ [])) (Empty 5) }
    ensures not_handed_over { IsRefused after_a_trial (refused_after_a_trial []) (Empty 5) → ⊥ }
    ensures not_failed { IsRefused (journal_with None false 3) (journal_with None false 4)
        (Empty 5) → ⊥ }
    ensures not_counted { IsRefused (journal_with None false 3) (journal_with None true 3)
        (Empty 5) → ⊥ }
    ensures elsewhere { (there : Target) → IsRefused (journal_over there false 3)
        (journal_with None true 4) (Empty 5) → ⊥ }
    ensures quiet { (line : Line) → IsRefused quiet quiet line → ⊥ }
{}

/// Where lines are cut off, a front of them was handed over, with at least one line.
pub fn fronts_are_handed_over()
    ensures front { IsCutOff after_a_trial (refused_after_a_trial (Remove 4 5 0 ∷ Empty 5 ∷ []))
        (Remove 4 5 0 ∷ Empty 5 ∷ End ∷ []) }
    ensures none { IsCutOff after_a_trial (refused_after_a_trial [])
        (Remove 4 5 0 ∷ Empty 5 ∷ []) → ⊥ }
    ensures a_later_line { IsCutOff after_a_trial (refused_after_a_trial (Empty 5 ∷ []))
        (Remove 4 5 0 ∷ Empty 5 ∷ []) → ⊥ }
    ensures quiet { (lines : List Line) → IsCutOff quiet quiet lines → ⊥ }
{}

/// Where a proof closes domains, no legal assignment lies in them; and none at all where these are the base domains.
pub fn proofs_are_sound()
    ensures within { (P : Network) → IsProblem P → (a : List ℕ) → IsLegalAssignment P a
        → (D : Test) (proof : Proof) → Closes P D proof → LiesIn a D → ⊥ }
    ensures base { (P : Network) → IsProblem P → (proof : Proof) → Closes P (in_base P) proof →
        (a : List ℕ) → IsLegalAssignment P a → ⊥ }
{}

/// A node is accepted exactly where it is right: a removal where the value stands and has no support in the direction, a
/// split where another value stands beside it, an empty cell where no value stands.
pub fn right_nodes_are_accepted()
    ensures removals { (P : Network) → IsProblem P → (D : Test) → Within D (in_base P) → (c v d : ℕ)
        → (node_fault P D (removes c v d) ≡ None) ↔ IsRemoval P D c v d }
    ensures splits { (P : Network) → IsProblem P → (D : Test) → Within D (in_base P) → (c v : ℕ) →
        (node_fault P D (splits c v) ≡ None) ↔ IsSplit D c v }
    ensures empties { (P : Network) → IsProblem P → (D : Test) → Within D (in_base P) → (c : ℕ) →
        (node_fault P D (empties c) ≡ None) ↔ ((c < P.cells) × IsEmptyAt D c) }
{}

/// The value that a refusal names is the least: of a removal the least standing value of the neighbour that may stand
/// beside it, of an empty cell the least that stands.
pub fn refusals_name_the_least()
    ensures support { (P : Network) → IsProblem P → (D : Test) (c v d w : ℕ)
        → node_fault P D (removes c v d) ≡ Some (HasSupport w) → IsLeastSupport P D c v d w }
    ensures value { (P : Network) (D : Test) (c w : ℕ)
        → node_fault P D (empties c) ≡ Some (NotEmpty w) → IsLeastStanding D c w }
{}

/// All lines are accepted and the proof is closed exactly where the lines spell the nodes of a proof that closes the
/// domains at the start; it has ended exactly where an `End` follows such lines; and a branch is open exactly where they
/// spell a proof that follows, with branches left off at its end.
pub fn accepted_lines_spell_proofs()
    ensures closed { (P : Network) → IsProblem P → (D : Test) → Within D (in_base P)
        → (ls : List Line) → (line_steps P (going D []) ls ≡ Ok closed) ↔ AreClosing P D ls }
    ensures ended { (P : Network) → IsProblem P → (D : Test) → Within D (in_base P)
        → (lines : List Line) → (line_steps P (going D []) lines ≡ Ok ended) ↔ AreEnding P D lines }
    ensures going { (P : Network) → IsProblem P → (D : Test) → Within D (in_base P)
        → (lines : List Line) → HasOpenBranch P D lines ↔ AreLeftOpen P D lines }
{}

/// Where a branch is open, the domains lie within the base, and the branches that wait and the pairs that stand are
/// together at most as many as the pairs of the base.
pub fn few_branches_wait()
    ensures within { (P : Network) → IsProblem P → (lines : List Line) (E : Test)
        (waiting : List Test) → HasBranchBehind P lines E waiting → Within E (in_base P) }
    ensures few { (P : Network) → IsProblem P → (lines : List Line) (E : Test) (waiting : List Test)
        → HasBranchBehind P lines E waiting → pairs P E + length waiting ≤ depth_of P }
{}

/// Why removals are refused: an index comes first, then a value that doesn't stand, a side without a neighbour, and the
/// least support. A support that is gone counts no more, and a value that is gone isn't removed again.
pub fn removals_by_example()
    ensures base { map wide_fault (removes 0 1 2 ∷ removes 0 0 2 ∷ removes 0 2 2 ∷ removes 0 0 0
        ∷ []) ≡ None ∷ Some (HasSupport 1) ∷ Some (HasSupport 1) ∷ Some NoNeighbour ∷ [] }
    ensures indexes { map wide_fault (removes 2 0 2 ∷ removes 0 3 2 ∷ removes 0 0 4 ∷ [])
        ≡ Some IndexRange ∷ Some IndexRange ∷ Some IndexRange ∷ [] }
    ensures later { map (wide_fault_after (Not 1 1)) (removes 0 0 2 ∷ removes 0 2 2 ∷ removes 1 1 0
        ∷ []) ≡ None ∷ Some (HasSupport 2) ∷ Some NotStanding ∷ [] }
{}

/// Why splits and empty cells are refused: another value has to stand beside the one that is tried, and the least value
/// that stands is named.
pub fn splits_by_example()
    ensures splits { map (wide_fault_after (Is 2 0)) (splits 0 2 ∷ splits 0 1 ∷ splits 1 2 ∷ [])
        ≡ Some OnlyValue ∷ Some NotStanding ∷ None ∷ [] }
    ensures indexes { map (wide_fault_after (Is 2 0)) (splits 2 2 ∷ splits 0 3 ∷ [])
        ≡ Some IndexRange ∷ Some IndexRange ∷ [] }
    ensures empties { map (wide_fault_after (Is 2 0)) (empties 0 ∷ empties 1 ∷ empties 2 ∷ [])
        ≡ Some (NotEmpty 2) ∷ Some (NotEmpty 0) ∷ Some IndexRange ∷ [] }
{}

/// A span closes a proof as its removals do, and so do both branches of a split. There is no end while a branch is open,
/// nothing but the end behind a closed proof, nothing behind the end, and a span is refused for its first refusal.
pub fn proofs_by_example()
    ensures span { from_base (Span 0 0 1 2 ∷ Empty 0 ∷ End ∷ []) ≡ Ok ended }
    ensures removals { from_base (Remove 0 0 2 ∷ Remove 0 1 2 ∷ Empty 0 ∷ End ∷ []) ≡ Ok ended }
    ensures branches { from_base
        (Try 0 1 ∷ Remove 0 1 2 ∷ Empty 0 ∷ Remove 0 0 2 ∷ Empty 0 ∷ End ∷ []) ≡ Ok ended }
    ensures one_branch { from_base (Try 0 1 ∷ Remove 0 1 2 ∷ Empty 0 ∷ End ∷ []) ≡ Err NotClosed }
    ensures found { from_base (Found ∷ []) ≡ Err NotClosed }
    ensures closed_twice { from_base (Span 0 0 1 2 ∷ Empty 0 ∷ Empty 0 ∷ []) ≡ Err AfterEnd }
    ensures ended_twice { from_base (Span 0 0 1 2 ∷ Empty 0 ∷ End ∷ End ∷ []) ≡ Err AfterEnd }
    ensures backwards { from_base (Span 0 1 0 2 ∷ []) ≡ Err IndexRange }
    ensures past { from_base (Span 0 0 2 2 ∷ []) ≡ Err NotStanding }
{}

/// The first branch of a split comes first, and the nodes of a span are its values' removals in rising order.
pub fn nodes_by_example()
    ensures tree { nodes (split 0 1 (remove 0 1 2 (empty 0)) (remove 3 0 1 left_off))
        ≡ splits 0 1 ∷ removes 0 1 2 ∷ empties 0 ∷ removes 3 0 1 ∷ [] }
    ensures spelled { nodes_of_lines (Span 3 1 3 2 ∷ Try 4 5 ∷ Remove 1 2 3 ∷ [])
        ≡ removes 3 1 2 ∷ removes 3 2 2 ∷ removes 3 3 2 ∷ splits 4 5 ∷ removes 1 2 3 ∷ [] }
{}
