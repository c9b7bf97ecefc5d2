//! Laws of the definitions, each a function with no body whose contract is the law. They run nothing.

ghost use Rattle.std.specs.Prelude.{◌≡◌, ℕ, ◌<◌, ◌↔◌, ◌++◌, List, [], codes, replicate, None, Some, Ok, Err};
ghost use Rattle.wfc_problem.specs.Network.{Network, IsProblem};
ghost use Rattle.wfc_proof.specs.Heads.{IsShape};
ghost use Rattle.wfc_proof.specs.declared.Reject.TheVariants.{NotEmpty, NotClosed, AfterEnd, IndexRange};
ghost use Rattle.wfc_proof.specs.declared.heads.Shape.{Shape};
ghost use Rattle.wfc_check.specs.Answered.{IsOfText};
ghost use Rattle.wfc_check.specs.Cases.{short_answer, answer_within, head, head_2, small_shape, turned_shape};
ghost use Rattle.wfc_check.specs.Checker.{HasNone};
ghost use Rattle.wfc_check.specs.Fronts.{first_lines, line_at_fault, IsAtFault, IsRightSoFar};
ghost use Rattle.wfc_check.specs.Text.{checked, IsRefutation};
ghost use Rattle.wfc_check.specs.declared.fault.CheckFault.{CheckFault};
ghost use Rattle.wfc_check.specs.declared.fault.CheckFault.TheVariants.{Rejected, BadLine, HeaderDiffers, NotEnded, TooLong, OptionsDiffer};

use crate::reading::{MAX_LINE_BYTES, MAX_REFUTATION_BYTES};

/// A text is accepted exactly where it is a refutation, and then there is no legal assignment. What else it is answered is a
/// fault of the text or its length.
pub fn refutations_are_accepted()
    ensures exact { (P : Network) → IsProblem P → (shape : Shape) → IsShape shape →
        (text : List ℕ) → (checked P shape text ≡ Ok tt) ↔ IsRefutation P shape text }
    ensures sound { (P : Network) → IsProblem P → (shape : Shape) (text : List ℕ)
        → IsRefutation P shape text → HasNone P }
    ensures fault { (P : Network) (shape : Shape) (text : List ℕ) (fault : CheckFault)
        → checked P shape text ≡ Err fault → IsOfText fault }
{}

/// A fault is at the first line that isn't right: the lines before it alone are accepted, or answered that they don't end
/// the proof, and with it they are answered its fault.
pub fn faults_are_at_the_first_line()
    ensures here { (P : Network) (shape : Shape) (text : List ℕ) (fault : CheckFault) (k : ℕ) →
        IsAtFault P shape text fault k → checked P shape (first_lines k text) ≡ Err fault }
    ensures before { (P : Network) (shape : Shape) (text : List ℕ) (fault : CheckFault) (k n : ℕ) →
        IsAtFault P shape text fault k → 0 < n → n < k → IsRightSoFar P shape (first_lines n text) }
{}

/// The first lines of a text, and which line each fault of a text is at.
pub fn lines_by_example()
    ensures two { first_lines 2 (codes "ab\n\nc\nd") ≡ codes "ab\n\n" }
    ensures all { first_lines 3 (codes "ab\nc") ≡ codes "ab\nc" }
    ensures none { first_lines 0 (codes "ab\nc") ≡ [] }
    ensures proof { (line_at_fault (Rejected 7 AfterEnd) ≡ Some 7)
        × (line_at_fault (BadLine 5) ≡ Some 5) }
    ensures head { (line_at_fault (HeaderDiffers 4 5) ≡ Some 2)
        × (line_at_fault (OptionsDiffer small_shape) ≡ Some 3) }
    ensures text { (line_at_fault NotEnded ≡ None) × (line_at_fault TooLong ≡ None) }
{}

/// The limits are these numbers.
pub fn limits_are()
    ensures line { MAX_LINE_BYTES ≡ 64 }
    ensures file { MAX_REFUTATION_BYTES ≡ 4294967296 }
{}

/// Texts in both formats that are accepted: a span, its removals, and both branches of a split.
pub fn accepted_by_example()
    ensures removals { short_answer (head ++ codes "r 0 0 2\nr 0 1 2\nx 0\nq\n") ≡ Ok tt }
    ensures span { short_answer (head_2 ++ codes "r 0 0 1 2\nx 0\nq\n") ≡ Ok tt }
    ensures branches { short_answer (head ++ codes "t 0 1\nr 0 1 2\nx 0\nr 0 0 2\nx 0\nq\n") ≡ Ok tt }
{}

/// The faults of a head: no line, another format, numbers with a zero in front, other numbers, a shape out of its limits,
/// another shape, and a line of the other format.
pub fn heads_at_fault_by_example()
    ensures empty { short_answer (codes "") ≡ Err (BadLine 1) }
    ensures format { short_answer (codes "wfc-refutation 3\n") ≡ Err (BadLine 1) }
    ensures alone { short_answer (codes "wfc-refutation 1\n") ≡ Err NotEnded }
    ensures zero_first { short_answer (codes "wfc-refutation 1\ncells 02 values 3\n")
        ≡ Err (BadLine 2) }
    ensures numbers { short_answer (codes "wfc-refutation 2\ncells 3 values 2\n")
        ≡ Err (HeaderDiffers 3 2) }
    ensures window { short_answer (codes "wfc-refutation 2\ncells 2 values 3\nfor 7 3 4 1 8 1 0\n")
        ≡ Err (BadLine 3) }
    ensures shape { short_answer (codes "wfc-refutation 2\ncells 2 values 3\nfor 2 4 3 1 8 1 0\n")
        ≡ Err (OptionsDiffer turned_shape) }
    ensures other_format { short_answer (head ++ codes "r 0 0 1 2\n") ≡ Err (BadLine 3) }
{}

/// The faults of a proof: a line that isn't right, an end while a branch waits, a line behind the end, no end, and a last line
/// without its own.
pub fn proofs_at_fault_by_example()
    ensures not_empty { short_answer (head ++ codes "x 0\n") ≡ Err (Rejected 3 (NotEmpty 0)) }
    ensures waiting { short_answer (head ++ codes "t 0 1\nr 0 1 2\nx 0\nq\n")
        ≡ Err (Rejected 6 NotClosed) }
    ensures behind { short_answer (head_2 ++ codes "r 0 0 1 2\nx 0\nq\nq\n")
        ≡ Err (Rejected 7 AfterEnd) }
    ensures behind_none { short_answer (head_2 ++ codes "r 0 0 1 2\nx 0\nq\nz\n") ≡ Err (BadLine 7) }
    ensures not_ended { short_answer (head_2 ++ codes "r 0 0 1 2\nx 0\n") ≡ Err NotEnded }
    ensures no_feed { short_answer (head_2 ++ codes "r 0 0 1 2\nx 0\nq") ≡ Err (BadLine 6) }
{}

/// Where a text has more bytes than may be read, a line at fault among these comes first. A line without its end may still
/// become one where it has at most 64 bytes.
pub fn limits_by_example()
    ensures whole { answer_within 17 (codes "wfc-refutation 1\n") ≡ Err NotEnded }
    ensures more { answer_within 17 (codes "wfc-refutation 1\nx") ≡ Err TooLong }
    ensures first { answer_within 17 (codes "wfc-refutation 9\nx") ≡ Err (BadLine 1) }
    ensures within { answer_within 64 (replicate 65 120) ≡ Err TooLong }
    ensures past { answer_within 65 (replicate 66 120) ≡ Err (BadLine 1) }
{}
