//! Laws of the texts of lines, heads and proofs, each a function with no body whose contract is the law. They run nothing.

ghost use Rattle.std.specs.Prelude.{◌≡◌, ℕ, ◌↔◌, [], ◌∷◌, ◌++◌, List, codes, map, Ok, Err};
ghost use Rattle.wfc_outside.specs.Sink.{SinkView, after_bytes};
ghost use Rattle.wfc_proof.specs.Heads.{AreHeadNumbers, IsShape, format_of, format_text, head_text, head_2_text};
ghost use Rattle.wfc_proof.specs.Heads.{head_numbers, numbers_text, shape_of, shape_text};
ghost use Rattle.wfc_proof.specs.Small.{dead, dead_text, dead_text_apart, dead_text_joined, greatest_shape};
ghost use Rattle.wfc_proof.specs.Small.{reading_with, wrapped_shape};
ghost use Rattle.wfc_proof.specs.Spans.{IsCutInSpans, AreSettled, in_spans};
ghost use Rattle.wfc_proof.specs.Sinks.{IsAfterRefusal, IsAfterTelling};
ghost use Rattle.wfc_proof.specs.Telling.{IsFaultAfterLines, read_text, text_of};
ghost use Rattle.wfc_proof.specs.Text.{line_text, line_of, line_2_of, IsOfFormat1, IsOfFormat2};
ghost use Rattle.wfc_proof.specs.Upgrade.{upgraded_text};
ghost use Rattle.wfc_proof.specs.declared.Line.{Line};
ghost use Rattle.wfc_proof.specs.declared.Line.TheVariants.{Remove, Span, Try, Empty, End, Found, Out};
ghost use Rattle.wfc_proof.specs.declared.heads.Format.{Format};
ghost use Rattle.wfc_proof.specs.declared.heads.Format.TheVariants.{One, Two};
ghost use Rattle.wfc_proof.specs.declared.heads.HeadNumbers.{HeadNumbers};
ghost use Rattle.wfc_proof.specs.declared.heads.Shape.{Shape};
ghost use Rattle.wfc_proof.specs.declared.text.LineFault.TheVariants.{BadLine};

/// Bytes are read as a line exactly where they are its text and the line is of the format, its numbers within the limits.
pub fn lines_are_their_texts()
    ensures one { (bytes : List ℕ) (line : Line) →
        (line_of bytes ≡ Ok line) ↔ ((bytes ≡ line_text line) × IsOfFormat1 line) }
    ensures two { (bytes : List ℕ) (line : Line) →
        (line_2_of bytes ≡ Ok line) ↔ ((bytes ≡ line_text line) × IsOfFormat2 line) }
{}

/// The lines of a head are read exactly where they are their texts, within the limits.
pub fn heads_are_their_texts()
    ensures format { (bytes : List ℕ) (format : Format)
        → (format_of bytes ≡ Ok format) ↔ (bytes ≡ format_text format) }
    ensures numbers { (bytes : List ℕ) (numbers : HeadNumbers) → (head_numbers bytes ≡ Ok numbers)
        ↔ ((bytes ≡ numbers_text numbers.cells numbers.values) × AreHeadNumbers numbers) }
    ensures shape { (bytes : List ℕ) (shape : Shape) →
        (shape_of bytes ≡ Ok shape) ↔ ((bytes ≡ shape_text shape) × IsShape shape) }
{}

/// The texts of lines. A removal is of one value or of a span, and the order of the numbers is cell, value, direction.
pub fn texts_by_example()
    ensures removes { line_text (Remove 10 2 3) ≡ codes "r 10 2 3" }
    ensures spans { line_text (Span 10 2 4 3) ≡ codes "r 10 2 4 3" }
    ensures tries { line_text (Try 4294967295 65535) ≡ codes "t 4294967295 65535" }
    ensures empties { line_text (Empty 0) ≡ codes "x 0" }
    ensures ends { map line_text (End ∷ Found ∷ Out ∷ []) ≡ codes "q" ∷ codes "s" ∷ codes "o" ∷ [] }
    ensures head { head_text 12 3 ≡ codes "wfc-refutation 1\ncells 12 values 3\n" }
    ensures head_2 { head_2_text wrapped_shape 12 5
        ≡ codes "wfc-refutation 2\ncells 12 values 5\nfor 2 3 4 1 8 1 0\n" }
{}

/// Bytes that spell lines, each in its format, and bytes that spell none: a blank too many, a zero in front, a number too
/// large or too few, a sign, a span that ends before it begins.
pub fn readings_by_example()
    ensures removes { line_of (codes "r 10 2 3") ≡ Ok (Remove 10 2 3) }
    ensures spans { line_2_of (codes "r 10 2 4 3") ≡ Ok (Span 10 2 4 3) }
    ensures one { line_2_of (codes "r 10 4 4 3") ≡ Ok (Span 10 4 4 3) }
    ensures other_format { (line_of (codes "r 10 2 4 3") ≡ Err BadLine)
        × (line_2_of (codes "r 10 2 3") ≡ Err BadLine) }
    ensures most { (line_of (codes "t 4294967295 65535") ≡ Ok (Try 4294967295 65535))
        × (line_2_of (codes "x 0") ≡ Ok (Empty 0)) }
    ensures too_large { map line_of (codes "x 4294967296" ∷ codes "t 0 65536" ∷ codes "r 0 0 256"
        ∷ []) ≡ Err BadLine ∷ Err BadLine ∷ Err BadLine ∷ [] }
    ensures blanks { map line_of (codes "x  0" ∷ codes " x 0" ∷ codes "x 0 " ∷ codes "q " ∷ [])
        ≡ Err BadLine ∷ Err BadLine ∷ Err BadLine ∷ Err BadLine ∷ [] }
    ensures digits { map line_of (codes "x 00" ∷ codes "x 07" ∷ codes "x +7" ∷ codes "x" ∷ [])
        ≡ Err BadLine ∷ Err BadLine ∷ Err BadLine ∷ Err BadLine ∷ [] }
    ensures backwards { line_2_of (codes "r 10 4 3 3") ≡ Err BadLine }
    ensures letters { map line_2_of (codes "q" ∷ codes "s" ∷ codes "o" ∷ codes "Q" ∷ [])
        ≡ Ok End ∷ Ok Found ∷ Ok Out ∷ Err BadLine ∷ [] }
{}

/// Lines of heads, and lines that are none.
pub fn heads_by_example()
    ensures format { map format_of (codes "wfc-refutation 1" ∷ codes "wfc-refutation 2"
        ∷ codes "wfc-refutation 3" ∷ []) ≡ Ok One ∷ Ok Two ∷ Err BadLine ∷ [] }
    ensures numbers { head_numbers (codes "cells 12 values 4294967295")
        ≡ Ok (record { cells = 12; values = 4294967295 }) }
    ensures zero_first { head_numbers (codes "cells 02 values 1") ≡ Err BadLine }
    ensures exchanged { head_numbers (codes "values 2 cells 1") ≡ Err BadLine }
    ensures shape { shape_of (codes "for 2 3 4 1 8 1 0") ≡ Ok wrapped_shape }
    ensures too_large { map shape_of (codes "for 7 3 4 1 8 1 0" ∷ codes "for 2 3 4 1 256 1 0"
        ∷ codes "for 2 3 4 1 8 2 0" ∷ []) ≡ Err BadLine ∷ Err BadLine ∷ Err BadLine ∷ [] }
    ensures too_few { shape_of (codes "for 2 3 4 1 8 1") ≡ Err BadLine }
    ensures most { shape_of (codes "for 6 4294967295 4294967295 4294967295 255 0 1")
        ≡ Ok greatest_shape }
{}

/// What is read of a text, in each format: behind its last line that is none of the format.
pub fn texts_are_read()
    ensures told { read_text One (codes "r 1\nr 0 2 3\nx 7\nr 1")
        ≡ reading_with (codes "r 1\n") (Remove 0 2 3 ∷ Empty 7 ∷ []) (codes "r 1") }
    ensures other_format { read_text Two (codes "r 0 2 3\nr 0 2 4 3\n")
        ≡ reading_with (codes "r 0 2 3\n") (Span 0 2 4 3 ∷ []) [] }
    ensures anew { read_text One (codes "t 4 5\ncells 12 values 3\n")
        ≡ reading_with (codes "t 4 5\ncells 12 values 3\n") [] [] }
    ensures whole { (format : Format) (bytes : List ℕ) → let read = read_text format bytes in
        read.before ++ (text_of read.lines ++ read.part) ≡ bytes }
{}

/// Where a journal over a sink was told lines, the sink has taken their text behind what it took before, with removals
/// joined into spans in format 2; there the last line is one behind which nothing is kept. Where a line was refused, the
/// sink has taken a front of the text of those up to it, and has counted a fault; in format 2 what it took ends before the
/// last of the joined lines does.
pub fn sinks_take_what_is_told()
    ensures lines { (started sink : SinkView) (lines : List Line) →
        IsAfterTelling One started sink lines → sink ≡ after_bytes started (text_of lines) }
    ensures lines_cut_off { (started sink : SinkView) (lines : List Line) →
        IsAfterRefusal One started sink lines → IsFaultAfterLines started sink lines }
    ensures spans { (started sink : SinkView) (ls : List Line) → IsAfterTelling Two started sink ls
        → AreSettled ls → sink ≡ after_bytes started (text_of (in_spans ls)) }
    ensures spans_cut_off { (started sink : SinkView) (lines : List Line) →
        IsAfterRefusal Two started sink lines → IsCutInSpans started sink lines }
{}

/// A text of either format, brought to format 2.
pub fn upgrades_by_example()
    ensures one { upgraded_text dead wrapped_shape dead_text ≡ dead_text_joined }
    ensures two { upgraded_text dead wrapped_shape dead_text_apart ≡ dead_text_joined }
{}
