//! Laws of lines whose removals are joined into spans, each a function with no body whose contract is the law. They run
//! nothing.

ghost use Rattle.std.specs.Prelude.{◌≡◌, List, [], ◌∷◌, ◌++◌, None, map};
ghost use Rattle.std.specs.List.{AllByRecursion};
ghost use Rattle.wfc_proof.specs.Joins.{AreSpansOf};
ghost use Rattle.wfc_proof.specs.Journal.{IsWhole};
ghost use Rattle.wfc_proof.specs.Lines.{nodes_of_lines};
ghost use Rattle.wfc_proof.specs.Spans.{AreWithOneMore, as_span, in_spans, one_span};
ghost use Rattle.wfc_proof.specs.declared.Line.{Line};
ghost use Rattle.wfc_proof.specs.declared.Line.TheVariants.{Remove, Span, Try, Empty, End, Found, Out};

/// Lines whose removals are joined into spans spell the same nodes. No two that stand side by side could still be joined,
/// and no removal is left that is no span. One more line stands behind them, or goes into the last.
pub fn joined_lines_spell()
    ensures spell { (lines : List Line) → AllByRecursion IsWhole lines
        → nodes_of_lines (in_spans lines) ≡ nodes_of_lines lines }
    ensures apart { (lines front back : List Line) (a b : Line)
        → in_spans lines ≡ front ++ a ∷ b ∷ back → one_span (as_span a) (as_span b) ≡ None }
    ensures spans { (lines : List Line) → map as_span (in_spans lines) ≡ in_spans lines }
    ensures more { (lines : List Line) (line : Line) →
        AreWithOneMore (in_spans lines) (as_span line) (in_spans (lines ++ line ∷ [])) }
{}

/// They are the only ones: lines that count as the same, of which no two side by side could still be joined, are the
/// joined lines.
pub fn joined_lines_are_the_only_spans()
    ensures are { (lines : List Line) → AllByRecursion IsWhole lines
        → AreSpansOf lines (in_spans lines) }
    ensures only { (lines spans : List Line) → AllByRecursion IsWhole lines → AreSpansOf lines spans
        → spans ≡ in_spans lines }
    ensures apart { AreSpansOf (Remove 1 4 2 ∷ Remove 1 5 2 ∷ [])
        (Span 1 4 4 2 ∷ Span 1 5 5 2 ∷ []) → ⊥ }
    ensures counts { AreSpansOf (Remove 1 4 2 ∷ []) (Span 1 4 5 2 ∷ []) → ⊥ }
{}

/// Removals are joined into spans as they are told: of another cell, another direction or a value that doesn't follow, or
/// with another line between, they are apart, and a span that is told is joined as its removals are.
pub fn spans_by_example()
    ensures joined { in_spans (Remove 1 4 2 ∷ Remove 1 5 2 ∷ Span 1 6 7 2 ∷ [])
        ≡ Span 1 4 7 2 ∷ [] }
    ensures another_cell { in_spans (Remove 1 4 2 ∷ Remove 2 5 2 ∷ [])
        ≡ Span 1 4 4 2 ∷ Span 2 5 5 2 ∷ [] }
    ensures another_direction { in_spans (Remove 1 4 2 ∷ Remove 1 5 3 ∷ [])
        ≡ Span 1 4 4 2 ∷ Span 1 5 5 3 ∷ [] }
    ensures a_gap { in_spans (Remove 1 4 2 ∷ Remove 1 6 2 ∷ []) ≡ Span 1 4 4 2 ∷ Span 1 6 6 2 ∷ [] }
    ensures backwards { in_spans (Remove 1 5 2 ∷ Remove 1 4 2 ∷ [])
        ≡ Span 1 5 5 2 ∷ Span 1 4 4 2 ∷ [] }
    ensures between { in_spans (Remove 1 4 2 ∷ Try 1 5 ∷ Remove 1 5 2 ∷ Empty 1 ∷ Found ∷ [])
        ≡ Span 1 4 4 2 ∷ Try 1 5 ∷ Span 1 5 5 2 ∷ Empty 1 ∷ Found ∷ [] }
{}

/// One line more stands behind the lines, or makes the last of them longer.
pub fn one_more_by_example()
    ensures behind { AreWithOneMore (Try 1 5 ∷ []) (Span 1 6 6 2) (Try 1 5 ∷ Span 1 6 6 2 ∷ []) }
    ensures longer { AreWithOneMore (Try 1 5 ∷ Span 1 4 5 2 ∷ []) (Span 1 6 6 2)
        (Try 1 5 ∷ Span 1 4 6 2 ∷ []) }
    ensures alone { AreWithOneMore (Span 1 4 5 2 ∷ []) (Span 1 6 6 2) (Span 1 6 6 2 ∷ []) → ⊥ }
{}
