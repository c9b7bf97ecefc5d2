//! Laws of the definitions, each a function with no body whose contract is the law. They run nothing.

ghost use Rattle.std.specs.Prelude.{◌≡◌, ◌↔◌, ℕ, All, IsTrue, map, true, false, List, [], ◌∷◌, ◌++◌, codes, Ok, Err, Some, None};
ghost use Rattle.wfc_text.specs.Line.{LineView};
ghost use Rattle.wfc_pins.specs.Small.{pin_and_ban, steps_past, three_cells, three_kinds, three_steps};
ghost use Rattle.wfc_pins.specs.Words.{is_skipped, read_lines, words_of};
ghost use Rattle.wfc_pins.specs.PinView.{PinView};
ghost use Rattle.wfc_pins.specs.Pins.{HasFirstBad, pin_said, pins_of};
ghost use Rattle.wfc_pins.specs.Steps.{AreSteps, HasFirstPast, IsNoStep, IsOneMore, IsRightStep, IsSpentUndo, IsStepIn, IsUndoTooMany};
ghost use Rattle.wfc_pins.specs.Steps.{range_fault, step_fits, step_of_line, steps_of};
ghost use Rattle.wfc_pins.specs.declared.pins.PinFault.TheVariants as pin_faults;
ghost use Rattle.wfc_pins.specs.declared.steps.Step.{Step};
ghost use Rattle.wfc_pins.specs.declared.steps.Step.TheVariants.{Assume, Undo};
ghost use Rattle.wfc_pins.specs.declared.steps.StepLine.{StepLine};
ghost use Rattle.wfc_pins.specs.declared.steps.StepFault.TheVariants as step_faults;
ghost use Rattle.wfc_pins.specs.declared.steps.RangeFault.TheVariants.{OutOfRange};
ghost use Rattle.wfc_problem.specs.Network.{Network};
ghost use Rattle.wfc_problem.specs.declared.Literal.TheVariants.{Is, Not};

/// Blanks and TABs part words, also at a line's ends. A line is passed over where its first byte is `#` or it has no word.
pub fn words()
    ensures parted { words_of (codes " pin\t\t12  3 a#\t")
        ≡ codes "pin" ∷ codes "12" ∷ codes "3" ∷ codes "a#" ∷ [] }
    ensures none { words_of (codes " \t ") ≡ [] }
    ensures comment { is_skipped (codes "# pin") ≡ true }
    ensures blank { is_skipped (codes "\t ") ≡ true }
    ensures empty { is_skipped [] ≡ true }
    ensures later { is_skipped (codes " #") ≡ false }
{}

/// A pin and a ban of two lines, between two that are passed over. The symbol is as it stands; the last line has no end.
pub fn pins()
    ensures read { pins_of (codes "#\npin 2 05 \\s\r\n\nban 1 0 9,9,9") ≡ Ok pin_and_ban }
    ensures bad { pins_of (codes "pin 0 1 a\npin 0 a\nban 0 0 a b") ≡ Err (pin_faults.BadLine 2) }
{}

/// Steps in order, and the faults of a line: no step, and an `undo` too many, whichever comes first.
pub fn steps()
    ensures read { steps_of (codes "choose 7 2\n\nforbid 1 3\nundo") ≡ Ok three_kinds }
    ensures undone { steps_of (codes "choose 7 2\nundo\nundo\nundo 1")
        ≡ Err (step_faults.NothingToUndo 3) }
    ensures bad { steps_of (codes "choose 7 2\nundo 1\nundo\nundo") ≡ Err (step_faults.BadLine 2) }
{}

/// A line behind steps without a fault is at fault where it says no step, or undoes where as many undo as assume; any other
/// is one step more.
pub fn faults_of_steps()
    ensures bad { (before after : List LineView) (line : LineView) (steps : List StepLine) →
        AreSteps before steps → step_of_line line ≡ None → IsNoStep before line after }
    ensures nothing { (before after : List LineView) (line : LineView) (steps : List StepLine) →
        AreSteps before steps → IsSpentUndo before line → IsUndoTooMany before line after }
    ensures right { (before : List LineView) (line : LineView) (steps : List StepLine) (step : Step)
        → AreSteps before steps → IsRightStep before line step → IsOneMore before line steps step }
{}

/// A text is read as pins exactly where each of its lines says one, and else the first line that says none is at fault.
pub fn faults_of_pins()
    ensures each { (text : List ℕ) (pins : List PinView)
        → (pins_of text ≡ Ok pins) ↔ (map pin_said (read_lines text) ≡ map Some pins) }
    ensures first { (text : List ℕ) (n : ℕ) → (pins_of text ≡ Err (pin_faults.BadLine n))
        ↔ HasFirstBad text n }
{}

/// Steps fit a problem exactly where each speaks of its cells and values, and else the first line that doesn't is at fault.
pub fn steps_in_range()
    ensures test { (P : Network) (step : Step) → IsTrue (step_fits P step) ↔ IsStepIn P step }
    ensures all { (P : Network) (steps : List StepLine) →
        (range_fault P steps ≡ None) ↔ All (λ (l : StepLine). IsStepIn P l.step) steps }
    ensures first { (P : Network) (steps : List StepLine) (n : ℕ) →
        (range_fault P steps ≡ Some (OutOfRange n)) ↔ HasFirstPast P steps n }
{}

/// In a problem of three cells and two values: the last cell and the last value, and what is past them.
pub fn small_steps()
    ensures both { map (step_fits three_cells) (Assume (Is 1 2) ∷ Assume (Not 1 2) ∷ Undo ∷ [])
        ≡ true ∷ true ∷ true ∷ [] }
    ensures past { map (step_fits three_cells) steps_past
        ≡ false ∷ false ∷ false ∷ false ∷ [] }
    ensures first { range_fault three_cells three_steps ≡ Some (OutOfRange 5) }
{}
