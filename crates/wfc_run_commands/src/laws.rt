//! Laws of the definitions, each a function with no body whose contract is the law. They run nothing.

ghost use Rattle.std.specs.Prelude.{Err, List, Ok, Some, [], codes, length, ◌↔◌, ◌∷◌, ◌≡◌};
ghost use Rattle.wfc_choose.specs.Pick.{Rule};
ghost use Rattle.wfc_choose.specs.declared.RuleKind.{RuleKind};
ghost use Rattle.wfc_choose.specs.declared.RuleKind.TheVariants.{Ranked, Scanline};
ghost use Rattle.wfc_explain.specs.declared.explained.Explained.TheVariants as said;
ghost use Rattle.wfc_explain.specs.declared.explained.Mark.TheVariants.{Needed, Undecided};
ghost use Rattle.wfc_lines.specs.Explain.{text_of_many_pins};
ghost use Rattle.wfc_outside.specs.Folder.{File};
ghost use Rattle.wfc_pins.specs.PinView.{PinView};
ghost use Rattle.wfc_plan.specs.Plan.{outcome};
ghost use Rattle.wfc_plan.specs.Refusing.{IsMadeWhere};
ghost use Rattle.wfc_plan.specs.declared.fault.Refusal.TheVariants.{RaceTooLarge, TooManyPins};
ghost use Rattle.wfc_problem.specs.Network.{Network, values};
ghost use Rattle.wfc_race.specs.Racers.{new_racer};
ghost use Rattle.wfc_race.specs.declared.RaceEnd.TheVariants as ends;
ghost use Rattle.wfc_render.specs.declared.form.Form.TheVariants.{P6};
ghost use Rattle.wfc_reply.specs.declared.reply.CommandVerdict.TheVariants.{Done, MapExists, NoMap, Spent};
ghost use Rattle.wfc_run_commands.specs.ExplainAnswer.{answer_to, core_text};
ghost use Rattle.wfc_run_commands.specs.ExplainGiven.{IsExplainAsked, IsExplainTask};
ghost use Rattle.wfc_run_commands.specs.ExplainTask.{explain_plan, few_lines};
ghost use Rattle.wfc_run_commands.specs.RaceGiven.{IsRaceTask};
ghost use Rattle.wfc_run_commands.specs.RaceTask.{race, race_fits, race_plan};
ghost use Rattle.wfc_run_commands.specs.Races.{entrants};
ghost use Rattle.wfc_run_commands.specs.Racing.{IsRaceAsked, race_answer, race_line};
ghost use Rattle.wfc_run_commands.specs.Small.{answer_with, answer_without, second_needed, small_race, small_racers};
ghost use Rattle.wfc_run_commands.specs.declared.explaining.TheConstants.{EXPLAIN_CHOOSERS, MAX_LINES};
ghost use Rattle.wfc_run_commands.specs.declared.racing.TheConstants.{MAX_RACE};
ghost use Rattle.wfc_runs.specs.Words.{words_of_seed};
ghost use Rattle.wfc_task.specs.Small.{sample_asked};
ghost use Rattle.wfc_words.specs.RequestView.{RequestView};

/// `race` comes to this task exactly where for each seed a chooser is there, the problem is that of the request, and the
/// race isn't too large.
pub fn race_tasks_are_given()
    ensures task { (kinds : List RuleKind) (asked : RequestView) (files : List File) (P : Network) →
        (outcome (race_plan kinds asked) files ≡ Ok (race P)) ↔ IsRaceTask kinds asked files P }
    ensures limit { MAX_RACE ≡ 8388608 }
{}

/// `explain` comes to this task exactly where a chooser is there for each line that it may take and one more, the problem is
/// that of the request, and its lines aren't too many; then it is that problem, with the numbers of these lines.
pub fn explain_tasks_are_given()
    ensures task { (kinds : List RuleKind) (asked : RequestView) →
        IsMadeWhere (explain_plan kinds asked) (IsExplainTask kinds asked) }
    ensures lines { MAX_LINES ≡ 64 }
    ensures choosers { EXPLAIN_CHOOSERS ≡ 65 }
{}

/// A race at the limit isn't too large, and one above it is, by example.
pub fn races_are_measured_by_example()
    ensures last { (P : Network) → P.cells ≡ 1048576 → values P ≡ 2 → race_fits 4 P ≡ Ok tt }
    ensures past { (P : Network) → P.cells ≡ 2796203 → values P ≡ 1 →
        race_fits 3 P ≡ Err (RaceTooLarge 8388609) }
{}

/// Lines at the limit aren't too many, and one more is, by example; the line of the error stream says how many there are.
pub fn lines_are_counted_by_example()
    ensures last { (lines : List PinView) → length lines ≡ 64 → few_lines lines ≡ Ok tt }
    ensures past { (lines : List PinView) → length lines ≡ 65 →
        few_lines lines ≡ Err (TooManyPins 65) }
    ensures told { text_of_many_pins 65 (codes "a.pins")
        ≡ codes "explain TooManyPins count=65 file=a.pins" }
{}

/// The runners of a race, by example: in the order of their rules, with one seed after the other, and one budget.
pub fn entrants_by_example()
    ensures two { (one other : Rule) → entrants (one ∷ other ∷ []) 50 9
        ≡ new_racer one 50 (words_of_seed 9) ∷ new_racer other 50 (words_of_seed 10) ∷ [] }
    ensures none { entrants [] 50 9 ≡ [] }
{}

/// What is written of a race and of a core, by example: the numbers of the lines are those of the file.
pub fn answers_by_example()
    ensures race { race_line 7 12 (codes "no map") ≡ codes "seed 7 retractions 12 no map\n" }
    ensures core { core_text (3 ∷ 4 ∷ 9 ∷ []) (record { index = 0; mark = Undecided }
        ∷ record { index = 2; mark = Needed } ∷ []) ≡ codes "core 2\nundecided 3\nneeded 9\n" }
    ensures none { core_text (3 ∷ []) [] ≡ codes "core 0\n" }
{}

/// What is answered to the end of a race, by example: the runner that it names is told by its own seed and retractions.
pub fn race_ends_are_answered_by_example()
    ensures map { (rule : Rule) → race_answer small_race (Some (ends.Map 1, small_racers rule))
        ≡ Some (answer_with Done (codes "seed 8 retractions 12 map\n")) }
    ensures no_map { (rule : Rule) → race_answer small_race (Some (ends.NoMap 1, small_racers rule))
        ≡ Some (answer_with NoMap (codes "seed 8 retractions 12 no map\n")) }
    ensures spent { (rule : Rule) → race_answer small_race (Some (ends.AllSpent, small_racers rule))
        ≡ Some (answer_without (Spent 50)) }
{}

/// So of an explanation: a core alone has a text.
pub fn explanations_are_answered_by_example()
    ensures core { answer_to small_race (3 ∷ 4 ∷ []) (said.Core second_needed)
        ≡ answer_with Done (codes "core 1\nneeded 4\n") }
    ensures map_exists { answer_to small_race (3 ∷ []) said.MapExists ≡ answer_without MapExists }
    ensures spent { answer_to small_race (3 ∷ []) said.Spent ≡ answer_without (Spent 50) }
{}

/// Which requests make a race, by example: of at most eight runners, whose seeds fit 64 bits, and which make some turns.
pub fn races_are_asked_for_by_example()
    ensures last { IsRaceAsked
        (record (sample_asked 2 P6) { seeds = 8; seed = 18446744073709551608; quantum = 1 }) }
    ensures none { IsRaceAsked (record (sample_asked 2 P6) { seeds = 0 }) → ⊥ }
    ensures nine { IsRaceAsked (record (sample_asked 2 P6) { seeds = 9 }) → ⊥ }
    ensures past { IsRaceAsked
        (record (sample_asked 2 P6) { seeds = 8; seed = 18446744073709551609 }) → ⊥ }
    ensures idle { IsRaceAsked (record (sample_asked 2 P6) { seeds = 1; quantum = 0 }) → ⊥ }
{}

/// Which requests have lines left out, by example: by a rule that doesn't go by ranks.
pub fn explanations_are_asked_for_by_example()
    ensures plain { IsExplainAsked (record (sample_asked 2 P6) { rule = Scanline }) }
    ensures ranked { IsExplainAsked (record (sample_asked 2 P6) { rule = Ranked }) → ⊥ }
{}
