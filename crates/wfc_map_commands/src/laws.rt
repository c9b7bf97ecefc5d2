//! Laws of the definitions, each a function with no body whose contract is the law. They run nothing.

ghost use Rattle.wfc_plan.specs.Kinds.{HasChoosers};
ghost use Rattle.std.specs.Prelude.{Err, List, Ok, [], codes, drop, false, map, true, ℕ, ◌∷◌, ◌≡◌};
ghost use Rattle.wfc_choose.specs.Pick.{Rule};
ghost use Rattle.wfc_choose.specs.declared.RuleKind.{RuleKind};
ghost use Rattle.wfc_choose.specs.declared.RuleKind.TheVariants.{Fewest};
ghost use Rattle.wfc_map_commands.specs.DemoAnswer.{demo_budget, demo_text};
ghost use Rattle.wfc_map_commands.specs.DemoClaims.{IsLegalDemo, demo_rules};
ghost use Rattle.wfc_map_commands.specs.DemoTask.{demo, demo_made, demo_plan, demo_work};
ghost use Rattle.wfc_map_commands.specs.Demonstration.{demo_output, demo_patterns, demo_picture, demo_problem, demo_side};
ghost use Rattle.wfc_map_commands.specs.Demonstration.{demo_symbol, demo_symbols};
ghost use Rattle.wfc_map_commands.specs.DomainsAnswer.{standings};
ghost use Rattle.wfc_map_commands.specs.DomainsGiven.{IsDomainsMade};
ghost use Rattle.wfc_map_commands.specs.DomainsTask.{domains, domains_made, domains_plan};
ghost use Rattle.wfc_map_commands.specs.FillClaims.{FillWork, HasOneMap};
ghost use Rattle.wfc_map_commands.specs.FillGiven.{IsFillMade, IsTileFillMade};
ghost use Rattle.wfc_map_commands.specs.FillTask.{fill, fill_made, fill_plan, tiles_filled};
ghost use Rattle.wfc_map_commands.specs.LearnGiven.{IsLearnMade};
ghost use Rattle.wfc_map_commands.specs.LearnTask.{learn, learn_made, learn_plan, learn_tiles};
ghost use Rattle.wfc_map_commands.specs.Small.{step_line, two_and_undo};
ghost use Rattle.wfc_map_commands.specs.declared.demonstration.Demonstration.{Demonstration};
ghost use Rattle.wfc_map_commands.specs.declared.filling.Filled.TheVariants as filled;
ghost use Rattle.wfc_map_commands.specs.declared.filling.Filling.{Filling};
ghost use Rattle.wfc_map_commands.specs.declared.filling.TileFilling.{TileFilling};
ghost use Rattle.wfc_map_commands.specs.declared.learning.Learned.TheVariants as learned;
ghost use Rattle.wfc_map_commands.specs.declared.stepping.Stepping.{Stepping};
ghost use Rattle.wfc_model.specs.Raster.{raster_of};
ghost use Rattle.wfc_outside.specs.Folder.{File};
ghost use Rattle.wfc_outside.specs.declared.whole.ReadFault.TheVariants.{Missing};
ghost use Rattle.wfc_overlap.specs.Sample.{output_with, problem_of_sample};
ghost use Rattle.wfc_pattern.specs.Learning.{patterns_of};
ghost use Rattle.wfc_picture.specs.declared.symbol.Symbol.TheVariants.{Char};
ghost use Rattle.wfc_pins.specs.declared.steps.Step.TheVariants.{Assume, Undo};
ghost use Rattle.wfc_plan.specs.Plan.{outcome};
ghost use Rattle.wfc_plan.specs.Refusing.{IsMadeOf};
ghost use Rattle.wfc_plan.specs.declared.fault.Fault.TheVariants.{Refused, Unread};
ghost use Rattle.wfc_plan.specs.declared.fault.Fault.{Fault};
ghost use Rattle.wfc_plan.specs.declared.fault.Refusal.TheVariants.{Chooser};
ghost use Rattle.wfc_plan.specs.declared.fault.Source.TheVariants.{Sample};
ghost use Rattle.wfc_problem.specs.declared.Literal.TheVariants.{Is, Not};
ghost use Rattle.wfc_task.specs.Maps.{flat_maps};
ghost use Rattle.wfc_task.specs.Sources.{is_of_windows};
ghost use Rattle.wfc_task.specs.TileGiven.{IsTileSetOf};
ghost use Rattle.wfc_task.specs.declared.lesson.Taught.{Taught};
ghost use Rattle.wfc_tileset.specs.Tiles.{TileSetView};
ghost use Rattle.wfc_words.specs.RequestView.{RequestView};

/// `learn` of a sample comes to these patterns and this palette exactly where the file spells a sample that teaches them.
pub fn learn_tasks_are_given()
    ensures task { (asked : RequestView) →
        is_of_windows asked.source ≡ true → IsLearnMade asked }
{}

/// `learn` of tiles comes to this tile set exactly where the file spells it, with the pictures that it names.
pub fn learn_tasks_of_tiles_are_given()
    ensures task { (asked : RequestView) → is_of_windows asked.source ≡ false →
        IsMadeOf (learn_plan asked) learn_tiles (IsTileSetOf asked) }
{}

/// `fill` of a sample comes to this task exactly where a chooser is there, the sample teaches the patterns, the map has the layout,
/// and the problem is that of the patterns, the output and the pins.
pub fn fill_tasks_are_given()
    ensures task { (kinds : List RuleKind) (asked : RequestView) →
        is_of_windows asked.source ≡ true → IsFillMade kinds asked }
{}

/// `fill` of tiles comes to this task exactly where a chooser is there, the file spells the tile set, the map has the layout,
/// and the problem is that of the tile set, the mask, the output and the pins.
pub fn fill_tasks_of_tiles_are_given()
    ensures task { (kinds : List RuleKind) (asked : RequestView) →
        is_of_windows asked.source ≡ false → IsTileFillMade kinds asked }
{}

/// `domains` comes to this task exactly where the problem is that of the request and the steps are those of the file.
pub fn domains_tasks_are_given()
    ensures task { (asked : RequestView) → IsDomainsMade asked }
{}

/// `demo` comes to its task wherever a chooser of the fewest values is there, whatever its number and the files are.
pub fn demo_tasks_are_given()
    ensures task { (kinds : List RuleKind) (asked : RequestView) (files : List File) → HasChoosers 1
        kinds Fewest → outcome (demo_plan kinds asked) files ≡ Ok (demo_work asked.number) }
{}

/// What stands before steps and after each, by example: an undo takes the last literal that stands.
pub fn standings_by_example()
    ensures none { standings [] [] ≡ [] ∷ [] }
    ensures undone { standings [] two_and_undo
        ≡ [] ∷ (Is 0 0 ∷ []) ∷ (Is 0 0 ∷ Not 1 2 ∷ []) ∷ (Is 0 0 ∷ []) ∷ [] }
    ensures all_undone { standings (Is 3 7 ∷ []) (step_line 1 Undo
        ∷ step_line 2 (Assume (Is 0 1)) ∷ []) ≡ (Is 3 7 ∷ []) ∷ [] ∷ (Is 0 1 ∷ []) ∷ [] }
{}

/// The four lines of a demonstration, by example.
pub fn demonstrations_by_example()
    ensures lines { demo_text 9 2116 0 1
        ≡ codes "patterns 9\ncells 2116\nretractions 0\nstatus 1\n" }
{}

/// The map in which a run ends is one map.
pub fn found_maps_are_one()
    ensures one { (rules : List Rule) (asked : RequestView) (files : List File)
        (work : FillWork flat_maps rules asked files) → HasOneMap asked work }
{}

/// The pixels of demonstrations, by example.
pub fn demonstrated_pixels_by_example()
    ensures down { demo_symbol 11 8 4 ≡ Char 35 }
    ensures across { demo_symbol 11 7 10 ≡ Char 35 }
    ensures between { demo_symbol 11 10 8 ≡ Char 46 }
    ensures far_down { demo_symbol 88 12 7 ≡ Char 35 }
    ensures far_across { demo_symbol 88 7 10 ≡ Char 35 }
    ensures far_between { demo_symbol 88 10 12 ≡ Char 46 }
{}

/// The last two rows of a square of demonstrated pixels, and a square in numbers, by example.
pub fn demonstrated_squares_by_example()
    ensures rows { drop 24 (demo_symbols 11 6) ≡ map (λ byte. Char byte) (codes "#...#.######") }
    ensures numbers { demo_picture 11 2 ≡ raster_of 2 2 (0 ∷ 0 ∷ 0 ∷ 1 ∷ []) }
{}

/// How windows are taken and compared in each demonstration: so its grid teaches its patterns, and so its map is posed.
pub fn demonstrations_have_rules()
    ensures rules { demo_rules
        ≡ record { n = 3; symmetry = 1; wrap_in = false; wrap_out = false } }
    ensures taught { (n : ℕ) → patterns_of (demo_picture n 24) demo_rules.n demo_rules.symmetry
        demo_rules.wrap_in ≡ Ok (demo_patterns n) }
    ensures posed { (n : ℕ) → demo_problem n
        ≡ problem_of_sample (demo_patterns n) (output_with 48 48 demo_rules.wrap_out) [] }
{}

/// Each demonstration has a map: its own lines on a grid of the map's size. The grid that it learns from is too small, and the
/// lines of another demonstration are refused.
pub fn demonstrations_have_maps()
    ensures itself { (n : ℕ) → IsLegalDemo n (demo_picture n 48) }
    ensures small { (n : ℕ) → IsLegalDemo n (demo_picture n 24) → ⊥ }
    ensures other { IsLegalDemo 0 (demo_picture 1 48) → ⊥ }
{}

/// The first faults where nothing is there: a chooser before the sample, and the sample before all else.
pub fn first_faults()
    ensures chooser { (asked : RequestView) (files : List File) →
        outcome (fill_plan [] asked) files ≡ Err (Refused (Chooser asked.rule)) }
    ensures demo { (asked : RequestView) (files : List File) →
        outcome (demo_plan [] asked) files ≡ Err (Refused (Chooser Fewest)) }
    ensures sample { (asked : RequestView) →
        outcome (learn_plan asked) [] ≡ Err (Unread Sample Missing) }
    ensures steps { (asked : RequestView) →
        outcome (domains_plan asked) [] ≡ Err (Unread Sample Missing) }
{}

/// A task is made of what its call answers, and a fault is the call's.
pub fn tasks_are_made_of_answers()
    ensures learn { (taught : Taught) → learn_made (Ok (learned.Windows taught))
        ≡ Ok (learn taught.patterns taught.palette) }
    ensures learn_tiles { (set : TileSetView) →
        learn_made (Ok (learned.Tiles set)) ≡ Ok (learn_tiles set) }
    ensures learn_fault { (fault : Fault) → learn_made (Err fault) ≡ Err fault }
    ensures fill { (asked : RequestView) (made : Filling) → fill_made asked
        (Ok (filled.Windows made)) ≡ Ok (fill made.patterns made.palette made.layout made.problem) }
    ensures fill_tiles { (asked : RequestView) (made : TileFilling) →
        fill_made asked (Ok (filled.Tiles made)) ≡ Ok (tiles_filled asked made) }
    ensures fill_fault { (asked : RequestView) (fault : Fault) →
        fill_made asked (Err fault) ≡ Err fault }
    ensures domains { (made : Stepping) →
        domains_made (Ok made) ≡ Ok (domains made.problem made.steps.items) }
    ensures domains_fault { (fault : Fault) → domains_made (Err fault) ≡ Err fault }
    ensures demo { (made : Demonstration) →
        demo_made (Ok made) ≡ Ok (demo made.patterns made.problem) }
    ensures demo_fault { (fault : Fault) → demo_made (Err fault) ≡ Err fault }
{}

/// The sides of the grid that a demonstration learns from and of the map that it makes, and the budget of its run.
pub fn demonstrations_have_sides()
    ensures grid { demo_side ≡ 24 }
    ensures map { demo_output ≡ 48 }
    ensures budget { demo_budget ≡ 1000 }
{}
