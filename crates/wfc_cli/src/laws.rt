//! Laws of the definitions, each a function with no body whose contract is the law. They run nothing.

ghost use Rattle.std.specs.Prelude.{List, None, Some, [], codes, ℕ, ◌≡◌};
ghost use Rattle.wfc_box.specs.declared.fault.StackFault.TheVariants.{NotArray};
ghost use Rattle.wfc_box_commands.specs.BoxFillTask.{box_fill_plan};
ghost use Rattle.wfc_box_commands.specs.BoxProofs.{box_proofs};
ghost use Rattle.wfc_choose.specs.Pick.{Rule};
ghost use Rattle.wfc_choose.specs.declared.RuleKind.{RuleKind};
ghost use Rattle.wfc_choose.specs.declared.RuleKind.TheVariants.{Ranked};
ghost use Rattle.wfc_blocks.specs.declared.block.Block.{Block};
ghost use Rattle.wfc_cli.specs.Commands.{command_of};
ghost use Rattle.wfc_cli.specs.Delivery.{Tells, open_sink, said_of_words};
ghost use Rattle.wfc_cli.specs.ErrorLine.{fault_text};
ghost use Rattle.wfc_cli.specs.LineClaims.{HasAskedBudget, IsNoSaidBy};
ghost use Rattle.wfc_grid.specs.declared.reading.GridFault.TheVariants as grids;
ghost use Rattle.wfc_cli.specs.Small.{block_asked, of_windows_asked};
ghost use Rattle.wfc_grow_command.specs.GrowTask.{grow_plan};
ghost use Rattle.wfc_grow_command.specs.StuckText.{block_shape};
ghost use Rattle.wfc_lines.specs.Outcome.{no_map_text};
ghost use Rattle.wfc_map_commands.specs.DemoTask.{demo_plan};
ghost use Rattle.wfc_map_commands.specs.DomainsTask.{domains_plan};
ghost use Rattle.wfc_map_commands.specs.FillTask.{fill_plan};
ghost use Rattle.wfc_map_commands.specs.LearnTask.{learn_plan};
ghost use Rattle.wfc_outside.specs.declared.whole.ReadFault.TheVariants as reads;
ghost use Rattle.wfc_outside.specs.Folder.{File};
ghost use Rattle.wfc_pattern.specs.declared.learning.LearnFault.TheVariants.{SampleBelowN};
ghost use Rattle.wfc_picture.specs.declared.palette.PaletteFault.TheVariants.{TooManyColours};
ghost use Rattle.wfc_pins.specs.declared.fault.BuildFault.TheVariants as builds;
ghost use Rattle.wfc_pins.specs.declared.pins.PinFault.TheVariants as pins;
ghost use Rattle.wfc_pins.specs.declared.steps.RangeFault.TheVariants.{OutOfRange};
ghost use Rattle.wfc_pins.specs.declared.steps.StepFault.TheVariants.{NothingToUndo};
ghost use Rattle.wfc_plan.specs.Fault.{class_of, status_of};
ghost use Rattle.wfc_plan.specs.declared.fault.Fault.TheVariants.{Refused, Unread};
ghost use Rattle.wfc_plan.specs.declared.fault.FaultClass.TheVariants.{Input};
ghost use Rattle.wfc_plan.specs.declared.fault.Refusal.TheVariants as refusals;
ghost use Rattle.wfc_plan.specs.declared.fault.Source.TheVariants as sources;
ghost use Rattle.wfc_ppm.specs.declared.reading.PpmFault.TheVariants.{Header};
ghost use Rattle.wfc_proof_commands.specs.Checking.{flat_proofs, shape_asked};
ghost use Rattle.wfc_proof_commands.specs.CheckTask.{check_plan};
ghost use Rattle.wfc_proof_commands.specs.RefuteTask.{refute_plan};
ghost use Rattle.wfc_proof_commands.specs.UpgradeTask.{upgrade_plan};
ghost use Rattle.wfc_reply.specs.Command.{IsMadeByOrder, IsRefusedByOrder};
ghost use Rattle.wfc_run_commands.specs.ExplainTask.{explain_plan};
ghost use Rattle.wfc_run_commands.specs.RaceTask.{race_plan};
ghost use Rattle.wfc_task.specs.Small.{tiles_asked};
ghost use Rattle.wfc_tiled.specs.declared.reading.MaskFault.TheVariants.{AllHoles};
ghost use Rattle.wfc_tileset.specs.declared.fault.TileFault.TheVariants as tiles;
ghost use Rattle.wfc_words.specs.declared.fault.CommandFault.TheVariants as words;
ghost use Rattle.wfc_words.specs.RequestView.{RequestView};
ghost use Rattle.wfc_words.specs.declared.kinds.CommandKind.{CommandKind};
ghost use Rattle.wfc_words.specs.declared.kinds.CommandKind.TheVariants as commands;

/// What the error stream took with a line and with none, by example.
pub fn lines_are_told_by_example()
    ensures whole { Tells (Some no_map_text) (open_sink [] 3)
        (open_sink (codes "wfc: no map\n") 3) }
    ensures none { Tells None (record { told = None; faults = 3 })
        (record { told = None; faults = 3 }) }
    ensures front { Tells (Some no_map_text) (open_sink [] 3) (open_sink (codes "wfc: no") 4) }
    ensures uncounted { Tells (Some no_map_text) (open_sink [] 3)
        (open_sink (codes "wfc: no") 3) → ⊥ }
    ensures other { Tells (Some no_map_text) (open_sink [] 3) (open_sink (codes "no map") 4) → ⊥ }
    ensures silent { Tells None (open_sink [] 3) (open_sink (codes "w") 3) → ⊥ }
{}

/// Each command is refused for the first of its stages that has a fault, in its order, and comes to a task where none has.
pub fn commands_refuse_in_order()
    ensures refused { (kind : CommandKind) → IsRefusedByOrder (command_of kind) }
    ensures made { (kind : CommandKind) → IsMadeByOrder (command_of kind) }
{}

/// Which command each kind has, by its plan.
pub fn commands_are_of_their_kinds()
    ensures fill { (kinds : List RuleKind) (asked : RequestView) →
        (command_of commands.Fill).plan kinds asked ≡ fill_plan kinds asked }
    ensures refute { (kinds : List RuleKind) (asked : RequestView) →
        (command_of commands.Refute).plan kinds asked ≡ refute_plan flat_proofs kinds asked }
    ensures check { (kinds : List RuleKind) (asked : RequestView) →
        (command_of commands.Check).plan kinds asked ≡ check_plan flat_proofs asked }
    ensures upgrade { (kinds : List RuleKind) (asked : RequestView) →
        (command_of commands.Upgrade).plan kinds asked ≡ upgrade_plan asked }
    ensures learn { (kinds : List RuleKind) (asked : RequestView) →
        (command_of commands.Learn).plan kinds asked ≡ learn_plan asked }
    ensures domains { (kinds : List RuleKind) (asked : RequestView) →
        (command_of commands.Domains).plan kinds asked ≡ domains_plan asked }
    ensures demo { (kinds : List RuleKind) (asked : RequestView) →
        (command_of commands.Demo).plan kinds asked ≡ demo_plan kinds asked }
    ensures race { (kinds : List RuleKind) (asked : RequestView) →
        (command_of commands.Race).plan kinds asked ≡ race_plan kinds asked }
    ensures explain { (kinds : List RuleKind) (asked : RequestView) →
        (command_of commands.Explain).plan kinds asked ≡ explain_plan kinds asked }
    ensures grow { (kinds : List RuleKind) (asked : RequestView) →
        (command_of commands.Grow).plan kinds asked ≡ grow_plan kinds asked }
    ensures box_fill { (kinds : List RuleKind) (asked : RequestView) →
        (command_of commands.BoxFill).plan kinds asked ≡ box_fill_plan kinds asked }
    ensures box_refute { (kinds : List RuleKind) (asked : RequestView) →
        (command_of commands.BoxRefute).plan kinds asked ≡ refute_plan box_proofs kinds asked }
    ensures box_check { (kinds : List RuleKind) (asked : RequestView) →
        (command_of commands.BoxCheck).plan kinds asked ≡ check_plan box_proofs asked }
{}

/// What each command says where its answer is no. `check`, `box-check`, `upgrade` and `grow` name a place and are left out;
/// `learn` never says it.
pub fn each_no_has_its_words()
    ensures fill { IsNoSaidBy commands.Fill (codes "no map") }
    ensures demo { IsNoSaidBy commands.Demo (codes "no map") }
    ensures race { IsNoSaidBy commands.Race (codes "no map") }
    ensures box_fill { IsNoSaidBy commands.BoxFill (codes "no map") }
    ensures domains { IsNoSaidBy commands.Domains (codes "no consistent domains") }
    ensures refute { IsNoSaidBy commands.Refute (codes "map exists") }
    ensures explain { IsNoSaidBy commands.Explain (codes "map exists") }
    ensures box_refute { IsNoSaidBy commands.BoxRefute (codes "map exists") }
    ensures learn { (rules : List Rule) (asked : RequestView) (files : List File) (text : List ℕ) →
        (command_of commands.Learn).IsNo rules asked files text → ⊥ }
{}

/// The budget of each command that makes runs: the demonstration has one of its own.
pub fn runs_have_the_budget_asked_for()
    ensures fill { HasAskedBudget commands.Fill }
    ensures refute { HasAskedBudget commands.Refute }
    ensures race { HasAskedBudget commands.Race }
    ensures explain { HasAskedBudget commands.Explain }
    ensures grow { HasAskedBudget commands.Grow }
    ensures box_fill { HasAskedBudget commands.BoxFill }
    ensures box_refute { HasAskedBudget commands.BoxRefute }
    ensures demo { (asked : RequestView) → (command_of commands.Demo).budget asked ≡ 1000 }
{}

/// The refutation of a stuck block has the shape that `check` looks for where it is asked for a map of the block's sides which doesn't
/// go on over its edges.
pub fn stuck_blocks_are_checked_as_maps()
    ensures shape { (asked : RequestView) (n : ℕ) (block : Block) →
        block_shape (of_windows_asked asked n) block ≡ shape_asked (block_asked asked n block) }
{}

/// The line of a file that can't be read, by example: the sample of the request is `a`, its pins `p`, its steps `s`, its mask `m` and
/// the refutation `r`; that of a tile's picture says which tile it is of.
pub fn unread_files_are_told_by_example()
    ensures sample { fault_text tiles_asked (Unread sources.Sample reads.Missing)
        ≡ codes "device Missing file=a" }
    ensures pins { fault_text tiles_asked (Unread sources.Pins reads.Failed)
        ≡ codes "device Failed file=p" }
    ensures steps { fault_text tiles_asked (Unread sources.Steps reads.TooLong)
        ≡ codes "file TooLong file=s" }
    ensures mask { fault_text tiles_asked (Unread sources.Mask reads.Missing)
        ≡ codes "device Missing file=m" }
    ensures refutation { fault_text tiles_asked (Unread sources.Refutation reads.Missing)
        ≡ codes "device Missing file=r" }
    ensures missing { fault_text tiles_asked (Unread (sources.Picture 3) reads.Missing)
        ≡ codes "device Missing tile=3 file=a" }
    ensures failed { fault_text tiles_asked (Unread (sources.Picture 3) reads.Failed)
        ≡ codes "device Failed tile=3 file=a" }
    ensures long { fault_text tiles_asked (Unread (sources.Picture 3) reads.TooLong)
        ≡ codes "tiles BadPicture tile=3 file=a" }
    ensures memory { fault_text tiles_asked (Unread sources.Pins reads.NoMemory)
        ≡ codes "out of memory" }
{}

/// The line of a refusal, and the file that it names, by example.
pub fn refusals_are_told_by_example()
    ensures chooser { fault_text tiles_asked (Refused (refusals.Chooser Ranked))
        ≡ codes "chooser missing rule=ranked" }
    ensures grid { fault_text tiles_asked (Refused (refusals.Grid sources.Sample (grids.Ragged 2)))
        ≡ codes "grid Ragged line=2 file=a" }
    ensures mask { fault_text tiles_asked (Refused (refusals.Grid sources.Mask (grids.Ragged 2)))
        ≡ codes "mask Ragged line=2 file=m" }
    ensures learn { fault_text tiles_asked (Refused (refusals.Learn SampleBelowN))
        ≡ codes "learn SampleBelowN file=a" }
    ensures pins { fault_text tiles_asked (Refused (refusals.Pins (pins.BadLine 4)))
        ≡ codes "pins BadLine line=4 file=p" }
    ensures pin { fault_text tiles_asked (Refused (refusals.Build (builds.PinOutside 5)))
        ≡ codes "build PinOutside line=5 file=p" }
    ensures range { fault_text tiles_asked (Refused (refusals.Range (OutOfRange 6)))
        ≡ codes "steps OutOfRange line=6 file=s" }
    ensures long { fault_text tiles_asked (Refused (refusals.TooLong sources.Refutation))
        ≡ codes "file TooLong file=r" }
    ensures ppm { fault_text tiles_asked (Refused (refusals.Ppm sources.Sample (Header 8)))
        ≡ codes "ppm Header at=8 file=a" }
    ensures colours { fault_text tiles_asked (Refused (refusals.Colours (TooManyColours 70)))
        ≡ codes "palette TooManyColours at=70 file=a" }
    ensures steps { fault_text tiles_asked (Refused (refusals.Steps (NothingToUndo 9)))
        ≡ codes "steps NothingToUndo line=9 file=s" }
    ensures holes { fault_text tiles_asked (Refused (refusals.Mask AllHoles))
        ≡ codes "mask AllHoles file=m" }
    ensures stacks { fault_text tiles_asked (Refused (refusals.Stacks NotArray))
        ≡ codes "stack NotArray file=a" }
    ensures race { fault_text tiles_asked (Refused (refusals.RaceTooLarge 8388609))
        ≡ codes "race TooLarge product=8388609" }
    ensures many_pins { fault_text tiles_asked (Refused (refusals.TooManyPins 65))
        ≡ codes "explain TooManyPins count=65 file=p" }
    ensures blocks { fault_text tiles_asked (Refused (refusals.TooManyBlocks 81))
        ≡ codes "grow TooManyBlocks count=81" }
    ensures memory { fault_text tiles_asked (Refused refusals.NoMemory) ≡ codes "out of memory" }
    ensures tiles { fault_text tiles_asked (Refused (refusals.Tiles (tiles.BadClass 7)))
        ≡ codes "tiles BadClass tile=7 file=a" }
{}

/// A step that isn't in the problem is a fault of what was given, and has its status.
pub fn steps_out_of_range_have_a_status()
    ensures class { class_of (refusals.Range (OutOfRange 6)) ≡ Input }
    ensures status { status_of (Refused (refusals.Range (OutOfRange 6))) ≡ 4 }
{}

/// What words say that are no request, by example: one line and the status 3, and 6 where memory ran out.
pub fn refused_words_by_example()
    ensures status { (said_of_words words.Refused).status ≡ 3 }
    ensures line { (said_of_words words.Refused).told ≡ Some (codes "command refused") }
    ensures nothing { (said_of_words words.Refused).text ≡ None }
    ensures memory { (said_of_words words.NoMemory).status ≡ 6 }
{}
