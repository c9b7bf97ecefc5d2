//! Laws of the order of refusals, each a function with no body whose contract is the law. They run nothing.

ghost use Rattle.std.specs.Prelude.{Err, List, None, Ok, Some, [], codes, ℕ, ◌∷◌, ◌≡◌};
ghost use Rattle.wfc_box.specs.declared.fault.StackFault.{StackFault};
ghost use Rattle.wfc_box_commands.specs.BoxFillTask.{box_fill_plan};
ghost use Rattle.wfc_box_commands.specs.BoxOrder.{box_fill_order, box_order};
ghost use Rattle.wfc_box_commands.specs.BoxPlans.{StackedSet, box_plan};
ghost use Rattle.wfc_box_commands.specs.BoxProofCommands.{box_refute_command};
ghost use Rattle.wfc_box_commands.specs.BoxProofs.{box_proofs};
ghost use Rattle.wfc_box_commands.specs.Small.{HasBadStacks, HasBadTiles, HasBoxFault, HasLaidBoxFault, IsBoxFillRefused};
ghost use Rattle.wfc_box_commands.specs.Small.{box_filled_by_one, box_laid, large_box, pairs_fault, pictured_box, small_box};
ghost use Rattle.wfc_choose.specs.declared.RuleKind.{RuleKind};
ghost use Rattle.wfc_choose.specs.declared.RuleKind.TheVariants.{Fewest};
ghost use Rattle.wfc_outside.specs.Folder.{File};
ghost use Rattle.wfc_outside.specs.declared.whole.ReadFault.TheVariants.{Missing};
ghost use Rattle.wfc_pins.specs.declared.pins.PinFault.TheVariants as pins;
ghost use Rattle.wfc_plan.specs.Plan.{outcome};
ghost use Rattle.wfc_plan.specs.Refusing.{IsMadeInOrder, IsPlanRefused, IsRefusedInOrder};
ghost use Rattle.wfc_plan.specs.declared.fault.Fault.TheVariants.{Refused, Unread};
ghost use Rattle.wfc_plan.specs.declared.fault.Refusal.TheVariants as refusals;
ghost use Rattle.wfc_plan.specs.declared.fault.Source.TheVariants.{Pins, Sample};
ghost use Rattle.wfc_proof_commands.specs.CheckOrder.{check_order};
ghost use Rattle.wfc_proof_commands.specs.CheckTask.{check_plan};
ghost use Rattle.wfc_proof_commands.specs.RefuteTask.{refute_plan};
ghost use Rattle.wfc_render.specs.declared.form.Form.TheVariants.{Cells};
ghost use Rattle.wfc_render.specs.declared.form.RenderFault.TheVariants.{FormDiffers};
ghost use Rattle.wfc_reply.specs.Command.{IsMadeByOrder, IsRefusedByOrder};
ghost use Rattle.wfc_tileset.specs.Document.{set_with};
ghost use Rattle.wfc_tileset.specs.Tiles.{TileView};
ghost use Rattle.wfc_tileset.specs.declared.fault.TileFault.{TileFault};
ghost use Rattle.wfc_tileset.specs.declared.tile.Pair.{Pair};
ghost use Rattle.wfc_words.specs.RequestView.{RequestView};

/// The problem of a box has a fault exactly where it is that of the first stage at fault, and is made exactly where all
/// are in order.
pub fn boxes_are_refused_in_order()
    ensures refused { (asked : RequestView) (files : List File) →
        IsRefusedInOrder (box_plan asked) files (box_order asked files) }
    ensures made { (asked : RequestView) (files : List File) →
        IsMadeInOrder (box_plan asked) files (box_order asked files) }
{}

/// So it is with `box-fill`: the chooser before all else, and the layout before the pins.
pub fn box_fill_refuses_in_order()
    ensures refused { (kinds : List RuleKind) (asked : RequestView) (files : List File) →
        IsRefusedInOrder (box_fill_plan kinds asked) files (box_fill_order kinds asked files) }
    ensures made { (kinds : List RuleKind) (asked : RequestView) (files : List File) →
        IsMadeInOrder (box_fill_plan kinds asked) files (box_fill_order kinds asked files) }
{}

/// So it is with `box-refute`: the chooser before the problem.
pub fn box_refute_refuses_in_order()
    ensures refused { IsRefusedByOrder box_refute_command }
    ensures made { IsMadeByOrder box_refute_command }
{}

/// So it is with `box-check`: the problem before the refutation.
pub fn box_check_refuses_in_order()
    ensures refused { (asked : RequestView) (files : List File) →
        IsRefusedInOrder (check_plan box_proofs asked) files (check_order box_proofs asked files) }
    ensures made { (asked : RequestView) (files : List File) →
        IsMadeInOrder (check_plan box_proofs asked) files (check_order box_proofs asked files) }
{}

/// Where nothing is there: the chooser before the tile set, and the tile set before all else.
pub fn first_faults()
    ensures fill { (asked : RequestView) (files : List File) →
        outcome (box_fill_plan [] asked) files ≡ Err (Refused (refusals.Chooser asked.rule)) }
    ensures refute { (asked : RequestView) (files : List File) → outcome
        (refute_plan box_proofs [] asked) files ≡ Err (Refused (refusals.Chooser asked.rule)) }
    ensures tiles { box_filled_by_one small_box [] ≡ Err (Unread Sample Missing) }
    ensures check { outcome (check_plan box_proofs small_box) [] ≡ Err (Unread Sample Missing) }
{}

/// Of a document with two faults that of its tile set is named, and one of its stacks before the layout and the pins.
pub fn first_of_several_faults_of_documents()
    ensures tiles_and_stacks { (asked : RequestView) (files : List File) (why : TileFault) →
        HasBadTiles asked files why → IsPlanRefused (box_plan asked) files (refusals.Tiles why) }
    ensures stacks_and_layout { (asked : RequestView) (files : List File) (why : StackFault) →
        HasBadStacks asked files why → IsBoxFillRefused asked files (refusals.Stacks why) }
    ensures stacks_and_pins { (asked : RequestView) (files : List File) (why : StackFault) →
        HasBadStacks asked files why → IsPlanRefused (box_plan asked) files (refusals.Stacks why) }
{}

/// Of several faults behind a tile set with its stacks the first in the order is named: the layout before the pins; a pins
/// file that isn't there, or a line that is none of pins, before too many pairs of a place and a variant; and those before a
/// line of pins that lies outside. No layout is looked at where no box is written.
pub fn first_of_several_faults()
    ensures layout_and_pins { HasBoxFault (box_fill_plan (Fewest ∷ []) pictured_box) pictured_box
        None (λ _. Refused (refusals.Render FormDiffers)) }
    ensures pins_and_size { HasLaidBoxFault large_box None (λ _. Unread Pins Missing) }
    ensures lines_and_size { HasLaidBoxFault large_box (Some (codes "pin 9999 0 0 x\npin 0 0 x\n"))
        (λ _. Refused (refusals.Pins (pins.BadLine 2))) }
    ensures size_and_pin { HasLaidBoxFault large_box (Some (codes "pin 9999 0 0 x\n"))
        (pairs_fault large_box) }
    ensures refute { HasBoxFault (refute_plan box_proofs (Fewest ∷ []) pictured_box) pictured_box
        None (λ _. Unread Pins Missing) }
    ensures check { HasBoxFault (check_plan box_proofs pictured_box) pictured_box None
        (λ _. Unread Pins Missing) }
{}

/// The boxes of these laws: one has no layout, whatever its tile set is, and the other has one where no tile has a picture.
pub fn boxes_are_laid_or_not()
    ensures none { (made : StackedSet) → box_laid pictured_box made ≡ Err FormDiffers }
    ensures cells { (tiles : List TileView) (pairs : List Pair) (stacked : List (ℕ × ℕ)) →
        box_laid large_box (set_with tiles pairs, stacked) ≡ Ok Cells }
{}
