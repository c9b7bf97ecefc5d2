//! Laws of the definitions, each a function with no body whose contract is the law. They run nothing.

ghost use Rattle.std.specs.Prelude.{Bool, List, Ok, [], codes, ◌↔◌, ◌≡◌};
ghost use Rattle.wfc_box.specs.Boxes.{IsFrame, frame_of};
ghost use Rattle.wfc_box_commands.specs.BoxFillCommand.{box_fill_command};
ghost use Rattle.wfc_box_commands.specs.BoxFillGiven.{IsBoxFillTask};
ghost use Rattle.wfc_box_commands.specs.BoxFillTask.{box_fill_plan};
ghost use Rattle.wfc_box_commands.specs.BoxMaps.{AssignsBoxes, MakesBoxes, OfBox};
ghost use Rattle.wfc_box_commands.specs.BoxPlans.{box_plan};
ghost use Rattle.wfc_box_commands.specs.BoxProofCommands.{box_refute_command};
ghost use Rattle.wfc_box_commands.specs.BoxProofs.{box_proofs, box_shape};
ghost use Rattle.wfc_box_commands.specs.BoxSteps.{frame_asked};
ghost use Rattle.wfc_box_commands.specs.Small.{shape_of_box, small_box, wrapped_box};
ghost use Rattle.wfc_choose.specs.declared.RuleKind.{RuleKind};
ghost use Rattle.wfc_outside.specs.Folder.{File};
ghost use Rattle.wfc_plan.specs.Plan.{outcome};
ghost use Rattle.wfc_plan.specs.Refusing.{IsMadeOf, IsMadeWhere};
ghost use Rattle.wfc_problem.specs.Network.{Network};
ghost use Rattle.wfc_proof_commands.specs.CheckGiven.{IsCheckTask};
ghost use Rattle.wfc_proof_commands.specs.CheckTask.{check, check_plan};
ghost use Rattle.wfc_proof_commands.specs.RefuteGiven.{IsRefuteTask};
ghost use Rattle.wfc_proof_commands.specs.RefuteTask.{refute, refute_plan};
ghost use Rattle.wfc_words.specs.RequestView.{RequestView};

/// The problem of a box is made exactly where it is that of the files.
pub fn box_problems_are_given()
    ensures problem { (asked : RequestView) (files : List File) (P : Network) →
        (outcome (box_plan asked) files ≡ Ok P) ↔ OfBox asked files P }
{}

/// `box-fill` comes to a task exactly where a chooser is there, the file spells the tile set, the box has the form, and
/// the problem is that of the tile set, its stacks, the box and the pins.
pub fn box_fill_tasks_are_given()
    ensures task { (kinds : List RuleKind) (asked : RequestView) →
        IsMadeWhere (box_fill_plan kinds asked) (IsBoxFillTask kinds asked) }
{}

/// `box-refute` comes to a task exactly where a chooser is there and the problem is that of the request, and `box-check`
/// exactly where the problem is, and this is what the file of the refutation is answered.
pub fn box_proof_tasks_are_given()
    ensures refute { (kinds : List RuleKind) (asked : RequestView) → IsMadeOf
        (refute_plan box_proofs kinds asked) refute (IsRefuteTask box_proofs kinds asked) }
    ensures check { (asked : RequestView) →
        IsMadeOf (check_plan box_proofs asked) check (IsCheckTask box_proofs asked) }
{}

/// A legal assignment of the problem of a box makes a box that is asked for, and where there is such a box there is a
/// legal assignment.
pub fn asked_boxes_are_assignments()
    ensures made { (asked : RequestView) (files : List File) (P : Network)
        (posed : OfBox asked files P) → IsFrame (frame_asked asked) → MakesBoxes posed }
    ensures there { (asked : RequestView) (files : List File) (P : Network)
        (posed : OfBox asked files P) → IsFrame (frame_asked asked) → AssignsBoxes posed }
{}

/// What is asked for of a box of two by one by three, by example: its layers wrap or don't as its own words say, and no words
/// of a sample count.
pub fn requests_by_example()
    ensures frame { (wrap : Bool) → frame_asked (wrapped_box wrap) ≡ frame_of 2 1 3 wrap }
    ensures shape { (wrap : Bool) → box_shape (wrapped_box wrap) ≡ shape_of_box 2 1 3 wrap }
    ensures fill_budget { box_fill_command.budget small_box ≡ 7 }
    ensures refute_budget { box_refute_command.budget small_box ≡ 7 }
    ensures fill_no { (files : List File) →
        box_fill_command.IsNo [] small_box files (codes "no map") }
    ensures refute_no { (files : List File) →
        box_refute_command.IsNo [] small_box files (codes "map exists") }
{}
