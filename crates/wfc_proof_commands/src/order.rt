//! Laws of the order of refusals, each a function with no body whose contract is the law. They run nothing.

ghost use Rattle.std.specs.Prelude.{Err, List, [], codes, ◌≡◌};
ghost use Rattle.wfc_choose.specs.declared.RuleKind.TheVariants.{Fewest};
ghost use Rattle.wfc_outside.specs.Folder.{File};
ghost use Rattle.wfc_outside.specs.declared.whole.ReadFault.TheVariants.{Missing};
ghost use Rattle.wfc_pins.specs.declared.fault.BuildFault.TheVariants as builds;
ghost use Rattle.wfc_plan.specs.Plan.{outcome};
ghost use Rattle.wfc_plan.specs.Refusing.{IsMadeInOrder, IsRefusedInOrder};
ghost use Rattle.wfc_plan.specs.declared.fault.Fault.TheVariants.{Refused, Unread};
ghost use Rattle.wfc_plan.specs.declared.fault.Refusal.TheVariants as refusals;
ghost use Rattle.wfc_plan.specs.declared.fault.Source.TheVariants.{Pins, Refutation, Steps};
ghost use Rattle.wfc_proof_commands.specs.Checking.{flat_proofs};
ghost use Rattle.wfc_proof_commands.specs.CheckOrder.{check_order};
ghost use Rattle.wfc_proof_commands.specs.CheckTask.{check_plan};
ghost use Rattle.wfc_proof_commands.specs.RefuteCommand.{refute_command};
ghost use Rattle.wfc_proof_commands.specs.RefuteTask.{refute_plan};
ghost use Rattle.wfc_proof_commands.specs.UpgradeOrder.{upgrade_order};
ghost use Rattle.wfc_proof_commands.specs.UpgradeTask.{upgrade_plan};
ghost use Rattle.wfc_render.specs.declared.form.Form.TheVariants.{P6};
ghost use Rattle.wfc_reply.specs.Command.{IsMadeByOrder, IsRefusedByOrder};
ghost use Rattle.wfc_task.specs.Small.{sample_asked, with_pins, with_sample};
ghost use Rattle.wfc_words.specs.RequestView.{RequestView};

/// `refute` has a fault exactly where it is that of the first stage at fault, and comes to a task exactly where all are in
/// order: the chooser before the problem.
pub fn refute_refuses_in_order()
    ensures refused { IsRefusedByOrder refute_command }
    ensures made { IsMadeByOrder refute_command }
{}

/// So it is with `check`: the problem before the refutation.
pub fn check_refuses_in_order()
    ensures refused { (asked : RequestView) (files : List File) → IsRefusedInOrder
        (check_plan flat_proofs asked) files (check_order flat_proofs asked files) }
    ensures made { (asked : RequestView) (files : List File) →
        IsMadeInOrder (check_plan flat_proofs asked) files (check_order flat_proofs asked files) }
{}

/// So it is with `upgrade`: the problem before the refutation.
pub fn upgrade_refuses_in_order()
    ensures refused { (asked : RequestView) (files : List File) →
        IsRefusedInOrder (upgrade_plan asked) files (upgrade_order asked files) }
    ensures made { (asked : RequestView) (files : List File) →
        IsMadeInOrder (upgrade_plan asked) files (upgrade_order asked files) }
{}

/// Of several faults at once the first in the order is named: the chooser before the problem, and the problem before the
/// refutation, which no layout is looked at for.
pub fn first_of_several_faults()
    ensures chooser_and_pins { outcome (refute_plan flat_proofs [] (sample_asked 2 P6))
        (with_sample []) ≡ Err (Refused (refusals.Chooser Fewest)) }
    ensures size_and_refutation { outcome (check_plan flat_proofs (sample_asked 2 P6))
        (with_pins (codes "")) ≡ Err (Refused (refusals.Build builds.SizeBelowN)) }
    ensures refutation { outcome (check_plan flat_proofs (sample_asked 1 P6)) (with_pins (codes ""))
        ≡ Err (Unread Refutation Missing) }
    ensures size_and_upgrade { outcome (upgrade_plan (sample_asked 2 P6)) (with_pins (codes ""))
        ≡ Err (Refused (refusals.Build builds.SizeBelowN)) }
    ensures upgrade { outcome (upgrade_plan (sample_asked 1 P6)) (with_pins (codes ""))
        ≡ Err (Unread Refutation Missing) }
    ensures nothing { (asked : RequestView) (files : List File) → outcome
        (refute_plan flat_proofs [] asked) files ≡ Err (Refused (refusals.Chooser asked.rule)) }
{}
