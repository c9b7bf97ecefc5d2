//! Laws of the order of refusals, each a function with no body whose contract is the law. They run nothing.

ghost use Rattle.std.specs.Prelude.{Err, List, None, [], codes, ◌∷◌, ◌≡◌, ◌≤◌};
ghost use Rattle.wfc_choose.specs.declared.RuleKind.{RuleKind};
ghost use Rattle.wfc_choose.specs.declared.RuleKind.TheVariants.{Fewest};
ghost use Rattle.wfc_outside.specs.Folder.{File, file_of};
ghost use Rattle.wfc_outside.specs.declared.whole.ReadFault.TheVariants.{Missing};
ghost use Rattle.wfc_plan.specs.Plan.{outcome};
ghost use Rattle.wfc_plan.specs.Refusing.{IsMadeInOrder, IsRefusedInOrder};
ghost use Rattle.wfc_plan.specs.declared.fault.Fault.TheVariants.{Refused, Unread};
ghost use Rattle.wfc_plan.specs.declared.fault.Refusal.TheVariants as refusals;
ghost use Rattle.wfc_plan.specs.declared.fault.Source.TheVariants.{Pins};
ghost use Rattle.wfc_render.specs.declared.form.Form.TheVariants.{P6};
ghost use Rattle.wfc_run_commands.specs.ExplainOrder.{explain_order};
ghost use Rattle.wfc_run_commands.specs.ExplainTask.{explain_plan};
ghost use Rattle.wfc_run_commands.specs.RaceOrder.{race_order};
ghost use Rattle.wfc_run_commands.specs.RaceTask.{race_plan};
ghost use Rattle.wfc_run_commands.specs.Small.{AreTooManyLines, HasExplainFault, HoldsOfTiles, two_seeds_asked};
ghost use Rattle.wfc_task.specs.Small.{AreBeside, sample_asked, tiles_asked, with_sample};
ghost use Rattle.wfc_task.specs.Stages.{Teaches};
ghost use Rattle.wfc_task.specs.declared.lesson.Taught.{Taught};
ghost use Rattle.wfc_words.specs.RequestView.{RequestView};

/// `race` has a fault exactly where it is that of the first stage at fault, and comes to a task exactly where all are in
/// order: the choosers before the problem, and the problem before its measure.
pub fn race_refuses_in_order()
    ensures refused { (kinds : List RuleKind) (asked : RequestView) (files : List File) →
        IsRefusedInOrder (race_plan kinds asked) files (race_order kinds asked files) }
    ensures made { (kinds : List RuleKind) (asked : RequestView) (files : List File) →
        IsMadeInOrder (race_plan kinds asked) files (race_order kinds asked files) }
{}

/// The same of `explain`: the lines of the pins file are counted behind their form, before the mask and the problem.
pub fn explain_refuses_in_order()
    ensures refused { (kinds : List RuleKind) (asked : RequestView) (files : List File) →
        IsRefusedInOrder (explain_plan kinds asked) files (explain_order kinds asked files) }
    ensures made { (kinds : List RuleKind) (asked : RequestView) (files : List File) →
        IsMadeInOrder (explain_plan kinds asked) files (explain_order kinds asked files) }
{}

/// Of several faults at once the first in the order is named.
pub fn first_of_several_faults()
    ensures chooser_and_pins { outcome (race_plan (Fewest ∷ []) two_seeds_asked) (with_sample [])
        ≡ Err (Refused (refusals.Chooser Fewest)) }
    ensures pins { outcome (race_plan (Fewest ∷ Fewest ∷ []) two_seeds_asked) (with_sample [])
        ≡ Err (Unread Pins Missing) }
    ensures nothing { (asked : RequestView) (files : List File) → 1 ≤ asked.seeds →
        outcome (race_plan [] asked) files ≡ Err (Refused (refusals.Chooser asked.rule)) }
{}

/// So of `explain`: too many lines are named before the map has no place for a window, and before a mask that isn't there.
pub fn first_of_several_faults_of_lines()
    ensures nothing { (asked : RequestView) (files : List File) →
        outcome (explain_plan [] asked) files ≡ Err (Refused (refusals.Chooser asked.rule)) }
    ensures lines_and_size { (files : List File) (lesson : Taught) →
        Teaches (sample_asked 2 P6) files lesson → AreTooManyLines (sample_asked 2 P6) files }
    ensures pins_and_mask { HoldsOfTiles (λ files. AreBeside files None →
        HasExplainFault tiles_asked files (Unread Pins Missing)) }
    ensures lines_and_mask { HoldsOfTiles (λ files. file_of files (codes "m") ≡ None →
        AreTooManyLines tiles_asked files) }
{}
