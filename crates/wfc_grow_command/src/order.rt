//! Laws of the order of refusals, each a function with no body whose contract is the law. They run nothing.

ghost use Rattle.std.specs.Prelude.{Err, List, [], codes, ◌≡◌};
ghost use Rattle.wfc_choose.specs.declared.RuleKind.{RuleKind};
ghost use Rattle.wfc_grow_command.specs.GrowOrder.{grow_order};
ghost use Rattle.wfc_grow_command.specs.GrowTask.{grow_plan};
ghost use Rattle.wfc_grow_command.specs.Small.{HasGrowFault, blocks_asked};
ghost use Rattle.wfc_outside.specs.Folder.{File};
ghost use Rattle.wfc_outside.specs.declared.whole.ReadFault.TheVariants.{Missing};
ghost use Rattle.wfc_pins.specs.declared.fault.BuildFault.TheVariants as builds;
ghost use Rattle.wfc_plan.specs.Plan.{outcome};
ghost use Rattle.wfc_plan.specs.Refusing.{IsMadeInOrder, IsRefusedInOrder};
ghost use Rattle.wfc_plan.specs.declared.fault.Fault.TheVariants.{Refused, Unread};
ghost use Rattle.wfc_plan.specs.declared.fault.Refusal.TheVariants as refusals;
ghost use Rattle.wfc_plan.specs.declared.fault.Source.TheVariants.{Pins, Sample};
ghost use Rattle.wfc_render.specs.declared.form.Form.TheVariants.{Grid, P6};
ghost use Rattle.wfc_render.specs.declared.form.RenderFault.TheVariants.{FormDiffers};
ghost use Rattle.wfc_task.specs.Small.{sample_asked, with_pins, with_sample};
ghost use Rattle.wfc_words.specs.RequestView.{RequestView};

/// `grow` has a fault exactly where it is that of the first stage at fault, and comes to a task exactly where all are in
/// order: the choosers before any file, the layout before the pins file, and the refusals of growth behind its form.
pub fn grow_refuses_in_order()
    ensures refused { (kinds : List RuleKind) (asked : RequestView) (files : List File) →
        IsRefusedInOrder (grow_plan kinds asked) files (grow_order kinds asked files) }
    ensures made { (kinds : List RuleKind) (asked : RequestView) (files : List File) →
        IsMadeInOrder (grow_plan kinds asked) files (grow_order kinds asked files) }
{}

/// Without choosers nothing is looked at.
pub fn choosers_come_first()
    ensures nothing { (asked : RequestView) (files : List File) →
        outcome (grow_plan [] asked) files ≡ Err (Refused (refusals.Chooser asked.rule)) }
{}

/// Of several faults at once the first in the order is named: the layout before the pins file, and behind its form the size of
/// the map, how many blocks it has, and what the lines mean.
pub fn first_of_several_faults()
    ensures file_and_pins { HasGrowFault (sample_asked 1 P6) [] (Unread Sample Missing) }
    ensures layout_and_pins { HasGrowFault (sample_asked 1 P6) (with_sample [])
        (Refused (refusals.Render FormDiffers)) }
    ensures pins_and_size { HasGrowFault (sample_asked 2 Grid) (with_sample [])
        (Unread Pins Missing) }
    ensures size_and_pin { HasGrowFault (sample_asked 2 Grid) (with_pins (codes "pin 99 9 x\n"))
        (Refused (refusals.Build builds.SizeBelowN)) }
    ensures blocks_and_pin { HasGrowFault blocks_asked (with_pins (codes "pin 99 9 x\n"))
        (Refused (refusals.TooManyBlocks 65)) }
    ensures pin { HasGrowFault (sample_asked 1 Grid) (with_pins (codes "pin 99 9 x\n"))
        (Refused (refusals.Build (builds.PinOutside 1))) }
{}
