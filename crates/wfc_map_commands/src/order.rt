//! Laws of the order of refusals, each a function with no body whose contract is the law. They run nothing.

ghost use Rattle.std.specs.Prelude.{Err, List, None, Some, [], codes, ◌≡◌};
ghost use Rattle.wfc_choose.specs.declared.RuleKind.{RuleKind};
ghost use Rattle.wfc_choose.specs.declared.RuleKind.TheVariants.{Fewest};
ghost use Rattle.wfc_map_commands.specs.DemoOrder.{demo_order};
ghost use Rattle.wfc_map_commands.specs.DemoTask.{demo_plan};
ghost use Rattle.wfc_map_commands.specs.DomainsOrder.{domains_order};
ghost use Rattle.wfc_map_commands.specs.DomainsTask.{domains_plan};
ghost use Rattle.wfc_map_commands.specs.FillOrder.{fill_order};
ghost use Rattle.wfc_map_commands.specs.FillTask.{fill_plan};
ghost use Rattle.wfc_map_commands.specs.LearnOrder.{learn_order};
ghost use Rattle.wfc_map_commands.specs.LearnTask.{learn_plan};
ghost use Rattle.wfc_map_commands.specs.Small.{HasPlainFault, HasTilesFault, LacksPicture, fill_outcome, pictured_asked};
ghost use Rattle.wfc_outside.specs.Folder.{File};
ghost use Rattle.wfc_outside.specs.declared.whole.ReadFault.TheVariants.{Missing};
ghost use Rattle.wfc_pattern.specs.declared.learning.LearnFault.TheVariants.{SampleBelowN};
ghost use Rattle.wfc_pins.specs.declared.fault.BuildFault.TheVariants as builds;
ghost use Rattle.wfc_pins.specs.declared.pins.PinFault.TheVariants as pins;
ghost use Rattle.wfc_plan.specs.Plan.{outcome};
ghost use Rattle.wfc_plan.specs.Refusing.{IsMadeInOrder, IsRefusedInOrder};
ghost use Rattle.wfc_plan.specs.declared.fault.Fault.TheVariants.{Refused, Unread};
ghost use Rattle.wfc_plan.specs.declared.fault.Refusal.TheVariants as refusals;
ghost use Rattle.wfc_plan.specs.declared.fault.Source.TheVariants.{Mask, Picture, Pins, Sample, Steps};
ghost use Rattle.wfc_render.specs.declared.form.Form.TheVariants.{Grid, P6};
ghost use Rattle.wfc_render.specs.declared.form.RenderFault.TheVariants.{FormDiffers};
ghost use Rattle.wfc_task.specs.Small.{sample_asked, with_pins, with_sample};
ghost use Rattle.wfc_words.specs.RequestView.{RequestView};

/// `fill` has a fault exactly where it is that of the first stage at fault, and comes to a task exactly where all are in order.
pub fn fill_refuses_in_order()
    ensures refused { (kinds : List RuleKind) (asked : RequestView) (files : List File) →
        IsRefusedInOrder (fill_plan kinds asked) files (fill_order kinds asked files) }
    ensures made { (kinds : List RuleKind) (asked : RequestView) (files : List File) →
        IsMadeInOrder (fill_plan kinds asked) files (fill_order kinds asked files) }
{}

/// `learn` has a fault exactly where it is that of the first stage at fault, and comes to a task exactly where all are in order.
pub fn learn_refuses_in_order()
    ensures refused { (asked : RequestView) (files : List File) →
        IsRefusedInOrder (learn_plan asked) files (learn_order asked files) }
    ensures made { (asked : RequestView) (files : List File) →
        IsMadeInOrder (learn_plan asked) files (learn_order asked files) }
{}

/// So it is with `domains`: the problem before the steps.
pub fn domains_refuses_in_order()
    ensures refused { (asked : RequestView) (files : List File) →
        IsRefusedInOrder (domains_plan asked) files (domains_order asked files) }
    ensures made { (asked : RequestView) (files : List File) →
        IsMadeInOrder (domains_plan asked) files (domains_order asked files) }
{}

/// So it is with `demo`, where nothing but a chooser can be missing.
pub fn demo_refuses_in_order()
    ensures refused { (kinds : List RuleKind) (asked : RequestView) (files : List File) →
        IsRefusedInOrder (demo_plan kinds asked) files (demo_order kinds) }
    ensures made { (kinds : List RuleKind) (asked : RequestView) (files : List File) →
        IsMadeInOrder (demo_plan kinds asked) files (demo_order kinds) }
{}

/// Of several faults at once the first in the order is named: `fill` of a sample.
pub fn first_of_several_faults()
    ensures chooser_and_file { outcome (fill_plan [] (sample_asked 1 P6)) []
        ≡ Err (Refused (refusals.Chooser Fewest)) }
    ensures file_and_pins { fill_outcome (sample_asked 1 P6) [] ≡ Err (Unread Sample Missing) }
    ensures learning_and_layout { fill_outcome (sample_asked 3 P6) (with_sample [])
        ≡ Err (Refused (refusals.Learn SampleBelowN)) }
    ensures layout_and_pins { fill_outcome (sample_asked 1 P6) (with_sample [])
        ≡ Err (Refused (refusals.Render FormDiffers)) }
    ensures pins_and_size { fill_outcome (sample_asked 2 Grid) (with_sample [])
        ≡ Err (Unread Pins Missing) }
    ensures lines_and_size { fill_outcome (sample_asked 2 Grid) (with_pins (codes "pin\n"))
        ≡ Err (Refused (refusals.Pins (pins.BadLine 1))) }
    ensures size_and_pin { fill_outcome (sample_asked 2 Grid) (with_pins (codes "pin 9 9 x\n"))
        ≡ Err (Refused (refusals.Build builds.SizeBelowN)) }
    ensures pin { fill_outcome (sample_asked 1 Grid) (with_pins (codes "pin 9 9 x\n"))
        ≡ Err (Refused (refusals.Build (builds.PinOutside 1))) }
{}

/// And of a tile set: the picture of its first tile before the layout, and the layout, which a tile set without pictures
/// doesn't have in this form, before the pins; and, whatever the tile set is, the pins before the mask, and the mask before
/// what the pins mean.
pub fn first_of_several_faults_of_tiles()
    ensures picture_and_layout { (files : List File) → LacksPicture files
        → fill_outcome pictured_asked files ≡ Err (Unread (Picture 0) Missing) }
    ensures layout_and_pins { HasPlainFault None (Refused (refusals.Render FormDiffers)) }
    ensures pins_and_mask { HasTilesFault None (Unread Pins Missing) }
    ensures lines_and_mask { HasTilesFault (Some (codes "pin\n"))
        (Refused (refusals.Pins (pins.BadLine 1))) }
    ensures mask_and_pin { HasTilesFault (Some (codes "pin 9 9 x\n")) (Unread Mask Missing) }
{}

/// And of what stands behind a problem: the problem before the steps, which no layout is looked at for.
pub fn first_of_several_faults_of_steps()
    ensures pins_and_steps { outcome (domains_plan (sample_asked 2 P6)) (with_sample [])
        ≡ Err (Unread Pins Missing) }
    ensures size_and_steps { outcome (domains_plan (sample_asked 2 P6)) (with_pins (codes ""))
        ≡ Err (Refused (refusals.Build builds.SizeBelowN)) }
    ensures steps { outcome (domains_plan (sample_asked 1 P6)) (with_pins (codes ""))
        ≡ Err (Unread Steps Missing) }
{}
