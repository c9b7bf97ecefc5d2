//! Laws of the definitions, each a function with no body whose contract is the law. They run nothing.

ghost use Rattle.std.specs.List.{flat_map};
ghost use Rattle.std.specs.Prelude.{All, List, Ok, [], codes, false, true, ◌++◌, ◌-◌, ◌^◌, ◌∷◌, ◌≡◌};
ghost use Rattle.wfc_blocks.specs.Blocks.{area_with};
ghost use Rattle.wfc_blocks.specs.Small.{block_with};
ghost use Rattle.wfc_blocks.specs.declared.grown.GrowFault.TheVariants as faults;
ghost use Rattle.wfc_choose.specs.declared.RuleKind.{RuleKind};
ghost use Rattle.wfc_choose.specs.declared.RuleKind.TheVariants.{Fewest, Ranked, Scanline};
ghost use Rattle.wfc_grow_command.specs.GrowAnswer.{stuck_verdict};
ghost use Rattle.wfc_grow_command.specs.GrowClaims.{grow_rules};
ghost use Rattle.wfc_grow_command.specs.GrowGiven.{IsGrowAsked, IsGrowTask};
ghost use Rattle.wfc_grow_command.specs.GrowTask.{area_asked, grow_plan, grow_refusal};
ghost use Rattle.wfc_grow_command.specs.Small.{ban_of_b, flat_shape, pin_line, pin_of_a, seeded_asked, stuck_of_two};
ghost use Rattle.wfc_grow_command.specs.StuckText.{block_shape, block_writing, pin_text, stuck_text};
ghost use Rattle.wfc_grow_command.specs.WrittenPins.{IsWrittenPin, numbered_from};
ghost use Rattle.wfc_grow_command.specs.declared.growing.TheConstants.{GROW_CHOOSERS};
ghost use Rattle.wfc_pins.specs.PinView.{PinView};
ghost use Rattle.wfc_pins.specs.Pins.{pins_of};
ghost use Rattle.wfc_pins.specs.declared.fault.BuildFault.TheVariants as builds;
ghost use Rattle.wfc_plan.specs.Refusing.{IsMadeWhere};
ghost use Rattle.wfc_plan.specs.declared.fault.Refusal.TheVariants as refusals;
ghost use Rattle.wfc_render.specs.declared.form.Form.TheVariants.{P6};
ghost use Rattle.wfc_reply.specs.declared.reply.CommandVerdict.TheVariants as verdicts;
ghost use Rattle.wfc_task.specs.Small.{sample_asked};
ghost use Rattle.wfc_words.specs.RequestView.{RequestView};

/// `grow` comes to this task exactly where a chooser is there for each block that a map may have and one more, the sample,
/// the layout and the lines of pins are those of the request, and the map can be grown.
pub fn grow_tasks_are_given()
    ensures task { (kinds : List RuleKind) (asked : RequestView) →
        IsMadeWhere (grow_plan kinds asked) (IsGrowTask kinds asked) }
    ensures choosers { GROW_CHOOSERS ≡ 65 }
{}

/// The refusals of growth: too many blocks have their own, and the others are those of a problem.
pub fn growth_is_refused_so()
    ensures side { grow_refusal faults.SizeBelowN ≡ refusals.Build builds.SizeBelowN }
    ensures blocks { grow_refusal (faults.TooManyBlocks 81) ≡ refusals.TooManyBlocks 81 }
    ensures pairs { grow_refusal (faults.TooLarge 9) ≡ refusals.Build (builds.TooLarge 9) }
    ensures outside { grow_refusal (faults.PinOutside 3) ≡ refusals.Build (builds.PinOutside 3) }
    ensures symbol { grow_refusal (faults.UnknownSymbol 4)
        ≡ refusals.Build (builds.UnknownSymbol 4) }
    ensures memory { grow_refusal faults.NoMemory ≡ refusals.NoMemory }
{}

/// What is asked for: the sides of the map and of its blocks, and windows of the sample on a map that doesn't wrap.
pub fn growth_is_asked_so()
    ensures area { area_asked (record (sample_asked 2 P6) { width = 7; height = 5; block = 3 })
        ≡ area_with 7 5 3 }
    ensures rules { grow_rules (record (sample_asked 3 P6) { symmetry = 8; wrap_in = true })
        ≡ record { n = 3; symmetry = 8; wrap_in = true; wrap_out = false } }
{}

/// Which requests have a map grown, by example: of a sample, in blocks that hold a window and are no longer than a map may be,
/// by a rule that doesn't go by ranks.
pub fn growth_is_asked_for_by_example()
    ensures least { IsGrowAsked (record (sample_asked 2 P6) { block = 2; rule = Scanline }) }
    ensures last { IsGrowAsked (record (sample_asked 6 P6) { block = 4096; rule = Fewest }) }
    ensures narrow { IsGrowAsked (record (sample_asked 3 P6) { block = 2; rule = Fewest }) → ⊥ }
    ensures past { IsGrowAsked (record (sample_asked 2 P6) { block = 4097; rule = Fewest }) → ⊥ }
    ensures images { IsGrowAsked (record (sample_asked 2 P6) { block = 2; symmetry = 9 }) → ⊥ }
    ensures ranked { IsGrowAsked (record (sample_asked 2 P6) { block = 2; rule = Ranked }) → ⊥ }
{}

/// What is written of a stuck block, by example: its lines are those of a pins file.
pub fn stuck_blocks_are_written_so()
    ensures text { stuck_text stuck_of_two
        ≡ codes "stuck 12 7 3 4 pins 2\npin 1 10 a\nban 2 0 1,2,3\n" }
    ensures read { pins_of (pin_text (pin_of_a 0) ++ pin_text (ban_of_b 6))
        ≡ Ok (pin_of_a 1 ∷ ban_of_b 2 ∷ []) }
    ensures verdict { stuck_verdict (record { block = block_with 5 12 7 3 4; pins = [] })
        ≡ verdicts.Stuck 12 7 }
    ensures writing { block_writing seeded_asked (block_with 5 12 7 3 4)
        ≡ record { format = 2; shape = flat_shape 6 3 4 8 true; budget = 9; seed = 105 } }
    ensures shape { block_shape (record seeded_asked { wrap_in = false; wrap_out = true })
        (block_with 5 12 7 3 4) ≡ flat_shape 6 3 4 8 false }
{}

/// Pins that are written as lines of a pins file are read back as they were, but for their numbers, which count from 1, where
/// their columns and rows fit 32 bits and their symbols can stand in a sample.
pub fn written_pins_are_read_back()
    ensures read { (lines : List PinView) → All IsWrittenPin lines →
        pins_of (flat_map pin_text lines) ≡ Ok (numbered_from 1 lines) }
    ensures numbers { numbered_from 6 (pin_of_a 0 ∷ ban_of_b 0 ∷ [])
        ≡ pin_of_a 6 ∷ ban_of_b 7 ∷ [] }
    ensures last { IsWrittenPin (pin_line 9 false (2 ^ 32 - 1) (2 ^ 32 - 1) (codes "\\s")) }
    ensures column { IsWrittenPin (pin_line 9 true (2 ^ 32) 0 (codes "a")) → ⊥ }
    ensures row { IsWrittenPin (pin_line 9 true 0 (2 ^ 32) (codes "a")) → ⊥ }
{}
