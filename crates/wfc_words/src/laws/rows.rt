//! Laws of the table of commands.

ghost use Rattle.std.specs.Prelude.{◌≡◌, ◌++◌, true, false, codes, Some};
ghost use Rattle.clap.specs.Faults.{is_simple_and_free};
ghost use Rattle.wfc_words.specs.Commands.{app_of_command, command_named, command_row, requires_word, takes_word};
ghost use Rattle.wfc_words.specs.Usage.{usage_of};
ghost use Rattle.wfc_words.specs.declared.kinds.CommandKind.{CommandKind};
ghost use Rattle.wfc_words.specs.declared.kinds.CommandKind.TheVariants as kinds;

/// Every command of the table is a simple one, of which `clap` says exactly what its words mean, and its name names it.
pub fn commands_are_simple()
    ensures simple { (kind : CommandKind) →
        is_simple_and_free (app_of_command (command_row kind)) ≡ true }
    ensures named { (kind : CommandKind) → command_named (command_row kind).name ≡ Some kind }
{}

/// Each command by its usage: the words of its row, as `usage_of` shows them.
pub fn rows_by_example()
    ensures learn { usage_of kinds.Learn ≡ codes "learn FILE MODEL [symmetry=] [wrap-in]" }
    ensures fill { usage_of kinds.Fill ≡ codes "fill FILE MODEL WIDTH HEIGHT [symmetry=] [wrap-in]"
        ++ codes " [wrap-out] [pins=] [mask=] [seed=] [budget=] [rule=] [form=]" }
    ensures domains { usage_of kinds.Domains ≡ codes "domains FILE MODEL WIDTH HEIGHT [symmetry=]"
        ++ codes " [wrap-in] [wrap-out] [pins=] [mask=] [steps=]" }
    ensures refute { usage_of kinds.Refute ≡ codes "refute FILE MODEL WIDTH HEIGHT [symmetry=]"
        ++ codes " [wrap-in] [wrap-out] [pins=] [mask=] [seed=] [budget=] [rule=] [format=]" }
    ensures check { usage_of kinds.Check ≡ codes "check FILE MODEL WIDTH HEIGHT REFUTATION"
        ++ codes " [symmetry=] [wrap-in] [wrap-out] [pins=] [mask=]" }
    ensures upgrade { usage_of kinds.Upgrade ≡ codes "upgrade FILE MODEL WIDTH HEIGHT REFUTATION"
        ++ codes " [symmetry=] [wrap-in] [wrap-out] [pins=] [mask=]" }
    ensures demo { usage_of kinds.Demo ≡ codes "demo NUMBER" }
    ensures race { usage_of kinds.Race ≡ codes "race FILE MODEL WIDTH HEIGHT [symmetry=] [wrap-in]"
        ++ codes " [wrap-out] [pins=] [mask=] [seed=] [budget=] [rule=] seeds= [quantum=]" }
    ensures explain { usage_of kinds.Explain ≡ codes "explain FILE MODEL WIDTH HEIGHT [symmetry=]"
        ++ codes " [wrap-in] [wrap-out] pins= [mask=] [seed=] [budget=] [rule=]" }
    ensures grow { usage_of kinds.Grow ≡ codes "grow FILE MODEL WIDTH HEIGHT [symmetry=] [wrap-in]"
        ++ codes " [pins=] [seed=] [budget=] [rule=] [form=] [block=]" }
    ensures box_fill { usage_of kinds.BoxFill ≡ codes "box-fill FILE WIDTH HEIGHT DEPTH"
        ++ codes " [wrap-out] [pins=] [seed=] [budget=] [rule=] [form=]" }
    ensures box_refute { usage_of kinds.BoxRefute ≡ codes "box-refute FILE WIDTH HEIGHT DEPTH"
        ++ codes " [wrap-out] [pins=] [seed=] [budget=] [rule=] [format=]" }
    ensures box_check { usage_of kinds.BoxCheck
        ≡ codes "box-check FILE WIDTH HEIGHT DEPTH REFUTATION [wrap-out] [pins=]" }
    ensures some { requires_word kinds.Race (codes "seeds") ≡ true }
    ensures others { requires_word kinds.Race (codes "seed") ≡ false }
    ensures none { takes_word kinds.Fill (codes "seeds") ≡ false }
{}
