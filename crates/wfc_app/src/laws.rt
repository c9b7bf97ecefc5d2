//! Laws of the definitions, each a function with no body whose contract is the law. They run nothing.

ghost use Rattle.std.specs.Prelude.{List, [], codes, ℕ, ◌∷◌, ◌≡◌, ◌≤◌};
ghost use Rattle.wfc_app.specs.Needed.{needed_choosers};
ghost use Rattle.wfc_grow_command.specs.declared.growing.TheConstants.{GROW_CHOOSERS};
ghost use Rattle.wfc_run_commands.specs.declared.explaining.TheConstants.{EXPLAIN_CHOOSERS};
ghost use Rattle.wfc_words.specs.Commands.{command_row};
ghost use Rattle.wfc_words.specs.Numbers.{seeds_range};
ghost use Rattle.wfc_words.specs.declared.kinds.CommandKind.TheVariants.{BoxFill, BoxRefute, Demo, Explain, Fill, Grow, Race, Refute};

/// A command of several runs has as many choosers of each kind as it looks for, and each other command has one.
pub fn choosers_are_enough()
    ensures race { (words : List (List ℕ)) →
        (seeds_range 0).most ≤ needed_choosers ((command_row Race).name ∷ words) }
    ensures explain { (words : List (List ℕ)) →
        EXPLAIN_CHOOSERS ≤ needed_choosers ((command_row Explain).name ∷ words) }
    ensures grow { (words : List (List ℕ)) →
        GROW_CHOOSERS ≤ needed_choosers ((command_row Grow).name ∷ words) }
    ensures fill { needed_choosers ((command_row Fill).name ∷ codes "race" ∷ []) ≡ 1 }
    ensures refute { needed_choosers ((command_row Refute).name ∷ []) ≡ 1 }
    ensures demo { needed_choosers ((command_row Demo).name ∷ []) ≡ 1 }
    ensures box_fill { needed_choosers ((command_row BoxFill).name ∷ []) ≡ 1 }
    ensures box_refute { needed_choosers ((command_row BoxRefute).name ∷ []) ≡ 1 }
    ensures nothing { needed_choosers [] ≡ 1 }
{}
