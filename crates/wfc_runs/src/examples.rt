//! What the definitions give on small cases. Each function does nothing; its contract is the law.

ghost use Rattle.std.specs.Prelude.{◌≡◌, [], ◌∷◌};
ghost use Rattle.rand_core.specs.Stream.{u64_call};
ghost use Rattle.wfc_choose.specs.declared.RuleKind.TheVariants.{Fewest, Ranked, Scanline};
ghost use Rattle.wfc_problem.specs.declared.Literal.TheVariants.{Is};
ghost use Rattle.wfc_search.specs.Small.{pair, scanline};
ghost use Rattle.wfc_search.specs.declared.Outcome.TheVariants as outcome;
ghost use Rattle.wfc_runs.specs.Alike.{HaveRule, IsPlain, PickAlike};
ghost use Rattle.wfc_runs.specs.Runs.{HoldsOutcome, IsLegalEnd};
ghost use Rattle.wfc_runs.specs.Words.{generator_words};

use crate::RunEnd;

/// The first words of a generator from a small state, as the published generator gives them.
pub fn first_words()
    ensures first { (generator_words (record { state = 7; increment = 5 })).u64_after []
        ≡ 8681540523656324265 }
    ensures second { (generator_words (record { state = 7; increment = 5 })).u64_after (u64_call ∷
        []) ≡ 4369254870819524095 }
{}

/// Rules pick alike where ranks don't count, and not where they do, nor where the kinds differ.
pub fn rules_by_example()
    ensures alike { HaveRule (scanline ∷ record scanline { ranks = 3 ∷ [] } ∷ []) scanline }
    ensures other_kind { HaveRule (scanline ∷ record scanline { kind = Fewest } ∷ []) scanline → ⊥ }
    ensures other_ranks { PickAlike (record { kind = Ranked; ranks = 1 ∷ 0 ∷ [] }
        ∷ record { kind = Ranked; ranks = 0 ∷ 1 ∷ [] } ∷ []) → ⊥ }
    ensures plain { IsPlain Scanline × IsPlain Fewest }
    ensures ranked { IsPlain Ranked → ⊥ }
{}

/// What an end holds, on two cells that must differ: the values that are found, or that there are
/// none, or nothing where the budget is spent.
pub fn ends_by_example(values: &Vec<u16>)
    ensures map { values.now.items ≡ 1 ∷ 0 ∷ [] →
        HoldsOutcome pair (Is 1 0 ∷ []) outcome.Map (RunEnd.Map values.now) }
    ensures other_map { values.now.items ≡ 0 ∷ 1 ∷ [] →
        HoldsOutcome pair (Is 1 0 ∷ []) outcome.Map (RunEnd.Map values.now) → ⊥ }
    ensures no_map { HoldsOutcome pair [] outcome.NoMap RunEnd.NoMap
        × IsLegalEnd pair RunEnd.NoMap }
    ensures spent { HoldsOutcome pair [] outcome.Spent RunEnd.NoMap → ⊥ }
    ensures short { values.now.items ≡ 1 ∷ [] → IsLegalEnd pair (RunEnd.Map values.now) → ⊥ }
{}
