//! Laws of explanations, each a function with no body whose contract is the law. They run nothing.

ghost use Rattle.std.specs.Prelude.{◌≡◌, ℕ, length};
ghost use Rattle.rand_core.specs.Stream.{Stream};
ghost use Rattle.wfc_choose.specs.Pick.{Rule};
ghost use Rattle.wfc_explain.specs.Blame.{IsTrueExplained, KeepsMaps};
ghost use Rattle.wfc_explain.specs.Trials.{explanation_of};
ghost use Rattle.wfc_explain.specs.Pinned.{IsPinned, PinnedView};
ghost use Rattle.wfc_explain.specs.Problems.{HoldsOfSamplePins, HoldsOfTilesPins, IsSampleKept, IsTilesKept};

/// What an explanation says is true, whatever the rule, the budget and the words.
pub fn explanations_are_true()
    ensures blamed { (v : PinnedView) → IsPinned v → (rule : Rule) (budget : ℕ) (words : Stream) →
        IsTrueExplained v (explanation_of v rule budget words) }
{}

/// Where more lines have a map, fewer have it too.
pub fn fewer_lines_have_maps()
    ensures falls { (v : PinnedView) → IsPinned v → KeepsMaps v }
{}

/// Where a sample's pins are found, there is one for each line, and the problem that is built of the
/// lines that are kept is that of their pins.
pub fn kept_sample_lines_are_built()
    ensures as_many { HoldsOfSamplePins
        (λ patterns palette output lines s. length s.pins ≡ length lines) }
    ensures built { HoldsOfSamplePins IsSampleKept }
{}

/// So it is for a tile set.
pub fn kept_tile_lines_are_built()
    ensures as_many { HoldsOfTilesPins
        (λ tiles mask wrap lines s. length s.pins ≡ length lines) }
    ensures built { HoldsOfTilesPins IsTilesKept }
{}
