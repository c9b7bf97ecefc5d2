//! Laws of blocks and growth, each a function with no body whose contract is the law. They run
//! nothing.

ghost use Rattle.std.specs.Prelude.{◌≡◌, ℕ, ◌<◌, ◌≤◌, false, List, Contains};
ghost use Rattle.wfc_blocks.specs.Grown.{GoesByRefusals};
ghost use Rattle.wfc_blocks.specs.Promises.{BuildStuckProblem, GrowsLegal, GrowsWhole, HasNoMapWhereStopped, HasSpentBlock, HoldsOfStopped, MeanStuckPins};
ghost use Rattle.wfc_model.specs.Legal.{Pin, Rules};
ghost use Rattle.wfc_model.specs.Raster.{Raster};
ghost use Rattle.wfc_model.specs.Window.{starts};
ghost use Rattle.wfc_choose.specs.Pick.{Rule};
ghost use Rattle.wfc_pattern.specs.Patterns.{PatternsView, IsPatterns};
ghost use Rattle.wfc_overlap.specs.Bridge.{AreInside, IsRoom};
ghost use Rattle.wfc_picture.specs.declared.symbol.Symbol.{Symbol};
ghost use Rattle.wfc_pins.specs.PinView.{PinView};
ghost use Rattle.wfc_search.specs.declared.Outcome.TheVariants.{NoMap};
ghost use Rattle.wfc_blocks.specs.Blocks.{Area, IsBlockIn, block_at, block_count, blocks_of, output_of_block, HasBlock, HasOneBlock, HasPixelBlock, output_at};
ghost use Rattle.wfc_blocks.specs.Canvas.{Canvas, pins_of_block};
ghost use Rattle.wfc_blocks.specs.Growth.{HasBlockOutcome, IsGrowable, IsSetBefore, Terms, growth_of, spent};
ghost use Rattle.wfc_blocks.specs.declared.block.Block.{Block};

use crate::MAX_BLOCKS;

/// The limit as a plain number.
pub fn limit_is()
    ensures blocks { MAX_BLOCKS ≡ 64 }
{}

/// Each place of an area at which a window begins has its window in a block, and in no other.
pub fn windows_lie_in_one_block()
    ensures some { (n : ℕ) (area : Area) (x y : ℕ) → n ≤ area.side →
        x < starts area.width n false → y < starts area.height n false → HasBlock n area x y }
    ensures one { (n : ℕ) (area : Area) (x y : ℕ) → HasOneBlock n area x y }
{}

/// Each pixel of an area that has room for a window lies in a block.
pub fn pixels_lie_in_blocks()
    ensures some { (n : ℕ) (area : Area) (x y : ℕ) → 0 < n → n ≤ area.side → n ≤ area.width →
        n ≤ area.height → x < area.width → y < area.height → HasPixelBlock n area x y }
{}

/// Each block has room for a window, and it lies in the area. None is wider or higher than the first.
pub fn blocks_have_room()
    ensures room { (patterns : PatternsView) (area : Area) (k : ℕ) → IsGrowable patterns area →
        k < block_count patterns.n area → IsRoom patterns (output_at patterns.n area k) }
    ensures inside { (n : ℕ) (area : Area) (k : ℕ) → n ≤ area.side → k < block_count n area →
        0 < n → n ≤ area.width → n ≤ area.height → IsBlockIn area (block_at n area k) }
    ensures width { (n : ℕ) (area : Area) (k : ℕ) →
        (block_at n area k).width ≤ (block_at n area 0).width }
    ensures height { (n : ℕ) (area : Area) (k : ℕ) →
        (block_at n area k).height ≤ (block_at n area 0).height }
{}

/// The pins of a block lie in it.
pub fn pins_lie_in_their_block()
    ensures inside { (pins : List Pin) (canvas : Canvas) (block : Block) →
        AreInside (output_of_block block) (pins_of_block pins canvas block) }
{}

/// What is grown goes by the refusals alone: it is the fault of the first of them, or the end of growth
/// by the pins that the lines mean.
pub fn growth_goes_by_its_refusals()
    ensures split { (patterns : PatternsView) (palette : List Symbol) (area : Area)
        (lines : List PinView) (rule : Rule) → GoesByRefusals patterns palette area lines rule }
{}

/// A map that is grown is legal: each window of the whole lies in one block, later blocks keep what
/// earlier ones set, and each pin and ban lies in a block. Each of its pixels was set.
pub fn grown_maps_are_legal()
    ensures legal { (sample : Raster) (rules : Rules) (area : Area) (terms : Terms) →
        GrowsLegal sample rules area terms }
    ensures set { (sample : Raster) (rules : Rules) (area : Area) (terms : Terms) →
        GrowsWhole sample rules area terms }
{}

/// Where growth stops at a block, that is one of the area's, those before it set what is set, its
/// run ends without a map, and its pins admit none.
pub fn stuck_blocks_have_no_map()
    ensures among { HoldsOfStopped
        (λ area terms block canvas. Contains (blocks_of terms.patterns.n area) block) }
    ensures before { HoldsOfStopped IsSetBefore }
    ensures room { HoldsOfStopped
        (λ area terms block canvas. IsRoom terms.patterns (output_of_block block)) }
    ensures ends { HoldsOfStopped
        (λ area terms block canvas. HasBlockOutcome terms canvas block NoMap) }
    ensures none { (sample : Raster) (rules : Rules) (area : Area) (terms : Terms) →
        HasNoMapWhereStopped sample rules area terms }
{}

/// The lines of a block at which growth stopped, read by a palette that names the numbers of the
/// patterns, are the block's pins. So what is built with them is the block's problem.
pub fn stuck_lines_are_the_pins()
    ensures meant { (palette : List Symbol) (lines : List PinView) (area : Area) (terms : Terms) →
        MeanStuckPins palette lines area terms }
    ensures built { (palette : List Symbol) (lines : List PinView) (area : Area) (terms : Terms) →
        BuildStuckProblem palette lines area terms }
{}

/// Where growth is spent, the run of one of the area's blocks is, from what those before it set.
pub fn spent_growth_has_a_spent_block()
    ensures spent { (area : Area) (terms : Terms) → IsPatterns terms.patterns →
        IsGrowable terms.patterns area → growth_of area terms ≡ spent → HasSpentBlock area terms }
{}
