//! Laws of the problem of a box, each a function with no body whose contract is the law. They run
//! nothing.

ghost use Rattle.std.specs.Prelude.{◌≡◌, ℕ, List};
ghost use Rattle.wfc_tileset.specs.Tiles.{TileSetView};
ghost use Rattle.wfc_box.specs.Boxes.{LayerPin};
ghost use Rattle.wfc_box.specs.declared.frame.Frame.{Frame};
ghost use Rattle.wfc_box.specs.BoxPinView.{BoxPinView};
ghost use Rattle.wfc_box.specs.Built.{IsBuiltByLines, IsRefusedByPairs};
ghost use Rattle.wfc_box.specs.Exactly.{HasAssignedBoxes, HasAssignmentsAgain, HasBoxesAgain, HasLegalBoxes, IsBuiltOfBoxes, MakesBoxProblem};

use crate::MAX_DEPTH;

/// The limit is this number.
pub fn limits_are()
    ensures layers { MAX_DEPTH ≡ 256 }
{}

/// A tile set, stacked pairs, a frame and pins make a problem, where there are few enough pairs of
/// a place and a variant.
pub fn boxes_make_problems()
    ensures problem { (set : TileSetView) (stacked : List (ℕ × ℕ)) (frame : Frame)
        (pins : List LayerPin) → MakesBoxProblem set stacked frame pins }
{}

/// The numbers of a legal box, place by place, are a legal assignment.
pub fn boxes_are_assignments()
    ensures legal { (set : TileSetView) (stacked : List (ℕ × ℕ)) (frame : Frame)
        (pins : List LayerPin) → HasAssignedBoxes set stacked frame pins }
{}

/// The box of a legal assignment is legal.
pub fn assignments_are_boxes()
    ensures legal { (set : TileSetView) (stacked : List (ℕ × ℕ)) (frame : Frame)
        (pins : List LayerPin) → HasLegalBoxes set stacked frame pins }
{}

/// Legal boxes and legal assignments correspond one to one: each is made of the other, and gives it
/// again.
pub fn one_to_one()
    ensures boxes { (set : TileSetView) (stacked : List (ℕ × ℕ)) (frame : Frame)
        (pins : List LayerPin) → HasBoxesAgain set stacked frame pins }
    ensures assignments { (set : TileSetView) (stacked : List (ℕ × ℕ)) (frame : Frame)
        (pins : List LayerPin) → HasAssignmentsAgain set stacked frame pins }
{}

/// What is built of a tile set, stacked pairs, a frame and the lines of a box's pins file is a
/// problem whose legal assignments are exactly the legal boxes.
pub fn what_is_built()
    ensures boxes { (set : TileSetView) (stacked : List (ℕ × ℕ)) (frame : Frame)
        (lines : List BoxPinView) → IsBuiltOfBoxes set stacked frame lines }
{}

/// Too many pairs of a place and a variant are refused before a line at fault, and else the lines
/// decide.
pub fn builds_by_pairs()
    ensures crowded { (set : TileSetView) (stacked : List (ℕ × ℕ)) (frame : Frame)
        (lines : List BoxPinView) → IsRefusedByPairs set stacked frame lines }
    ensures roomy { (set : TileSetView) (stacked : List (ℕ × ℕ)) (frame : Frame)
        (lines : List BoxPinView) → IsBuiltByLines set stacked frame lines }
{}
