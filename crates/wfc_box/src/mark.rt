//! A pin or a ban in a layer, by the number of a variant.

ghost use Rattle.std.specs.Prelude.{◌≡◌, ◌≤◌};
ghost use Rattle.wfc_problem.specs.declared.TheConstants.{MAX_PAIRS};
ghost use Rattle.wfc_box.specs.BoxProblem.{pin_cell};
ghost use Rattle.wfc_box.specs.Boxes.{IsFrame, IsInBox, places_in};

use crate::frame::{Frame, area};
use std::marker::Model;
use wfc_places::PinMark;

/// What stands in a column of a row of a layer has the number, or hasn't.
#[derive(Drop)]
pub(crate) struct BoxMark {
    pub layer: u32,
    pub mark: PinMark,
}

impl Model for BoxMark {
    ghost use Rattle.wfc_box.specs.Boxes.{LayerPin};

    ghost Value = { LayerPin };

    ghost view = { λ m. record { layer = m.layer; pin = m.mark } };
}

/// The cell of a mark's place.
pub(crate) fn mark_cell(frame: Frame, mark: &BoxMark) -> u32
    requires frame { IsFrame frame }
    requires few { places_in frame ≤ MAX_PAIRS }
    requires inside { IsInBox frame mark.now }
    ensures value { result ≡ pin_cell frame mark.now }
{
    mark.layer * area(frame) + (mark.mark.row * frame.width + mark.mark.column)
}
