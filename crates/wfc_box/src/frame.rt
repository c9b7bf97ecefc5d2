//! The frame of a box.

ghost use Rattle.std.specs.Prelude.{◌≡◌, ◌≤◌};
ghost use Rattle.wfc_box.specs.Boxes.{IsFrame, area, places_in};

/// How many columns, rows and layers a box has, and whether its layers wrap. The box never wraps
/// from the top layer to the bottom one.
#[derive(Clone, Copy, Debug, PartialEq, Eq)]
pub struct Frame {
    pub width: u32,
    pub height: u32,
    pub depth: u32,
    pub wrap: bool,
}

/// How many places a layer has.
#[inline]
pub(crate) fn area(frame: Frame) -> u32
    requires frame { IsFrame frame }
    ensures value { result ≡ area frame }
    ensures limit { result ≤ 16777216 }
{
    frame.width * frame.height
}

/// How many places the box has.
#[inline]
pub(crate) fn places(frame: Frame) -> u64
    requires frame { IsFrame frame }
    ensures value { result ≡ places_in frame }
    ensures limit { result ≤ 4294967296 }
{
    u64::from(frame.depth) * u64::from(area(frame))
}
