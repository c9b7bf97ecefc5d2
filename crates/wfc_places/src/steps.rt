//! Steps along the sides of a map.

ghost use Rattle.std.specs.Prelude.{◌≡◌, ◌+◌, ◌<◌, ◌≤◌, IfSome};
ghost use Rattle.wfc_model.specs.Direction.{left_by, down_by, right_by, up_by};
ghost use Rattle.wfc_places.specs.Steps.{along};

use wfc_model::MAX_OUTPUT_SIDE;

/// The column or row that a step leads to, if there is one.
#[inline]
pub fn along(at: u32, forth: u32, back: u32, count: u32, wrap: bool) -> Option<u32>
    requires at_in { at < count }
    requires one { forth + back ≤ 1 }
    requires limit { count ≤ MAX_OUTPUT_SIDE }
    ensures value { result ≡ along count wrap forth back at }
    ensures within { IfSome result (λ s. s < count) }
{
    if wrap || (back <= at + forth && at + forth < count + back) {
        Some((at + forth + count - back) % count)
    } else {
        None
    }
}

/// How far a direction leads to the left.
#[inline]
pub fn left_by(dir: u8) -> u32
    ensures value { result ≡ left_by dir }
{
    if dir == 0 { 1 } else { 0 }
}

/// How far it leads down.
#[inline]
pub fn down_by(dir: u8) -> u32
    ensures value { result ≡ down_by dir }
{
    if dir == 1 { 1 } else { 0 }
}

/// How far it leads to the right.
#[inline]
pub fn right_by(dir: u8) -> u32
    ensures value { result ≡ right_by dir }
{
    if dir == 2 { 1 } else { 0 }
}

/// How far it leads up.
#[inline]
pub fn up_by(dir: u8) -> u32
    ensures value { result ≡ up_by dir }
{
    if dir == 3 { 1 } else { 0 }
}
