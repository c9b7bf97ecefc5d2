//! The layout of a map.

ghost use Rattle.std.specs.Prelude.{◌≡◌, ◌<◌, ◌≤◌};
ghost use Rattle.wfc_render.specs.Layout.{form_for, layout_of, pixel_count};

use crate::form::{Form, Layout, RenderFault};
use wfc_model::MAX_OUTPUT_SIDE;
use wfc_picture::Kind;
use wfc_tileset::MAX_TILE_SIDE;

/// The most pixels of a map that is written.
pub const MAX_MAP_PIXELS: u64 = 16_777_216;

/// The layout of a map of `width` by `height` pixels, or tiles of `side` by `side` pixels, in the form that is asked for,
/// else in the first that the kind has.
///
/// `FormDiffers` comes where the kind lacks the form, and is looked at first; `TooLarge` where there are more than
/// 16,777,216 pixels, in each form.
pub fn layout(
    kind: Kind,
    form: Option<Form>,
    width: u32,
    height: u32,
    side: u32,
) -> Result<Layout, RenderFault>
    requires some_width { 1 ≤ width }
    requires some_height { 1 ≤ height }
    requires some_side { 1 ≤ side }
    requires width_limit { width ≤ MAX_OUTPUT_SIDE }
    requires height_limit { height ≤ MAX_OUTPUT_SIDE }
    requires side_limit { side ≤ MAX_TILE_SIDE }
    ensures exact { result ≡ layout_of kind form width height side }
{
    let form = form_for(kind, form).ok_or(RenderFault::FormDiffers)?;
    let pixels = pixel_count(width, height, side);
    if pixels > MAX_MAP_PIXELS {
        return Err(RenderFault::TooLarge { pixels });
    }
    Ok(Layout {
        kind,
        form,
        width,
        height,
        side,
    })
}

/// The form that is asked for, or the first that the kind has, if it has it.
fn form_for(kind: Kind, form: Option<Form>) -> Option<Form>
    ensures form { result ≡ form_for kind form }
{
    match (kind, form) {
        (_, Some(Form::Cells)) | (Kind::Plain, None) => Some(Form::Cells),
        (Kind::Grid, None | Some(Form::Grid)) => Some(Form::Grid),
        (Kind::Ppm { .. }, None | Some(Form::P6)) => Some(Form::P6),
        (Kind::Ppm { .. }, Some(Form::P3)) => Some(Form::P3),
        _ => None,
    }
}

/// How many pixels the map has.
fn pixel_count(width: u32, height: u32, side: u32) -> u64
    requires width_limit { width ≤ MAX_OUTPUT_SIDE }
    requires height_limit { height ≤ MAX_OUTPUT_SIDE }
    requires side_limit { side ≤ MAX_TILE_SIDE }
    ensures pixels { result ≡ pixel_count width height side }
{
    let places = width * height;
    let area = side * side;
    u64::from(places) * u64::from(area)
}
