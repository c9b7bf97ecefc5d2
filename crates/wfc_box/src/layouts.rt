//! The layout of a box.

ghost use Rattle.std.specs.Prelude.{◌≡◌, ◌*◌, ◌≤◌};
ghost use Rattle.wfc_box.specs.BoxText.{box_form_for, box_layout_of, box_pixels_of};

use wfc_model::MAX_OUTPUT_SIDE;
use wfc_picture::Kind;
use wfc_render::{Form, MAX_MAP_PIXELS, RenderFault};
use wfc_tileset::MAX_TILE_SIDE;

/// The most layers of a box.
pub const MAX_DEPTH: u32 = 256;

/// The form of a box of `depth` layers of `width` by `height` tiles of `side` by `side` pixels, in
/// the form that is asked for, else in the first that boxes of the kind have: characters where the
/// tiles have grid pictures, and else the numbers of variants.
///
/// `FormDiffers` comes where boxes of the kind lack the form, and is looked at first; `TooLarge`
/// where there are more than 16,777,216 pixels, in each form.
pub fn box_layout(
    kind: Kind,
    form: Option<Form>,
    width: u32,
    height: u32,
    depth: u32,
    side: u32,
) -> Result<Form, RenderFault>
    requires some_width { 1 ≤ width }
    requires some_height { 1 ≤ height }
    requires some_depth { 1 ≤ depth }
    requires some_side { 1 ≤ side }
    requires width_limit { width ≤ MAX_OUTPUT_SIDE }
    requires height_limit { height ≤ MAX_OUTPUT_SIDE }
    requires depth_limit { depth ≤ MAX_DEPTH }
    requires side_limit { side ≤ MAX_TILE_SIDE }
    ensures exact { result ≡ box_layout_of kind form width height depth side }
{
    let form = form_for(kind, form).ok_or(RenderFault::FormDiffers)?;
    let pixels = pixels_of(width, height, depth, side);
    if pixels > MAX_MAP_PIXELS {
        return Err(RenderFault::TooLarge { pixels });
    }
    Ok(form)
}

/// The form that is asked for, or the first that boxes of the kind have, if they have it.
fn form_for(kind: Kind, form: Option<Form>) -> Option<Form>
    ensures form { result ≡ box_form_for kind form }
{
    match (kind, form) {
        (_, Some(Form::Cells)) | (Kind::Plain | Kind::Ppm { .. }, None) => Some(Form::Cells),
        (Kind::Grid, None | Some(Form::Grid)) => Some(Form::Grid),
        _ => None,
    }
}

/// How many pixels the box has.
fn pixels_of(width: u32, height: u32, depth: u32, side: u32) -> u64
    requires width_limit { width ≤ MAX_OUTPUT_SIDE }
    requires height_limit { height ≤ MAX_OUTPUT_SIDE }
    requires depth_limit { depth ≤ MAX_DEPTH }
    requires side_limit { side ≤ MAX_TILE_SIDE }
    ensures pixels { result ≡ box_pixels_of width height depth side }
{
    let places = places_of(width, height, depth);
    let area = side * side;
    places * u64::from(area)
}

/// How many places the box has.
fn places_of(width: u32, height: u32, depth: u32) -> u64
    requires width_limit { width ≤ MAX_OUTPUT_SIDE }
    requires height_limit { height ≤ MAX_OUTPUT_SIDE }
    requires depth_limit { depth ≤ MAX_DEPTH }
    ensures value { result ≡ depth * (width * height) }
    ensures limit { result ≤ 4294967296 }
{
    let area = width * height;
    u64::from(depth) * u64::from(area)
}
