//! Layouts and texts of boxes.

ghost use Rattle.std.specs.Prelude.{◌<◌, ◌≤◌, ◌↔◌, All, IsTrue};

use crate::sets::{coloured, drawn};
use std::alloc::Global;
use std::process::Abort;
use std::test::Fail;
use wfc_box::{box_bytes, box_layout};
use wfc_picture::Kind;
use wfc_render::{Form, RenderFault};
use wfc_tileset::TileSet;

/// Whether all numbers are below a count.
fn are_below(numbers: &[u16], count: u16) -> bool
    ensures below { IsTrue result ↔ All (λ v. v < count) numbers.now }
{
    numbers.iter().all(|v| *v < count)
}

/// The text of the box of these numbers, layer by layer.
fn text_of(
    rt: &impl Abort,
    alloc: Global,
    set: &TileSet,
    form: Option<Form>,
    sides: (u32, u32, u32),
    numbers: &[u16],
) -> Result<Vec<u8>, Fail> {
    let (width, height, depth) = sides;
    assert!(rt; 0 < width && width <= 4096 && 0 < height && height <= 4096);
    assert!(rt; 0 < depth && depth <= 256);
    assert!(rt; numbers.len() == depth as usize * (width as usize * height as usize));
    assert!(rt; are_below(numbers, set.variants()));
    assert!(rt; set.pictures() == set.tiles());
    let form = box_layout(set.kind(), form, width, height, depth, set.side())?;
    Ok(box_bytes(alloc, set, form, width, height, depth, numbers)?)
}

/// Whether a box of two columns, one row and two layers is written so in a form.
fn is_written(
    rt: &impl Abort,
    alloc: Global,
    set: &TileSet,
    form: Option<Form>,
    numbers: &[u16],
    wanted: &[u8],
) -> Result<(), Fail> {
    let text = text_of(rt, alloc, set, form, (2, 1, 2), numbers)?;
    assert_eq!(rt; text.as_slice(), wanted, "as {form:?}");
    Ok(())
}

#[test]
fn writes_boxes_layer_by_layer(rt: HostRuntime) -> Result<(), Fail> {
    let alloc = rt.alloc();
    let set = drawn(&rt, alloc)?;
    is_written(
        &rt,
        alloc,
        &set,
        None,
        &[1, 4, 9, 0],
        b"layer 0\nbdba\nacdc\nlayer 1\n+-ab\n- cd\n",
    )?;
    is_written(
        &rt,
        alloc,
        &set,
        Some(Form::Cells),
        &[1, 4, 9, 0],
        b"layer 0\n1 4\nlayer 1\n9 0\n",
    )
}

#[test]
fn writes_boxes_of_colours_as_numbers(rt: HostRuntime) -> Result<(), Fail> {
    let alloc = rt.alloc();
    let set = coloured(&rt, alloc)?;
    is_written(
        &rt,
        alloc,
        &set,
        None,
        &[1, 0, 0, 1],
        b"layer 0\n1 0\nlayer 1\n0 1\n",
    )
}

/// Whether a kind of box has the form that is asked for.
fn has_form(rt: &impl Abort, kind: Kind, form: Form, wanted: bool) {
    let laid = box_layout(kind, Some(form), 1, 1, 1, 1);
    assert!(rt; matches!(&laid, Ok(_)) == wanted, "{kind:?} as {form:?}");
}

#[test]
fn refuses_forms_that_boxes_lack(rt: HostRuntime) {
    has_form(&rt, Kind::Grid, Form::Grid, true);
    has_form(&rt, Kind::Grid, Form::P6, false);
    has_form(&rt, Kind::Ppm { maxval: 255 }, Form::P6, false);
    has_form(&rt, Kind::Ppm { maxval: 255 }, Form::Grid, false);
    has_form(&rt, Kind::Plain, Form::Grid, false);
    has_form(&rt, Kind::Plain, Form::Cells, true);
}

#[test]
fn refuses_large_boxes(rt: HostRuntime) {
    let full = box_layout(Kind::Plain, None, 4096, 16, 256, 1);
    assert!(rt; matches!(&full, Ok(Form::Cells)));
    let large = box_layout(Kind::Plain, None, 4096, 16, 256, 2);
    assert!(rt; matches!(&large, Err(RenderFault::TooLarge { pixels: 67_108_864 })));
}

#[test]
fn writes_a_large_box(rt: HostRuntime) -> Result<(), Fail> {
    let alloc = rt.alloc();
    let set = drawn(&rt, alloc)?;
    let numbers = vec![in alloc; 9u16; 128 * 128 * 64]?;
    let text = text_of(&rt, alloc, &set, None, (128, 128, 64), &numbers)?;
    let bytes = 64 * (128 * 2 * (128 * 2 + 1)) + 10 * 8 + 54 * 9;
    assert_eq!(rt; text.len(), bytes);
    Ok(())
}
