//! The bytes of a box.

ghost use Rattle.std.specs.Prelude.{◌≡◌, ◌*◌, ◌<◌, ◌≤◌, ◌++◌, IfOk, OnOk, codes, drop, false, length, take};
ghost use Rattle.wfc_model.specs.Raster.{raster_of};
ghost use Rattle.wfc_render.specs.Tiled.{tiles_in};
ghost use Rattle.wfc_box.specs.BoxText.{box_text, layer_text};
ghost use Rattle.wfc_box.specs.Boxes.{box_of, frame_of};
ghost use Rattle.wfc_box.specs.Written.{IsWrittenBox, layer_layout};

use std::alloc::Global;
use wfc_model::MAX_OUTPUT_SIDE;
use wfc_outside::NoMemory;
use wfc_picture::Picture;
use wfc_render::{Form, Layout, push_head, tile_bytes};
use wfc_tiled::tiles_of;
use wfc_tileset::TileSet;

/// The bytes of the box that an assignment makes, in the form of its layout: for each layer from
/// the bottom one `layer Z` and the text of its map.
pub fn box_bytes(
    alloc: Global,
    tiles: &TileSet,
    form: Form,
    width: u32,
    height: u32,
    depth: u32,
    assignment: &[u16],
) -> Result<Vec<u8>, NoMemory>
    requires written { IsWrittenBox form tiles.now width height depth assignment.now }
    ensures text { IfOk result (λ text. text.items
        ≡ box_text form tiles.now (box_of (frame_of width height depth false) assignment.now)) }
{
    let area = area(width, height);
    let mut text = Vec::new(alloc);
    for layer in 0..depth {
        let cells = layer_cells(assignment, area, depth, layer);
        push_layer(alloc, &mut text, tiles, form, width, height, layer, cells)?;
    }
    Ok(text)
}

/// How many places a layer has.
fn area(width: u32, height: u32) -> usize
    requires width_limit { width ≤ MAX_OUTPUT_SIDE }
    requires height_limit { height ≤ MAX_OUTPUT_SIDE }
    ensures value { result ≡ width * height }
    ensures limit { result ≤ 16777216 }
{
    (width * height) as usize
}

/// The entries of an assignment for the places of a layer.
fn layer_cells(assignment: &[u16], area: usize, depth: u32, layer: u32) -> &[u16]
    requires limit { area ≤ 16777216 }
    requires layer_in { layer < depth }
    requires each_cell { length assignment.now ≡ depth * area }
    ensures value { result.now ≡ take area (drop (layer * area) assignment.now) }
{
    let first = layer as usize * area;
    &assignment[first..first + area]
}

/// Writes the line of a layer and the text of its map behind the text.
fn push_layer(
    alloc: Global,
    text: &mut Vec<u8>,
    tiles: &TileSet,
    form: Form,
    width: u32,
    height: u32,
    layer: u32,
    cells: &[u16],
) -> Result<(), NoMemory>
    requires written { IsWrittenBox form tiles.now width height 1 cells.now }
    ensures layer { OnOk result (text.new.items ≡ text.old.items
        ++ layer_text form tiles.now layer (raster_of width height cells.now)) }
{
    push_head(text, b"layer", u64::from(layer))?;
    let map = layer_bytes(alloc, tiles, form, width, height, cells)?;
    text.extend_from_slice(&map)?;
    Ok(())
}

/// The text of a layer's map.
fn layer_bytes(
    alloc: Global,
    tiles: &TileSet,
    form: Form,
    width: u32,
    height: u32,
    cells: &[u16],
) -> Result<Vec<u8>, NoMemory>
    requires written { IsWrittenBox form tiles.now width height 1 cells.now }
    ensures text { IfOk result (λ text. text.items
        ≡ tiles_in form tiles.now (raster_of width height cells.now)) }
{
    let picture = layer_map(alloc, width, height, cells)?;
    let layout = layout_of(tiles, form, width, height);
    tile_bytes(alloc, &layout, tiles, &picture)
}

/// The layout in which a layer's map is written.
fn layout_of(tiles: &TileSet, form: Form, width: u32, height: u32) -> Layout
    ensures value { result ≡ layer_layout form tiles.now width height }
{
    Layout {
        kind: tiles.kind(),
        form,
        width,
        height,
        side: tiles.side(),
    }
}

/// The map of a layer.
fn layer_map(alloc: Global, width: u32, height: u32, cells: &[u16]) -> Result<Picture, NoMemory>
    requires some_width { 0 < width }
    requires some_height { 0 < height }
    requires width_limit { width ≤ MAX_OUTPUT_SIDE }
    requires height_limit { height ≤ MAX_OUTPUT_SIDE }
    requires each_cell { length cells.now ≡ width * height }
    ensures value { IfOk result (λ picture. picture ≡ raster_of width height cells.now) }
{
    let picture = tiles_of(alloc, width, height, cells)?;
    Ok(picture)
}
