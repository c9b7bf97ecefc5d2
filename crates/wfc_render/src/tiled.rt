//! The bytes of a map of tiles.

ghost use Rattle.std.specs.Prelude.{◌≡◌, ◌≢◌, ◌<◌, ◌≤◌, ◌++◌, ◌∷◌, [], true, All, length, map, slice_index_or, IfOk, OnOk};
ghost use Rattle.wfc_grid.specs.Spelling.{grid_text};
ghost use Rattle.wfc_model.specs.Raster.{height_of, numbers_of};
ghost use Rattle.wfc_ppm.specs.Ppm.{is_within};
ghost use Rattle.wfc_tileset.specs.Pictures.{IsPictured, kind_of, side_of};
ghost use Rattle.wfc_render.specs.Drawn.{row_end, drawn_line, drawn_lines, drawn_place, start_in, symbol_in};
ghost use Rattle.wfc_render.specs.Map.{colour_of, maxval_of};
ghost use Rattle.wfc_render.specs.Tiled.{IsVariantOrHole, IsTiled, variant_word, shown_at, spaced_cells, tile_text, tiles_in};

use crate::colours::{colour_of, maxval_of, push_head, push_pixel, room};
use crate::form::{Form, Layout};
use crate::maps::byte_of;
use std::alloc::Global;
use wfc_model::MAX_OUTPUT_SIDE;
use wfc_outside::NoMemory;
use wfc_picture::{Picture, Symbol};
use wfc_text::push_number;
use wfc_tileset::{HOLE, TileSet};

/// The bytes of a map of variants, in the form of its layout. A hole is a hyphen among the numbers of
/// variants, blanks among characters, and black among colours.
pub fn tile_bytes(
    alloc: Global,
    layout: &Layout,
    tiles: &TileSet,
    picture: &Picture,
) -> Result<Vec<u8>, NoMemory>
    requires written { IsTiled layout.now tiles.now picture.now }
    ensures text { IfOk result (λ text. text.items ≡ tile_text layout.now tiles.now picture.now) }
{
    match layout.form {
        Form::Cells => cell_rows(alloc, picture),
        form => drawn_rows(alloc, form, tiles, picture),
    }
}

/// The numbers of variants row by row, each row with its end.
fn cell_rows(alloc: Global, picture: &Picture) -> Result<Vec<u8>, NoMemory>
    ensures text { IfOk result (λ text.
        text.items ≡ grid_text (map spaced_cells picture.now.rows)) }
{
    let height = picture.height();
    let mut text = Vec::new(alloc);
    for y in 0..height {
        push_cells(&mut text, picture, y)?;
    }
    Ok(text)
}

/// Writes the numbers of a row and the row's end behind the text.
fn push_cells(text: &mut Vec<u8>, picture: &Picture, y: u32) -> Result<(), NoMemory>
    requires row_in { y < height_of picture.now }
    ensures row { OnOk result (text.new.items ≡ text.old.items
        ++ (spaced_cells (slice_index_or picture.now.rows y []) ++ 10 ∷ [])) }
{
    let width = picture.width();
    push_cell(text, picture.at(0, y))?;
    for x in 1..width {
        text.push(b' ')?;
        push_cell(text, picture.at(x, y))?;
    }
    text.push(b'\n')?;
    Ok(())
}

/// Writes what stands at a place behind the text: the number of a variant, or a hyphen for a hole.
fn push_cell(text: &mut Vec<u8>, number: u32) -> Result<(), NoMemory>
    ensures word { OnOk result (text.new.items ≡ text.old.items ++ variant_word number) }
{
    if number == HOLE {
        text.push(b'-')?;
        return Ok(());
    }
    push_number(text, u64::from(number))
}

/// The pixels of a map row by row, behind what stands before them.
fn drawn_rows(
    alloc: Global,
    form: Form,
    tiles: &TileSet,
    picture: &Picture,
) -> Result<Vec<u8>, NoMemory>
    requires pictured { IsPictured tiles.now }
    requires width_limit { picture.now.width ≤ MAX_OUTPUT_SIDE }
    requires height_limit { height_of picture.now ≤ MAX_OUTPUT_SIDE }
    requires numbers { All (IsVariantOrHole tiles.now) (numbers_of picture.now) }
    requires no_cells { form ≢ Form.Cells }
    ensures text { IfOk result (λ text. text.items ≡ tiles_in form tiles.now picture.now) }
{
    let mut text = start(alloc, form, tiles, picture)?;
    let height = picture.height();
    for y in 0..height {
        push_lines(&mut text, form, tiles, picture, y)?;
    }
    Ok(text)
}

/// What stands before the pixels of a map.
fn start(alloc: Global, form: Form, tiles: &TileSet, picture: &Picture) -> Result<Vec<u8>, NoMemory>
    requires width_limit { picture.now.width ≤ MAX_OUTPUT_SIDE }
    requires height_limit { height_of picture.now ≤ MAX_OUTPUT_SIDE }
    ensures start { IfOk result (λ text. text.items ≡ start_in form tiles.now picture.now) }
{
    let side = tiles.side();
    let width = picture.width() * side;
    let height = picture.height() * side;
    let maxval = maxval_of(tiles.kind());
    let mut text = Vec::with_capacity(alloc, room(form, maxval, width, height))?;
    if !matches!(form, Form::Grid) {
        push_head(&mut text, form, width, height, maxval)?;
    }
    Ok(text)
}

/// Writes the rows of pixels of a row of places behind the text.
fn push_lines(
    text: &mut Vec<u8>,
    form: Form,
    tiles: &TileSet,
    picture: &Picture,
    y: u32,
) -> Result<(), NoMemory>
    requires pictured { IsPictured tiles.now }
    requires row_in { y < height_of picture.now }
    requires numbers { All (IsVariantOrHole tiles.now) (numbers_of picture.now) }
    ensures lines { OnOk result (text.new.items ≡ text.old.items
        ++ drawn_lines form tiles.now (slice_index_or picture.now.rows y [])) }
{
    let side = tiles.side();
    for j in 0..side {
        push_line(text, form, tiles, picture, y, j)?;
    }
    Ok(())
}

/// Writes a row of pixels of a row of places, and its end, behind the text.
fn push_line(
    text: &mut Vec<u8>,
    form: Form,
    tiles: &TileSet,
    picture: &Picture,
    y: u32,
    j: u32,
) -> Result<(), NoMemory>
    requires pictured { IsPictured tiles.now }
    requires row_in { y < height_of picture.now }
    requires j_in { j < side_of tiles.now.pictures }
    requires numbers { All (IsVariantOrHole tiles.now) (numbers_of picture.now) }
    ensures line { OnOk result (text.new.items ≡ text.old.items
        ++ drawn_line form tiles.now (slice_index_or picture.now.rows y []) j) }
{
    let width = picture.width();
    for x in 0..width {
        push_place(text, form, tiles, picture.at(x, y), j)?;
    }
    push_end(text, form)
}

/// Writes the end of a row of pixels behind the text.
fn push_end(text: &mut Vec<u8>, form: Form) -> Result<(), NoMemory>
    ensures end { OnOk result (text.new.items ≡ text.old.items ++ row_end form) }
{
    if matches!(form, Form::Grid) {
        text.push(b'\n')?;
    }
    Ok(())
}

/// Writes a row of pixels of a place behind the text.
fn push_place(
    text: &mut Vec<u8>,
    form: Form,
    tiles: &TileSet,
    number: u32,
    j: u32,
) -> Result<(), NoMemory>
    requires pictured { IsPictured tiles.now }
    requires number { IsVariantOrHole tiles.now number }
    requires j_in { j < side_of tiles.now.pictures }
    ensures place { OnOk result (text.new.items
        ≡ text.old.items ++ drawn_place form tiles.now j number) }
{
    let maxval = maxval_of(tiles.kind());
    let side = tiles.side();
    for i in 0..side {
        push_symbol(text, form, maxval, shown_symbol(tiles, number, i, j))?;
    }
    Ok(())
}

/// What a place shows in a column of a row of its picture.
#[inline]
fn shown_symbol(tiles: &TileSet, number: u32, i: u32, j: u32) -> Symbol
    requires pictured { IsPictured tiles.now }
    requires number { IsVariantOrHole tiles.now number }
    requires i_in { i < side_of tiles.now.pictures }
    requires j_in { j < side_of tiles.now.pictures }
    ensures value { result ≡ shown_at tiles.now j number i }
    ensures within { is_within (maxval_of (kind_of tiles.now.pictures)) (colour_of result) ≡ true }
{
    if number >= u32::from(tiles.variants()) {
        return Symbol::Char(b' ');
    }
    tiles.pixel(number as u16, i, j)
}

/// Writes what a pixel shows behind the text.
#[inline]
fn push_symbol(text: &mut Vec<u8>, form: Form, maxval: u16, symbol: Symbol) -> Result<(), NoMemory>
    requires within { is_within maxval (colour_of symbol) ≡ true }
    ensures symbol { OnOk result (text.new.items ≡ text.old.items ++ symbol_in form maxval symbol) }
{
    match form {
        Form::Grid => text.push(byte_of(symbol))?,
        form => push_pixel(text, form, maxval, colour_of(symbol))?,
    }
    Ok(())
}
