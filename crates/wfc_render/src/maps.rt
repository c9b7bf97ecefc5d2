//! The bytes of a map.

ghost use Rattle.std.specs.Prelude.{◌≡◌, ◌<◌, ◌∷◌, ◌++◌, [], All, length, map, slice_index_or, IfOk, OnOk};
ghost use Rattle.wfc_grid.specs.Spelling.{grid_text};
ghost use Rattle.wfc_model.specs.Raster.{height_of, number_at, numbers_of};
ghost use Rattle.wfc_render.specs.Map.{IsWritten, byte_of, symbol_bytes, map_text, symbol_at};
ghost use Rattle.wfc_render.specs.Numbers.{spaced_numbers};

use crate::colours::{colour_rows, maxval_of};
use crate::form::{Form, Layout};
use std::alloc::Global;
use wfc_outside::NoMemory;
use wfc_picture::{Palette, Picture, Symbol};
use wfc_text::push_number;

/// The bytes of a map of palette numbers, in the form of its layout.
pub fn picture_bytes(
    alloc: Global,
    layout: &Layout,
    palette: &Palette,
    picture: &Picture,
) -> Result<Vec<u8>, NoMemory>
    requires written { IsWritten layout.now palette.now picture.now }
    ensures text { IfOk result (λ text. text.items ≡ map_text layout.now palette.now picture.now) }
{
    match layout.form {
        Form::Grid => symbol_rows(alloc, palette, picture),
        Form::Cells => number_rows(alloc, picture),
        form => colour_rows(alloc, form, maxval_of(layout.kind), palette, picture),
    }
}

/// The bytes of the symbols row by row, each row with its end.
fn symbol_rows(alloc: Global, palette: &Palette, picture: &Picture) -> Result<Vec<u8>, NoMemory>
    requires numbers { All (λ number. number < length palette.now) (numbers_of picture.now) }
    ensures text { IfOk result (λ text.
        text.items ≡ grid_text (map (symbol_bytes palette.now) picture.now.rows)) }
{
    let height = picture.height();
    let size = (picture.width() as usize + 1) * height as usize;
    let mut text = Vec::with_capacity(alloc, size)?;
    for y in 0..height {
        push_symbols(&mut text, palette, picture, y)?;
    }
    Ok(text)
}

/// Writes the bytes of a row's symbols and the row's end behind the text.
fn push_symbols(
    text: &mut Vec<u8>,
    palette: &Palette,
    picture: &Picture,
    y: u32,
) -> Result<(), NoMemory>
    requires row_in { y < height_of picture.now }
    requires numbers { All (λ number. number < length palette.now) (numbers_of picture.now) }
    ensures row { OnOk result (text.new.items ≡ text.old.items
        ++ (symbol_bytes palette.now (slice_index_or picture.now.rows y []) ++ 10 ∷ [])) }
{
    let width = picture.width();
    for x in 0..width {
        text.push(byte(palette, picture.at(x, y)))?;
    }
    text.push(b'\n')?;
    Ok(())
}

/// The byte of the symbol with this number.
#[inline]
fn byte(palette: &Palette, number: u32) -> u8
    requires number_in { number < length palette.now }
    ensures value { result ≡ byte_of (symbol_at palette.now number) }
{
    byte_of(palette.symbol(number))
}

/// The byte of a character, and a blank for a colour.
#[inline]
pub(crate) fn byte_of(symbol: Symbol) -> u8
    ensures value { result ≡ byte_of symbol }
{
    match symbol {
        Symbol::Char(byte) => byte,
        Symbol::Rgb(_) => b' ',
    }
}

/// The numbers row by row, each row with its end.
fn number_rows(alloc: Global, picture: &Picture) -> Result<Vec<u8>, NoMemory>
    ensures text { IfOk result (λ text.
        text.items ≡ grid_text (map spaced_numbers picture.now.rows)) }
{
    let height = picture.height();
    let mut text = Vec::new(alloc);
    for y in 0..height {
        push_numbers(&mut text, picture, y)?;
    }
    Ok(text)
}

/// Writes the numbers of a row and the row's end behind the text.
fn push_numbers(text: &mut Vec<u8>, picture: &Picture, y: u32) -> Result<(), NoMemory>
    requires row_in { y < height_of picture.now }
    ensures row { OnOk result (text.new.items ≡ text.old.items
        ++ (spaced_numbers (slice_index_or picture.now.rows y []) ++ 10 ∷ [])) }
{
    let width = picture.width();
    push_number(text, u64::from(picture.at(0, y)))?;
    for x in 1..width {
        text.push(b' ')?;
        push_number(text, u64::from(picture.at(x, y)))?;
    }
    text.push(b'\n')?;
    Ok(())
}
