//! The bytes of a map of colours.

ghost use Rattle.std.specs.Prelude.{◌≡◌, ◌<◌, ◌++◌, [], true, All, length, slice_index_or, IfOk, OnOk};
ghost use Rattle.std.specs.List.{AllPass};
ghost use Rattle.wfc_model.specs.Raster.{height_of, numbers_of};
ghost use Rattle.wfc_picture.specs.declared.symbol.Kind.TheVariants as kinds;
ghost use Rattle.wfc_ppm.specs.Ppm.{is_within};
ghost use Rattle.wfc_render.specs.Colours.{picture_head, drawn_pixel, pixels_in, ppm_text};
ghost use Rattle.wfc_render.specs.Map.{colour_of, coloured_map, is_of_kind, maxval_of, symbol_at};

use crate::form::Form;
use std::alloc::Global;
use wfc_outside::NoMemory;
use wfc_picture::{Colour, Kind, Palette, Picture, Symbol};
use wfc_ppm::{line_room, push_p3_head, push_p3_pixel, push_p6_head, push_p6_pixel};

/// The most bytes of what stands before the pixels.
const HEAD_BYTES: usize = 32;

/// The greatest sample of a kind; 0 for the kinds that have no colours.
pub(crate) fn maxval_of(kind: Kind) -> u16
    ensures value { result ≡ maxval_of kind }
{
    match kind {
        Kind::Ppm { maxval } => maxval,
        Kind::Grid | Kind::Plain => 0,
    }
}

/// The text of a map as a picture of colours: in decimal for `P3`, else raw.
pub(crate) fn colour_rows(
    alloc: Global,
    form: Form,
    maxval: u16,
    palette: &Palette,
    picture: &Picture,
) -> Result<Vec<u8>, NoMemory>
    requires kind { AllPass (is_of_kind (kinds.Ppm maxval)) palette.now }
    requires numbers { All (λ number. number < length palette.now) (numbers_of picture.now) }
    ensures text { IfOk result (λ text.
        text.items ≡ ppm_text form (coloured_map maxval palette.now picture.now)) }
{
    let width = picture.width();
    let height = picture.height();
    let mut text = Vec::with_capacity(alloc, room(form, maxval, width, height))?;
    push_head(&mut text, form, width, height, maxval)?;
    for y in 0..height {
        push_colours(&mut text, form, maxval, palette, picture, y)?;
    }
    Ok(text)
}

/// How many bytes a text has at most.
pub(crate) fn room(form: Form, maxval: u16, width: u32, height: u32) -> usize {
    let pixel = match form {
        Form::P3 => line_room(maxval),
        Form::Grid => 2,
        _ if maxval < 256 => 3,
        _ => 6,
    };
    let pixels = (width as usize).saturating_mul(height as usize);
    pixels.saturating_mul(pixel).saturating_add(HEAD_BYTES)
}

/// Writes what stands before the pixels behind the text.
pub(crate) fn push_head(
    text: &mut Vec<u8>,
    form: Form,
    width: u32,
    height: u32,
    maxval: u16,
) -> Result<(), NoMemory>
    ensures head { OnOk result (text.new.items
        ≡ text.old.items ++ picture_head form width height maxval) }
{
    match form {
        Form::P3 => push_p3_head(text, width, height, maxval),
        _ => push_p6_head(text, width, height, maxval),
    }
}

/// Writes the colours of a row's symbols behind the text.
fn push_colours(
    text: &mut Vec<u8>,
    form: Form,
    maxval: u16,
    palette: &Palette,
    picture: &Picture,
    y: u32,
) -> Result<(), NoMemory>
    requires row_in { y < height_of picture.now }
    requires kind { AllPass (is_of_kind (kinds.Ppm maxval)) palette.now }
    requires numbers { All (λ number. number < length palette.now) (numbers_of picture.now) }
    ensures row { OnOk result (text.new.items ≡ text.old.items
        ++ pixels_in form maxval palette.now (slice_index_or picture.now.rows y [])) }
{
    let width = picture.width();
    for x in 0..width {
        push_pixel(text, form, maxval, colour(palette, picture.at(x, y)))?;
    }
    Ok(())
}

/// Writes a pixel behind the text.
#[inline]
pub(crate) fn push_pixel(
    text: &mut Vec<u8>,
    form: Form,
    maxval: u16,
    colour: Colour,
) -> Result<(), NoMemory>
    requires within { is_within maxval colour ≡ true }
    ensures pixel { OnOk result (text.new.items ≡ text.old.items ++ drawn_pixel form maxval colour) }
{
    match form {
        Form::P3 => push_p3_pixel(text, colour),
        _ => push_p6_pixel(text, maxval, colour),
    }
}

/// The colour of the symbol with this number.
#[inline]
fn colour(palette: &Palette, number: u32) -> Colour
    requires number_in { number < length palette.now }
    ensures value { result ≡ colour_of (symbol_at palette.now number) }
{
    colour_of(palette.symbol(number))
}

/// The colour of a symbol, and black for a character.
#[inline]
pub(crate) fn colour_of(symbol: Symbol) -> Colour
    ensures value { result ≡ colour_of symbol }
{
    match symbol {
        Symbol::Char(_) => Colour { r: 0, g: 0, b: 0 },
        Symbol::Rgb(colour) => colour,
    }
}
