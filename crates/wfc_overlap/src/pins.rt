//! The pins and bans of a pins file, by the numbers of their symbols.

ghost use Rattle.std.specs.Prelude.{◌≡◌, ◌<◌, ◌≤◌, length, map, position, vec_len, All, IfOk};
ghost use Rattle.std.specs.Str.{bytes_eq};
ghost use Rattle.wfc_model.specs.Legal.{Pin};
ghost use Rattle.wfc_outside.specs.Gives.{Gives};
ghost use Rattle.wfc_picture.specs.Symbol.{symbol_text};
ghost use Rattle.wfc_overlap.specs.Built.{picture_pin, picture_pins, texts_of};

use std::alloc::Global;
use wfc_outside::NoMemory;
use wfc_picture::{MAX_COLOURS, Palette, Symbol};
use wfc_pins::{BuildFault, PinLine};
use wfc_places::PinMark;
use wfc_text::push_number;

/// What the lines of a pins file mean, or the first line at fault.
pub fn marks(
    alloc: Global,
    palette: &Palette,
    width: u32,
    height: u32,
    pins: &[PinLine],
) -> Result<Vec<PinMark>, BuildFault>
    ensures exact { Gives BuildFault.NoMemory (λ marks. marks.items) result
        (picture_pins (texts_of palette.now) width height pins.now) }
    ensures inside { IfOk result (λ marks.
        All (λ (pin : Pin). (pin.column < width) × (pin.row < height)) marks.items) }
{
    let texts = symbol_texts(alloc, palette)?;
    let mut marks = Vec::with_capacity(alloc, pins.len())?;
    for line in pins {
        marks.push(mark(&texts, width, height, line)?)?;
    }
    Ok(marks)
}

/// What one line means.
fn mark(texts: &[Vec<u8>], width: u32, height: u32, line: &PinLine) -> Result<PinMark, BuildFault>
    requires few { length texts.now ≤ MAX_COLOURS }
    ensures exact { result
        ≡ picture_pin (map (λ text. text.items) texts.now) width height line.now }
    ensures inside { IfOk result (λ mark. (mark.column < width) × (mark.row < height)) }
{
    if line.x >= width || line.y >= height {
        return Err(BuildFault::PinOutside { line: line.line });
    }
    match number_of(texts, &line.symbol) {
        Some(number) => Ok(PinMark {
            keep: line.keep,
            column: line.x,
            row: line.y,
            number,
        }),
        None => Err(BuildFault::UnknownSymbol { line: line.line }),
    }
}

/// The number of the symbol with this text.
fn number_of(texts: &[Vec<u8>], word: &[u8]) -> Option<u32>
    requires few { length texts.now ≤ MAX_COLOURS }
    ensures value { result
        ≡ position (λ text. bytes_eq text word.now) (map (λ text. text.items) texts.now) }
{
    let at = place_of(texts, word)?;
    Some(at as u32)
}

/// The place of the first of the texts that is a word.
fn place_of(texts: &[Vec<u8>], word: &[u8]) -> Option<usize>
    ensures first { result ≡ position (λ text. bytes_eq text.items word.now) texts.now }
{
    texts.iter().position(|text| text.as_slice() == word)
}

/// The texts of a palette's symbols, in their order.
pub fn symbol_texts(alloc: Global, palette: &Palette) -> Result<Vec<Vec<u8>>, NoMemory>
    ensures value { IfOk result (λ texts.
        map (λ text. text.items) texts.items ≡ texts_of palette.now) }
    ensures few { IfOk result (λ texts. vec_len texts ≤ MAX_COLOURS) }
{
    let mut texts = Vec::with_capacity(alloc, palette.len() as usize)?;
    for number in 0..palette.len() {
        texts.push(text(alloc, palette.symbol(number))?)?;
    }
    Ok(texts)
}

/// The text of a symbol.
fn text(alloc: Global, symbol: Symbol) -> Result<Vec<u8>, NoMemory>
    ensures value { IfOk result (λ text. text.items ≡ symbol_text symbol) }
{
    let mut text = Vec::new(alloc);
    match symbol {
        Symbol::Char(b' ') => text.extend_from_slice(b"\\s")?,
        Symbol::Char(byte) => text.push(byte)?,
        Symbol::Rgb(colour) => {
            push_number(&mut text, u64::from(colour.r))?;
            text.push(b',')?;
            push_number(&mut text, u64::from(colour.g))?;
            text.push(b',')?;
            push_number(&mut text, u64::from(colour.b))?;
        }
    }
    Ok(text)
}
