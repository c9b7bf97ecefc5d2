//! The text of what was learned from a sample.

ghost use Rattle.std.specs.Prelude.{◌≡◌, ◌<◌, ◌++◌, length, IfOk, OnOk};
ghost use Rattle.wfc_picture.specs.Symbol.{symbol_text};
ghost use Rattle.wfc_render.specs.Learned.{colour_line, colours_text, learned_text, pattern_line, patterns_text};
ghost use Rattle.wfc_render.specs.Numbers.{blank_numbers, head_line};

use std::alloc::Global;
use wfc_outside::NoMemory;
use wfc_pattern::Patterns;
use wfc_picture::{Palette, Symbol};
use wfc_text::push_number;

/// The text of the side of a window, the colours of a sample with their numbers, and its patterns with their numbers, weights
/// and windows of colour numbers.
pub fn learned_overlap(
    alloc: Global,
    patterns: &Patterns,
    palette: &Palette,
) -> Result<Vec<u8>, NoMemory>
    ensures text { IfOk result (λ text. text.items ≡ learned_text patterns.now palette.now) }
{
    let mut text = Vec::new(alloc);
    push_head(&mut text, b"overlap", u64::from(patterns.n()))?;
    push_colours(&mut text, palette)?;
    push_patterns(&mut text, patterns)?;
    Ok(text)
}

/// Writes a line of a word and a number behind the text.
pub fn push_head(text: &mut Vec<u8>, word: &[u8], n: u64) -> Result<(), NoMemory>
    ensures line { OnOk result (text.new.items ≡ text.old.items ++ head_line word.now n) }
{
    text.extend_from_slice(word)?;
    text.push(b' ')?;
    push_number(text, n)?;
    text.push(b'\n')?;
    Ok(())
}

/// Writes the colours behind the text.
fn push_colours(text: &mut Vec<u8>, palette: &Palette) -> Result<(), NoMemory>
    ensures colours { OnOk result (text.new.items ≡ text.old.items ++ colours_text palette.now) }
{
    push_head(text, b"colours", u64::from(palette.len()))?;
    for k in 0..palette.len() {
        push_colour(text, palette, k)?;
    }
    Ok(())
}

/// Writes the line of a colour behind the text.
fn push_colour(text: &mut Vec<u8>, palette: &Palette, k: u32) -> Result<(), NoMemory>
    requires k_in { k < length palette.now }
    ensures line { OnOk result (text.new.items ≡ text.old.items ++ colour_line palette.now k) }
{
    push_number(text, u64::from(k))?;
    text.push(b' ')?;
    push_symbol(text, palette.symbol(k))?;
    text.push(b'\n')?;
    Ok(())
}

/// Writes the word of a symbol behind the text.
fn push_symbol(text: &mut Vec<u8>, symbol: Symbol) -> Result<(), NoMemory>
    ensures symbol { OnOk result (text.new.items ≡ text.old.items ++ symbol_text symbol) }
{
    match symbol {
        Symbol::Char(b' ') => text.extend_from_slice(b"\\s")?,
        Symbol::Char(byte) => text.push(byte)?,
        Symbol::Rgb(colour) => {
            push_number(text, u64::from(colour.r))?;
            text.push(b',')?;
            push_number(text, u64::from(colour.g))?;
            text.push(b',')?;
            push_number(text, u64::from(colour.b))?;
        }
    }
    Ok(())
}

/// Writes the patterns behind the text.
fn push_patterns(text: &mut Vec<u8>, patterns: &Patterns) -> Result<(), NoMemory>
    ensures patterns { OnOk result (text.new.items
        ≡ text.old.items ++ patterns_text patterns.now) }
{
    push_head(text, b"patterns", u64::from(patterns.count()))?;
    for p in 0..patterns.count() {
        push_pattern(text, patterns, p)?;
    }
    Ok(())
}

/// Writes the line of a pattern behind the text.
fn push_pattern(text: &mut Vec<u8>, patterns: &Patterns, p: u16) -> Result<(), NoMemory>
    requires p_in { p < length patterns.now.windows }
    ensures line { OnOk result (text.new.items ≡ text.old.items ++ pattern_line patterns.now p) }
{
    push_number(text, u64::from(p))?;
    text.push(b' ')?;
    push_number(text, u64::from(patterns.weight(p)))?;
    text.push(b':')?;
    push_numbers(text, patterns.window(p))?;
    text.push(b'\n')?;
    Ok(())
}

/// Writes the numbers behind the text, each with a blank before it.
fn push_numbers(text: &mut Vec<u8>, numbers: &[u32]) -> Result<(), NoMemory>
    ensures numbers { OnOk result (text.new.items ≡ text.old.items ++ blank_numbers numbers.now) }
{
    for number in numbers {
        text.push(b' ')?;
        push_number(text, u64::from(*number))?;
    }
    Ok(())
}
