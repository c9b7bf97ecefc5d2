//! The heads of refutations: what their lines say, and how they are written.

ghost use Rattle.std.specs.Prelude.{OnOk, ◌≡◌, ◌^◌, ◌<◌, ◌≤◌, ◌+◌, ◌∷◌, ◌++◌, [], decimal, length};
ghost use Rattle.wfc_outside.specs.Sink.{Puts};
ghost use Rattle.wfc_proof.specs.Words.{decimal_within};
ghost use Rattle.wfc_proof.specs.Heads.{with_line_end, format_text, numbers_text, shape_text, head_text, head_2_text};
ghost use Rattle.wfc_proof.specs.Heads.{format_of, head_numbers, numbers_of_words, shape_of, shape_of_words, shape_in};
ghost use Rattle.wfc_proof.specs.Heads.{IsShape, bit_word, bit};
ghost use Rattle.wfc_proof.specs.Telling.{IsBare};
ghost use Rattle.wfc_proof.specs.declared.heads.Format.TheVariants.{One, Two};

use crate::gathered::Gathered;
use crate::text::LineFault;
use crate::words::{Words, decimal_within, decimal8, decimal32, is_word};
use wfc_outside::{Sink, SinkFault, write_all};

/// How the lines of a refutation are spelled: in format 2 a removal is of neighbouring values, and the head names the
/// shape of the request.
#[derive(Clone, Copy, Debug, PartialEq, Eq)]
pub enum Format {
    One,
    Two,
}

/// The numbers of a head: how many cells and values the problem has.
#[derive(Clone, Copy, Debug, PartialEq, Eq)]
pub struct HeadNumbers {
    pub cells: u32,
    pub values: u32,
}

/// The shape of a request: the side of its windows, 0 for a tile set; the sides of the map, of which the depth is 1 for a
/// map of two dimensions; how many images its samples have; and whether sample and map wrap.
#[derive(Clone, Copy, Debug, PartialEq, Eq)]
pub struct Shape {
    pub n: u32,
    pub width: u32,
    pub height: u32,
    pub depth: u32,
    pub symmetry: u8,
    pub wrap_in: bool,
    pub wrap_out: bool,
}

/// The format that a first line names.
pub fn read_format(bytes: &[u8]) -> Result<Format, LineFault>
    ensures exact { result ≡ format_of bytes.now }
{
    if is_word(bytes, "wfc-refutation 1") {
        Ok(Format::One)
    } else if is_word(bytes, "wfc-refutation 2") {
        Ok(Format::Two)
    } else {
        Err(LineFault::BadLine)
    }
}

/// The numbers that a second line says, each at most 4,294,967,295.
pub fn read_numbers(bytes: &[u8]) -> Result<HeadNumbers, LineFault>
    ensures exact { result ≡ head_numbers bytes.now }
{
    numbers_of_words(Words::new(bytes)).ok_or(LineFault::BadLine)
}

/// The numbers that the words of a second line say.
fn numbers_of_words(mut words: Words<'_>) -> Option<HeadNumbers>
    ensures exact { result ≡ numbers_of_words words.entry }
{
    let before_cells = words.next()?;
    let cells = words.next()?;
    let before_values = words.next()?;
    let values = words.next()?;
    if words.next().is_some()
        || !is_word(before_cells, "cells")
        || !is_word(before_values, "values")
    {
        return None;
    }
    let cells = decimal32(cells)?;
    let values = decimal32(values)?;
    Some(HeadNumbers { cells, values })
}

/// The shape that the third line of a head of format 2 says: its `n` is at most 6, its sides are at most 4,294,967,295,
/// its `symmetry` at most 255, and truth values are 0 and 1.
pub fn read_shape(bytes: &[u8]) -> Result<Shape, LineFault>
    ensures exact { result ≡ shape_of bytes.now }
{
    shape_of_words(Words::new(bytes)).ok_or(LineFault::BadLine)
}

/// The shape that the words of a third line say.
fn shape_of_words(mut words: Words<'_>) -> Option<Shape>
    ensures exact { result ≡ shape_of_words words.entry }
{
    let before = words.next()?;
    let n = words.next()?;
    let width = words.next()?;
    let height = words.next()?;
    let depth = words.next()?;
    let symmetry = words.next()?;
    let wrap_in = words.next()?;
    let wrap_out = words.next()?;
    if words.next().is_some() || !is_word(before, "for") {
        return None;
    }
    shape_in(n, width, height, depth, symmetry, wrap_in, wrap_out)
}

/// The shape that these seven words write.
fn shape_in(
    n: &[u8],
    width: &[u8],
    height: &[u8],
    depth: &[u8],
    symmetry: &[u8],
    wrap_in: &[u8],
    wrap_out: &[u8],
) -> Option<Shape>
    ensures exact { result ≡ shape_in n.now width.now height.now depth.now symmetry.now
        wrap_in.now wrap_out.now }
{
    let n = side_of_window(n)?;
    let width = decimal32(width)?;
    let height = decimal32(height)?;
    let depth = decimal32(depth)?;
    let symmetry = decimal8(symmetry)?;
    let wrap_in = bit_word(wrap_in)?;
    let wrap_out = bit_word(wrap_out)?;
    Some(Shape {
        n,
        width,
        height,
        depth,
        symmetry,
        wrap_in,
        wrap_out,
    })
}

/// The number that a word writes, if it is at most 6.
fn side_of_window(word: &[u8]) -> Option<u32>
    ensures exact { result ≡ decimal_within 6 word.now }
{
    let n = decimal_within(word, 6)?;
    Some(n as u32)
}

/// The truth value that a word writes.
fn bit_word(word: &[u8]) -> Option<bool>
    ensures exact { result ≡ bit_word word.now }
{
    if is_word(word, "1") {
        Some(true)
    } else if is_word(word, "0") {
        Some(false)
    } else {
        None
    }
}

/// Puts the head of a refutation in format 1. After `Failed` the sink has taken a front of it. It takes no memory.
pub fn write_header<S: Sink>(sink: &mut S, cells: u32, values: u16) -> Result<(), SinkFault>
    ensures put { Puts (S.seen sink.old) (S.seen sink.new) (head_text cells values) result }
    ensures bare { OnOk result (IsBare One (S.seen sink.new).told) }
{
    let mut text = Gathered::new();
    gather_format(&mut text, Format::One);
    gather_numbers(&mut text, cells, values);
    write_all(sink, text.as_slice())
}

/// Puts the head of a refutation in format 2. After `Failed` the sink has taken a front of it. It takes no memory.
pub fn write_header_2<S: Sink>(
    sink: &mut S,
    shape: &Shape,
    cells: u32,
    values: u16,
) -> Result<(), SinkFault>
    requires limit { shape.now.n ≤ 6 }
    ensures put { Puts (S.seen sink.old) (S.seen sink.new)
        (head_2_text shape.now cells values) result }
    ensures bare { OnOk result (IsBare Two (S.seen sink.new).told) }
{
    let mut text = Gathered::new();
    gather_format(&mut text, Format::Two);
    gather_numbers(&mut text, cells, values);
    gather_shape(&mut text, *shape);
    write_all(sink, text.as_slice())
}

/// Gathers the first line of a head.
fn gather_format(text: &mut Gathered, format: Format)
    requires none { text.old ≡ [] }
    ensures gathered { text.new ≡ with_line_end (format_text format) }
    ensures short { length text.new ≤ 17 }
{
    match format {
        Format::One => text.push(b"wfc-refutation 1"),
        Format::Two => text.push(b"wfc-refutation 2"),
    }
    text.push(b"\n");
}

/// Gathers the second line of a head.
fn gather_numbers(text: &mut Gathered, cells: u32, values: u16)
    requires room { length text.old ≤ 17 }
    ensures gathered { text.new ≡ text.old ++ with_line_end (numbers_text cells values) }
    ensures short { length text.new ≤ 64 }
{
    text.push(b"cells");
    text.push_number(cells);
    text.push(b" ");
    text.push(b"values");
    text.push_number(u32::from(values));
    text.push(b"\n");
}

/// Gathers the third line of a head of format 2.
fn gather_shape(text: &mut Gathered, shape: Shape)
    requires room { length text.old ≤ 64 }
    requires limit { shape.n ≤ 6 }
    ensures gathered { text.new ≡ text.old ++ with_line_end (shape_text shape) }
    ensures limits { IsShape shape }
{
    text.push(b"for");
    text.push_number(shape.n);
    text.push_number(shape.width);
    text.push_number(shape.height);
    text.push_number(shape.depth);
    gather_images(text, shape);
}

/// Gathers the end of that line: the number of images, and what wraps.
fn gather_images(text: &mut Gathered, shape: Shape)
    requires room { length text.old ≤ 128 }
    ensures gathered { text.new ≡ text.old ++ 32 ∷ (decimal shape.symmetry ++ 32
        ∷ (decimal (bit shape.wrap_in) ++ 32 ∷ (decimal (bit shape.wrap_out) ++ 10 ∷ []))) }
    ensures few { shape.symmetry < 2 ^ 8 }
{
    text.push_number(u32::from(shape.symmetry));
    text.push_number(bit(shape.wrap_in));
    text.push_number(bit(shape.wrap_out));
    text.push(b"\n");
}

/// A truth value as a number.
fn bit(is: bool) -> u32
    ensures value { result ≡ bit is }
{
    if is { 1 } else { 0 }
}
