//! What a small sample and a rich one teach.

ghost use Rattle.std.specs.Prelude.{◌<◌, ◌≤◌};

use std::alloc::{AllocError, Global};
use std::process::Abort;
use std::test::Fail;
use wfc_pattern::learn;
use wfc_picture::{Colour, Palette, Picture, Symbol};
use wfc_render::learned_overlap;
use wfc_text::push_number;

/// What is told of the windows of a square sample.
fn told_of(
    rt: &impl Abort,
    alloc: Global,
    picture: &Picture,
    palette: &Palette,
    side: u32,
    n: u32,
    wrap: bool,
) -> Result<Vec<u8>, Fail>
    requires small { side ≤ 64 }
    requires some_side { 0 < n }
    requires small_side { n ≤ 6 }
{
    assert!(rt; picture.width() == side && picture.height() == side);
    let patterns = learn(alloc, picture, n, 1, wrap)?;
    Ok(learned_overlap(alloc, &patterns, palette)?)
}

/// What is told of the windows of a square sample with these symbols.
fn told(
    rt: &impl Abort,
    alloc: Global,
    symbols: &[Symbol],
    side: u32,
    n: u32,
    wrap: bool,
) -> Result<Vec<u8>, Fail>
    requires some_column { 0 < side }
    requires small { side ≤ 64 }
    requires some_side { 0 < n }
    requires small_side { n ≤ 6 }
{
    assert!(rt; 0 < symbols.len() && symbols.len() <= 4096);
    assert!(rt; symbols.len() % side as usize == 0);
    let (picture, palette) = Palette::index(alloc, symbols, side)?;
    told_of(rt, alloc, &picture, &palette, side, n, wrap)
}

#[test]
fn tells_what_was_learned(rt: HostRuntime) -> Result<(), Fail> {
    let a = Symbol::Char(b'a');
    let b = Symbol::Char(b'b');
    let symbols = [a, b, b, a];
    let text = told(&rt, rt.alloc(), &symbols, 2, 2, true)?;
    assert_eq!(rt;
        text.as_slice(),
        b"overlap 2\ncolours 2\n0 a\n1 b\npatterns 2\n0 2: 0 1 1 0\n1 2: 1 0 0 1\n".as_slice()
    );
    Ok(())
}

/// As many colours as there may be.
fn many_colours(alloc: Global) -> Result<Vec<Symbol>, AllocError> {
    let mut symbols = Vec::new(alloc);
    for k in 0..4096_u16 {
        symbols.push(Symbol::Rgb(Colour { r: k, g: 9, b: 0 }))?;
    }
    Ok(symbols)
}

/// Writes the lines of these colours.
fn push_colours(text: &mut Vec<u8>) -> Result<(), Fail> {
    for k in 0..4096_u64 {
        push_number(text, k)?;
        text.push(b' ')?;
        push_number(text, k)?;
        text.extend_from_slice(b",9,0\n")?;
    }
    Ok(())
}

/// Writes the lines of as many patterns, each of one pixel.
fn push_patterns(text: &mut Vec<u8>) -> Result<(), Fail> {
    for k in 0..4096_u64 {
        push_number(text, k)?;
        text.extend_from_slice(b" 1: ")?;
        push_number(text, k)?;
        text.push(b'\n')?;
    }
    Ok(())
}

/// What is told of as many colours and patterns as there may be, each of one pixel.
fn much(alloc: Global) -> Result<Vec<u8>, Fail> {
    let mut text = Vec::from_slice(alloc, b"overlap 1\ncolours 4096\n")?;
    push_colours(&mut text)?;
    text.extend_from_slice(b"patterns 4096\n")?;
    push_patterns(&mut text)?;
    Ok(text)
}

#[test]
fn tells_much_that_was_learned(rt: HostRuntime) -> Result<(), Fail> {
    let symbols = many_colours(rt.alloc())?;
    let text = told(&rt, rt.alloc(), &symbols, 64, 1, false)?;
    assert!(rt; text == much(rt.alloc())?);
    Ok(())
}
