//! Maps of colours, in both forms of pictures.

ghost use Rattle.std.specs.Prelude.{◌≡◌, ◌*◌, ◌≤◌, map, IfOk};
ghost use Rattle.wfc_picture.specs.declared.palette.TheConstants.{MAX_PIXELS};
ghost use Rattle.wfc_picture.specs.declared.symbol.Symbol.TheVariants.{Rgb};

use std::alloc::{AllocError, Global};
use std::process::Abort;
use std::test::Fail;
use wfc_picture::{Colour, Kind, Palette, Symbol};
use wfc_ppm::{Ppm, push_p6_head};
use wfc_render::laws::layouts_are_as_asked;
use wfc_render::{Form, layout, picture_bytes};

fn symbols_of(alloc: Global, colours: &[Colour]) -> Result<Vec<Symbol>, AllocError>
    ensures symbols { IfOk result (λ symbols. symbols.items ≡ map Rgb colours.now) }
{
    colours
        .iter()
        .map(|colour| Symbol::Rgb(*colour))
        .collect(alloc)
}

/// The picture's own text in a form.
fn text_of(alloc: Global, ppm: &Ppm, form: Form) -> Result<Vec<u8>, Fail>
    requires width_limit { ppm.now.width ≤ 4096 }
    requires height_limit { ppm.now.height ≤ 4096 }
    requires limit { ppm.now.width * ppm.now.height ≤ MAX_PIXELS }
{
    layouts_are_as_asked();
    let pixels = ppm.pixels.as_slice();
    let symbols = symbols_of(alloc, pixels)?;
    let (picture, palette) = Palette::index(alloc, &symbols, ppm.width)?;
    let kind = Kind::Ppm { maxval: ppm.maxval };
    let laid = layout(kind, Some(form), ppm.width, ppm.height, 1)?;
    Ok(picture_bytes(alloc, &laid, &palette, &picture)?)
}

/// The text of the picture that a text spells, in a form.
fn written(rt: &impl Abort, alloc: Global, text: &[u8], form: Form) -> Result<Vec<u8>, Fail> {
    assert!(rt; text.len() < 300_000);
    let ppm = wfc_ppm::read(alloc, text)?;
    assert!(rt; ppm.width <= 4096 && ppm.height <= 4096);
    text_of(alloc, &ppm, form)
}

#[test]
fn writes_maps_of_colours(rt: HostRuntime) -> Result<(), Fail> {
    let narrow = b"P6\n3 1\n255\n\x01\x02\x03\xff\x00\x0a\x01\x02\x03";
    let wide = b"P6\n1 2\n300\n\x00\x01\x00\x02\x01\x2c\x01\x00\x00\x00\x00\x09";
    let cases = [
        (narrow.as_slice(), Form::P6, narrow.as_slice()),
        (narrow, Form::P3, b"P3\n3 1\n255\n1 2 3\n255 0 10\n1 2 3\n"),
        (narrow, Form::Cells, b"0 1 0\n"),
        (wide, Form::P6, wide),
        (wide, Form::P3, b"P3\n1 2\n300\n1 2 300\n256 0 9\n"),
        (wide, Form::Cells, b"0\n1\n"),
    ];
    for (text, form, wanted) in cases {
        assert_eq!(rt; written(&rt, rt.alloc(), text, form)?.as_slice(), wanted);
    }
    Ok(())
}

/// A picture of 256 by 256 colours, raw.
fn large_picture(alloc: Global) -> Result<Vec<u8>, Fail> {
    let mut text = Vec::new(alloc);
    push_p6_head(&mut text, 256, 256, 99)?;
    for y in 0..256_u32 {
        for x in 0..256_u32 {
            text.push((x % 16) as u8)?;
            text.push((y % 100) as u8)?;
            text.push(7)?;
        }
    }
    Ok(text)
}

#[test]
fn writes_large_maps_of_colours(rt: HostRuntime) -> Result<(), Fail> {
    let text = large_picture(rt.alloc())?;
    assert!(rt; written(&rt, rt.alloc(), &text, Form::P6)? == text);
    Ok(())
}

/// Whether two texts spell the same colours.
fn same_colours(rt: &impl Abort, alloc: Global, text: &[u8], other: &[u8]) -> Result<bool, Fail> {
    assert!(rt; text.len() < 700_000 && other.len() < 700_000);
    let ppm = wfc_ppm::read(alloc, text)?;
    let again = wfc_ppm::read(alloc, other)?;
    Ok(again.pixels == ppm.pixels)
}

#[test]
fn writes_large_maps_of_colours_in_decimal(rt: HostRuntime) -> Result<(), Fail> {
    let text = large_picture(rt.alloc())?;
    let plain = written(&rt, rt.alloc(), &text, Form::P3)?;
    assert!(rt; plain.starts_with(b"P3\n256 256\n99\n0 0 7\n1 0 7\n"));
    assert!(rt; plain.ends_with(b"\n14 55 7\n15 55 7\n"));
    assert!(rt; same_colours(&rt, rt.alloc(), &text, &plain)?);
    Ok(())
}

#[test]
fn writes_large_maps_of_colours_as_numbers(rt: HostRuntime) -> Result<(), Fail> {
    let text = large_picture(rt.alloc())?;
    let cells = written(&rt, rt.alloc(), &text, Form::Cells)?;
    assert!(rt; cells.starts_with(b"0 1 2 3 4 5 6 7 8 9 10 11 12 13 14 15 0 1 2 "));
    assert!(rt; cells.ends_with(b" 893 894 895\n"));
    Ok(())
}
