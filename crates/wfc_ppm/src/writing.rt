//! Writing a picture.

ghost use Rattle.std.specs.Prelude.{◌≡◌, ◌*◌, ◌/◌, ◌%◌, ◌≤◌, ◌++◌, IsTrue, true, codes, flat_map, length, Ok, IfOk, OnOk};
ghost use Rattle.std.specs.List.{AllPass};
ghost use Rattle.wfc_picture.specs.declared.palette.TheConstants.{MAX_PIXELS};
ghost use Rattle.wfc_ppm.specs.Ppm.{head_lines, is_within, p3_text, p6_text, pixel_bytes, pixel_line, raw_bytes};
ghost use Rattle.wfc_picture.specs.declared.symbol.Colour.{Colour};
ghost use Rattle.wfc_ppm.specs.Reading.{ppm_of};
ghost use Rattle.wfc_ppm.specs.Spelling.{SpellsP3, SpellsP6};

use crate::Ppm;
use std::alloc::Global;
use wfc_outside::NoMemory;
use wfc_picture::Colour;
use wfc_text::push_number;

/// The most bytes of a head.
const HEAD_BYTES: usize = 32;

/// The text of a picture in the form P6, raw.
pub fn write_p6(alloc: Global, ppm: &Ppm) -> Result<Vec<u8>, NoMemory>
    ensures text { IfOk result (λ text. text.items ≡ p6_text ppm.now) }
    ensures spelled { IfOk result (λ text. SpellsP6 text.items ppm.now) }
    ensures again { IfOk result (λ text.
        ppm.now.width * ppm.now.height ≤ MAX_PIXELS → ppm_of text.items ≡ Ok ppm.now) }
{
    let size = if ppm.maxval < 256 { 3 } else { 6 };
    let room = ppm
        .pixels
        .len()
        .saturating_mul(size)
        .saturating_add(HEAD_BYTES);
    let mut text = Vec::with_capacity(alloc, room)?;
    push_p6_head(&mut text, ppm.width, ppm.height, ppm.maxval)?;
    push_raw(&mut text, ppm.maxval, &ppm.pixels)?;
    Ok(text)
}

/// The text of a picture in the form P3, in decimal, one pixel a line.
pub fn write_p3(alloc: Global, ppm: &Ppm) -> Result<Vec<u8>, NoMemory>
    ensures text { IfOk result (λ text. text.items ≡ p3_text ppm.now) }
    ensures spelled { IfOk result (λ text. SpellsP3 text.items ppm.now) }
    ensures again { IfOk result (λ text.
        ppm.now.width * ppm.now.height ≤ MAX_PIXELS → ppm_of text.items ≡ Ok ppm.now) }
{
    let size = line_room(ppm.maxval);
    let room = ppm
        .pixels
        .len()
        .saturating_mul(size)
        .saturating_add(HEAD_BYTES);
    let mut text = Vec::with_capacity(alloc, room)?;
    push_p3_head(&mut text, ppm.width, ppm.height, ppm.maxval)?;
    push_plain(&mut text, &ppm.pixels)?;
    Ok(text)
}

/// The most bytes of a pixel's line, where no sample is above maxval.
pub fn line_room(maxval: u16) -> usize
    ensures enough { (pixel : Colour) → IsTrue (is_within maxval pixel)
        → length (pixel_line pixel) ≤ result }
{
    if maxval < 10 {
        6
    } else if maxval < 100 {
        9
    } else if maxval < 1000 {
        12
    } else {
        18
    }
}

/// Writes the head of a text in the form P6 behind the text.
pub fn push_p6_head(
    text: &mut Vec<u8>,
    width: u32,
    height: u32,
    maxval: u16,
) -> Result<(), NoMemory>
    ensures ok { OnOk result
        (text.new.items ≡ text.old.items ++ (codes "P6\n" ++ head_lines width height maxval)) }
{
    text.extend_from_slice(b"P6\n")?;
    push_head_lines(text, width, height, maxval)
}

/// Writes the head of a text in the form P3 behind the text.
pub fn push_p3_head(
    text: &mut Vec<u8>,
    width: u32,
    height: u32,
    maxval: u16,
) -> Result<(), NoMemory>
    ensures ok { OnOk result
        (text.new.items ≡ text.old.items ++ (codes "P3\n" ++ head_lines width height maxval)) }
{
    text.extend_from_slice(b"P3\n")?;
    push_head_lines(text, width, height, maxval)
}

/// Writes the line of the sides and the line of maxval behind the text.
fn push_head_lines(text: &mut Vec<u8>, width: u32, height: u32, maxval: u16) -> Result<(), NoMemory>
    ensures ok { OnOk result (text.new.items ≡ text.old.items ++ head_lines width height maxval) }
{
    push_number(text, u64::from(width))?;
    text.push(b' ')?;
    push_number(text, u64::from(height))?;
    text.push(b'\n')?;
    push_number(text, u64::from(maxval))?;
    text.push(b'\n')?;
    Ok(())
}

/// Writes the bytes of all pixels behind the text.
fn push_raw(text: &mut Vec<u8>, maxval: u16, pixels: &[Colour]) -> Result<(), NoMemory>
    requires within { AllPass (is_within maxval) pixels.now }
    ensures ok { OnOk result (text.new.items ≡ text.old.items ++ raw_bytes maxval pixels.now) }
{
    for pixel in pixels {
        push_p6_pixel(text, maxval, *pixel)?;
    }
    Ok(())
}

/// Writes the lines of all pixels behind the text.
fn push_plain(text: &mut Vec<u8>, pixels: &[Colour]) -> Result<(), NoMemory>
    ensures ok { OnOk result (text.new.items ≡ text.old.items ++ flat_map pixel_line pixels.now) }
{
    for pixel in pixels {
        push_p3_pixel(text, *pixel)?;
    }
    Ok(())
}

/// Writes the bytes of a pixel behind the text.
#[inline]
pub fn push_p6_pixel(text: &mut Vec<u8>, maxval: u16, pixel: Colour) -> Result<(), NoMemory>
    requires within { is_within maxval pixel ≡ true }
    ensures ok { OnOk result (text.new.items ≡ text.old.items ++ pixel_bytes maxval pixel) }
{
    let Colour { r, g, b } = pixel;
    if maxval < 256 {
        text.extend_from_slice(&[r as u8, g as u8, b as u8])?;
    } else {
        text.extend_from_slice(&[high(r), low(r), high(g), low(g), high(b), low(b)])?;
    }
    Ok(())
}

/// The most significant byte of a sample.
#[inline]
fn high(sample: u16) -> u8
    ensures high { result ≡ sample / 256 }
{
    (sample / 256) as u8
}

/// The least significant byte of a sample.
#[inline]
fn low(sample: u16) -> u8
    ensures low { result ≡ sample % 256 }
{
    (sample % 256) as u8
}

/// Writes the line of a pixel behind the text.
#[inline]
pub fn push_p3_pixel(text: &mut Vec<u8>, pixel: Colour) -> Result<(), NoMemory>
    ensures ok { OnOk result (text.new.items ≡ text.old.items ++ pixel_line pixel) }
{
    push_number(text, u64::from(pixel.r))?;
    text.push(b' ')?;
    push_number(text, u64::from(pixel.g))?;
    text.push(b' ')?;
    push_number(text, u64::from(pixel.b))?;
    text.push(b'\n')?;
    Ok(())
}
