//! Samples in decimal.

#![tactic(auto, using(crate::proofs::FaultLemmas::bad_sample, crate::proofs::FaultLemmas::above_sample))]

ghost use Rattle.std.specs.Prelude.{◌≡◌, ◌⊎◌, ◌+◌, ◌*◌, ◌≤◌, None, Some, length, IfOk, IfErr};
ghost use Rattle.wfc_ppm.specs.Fault.{behind_pixel, ends_token, pixel_fault, plain_fault, sample_fault, tail_fault};
ghost use Rattle.wfc_ppm.specs.Field.{behind_field, field_value};
ghost use Rattle.wfc_ppm.specs.Reading.{plain_pixel, plain_pixels};

use crate::field::{digits, is_space, place, stop};
use crate::reading::PpmFault;
use std::alloc::Global;
use wfc_picture::Colour;

/// So many pixels in decimal, with nothing but whitespace and comments behind them: `text` is the rest of a text of `total`
/// bytes.
pub fn plain_pixels(
    alloc: Global,
    total: u32,
    maxval: u32,
    count: u32,
    text: &[u8],
) -> Result<Vec<Colour>, PpmFault>
    requires part { length text.now ≤ total }
    requires small { maxval ≤ 65535 }
    requires few { count ≤ 1048576 }
    ensures right { IfOk result (λ _.
        plain_fault total maxval (count * 3) 0 count text.now ≡ None) }
    ensures pixels { IfOk result (λ pixels. pixels.items ≡ plain_pixels count text.now) }
    ensures fault { IfErr result (λ fault. (plain_fault total maxval (count * 3) 0 count text.now
        ≡ Some fault) ⊎ (fault ≡ PpmFault.NoMemory)) }
{
    let mut pixels = Vec::with_capacity(alloc, count as usize)?;
    let mut rest = text;
    for index in 0..count {
        let (colour, behind) = pixel(total, maxval, count * 3, index * 3, rest)?;
        pixels.push(colour)?;
        rest = behind;
    }
    check_tail(total, rest)?;
    Ok(pixels)
}

/// The pixel of three samples, and what stands behind it.
#[tactic(auto, using(crate::proofs::FaultLemmas::right_pixel, crate::proofs::FaultLemmas::red_fault))]
fn pixel(
    total: u32,
    maxval: u32,
    wanted: u32,
    found: u32,
    text: &[u8],
) -> Result<(Colour, &[u8]), PpmFault>
    requires part { length text.now ≤ total }
    requires small { maxval ≤ 65535 }
    requires few { found ≤ 3145728 }
    ensures right { IfOk result (λ _. pixel_fault total maxval wanted found text.now ≡ None) }
    ensures colour { IfOk result (λ got. got.0 ≡ plain_pixel text.now) }
    ensures rest { IfOk result (λ got. got.1.now ≡ behind_pixel text.now) }
    ensures shorter { IfOk result (λ got. length got.1.now ≤ length text.now) }
    ensures fault { IfErr result (λ fault.
        pixel_fault total maxval wanted found text.now ≡ Some fault) }
{
    let (r, text) = sample(total, maxval, wanted, found, text)?;
    let (g, text) = sample(total, maxval, wanted, found + 1, text)?;
    let (b, text) = sample(total, maxval, wanted, found + 2, text)?;
    Ok((Colour { r, g, b }, text))
}

/// A sample, and what stands behind it.
#[tactic(auto, using(crate::proofs::FaultLemmas::right_sample, crate::proofs::FaultLemmas::no_sample))]
fn sample(
    total: u32,
    maxval: u32,
    wanted: u32,
    found: u32,
    text: &[u8],
) -> Result<(u16, &[u8]), PpmFault>
    requires part { length text.now ≤ total }
    requires small { maxval ≤ 65535 }
    ensures right { IfOk result (λ _. sample_fault total maxval wanted found text.now ≡ None) }
    ensures value { IfOk result (λ got. got.0 ≡ field_value text.now) }
    ensures rest { IfOk result (λ got. got.1.now ≡ behind_field text.now) }
    ensures shorter { IfOk result (λ got. length got.1.now ≤ length text.now) }
    ensures fault { IfErr result (λ fault.
        sample_fault total maxval wanted found text.now ≡ Some fault) }
{
    let (start, _cut) = stop(text);
    if start.is_empty() {
        return Err(PpmFault::Truncated { wanted, found });
    }
    let (value, rest) = digits(start);
    if !ends_token(rest) {
        return Err(PpmFault::BadSample {
            at: place(total, start),
        });
    }
    if value > maxval {
        return Err(PpmFault::SampleAboveMaxval {
            at: place(total, start),
        });
    }
    Ok((value as u16, rest))
}

/// Whether a token ends before this rest.
#[inline]
fn ends_token(rest: &[u8]) -> bool
    ensures exact { result ≡ ends_token rest.now }
{
    match rest.first() {
        None => true,
        Some(byte) => is_space(*byte) || *byte == b'#',
    }
}

/// Only whitespace and comments stand behind the last sample.
#[tactic(auto, using(crate::proofs::FaultLemmas::right_tail, crate::proofs::FaultLemmas::bad_tail))]
fn check_tail(total: u32, text: &[u8]) -> Result<(), PpmFault>
    requires part { length text.now ≤ total }
    ensures right { IfOk result (λ _. tail_fault total text.now ≡ None) }
    ensures fault { IfErr result (λ fault. tail_fault total text.now ≡ Some fault) }
{
    let (start, _cut) = stop(text);
    if start.is_empty() {
        return Ok(());
    }
    Err(PpmFault::Trailing {
        at: place(total, start),
    })
}
