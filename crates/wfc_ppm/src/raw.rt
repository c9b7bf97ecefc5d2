//! Raw samples: one or two bytes each.

#![tactic(auto, using(crate::proofs::FaultLemmas::few_raw, crate::proofs::FaultLemmas::above_raw))]

ghost use Rattle.std.specs.Prelude.{◌≡◌, ◌⊎◌, ◌+◌, ◌*◌, ◌%◌, ◌<◌, ◌≤◌, nat_lt, None, Some, length, position};
ghost use Rattle.std.specs.Prelude.{slice_index, take, IfOk, IfErr, IfSome};
ghost use Rattle.wfc_ppm.specs.Fault.{pairs_of, raw_fault, raw_samples, sample_size};
ghost use Rattle.wfc_ppm.specs.Reading.{colours_of};

use crate::field::place;
use crate::reading::PpmFault;
use std::alloc::{AllocError, Global};
use wfc_picture::Colour;

/// The pixels of raw samples: `bytes` is the rest of a text of `total` bytes, and should have `wanted` bytes.
#[tactic(auto, using(crate::proofs::FaultLemmas::more_raw, crate::proofs::FaultLemmas::right_raw))]
pub fn raw_pixels(
    alloc: Global,
    total: u32,
    maxval: u32,
    wanted: u32,
    bytes: &[u8],
) -> Result<Vec<Colour>, PpmFault>
    requires part { length bytes.now ≤ total }
    requires whole { wanted % sample_size maxval ≡ 0 }
    ensures right { IfOk result (λ _. raw_fault total maxval wanted bytes.now ≡ None) }
    ensures pixels { IfOk result (λ pixels.
        pixels.items ≡ colours_of (raw_samples maxval (take wanted bytes.now))) }
    ensures fault { IfErr result (λ fault.
        (raw_fault total maxval wanted bytes.now ≡ Some fault) ⊎ (fault ≡ PpmFault.NoMemory)) }
{
    if bytes.len() < wanted as usize {
        return Err(PpmFault::Truncated {
            wanted,
            found: bytes.len() as u32,
        });
    }
    let (samples, behind) = bytes.split_at(wanted as usize);
    if let Some(index) = first_above(maxval, samples) {
        return Err(PpmFault::SampleAboveMaxval {
            at: place(total, bytes) + index as u32 * sample_size(maxval),
        });
    }
    if !behind.is_empty() {
        return Err(PpmFault::Trailing {
            at: place(total, bytes) + wanted,
        });
    }
    let pixels = colours(alloc, maxval, samples)?;
    Ok(pixels)
}

/// How many bytes a sample has.
#[inline]
pub fn sample_size(maxval: u32) -> u32
    ensures size { result ≡ sample_size maxval }
{
    if maxval < 256 { 1 } else { 2 }
}

/// Which sample is the first above maxval.
fn first_above(maxval: u32, bytes: &[u8]) -> Option<usize>
    requires whole { length bytes.now % sample_size maxval ≡ 0 }
    ensures first { result ≡ position (nat_lt maxval) (raw_samples maxval bytes.now) }
    ensures inside { IfSome result (λ index. index * sample_size maxval < length bytes.now) }
{
    if maxval < 256 {
        first_byte_above(maxval, bytes)
    } else {
        first_pair_above(maxval, bytes)
    }
}

/// The first byte above maxval.
fn first_byte_above(maxval: u32, bytes: &[u8]) -> Option<usize>
    ensures first { result ≡ position (nat_lt maxval) bytes.now }
    ensures inside { IfSome result (λ index. index < length bytes.now) }
{
    bytes.iter().position(|byte| maxval < u32::from(*byte))
}

/// The first pair of bytes above maxval.
fn first_pair_above(maxval: u32, bytes: &[u8]) -> Option<usize>
    ensures first { result ≡ position (nat_lt maxval) (pairs_of bytes.now) }
    ensures inside { IfSome result (λ index. index * 2 < length bytes.now) }
{
    for index in 0..bytes.len() / 2 {
        if maxval < u32::from(pair(bytes[2 * index], bytes[2 * index + 1])) {
            return Some(index);
        }
    }
    None
}

/// The sample of two bytes.
#[inline]
fn pair(high: u8, low: u8) -> u16
    ensures sample { result ≡ high * 256 + low }
{
    u16::from(high) * 256 + u16::from(low)
}

/// The pixels of samples.
fn colours(alloc: Global, maxval: u32, bytes: &[u8]) -> Result<Vec<Colour>, AllocError>
    ensures pixels { IfOk result (λ pixels.
        pixels.items ≡ colours_of (raw_samples maxval bytes.now)) }
{
    if maxval < 256 {
        narrow_colours(alloc, bytes)
    } else {
        wide_colours(alloc, bytes)
    }
}

/// The pixels of samples of one byte.
fn narrow_colours(alloc: Global, bytes: &[u8]) -> Result<Vec<Colour>, AllocError>
    ensures pixels { IfOk result (λ pixels. pixels.items ≡ colours_of bytes.now) }
{
    let count = bytes.len() / 3;
    let mut pixels = Vec::with_capacity(alloc, count)?;
    for index in 0..count {
        pixels.push(narrow_pixel(bytes, index))?;
    }
    Ok(pixels)
}

/// The pixel of three bytes.
#[inline]
fn narrow_pixel(bytes: &[u8], index: usize) -> Colour
    requires inside { 3 * index + 3 ≤ length bytes.now }
    ensures red { result.r ≡ slice_index bytes.now (3 * index) }
    ensures green { result.g ≡ slice_index bytes.now (3 * index + 1) }
    ensures blue { result.b ≡ slice_index bytes.now (3 * index + 2) }
{
    Colour {
        r: u16::from(bytes[3 * index]),
        g: u16::from(bytes[3 * index + 1]),
        b: u16::from(bytes[3 * index + 2]),
    }
}

/// The pixels of samples of two bytes.
fn wide_colours(alloc: Global, bytes: &[u8]) -> Result<Vec<Colour>, AllocError>
    ensures pixels { IfOk result (λ pixels. pixels.items ≡ colours_of (pairs_of bytes.now)) }
{
    let count = bytes.len() / 6;
    let mut pixels = Vec::with_capacity(alloc, count)?;
    for index in 0..count {
        pixels.push(wide_pixel(bytes, index))?;
    }
    Ok(pixels)
}

/// The pixel of six bytes.
#[inline]
fn wide_pixel(bytes: &[u8], index: usize) -> Colour
    requires inside { 6 * index + 6 ≤ length bytes.now }
    ensures red { result.r
        ≡ slice_index bytes.now (6 * index) * 256 + slice_index bytes.now (6 * index + 1) }
    ensures green { result.g
        ≡ slice_index bytes.now (6 * index + 2) * 256 + slice_index bytes.now (6 * index + 3) }
    ensures blue { result.b
        ≡ slice_index bytes.now (6 * index + 4) * 256 + slice_index bytes.now (6 * index + 5) }
{
    Colour {
        r: pair(bytes[6 * index], bytes[6 * index + 1]),
        g: pair(bytes[6 * index + 2], bytes[6 * index + 3]),
        b: pair(bytes[6 * index + 4], bytes[6 * index + 5]),
    }
}
