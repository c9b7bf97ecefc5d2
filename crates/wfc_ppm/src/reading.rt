//! Reading a picture.

#![tactic(auto, using(crate::proofs::FaultLemmas::maxval_field_fault, crate::proofs::FaultLemmas::end_fault_last))]

ghost use Rattle.std.specs.Prelude.{◌≡◌, ◌≢◌, ◌⊎◌, ◌*◌, ◌≤◌, None, Some, drop, length, IfOk, IfErr, IfSome};
ghost use Rattle.wfc_outside.specs.Gives.{Gives};
ghost use Rattle.wfc_ppm.specs.Fault.{end_fault, form_of, gap_fault, head_of, header_fault, maxval_fault};
ghost use Rattle.wfc_ppm.specs.Fault.{samples_fault, pixel_count_fault, space_fault};
ghost use Rattle.wfc_ppm.specs.Ppm.{PpmView};
ghost use Rattle.wfc_ppm.specs.Reading.{pixels_of, ppm_in, ppm_of};
ghost use Rattle.wfc_ppm.specs.Spelling.{SpellsPpm};
ghost use Rattle.wfc_ppm.specs.View.{head_view};

use crate::Ppm;
use crate::field::{field, is_space, place, side, stop};
use crate::plain::plain_pixels;
use crate::raw::{raw_pixels, sample_size};
use std::alloc::{AllocError, AllocFailed, Global};
use thiserror::Error;
use wfc_outside::MAX_FILE_BYTES;
use wfc_picture::{Colour, MAX_PIXELS};

/// Why a text is no picture. Places count the bytes of the text from 0.
#[derive(Clone, Copy, Debug, PartialEq, Eq, Error)]
pub enum PpmFault {
    #[error("the text does not begin with P3 or P6")]
    Magic,
    #[error("the header lacks a separator or a number, or a side is 0")]
    Header { at: u32 },
    /// A maxval past 32 bits is 4,294,967,295 here.
    #[error("maxval is not 1 to 65535")]
    Maxval { value: u32 },
    #[error("the picture has too many pixels")]
    TooLarge,
    /// In bytes for P6, in samples for P3.
    #[error("there are too few samples")]
    Truncated { wanted: u32, found: u32 },
    #[error("a sample is above maxval")]
    SampleAboveMaxval { at: u32 },
    #[error("a sample is no number")]
    BadSample { at: u32 },
    #[error("something stands behind the last sample")]
    Trailing { at: u32 },
    #[error("memory ran out")]
    NoMemory,
}

impl From<AllocError> for PpmFault {
    ghost use Rattle.std.specs.Prelude.{◌≡◌};
    ghost use Rattle.wfc_ppm.specs.declared.reading.PpmFault.TheVariants.{NoMemory};

    ghost from_gives = { λ _ fault. fault ≡ NoMemory };

    fn from(_error: AllocError) -> PpmFault {
        PpmFault::NoMemory
    }
}

impl<T: Drop> From<AllocFailed<T>> for PpmFault {
    ghost use Rattle.std.specs.Prelude.{◌≡◌};
    ghost use Rattle.wfc_ppm.specs.declared.reading.PpmFault.TheVariants.{NoMemory};

    ghost from_gives = { λ _ fault. fault ≡ NoMemory };

    fn from(_error: AllocFailed<T>) -> PpmFault {
        PpmFault::NoMemory
    }
}

/// How the samples are written: as bytes, or in decimal.
#[derive(Clone, Copy, Debug, PartialEq, Eq)]
pub enum PpmForm {
    Raw,
    Plain,
}

/// The picture that a text spells in one of the forms P6 and P3, if it has at most 1,048,576 pixels.
///
/// The fault is the first one in this order: the magic; the header, at its first byte that should be something else; maxval;
/// the number of pixels; the samples. Raw samples are counted, then compared with maxval, then looked for what stands
/// behind them. Samples in decimal are looked at one after another. Numbers of any length are read to their end.
/// The formats are those of <https://netpbm.sourceforge.net/doc/ppm.html>, one picture a file.
pub fn read(alloc: Global, bytes: &[u8]) -> Result<Ppm, PpmFault>
    requires limited { length bytes.now ≤ MAX_FILE_BYTES }
    ensures exact { Gives PpmFault.NoMemory (λ ppm. ppm) result (ppm_of bytes.now) }

    // A picture is answered exactly for a text that spells it within the limit.
    ensures ok { IfOk result (λ ppm. SpellsPpm bytes.now ppm) }
    ensures within { IfOk result (λ ppm. ppm.width * ppm.height ≤ MAX_PIXELS) }
    ensures refused { IfErr result (λ fault. fault ≢ PpmFault.NoMemory →
        (ppm : PpmView) → SpellsPpm bytes.now ppm → ppm.width * ppm.height ≤ MAX_PIXELS → ⊥) }
{
    match named_form(bytes) {
        Some(form) => read_as(alloc, form, bytes),
        None => Err(PpmFault::Magic),
    }
}

/// The form that the first two bytes name.
fn named_form(bytes: &[u8]) -> Option<PpmForm>
    ensures form { result ≡ form_of bytes.now }
    ensures front { IfSome result (λ _. 2 ≤ length bytes.now) }
{
    match bytes {
        [b'P', b'6', ..] => Some(PpmForm::Raw),
        [b'P', b'3', ..] => Some(PpmForm::Plain),
        _ => None,
    }
}

/// The picture of a text whose first two bytes name this form.
fn read_as(alloc: Global, form: PpmForm, bytes: &[u8]) -> Result<Ppm, PpmFault>
    requires limited { length bytes.now ≤ MAX_FILE_BYTES }
    requires front { 2 ≤ length bytes.now }
    requires form { form_of bytes.now ≡ Some form }
    ensures exact { Gives PpmFault.NoMemory (λ ppm. ppm) result (ppm_in (Some form) bytes.now) }
{
    let total = bytes.len() as u32;
    let header = read_header(form, total, bytes)?;
    check_maxval(header.maxval)?;
    check_size(header.width, header.height)?;
    let pixels = pixels(alloc, form, total, &header)?;
    Ok(Ppm {
        width: header.width,
        height: header.height,
        maxval: header.maxval as u16,
        pixels,
    })
}

/// What stands before the samples. `rest` begins behind the digits of maxval.
#[derive(Clone, Copy)]
pub struct Header<'a> {
    width: u32,
    height: u32,
    maxval: u32,
    rest: &'a [u8],
}

/// The header behind the first two bytes.
#[tactic(auto, using(crate::proofs::FaultLemmas::right_header, crate::proofs::FaultLemmas::width_fault))]
fn read_header(form: PpmForm, total: u32, bytes: &[u8]) -> Result<Header<'_>, PpmFault>
    requires front { 2 ≤ length bytes.now }
    requires part { length bytes.now ≤ total }
    ensures right { IfOk result (λ _. header_fault form total (drop 2 bytes.now) ≡ None) }
    ensures header { IfOk result (λ header. head_view header ≡ head_of bytes.now) }
    ensures shorter { IfOk result (λ header. length header.rest.now ≤ length bytes.now) }
    ensures fault { IfErr result (λ fault.
        header_fault form total (drop 2 bytes.now) ≡ Some fault) }
{
    let (width, text) = side(total, &bytes[2..])?;
    let (height, text) = side(total, text)?;
    let (maxval, rest) = field(total, text)?;
    check_end(form, total, rest)?;
    Ok(Header {
        width,
        height,
        maxval,
        rest,
    })
}

/// What should stand between maxval and the samples stands there.
fn check_end(form: PpmForm, total: u32, text: &[u8]) -> Result<(), PpmFault>
    requires part { length text.now ≤ total }
    ensures right { IfOk result (λ _. end_fault form total text.now ≡ None) }
    ensures fault { IfErr result (λ fault. end_fault form total text.now ≡ Some fault) }
{
    match form {
        PpmForm::Raw => check_space(total, text),
        PpmForm::Plain => check_gap(total, text),
    }
}

/// One byte of whitespace stands before raw samples.
fn check_space(total: u32, text: &[u8]) -> Result<(), PpmFault>
    requires part { length text.now ≤ total }
    ensures right { IfOk result (λ _. space_fault total text.now ≡ None) }
    ensures fault { IfErr result (λ fault. space_fault total text.now ≡ Some fault) }
{
    match text.first() {
        None => Err(PpmFault::Header { at: total }),
        Some(byte) if is_space(*byte) => Ok(()),
        Some(_) => Err(PpmFault::Header {
            at: place(total, text),
        }),
    }
}

/// Whitespace or a comment stands before samples in decimal, and no comment that the text's end cuts.
#[tactic(auto, using(crate::proofs::FaultLemmas::right_gap, crate::proofs::FaultLemmas::no_gap, crate::proofs::FaultLemmas::cut_gap))]
fn check_gap(total: u32, text: &[u8]) -> Result<(), PpmFault>
    requires part { length text.now ≤ total }
    ensures right { IfOk result (λ _. gap_fault total text.now ≡ None) }
    ensures fault { IfErr result (λ fault. gap_fault total text.now ≡ Some fault) }
{
    let (start, cut) = stop(text);
    if start.len() == text.len() {
        return Err(PpmFault::Header {
            at: place(total, text),
        });
    }
    if cut {
        return Err(PpmFault::Header { at: total });
    }
    Ok(())
}

/// Maxval is 1 to 65,535.
#[tactic(auto, using(crate::proofs::FaultLemmas::right_maxval, crate::proofs::FaultLemmas::bad_maxval))]
fn check_maxval(maxval: u32) -> Result<(), PpmFault>
    ensures right { IfOk result (λ _. maxval_fault maxval ≡ None) }
    ensures fault { IfErr result (λ fault. maxval_fault maxval ≡ Some fault) }
    ensures small { IfOk result (λ _. maxval ≤ 65535) }
{
    if maxval == 0 || maxval > 65_535 {
        return Err(PpmFault::Maxval { value: maxval });
    }
    Ok(())
}

/// There are not too many pixels.
#[tactic(auto, using(crate::proofs::FaultLemmas::right_size, crate::proofs::FaultLemmas::too_large))]
fn check_size(width: u32, height: u32) -> Result<(), PpmFault>
    ensures right { IfOk result (λ _. pixel_count_fault width height ≡ None) }
    ensures fault { IfErr result (λ fault. pixel_count_fault width height ≡ Some fault) }
    ensures small { IfOk result (λ _. width * height ≤ 1048576) }
{
    if u64::from(width) * u64::from(height) > MAX_PIXELS as u64 {
        return Err(PpmFault::TooLarge);
    }
    Ok(())
}

/// The pixels behind the header.
fn pixels(
    alloc: Global,
    form: PpmForm,
    total: u32,
    header: &Header<'_>,
) -> Result<Vec<Colour>, PpmFault>
    requires part { length header.now.rest.now ≤ total }
    requires maxval { header.now.maxval ≤ 65535 }
    requires size { header.now.width * header.now.height ≤ 1048576 }
    requires end { end_fault form total header.now.rest.now ≡ None }
    ensures right { IfOk result (λ _. samples_fault form total (head_view header.now) ≡ None) }
    ensures pixels { IfOk result (λ pixels. pixels.items ≡ pixels_of form (head_view header.now)) }
    ensures fault { IfErr result (λ fault. (samples_fault form total (head_view header.now)
        ≡ Some fault) ⊎ (fault ≡ PpmFault.NoMemory)) }
{
    let count = header.width * header.height;
    match form {
        PpmForm::Raw => {
            let wanted = count * 3 * sample_size(header.maxval);
            raw_pixels(alloc, total, header.maxval, wanted, &header.rest[1..])
        }
        PpmForm::Plain => plain_pixels(alloc, total, header.maxval, count, header.rest),
    }
}
