//! The parts of a picture's text: whitespace, comments and numbers.

#![tactic(auto, using(crate::proofs::FieldLemmas::no_digit_fault, crate::proofs::FaultLemmas::first_side))]

ghost use Rattle.std.specs.Prelude.{◌≡◌, ◌+◌, ◌*◌, ◌≤◌, true, false, min, None, Some, length, IfOk, IfErr};
ghost use Rattle.std.specs.Char.{digit_value, is_ascii_digit};
ghost use Rattle.wfc_ppm.specs.Fault.{ends_token, field_fault, side_fault};
ghost use Rattle.wfc_ppm.specs.Field.{behind_digits, behind_field, comment_behind, digits_of, field_value, is_space};
ghost use Rattle.wfc_ppm.specs.Field.{place_of, start_of, stop_of, value_of};

use crate::reading::PpmFault;

/// Whether a byte is a blank, a tabulator, a carriage return or a line feed.
#[inline]
pub fn is_space(byte: u8) -> bool
    ensures exact { result ≡ is_space byte }
{
    matches!(byte, b' ' | b'\t' | b'\r' | b'\n')
}

/// Whether a comment is open behind a byte; none where the byte is no whitespace and no comment's.
#[inline]
fn comment_behind(opened: bool, byte: u8) -> Option<bool>
    ensures exact { result ≡ comment_behind opened byte }
{
    if opened {
        return Some(byte != b'\n' && byte != b'\r');
    }
    if is_space(byte) {
        return Some(false);
    }
    if byte == b'#' { Some(true) } else { None }
}

/// What stands behind the whitespace and the comments at the front, and whether the text's end cuts a comment.
pub fn stop(text: &[u8]) -> (&[u8], bool)
    ensures rest { result.0.now ≡ (stop_of false text.now).rest }
    ensures cut { result.1 ≡ (stop_of false text.now).cut }
    ensures shorter { length result.0.now ≤ length text.now }
{
    let mut opened = false;
    for (at, byte) in text.iter().enumerate() {
        match comment_behind(opened, *byte) {
            Some(next) => opened = next,
            None => return (&text[at..], false),
        }
    }
    (&[], opened)
}

/// The number that the digits at the front write, 4,294,967,295 where it is greater, and what stands behind them.
pub fn digits(text: &[u8]) -> (u32, &[u8])
    ensures value { result.0 ≡ value_of (digits_of text.now) }
    ensures rest { result.1.now ≡ behind_digits text.now }
    ensures shorter { length result.1.now ≤ length text.now }
{
    let mut n = 0;
    for (at, byte) in text.iter().enumerate() {
        if !byte.is_ascii_digit() {
            return (n, &text[at..]);
        }
        n = with_digit(n, *byte);
    }
    (n, &[])
}

/// The number with a digit more at its end, 4,294,967,295 where it is greater.
#[inline]
fn with_digit(n: u32, digit: u8) -> u32
    requires digit { is_ascii_digit digit ≡ true }
    ensures value { result ≡ min (n * 10 + digit_value digit) 4294967295 }
{
    n.saturating_mul(10).saturating_add(u32::from(digit - b'0'))
}

/// The place of a rest in a text of so many bytes.
#[inline]
pub fn place(total: u32, rest: &[u8]) -> u32
    requires part { length rest.now ≤ total }
    ensures place { result ≡ place_of total rest.now }
{
    total - rest.len() as u32
}

/// The number behind a separator, and what stands behind it.
#[tactic(auto, using(crate::proofs::FieldLemmas::right_field, crate::proofs::FieldLemmas::no_gap_fault))]
pub fn field(total: u32, text: &[u8]) -> Result<(u32, &[u8]), PpmFault>
    requires part { length text.now ≤ total }
    ensures right { IfOk result (λ _. field_fault total text.now ≡ None) }
    ensures value { IfOk result (λ got. got.0 ≡ field_value text.now) }
    ensures rest { IfOk result (λ got. got.1.now ≡ behind_field text.now) }
    ensures shorter { IfOk result (λ got. length got.1.now ≤ length text.now) }
    ensures fault { IfErr result (λ fault. field_fault total text.now ≡ Some fault) }
{
    let (start, _cut) = stop(text);
    if start.len() == text.len() {
        return Err(PpmFault::Header {
            at: place(total, text),
        });
    }
    let (value, rest) = digits(start);
    if rest.len() == start.len() {
        return Err(PpmFault::Header {
            at: place(total, start),
        });
    }
    Ok((value, rest))
}

/// A side behind a separator, which is not 0, and what stands behind it.
#[tactic(auto, using(crate::proofs::FaultLemmas::right_side, crate::proofs::FaultLemmas::zero_side))]
pub fn side(total: u32, text: &[u8]) -> Result<(u32, &[u8]), PpmFault>
    requires part { length text.now ≤ total }
    ensures right { IfOk result (λ _. side_fault total text.now ≡ None) }
    ensures value { IfOk result (λ got. got.0 ≡ field_value text.now) }
    ensures rest { IfOk result (λ got. got.1.now ≡ behind_field text.now) }
    ensures shorter { IfOk result (λ got. length got.1.now ≤ length text.now) }
    ensures fault { IfErr result (λ fault. side_fault total text.now ≡ Some fault) }
{
    let (value, rest) = field(total, text)?;
    if value == 0 {
        let (start, _cut) = stop(text);
        return Err(PpmFault::Header {
            at: place(total, start),
        });
    }
    Ok((value, rest))
}
