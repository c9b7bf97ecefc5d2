//! Whole numbers in decimal digits.

ghost use Rattle.std.specs.Prelude.{◌≡◌, ◌+◌, ◌*◌, ◌^◌, ◌<◌, ◌≤◌, ◌++◌, true, decimal, position, IfOk, OnOk, OnErr};
ghost use Rattle.std.specs.Char.{digit_value, is_ascii_digit};
ghost use Rattle.std.specs.List.{AllPass};
ghost use Rattle.std.specs.Option.{SomeIff};
ghost use Rattle.std.specs.Str.Parse.{digits_value};
ghost use Rattle.wfc_outside.specs.Sink.{Puts};
ghost use Rattle.wfc_text.specs.Number.{is_other, number_of};

use itoa::Buffer;
use thiserror::Error;
use wfc_outside::{NoMemory, Sink, SinkFault, write_all};

/// Why a text is no number of the range.
#[derive(Clone, Copy, Debug, PartialEq, Eq, Error)]
pub enum NumberFault {
    #[error("a number has no digit")]
    Empty,
    #[error("a number has another byte than digits")]
    NotDigit { at: usize },
    #[error("a number is out of its range")]
    OutOfRange,
}

/// The number that the text writes in decimal digits, leading zeros included, if it is at least `least` and at most
/// `most`. A text with a sign is no number.
pub fn number(text: &[u8], least: u64, most: u64) -> Result<u64, NumberFault>
    ensures exact { result ≡ number_of text.now least most }
    ensures in_range { IfOk result (λ n. (least ≤ n) × (n ≤ most)) }
{
    if text.is_empty() {
        return Err(NumberFault::Empty);
    }
    if let Some(at) = first_other(text) {
        return Err(NumberFault::NotDigit { at });
    }
    let n = value(text).ok_or(NumberFault::OutOfRange)?;
    if n < least || most < n {
        return Err(NumberFault::OutOfRange);
    }
    Ok(n)
}

/// The place of the first byte that is no digit.
fn first_other(text: &[u8]) -> Option<usize>
    ensures first { result ≡ position is_other text.now }
{
    text.iter().position(|byte| !byte.is_ascii_digit())
}

/// The number that digits write, if it fits.
fn value(digits: &[u8]) -> Option<u64>
    requires digits { AllPass is_ascii_digit digits.now }
    ensures value { SomeIff result
        (digits_value 10 digits.now < 2 ^ 64) (digits_value 10 digits.now) }
{
    let mut n = 0;
    for digit in digits {
        n = with_digit(n, *digit)?;
    }
    Some(n)
}

/// The number with a digit more at its end, if it fits.
#[inline]
fn with_digit(n: u64, digit: u8) -> Option<u64>
    requires digit { is_ascii_digit digit ≡ true }
    ensures value { SomeIff result
        (n * 10 + digit_value digit < 2 ^ 64) (n * 10 + digit_value digit) }
{
    n.checked_mul(10)?.checked_add(u64::from(digit - b'0'))
}

/// Writes the number behind the text. After want of memory the text is as before.
pub fn push_number(text: &mut Vec<u8>, n: u64) -> Result<(), NoMemory>
    ensures ok { OnOk result (text.new.items ≡ text.old.items ++ decimal n) }
    ensures no_memory { OnErr result (text.new.items ≡ text.old.items) }
{
    let mut buffer = Buffer::new();
    text.extend_from_slice(buffer.format(n).as_bytes())?;
    Ok(())
}

/// Writes the number into the sink. After `Failed` the sink has taken a front of its digits.
pub fn write_number<S: Sink>(sink: &mut S, n: u64) -> Result<(), SinkFault>
    ensures put { Puts (S.seen sink.old) (S.seen sink.new) (decimal n) result }
{
    let mut buffer = Buffer::new();
    write_all(sink, buffer.format(n).as_bytes())
}
