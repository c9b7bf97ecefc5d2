//! The words of a line, and the numbers that they write.

ghost use Rattle.std.specs.Prelude.{◌≡◌, ◌<◌, ◌^◌, ◌-◌, ◌∷◌, [], length, position};
ghost use Rattle.std.specs.Iterator.{YieldsFirstBy, item_count};
ghost use Rattle.std.specs.Str.{bytes_eq};
ghost use Rattle.wfc_proof.specs.Words.{is_blank_byte, spaced_words, decimal_within, has_zero_first};

use std::marker::Model;
use wfc_text::number;

/// The words of a line that are still to come. A word may be empty.
#[derive(Drop)]
pub(crate) struct Words<'a> {
    rest: Option<&'a [u8]>,
}

impl<'a> Model for Words<'a> {
    ghost use Rattle.std.specs.Prelude.{ℕ, List};
    ghost use Rattle.wfc_proof.specs.WordsLeft.{words_left};

    ghost Value = { List (List ℕ) };

    ghost view = { λ w. words_left w.rest };
}

impl<'a> Words<'a> {
    /// All words of the line.
    pub(crate) fn new(line: &'a [u8]) -> Words<'a>
        ensures all { result ≡ spaced_words line.now }
    {
        Words { rest: Some(line) }
    }
}

impl<'a> Iterator for Words<'a> {
    type Item = &'a [u8];

    ghost next_gives = { YieldsFirstBy (λ word. word.now) (λ words. words) };

    ghost remaining = { item_count (λ words. words) };

    fn next(&mut self) -> Option<&'a [u8]> {
        let text = self.rest?;
        let (word, rest) = first_word(text);
        self.rest = rest;
        Some(word)
    }
}

/// The first word of a line, and what stands behind the blank that ends it.
fn first_word(line: &[u8]) -> (&[u8], Option<&[u8]>)
    ensures first { spaced_words line.now ≡ result.0.now ∷ words_left result.1 }
{
    match first_space(line) {
        Some(end) => (&line[..end], Some(&line[end + 1..])),
        None => (line, None),
    }
}

ghost use Rattle.wfc_proof.specs.WordsLeft.{words_left};

/// The place of the first blank.
fn first_space(text: &[u8]) -> Option<usize>
    ensures first { result ≡ position is_blank_byte text.now }
{
    text.iter().position(|byte| *byte == b' ')
}

/// Whether a word is this one.
#[inline]
pub(crate) fn is_word(word: &[u8], text: &str) -> bool
    ensures value { result ≡ bytes_eq word.now text.now }
{
    word == text.as_bytes()
}

/// The number that a word writes in decimal, without leading zeros, if it is at most `most`.
pub(crate) fn decimal_within(word: &[u8], most: u64) -> Option<u64>
    ensures exact { result ≡ decimal_within most word.now }
{
    if has_zero_first(word) {
        return None;
    }
    number(word, 0, most).ok()
}

/// Whether a word has a zero in front of other digits.
#[inline]
fn has_zero_first(word: &[u8]) -> bool
    ensures value { result ≡ has_zero_first word.now }
{
    match word {
        [digit, _, ..] => *digit == b'0',
        _ => false,
    }
}

/// The number that a word writes, if it is at most 4,294,967,295.
pub(crate) fn decimal32(word: &[u8]) -> Option<u32>
    ensures exact { result ≡ decimal_within (2 ^ 32 - 1) word.now }
{
    let n = decimal_within(word, u64::from(u32::MAX))?;
    Some(n as u32)
}

/// The number that a word writes, if it is at most 65,535.
pub(crate) fn decimal16(word: &[u8]) -> Option<u16>
    ensures exact { result ≡ decimal_within (2 ^ 16 - 1) word.now }
{
    let n = decimal_within(word, u64::from(u16::MAX))?;
    Some(n as u16)
}

/// The number that a word writes, if it is at most 255.
pub(crate) fn decimal8(word: &[u8]) -> Option<u8>
    ensures exact { result ≡ decimal_within (2 ^ 8 - 1) word.now }
{
    let n = decimal_within(word, u64::from(u8::MAX))?;
    Some(n as u8)
}
