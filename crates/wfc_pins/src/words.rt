//! The words of a line.

ghost use Rattle.std.specs.Prelude.{◌≡◌, ◌∷◌, [], not, position, MatchOption};
ghost use Rattle.std.specs.Iterator.{YieldsFirstBy, item_count};
ghost use Rattle.std.specs.Str.{bytes_eq};
ghost use Rattle.wfc_pins.specs.Words.{is_blank, is_comment, is_skipped, number16, number32, words_of};

use std::marker::Model;
use wfc_text::number;

/// The words of a line that are still to come.
#[derive(Drop)]
pub struct Words<'a> {
    rest: &'a [u8],
}

impl<'a> Model for Words<'a> {
    ghost use Rattle.std.specs.Prelude.{ℕ, List};
    ghost use Rattle.wfc_pins.specs.Words.{words_of};

    ghost Value = { List (List ℕ) };

    ghost view = { λ w. words_of w.rest.now };
}

impl<'a> Words<'a> {
    /// All words of the line.
    pub fn new(line: &'a [u8]) -> Words<'a>
        ensures all { result ≡ words_of line.now }
    {
        Words { rest: line }
    }
}

impl<'a> Iterator for Words<'a> {
    type Item = &'a [u8];

    ghost next_gives = { YieldsFirstBy (λ word. word.now) (λ words. words) };

    ghost remaining = { item_count (λ words. words) };

    fn next(&mut self) -> Option<&'a [u8]> {
        match first_word(self.rest) {
            Some((word, rest)) => {
                self.rest = rest;
                Some(word)
            }
            None => {
                self.rest = &[];
                None
            }
        }
    }
}

/// The first word of a line, and what stands behind it.
fn first_word(line: &[u8]) -> Option<(&[u8], &[u8])>
    ensures first { MatchOption result (words_of line.now ≡ [])
        (λ cut. words_of line.now ≡ cut.0.now ∷ words_of cut.1.now) }
{
    let start = first_other(line)?;
    let text = &line[start..];
    match first_blank(text) {
        Some(end) => Some((&text[..end], &text[end..])),
        None => Some((text, &[])),
    }
}

/// The place of the first byte that is no blank.
fn first_other(text: &[u8]) -> Option<usize>
    ensures first { result ≡ position (λ byte. not (is_blank byte)) text.now }
{
    text.iter().position(|byte| !is_blank(*byte))
}

/// The place of the first blank.
fn first_blank(text: &[u8]) -> Option<usize>
    ensures first { result ≡ position is_blank text.now }
{
    text.iter().position(|byte| is_blank(*byte))
}

/// Whether a byte parts words: a blank or a TAB does.
#[inline]
fn is_blank(byte: u8) -> bool
    ensures value { result ≡ is_blank byte }
{
    byte == b' ' || byte == b'\t'
}

/// Whether a line is passed over: it has no word, or its first byte is `#`.
pub fn is_skipped(line: &[u8]) -> bool
    ensures value { result ≡ is_skipped line.now }
{
    is_comment(line) || first_other(line).is_none()
}

/// Whether the first byte is `#`.
fn is_comment(line: &[u8]) -> bool
    ensures value { result ≡ is_comment line.now }
{
    match line {
        [first, ..] => *first == b'#',
        [] => false,
    }
}

/// Whether a word is this one.
pub(crate) fn is_word(word: &[u8], text: &str) -> bool
    ensures value { result ≡ bytes_eq word.now text.now }
{
    word == text.as_bytes()
}

/// The number that a word writes in decimal digits, if it is at most 4,294,967,295.
pub fn number32(word: &[u8]) -> Option<u32>
    ensures exact { result ≡ number32 word.now }
{
    let n = number(word, 0, u64::from(u32::MAX)).ok()?;
    Some(n as u32)
}

/// The number that a word writes in decimal digits, if it is at most 65,535.
pub(crate) fn number16(word: &[u8]) -> Option<u16>
    ensures exact { result ≡ number16 word.now }
{
    let n = number(word, 0, u64::from(u16::MAX)).ok()?;
    Some(n as u16)
}
