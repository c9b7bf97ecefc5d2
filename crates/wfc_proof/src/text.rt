//! The lines of a refutation as text, in both formats, without their ends.
//!
//! A line is a letter and numbers in decimal without leading zeros, with one blank between words. In format 1 a removal
//! `r C V D` is of one value, and in format 2 `r C V W D` is of the values from V to W.

ghost use Rattle.std.specs.Prelude.{◌≡◌};
ghost use Rattle.wfc_proof.specs.Text.{line_of, line_2_of, line_of_words, line_2_of_words, either_of, removal_of};
ghost use Rattle.wfc_proof.specs.Text.{span_of, trial_of, empty_of, mark_of, line_of_mark};

use crate::Line;
use crate::words::{Words, decimal8, decimal16, decimal32, is_word};
use thiserror::Error;

/// Why bytes are no line.
#[derive(Clone, Copy, Debug, PartialEq, Eq, Error)]
pub enum LineFault {
    #[error("no line of a refutation")]
    BadLine,
}

/// The line of format 1 that the bytes spell, without its end. A cell is at most 4,294,967,295, a value at most 65,535,
/// and a direction at most 255. It takes no memory.
pub fn read_line(bytes: &[u8]) -> Result<Line, LineFault>
    ensures exact { result ≡ line_of bytes.now }
{
    line_of_words(Words::new(bytes)).ok_or(LineFault::BadLine)
}

/// The line of format 2 that the bytes spell, without its end, within the same limits. A removal is a `Span`, also of a
/// single value.
pub fn read_line_2(bytes: &[u8]) -> Result<Line, LineFault>
    ensures exact { result ≡ line_2_of bytes.now }
{
    line_2_of_words(Words::new(bytes)).ok_or(LineFault::BadLine)
}

/// The line of format 1 that words are.
fn line_of_words(mut words: Words<'_>) -> Option<Line>
    ensures exact { result ≡ line_of_words words.entry }
{
    let word = words.next()?;
    if is_word(word, "r") {
        removal_of(words)
    } else {
        either_of(word, words)
    }
}

/// The line of format 2 that words are.
fn line_2_of_words(mut words: Words<'_>) -> Option<Line>
    ensures exact { result ≡ line_2_of_words words.entry }
{
    let word = words.next()?;
    if is_word(word, "r") {
        span_of(words)
    } else {
        either_of(word, words)
    }
}

/// The line of a letter and the words behind it, where both formats have it.
fn either_of(word: &[u8], words: Words<'_>) -> Option<Line>
    ensures exact { result ≡ either_of word.now words.entry }
{
    if is_word(word, "t") {
        trial_of(words)
    } else if is_word(word, "x") {
        empty_of(words)
    } else {
        mark_of(word, words)
    }
}

/// The removal of one value, by the words behind its letter.
fn removal_of(mut words: Words<'_>) -> Option<Line>
    ensures exact { result ≡ removal_of words.entry }
{
    let cell = decimal32(words.next()?)?;
    let value = decimal16(words.next()?)?;
    let dir = decimal8(words.next()?)?;
    match words.next() {
        Some(_) => None,
        None => Some(Line::Remove { cell, value, dir }),
    }
}

/// The removal of values, by the words behind its letter.
fn span_of(mut words: Words<'_>) -> Option<Line>
    ensures exact { result ≡ span_of words.entry }
{
    let cell = decimal32(words.next()?)?;
    let first = decimal16(words.next()?)?;
    let last = decimal16(words.next()?)?;
    let dir = decimal8(words.next()?)?;
    match words.next() {
        None if first <= last => Some(Line::Span {
            cell,
            first,
            last,
            dir,
        }),
        _ => None,
    }
}

/// The value that is tried, by the words behind its letter.
fn trial_of(mut words: Words<'_>) -> Option<Line>
    ensures exact { result ≡ trial_of words.entry }
{
    let cell = decimal32(words.next()?)?;
    let value = decimal16(words.next()?)?;
    match words.next() {
        Some(_) => None,
        None => Some(Line::Try { cell, value }),
    }
}

/// The empty cell, by the words behind its letter.
fn empty_of(mut words: Words<'_>) -> Option<Line>
    ensures exact { result ≡ empty_of words.entry }
{
    let cell = decimal32(words.next()?)?;
    match words.next() {
        Some(_) => None,
        None => Some(Line::Empty { cell }),
    }
}

/// A letter that no word follows.
fn mark_of(word: &[u8], mut words: Words<'_>) -> Option<Line>
    ensures exact { result ≡ mark_of word.now words.entry }
{
    match words.next() {
        Some(_) => None,
        None => line_of_mark(word),
    }
}

/// The line that stands for a letter alone.
fn line_of_mark(word: &[u8]) -> Option<Line>
    ensures value { result ≡ line_of_mark word.now }
{
    if is_word(word, "q") {
        Some(Line::End)
    } else if is_word(word, "s") {
        Some(Line::Found)
    } else if is_word(word, "o") {
        Some(Line::Out)
    } else {
        None
    }
}
