//! The pins and bans of a pins file.

ghost use Rattle.std.specs.Prelude.{◌≡◌, ℕ, ◌≤◌, length};
ghost use Rattle.std.specs.Option.{option_map};
ghost use Rattle.wfc_outside.specs.Gives.{Gives};
ghost use Rattle.wfc_text.specs.View.{line_view};
ghost use Rattle.wfc_pins.specs.Words.{words_of};

use crate::words::{Words, is_skipped, is_word, number32};
use std::alloc::{AllocError, AllocFailed, Global};
use std::marker::Model;
use thiserror::Error;
use wfc_outside::MAX_FILE_BYTES;
use wfc_text::{TextLine, lines};

/// A line of a pins file: the pixel or tile in column `x` of row `y` is the symbol, or with `keep` false isn't. The
/// symbol is as the file writes it.
#[derive(Debug, Drop)]
pub struct PinLine {
    pub line: u32,
    pub keep: bool,
    pub x: u32,
    pub y: u32,
    pub symbol: Vec<u8>,
}

impl Model for PinLine {
    ghost use Rattle.wfc_pins.specs.PinView.{PinView};

    ghost Value = { PinView };

    ghost view = { λ p. record { line = p.line; keep = p.keep; x = p.x; y = p.y; symbol = p.symbol.items } };
}

/// Why a text is no pins file.
#[derive(Clone, Copy, Debug, PartialEq, Eq, Error)]
pub enum PinFault {
    /// This line is no pin and no ban.
    #[error("a line is no pin and no ban")]
    BadLine { line: u32 },
    #[error("memory ran out")]
    NoMemory,
}

impl From<AllocError> for PinFault {
    ghost use Rattle.wfc_pins.specs.declared.pins.PinFault.TheVariants as faults;

    ghost from_gives = { λ _ fault. fault ≡ faults.NoMemory };

    fn from(_error: AllocError) -> PinFault {
        PinFault::NoMemory
    }
}

impl<T: Drop> From<AllocFailed<T>> for PinFault {
    ghost use Rattle.wfc_pins.specs.declared.pins.PinFault.TheVariants as faults;

    ghost from_gives = { λ _ fault. fault ≡ faults.NoMemory };

    fn from(_error: AllocFailed<T>) -> PinFault {
        PinFault::NoMemory
    }
}

/// What the words of a line say, its symbol not yet copied.
#[derive(Clone, Copy)]
struct PinWords<'a> {
    keep: bool,
    x: u32,
    y: u32,
    symbol: &'a [u8],
}

ghost use Rattle.wfc_pins.specs.Pins.{keep_of, pin_of, pin_of_words, pins_of};
ghost use Rattle.wfc_pins.specs.PinWords.{pin_view};

/// The pins and bans of a pins file, in the order of its lines. A line is `pin X Y SYMBOL` or `ban X Y SYMBOL`, with X
/// and Y in decimal, up to 4,294,967,295. Which symbols there are is not looked at.
pub fn read_pins(alloc: Global, bytes: &[u8]) -> Result<Vec<PinLine>, PinFault>
    requires limit { length bytes.now ≤ MAX_FILE_BYTES }
    ensures exact { Gives PinFault.NoMemory (λ pins. pins.items) result (pins_of bytes.now) }
{
    let mut pins = Vec::new(alloc);
    for line in lines(bytes) {
        if is_skipped(line.bytes) {
            continue;
        }
        pins.push(pin_of(alloc, &line)?)?;
    }
    Ok(pins)
}

/// The pin or ban of a line.
fn pin_of(alloc: Global, line: &TextLine<'_>) -> Result<PinLine, PinFault>
    ensures exact { Gives PinFault.NoMemory (λ pin. pin) result (pin_of (line_view line.now)) }
{
    match pin_words(line.bytes) {
        Some(words) => Ok(PinLine {
            line: line.number,
            keep: words.keep,
            x: words.x,
            y: words.y,
            symbol: Vec::from_slice(alloc, words.symbol)?,
        }),
        None => Err(PinFault::BadLine { line: line.number }),
    }
}

/// What the words of a line say, if it is a pin or a ban.
fn pin_words(line: &[u8]) -> Option<PinWords<'_>>
    ensures exact { (number : ℕ)
        → option_map (pin_view number) result ≡ pin_of_words number (words_of line.now) }
{
    let mut words = Words::new(line);
    let keep = keep_of(words.next()?)?;
    let x = number32(words.next()?)?;
    let y = number32(words.next()?)?;
    let symbol = words.next()?;
    match words.next() {
        Some(_) => None,
        None => Some(PinWords { keep, x, y, symbol }),
    }
}

/// Whether a line keeps its symbol, by its first word.
pub fn keep_of(word: &[u8]) -> Option<bool>
    ensures value { result ≡ keep_of word.now }
{
    if is_word(word, "pin") {
        Some(true)
    } else if is_word(word, "ban") {
        Some(false)
    } else {
        None
    }
}
