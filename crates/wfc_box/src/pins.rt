//! The pins and bans of a box's pins file.

use std::alloc::Global;
use std::marker::Model;
use wfc_outside::MAX_FILE_BYTES;
use wfc_pins::{PinFault, Words, is_skipped, keep_of, number32};
use wfc_text::{TextLine, lines};

/// A line of a box's pins file: what stands in column `x` of row `y` of layer `z` is the symbol, or
/// with `keep` false isn't. The symbol is as the file writes it.
#[derive(Debug, Drop)]
pub struct BoxPin {
    pub line: u32,
    pub keep: bool,
    pub x: u32,
    pub y: u32,
    pub z: u32,
    pub symbol: Vec<u8>,
}

impl Model for BoxPin {
    ghost use Rattle.wfc_box.specs.BoxPinView.{BoxPinView};

    ghost Value = { BoxPinView };

    ghost view = { λ p. record {
      line = p.line;
      keep = p.keep;
      x = p.x;
      y = p.y;
      z = p.z;
      symbol = p.symbol.items;
    } };
}

/// What the words of a line say, its symbol not yet copied.
#[derive(Clone, Copy)]
struct BoxPinWords<'a> {
    keep: bool,
    x: u32,
    y: u32,
    z: u32,
    symbol: &'a [u8],
}

ghost use Rattle.std.specs.Prelude.{◌≡◌, ℕ, ◌≤◌, length};
ghost use Rattle.std.specs.Option.{option_map};
ghost use Rattle.wfc_outside.specs.Gives.{Gives};
ghost use Rattle.wfc_text.specs.View.{line_view};
ghost use Rattle.wfc_pins.specs.Words.{words_of};
ghost use Rattle.wfc_box.specs.BoxPins.{box_pins_of, box_pin_of, box_pin_of_words};
ghost use Rattle.wfc_box.specs.BoxPinWords.{box_pin_view};

/// The pins and bans of a box's pins file, in the order of its lines. A line is `pin X Y Z SYMBOL`
/// or `ban X Y Z SYMBOL`, with X, Y and Z in decimal, up to 4,294,967,295. Which symbols there are
/// is not looked at.
pub fn read_box_pins(alloc: Global, bytes: &[u8]) -> Result<Vec<BoxPin>, PinFault>
    requires limit { length bytes.now ≤ MAX_FILE_BYTES }
    ensures exact { Gives PinFault.NoMemory (λ pins. pins.items) result (box_pins_of bytes.now) }
{
    let mut pins = Vec::new(alloc);
    for line in lines(bytes) {
        if is_skipped(line.bytes) {
            continue;
        }
        pins.push(pin_of(alloc, &line)?)?;
    }
    Ok(pins)
}

/// The pin or ban of a line.
fn pin_of(alloc: Global, line: &TextLine<'_>) -> Result<BoxPin, PinFault>
    ensures exact { Gives PinFault.NoMemory (λ pin. pin) result (box_pin_of (line_view line.now)) }
{
    match pin_words(line.bytes) {
        Some(words) => Ok(BoxPin {
            line: line.number,
            keep: words.keep,
            x: words.x,
            y: words.y,
            z: words.z,
            symbol: Vec::from_slice(alloc, words.symbol)?,
        }),
        None => Err(PinFault::BadLine { line: line.number }),
    }
}

/// What the words of a line say, if it is a pin or a ban.
fn pin_words(line: &[u8]) -> Option<BoxPinWords<'_>>
    ensures exact { (number : ℕ) → option_map (box_pin_view number) result
        ≡ box_pin_of_words number (words_of line.now) }
{
    let mut words = Words::new(line);
    let keep = keep_of(words.next()?)?;
    let x = number32(words.next()?)?;
    let y = number32(words.next()?)?;
    let z = number32(words.next()?)?;
    let symbol = words.next()?;
    match words.next() {
        Some(_) => None,
        None => Some(BoxPinWords {
            keep,
            x,
            y,
            z,
            symbol,
        }),
    }
}
