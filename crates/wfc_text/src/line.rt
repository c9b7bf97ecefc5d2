//! Lines, and the iterator that cuts them off a text.

ghost use Rattle.std.specs.Prelude.{◌≡◌, ◌+◌, ◌^◌, ◌<◌, ◌∷◌, length};
ghost use Rattle.std.specs.Iterator.{YieldsFirstBy, item_count};
ghost use Rattle.std.specs.Str.Lines.{strip_carriage_return};
ghost use Rattle.wfc_text.specs.Line.{lines_from, lines_of};
ghost use Rattle.wfc_text.specs.View.{line_view};

use memchr::memchr;
use std::marker::Model;

/// A line of a text: its number, counted from 1, its bytes without its end, and whether it has an end.
#[derive(Clone, Copy, Debug, PartialEq, Eq)]
pub struct TextLine<'a> {
    pub number: u32,
    pub bytes: &'a [u8],
    pub ended: bool,
}

/// The lines of a text that are still to come.
#[derive(Drop)]
pub struct Lines<'a> {
    rest: &'a [u8],
    given: u32,
}

impl<'a> Model for Lines<'a> {
    ghost use Rattle.std.specs.Prelude.{◌+◌, ◌^◌, ◌<◌, List, length};
    ghost use Rattle.wfc_text.specs.Line.{LineView, lines_from};

    ghost Value = { List LineView };

    ghost view = { λ l. lines_from (l.given + 1) l.rest.now };

    ghost invariant = { λ l. l.given + length l.rest.now < 2 ^ 32 };
}

impl<'a> Lines<'a> {
    /// All lines of the text.
    pub fn new(bytes: &'a [u8]) -> Lines<'a>
        requires short { length bytes.now < 2 ^ 32 }
        ensures all { result ≡ lines_of bytes.now }
    {
        Lines {
            rest: bytes,
            given: 0,
        }
    }
}

impl<'a> Iterator for Lines<'a> {
    type Item = TextLine<'a>;

    ghost next_gives = { YieldsFirstBy line_view (λ lines. lines) };

    ghost remaining = { item_count (λ lines. lines) };

    fn next(&mut self) -> Option<TextLine<'a>> {
        if self.rest.is_empty() {
            return None;
        }
        let (line, rest) = first_line(self.given + 1, self.rest);
        self.given += 1;
        self.rest = rest;
        Some(line)
    }
}

/// The first line of a text that has a byte, and the text behind it.
fn first_line(number: u32, text: &[u8]) -> (TextLine<'_>, &[u8])
    requires some { 0 < length text.now }
    ensures first { lines_from number text.now
        ≡ line_view result.0 ∷ lines_from (number + 1) result.1.now }
    ensures shorter { length result.1.now < length text.now }
{
    match memchr(b'\n', text) {
        Some(at) => {
            let line = TextLine {
                number,
                bytes: without_return(&text[..at]),
                ended: true,
            };
            (line, &text[at + 1..])
        }
        None => {
            let line = TextLine {
                number,
                bytes: text,
                ended: false,
            };
            (line, &[])
        }
    }
}

/// The bytes without a carriage return at their end.
fn without_return(bytes: &[u8]) -> &[u8]
    ensures stripped { result.now ≡ strip_carriage_return bytes.now }
{
    match bytes {
        [front @ .., b'\r'] => front,
        _ => bytes,
    }
}
