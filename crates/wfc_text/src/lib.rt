//! Plain texts: their lines, and whole numbers in decimal digits, read and written.
#![tactic(auto)]

ghost use Rattle.std.specs.Prelude.{◌≡◌, ◌^◌, ◌<◌, length};
ghost use Rattle.wfc_text.specs.Line.{lines_of};

pub mod laws;
mod line;
mod numeral;

pub use line::{Lines, TextLine};
pub use numeral::{NumberFault, number, push_number, write_number};

/// The lines of a text, in order. A line ends with LF or CRLF; the last one may lack its end. An empty text has no line.
pub fn lines(bytes: &[u8]) -> Lines<'_>
    requires short { length bytes.now < 2 ^ 32 }
    ensures all { result ≡ lines_of bytes.now }
{
    Lines::new(bytes)
}
