//! The forms of a line.

ghost use Rattle.std.specs.Prelude.{◌≡◌, ◌++◌, decimal};
ghost use Rattle.std.specs.List.{flat_map};
ghost use Rattle.wfc_outside.specs.Sink.{Puts};
ghost use Rattle.wfc_lines.specs.Line.{IsSaid, about, numbered_text, twice_numbered_text};

use itoa::Buffer;
use wfc_outside::{Sink, SinkFault, write_all};

/// Puts the line of a text.
pub fn plain<E: Sink>(err: &mut E, text: &str) -> Result<(), SinkFault>
    ensures told { IsSaid (E.seen err.old) (E.seen err.new) text.now result }
{
    put(err, &[b"wfc: ", text.as_bytes(), b"\n"])
}

/// Puts the line of a text and the number straight behind it.
pub fn count<E: Sink>(err: &mut E, text: &str, n: u64) -> Result<(), SinkFault>
    ensures told { IsSaid (E.seen err.old) (E.seen err.new) (text.now ++ decimal n) result }
{
    let mut buffer = Buffer::new();
    let number = buffer.format(n).as_bytes();
    put(err, &[b"wfc: ", text.as_bytes(), number, b"\n"])
}

/// Puts the line of a text that speaks of a file.
pub fn put_named<E: Sink>(err: &mut E, text: &str, file: &str) -> Result<(), SinkFault>
    ensures told { IsSaid (E.seen err.old) (E.seen err.new) (about text.now file.now) result }
{
    put(
        err,
        &[b"wfc: ", text.as_bytes(), b" file=", file.as_bytes(), b"\n"],
    )
}

/// Puts the line of a text, the number straight behind it, and the file that it speaks of.
pub fn put_numbered<E: Sink>(err: &mut E, text: &str, n: u32, file: &str) -> Result<(), SinkFault>
    ensures told { IsSaid (E.seen err.old) (E.seen err.new)
        (numbered_text text.now n file.now) result }
{
    count_line(err, text, u64::from(n), file)
}

/// Puts the line of a text, a number of up to 64 bits straight behind it, and the file that it
/// speaks of.
pub(crate) fn count_line<E: Sink>(
    err: &mut E,
    text: &str,
    n: u64,
    file: &str,
) -> Result<(), SinkFault>
    ensures told { IsSaid (E.seen err.old) (E.seen err.new)
        (numbered_text text.now n file.now) result }
{
    let mut buffer = Buffer::new();
    let number = buffer.format(n).as_bytes();
    put(
        err,
        &[
            b"wfc: ",
            text.as_bytes(),
            number,
            b" file=",
            file.as_bytes(),
            b"\n",
        ],
    )
}

/// Puts the line of a text and a number, a second text and a number, and the file that they speak
/// of.
pub fn twice_numbered<'a, E: Sink>(
    err: &mut E,
    text: &'a str,
    n: u32,
    between: &'a str,
    m: u32,
    file: &'a str,
) -> Result<(), SinkFault>
    ensures told { IsSaid (E.seen err.old) (E.seen err.new)
        (twice_numbered_text text.now n between.now m file.now) result }
{
    let mut first_buffer = Buffer::new();
    let mut second_buffer = Buffer::new();
    let first = first_buffer.format(n).as_bytes();
    let second = second_buffer.format(m).as_bytes();
    let text = text.as_bytes();
    let between = between.as_bytes();
    let file = file.as_bytes();
    put(
        err,
        &[
            b"wfc: ", text, first, between, second, b" file=", file, b"\n",
        ],
    )
}

/// Puts the parts, one behind another.
pub(crate) fn put<E: Sink>(err: &mut E, parts: &[&[u8]]) -> Result<(), SinkFault>
    ensures put { Puts (E.seen err.old) (E.seen err.new)
        (flat_map (λ part. part.now) parts.now) result }
{
    for part in parts {
        write_all(err, part)?;
    }
    Ok(())
}
