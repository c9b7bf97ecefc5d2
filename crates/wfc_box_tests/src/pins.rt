//! Lines of a box's pins file.

use std::alloc::{AllocError, Global};
use std::process::Abort;
use std::test::Fail;
use wfc_box::{BoxPin, read_box_pins};
use wfc_pins::PinFault;

/// The lines of a text.
pub(crate) fn lines_of(
    rt: &impl Abort,
    alloc: Global,
    text: &[u8],
) -> Result<Vec<BoxPin>, PinFault> {
    assert!(rt; text.len() < 16_000_000);
    read_box_pins(alloc, text)
}

#[test]
fn reads_pins_and_bans(rt: HostRuntime) -> Result<(), Fail> {
    let text = b"# a tower\n\npin 3 0 255 line/1\n\tban  007 4294967295 2  x \r\n";
    let pins = lines_of(&rt, rt.alloc(), text)?;
    assert_eq!(rt; pins.len(), 2);
    let (pin, ban) = (&pins[0], &pins[1]);
    assert!(rt; pin.keep && pin.line == 3 && (pin.x, pin.y, pin.z) == (3, 0, 255));
    assert_eq!(rt; pin.symbol.as_slice(), b"line/1".as_slice());
    assert!(rt; !ban.keep && ban.line == 4 && (ban.x, ban.y, ban.z) == (7, 4_294_967_295, 2));
    assert_eq!(rt; ban.symbol.as_slice(), b"x".as_slice());
    Ok(())
}

/// Whether the first line of a text that is none of a box's pins is this one.
fn is_bad_line(rt: &impl Abort, alloc: Global, text: &[u8], line: u32) {
    let found = lines_of(rt, alloc, text);
    assert!(rt; matches!(&found, Err(PinFault::BadLine { line: at }) if *at == line));
}

#[test]
fn refuses_what_is_no_pin_of_a_box(rt: HostRuntime) {
    let alloc = rt.alloc();
    is_bad_line(&rt, alloc, b"pin 1 2 a\n", 1);
    is_bad_line(&rt, alloc, b"pin 1 2 3\n", 1);
    is_bad_line(&rt, alloc, b"pin 1 2 3 a\npin 1 2 3 a b\n", 2);
    is_bad_line(&rt, alloc, b"\n#\nkeep 1 2 3 a\n", 3);
    is_bad_line(&rt, alloc, b"pin 1 2 -3 a\n", 1);
    is_bad_line(&rt, alloc, b"pin 1 2 4294967296 a\n", 1);
}

/// So many times the same line.
fn times(alloc: Global, line: &[u8], count: u32) -> Result<Vec<u8>, AllocError> {
    let mut text = Vec::new(alloc);
    for _ in 0..count {
        text.extend_from_slice(line)?;
    }
    Ok(text)
}

#[test]
fn reads_many_pins(rt: HostRuntime) -> Result<(), Fail> {
    let text = times(rt.alloc(), b"ban 4095 4095 255 line/1\n", 200_000)?;
    let pins = lines_of(&rt, rt.alloc(), &text)?;
    assert_eq!(rt; pins.len(), 200_000);
    assert!(rt; pins[199_999].line == 200_000 && pins[199_999].z == 255);
    Ok(())
}
