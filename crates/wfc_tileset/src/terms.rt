//! The terms of a document: names, classes, weights and actions.

ghost use Rattle.std.specs.Prelude.{◌≡◌, ◌<◌, ◌≤◌, ◌&&◌, ◌==◌, nat_le, length, position, IfSome};
ghost use Rattle.std.specs.List.{list_all};
ghost use Rattle.wfc_tileset.specs.Document.{is_name, is_name_byte, symmetry_class, tile_weight, turn_digit, name_length, is_ppm_name};

use wfc_symmetry::Class;

/// Whether a name is 1 to 64 letters, digits, `_` and `-`.
pub fn is_name(name: &[u8]) -> bool
    ensures value { result ≡ is_name name.now }
{
    is_name_length(name.len()) && has_name_bytes(name)
}

/// Whether all bytes are letters, digits, `_` and `-`.
fn has_name_bytes(name: &[u8]) -> bool
    ensures value { result ≡ list_all is_name_byte name.now }
{
    name.iter().all(|byte| is_name_byte(*byte))
}

/// Whether a name may have so many bytes.
fn is_name_length(length: usize) -> bool
    ensures value { result ≡ (nat_le 1 length && nat_le length 64) }
{
    length >= 1 && length <= 64
}

/// Whether a byte is a letter, a digit, `_` or `-`.
fn is_name_byte(byte: u8) -> bool
    ensures value { result ≡ is_name_byte byte }
{
    matches!(byte, b'0'..=b'9' | b'A'..=b'Z' | b'a'..=b'z' | b'_' | b'-')
}

/// The class that a text names.
pub fn symmetry_class(text: &[u8]) -> Option<Class>
    ensures value { result ≡ symmetry_class text.now }
{
    if text == b"X".as_slice() {
        Some(Class::X)
    } else if text == b"I".as_slice() {
        Some(Class::I)
    } else if text == b"\\".as_slice() {
        Some(Class::Slash)
    } else if text == b"L".as_slice() {
        Some(Class::L)
    } else if text == b"T".as_slice() {
        Some(Class::T)
    } else if text == b"F".as_slice() {
        Some(Class::F)
    } else {
        None
    }
}

/// A weight of 1 to 1,000,000.
pub fn tile_weight(number: i64) -> Option<u32>
    ensures value { result ≡ tile_weight number }
    ensures range { IfSome result (λ weight. (1 ≤ weight) × (weight ≤ 1000000)) }
{
    if number >= 1 && number <= 1_000_000 {
        Some(number as u32)
    } else {
        None
    }
}

/// The action that stands behind a name: a digit 0 to 7 behind a blank, or action 0 where nothing
/// stands there.
pub fn turn_digit(rest: &[u8]) -> Option<u8>
    ensures value { result ≡ turn_digit rest.now }
    ensures turn_in { IfSome result (λ turn. turn < 8) }
{
    match rest {
        [] => Some(0),
        [_blank, digit] if *digit >= b'0' && *digit <= b'7' => Some(*digit - b'0'),
        _ => None,
    }
}

/// How many bytes stand before the first blank.
pub fn name_length(text: &[u8]) -> usize
    ensures value { result ≡ name_length text.now }
    ensures within { result ≤ length text.now }
{
    match first_blank(text) {
        Some(length) => length,
        None => text.len(),
    }
}

/// Where the first blank stands.
fn first_blank(text: &[u8]) -> Option<usize>
    ensures value { result ≡ position (λ byte. byte == 32) text.now }
    ensures within { IfSome result (λ at. at < length text.now) }
{
    text.iter().position(|byte| *byte == b' ')
}

/// Whether a file of this name is read as a PPM.
pub fn is_ppm_name(name: &[u8]) -> bool
    ensures value { result ≡ is_ppm_name name.now }
{
    name.ends_with(b".ppm") || name.ends_with(b".PPM")
}
