//! The lines of a document that is no tile set.

ghost use Rattle.std.specs.Prelude.{◌≡◌, ◌++◌, decimal};
ghost use Rattle.wfc_lines.specs.Line.{IsSaid};
ghost use Rattle.wfc_lines.specs.Tiles.{keyed_text, name_of_key, text_of_place, text_of_tiles};
ghost use Rattle.wfc_tileset.specs.declared.fault.Place.TheVariants as places;

use crate::line::{put, put_named, put_numbered};
use crate::outcome::no_memory;
use itoa::Buffer;
use wfc_outside::{Sink, SinkFault};
use wfc_tileset::{Key, Place, TileFault};

/// Puts why a document is no tile set, or why the picture of a tile was not read. The file is the
/// document's, of a picture too.
pub fn tiles<E: Sink>(err: &mut E, fault: TileFault, file: &str) -> Result<(), SinkFault>
    ensures told { IsSaid (E.seen err.old) (E.seen err.new) (text_of_tiles fault file.now) result }
{
    match fault {
        TileFault::Toml => put_named(err, "tiles Toml", file),
        TileFault::NoTiles => put_named(err, "tiles NoTiles", file),
        TileFault::MissingKey { place, key } => key_line(err, "tiles MissingKey", place, key, file),
        TileFault::WrongKind { place, key } => key_line(err, "tiles WrongKind", place, key, file),
        TileFault::BadClass { tile } => put_numbered(err, "tiles BadClass tile=", tile, file),
        TileFault::BadWeight { tile } => put_numbered(err, "tiles BadWeight tile=", tile, file),
        TileFault::BadPicture { tile } => put_numbered(err, "tiles BadPicture tile=", tile, file),
        TileFault::SizeDiffers { tile } => put_numbered(err, "tiles SizeDiffers tile=", tile, file),
        TileFault::DoubleName { tile } => put_numbered(err, "tiles DoubleName tile=", tile, file),
        TileFault::UnknownTile { pair } => put_numbered(err, "tiles UnknownTile pair=", pair, file),
        TileFault::BadTurn { pair } => put_numbered(err, "tiles BadTurn pair=", pair, file),
        TileFault::TooManyVariants { count } => put_numbered(
            err,
            "tiles TooManyVariants count=",
            count,
            file,
        ),
        TileFault::Missing { tile } => put_numbered(err, "device Missing tile=", tile, file),
        TileFault::Failed { tile } => put_numbered(err, "device Failed tile=", tile, file),
        TileFault::MixedKinds { tile } => put_numbered(err, "tiles MixedKinds tile=", tile, file),
        TileFault::NoMemory => no_memory(err),
        TileFault::BadName { tile } => put_numbered(err, "tiles BadName tile=", tile, file),
    }
}

/// Puts the line of a text that speaks of a key at a place.
fn key_line<E: Sink>(
    err: &mut E,
    text: &str,
    place: Place,
    key: Key,
    file: &str,
) -> Result<(), SinkFault>
    ensures told { IsSaid (E.seen err.old) (E.seen err.new)
        (keyed_text text.now (text_of_place place) (name_of_key key) file.now) result }
{
    match place {
        Place::Top => keyed_at_top(err, text, key_name(key), file),
        Place::Tile(tile) => keyed_at(err, text, " tile=", tile, key_name(key), file),
        Place::Pair(pair) => keyed_at(err, text, " pair=", pair, key_name(key), file),
    }
}

/// Puts the line of a text that speaks of a key at the top of the document.
fn keyed_at_top<E: Sink>(err: &mut E, text: &str, key: &str, file: &str) -> Result<(), SinkFault>
    ensures told { IsSaid (E.seen err.old) (E.seen err.new)
        (keyed_text text.now (text_of_place places.Top) key.now file.now) result }
{
    let text = text.as_bytes();
    let key = key.as_bytes();
    let file = file.as_bytes();
    put(
        err,
        &[
            b"wfc: ", text, b" top", b" key=", key, b" file=", file, b"\n",
        ],
    )
}

/// Puts the line of a text that speaks of a key at a numbered place.
pub(crate) fn keyed_at<'a, E: Sink>(
    err: &mut E,
    text: &'a str,
    kind: &'a str,
    number: u32,
    key: &'a str,
    file: &'a str,
) -> Result<(), SinkFault>
    ensures told { IsSaid (E.seen err.old) (E.seen err.new)
        (keyed_text text.now (kind.now ++ decimal number) key.now file.now) result }
{
    let mut buffer = Buffer::new();
    let number = buffer.format(number).as_bytes();
    let text = text.as_bytes();
    let kind = kind.as_bytes();
    let key = key.as_bytes();
    let file = file.as_bytes();
    put(
        err,
        &[
            b"wfc: ", text, kind, number, b" key=", key, b" file=", file, b"\n",
        ],
    )
}

/// The name of a key in a document.
fn key_name(key: Key) -> &'static str
    ensures value { result.now ≡ name_of_key key }
{
    match key {
        Key::Tile => "tile",
        Key::Pair => "pair",
        Key::Name => "name",
        Key::Class => "class",
        Key::Weight => "weight",
        Key::Picture => "picture",
        Key::Left => "left",
        Key::Right => "right",
    }
}
