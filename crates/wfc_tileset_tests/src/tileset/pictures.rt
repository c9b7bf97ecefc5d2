//! Pictures of tiles, by tables.

use std::alloc::{AllocError, Global};
use std::process::Abort;
use std::test::Fail;
use wfc_picture::{Colour, Kind, Symbol};
use wfc_tileset::{TileFault, TileSet, read};

/// A tile without symmetry and a junction, with grids as pictures.
const GRIDS: &str =
    "tile = [{name = 'f', class = 'F', picture = 'f.txt'}, {name = 't', class = 'T', picture = 't.PPm'}]";

/// The same with pictures of colours.
const COLOURS: &str =
    "tile = [{name = 'f', class = 'F', picture = 'f.ppm'}, {name = 't', class = 'T', picture = 't.PPM'}]";

/// The tile set of a document.
fn set_of(rt: &impl Abort, alloc: Global, text: &str) -> Result<TileSet, TileFault> {
    assert!(rt; text.len() <= 16_777_216);
    read(alloc, text.as_bytes())
}

/// Takes the next picture.
fn take(rt: &impl Abort, alloc: Global, set: &mut TileSet, bytes: &[u8]) -> Result<(), TileFault> {
    assert!(rt; set.picture_name(set.pictures()).is_some());
    set.take_picture(alloc, bytes)
}

/// The bytes that a variant shows row by row, and `!` for a colour.
fn shown(rt: &impl Abort, alloc: Global, set: &TileSet, v: u16) -> Result<Vec<u8>, AllocError> {
    assert!(rt; v < set.variants() && set.pictures() == set.tiles());
    let mut bytes = Vec::new(alloc);
    for y in 0..set.side() {
        for x in 0..set.side() {
            bytes.push(match set.pixel(v, x, y) {
                Symbol::Char(byte) => byte,
                Symbol::Rgb(_) => b'!',
            })?;
        }
    }
    Ok(bytes)
}

/// What a variant shows in its first pixel.
fn first_pixel(rt: &impl Abort, set: &TileSet, v: u16) -> Symbol {
    assert!(rt; v < set.variants() && set.pictures() == set.tiles() && set.side() > 0);
    set.pixel(v, 0, 0)
}

/// Whether the pictures have this kind and side, and so many are taken.
fn has(rt: &impl Abort, set: &TileSet, kind: Kind, side: u32, pictures: u32) {
    assert_eq!(rt;
        (set.kind(), set.side(), set.pictures()),
        (kind, side, pictures)
    );
}

/// Whether the picture of a tile stands in this file, or in none.
fn is_named(rt: &impl Abort, set: &TileSet, tile: u32, wanted: Option<&str>) {
    assert_eq!(rt; set.picture_name(tile), wanted);
}

#[test]
fn pictures_are_taken(rt: HostRuntime) -> Result<(), Fail> {
    let mut set = set_of(&rt, rt.alloc(), GRIDS)?;
    has(&rt, &set, Kind::Plain, 1, 0);
    is_named(&rt, &set, 0, Some("f.txt"));
    take(&rt, rt.alloc(), &mut set, b"ab\ncd\n")?;
    take(&rt, rt.alloc(), &mut set, b"12\r\n34")?;
    has(&rt, &set, Kind::Grid, 2, 2);
    is_named(&rt, &set, 2, None);
    Ok(())
}

/// Whether a variant shows these bytes row by row.
fn shows(
    rt: &impl Abort,
    alloc: Global,
    set: &TileSet,
    v: u16,
    wanted: &[u8],
) -> Result<(), AllocError> {
    let bytes = shown(rt, alloc, set, v)?;
    assert_eq!(rt; bytes.as_slice(), wanted, "variant {v}");
    Ok(())
}

/// What the variants show row by row.
const SHOWN: [&[u8]; 12] = [
    b"abcd", b"bdac", b"dcba", b"cadb", b"badc", b"dbca", b"cdab", b"acbd", b"1234", b"2413",
    b"4321", b"3142",
];

#[test]
fn variants_are_turned_and_reflected(rt: HostRuntime) -> Result<(), Fail> {
    let mut set = set_of(&rt, rt.alloc(), GRIDS)?;
    take(&rt, rt.alloc(), &mut set, b"ab\ncd\n")?;
    take(&rt, rt.alloc(), &mut set, b"12\r\n34")?;
    for v in 0..12 {
        shows(&rt, rt.alloc(), &set, v, SHOWN[v as usize])?;
    }
    Ok(())
}

/// Whether a variant shows this colour in its first pixel.
fn shows_first(rt: &impl Abort, set: &TileSet, v: u16, r: u16, g: u16, b: u16) {
    let wanted = Symbol::Rgb(Colour { r, g, b });
    assert_eq!(rt; first_pixel(rt, set, v), wanted);
}

#[test]
fn pictures_of_colours(rt: HostRuntime) -> Result<(), Fail> {
    let mut set = set_of(&rt, rt.alloc(), COLOURS)?;
    take(&rt, rt.alloc(), &mut set, b"P3 1 1 300 1 2 300")?;
    take(
        &rt,
        rt.alloc(),
        &mut set,
        b"P6 1 1 300\n\x00\x07\x01\x00\x00\x09",
    )?;
    has(&rt, &set, Kind::Ppm { maxval: 300 }, 1, 2);
    shows_first(&rt, &set, 7, 1, 2, 300);
    shows_first(&rt, &set, 8, 7, 256, 9);
    Ok(())
}

/// Tries the next picture, behind so many, and gives its fault.
fn fault_of_next(
    rt: &impl Abort,
    alloc: Global,
    set: &mut TileSet,
    before: u32,
    bytes: &[u8],
) -> Option<TileFault> {
    let fault = take(rt, alloc, set, bytes).err();
    assert_eq!(rt; set.pictures() == before, fault.is_some());
    fault
}

/// Tries two pictures of a document's tiles, and gives the first fault.
fn fault(
    rt: &impl Abort,
    alloc: Global,
    text: &str,
    first: &[u8],
    second: &[u8],
) -> Result<Option<TileFault>, Fail> {
    let mut set = set_of(rt, alloc, text)?;
    let found = fault_of_next(rt, alloc, &mut set, 0, first);
    if found.is_some() {
        return Ok(found);
    }
    Ok(fault_of_next(rt, alloc, &mut set, 1, second))
}

/// Whether two pictures of a document's tiles have this fault, or none.
fn is_refused(
    rt: &impl Abort,
    alloc: Global,
    text: &str,
    first: &[u8],
    second: &[u8],
    wanted: Option<TileFault>,
) -> Result<(), Fail> {
    let found = fault(rt, alloc, text, first, second)?;
    assert_eq!(rt; found, wanted, "of {first:?} and {second:?}");
    Ok(())
}

#[test]
fn refuses_grids(rt: HostRuntime) -> Result<(), Fail> {
    let alloc = rt.alloc();
    let bad = Some(TileFault::BadPicture { tile: 0 });
    let differs = Some(TileFault::SizeDiffers { tile: 1 });
    is_refused(&rt, alloc, GRIDS, b"a", b"b", None)?;
    is_refused(&rt, alloc, GRIDS, b"", b"b", bad)?;
    is_refused(&rt, alloc, GRIDS, b"ab\nc\n", b"b", bad)?;
    is_refused(&rt, alloc, GRIDS, b"ab\n", b"b", bad)?;
    is_refused(&rt, alloc, GRIDS, b"a\nb\n", b"b", bad)?;
    is_refused(&rt, alloc, GRIDS, b"P3 1 1 9 1 2 3", b"b", bad)?;
    is_refused(&rt, alloc, GRIDS, b"a", b"bc\nde", differs)
}

/// A picture of one colour.
const ONE: &[u8] = b"P3 1 1 9 1 2 3";

#[test]
fn refuses_pictures_of_colours(rt: HostRuntime) -> Result<(), Fail> {
    let alloc = rt.alloc();
    let bad = Some(TileFault::BadPicture { tile: 0 });
    let bad_second = Some(TileFault::BadPicture { tile: 1 });
    let mixed = Some(TileFault::MixedKinds { tile: 1 });
    let four = b"P3 2 2 8 1 2 3 1 2 3 1 2 3 1 2 3";
    is_refused(&rt, alloc, COLOURS, ONE, b"P3 1 1 9 3 2 1", None)?;
    is_refused(&rt, alloc, COLOURS, b"a", b"P3 1 1 9 3 2 1", bad)?;
    is_refused(
        &rt,
        alloc,
        COLOURS,
        b"P3 1 1 0 0 0 0",
        b"P3 1 1 9 3 2 1",
        bad,
    )?;
    is_refused(&rt, alloc, COLOURS, b"P3 2 1 9 1 2 3 4 5 6", b"", bad)?;
    is_refused(&rt, alloc, COLOURS, ONE, b"", bad_second)?;
    is_refused(&rt, alloc, COLOURS, ONE, b"P3 1 1 8 1 2 3", mixed)?;
    is_refused(&rt, alloc, COLOURS, ONE, four, mixed)
}

/// A grid with so many rows and columns.
fn square(alloc: Global, side: u32) -> Result<Vec<u8>, AllocError> {
    let mut bytes = Vec::new(alloc);
    for _y in 0..side {
        for _x in 0..side {
            bytes.push(b'#')?;
        }
        bytes.push(b'\n')?;
    }
    Ok(bytes)
}

#[test]
fn takes_the_largest_pictures(rt: HostRuntime) -> Result<(), Fail> {
    let bytes = square(rt.alloc(), 64)?;
    let mut set = set_of(&rt, rt.alloc(), GRIDS)?;
    take(&rt, rt.alloc(), &mut set, bytes.as_slice())?;
    take(&rt, rt.alloc(), &mut set, bytes.as_slice())?;
    assert_eq!(rt; set.side(), 64);
    Ok(())
}

#[test]
fn refuses_larger_pictures(rt: HostRuntime) -> Result<(), Fail> {
    let bytes = square(rt.alloc(), 65)?;
    let mut set = set_of(&rt, rt.alloc(), GRIDS)?;
    let found = take(&rt, rt.alloc(), &mut set, bytes.as_slice()).err();
    assert_eq!(rt; found, Some(TileFault::BadPicture { tile: 0 }));
    Ok(())
}
