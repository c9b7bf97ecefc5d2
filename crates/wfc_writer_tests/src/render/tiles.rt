//! Maps and texts of tile sets, by tables, and large ones.

ghost use Rattle.std.specs.Prelude.{◌<◌, ◌≤◌};

use std::alloc::{AllocError, Global};
use std::process::Abort;
use std::test::Fail;
use wfc_picture::Picture;
use wfc_render::laws::layouts_are_as_asked;
use wfc_render::{Form, layout, learned_tiles, tile_bytes};
use wfc_tileset::{HOLE, TileFault, TileSet, read};

/// A tile without symmetry and a straight line, which may follow each other.
const GRIDS: &str = "tile = [{name = 'f', class = 'F', weight = 3, picture = 'f'}, \
     {name = 'line', class = 'I', picture = 'g'}]\n\
     [[pair]]\nleft = 'line'\nright = 'line'\n\
     [[pair]]\nleft = 'f 5'\nright = 'line 1'\n";

/// One tile with a picture of colours.
const COLOURS: &str = "tile = [{name = 'x', class = 'X', picture = 'x.ppm'}]\n";

/// The tile set of a document.
fn set_of(rt: &impl Abort, alloc: Global, text: &str) -> Result<TileSet, TileFault> {
    assert!(rt; text.len() <= 16_777_216);
    read(alloc, text.as_bytes())
}

/// Takes the next picture.
fn take(rt: &impl Abort, alloc: Global, set: &mut TileSet, bytes: &[u8]) -> Result<(), TileFault> {
    assert!(rt; set.picture_name(set.pictures()).is_some());
    set.take_picture(alloc, bytes)
}

#[test]
fn tells_what_a_tile_set_allows(rt: HostRuntime) -> Result<(), Fail> {
    let set = set_of(&rt, rt.alloc(), GRIDS)?;
    let text = learned_tiles(rt.alloc(), &set)?;
    let wanted = b"tiles 2\nvariants 10\n0 3: f/0\n1 3: f/1\n2 3: f/2\n3 3: f/3\n4 3: f/4\n\
          5 3: f/5\n6 3: f/6\n7 3: f/7\n8 1: line/0\n9 1: line/1\n\
          across 5\n3 9\n5 9\n8 8\n9 1\n9 7\ndown 5\n2 8\n6 8\n8 0\n8 4\n9 9\n";
    assert_eq!(rt; text.as_slice(), wanted.as_slice());
    Ok(())
}

/// The text of a map of two places, of which the second is a hole.
fn text_of(
    rt: &impl Abort,
    alloc: Global,
    set: &TileSet,
    v: u16,
    form: Form,
) -> Result<Vec<u8>, Fail> {
    assert!(rt; v < set.variants());
    assert!(rt; set.pictures() == set.tiles());
    layouts_are_as_asked();
    let numbers = Vec::from_slice(alloc, &[u32::from(v), HOLE])?;
    let picture = Picture::new(2, 1, numbers)?;
    let laid = layout(set.kind(), Some(form), 2, 1, set.side())?;
    Ok(tile_bytes(alloc, &laid, set, &picture)?)
}

/// The tile set with pictures of characters.
fn drawn(rt: &impl Abort, alloc: Global) -> Result<TileSet, TileFault> {
    let mut set = set_of(rt, alloc, GRIDS)?;
    take(rt, alloc, &mut set, b"ab\ncd\n")?;
    take(rt, alloc, &mut set, b"-+\n -\n")?;
    Ok(set)
}

/// The tile set with a picture of colours.
fn coloured(rt: &impl Abort, alloc: Global) -> Result<TileSet, TileFault> {
    let mut set = set_of(rt, alloc, COLOURS)?;
    take(rt, alloc, &mut set, b"P3 1 1 9 1 2 3")?;
    Ok(set)
}

/// Whether a map of a variant and a hole is written so in a form.
fn is_written(
    rt: &impl Abort,
    alloc: Global,
    set: &TileSet,
    v: u16,
    form: Form,
    wanted: &[u8],
) -> Result<(), Fail> {
    let text = text_of(rt, alloc, set, v, form)?;
    assert_eq!(rt; text.as_slice(), wanted, "of {v} as {form:?}");
    Ok(())
}

#[test]
fn writes_maps_of_tiles(rt: HostRuntime) -> Result<(), Fail> {
    let alloc = rt.alloc();
    let set = drawn(&rt, alloc)?;
    is_written(&rt, alloc, &set, 1, Form::Grid, b"bd  \nac  \n")?;
    is_written(&rt, alloc, &set, 4, Form::Grid, b"ba  \ndc  \n")?;
    is_written(&rt, alloc, &set, 9, Form::Grid, b"+-  \n-   \n")?;
    is_written(&rt, alloc, &set, 9, Form::Cells, b"9 -\n")
}

#[test]
fn writes_maps_of_coloured_tiles(rt: HostRuntime) -> Result<(), Fail> {
    let alloc = rt.alloc();
    let set = coloured(&rt, alloc)?;
    is_written(
        &rt,
        alloc,
        &set,
        0,
        Form::P6,
        b"P6\n2 1\n9\n\x01\x02\x03\x00\x00\x00",
    )?;
    is_written(&rt, alloc, &set, 0, Form::P3, b"P3\n2 1\n9\n1 2 3\n0 0 0\n")?;
    is_written(&rt, alloc, &set, 0, Form::Cells, b"0 -\n")
}

/// The text of a map with the same variant at each place.
fn even_text_of(
    rt: &impl Abort,
    alloc: Global,
    set: &TileSet,
    v: u16,
    width: u32,
    height: u32,
    form: Form,
) -> Result<Vec<u8>, Fail>
    requires some_width { 0 < width }
    requires some_height { 0 < height }
    requires width_limit { width ≤ 4096 }
    requires height_limit { height ≤ 4096 }
{
    assert!(rt; v < set.variants());
    assert!(rt; set.pictures() == set.tiles());
    layouts_are_as_asked();
    let numbers = vec![in alloc; u32::from(v); width as usize * height as usize]?;
    let picture = Picture::new(width, height, numbers)?;
    let laid = layout(set.kind(), Some(form), width, height, set.side())?;
    Ok(tile_bytes(alloc, &laid, set, &picture)?)
}

/// So many times the same bytes.
fn times(alloc: Global, bytes: &[u8], count: u32) -> Result<Vec<u8>, AllocError> {
    let mut text = Vec::new(alloc);
    for _ in 0..count {
        text.extend_from_slice(bytes)?;
    }
    Ok(text)
}

/// Whether a map of 2,048 by 1,024 places, all of a variant, is written so in a form.
fn is_large(
    rt: &impl Abort,
    alloc: Global,
    set: &TileSet,
    v: u16,
    form: Form,
    wanted: &[u8],
) -> Result<(), Fail> {
    let text = even_text_of(rt, alloc, set, v, 2048, 1024, form)?;
    assert!(rt; text.as_slice() == wanted);
    Ok(())
}

/// Writes so many times the same bytes, and the end of a line.
fn push_line(
    text: &mut Vec<u8>,
    alloc: Global,
    bytes: &[u8],
    count: u32,
) -> Result<(), AllocError> {
    text.extend_from_slice(&times(alloc, bytes, count)?)?;
    text.push(b'\n')?;
    Ok(())
}

#[test]
fn writes_large_maps_of_tiles(rt: HostRuntime) -> Result<(), Fail> {
    let alloc = rt.alloc();
    let mut rows = Vec::new(alloc);
    push_line(&mut rows, alloc, b"bd", 2048)?;
    push_line(&mut rows, alloc, b"ac", 2048)?;
    let wanted = times(alloc, &rows, 1024)?;
    is_large(&rt, alloc, &drawn(&rt, alloc)?, 1, Form::Grid, &wanted)
}

#[test]
fn writes_large_maps_of_tiles_as_numbers(rt: HostRuntime) -> Result<(), Fail> {
    let alloc = rt.alloc();
    let mut row = times(alloc, b"9 ", 2047)?;
    row.extend_from_slice(b"9\n")?;
    let wanted = times(alloc, &row, 1024)?;
    is_large(&rt, alloc, &drawn(&rt, alloc)?, 9, Form::Cells, &wanted)
}

/// A picture of 2,048 by 1,024 pixels, all alike, behind what stands before them.
fn even_picture(alloc: Global, head: &[u8], pixel: &[u8]) -> Result<Vec<u8>, AllocError> {
    let mut text = Vec::from_slice(alloc, head)?;
    text.extend_from_slice(&times(alloc, pixel, 2_097_152)?)?;
    Ok(text)
}

#[test]
fn writes_large_maps_of_coloured_tiles(rt: HostRuntime) -> Result<(), Fail> {
    let alloc = rt.alloc();
    let set = coloured(&rt, alloc)?;
    let raw = even_picture(alloc, b"P6\n2048 1024\n9\n", b"\x01\x02\x03")?;
    is_large(&rt, alloc, &set, 0, Form::P6, &raw)?;
    let plain = even_picture(alloc, b"P3\n2048 1024\n9\n", b"1 2 3\n")?;
    is_large(&rt, alloc, &set, 0, Form::P3, &plain)
}

/// A document of so many tiles without symmetry, of the weights 1, 2 and so on, each of which may follow itself.
fn many(alloc: Global, tiles: u32) -> Result<String, AllocError> {
    let mut text = String::new(alloc);
    for tile in 0..tiles {
        let weight = u64::from(tile) + 1;
        write!(
            text,
            "[[tile]]\nname = 't{tile}'\nclass = 'F'\nweight = {weight}\n"
        )?;
        write!(text, "[[pair]]\nleft = 't{tile}'\nright = 't{tile}'\n")?;
    }
    Ok(text)
}

/// Writes the lines of the variants.
fn push_variants(text: &mut String) -> Result<(), AllocError> {
    for v in 0..4096_u32 {
        let tile = v / 8;
        let weight = tile + 1;
        let index = v % 8;
        write!(text, "{v} {weight}: t{tile}/{index}\n")?;
    }
    Ok(())
}

/// Writes the pairs of each second variant with itself, from this one on.
fn push_pairs(text: &mut String, first: u8) -> Result<(), AllocError> {
    for k in 0..2048_u32 {
        let v = 2 * k + u32::from(first);
        write!(text, "{v} {v}\n")?;
    }
    Ok(())
}

/// What is told of as many variants as there may be. A turn by a half and a reflection leave the two ends of such a pair
/// side by side, and these make the even variants of variant 0; the others make the odd ones, one above the other.
fn many_told(alloc: Global) -> Result<String, AllocError> {
    let mut text = String::new(alloc);
    text.push_str("tiles 512\nvariants 4096\n")?;
    push_variants(&mut text)?;
    text.push_str("across 2048\n")?;
    push_pairs(&mut text, 0)?;
    text.push_str("down 2048\n")?;
    push_pairs(&mut text, 1)?;
    Ok(text)
}

#[test]
fn tells_what_a_large_tile_set_allows(rt: HostRuntime) -> Result<(), Fail> {
    let text = many(rt.alloc(), 512)?;
    let set = set_of(&rt, rt.alloc(), text.as_str())?;
    let found = learned_tiles(rt.alloc(), &set)?;
    assert!(rt; found.as_slice() == many_told(rt.alloc())?.as_bytes());
    Ok(())
}
