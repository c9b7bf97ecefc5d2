//! Tile sets and their stacks for the tests.

use std::alloc::{AllocError, Global};
use std::process::Abort;
use std::test::Fail;
use wfc_box::{StackFault, Stacks, stacks};
use wfc_tileset::{TileFault, TileSet, read};

/// One straight line, which may go on to the right, and stands on what runs across it.
pub(crate) const TOWER: &[u8] = b"[[tile]]\nname = 'line'\nclass = 'I'\n\
      [[pair]]\nleft = 'line 0'\nright = 'line 0'\n\
      [[stack]]\nlower = 'line 0'\nupper = 'line 1'\n";

/// A tile without symmetry and a straight line, with pictures of characters.
const GRIDS: &[u8] = b"tile = [{name = 'f', class = 'F', weight = 3, picture = 'f'}, \
      {name = 'line', class = 'I', picture = 'g'}]\n";

/// A straight line with a picture of colours.
const COLOURS: &[u8] = b"tile = [{name = 'line', class = 'I', picture = 'x.ppm'}]\n";

/// The head of a document of twenty variants.
const TWENTY: &[u8] = b"tile = [{name = 'f', class = 'F', weight = 3}, {name = 'g', class = 'F'}, \
      {name = 'l', class = 'L', weight = 2}]\n\
      pair = [{left = 'f 1', right = 'g 5'}, {left = 'g', right = 'l'}, {left = 'f', right = 'f'}, \
      {left = 'l 1', right = 'f'}, {left = 'g', right = 'g 4'}]\n";

/// The tile set of a document.
pub(crate) fn tile_set(rt: &impl Abort, alloc: Global, text: &[u8]) -> Result<TileSet, TileFault> {
    assert!(rt; text.len() < 1_000_000);
    read(alloc, text)
}

/// The stacks of a document, or why there are none.
pub(crate) fn stacks_of(
    rt: &impl Abort,
    alloc: Global,
    text: &[u8],
) -> Result<Result<Stacks, StackFault>, Fail> {
    let tiles = tile_set(rt, alloc, text)?;
    Ok(stacks(alloc, text, &tiles))
}

/// Takes the next picture.
fn take(rt: &impl Abort, alloc: Global, set: &mut TileSet, bytes: &[u8]) -> Result<(), TileFault> {
    assert!(rt; set.picture_name(set.pictures()).is_some());
    set.take_picture(alloc, bytes)
}

/// The tile set with pictures of characters, of ten variants.
pub(crate) fn drawn(rt: &impl Abort, alloc: Global) -> Result<TileSet, TileFault> {
    let mut set = tile_set(rt, alloc, GRIDS)?;
    take(rt, alloc, &mut set, b"ab\ncd\n")?;
    take(rt, alloc, &mut set, b"-+\n -\n")?;
    Ok(set)
}

/// The tile set with a picture of colours, of two variants.
pub(crate) fn coloured(rt: &impl Abort, alloc: Global) -> Result<TileSet, TileFault> {
    let mut set = tile_set(rt, alloc, COLOURS)?;
    take(rt, alloc, &mut set, b"P3 1 1 9 1 2 3")?;
    Ok(set)
}

/// A document of twenty variants with so many stacks.
pub(crate) fn towers(alloc: Global, count: u32) -> Result<Vec<u8>, AllocError> {
    let mut text = Vec::new(alloc);
    text.extend_from_slice(TWENTY)?;
    for _ in 0..count {
        text.extend_from_slice(b"[[stack]]\nlower = 'f 3'\nupper = 'l 1'\n")?;
    }
    text.extend_from_slice(b"[[stack]]\nlower = 'l'\nupper = 'g'\n")?;
    Ok(text)
}
