//! Which variants may stand beside which, or on which.

ghost use Rattle.std.specs.Prelude.{◌≡◌, ◌<◌, ◌++◌, map, IfOk, OnOk};
ghost use Rattle.wfc_tileset.specs.Tiles.{variant_total};
ghost use Rattle.wfc_box.specs.BoxProblem.{all_fitting_in_box, fits_in, fitting_in_box, box_supports};

use crate::allowed::Stacks;
use std::alloc::Global;
use wfc_outside::NoMemory;
use wfc_places::push_if;
use wfc_tiled::variants_fit;
use wfc_tileset::TileSet;

/// For each variant and direction the variants that may stand there. Each list is a copy, which
/// leaves out the room that the one it was gathered in has to spare; no clause says so.
pub(crate) fn supports(
    alloc: Global,
    tiles: &TileSet,
    stacks: &Stacks,
) -> Result<Vec<Vec<u16>>, NoMemory>
    ensures value { IfOk result (λ lists.
        map (λ list. list.items) lists.items ≡ box_supports tiles.now stacks.now) }
{
    let mut lists = Vec::with_capacity(alloc, tiles.variants() as usize * 6)?;
    for v in 0..tiles.variants() {
        push_lists(alloc, &mut lists, tiles, stacks, v)?;
    }
    Ok(lists)
}

/// Writes the lists of a variant behind the lists.
fn push_lists(
    alloc: Global,
    lists: &mut Vec<Vec<u16>>,
    tiles: &TileSet,
    stacks: &Stacks,
    v: u16,
) -> Result<(), NoMemory>
    requires v_in { v < variant_total tiles.now.tiles }
    ensures lists { OnOk result (map (λ list. list.items) lists.new.items
        ≡ map (λ list. list.items) lists.old.items ++ all_fitting_in_box tiles.now stacks.now v) }
{
    for dir in 0..6 {
        let list = support_list(alloc, tiles, stacks, v, dir)?;
        lists.push(Vec::from_slice(alloc, list.as_slice())?)?;
    }
    Ok(())
}

/// The variants that may stand beside one in a direction, rising.
fn support_list(
    alloc: Global,
    tiles: &TileSet,
    stacks: &Stacks,
    v: u16,
    dir: u8,
) -> Result<Vec<u16>, NoMemory>
    requires v_in { v < variant_total tiles.now.tiles }
    ensures value { IfOk result (λ list. list.items ≡ fitting_in_box tiles.now stacks.now v dir) }
{
    let mut list = Vec::new(alloc);
    for w in 0..tiles.variants() {
        push_if(&mut list, w, fits_in(tiles, stacks, dir, v, w))?;
    }
    Ok(list)
}

/// Whether `w` may stand beside `v` in a direction.
#[inline]
fn fits_in(tiles: &TileSet, stacks: &Stacks, dir: u8, v: u16, w: u16) -> bool
    requires v_in { v < variant_total tiles.now.tiles }
    requires w_in { w < variant_total tiles.now.tiles }
    ensures value { result ≡ fits_in tiles.now stacks.now dir v w }
{
    if dir < 4 {
        variants_fit(tiles, dir, v, w)
    } else if dir == 4 {
        stacks.on(v, w)
    } else {
        stacks.on(w, v)
    }
}
