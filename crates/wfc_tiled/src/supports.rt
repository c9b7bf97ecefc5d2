//! Which variants may stand beside which.

ghost use Rattle.std.specs.Prelude.{◌≡◌, ◌<◌, ◌++◌, ◌∷◌, [], if◌then◌else◌, map, IfOk, OnOk};
ghost use Rattle.wfc_tileset.specs.Tiles.{variant_total};
ghost use Rattle.wfc_tiled.specs.Tiles.{all_fitting, variants_fit, fitting_variants, tile_support_table, variant_weights};

use std::alloc::Global;
use wfc_outside::NoMemory;
use wfc_places::push_if;
use wfc_tileset::TileSet;

/// For each variant and direction the variants that may stand there, in lists that take no more
/// memory than they need.
pub(crate) fn supports(alloc: Global, tiles: &TileSet) -> Result<Vec<Vec<u16>>, NoMemory>
    ensures value { IfOk result (λ lists.
        map (λ list. list.items) lists.items ≡ tile_support_table tiles.now) }
{
    let mut lists = Vec::with_capacity(alloc, tiles.variants() as usize * 4)?;
    for v in 0..tiles.variants() {
        push_lists(alloc, &mut lists, tiles, v)?;
    }
    Ok(lists)
}

/// Writes the lists of a variant behind the lists.
fn push_lists(
    alloc: Global,
    lists: &mut Vec<Vec<u16>>,
    tiles: &TileSet,
    v: u16,
) -> Result<(), NoMemory>
    requires v_in { v < variant_total tiles.now.tiles }
    ensures lists { OnOk result (map (λ list. list.items) lists.new.items
        ≡ map (λ list. list.items) lists.old.items ++ all_fitting tiles.now v) }
{
    for dir in 0..4 {
        let list = fitting_variants(alloc, tiles, v, dir)?;
        lists.push(Vec::from_slice(alloc, list.as_slice())?)?;
    }
    Ok(())
}

/// The variants that may stand beside one in a direction, rising.
fn fitting_variants(alloc: Global, tiles: &TileSet, v: u16, dir: u8) -> Result<Vec<u16>, NoMemory>
    requires v_in { v < variant_total tiles.now.tiles }
    ensures value { IfOk result (λ list. list.items ≡ fitting_variants tiles.now v dir) }
{
    let mut list = Vec::new(alloc);
    for w in 0..tiles.variants() {
        push_if(&mut list, w, variants_fit(tiles, dir, v, w))?;
    }
    Ok(list)
}

/// Whether `w` may stand beside `v` in a direction.
#[inline]
pub fn variants_fit(tiles: &TileSet, dir: u8, v: u16, w: u16) -> bool
    requires v_in { v < variant_total tiles.now.tiles }
    requires w_in { w < variant_total tiles.now.tiles }
    ensures value { result ≡ variants_fit tiles.now dir v w }
{
    match dir {
        0 => tiles.across(w, v),
        1 => tiles.down(v, w),
        2 => tiles.across(v, w),
        _ => tiles.down(w, v),
    }
}

/// How much each variant weighs.
pub fn weights(alloc: Global, tiles: &TileSet) -> Result<Vec<u32>, NoMemory>
    ensures value { IfOk result (λ weights. weights.items ≡ variant_weights tiles.now.tiles) }
{
    let mut weights = Vec::with_capacity(alloc, tiles.variants() as usize)?;
    for v in 0..tiles.variants() {
        weights.push(tiles.weight(v))?;
    }
    Ok(weights)
}
