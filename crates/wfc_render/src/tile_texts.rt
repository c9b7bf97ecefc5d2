//! The text of a tile set.

ghost use Rattle.std.specs.Prelude.{◌≡◌, ◌<◌, ◌≤◌, ◌++◌, [], if◌then◌else◌, length, IfOk, OnOk};
ghost use Rattle.wfc_render.specs.LearnedTiles.{allowed_behind, is_allowed, learned_tiles_text, pair_count};
ghost use Rattle.wfc_render.specs.LearnedTiles.{pair_line, pair_lines, pairs_text, variant_line, variants_text};
ghost use Rattle.wfc_tileset.specs.Tiles.{spelling, variant_at, variant_total};

use crate::learned::push_head;
use std::alloc::Global;
use wfc_outside::NoMemory;
use wfc_text::push_number;
use wfc_tileset::{MAX_VARIANTS, TileSet};

/// Where the second of two variants stands: to the right of the first, or below it.
#[derive(Clone, Copy, Debug, PartialEq, Eq)]
pub(crate) enum Way {
    Across,
    Down,
}

/// The text of a tile set: how many tiles there are, the variants with their numbers, weights and
/// words, and the pairs of variants that may stand beside each other and below each other.
pub fn learned_tiles(alloc: Global, tiles: &TileSet) -> Result<Vec<u8>, NoMemory>
    ensures text { IfOk result (λ text. text.items ≡ learned_tiles_text tiles.now) }
{
    let mut text = Vec::new(alloc);
    push_head(&mut text, b"tiles", u64::from(tiles.tiles()))?;
    push_variants(&mut text, tiles)?;
    push_pairs(&mut text, b"across", Way::Across, tiles)?;
    push_pairs(&mut text, b"down", Way::Down, tiles)?;
    Ok(text)
}

/// Writes the variants behind the text.
fn push_variants(text: &mut Vec<u8>, tiles: &TileSet) -> Result<(), NoMemory>
    ensures variants { OnOk result (text.new.items ≡ text.old.items ++ variants_text tiles.now) }
{
    push_head(text, b"variants", u64::from(tiles.variants()))?;
    for v in 0..tiles.variants() {
        push_variant(text, tiles, v)?;
    }
    Ok(())
}

/// Writes the line of a variant behind the text.
fn push_variant(text: &mut Vec<u8>, tiles: &TileSet, v: u16) -> Result<(), NoMemory>
    requires v_in { v < variant_total tiles.now.tiles }
    ensures line { OnOk result (text.new.items ≡ text.old.items ++ variant_line tiles.now v) }
{
    push_number(text, u64::from(v))?;
    text.push(b' ')?;
    push_number(text, u64::from(tiles.weight(v)))?;
    text.extend_from_slice(b": ")?;
    push_spelling(text, tiles, v)?;
    text.push(b'\n')?;
    Ok(())
}

/// Writes the word of a variant behind the text.
fn push_spelling(text: &mut Vec<u8>, tiles: &TileSet, v: u16) -> Result<(), NoMemory>
    requires v_in { v < variant_total tiles.now.tiles }
    ensures word { OnOk result (text.new.items
        ≡ text.old.items ++ spelling tiles.now.tiles (variant_at tiles.now.tiles v)) }
{
    let (tile, index) = tiles.tile_of(v);
    text.extend_from_slice(tiles.name(tile).as_bytes())?;
    text.push(b'/')?;
    text.push(b'0' + index)?;
    Ok(())
}

/// Writes the pairs of variants behind the text.
fn push_pairs(text: &mut Vec<u8>, word: &[u8], way: Way, tiles: &TileSet) -> Result<(), NoMemory>
    ensures pairs { OnOk result (text.new.items
        ≡ text.old.items ++ pairs_text word.now way tiles.now) }
{
    push_head(text, word, u64::from(count_pairs(way, tiles)))?;
    for v in 0..tiles.variants() {
        push_pairs_of(text, way, tiles, v)?;
    }
    Ok(())
}

/// How many pairs there are.
fn count_pairs(way: Way, tiles: &TileSet) -> u32
    ensures value { result ≡ pair_count way tiles.now }
{
    let mut count = 0;
    for v in 0..tiles.variants() {
        count += count_behind(way, tiles, v);
    }
    count
}

/// How many variants may stand behind one.
fn count_behind(way: Way, tiles: &TileSet, v: u16) -> u32
    requires v_in { v < variant_total tiles.now.tiles }
    ensures value { result ≡ length (allowed_behind way tiles.now v) }
    ensures limit { result ≤ MAX_VARIANTS }
{
    let mut count = 0;
    for w in 0..tiles.variants() {
        count += one_if(is_allowed(way, tiles, v, w));
    }
    count
}

/// 1 for what is counted.
#[inline]
fn one_if(counted: bool) -> u32
    ensures value { result ≡ (if counted then 1 else 0) }
{
    if counted { 1 } else { 0 }
}

/// Writes the pairs of a variant behind the text.
fn push_pairs_of(text: &mut Vec<u8>, way: Way, tiles: &TileSet, v: u16) -> Result<(), NoMemory>
    requires v_in { v < variant_total tiles.now.tiles }
    ensures lines { OnOk result (text.new.items ≡ text.old.items ++ pair_lines way tiles.now v) }
{
    for w in 0..tiles.variants() {
        push_pair_if(text, v, w, is_allowed(way, tiles, v, w))?;
    }
    Ok(())
}

/// Whether the second of two variants may stand behind the first.
#[inline]
fn is_allowed(way: Way, tiles: &TileSet, v: u16, w: u16) -> bool
    requires v_in { v < variant_total tiles.now.tiles }
    requires w_in { w < variant_total tiles.now.tiles }
    ensures value { result ≡ is_allowed way tiles.now v w }
{
    match way {
        Way::Across => tiles.across(v, w),
        Way::Down => tiles.down(v, w),
    }
}

/// Writes the line of a pair behind the text, if it is allowed.
#[inline]
fn push_pair_if(text: &mut Vec<u8>, v: u16, w: u16, allowed: bool) -> Result<(), NoMemory>
    ensures line { OnOk result (text.new.items
        ≡ text.old.items ++ (if allowed then pair_line v w else [])) }
{
    if allowed {
        push_pair(text, v, w)?;
    }
    Ok(())
}

/// Writes the line of a pair behind the text.
fn push_pair(text: &mut Vec<u8>, v: u16, w: u16) -> Result<(), NoMemory>
    ensures line { OnOk result (text.new.items ≡ text.old.items ++ pair_line v w) }
{
    push_number(text, u64::from(v))?;
    text.push(b' ')?;
    push_number(text, u64::from(w))?;
    text.push(b'\n')?;
    Ok(())
}
