//! The pairs that a document declares.

ghost use Rattle.std.specs.Prelude.{◌≡◌, ℕ, ◌<◌, ◌≤◌, [], length, IfSome, IfOk, position};
ghost use Rattle.std.specs.List.{All};
ghost use Rattle.std.specs.Option.{option_map};
ghost use Rattle.wfc_outside.specs.Gives.{Gives};
ghost use Rattle.toml.specs.View.{view, table_view, items_view};
ghost use Rattle.wfc_tileset.specs.Allowed.{IsPairEnd, IsPair};
ghost use Rattle.wfc_tileset.specs.Document.{result_then, table_in, pair_end_from, pair_end_in, pair_from, pairs_from, has_name};
ghost use Rattle.wfc_tileset.specs.Names.{AreNames};
ghost use Rattle.wfc_tileset.specs.declared.fault.Place.TheVariants as place;
ghost use Rattle.wfc_tileset.specs.declared.fault.Key.TheVariants as key;

use crate::document::{MAX_ELEMENTS, member, required_text, table_in};
use crate::fault::{Key, Place, TileFault};
use crate::names::{Names, names_of};
use crate::terms::{name_length, turn_digit};
use crate::tile::{End, Pair, Tile};
use std::alloc::Global;
use toml::{Table, Value};

/// The pairs of an array, or the first fault.
pub fn pairs_from(alloc: Global, tiles: &[Tile], elements: &[Value]) -> Result<Vec<Pair>, TileFault>
    requires few { length elements.now ≤ MAX_ELEMENTS }
    requires few_tiles { length tiles.now ≤ MAX_ELEMENTS }
    ensures exact { Gives TileFault.NoMemory (λ pairs. pairs.items) result
        (pairs_from tiles.now [] (items_view elements.now)) }
    ensures pairs { IfOk result (λ pairs. All (IsPair tiles.now) pairs.items) }
{
    let names = names_of(alloc, tiles)?;
    let mut pairs = Vec::new(alloc);
    for element in elements {
        let pair = pairs.len() as u32;
        pairs.push(pair_in(&names, tiles, pair, element)?)?;
    }
    Ok(pairs)
}

/// The pair of an element.
fn pair_in(names: &Names, tiles: &[Tile], pair: u32, element: &Value) -> Result<Pair, TileFault>
    requires names { AreNames names.now tiles.now }
    ensures exact { result ≡ result_then (table_in (place.Pair pair) key.Pair (view element.now))
        (pair_from tiles.now pair) }
    ensures pair { IfOk result (IsPair tiles.now) }
{
    let table = table_in(Place::Pair(pair), Key::Pair, element)?;
    pair_from(names, tiles, pair, table)
}

/// The pair of a table.
fn pair_from(names: &Names, tiles: &[Tile], pair: u32, table: &Table) -> Result<Pair, TileFault>
    requires names { AreNames names.now tiles.now }
    ensures exact { result ≡ pair_from tiles.now pair (table_view table.now) }
    ensures pair { IfOk result (IsPair tiles.now) }
{
    let left = pair_end_in(names, tiles, pair, Key::Left, member(table, "left"))?;
    let right = pair_end_in(names, tiles, pair, Key::Right, member(table, "right"))?;
    Ok(Pair { left, right })
}

/// An end of a pair, which has to be there.
fn pair_end_in(
    names: &Names,
    tiles: &[Tile],
    pair: u32,
    key: Key,
    value: Option<&Value>,
) -> Result<End, TileFault>
    requires names { AreNames names.now tiles.now }
    ensures exact { result ≡ pair_end_in tiles.now pair key (option_map (λ v. view v.now)
        value.entry) }
    ensures end { IfOk result (IsPairEnd tiles.now) }
{
    let text = required_text(Place::Pair(pair), key, value)?;
    pair_end_from(names, tiles, pair, text)
}

/// An end of a pair: a tile's name, and behind a blank an action.
fn pair_end_from(names: &Names, tiles: &[Tile], pair: u32, text: &str) -> Result<End, TileFault>
    requires names { AreNames names.now tiles.now }
    ensures exact { result ≡ pair_end_from tiles.now pair text.now }
    ensures end { IfOk result (IsPairEnd tiles.now) }
{
    let length = name_length(text.as_bytes());
    let Some(tile) = named_tile(names, tiles, &text[..length]) else {
        return Err(TileFault::UnknownTile { pair });
    };
    match turn_digit(&text.as_bytes()[length..]) {
        Some(turn) => Ok(End { tile, turn }),
        None => Err(TileFault::BadTurn { pair }),
    }
}

/// The number of the first tile that has this name.
fn named_tile(names: &Names, _tiles: &[Tile], name: &str) -> Option<u32>
    requires names { AreNames names.now _tiles.now }
    ensures value { result ≡ position (has_name name.now) _tiles.now }
    ensures tile_in { IfSome result (λ tile. tile < length _tiles.now) }
{
    names.get(name).copied()
}
