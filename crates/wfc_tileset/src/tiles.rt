//! The tiles of a document.

ghost use Rattle.std.specs.Prelude.{◌≡◌, ℕ, ◌<◌, ◌≤◌, length, IfOk, [], true};
ghost use Rattle.std.specs.String.{string_bytes};
ghost use Rattle.std.specs.List.{All, list_any};
ghost use Rattle.std.specs.Option.{option_map};
ghost use Rattle.wfc_outside.specs.Gives.{Gives, result_map};
ghost use Rattle.toml.specs.View.{view, table_view, items_view};
ghost use Rattle.wfc_tileset.specs.Tiles.{HasWeight};
ghost use Rattle.wfc_tileset.specs.TileSets.{AreAlike};
ghost use Rattle.wfc_tileset.specs.Names.{AreNames};
ghost use Rattle.wfc_tileset.specs.Document.{result_then, table_in, name_in, class_in, weight_in, picture_in, same_kind};
ghost use Rattle.wfc_tileset.specs.Document.{fits_first, tile_from, tile_of_element, tiles_from, tile_with, has_name};
ghost use Rattle.wfc_tileset.specs.declared.fault.Place.TheVariants as place;
ghost use Rattle.wfc_tileset.specs.declared.fault.Key.TheVariants as key;

use crate::document::{MAX_ELEMENTS, member, required_text, table_in};
use crate::fault::{Key, Place, TileFault};
use crate::names::{Names, note};
use crate::terms::{is_name, is_ppm_name, symmetry_class, tile_weight};
use crate::tile::Tile;
use std::alloc::Global;
use toml::{Table, Value};
use wfc_outside::NoMemory;
use wfc_symmetry::Class;

/// The tiles of an array, or the first fault.
pub fn tiles_from(alloc: Global, elements: &[Value]) -> Result<Vec<Tile>, TileFault>
    requires few { length elements.now ≤ MAX_ELEMENTS }
    ensures exact { Gives TileFault.NoMemory (λ tiles. tiles.items) result
        (tiles_from [] (items_view elements.now)) }
    ensures counted { IfOk result (λ tiles. length tiles.items ≡ length elements.now) }
    ensures weighed { IfOk result (λ tiles. All HasWeight tiles.items) }
    ensures alike { IfOk result (λ tiles. AreAlike tiles.items) }
{
    let mut tiles = Vec::new(alloc);
    let mut names = Names::new(alloc);
    for element in elements {
        let tile = tile_in(alloc, &names, &tiles, element)?;
        note(alloc, &mut names, tile.name.as_str(), tiles.len() as u32)?;
        tiles.push(tile)?;
    }
    Ok(tiles)
}

/// The tile of an element, behind those before it.
fn tile_in(
    alloc: Global,
    names: &Names,
    before: &[Tile],
    element: &Value,
) -> Result<Tile, TileFault>
    requires few { length before.now ≤ MAX_ELEMENTS }
    requires names { AreNames names.now before.now }
    ensures exact { Gives TileFault.NoMemory (λ tile. tile) result
        (tile_of_element before.now (view element.now)) }
    ensures weighed { IfOk result HasWeight }
    ensures alike { IfOk result (λ tile. fits_first before.now tile.picture ≡ true) }
{
    let tile = before.len() as u32;
    let table = table_in(Place::Tile(tile), Key::Tile, element)?;
    tile_from(alloc, names, before, table)
}

/// The tile of a table, behind those before it.
fn tile_from(
    alloc: Global,
    names: &Names,
    before: &[Tile],
    table: &Table,
) -> Result<Tile, TileFault>
    requires few { length before.now ≤ MAX_ELEMENTS }
    requires names { AreNames names.now before.now }
    ensures exact { Gives TileFault.NoMemory (λ tile. tile) result
        (tile_from before.now (table_view table.now)) }
    ensures weighed { IfOk result HasWeight }
    ensures alike { IfOk result (λ tile. fits_first before.now tile.picture ≡ true) }
{
    let tile = before.len() as u32;
    let name = name_in(names, before, member(table, "name"))?;
    let class = class_in(tile, member(table, "class"))?;
    let weight = weight_in(tile, member(table, "weight"))?;
    let picture = picture_in(tile, member(table, "picture"))?;
    if !fits_first(before, picture) {
        return Err(TileFault::MixedKinds { tile });
    }
    Ok(tile_with(alloc, name, class, weight, picture)?)
}

/// The tile of these parts.
fn tile_with(
    alloc: Global,
    name: &str,
    class: Class,
    weight: u32,
    picture: Option<&str>,
) -> Result<Tile, NoMemory>
    ensures value { IfOk result (λ tile. tile
        ≡ tile_with name.now class weight (option_map (λ p. p.now) picture.entry)) }
{
    let name = String::from_str(alloc, name)?;
    let picture = match picture {
        Some(picture) => Some(String::from_str(alloc, picture)?),
        None => None,
    };
    Ok(Tile {
        name,
        class,
        weight,
        picture,
    })
}

/// The name of a tile, which none before it has.
fn name_in<'a>(
    names: &Names,
    before: &[Tile],
    value: Option<&'a Value>,
) -> Result<&'a str, TileFault>
    requires few { length before.now ≤ MAX_ELEMENTS }
    requires names { AreNames names.now before.now }
    ensures exact { result_map (λ name. name.now) result
        ≡ name_in before.now (option_map (λ v. view v.now) value.entry) }
{
    let tile = before.len() as u32;
    let name = required_text(Place::Tile(tile), Key::Name, value)?;
    if !is_name(name.as_bytes()) {
        return Err(TileFault::BadName { tile });
    }
    if is_taken(names, before, name) {
        return Err(TileFault::DoubleName { tile });
    }
    Ok(name)
}

/// Whether one of the tiles has this name.
fn is_taken(names: &Names, _tiles: &[Tile], name: &str) -> bool
    requires names { AreNames names.now _tiles.now }
    ensures value { result ≡ list_any (has_name name.now) _tiles.now }
{
    names.contains_key(name)
}

/// The class of a tile.
fn class_in(tile: u32, value: Option<&Value>) -> Result<Class, TileFault>
    ensures exact { result ≡ class_in tile (option_map (λ v. view v.now) value.entry) }
{
    let text = required_text(Place::Tile(tile), Key::Class, value)?;
    match symmetry_class(text.as_bytes()) {
        Some(class) => Ok(class),
        None => Err(TileFault::BadClass { tile }),
    }
}

/// The weight of a tile, 1 where none is named.
fn weight_in(tile: u32, value: Option<&Value>) -> Result<u32, TileFault>
    ensures exact { result ≡ weight_in tile (option_map (λ v. view v.now) value.entry) }
    ensures range { IfOk result (λ weight. (1 ≤ weight) × (weight ≤ 1000000)) }
{
    let Some(value) = value else {
        return Ok(1);
    };
    match value.as_integer() {
        Some(number) => match tile_weight(number) {
            Some(weight) => Ok(weight),
            None => Err(TileFault::BadWeight { tile }),
        },
        None => Err(TileFault::WrongKind {
            place: Place::Tile(tile),
            key: Key::Weight,
        }),
    }
}

/// The name of a picture's file, if any.
fn picture_in(tile: u32, value: Option<&Value>) -> Result<Option<&str>, TileFault>
    ensures exact { result_map (option_map (λ name. name.now)) result
        ≡ picture_in tile (option_map (λ v. view v.now) value.entry) }
{
    let Some(value) = value else {
        return Ok(None);
    };
    match value.as_str() {
        Some(name) => Ok(Some(name)),
        None => Err(TileFault::WrongKind {
            place: Place::Tile(tile),
            key: Key::Picture,
        }),
    }
}

/// Whether the picture is of the kind of the first tile's.
fn fits_first(before: &[Tile], picture: Option<&str>) -> bool
    ensures value { result ≡ fits_first before.now (option_map (λ p. p.now) picture.entry) }
{
    match before {
        [] => true,
        [first, ..] => same_kind(first, picture),
    }
}

/// Whether neither has a picture, or both have one of one kind.
fn same_kind(first: &Tile, picture: Option<&str>) -> bool
    ensures value { result ≡ same_kind first.now.picture (option_map (λ p. p.now) picture.entry) }
{
    match (&first.picture, picture) {
        (None, None) => true,
        (Some(a), Some(b)) => is_ppm_name(a.as_bytes()) == is_ppm_name(b.as_bytes()),
        _ => false,
    }
}
