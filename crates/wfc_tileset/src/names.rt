//! The names of tiles, looked up in a sorted map.

ghost use Rattle.std.specs.Prelude.{◌≡◌, ◌≤◌, length, position, IfOk, OnOk};
ghost use Rattle.std.specs.BTreeMap.{get_by_text};
ghost use Rattle.wfc_tileset.specs.Document.{has_name};
ghost use Rattle.wfc_tileset.specs.Names.{AreNames, IsNoted};

use crate::document::MAX_ELEMENTS;
use crate::tile::Tile;
use std::alloc::Global;
use std::collections::BTreeMap;
use wfc_outside::NoMemory;

/// Names, each with the number of the first tile that has it.
pub type Names = BTreeMap<String, u32>;

/// The names of tiles.
pub fn names_of(alloc: Global, tiles: &[Tile]) -> Result<Names, NoMemory>
    requires few { length tiles.now ≤ MAX_ELEMENTS }
    ensures names { IfOk result (λ names. AreNames names tiles.now) }
{
    let mut names = BTreeMap::new(alloc);
    let mut number = 0;
    for tile in tiles {
        note(alloc, &mut names, tile.name.as_str(), number)?;
        number += 1;
    }
    Ok(names)
}

/// Notes a name with a number, unless it has one.
pub fn note(alloc: Global, names: &mut Names, name: &str, number: u32) -> Result<(), NoMemory>
    ensures noted { OnOk result (IsNoted names.old names.new name.now number) }
{
    if names.contains_key(name) {
        return Ok(());
    }
    let name = String::from_str(alloc, name)?;
    names.insert(name, number)?;
    Ok(())
}
