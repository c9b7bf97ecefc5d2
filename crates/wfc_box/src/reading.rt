//! Reading the stacks that a tile set's document declares.

ghost use Rattle.std.specs.Prelude.{◌≡◌, ◌<◌, ◌≤◌, [], length, position, IfOk, IfSome, Ok, Some};
ghost use Rattle.std.specs.List.{All};
ghost use Rattle.std.specs.Option.{option_map};
ghost use Rattle.wfc_outside.specs.Gives.{Gives, result_map};
ghost use Rattle.toml.specs.View.{view, table_view, items_view};
ghost use Rattle.wfc_tileset.specs.Allowed.{IsPairEnd};
ghost use Rattle.wfc_tileset.specs.Document.{has_name};
ghost use Rattle.wfc_tileset.specs.Names.{AreNames};
ghost use Rattle.wfc_box.specs.StackDocument.{then_stack, stack_elements, stack_end_from, stack_end, stack_document};
ghost use Rattle.wfc_box.specs.StackDocument.{stack_from, stacks_from, stacks_in, stacks_of, stack_table_in, stack_text};
ghost use Rattle.wfc_box.specs.Stacks.{IsStack, stacked_pairs};

use crate::allowed::Stacks;
use crate::fault::{StackFault, StackKey};
use crate::stack::Stack;
use std::alloc::Global;
use toml::{Table, Value};
use wfc_tileset::{End, Names, TileSet, member, name_length, turn_digit};

/// The most elements of an array.
const MAX_ELEMENTS: usize = 16_777_216;

/// What the stacks allow that the document of a tile set declares: none where it has no `stack`.
///
/// The fault is the first in this order: `stack` is no array; and then, stack by stack, it is no
/// table, and its lower and then its upper end is missing, no text, of no tile or of no action.
pub fn stacks(alloc: Global, bytes: &[u8], tiles: &TileSet) -> Result<Stacks, StackFault>
    ensures exact { Gives StackFault.NoMemory (λ stacks. stacks) result
        (result_map (stacked_pairs tiles.now.tiles) (stacks_of tiles.now.tiles bytes.now)) }
{
    let declared = declared_stacks(alloc, bytes, tiles)?;
    Ok(Stacks::new(alloc, tiles, &declared)?)
}

/// The stacks that the document declares.
fn declared_stacks(alloc: Global, bytes: &[u8], tiles: &TileSet) -> Result<Vec<Stack>, StackFault>
    ensures exact { Gives StackFault.NoMemory (λ stacks. stacks.items) result
        (stacks_of tiles.now.tiles bytes.now) }
    ensures stacks { IfOk result (λ stacks. All (IsStack tiles.now.tiles) stacks.items) }
{
    match document(alloc, bytes)? {
        Some(table) => stacks_in(alloc, tiles, &table),
        None => Ok(Vec::new(alloc)),
    }
}

/// The table that bytes spell, if they spell one.
fn document(alloc: Global, bytes: &[u8]) -> Result<Option<Table>, StackFault>
    ensures exact { Gives StackFault.NoMemory (λ table. option_map table_view table) result
        (Ok (stack_document bytes.now)) }
{
    let Ok(text) = str::from_utf8(bytes) else {
        return Ok(None);
    };
    match toml::table_from_str(alloc, text) {
        Ok(table) => Ok(Some(table)),
        Err(error) => {
            if error.is_memory() {
                Err(StackFault::NoMemory)
            } else {
                Ok(None)
            }
        }
    }
}

/// The stacks of a table.
fn stacks_in(alloc: Global, tiles: &TileSet, table: &Table) -> Result<Vec<Stack>, StackFault>
    ensures exact { Gives StackFault.NoMemory (λ stacks. stacks.items) result
        (stacks_in tiles.now.tiles (Some (table_view table.now))) }
    ensures stacks { IfOk result (λ stacks. All (IsStack tiles.now.tiles) stacks.items) }
{
    let elements = elements_in(member(table, "stack"))?;
    stacks_from(alloc, tiles, elements)
}

/// The elements of an array, none where it is missing. A document that is short enough has no more
/// elements than bytes, so that want of memory is answered where there are more.
fn elements_in(value: Option<&Value>) -> Result<&[Value], StackFault>
    ensures exact { Gives StackFault.NoMemory (λ items. items_view items.now) result
        (stack_elements (option_map (λ v. view v.now) value.entry)) }
    ensures few { IfOk result (λ items. length items.now ≤ MAX_ELEMENTS) }
{
    match value {
        None => Ok(&[]),
        Some(value) => match value.as_array() {
            Some(items) if items.len() <= MAX_ELEMENTS => Ok(items.as_slice()),
            Some(_) => Err(StackFault::NoMemory),
            None => Err(StackFault::NotArray),
        },
    }
}

/// The stacks of an array, or the first fault.
fn stacks_from(alloc: Global, tiles: &TileSet, elements: &[Value]) -> Result<Vec<Stack>, StackFault>
    requires few { length elements.now ≤ MAX_ELEMENTS }
    ensures exact { Gives StackFault.NoMemory (λ stacks. stacks.items) result
        (stacks_from tiles.now.tiles [] (items_view elements.now)) }
    ensures stacks { IfOk result (λ stacks. All (IsStack tiles.now.tiles) stacks.items) }
{
    let names = tiles.names(alloc)?;
    let mut stacks = Vec::new(alloc);
    for element in elements {
        let stack = stacks.len() as u32;
        stacks.push(stack_in(&names, tiles, stack, element)?)?;
    }
    Ok(stacks)
}

/// The stack that an element of `stack` declares; `stack` is its number, and stands in its fault.
fn stack_in(
    names: &Names,
    tiles: &TileSet,
    stack: u32,
    element: &Value,
) -> Result<Stack, StackFault>
    requires names { AreNames names.now tiles.now.tiles }
    ensures exact { result
        ≡ then_stack (stack_table_in stack (view element.now)) (stack_from tiles.now.tiles stack) }
    ensures stack { IfOk result (IsStack tiles.now.tiles) }
{
    let table = table_in(stack, element)?;
    stack_from(names, tiles, stack, table)
}

/// An element of the array, which has to be a table.
fn table_in(stack: u32, value: &Value) -> Result<&Table, StackFault>
    ensures exact { result_map (λ table. table_view table.now) result
        ≡ stack_table_in stack (view value.now) }
{
    match value.as_table() {
        Some(table) => Ok(table),
        None => Err(StackFault::NotTable { stack }),
    }
}

/// The stack of a table.
fn stack_from(
    names: &Names,
    tiles: &TileSet,
    stack: u32,
    table: &Table,
) -> Result<Stack, StackFault>
    requires names { AreNames names.now tiles.now.tiles }
    ensures exact { result ≡ stack_from tiles.now.tiles stack (table_view table.now) }
    ensures stack { IfOk result (IsStack tiles.now.tiles) }
{
    let lower = end_in(names, tiles, stack, StackKey::Lower, member(table, "lower"))?;
    let upper = end_in(names, tiles, stack, StackKey::Upper, member(table, "upper"))?;
    Ok(Stack { lower, upper })
}

/// An end of a stack, which has to be there.
fn end_in(
    names: &Names,
    tiles: &TileSet,
    stack: u32,
    key: StackKey,
    value: Option<&Value>,
) -> Result<End, StackFault>
    requires names { AreNames names.now tiles.now.tiles }
    ensures exact { result
        ≡ stack_end tiles.now.tiles stack key (option_map (λ v. view v.now) value.entry) }
    ensures end { IfOk result (IsPairEnd tiles.now.tiles) }
{
    let text = text_in(stack, key, value)?;
    end_from(names, tiles, stack, text)
}

/// A text that has to be there.
fn text_in(stack: u32, key: StackKey, value: Option<&Value>) -> Result<&str, StackFault>
    ensures exact { result_map (λ text. text.now) result
        ≡ stack_text stack key (option_map (λ v. view v.now) value.entry) }
{
    match value {
        None => Err(StackFault::MissingKey { stack, key }),
        Some(value) => match value.as_str() {
            Some(text) => Ok(text),
            None => Err(StackFault::NotText { stack, key }),
        },
    }
}

/// An end of a stack: a tile's name, and behind a blank an action.
fn end_from(names: &Names, tiles: &TileSet, stack: u32, text: &str) -> Result<End, StackFault>
    requires names { AreNames names.now tiles.now.tiles }
    ensures exact { result ≡ stack_end_from tiles.now.tiles stack text.now }
    ensures end { IfOk result (IsPairEnd tiles.now.tiles) }
{
    let length = name_length(text.as_bytes());
    let Some(tile) = named_tile(names, tiles, &text[..length]) else {
        return Err(StackFault::UnknownTile { stack });
    };
    match turn_digit(&text.as_bytes()[length..]) {
        Some(turn) => Ok(End { tile, turn }),
        None => Err(StackFault::BadTurn { stack }),
    }
}

/// The number of the first tile that has this name.
fn named_tile(names: &Names, _tiles: &TileSet, name: &str) -> Option<u32>
    requires names { AreNames names.now _tiles.now.tiles }
    ensures value { result ≡ position (has_name name.now) _tiles.now.tiles }
    ensures tile_in { IfSome result (λ tile. tile < length _tiles.now.tiles) }
{
    names.get(name).copied()
}
