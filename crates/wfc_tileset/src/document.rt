//! The document of a tile set, as a table of TOML, and the kinds of values that stand in it.

ghost use Rattle.std.specs.Prelude.{◌≡◌, ◌≤◌, length, IfOk};
ghost use Rattle.std.specs.Option.{option_map, ok_or};
ghost use Rattle.wfc_outside.specs.Gives.{Gives, result_map};
ghost use Rattle.toml.specs.Data.{get_member};
ghost use Rattle.toml.specs.View.{view, table_view, items_view};
ghost use Rattle.wfc_tileset.specs.Document.{parsed_document, required_text, elements_in, table_in};

use crate::fault::{Key, Place, TileFault};
use std::alloc::Global;
use toml::{Table, Value};

/// The most elements of an array.
pub const MAX_ELEMENTS: usize = 16_777_216;

/// The table that bytes spell.
pub fn document(alloc: Global, bytes: &[u8]) -> Result<Table, TileFault>
    ensures exact { Gives TileFault.NoMemory table_view result (parsed_document bytes.now) }
{
    let Ok(text) = str::from_utf8(bytes) else {
        return Err(TileFault::Toml);
    };
    match toml::table_from_str(alloc, text) {
        Ok(table) => Ok(table),
        Err(error) => {
            if error.is_memory() {
                Err(TileFault::NoMemory)
            } else {
                Err(TileFault::Toml)
            }
        }
    }
}

/// What a table has at a key.
pub fn member<'a>(table: &'a Table, key: &str) -> Option<&'a Value>
    ensures value { option_map (λ v. view v.now) result
        ≡ get_member key.now (table_view table.now) }
{
    table.get(key)
}

/// A text that has to be there.
pub fn required_text(place: Place, key: Key, value: Option<&Value>) -> Result<&str, TileFault>
    ensures exact { result_map (λ text. text.now) result
        ≡ required_text place key (option_map (λ v. view v.now) value.entry) }
{
    match value {
        None => Err(TileFault::MissingKey { place, key }),
        Some(value) => match value.as_str() {
            Some(text) => Ok(text),
            None => Err(TileFault::WrongKind { place, key }),
        },
    }
}

/// An element of an array, which has to be a table.
pub fn table_in(place: Place, key: Key, value: &Value) -> Result<&Table, TileFault>
    ensures exact { result_map (λ table. table_view table.now) result
        ≡ table_in place key (view value.now) }
{
    match value.as_table() {
        Some(table) => Ok(table),
        None => Err(TileFault::WrongKind { place, key }),
    }
}

/// The elements of an array, none where it is missing. A document that is short enough has no more
/// elements than bytes, so that want of memory is answered where there are more.
pub fn elements_in(key: Key, value: Option<&Value>) -> Result<&[Value], TileFault>
    ensures exact { Gives TileFault.NoMemory (λ items. items_view items.now) result
        (elements_in key (option_map (λ v. view v.now) value.entry)) }
    ensures few { IfOk result (λ items. length items.now ≤ MAX_ELEMENTS) }
{
    match value {
        None => Ok(&[]),
        Some(value) => match value.as_array() {
            Some(items) if items.len() <= MAX_ELEMENTS => Ok(items.as_slice()),
            Some(_) => Err(TileFault::NoMemory),
            None => Err(TileFault::WrongKind {
                place: Place::Top,
                key,
            }),
        },
    }
}
