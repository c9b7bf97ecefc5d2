//! Palettes.

ghost use Rattle.std.specs.Prelude.{◌≡◌, ℕ, ◌/◌, ◌%◌, ◌<◌, ◌≤◌, ◌↔◌, length, Contains, slice_get, IsNone, IfOk, OnOk, IfSome};
ghost use Rattle.std.specs.List.{position_or_len};
ghost use Rattle.wfc_lists.specs.WithoutRepeats.{with_new};
ghost use Rattle.wfc_outside.specs.Gives.{Gives};
ghost use Rattle.wfc_picture.specs.Palette.{symbol_number, picture_and_palette};
ghost use Rattle.wfc_picture.specs.Symbol.{same_symbol};
ghost use Rattle.wfc_picture.specs.declared.palette.PaletteFault.TheVariants.{NoMemory};
ghost use Rattle.wfc_picture.specs.declared.palette.TheConstants.{MAX_COLOURS, MAX_PIXELS};

use crate::picture::Picture;
use crate::symbol::Symbol;
use indexmap::IndexSet;
use std::alloc::{AllocError, AllocFailed, Global};
use std::marker::Model;
use thiserror::Error;

/// Why symbols have no palette.
#[derive(Clone, Copy, Debug, PartialEq, Eq, Error)]
pub enum PaletteFault {
    /// The pixel `at`, counted row by row from 0, shows the 4,097th symbol.
    #[error("too many colours")]
    TooManyColours { at: u32 },
    #[error("out of memory")]
    NoMemory,
}

impl From<AllocError> for PaletteFault {
    ghost from_gives = { λ _ fault. fault ≡ NoMemory };

    fn from(_error: AllocError) -> PaletteFault {
        PaletteFault::NoMemory
    }
}

impl<T: Drop> From<AllocFailed<T>> for PaletteFault {
    ghost from_gives = { λ _ fault. fault ≡ NoMemory };

    fn from(_error: AllocFailed<T>) -> PaletteFault {
        PaletteFault::NoMemory
    }
}

/// The most symbols that a palette holds.
pub const MAX_COLOURS: usize = 4096;

/// The most pixels of a sample.
pub const MAX_PIXELS: usize = 1_048_576;

/// Which symbol each number of a picture stands for. It is seen as the list of its symbols: a symbol's number is its
/// position.
#[derive(Drop)]
pub struct Palette {
    symbols: IndexSet<Symbol>,
}

impl Model for Palette {
    ghost use Rattle.std.specs.Prelude.{◌≤◌, List, length};
    ghost use Rattle.wfc_picture.specs.declared.palette.TheConstants.{MAX_COLOURS};
    ghost use Rattle.wfc_picture.specs.declared.symbol.Symbol.{Symbol};

    ghost Value = { List Symbol };

    ghost view = { λ p. p.symbols.keys };

    ghost invariant = { λ p. length p.symbols.keys ≤ MAX_COLOURS };
}

impl Palette {
    /// Numbers the symbols of a picture of this width, given row by row, in the order of their first appearance.
    pub fn index(
        alloc: Global,
        symbols: &[Symbol],
        width: u32,
    ) -> Result<(Picture, Palette), PaletteFault>
        requires some_column { 0 < width }
        requires rows { length symbols.now % width ≡ 0 }
        requires some_pixel { 0 < length symbols.now }
        requires limit { length symbols.now ≤ MAX_PIXELS }
        ensures exact { Gives NoMemory (λ made. made) result (picture_and_palette symbols.now width) }
    {
        let mut found = IndexSet::new(alloc);
        let mut cells = Vec::with_capacity(alloc, symbols.len())?;
        for (at, symbol) in symbols.iter().enumerate() {
            cells.push(number_in(&mut found, *symbol, at as u32)?)?;
        }
        let height = symbols.len() as u32 / width;
        let picture = Picture::new(width, height, cells).unwrap();
        Ok((picture, Palette { symbols: found }))
    }

    /// How many symbols there are.
    pub fn len(&self) -> u32
        ensures value { result ≡ length self.now }
        ensures limit { length self.now ≤ MAX_COLOURS }
    {
        self.symbols.len() as u32
    }

    /// The symbol with this number.
    pub fn symbol(&self, number: u32) -> Symbol
        requires number_in { number < length self.now }
        ensures value { slice_get self.now number ≡ Some result }
        ensures inverse { symbol_number self.now result ≡ Some number }
    {
        self.symbols.as_slice()[number as usize]
    }

    /// The symbol's number, if it is in the palette.
    pub fn number(&self, symbol: Symbol) -> Option<u32>
        ensures exact { result ≡ symbol_number self.now symbol }
        ensures inverse { IfSome result (λ number. slice_get self.now number ≡ Some symbol) }
        ensures absent { IsNone result ↔ ¬ Contains self.now symbol }
    {
        let number = self.symbols.get_index_of(&symbol)?;
        Some(number as u32)
    }
}

/// The number that the symbol at pixel `at` has among those that were found: its own, or the next.
fn number_in(found: &mut IndexSet<Symbol>, symbol: Symbol, at: u32) -> Result<u32, PaletteFault>
    requires few { length found.old.keys ≤ MAX_COLOURS }
    ensures number { IfOk result (λ number.
        number ≡ position_or_len (same_symbol symbol) found.old.keys) }
    ensures kept { OnOk result (found.new.keys ≡ with_new same_symbol found.old.keys symbol) }
    ensures within { OnOk result (length found.new.keys ≤ MAX_COLOURS) }
    ensures past { (k : ℕ) → result ≡ Err (PaletteFault.TooManyColours k)
        → (k ≡ at) × (MAX_COLOURS < length (with_new same_symbol found.old.keys symbol)) }
{
    let (number, _new) = found.insert_full(symbol)?;
    if number >= MAX_COLOURS {
        return Err(PaletteFault::TooManyColours { at });
    }
    Ok(number as u32)
}
