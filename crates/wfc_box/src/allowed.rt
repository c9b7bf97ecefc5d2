//! Which variants may stand on which.

ghost use Rattle.std.specs.Prelude.{◌≡◌, ◌↔◌, ◌+◌, ◌*◌, ◌<◌, ◌++◌, ◌∷◌, [], false, true, All, IfOk};
ghost use Rattle.std.specs.Prelude.{IsTrue, OnOk, length, replicate, slice_index_or, slice_set};
ghost use Rattle.wfc_tileset.specs.Tiles.{variant_total};
ghost use Rattle.wfc_box.specs.StackTable.{AreVariantPairs, AreStackFlags};
ghost use Rattle.wfc_box.specs.Stacks.{IsStack, IsStacked, is_stacked, stacked_of, stacked_pairs, turned_stack};

use crate::stack::Stack;
use std::alloc::Global;
use std::marker::Model;
use wfc_outside::NoMemory;
use wfc_tileset::TileSet;

/// The pairs of a lower and an upper variant that stacks allow, by their numbers. A flag is kept
/// for each two variants.
#[derive(Drop)]
pub struct Stacks {
    side: u16,
    pairs: Vec<(u16, u16)>,
    flags: Vec<bool>,
}

impl Model for Stacks {
    ghost use Rattle.std.specs.Prelude.{ℕ, List};
    ghost use Rattle.wfc_box.specs.StackTable.{IsStackTable};

    ghost Value = { List (ℕ × ℕ) };

    ghost view = { λ s. s.pairs.items };

    ghost invariant = { λ s. IsStackTable s.side s.pairs.items s.flags.items };
}

impl Stacks {
    /// What declared stacks of a tile set allow. Its time is linear in the stacks and in the square
    /// of the number of variants.
    pub fn new(alloc: Global, tiles: &TileSet, stacks: &[Stack]) -> Result<Stacks, NoMemory>
        requires stacks { All (IsStack tiles.now.tiles) stacks.now }
        ensures value { IfOk result (λ made. made ≡ stacked_pairs tiles.now.tiles stacks.now) }
    {
        let side = tiles.variants();
        let pairs = pairs_of(alloc, tiles, stacks)?;
        let flags = flags_of(alloc, side, &pairs)?;
        Ok(Stacks { side, pairs, flags })
    }

    /// Whether a variant may stand on another.
    #[inline]
    pub fn on(&self, lower: u16, upper: u16) -> bool
        ensures value { result ≡ is_stacked self.now lower upper }
        ensures allowed { IsTrue result ↔ IsStacked self.now lower upper }
    {
        self.has(lower, upper)
    }

    /// Whether one of the pairs is this one.
    #[inline]
    fn has(&self, lower: u16, upper: u16) -> bool
        ensures value { result ≡ is_stacked self.now lower upper }
    {
        if lower >= self.side || upper >= self.side {
            return false;
        }
        flag(&self.flags, self.side, lower, upper)
    }
}

/// The flag of two variants.
#[inline]
fn flag(flags: &[bool], side: u16, lower: u16, upper: u16) -> bool
    requires lower_in { lower < side }
    requires upper_in { upper < side }
    requires square { length flags.now ≡ side * side }
    ensures value { result ≡ slice_index_or flags.now (lower * side + upper) false }
{
    flags[lower as usize * side as usize + upper as usize]
}

/// The pairs that declared stacks allow.
fn pairs_of(alloc: Global, tiles: &TileSet, stacks: &[Stack]) -> Result<Vec<(u16, u16)>, NoMemory>
    requires stacks { All (IsStack tiles.now.tiles) stacks.now }
    ensures value { IfOk result (λ pairs. pairs.items ≡ stacked_pairs tiles.now.tiles stacks.now) }
    ensures within { IfOk result (λ pairs.
        AreVariantPairs (variant_total tiles.now.tiles) pairs.items) }
{
    let mut pairs = Vec::new(alloc);
    for stack in stacks {
        push_turned(&mut pairs, tiles, *stack)?;
    }
    Ok(pairs)
}

/// Writes what a declared stack allows behind the pairs.
fn push_turned(pairs: &mut Vec<(u16, u16)>, tiles: &TileSet, stack: Stack) -> Result<(), NoMemory>
    requires stack { IsStack tiles.now.tiles stack }
    requires within { AreVariantPairs (variant_total tiles.now.tiles) pairs.old.items }
    ensures pushed { OnOk result (pairs.new.items
        ≡ pairs.old.items ++ stacked_of tiles.now.tiles stack) }
    ensures within { OnOk result (AreVariantPairs (variant_total tiles.now.tiles) pairs.new.items) }
{
    for k in 0..8 {
        pairs.push(turned_pair(tiles, stack, k))?;
    }
    Ok(())
}

/// The lower and the upper variant of a declared stack, both after an action.
fn turned_pair(tiles: &TileSet, stack: Stack, k: u8) -> (u16, u16)
    requires stack { IsStack tiles.now.tiles stack }
    requires action_in { k < 8 }
    ensures value { result ≡ turned_stack tiles.now.tiles stack k }
    ensures lower_in { result.0 < variant_total tiles.now.tiles }
    ensures upper_in { result.1 < variant_total tiles.now.tiles }
{
    (
        tiles.image_of_end(stack.lower, k),
        tiles.image_of_end(stack.upper, k),
    )
}

/// The table with the flags of these pairs.
fn flags_of(alloc: Global, side: u16, pairs: &[(u16, u16)]) -> Result<Vec<bool>, NoMemory>
    requires within { AreVariantPairs side pairs.now }
    ensures flags { IfOk result (λ flags. AreStackFlags side pairs.now flags.items) }
{
    let mut flags = none_set(alloc, side)?;
    set_all(&mut flags, side, pairs);
    Ok(flags)
}

/// A table without flags.
fn none_set(alloc: Global, side: u16) -> Result<Vec<bool>, NoMemory>
    ensures none { IfOk result (λ flags. flags.items ≡ replicate (side * side) false) }
{
    let count = side as usize;
    Ok(vec![in alloc; false; count * count]?)
}

/// Sets the flags of pairs.
fn set_all(flags: &mut [bool], side: u16, pairs: &[(u16, u16)])
    requires within { AreVariantPairs side pairs.now }
    requires none { AreStackFlags side [] flags.old }
    ensures flags { AreStackFlags side pairs.now flags.new }
{
    for pair in pairs {
        set_flag(flags, side, *pair);
    }
}

/// Sets the flag of a pair.
fn set_flag(flags: &mut [bool], side: u16, pair: (u16, u16))
    requires lower_in { pair.0 < side }
    requires upper_in { pair.1 < side }
    requires square { length flags.old ≡ side * side }
    ensures set { flags.new ≡ slice_set flags.old (pair.0 * side + pair.1) true }
{
    flags[pair.0 as usize * side as usize + pair.1 as usize] = true;
}
