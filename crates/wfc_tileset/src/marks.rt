//! Tables of what is allowed: a flag for each two variants, in a row for each first one.

ghost use Rattle.std.specs.Prelude.{◌≡◌, ◌*◌, ◌+◌, ◌<◌, [], false, length, IfOk, slice_index_or};
ghost use Rattle.std.specs.List.{All, flat_map};
ghost use Rattle.wfc_tileset.specs.Tiles.{variant_total, moved_pair};
ghost use Rattle.wfc_tileset.specs.Allowed.{pairs_beside, upright_pairs, beside_by, stacked_by, IsPair};
ghost use Rattle.wfc_tileset.specs.Numbers.{IsVariant, with_flag, all_marked, pair_table};

use crate::tile::Pair;
use crate::variants::Variants;
use std::alloc::Global;
use wfc_outside::NoMemory;

/// The table of left and right variants.
pub fn across_table(
    alloc: Global,
    variants: &Variants,
    pairs: &[Pair],
) -> Result<Vec<bool>, NoMemory>
    requires pairs { All (IsPair variants.now) pairs.now }
    ensures exact { IfOk result (λ flags. flags.items
        ≡ pair_table variants.now (flat_map (beside_by variants.now) pairs.now)) }
{
    let mut flags = blank_table(alloc, variants)?;
    for pair in pairs {
        let left = variants.named_variant(pair.left);
        let right = variants.named_variant(pair.right);
        mark_beside(&mut flags, variants, left, right);
    }
    Ok(flags)
}

/// The table of upper and lower variants.
pub fn down_table(alloc: Global, variants: &Variants, pairs: &[Pair]) -> Result<Vec<bool>, NoMemory>
    requires pairs { All (IsPair variants.now) pairs.now }
    ensures exact { IfOk result (λ flags. flags.items
        ≡ pair_table variants.now (flat_map (stacked_by variants.now) pairs.now)) }
{
    let mut flags = blank_table(alloc, variants)?;
    for pair in pairs {
        let upper = variants.moved_variant(variants.named_variant(pair.right), 1);
        let lower = variants.moved_variant(variants.named_variant(pair.left), 1);
        mark_stacked(&mut flags, variants, upper, lower);
    }
    Ok(flags)
}

/// Whether a table has the flag of two variants.
#[inline]
pub fn is_marked(flags: &[bool], variants: &Variants, v: u16, w: u16) -> bool
    requires v_in { v < variant_total variants.now }
    requires w_in { w < variant_total variants.now }
    requires square { length flags.now ≡ variant_total variants.now * variant_total variants.now }
    ensures value { result ≡ slice_index_or flags.now (v * variant_total variants.now + w) false }
{
    let side = variants.count() as usize;
    flags[v as usize * side + w as usize]
}

/// A table without flags.
fn blank_table(alloc: Global, variants: &Variants) -> Result<Vec<bool>, NoMemory>
    ensures none { IfOk result (λ flags. flags.items ≡ pair_table variants.now []) }
{
    let side = variants.count() as usize;
    let flags = vec![in alloc; false; side * side]?;
    Ok(flags)
}

/// Marks what a left and a right variant allow.
fn mark_beside(flags: &mut [bool], variants: &Variants, left: (u32, u8), right: (u32, u8))
    requires left { IsVariant variants.now left }
    requires right { IsVariant variants.now right }
    requires square { length flags.old ≡ variant_total variants.now * variant_total variants.now }
    ensures marked { flags.new
        ≡ all_marked variants.now flags.old (pairs_beside variants.now left right) }
{
    mark(flags, variants, left, right);
    mark_image(flags, variants, left, right, 6);
    mark_image(flags, variants, right, left, 4);
    mark_image(flags, variants, right, left, 2);
}

/// Marks what an upper and a lower variant allow.
fn mark_stacked(flags: &mut [bool], variants: &Variants, upper: (u32, u8), lower: (u32, u8))
    requires upper { IsVariant variants.now upper }
    requires lower { IsVariant variants.now lower }
    requires square { length flags.old ≡ variant_total variants.now * variant_total variants.now }
    ensures marked { flags.new
        ≡ all_marked variants.now flags.old (upright_pairs variants.now upper lower) }
{
    mark(flags, variants, upper, lower);
    mark_image(flags, variants, lower, upper, 6);
    mark_image(flags, variants, upper, lower, 4);
    mark_image(flags, variants, lower, upper, 2);
}

/// Sets the flag of what action `k` makes of two variants.
fn mark_image(flags: &mut [bool], variants: &Variants, v: (u32, u8), w: (u32, u8), k: u8)
    requires v { IsVariant variants.now v }
    requires w { IsVariant variants.now w }
    requires action_in { k < 8 }
    requires square { length flags.old ≡ variant_total variants.now * variant_total variants.now }
    ensures marked { flags.new ≡ with_flag variants.now flags.old (moved_pair variants.now v w k) }
{
    mark(
        flags,
        variants,
        variants.moved_variant(v, k),
        variants.moved_variant(w, k),
    );
}

/// Sets the flag of two variants.
fn mark(flags: &mut [bool], variants: &Variants, v: (u32, u8), w: (u32, u8))
    requires v { IsVariant variants.now v }
    requires w { IsVariant variants.now w }
    requires square { length flags.old ≡ variant_total variants.now * variant_total variants.now }
    ensures marked { flags.new ≡ with_flag variants.now flags.old (v, w) }
{
    let side = variants.count() as usize;
    let row = variants.number(v) as usize;
    let column = variants.number(w) as usize;
    flags[row * side + column] = true;
}
