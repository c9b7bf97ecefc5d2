//! The images of a window, turned by quarter turns and reflected, and what the same does to the variants of a tile.
#![tactic(auto)]

ghost use Rattle.std.specs.Prelude.{◌≡◌, ◌*◌, ◌<◌, length, IfOk};
ghost use Rattle.wfc_model.specs.Image.{image, reflected, rotated};

mod class;
pub mod laws;

pub use class::{Class, act, cardinality};
use std::alloc::Global;
use std::mem;
use wfc_outside::NoMemory;

/// Image `k` of a window of n by n numbers, row by row. Image 0 is the window itself, an even image is the quarter
/// turn, counter-clockwise, of the even one before, and an odd image is the reflection of the one before it. The
/// order is that of the overlapping model of [WaveFunctionCollapse](https://github.com/mxgmn/WaveFunctionCollapse).
pub fn image(alloc: Global, window: &[u32], n: u32, k: u8) -> Result<Vec<u32>, NoMemory>
    requires image_in { k < 8 }
    requires square { length window.now ≡ n * n }
    ensures exact { IfOk result (λ v. v.items ≡ image n window.now k) }
{
    let mut turned = Vec::from_slice(alloc, window)?;
    let mut other = Vec::from_slice(alloc, window)?;
    for _turn in 0..k / 2 {
        rotate_into(&turned, n, &mut other);
        mem::swap(&mut turned, &mut other);
    }
    if k % 2 == 0 {
        return Ok(turned);
    }
    reflect_into(&turned, n, &mut other);
    Ok(other)
}

/// Writes the window of n by n numbers into `out`, with each row the other way round. Takes no memory.
pub fn reflect_into(window: &[u32], n: u32, out: &mut [u32])
    requires square { length window.now ≡ n * n }
    requires room { length out.old ≡ n * n }
    ensures exact { out.new ≡ reflected n window.now }
{
    let side = n as usize;
    let mut x = 0;
    let mut y = 0;
    for cell in out.iter_mut() {
        *cell = window[y * side + (side - 1 - x)];
        x += 1;
        if x == side {
            x = 0;
            y += 1;
        }
    }
}

/// Writes the window of n by n numbers into `out`, after a quarter turn, counter-clockwise. Takes no memory.
pub fn rotate_into(window: &[u32], n: u32, out: &mut [u32])
    requires square { length window.now ≡ n * n }
    requires room { length out.old ≡ n * n }
    ensures exact { out.new ≡ rotated n window.now }
{
    let side = n as usize;
    let mut x = 0;
    let mut y = 0;
    for cell in out.iter_mut() {
        *cell = window[x * side + (side - 1 - y)];
        x += 1;
        if x == side {
            x = 0;
            y += 1;
        }
    }
}
