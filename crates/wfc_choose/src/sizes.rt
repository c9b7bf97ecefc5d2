//! Sizes as small numbers.

ghost use Rattle.std.specs.Prelude.{◌≡◌, ◌≤◌, All, IfOk};
ghost use Rattle.wfc_problem.specs.declared.TheConstants.{MAX_VALUES};

use std::alloc::{AllocError, Global};

/// The same sizes in half the memory.
pub fn narrow_sizes(alloc: Global, sizes: &[u32]) -> Result<Vec<u16>, AllocError>
    requires small { All (λ size. size ≤ MAX_VALUES) sizes.now }
    ensures same { IfOk result (λ narrow. narrow.items ≡ sizes.now) }
{
    let mut narrow = Vec::with_capacity(alloc, sizes.len())?;
    for size in sizes {
        narrow.push_reserved(*size as u16);
    }
    Ok(narrow)
}
