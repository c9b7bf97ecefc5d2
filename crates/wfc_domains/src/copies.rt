//! Rows of bytes that are copied.

ghost use Rattle.std.specs.Prelude.{◌+◌, ◌≤◌, length};
ghost use Rattle.wfc_domains.specs.Loaded.{IsRowCopied};

/// Copies a row of bytes to a place behind it.
pub fn copy_row(bytes: &mut [u8], start: usize, row: usize, dest: usize)
    requires before { start + row ≤ dest }
    requires dest_in { dest + row ≤ length bytes.old }
    ensures copied { IsRowCopied bytes.old bytes.new start row dest }
{
    let (front, back) = bytes.split_at_mut(dest);
    back[..row].copy_from_slice(&front[start..start + row]);
}
