//! What no clause says: the bytes of real files and streams, and that calls succeed where memory is left.

mod devices;
mod memory;
mod whole;

ghost use Rattle.std.specs.Prelude.{◌≤◌};

use std::alloc::{AllocError, Global};
use std::process::Abort;
use wfc_outside::{Folder, FolderFault, MemoryFolder};

fn folder_of(
    alloc: Global,
    piece: usize,
    files: &[(&str, &[u8])],
) -> Result<MemoryFolder, AllocError>
    requires some { 1 ≤ piece }
{
    let mut folder = MemoryFolder::new(alloc, piece);
    for (name, bytes) in files {
        let name = String::from_str(alloc, name)?;
        let bytes = Vec::from_slice(alloc, bytes)?;
        folder.add(name, bytes).map_err(|_| AllocError)?;
    }
    Ok(folder)
}

/// So many bytes, no two neighbouring pieces of which are the same.
fn counted_bytes(alloc: Global, count: u32) -> Result<Vec<u8>, AllocError> {
    let mut bytes = Vec::new(alloc);
    for k in 0..count {
        bytes.push((k % 251) as u8)?;
    }
    Ok(bytes)
}

/// What a folder gives from a place on, as much as there is room for, is this piece, or it fails so.
fn gives<F: Folder>(
    rt: &impl Abort,
    folder: &mut F,
    name: &str,
    at: u64,
    room: usize,
    want: Result<&[u8], FolderFault>,
) {
    let mut buf = [0; 8];
    assert!(rt; room <= 8);
    let got = match folder.read_at(name, at, &mut buf[..room]) {
        Ok(count) => Ok(&buf[..count]),
        Err(fault) => Err(fault),
    };
    assert_eq!(rt; got, want, "{name} at {at}");
}
