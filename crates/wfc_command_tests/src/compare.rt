//! What comes of a command line, compared with what is to come.

use std::process::Abort;
use std::test::Fail;
use wfc_outside::{Folder, MemoryFolder, MemorySink};
use wfc_rows::{Row, first_wrong, status_of_words};

/// What comes of a row that runs over these devices is what it says.
pub fn check<F: Folder>(
    rt: &(impl Abort + AllocGlobal),
    row: Row,
    folder: &mut F,
    mut out: MemorySink,
    mut err: MemorySink,
) -> Result<(), Fail> {
    let wrong = first_wrong(rt.alloc(), row, folder, &mut out, &mut err)?;
    assert_eq!(rt; wrong, None, "{}", row.0);
    Ok(())
}

/// A sink of a command line took a front of these bytes, and so many of them.
pub fn has_front(rt: &impl Abort, line: &str, sink: &MemorySink, bytes: &[u8], count: usize) {
    assert_eq!(rt; sink.bytes().len(), count, "{line}");
    assert!(rt; bytes.starts_with(sink.bytes()), "{line}");
}

/// A command line that runs over these devices has this status.
pub fn runs_to(
    rt: &(impl Abort + AllocGlobal),
    line: &str,
    folder: &mut MemoryFolder,
    out: &mut MemorySink,
    err: &mut MemorySink,
    status: u8,
) -> Result<(), Fail> {
    let got = status_of_words(rt.alloc(), line, folder, out, err)?;
    assert_eq!(rt; got, status, "{line}");
    Ok(())
}
