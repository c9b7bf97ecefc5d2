//! Folders and sinks in memory.

use super::{folder_of, gives};
use std::process::Abort;
use std::test::Fail;
use wfc_outside::{FolderFault, MemoryFolder, MemorySink, SinkFault, write_all};

#[test]
fn memory_folder_gives_pieces(rt: HostRuntime) -> Result<(), Fail> {
    let files: [(&str, &[u8]); 3] = [("a", b"hello"), ("b", b""), ("a", b"world!")];
    let mut folder = folder_of(rt.alloc(), 3, &files)?;
    folder.fail_at(8)?;
    folder.fail_at(9)?;
    gives(&rt, &mut folder, "a", 0, 8, Ok(b"wor"));
    gives(&rt, &mut folder, "a", 3, 8, Ok(b"ld!"));
    gives(&rt, &mut folder, "a", 4, 1, Ok(b"d"));
    gives(&rt, &mut folder, "a", 6, 8, Ok(b""));
    gives(&rt, &mut folder, "a", 9, 8, Ok(b""));
    gives(&rt, &mut folder, "b", 0, 8, Ok(b""));
    gives(&rt, &mut folder, "c", 0, 8, Err(FolderFault::Missing));
    gives(&rt, &mut folder, "a", 0, 8, Err(FolderFault::Failed));
    gives(&rt, &mut folder, "c", 0, 8, Err(FolderFault::Missing));
    gives(&rt, &mut folder, "a", 5, 8, Ok(b"!"));
    Ok(())
}

/// A sink takes so many of the bytes, or fails so.
fn takes(rt: &impl Abort, sink: &mut MemorySink, bytes: &[u8], want: Result<usize, SinkFault>) {
    assert_eq!(rt; sink.write(bytes), want);
}

/// A sink finishes or fails so, and has these bytes.
fn finishes(rt: &impl Abort, sink: &mut MemorySink, want: Result<(), SinkFault>, bytes: &[u8]) {
    assert_eq!(rt; sink.finish(), want);
    assert_eq!(rt; sink.bytes(), bytes);
}

#[test]
fn memory_sink_takes_pieces(rt: HostRuntime) -> Result<(), Fail> {
    let mut sink = MemorySink::new(rt.alloc(), 2, 5)?;
    sink.fail_at(3)?;
    takes(&rt, &mut sink, b"abc", Ok(2));
    takes(&rt, &mut sink, b"", Ok(0));
    takes(&rt, &mut sink, b"x", Err(SinkFault::Failed));
    takes(&rt, &mut sink, b"cd", Ok(2));
    takes(&rt, &mut sink, b"ef", Ok(1));
    takes(&rt, &mut sink, b"f", Err(SinkFault::Failed));
    takes(&rt, &mut sink, b"", Ok(0));
    finishes(&rt, &mut sink, Ok(()), b"abcde");
    Ok(())
}

/// A sink takes all of the bytes.
fn takes_all(rt: &impl Abort, sink: &mut MemorySink, bytes: &[u8]) {
    assert_eq!(rt; write_all(sink, bytes), Ok(()));
}

#[test]
fn a_sink_fails_to_finish_where_asked(rt: HostRuntime) -> Result<(), Fail> {
    let mut sink = MemorySink::new(rt.alloc(), 2, 9)?;
    finishes(&rt, &mut sink, Ok(()), b"");
    sink.fail_finish();
    takes_all(&rt, &mut sink, b"abc");
    finishes(&rt, &mut sink, Err(SinkFault::Failed), b"abc");
    takes_all(&rt, &mut sink, b"d");
    finishes(&rt, &mut sink, Err(SinkFault::Failed), b"abcd");
    Ok(())
}
