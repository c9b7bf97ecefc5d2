//! Whole files that are read, and whole pieces that are written.

ghost use Rattle.wfc_outside.specs.MemoryFolder.{seen_folder};

use super::{counted_bytes, folder_of};
use std::alloc::Global;
use std::process::Abort;
use std::test::Fail;
use wfc_outside::{
    Folder, FolderFault, MAX_FILE_BYTES, MemoryFolder, MemorySink, ReadFault, SinkFault, read_all,
    write_all,
};

/// A file that is read whole within a limit has these bytes, or isn't read so.
fn reads(
    rt: &impl Abort,
    alloc: Global,
    folder: &mut MemoryFolder,
    name: &str,
    limit: u64,
    want: Result<&[u8], ReadFault>,
) {
    assert!(rt; limit <= 16777216);
    let got = read_all(alloc, folder, name, limit);
    let got = match &got {
        Ok(bytes) => Ok(bytes.as_slice()),
        Err(fault) => Err(*fault),
    };
    assert_eq!(rt; got, want, "{name} within {limit}");
}

/// Reads files whole that are given in pieces of this size.
fn reads_by_pieces(rt: &impl Abort, alloc: Global, piece: usize) -> Result<(), Fail> {
    assert!(rt; 1 <= piece);
    let files: [(&str, &[u8]); 2] = [("ten", b"0123456789"), ("empty", b"")];
    let mut folder = folder_of(alloc, piece, &files)?;
    reads(rt, alloc, &mut folder, "ten", 10, Ok(b"0123456789"));
    reads(rt, alloc, &mut folder, "ten", 11, Ok(b"0123456789"));
    reads(rt, alloc, &mut folder, "ten", 9, Err(ReadFault::TooLong));
    reads(rt, alloc, &mut folder, "ten", 0, Err(ReadFault::TooLong));
    reads(rt, alloc, &mut folder, "empty", 0, Ok(b""));
    reads(rt, alloc, &mut folder, "empty", 16777216, Ok(b""));
    reads(rt, alloc, &mut folder, "other", 10, Err(ReadFault::Missing));
    Ok(())
}

#[test]
fn whole_files_are_read(rt: HostRuntime) -> Result<(), Fail> {
    for piece in [1, 3, 100] {
        reads_by_pieces(&rt, rt.alloc(), piece)?;
    }
    Ok(())
}

/// The file of ten bytes, read in pieces of one byte where a call fails, isn't read so, or is read.
fn fails_at(
    rt: &impl Abort,
    alloc: Global,
    call: u64,
    want: Option<ReadFault>,
) -> Result<(), Fail> {
    let mut folder = folder_of(alloc, 1, &[("ten", b"0123456789")])?;
    folder.fail_at(call)?;
    let got = read_all(alloc, &mut folder, "ten", 10);
    assert_eq!(rt; got.err(), want, "call {call}");
    Ok(())
}

#[test]
fn each_failing_call_fails_the_reading(rt: HostRuntime) -> Result<(), Fail> {
    // Ten pieces of one byte, and one call more that finds the end.
    for call in 1..=11 {
        fails_at(&rt, rt.alloc(), call, Some(ReadFault::Failed))?;
    }
    fails_at(&rt, rt.alloc(), 12, None)
}

#[test]
fn a_long_file_is_read_in_large_pieces(rt: HostRuntime) -> Result<(), Fail> {
    let bytes = counted_bytes(rt.alloc(), 200000)?;
    let mut folder = folder_of(rt.alloc(), usize::MAX, &[("long", bytes.as_slice())])?;
    // Twenty-five pieces, and one call more that finds the end.
    folder.fail_at(27)?;
    let got = read_all(rt.alloc(), &mut folder, "long", 200000);
    assert!(rt; got == Ok(bytes));
    Ok(())
}

/// A folder with a file that is as long as one that is read whole may be.
fn longest(alloc: Global) -> Result<MemoryFolder, Fail> {
    let mut folder = MemoryFolder::new(alloc, usize::MAX);
    let name = String::from_str(alloc, "longest")?;
    folder.add(name, vec![in alloc; 7; MAX_FILE_BYTES as usize]?)?;
    Ok(folder)
}

#[test]
fn the_longest_file_is_read(rt: HostRuntime) -> Result<(), Fail> {
    let mut folder = longest(rt.alloc())?;
    let bytes = read_all(rt.alloc(), &mut folder, "longest", MAX_FILE_BYTES)?;
    assert_eq!(rt; bytes.len() as u64, MAX_FILE_BYTES);
    Ok(())
}

#[test]
fn the_longest_file_is_too_long_for_less(rt: HostRuntime) -> Result<(), Fail> {
    let mut folder = longest(rt.alloc())?;
    let got = read_all(rt.alloc(), &mut folder, "longest", MAX_FILE_BYTES - 1);
    assert_eq!(rt; got.err(), Some(ReadFault::TooLong));
    assert_eq!(rt; folder.bytes_given(), MAX_FILE_BYTES);
    Ok(())
}

/// A folder in memory that keeps what it is asked for: the end of the farthest piece, and whether every name was `ten`.
#[derive(Drop)]
struct Recorder {
    folder: MemoryFolder,
    farthest: u64,
    only_ten: bool,
}

impl Folder for Recorder {
    ghost seen = { λ f. seen_folder f.folder };

    ghost bytes_given = { λ f. f.folder.given };

    fn read_at(&mut self, name: &str, at: u64, buf: &mut [u8]) -> Result<usize, FolderFault> {
        self.farthest = self.farthest.max(at.saturating_add(buf.len() as u64));
        self.only_ten = self.only_ten && name == "ten";
        Folder::read_at(&mut self.folder, name, at, buf)
    }
}

/// Whether the file of ten bytes is read within a limit, whether every name that is asked for is `ten`, and the end of the
/// farthest piece.
fn asked(
    rt: &impl Abort,
    alloc: Global,
    piece: usize,
    limit: u64,
) -> Result<(bool, bool, u64), Fail> {
    assert!(rt; 1 <= piece && limit <= 200000);
    let files: [(&str, &[u8]); 2] = [("one", b"1"), ("ten", b"0123456789")];
    let mut folder = Recorder {
        folder: folder_of(alloc, piece, &files)?,
        farthest: 0,
        only_ten: true,
    };
    let got = read_all(alloc, &mut folder, "ten", limit);
    Ok((got.is_ok(), folder.only_ten, folder.farthest))
}

/// Reads the file of ten bytes within a limit, which must ask for no more than may be.
fn asks_within(rt: &impl Abort, alloc: Global, piece: usize, limit: u64) -> Result<(), Fail> {
    let (read, only_ten, farthest) = asked(rt, alloc, piece, limit)?;
    assert!(rt; only_ten && read == (limit >= 10), "within {limit}");
    assert!(rt;
        farthest <= limit.saturating_add(1),
        "{farthest} within {limit}"
    );
    Ok(())
}

#[test]
fn nothing_but_one_byte_past_the_limit_is_asked_for(rt: HostRuntime) -> Result<(), Fail> {
    for piece in [1, 3, 100] {
        for limit in [0, 1, 9, 10, 11, 12, 8190, 8191, 8192, 200000] {
            asks_within(&rt, rt.alloc(), piece, limit)?;
        }
    }
    Ok(())
}

/// Writes bytes whole into a sink that fails at a call, and looks at what it has taken.
fn writes(
    rt: &impl Abort,
    mut sink: MemorySink,
    fails: u64,
    bytes: &[u8],
    want: Result<(), SinkFault>,
    taken: &[u8],
) -> Result<(), Fail> {
    sink.fail_at(fails)?;
    assert_eq!(rt; write_all(&mut sink, bytes), want);
    assert_eq!(rt; sink.bytes(), taken);
    Ok(())
}

#[test]
fn whole_pieces_are_written(rt: HostRuntime) -> Result<(), Fail> {
    let (text, failed) = (b"a legal map", Err(SinkFault::Failed));
    let sink = MemorySink::new(rt.alloc(), 1, 9)?;
    writes(&rt, sink, 0, text, failed, b"a legal m")?;
    let sink = MemorySink::new(rt.alloc(), 1, 11)?;
    writes(&rt, sink, 0, text, Ok(()), b"a legal map")?;
    let sink = MemorySink::new(rt.alloc(), 4, 11)?;
    writes(&rt, sink, 2, text, failed, b"a le")?;
    let sink = MemorySink::new(rt.alloc(), 4, 11)?;
    writes(&rt, sink, 4, text, Ok(()), b"a legal map")?;
    let sink = MemorySink::new(rt.alloc(), 4, 0)?;
    writes(&rt, sink, 0, b"", Ok(()), b"")
}

#[test]
fn a_long_text_is_written(rt: HostRuntime) -> Result<(), Fail> {
    let bytes = counted_bytes(rt.alloc(), 200000)?;
    let mut sink = MemorySink::new(rt.alloc(), 65536, 200000)?;
    assert_eq!(rt; write_all(&mut sink, &bytes), Ok(()));
    assert!(rt; sink.bytes() == bytes.as_slice());
    Ok(())
}
