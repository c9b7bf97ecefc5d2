//! Real files and streams, and writers that take little or nothing.

use super::{counted_bytes, gives};
use std::alloc::Global;
use std::io::ErrorKind;
use std::process::Abort;
use std::rt::Files;
use std::test::Fail;
use std::{fs, io};
use wfc_outside::{
    DiskFolder, FolderFault, MAX_FILE_BYTES, SinkFault, StderrSink, StdoutSink, read_all, write_all,
};

#[test]
fn files_on_disk_are_read(rt: HostRuntime) -> Result<(), Fail> {
    let (name, none) = ("wfc_outside_some_file", "wfc_outside_no_file");
    fs::write(&rt, name, "some bytes")?;
    let mut folder = DiskFolder::new(&rt);
    gives(&rt, &mut folder, name, 5, 8, Ok(b"bytes"));
    gives(&rt, &mut folder, name, 10, 8, Ok(b""));
    gives(&rt, &mut folder, none, 0, 8, Err(FolderFault::Missing));
    gives(&rt, &mut folder, ".", 0, 8, Err(FolderFault::Failed));
    gives(&rt, &mut folder, name, 0, 8, Ok(b"some byt"));
    let whole = read_all(rt.alloc(), &mut folder, name, 10);
    fs::remove_file(&rt, name)?;
    assert_eq!(rt; whole?.as_slice(), b"some bytes".as_slice());
    Ok(())
}

#[test]
fn a_long_file_on_disk_is_read(rt: HostRuntime) -> Result<(), Fail> {
    let name = "wfc_outside_long_file";
    let bytes = counted_bytes(rt.alloc(), 200000)?;
    fs::write(&rt, name, bytes.as_slice())?;
    let mut folder = DiskFolder::new(&rt);
    let whole = read_all(rt.alloc(), &mut folder, name, MAX_FILE_BYTES);
    fs::remove_file(&rt, name)?;
    assert!(rt; whole == Ok(bytes));
    Ok(())
}

#[test]
fn a_file_replaced_meanwhile_is_read_as_it_was(rt: HostRuntime) -> Result<(), Fail> {
    let (name, other) = ("wfc_outside_old_file", "wfc_outside_new_file");
    fs::write(&rt, name, "the old bytes")?;
    fs::write(&rt, other, "all new bytes")?;
    let mut folder = DiskFolder::new(&rt);
    gives(&rt, &mut folder, name, 0, 4, Ok(b"the "));
    fs::rename(&rt, other, name)?;
    gives(&rt, &mut folder, name, 4, 4, Ok(b"old "));
    // It is opened anew after another name was asked for.
    gives(&rt, &mut folder, other, 0, 4, Err(FolderFault::Missing));
    gives(&rt, &mut folder, name, 4, 4, Ok(b"new "));
    fs::remove_file(&rt, name)?;
    Ok(())
}

/// A name of so many bytes.
fn name_of(alloc: Global, count: usize) -> Result<String, Fail> {
    let name = String::from_utf8(vec![in alloc; b'a'; count]?);
    Ok(name.ok().ok_or("the name is no text")?)
}

/// A name of so many bytes fails so.
fn name_fails<R: Files>(
    rt: &impl Abort,
    alloc: Global,
    folder: &mut DiskFolder<'_, R>,
    count: usize,
    fault: FolderFault,
) -> Result<(), Fail> {
    let name = name_of(alloc, count)?;
    let got = folder.read_at(&name, 0, &mut [0; 4]);
    assert_eq!(rt; got, Err(fault), "{count} bytes");
    Ok(())
}

#[test]
fn a_name_that_is_too_long_has_failed(rt: HostRuntime) -> Result<(), Fail> {
    let mut folder = DiskFolder::new(&rt);
    name_fails(&rt, rt.alloc(), &mut folder, 255, FolderFault::Missing)?;
    for count in [300, 4096, 4097, 5000] {
        name_fails(&rt, rt.alloc(), &mut folder, count, FolderFault::Failed)?;
    }
    Ok(())
}

/// A writer that takes nothing and fails when it is flushed.
#[derive(Drop)]
struct Stuck;

impl io::Write for Stuck {
    fn write(&mut self, _buf: &[u8]) -> io::Result<usize> {
        Ok(0)
    }

    fn flush(&mut self) -> io::Result<()> {
        Err(io::Error::from(ErrorKind::BrokenPipe))
    }
}

/// A writer that takes one byte a call, and fails once it has no room left.
#[derive(Drop)]
struct OneByOne {
    taken: Vec<u8>,
    room: usize,
}

impl io::Write for OneByOne {
    fn write(&mut self, buf: &[u8]) -> io::Result<usize> {
        let Some(byte) = buf.first() else {
            return Ok(0);
        };
        if self.taken.len() >= self.room {
            return Err(io::Error::from(ErrorKind::BrokenPipe));
        }
        self.taken.push(*byte)?;
        Ok(1)
    }

    fn flush(&mut self) -> io::Result<()> {
        Ok(())
    }
}

#[test]
fn streams_take_what_their_writer_takes(rt: HostRuntime) -> Result<(), Fail> {
    let mut out = Vec::new(rt.alloc());
    let mut sink = StdoutSink::new(&mut out);
    assert_eq!(rt; write_all(&mut sink, b"a map"), Ok(()));
    assert_eq!(rt; sink.finish(), Ok(()));
    assert_eq!(rt; out.as_slice(), b"a map".as_slice());
    Ok(())
}

#[test]
fn a_stream_fails_where_its_writer_takes_nothing(rt: HostRuntime) {
    let mut stuck = StderrSink::new(Stuck);
    assert_eq!(rt; stuck.write(b""), Ok(0));
    assert_eq!(rt; stuck.write(b"x"), Err(SinkFault::Failed));
    assert_eq!(rt; stuck.finish(), Err(SinkFault::Failed));
}

/// A writer with so much room is given a map byte by byte, and has taken this.
fn takes_one_by_one(
    rt: &impl Abort,
    alloc: Global,
    room: usize,
    want: Result<(), SinkFault>,
    taken: &[u8],
) {
    let mut writer = OneByOne {
        taken: Vec::new(alloc),
        room,
    };
    let mut sink = StdoutSink::new(&mut writer);
    assert_eq!(rt; write_all(&mut sink, b"a map"), want);
    assert_eq!(rt; sink.finish(), Ok(()));
    assert_eq!(rt; writer.taken.as_slice(), taken);
}

#[test]
fn a_writer_may_take_one_byte_a_call(rt: HostRuntime) {
    takes_one_by_one(&rt, rt.alloc(), 9, Ok(()), b"a map");
    takes_one_by_one(&rt, rt.alloc(), 5, Ok(()), b"a map");
    takes_one_by_one(&rt, rt.alloc(), 3, Err(SinkFault::Failed), b"a m");
}

#[test]
fn the_real_streams_are_written(rt: HostRuntime) {
    let mut out = StdoutSink::new(rt.stdout());
    let told = write_all(&mut out, b"a line on the standard output\n");
    assert_eq!(rt; told, Ok(()));
    assert_eq!(rt; out.finish(), Ok(()));
}

#[test]
fn the_real_error_stream_is_written(rt: HostRuntime) {
    let mut err = StderrSink::new(rt.stderr());
    let told = write_all(&mut err, b"a line on the error stream\n");
    assert_eq!(rt; told, Ok(()));
    assert_eq!(rt; err.finish(), Ok(()));
}
