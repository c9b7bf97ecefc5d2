//! Thin adapters over the files and streams of the runtime. They tell nothing of the bytes, and count their faults.

ghost use Rattle.std.specs.Prelude.{◌≡◌, ◌<◌, ◌≤◌, length, IfOk, None};
ghost use Rattle.std.specs.Io.KnownBytes.{Keeps, WriteAppends};
ghost use Rattle.wfc_outside.specs.Count.{CountsFaults, HasRisen, next_count};
ghost use Rattle.wfc_outside.specs.Stream.{seen_stream};

use crate::count::one_more;
use crate::{Folder, FolderFault, Sink, SinkFault};
use std::io::{ErrorKind, Read, Seek, SeekFrom};
use std::marker::Model;
use std::rt::Files;
use std::{fs, io};

/// How many bytes a name may have: more than any path that the system opens.
const NAME_ROOM: usize = 4096;

/// An open file, with the name that it was opened by.
#[derive(Drop)]
struct OpenFile<F> {
    file: F,
    name: [u8; NAME_ROOM],
    len: usize,
    ghost fits: { len ≤ 4096 },
}

impl<F: Read + Seek> OpenFile<F> {
    /// Opens the named file, where its name is short enough to be one.
    fn open<R: Files<File = F>>(rt: &R, name: &str) -> io::Result<OpenFile<F>> {
        let len = name.len();
        if len > NAME_ROOM {
            return Err(io::Error::from(ErrorKind::InvalidFilename));
        }
        let file = fs::open(rt, name)?;
        let mut kept = [0; NAME_ROOM];
        kept[..len].copy_from_slice(name.as_bytes());
        Ok(OpenFile {
            file,
            name: kept,
            len,
        })
    }

    fn is_named(&self, name: &str) -> bool {
        &self.name[..self.len] == name.as_bytes()
    }

    fn read_at(&mut self, at: u64, buf: &mut [u8]) -> io::Result<usize>
        ensures within { IfOk result (λ n. n ≤ length buf.new) }
    {
        self.file.seek(SeekFrom::Start(at))?;
        self.file.read(buf)
    }
}

/// The files of the runtime. A name is a path. It is opened once for all calls in a row that ask for it, so that a file
/// that is replaced meanwhile is still read as it was opened. Opening a pipe that nobody writes waits for a writer.
///
/// A file that isn't found is `Missing`, and every other error is `Failed`. One count serves all names, and rises at
/// each of both.
#[derive(Drop)]
pub struct DiskFolder<'r, R: Files> {
    rt: &'r R,
    last: Option<OpenFile<R::File>>,
    faults: u64,
}

impl<'r, R: Files> Model for DiskFolder<'r, R> {
    ghost use Rattle.std.specs.Prelude.{ℕ};

    ghost Value = { ℕ };

    ghost view = { λ f. f.faults };
}

impl<'r, R: Files> DiskFolder<'r, R> {
    /// A folder with the count 0.
    pub fn new(rt: &'r R) -> DiskFolder<'r, R>
        ensures fresh { result ≡ 0 }
    {
        DiskFolder {
            rt,
            last: None,
            faults: 0,
        }
    }

    /// Reads from the file that was opened last, where it has this name, or else from the named one.
    fn read_named(&mut self, name: &str, at: u64, buf: &mut [u8]) -> io::Result<usize>
        ensures within { IfOk result (λ n. n ≤ length buf.new) }
        ensures uncounted { self.new ≡ self.old }
    {
        if let Some(file) = &mut self.last {
            if file.is_named(name) {
                return file.read_at(at, buf);
            }
        }
        self.last = None;
        let file = self.last.insert(OpenFile::open(self.rt, name)?);
        file.read_at(at, buf)
    }

    /// As `Folder` has it. Its count rises at each error.
    pub fn read_at(&mut self, name: &str, at: u64, buf: &mut [u8]) -> Result<usize, FolderFault>
        ensures within { IfOk result (λ n. n ≤ length buf.new) }
        ensures counts { CountsFaults self.old self.new result }
    {
        match self.read_named(name, at, buf) {
            Ok(count) => Ok(count),
            Err(error) => {
                self.faults = one_more(self.faults);
                match error.kind() {
                    ErrorKind::NotFound => Err(FolderFault::Missing),
                    _ => Err(FolderFault::Failed),
                }
            }
        }
    }
}

impl<R: Files> Folder for DiskFolder<'_, R> {
    ghost seen = { λ f. record { contents = None; faults = λ _. f } };

    ghost bytes_given = { λ _. 0 };

    fn read_at(&mut self, name: &str, at: u64, buf: &mut [u8]) -> Result<usize, FolderFault> {
        DiskFolder::read_at(self, name, at, buf)
    }
}

/// A sink that passes its bytes on to a writer.
///
/// A writer that takes nothing of a piece that isn't empty has failed.
#[derive(Drop)]
pub struct StreamSink<W> {
    writer: W,
    faults: u64,
}

/// The standard output, by its writer.
pub type StdoutSink<W> = StreamSink<W>;

/// The standard error stream, by its writer.
pub type StderrSink<W> = StreamSink<W>;

impl<W> Model for StreamSink<W> {
    ghost use Rattle.wfc_outside.specs.Stream.{StreamView};

    ghost Value = { StreamView W };

    ghost view = { λ s. record { writer = s.writer; faults = s.faults } };
}

impl<W: io::Write> StreamSink<W> {
    /// A sink with the count 0.
    pub fn new(writer: W) -> StreamSink<W>
        ensures fresh { result ≡ record { writer = writer; faults = 0 } }
    {
        StreamSink { writer, faults: 0 }
    }

    fn fault(&mut self) -> SinkFault
        ensures one_more { self.new ≡ record self.old { faults = next_count self.old.faults } }
        ensures counted { HasRisen self.old.faults self.new.faults }
    {
        self.faults = one_more(self.faults);
        SinkFault::Failed
    }

    /// As `Sink` has it. The writer gets exactly the bytes that are answered as taken, and the count rises at each fault.
    pub fn write(&mut self, bytes: &[u8]) -> Result<usize, SinkFault>
        ensures passed_on { WriteAppends (W.contents self.old.writer) (W.contents self.new.writer)
            result bytes.now }
        ensures within { IfOk result (λ n. n ≤ length bytes.now) }
        ensures some { IfOk result (λ n. 0 < length bytes.now → 0 < n) }
        ensures counts { CountsFaults self.old.faults self.new.faults result }
    {
        match self.writer.write(bytes) {
            Ok(count) if count > 0 || bytes.is_empty() => Ok(count),
            _ => Err(self.fault()),
        }
    }

    /// As `Sink` has it. It flushes the writer, which gets no byte more.
    pub fn finish(&mut self) -> Result<(), SinkFault>
        ensures kept { Keeps (W.contents self.old.writer) (W.contents self.new.writer) }
        ensures counts { CountsFaults self.old.faults self.new.faults result }
    {
        match self.writer.flush() {
            Ok(()) => Ok(()),
            Err(_) => Err(self.fault()),
        }
    }
}

impl<W: io::Write> Sink for StreamSink<W> {
    ghost seen = { seen_stream };

    fn write(&mut self, bytes: &[u8]) -> Result<usize, SinkFault> {
        StreamSink::write(self, bytes)
    }

    fn finish(&mut self) -> Result<(), SinkFault> {
        StreamSink::finish(self)
    }
}
