//! Command lines with what they answer, run over files and sinks in memory: what the tests of the whole program share.
#![tactic(auto)]

ghost use Rattle.std.specs.Prelude.{◌≡◌, ◌≤◌, [], IfNone, IfOk};

mod files;

use files::{BOX_FILES, FILES, TILE_FILES};
use std::alloc::{AllocError, Global};
use wfc_choose::{Buckets, Chooser, Scanning};
use wfc_cli::run;
use wfc_outside::{Folder, MemoryFolder, MemorySink};

/// A folder with the files that command lines name, which gives so many bytes at a time.
pub fn folder_of(alloc: Global, piece: usize) -> Result<MemoryFolder, AllocError>
    requires some { 1 ≤ piece }
{
    let mut folder = MemoryFolder::new(alloc, piece);
    add_all(alloc, &mut folder, &FILES)?;
    add_all(alloc, &mut folder, &TILE_FILES)?;
    add_all(alloc, &mut folder, &BOX_FILES)?;
    Ok(folder)
}

fn add_all(
    alloc: Global,
    folder: &mut MemoryFolder,
    files: &[(&'static str, &'static str)],
) -> Result<(), AllocError> {
    for (name, text) in files {
        let name = String::from_str(alloc, name)?;
        let bytes = Vec::from_slice(alloc, text.as_bytes())?;
        folder.add(name, bytes).map_err(|_| AllocError)?;
    }
    Ok(())
}

/// A sink with room enough that never fails.
pub fn sink_of(alloc: Global, piece: usize) -> Result<MemorySink, AllocError>
    requires some { 1 ≤ piece }
    ensures empty { IfOk result (λ sink. sink.bytes ≡ []) }
    ensures piece { IfOk result (λ sink. sink.piece ≡ piece) }
{
    MemorySink::new(alloc, piece, 500).map_err(|_| AllocError)
}

/// The words of a command line, parted by blanks; no words where it is empty.
fn words_of(alloc: Global, line: &str) -> Result<Vec<String>, AllocError> {
    let mut words = Vec::new(alloc);
    for word in line.split_whitespace() {
        words.push(String::from_str(alloc, word)?)?;
    }
    Ok(words)
}

/// A command line with its status, its answer and its line on the error stream.
pub type Row = (&'static str, u8, &'static str, &'static str);

/// What may come otherwise than a row says.
#[derive(Clone, Copy, Debug, PartialEq, Eq)]
pub enum RowPart {
    Status,
    Answer,
    ErrorStream,
}

/// The status of a command line over these devices, with 65 choosers of the least cell and as many of the fewest values.
pub fn status_of_words<F: Folder>(
    alloc: Global,
    line: &str,
    folder: &mut F,
    out: &mut MemorySink,
    err: &mut MemorySink,
) -> Result<u8, AllocError> {
    let words = words_of(alloc, line)?;
    let mut choosers: Vec<Box<dyn Chooser>> = Vec::new(alloc);
    for _ in 0..65 {
        choosers.push(Box::new(alloc, Scanning::scanline(alloc))?)?;
        choosers.push(Box::new(alloc, Buckets::new(alloc))?)?;
    }
    Ok(run(alloc, &words, folder, out, err, choosers))
}

/// What came of a command line otherwise than its row says: the first of the parts, if there is one.
fn wrong_part(row: Row, status: u8, out: &MemorySink, err: &MemorySink) -> Option<RowPart>
    ensures none { IfNone result ((status ≡ row.entry.1)
        × (out.now.bytes ≡ row.entry.2.now) × (err.now.bytes ≡ row.entry.3.now)) }
{
    if status != row.1 {
        return Some(RowPart::Status);
    }
    if out.bytes() != row.2.as_bytes() {
        return Some(RowPart::Answer);
    }
    if err.bytes() != row.3.as_bytes() {
        return Some(RowPart::ErrorStream);
    }
    None
}

/// Runs a row over these devices, and tells what comes of it otherwise than it says: the first of the parts, if there is one.
pub fn first_wrong<F: Folder>(
    alloc: Global,
    row: Row,
    folder: &mut F,
    out: &mut MemorySink,
    err: &mut MemorySink,
) -> Result<Option<RowPart>, AllocError>
    ensures none { IfOk result (λ wrong. IfNone wrong
        ((out.new.bytes ≡ row.entry.2.now) × (err.new.bytes ≡ row.entry.3.now))) }
{
    let status = status_of_words(alloc, row.0, folder, out, err)?;
    Ok(wrong_part(row, status, out, err))
}

/// Runs rows over devices that give and take so many bytes at a time, each row over new ones. Answers the first command line
/// of which something comes otherwise than its row says, and what.
pub fn first_wrong_row(
    alloc: Global,
    piece: usize,
    rows: &[Row],
) -> Result<Option<(&'static str, RowPart)>, AllocError>
    requires some { 1 ≤ piece }
{
    for row in rows {
        let mut folder = folder_of(alloc, piece)?;
        let mut out = sink_of(alloc, piece)?;
        let mut err = sink_of(alloc, piece)?;
        if let Some(part) = first_wrong(alloc, *row, &mut folder, &mut out, &mut err)? {
            return Ok(Some((row.0, part)));
        }
    }
    Ok(None)
}
