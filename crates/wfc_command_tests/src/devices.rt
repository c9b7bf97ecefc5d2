//! Devices that fail, and files that no command names.

ghost use Rattle.std.specs.Prelude.{◌≤◌};
ghost use Rattle.wfc_outside.specs.MemoryFolder.{seen_folder};

use crate::compare::{check, has_front, runs_to};
use std::process::Abort;
use std::test::Fail;
use wfc_cli::refuse;
use wfc_outside::{Folder, FolderFault, MemoryFolder, MemorySink};
use wfc_rows::{Row, folder_of, sink_of};
use wfc_words::CommandFault;

const LINE: &str = "fill chk.txt 2 3 3 --wrap-in --pins a.pins";

/// Runs a command whose folder fails at one of its calls. It gives so many bytes at a time, and one call more finds
/// the end of a file.
fn check_failing_folder(
    rt: &(impl Abort + AllocGlobal),
    piece: usize,
    call: u64,
    status: u8,
    answer: &'static str,
    told: &'static str,
) -> Result<(), Fail>
    requires some { 1 ≤ piece }
{
    let mut folder = folder_of(rt.alloc(), piece)?;
    folder.fail_at(call)?;
    let out = sink_of(rt.alloc(), 100)?;
    let err = sink_of(rt.alloc(), 100)?;
    check(rt, (LINE, status, answer, told), &mut folder, out, err)
}

#[test]
fn folders_fail(rt: HostRuntime) -> Result<(), Fail> {
    check_failing_folder(&rt, 2, 3, 5, "", "wfc: device Failed file=chk.txt\n")?;
    check_failing_folder(&rt, 100, 1, 5, "", "wfc: device Failed file=chk.txt\n")?;
    check_failing_folder(&rt, 100, 2, 5, "", "wfc: device Failed file=chk.txt\n")?;
    check_failing_folder(&rt, 100, 3, 5, "", "wfc: device Failed file=a.pins\n")?;
    check_failing_folder(&rt, 100, 4, 5, "", "wfc: device Failed file=a.pins\n")?;
    check_failing_folder(&rt, 100, 5, 0, "aba\nbab\naba\n", "")
}

/// Runs a command whose sink takes five bytes at a time, and fails at one of its calls.
fn check_failing_sink(
    rt: &(impl Abort + AllocGlobal),
    call: u64,
    status: u8,
    answer: &'static str,
    told: &'static str,
) -> Result<(), Fail> {
    let mut folder = folder_of(rt.alloc(), 100)?;
    let mut out = sink_of(rt.alloc(), 5)?;
    out.fail_at(call)?;
    let err = sink_of(rt.alloc(), 100)?;
    check(rt, (LINE, status, answer, told), &mut folder, out, err)
}

#[test]
fn sinks_fail(rt: HostRuntime) -> Result<(), Fail> {
    check_failing_sink(&rt, 1, 5, "", "wfc: device Failed out\n")?;
    check_failing_sink(&rt, 2, 5, "aba\nb", "wfc: device Failed out\n")?;
    check_failing_sink(&rt, 3, 5, "aba\nbab\nab", "wfc: device Failed out\n")?;
    check_failing_sink(&rt, 4, 0, "aba\nbab\naba\n", "")
}

/// The last flush fails: the whole answer was taken, and the call says that its device failed.
#[test]
fn sinks_fail_to_finish(rt: HostRuntime) -> Result<(), Fail> {
    let mut folder = folder_of(rt.alloc(), 100)?;
    let mut out = sink_of(rt.alloc(), 5)?;
    out.fail_finish();
    let err = sink_of(rt.alloc(), 100)?;
    let row = (LINE, 5, "aba\nbab\naba\n", "wfc: device Failed out\n");
    check(&rt, row, &mut folder, out, err)
}

/// A command line, and what a sink takes of its answer that has room for so many bytes.
type Cut = (&'static str, usize, &'static str);

static CUTS: [Cut; 7] = [
    ("refute chk.txt 2 3 2 --format 1", 0, ""),
    ("refute chk.txt 2 3 2 --format 1", 17, "wfc-refutation 1\n"),
    (
        "refute chk.txt 2 3 2 --format 1",
        36,
        "wfc-refutation 1\ncells 2 values 1\nr ",
    ),
    (
        "refute chk.txt 2 3 2 --format 1",
        47,
        "wfc-refutation 1\ncells 2 values 1\nr 0 0 2\nx 0\nq",
    ),
    (
        "refute col.txt 2 3 2",
        61,
        "wfc-refutation 2\ncells 2 values 2\nfor 2 3 2 1 1 0 0\nr 0 0 1 2",
    ),
    ("upgrade chk.txt 2 3 2 one.ref", 3, "wfc"),
    (
        "upgrade chk.txt 2 3 2 one.ref",
        63,
        "wfc-refutation 2\ncells 2 values 1\nfor 2 3 2 1 1 0 0\nr 0 0 0 2\nx",
    ),
];

/// A refutation is put while the run is made: a sink with too little room has a front of it.
#[test]
fn refutations_are_cut_off(rt: HostRuntime) -> Result<(), Fail> {
    for cut in &CUTS {
        is_cut_off(&rt, *cut)?;
    }
    Ok(())
}

/// A sink with too little room for a refutation has a front of it.
fn is_cut_off(rt: &(impl Abort + AllocGlobal), cut: Cut) -> Result<(), Fail> {
    let (line, room, front) = cut;
    let mut folder = folder_of(rt.alloc(), 100)?;
    let out = MemorySink::new(rt.alloc(), 5, room)?;
    let err = sink_of(rt.alloc(), 100)?;
    let row = (line, 5, front, "wfc: device Failed out\n");
    check(rt, row, &mut folder, out, err)
}

/// A folder in memory that counts its calls that ask for another file than these two.
#[derive(Drop)]
struct Recorder {
    folder: MemoryFolder,
    first: &'static str,
    second: &'static str,
    others: u32,
}

impl Folder for Recorder {
    ghost seen = { λ f. seen_folder f.folder };

    ghost bytes_given = { λ f. f.folder.given };

    fn read_at(&mut self, name: &str, at: u64, buf: &mut [u8]) -> Result<usize, FolderFault> {
        if name != self.first && name != self.second {
            self.others = self.others.saturating_add(1);
        }
        Folder::read_at(&mut self.folder, name, at, buf)
    }
}

/// The two files that a command line reads or looks for, and what comes of it. Where the second is missing, no file is read
/// that the line names behind it.
type Reading = (&'static str, &'static str, Row);

static READINGS: [Reading; 6] = [
    ("chk.txt", "a.pins", (LINE, 0, "aba\nbab\naba\n", "")),
    (
        "chk.txt",
        "gone.pins",
        (
            "fill chk.txt 2 3 3 --wrap-in --pins gone.pins",
            5,
            "",
            "wfc: device Missing file=gone.pins\n",
        ),
    ),
    (
        "gone.txt",
        "gone.txt",
        (
            "fill gone.txt 2 3 3 --wrap-in --pins a.pins",
            5,
            "",
            "wfc: device Missing file=gone.txt\n",
        ),
    ),
    (
        "lines.toml",
        "gone.pins",
        (
            "fill lines.toml tiles 3 1 --mask m.txt --pins gone.pins",
            5,
            "",
            "wfc: device Missing file=gone.pins\n",
        ),
    ),
    (
        "chk.txt",
        "gone.pins",
        (
            "domains chk.txt 2 3 2 --pins gone.pins --steps two.steps",
            5,
            "",
            "wfc: device Missing file=gone.pins\n",
        ),
    ),
    (
        "chk.txt",
        "gone.ref",
        (
            "check chk.txt 2 3 2 gone.ref",
            5,
            "",
            "wfc: device Missing file=gone.ref\n",
        ),
    ),
];

/// A command line reads no file but these two.
fn reads_no_other(rt: &(impl Abort + AllocGlobal), reading: Reading) -> Result<(), Fail> {
    let (first, second, row) = reading;
    let mut folder = Recorder {
        folder: folder_of(rt.alloc(), 100)?,
        first,
        second,
        others: 0,
    };
    let out = sink_of(rt.alloc(), 100)?;
    let err = sink_of(rt.alloc(), 100)?;
    check(rt, row, &mut folder, out, err)?;
    assert_eq!(rt; folder.others, 0, "{}", row.0);
    Ok(())
}

#[test]
fn no_file_is_read_that_is_not_named(rt: HostRuntime) -> Result<(), Fail> {
    for reading in &READINGS {
        reads_no_other(&rt, *reading)?;
    }
    Ok(())
}

/// An error stream with room for eight bytes, which takes seven at a time, changes nothing else.
#[test]
fn error_streams_fail(rt: HostRuntime) -> Result<(), Fail> {
    let mut folder = folder_of(rt.alloc(), 100)?;
    let out = sink_of(rt.alloc(), 100)?;
    let err = MemorySink::new(rt.alloc(), 7, 8)?;
    let row = ("fill chk.txt 2 3 2", 1, "", "wfc: no ");
    check(&rt, row, &mut folder, out, err)
}

/// What a program says that could not read its words.
#[test]
fn unread_words_are_told(rt: HostRuntime) -> Result<(), Fail> {
    let mut err = sink_of(rt.alloc(), 100)?;
    assert_eq!(rt; refuse(&mut err, CommandFault::NoMemory), 6);
    assert_eq!(rt; err.bytes(), b"wfc: out of memory\n".as_slice());
    Ok(())
}

const TOWN: &str = "fill town.txt 3 48 48 --symmetry 8 --wrap-in --seed 1 --budget 0";

/// Fills a town into this sink, with this status and these bytes on the error stream.
fn fill_a_town(
    rt: &(impl Abort + AllocGlobal),
    folder: &mut MemoryFolder,
    sink: &mut MemorySink,
    status: u8,
    told: &[u8],
) -> Result<(), Fail> {
    let mut err = sink_of(rt.alloc(), 100)?;
    runs_to(rt, TOWN, folder, sink, &mut err, status)?;
    assert_eq!(rt; err.bytes(), told, "{TOWN}");
    Ok(())
}

/// What a sink that takes so many bytes at a time and fails at a call took of a town.
fn town_of(
    rt: &(impl Abort + AllocGlobal),
    folder: &mut MemoryFolder,
    piece: usize,
    fails: u64,
    status: u8,
    told: &[u8],
) -> Result<MemorySink, Fail>
    requires some { 1 ≤ piece }
{
    let mut sink = MemorySink::new(rt.alloc(), piece, 4000)?;
    sink.fail_at(fails)?;
    fill_a_town(rt, folder, &mut sink, status, told)?;
    Ok(sink)
}

/// A town is filled without a retraction, at each run in the same way. A sink that fails has a front of it.
#[test]
fn towns_are_filled(rt: HostRuntime) -> Result<(), Fail> {
    let mut folder = folder_of(rt.alloc(), 16)?;
    let whole = town_of(&rt, &mut folder, 4000, 0, 0, b"")?;
    let again = town_of(&rt, &mut folder, 7, 0, 0, b"")?;
    let cut = town_of(&rt, &mut folder, 100, 2, 5, b"wfc: device Failed out\n")?;
    are_of_a_town(&rt, &whole, &again, &cut);
    Ok(())
}

/// What three sinks took of a town: the whole answer, the same again, and a front of it.
fn are_of_a_town(rt: &impl Abort, whole: &MemorySink, again: &MemorySink, cut: &MemorySink) {
    assert_eq!(rt; whole.bytes().len(), 2352);
    assert_eq!(rt; again.bytes(), whole.bytes(), "{TOWN}");
    has_front(rt, TOWN, cut, whole.bytes(), 100);
}
