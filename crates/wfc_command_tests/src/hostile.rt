//! Devices that fail at each of their calls in turn, and pieces of one byte.

ghost use Rattle.std.specs.Prelude.{◌≤◌};

use crate::compare::{check, has_front, runs_to};
use std::alloc::{AllocError, Global};
use std::process::Abort;
use std::test::Fail;
use wfc_outside::{MemoryFolder, MemorySink};
use wfc_rows::{folder_of, status_of_words};

/// More calls than any line makes.
const MOST_CALLS: u64 = 200;

const GRID: &str = "fill chk.txt 2 2 2";

const PICTURE: &str = "fill one.ppm 1 2 1";

const REFUTATION: &str = "check chk.txt 2 3 2 one.ref";

const TILES: &str = "fill corner.toml tiles 2 1 --pins corner.pins";

/// A town of 16 by 16, which is filled without a retraction.
const TOWN: &str = "fill streets.txt 3 48 48 --symmetry 8 --wrap-in --seed 1 --budget 0";

const BLOCK: &str = "################\n#...#...#...#...\n#...#...#...#...\n#...#...#...#...\n";

const BLOCKS: usize = 4;

/// The files of the tests, and the town.
fn folder_with_town(alloc: Global, piece: usize) -> Result<MemoryFolder, AllocError>
    requires some { 1 ≤ piece }
{
    let mut folder = folder_of(alloc, piece)?;
    let mut town = Vec::new(alloc);
    for _ in 0..BLOCKS {
        town.extend_from_slice(BLOCK.as_bytes())?;
    }
    let name = String::from_str(alloc, "streets.txt")?;
    folder.add(name, town).map_err(|_| AllocError)?;
    Ok(folder)
}

/// A sink with room for each answer and line of these tests.
fn sink_with_room(alloc: Global, piece: usize) -> Result<MemorySink, AllocError>
    requires some { 1 ≤ piece }
{
    MemorySink::new(alloc, piece, 3000).map_err(|_| AllocError)
}

/// What a line writes over devices that give and take so many bytes at a time: its status is 0, and nothing is told.
fn whole(rt: &(impl Abort + AllocGlobal), line: &str, piece: usize) -> Result<MemorySink, Fail>
    requires some { 1 ≤ piece }
{
    let mut folder = folder_with_town(rt.alloc(), piece)?;
    let mut out = sink_with_room(rt.alloc(), piece)?;
    let mut err = sink_with_room(rt.alloc(), piece)?;
    runs_to(rt, line, &mut folder, &mut out, &mut err, 0)?;
    assert_eq!(rt; err.bytes(), b"".as_slice(), "{line}");
    Ok(out)
}

/// Each call of `read_at` fails in turn, where each gives five bytes: with status 5, and nothing is written. Behind so
/// many calls there is none left to fail.
fn check_reads(rt: &(impl Abort + AllocGlobal), line: &str, calls: u64) -> Result<(), Fail> {
    let answer = whole(rt, line, 4000)?;
    for call in 1..MOST_CALLS {
        if is_behind_the_reads(rt, line, call, &answer)? {
            assert_eq!(rt; call - 1, calls, "{line}");
            return Ok(());
        }
    }
    fail(rt, line)
}

/// Whether a call of `read_at` is behind the last one: then nothing fails. Where it's none, it fails, and nothing is
/// written.
fn is_behind_the_reads(
    rt: &(impl Abort + AllocGlobal),
    line: &str,
    call: u64,
    answer: &MemorySink,
) -> Result<bool, Fail> {
    let mut folder = folder_with_town(rt.alloc(), 5)?;
    folder.fail_at(call)?;
    let mut out = sink_with_room(rt.alloc(), 100)?;
    let mut err = sink_with_room(rt.alloc(), 100)?;
    let status = status_of_words(rt.alloc(), line, &mut folder, &mut out, &mut err)?;
    if status == 0 {
        assert_eq!(rt; out.bytes(), answer.bytes(), "{line}");
        return Ok(true);
    }
    assert_eq!(rt; status, 5, "{line}");
    assert_eq!(rt; out.bytes(), b"".as_slice(), "{line}");
    tells_of_a_file(rt, line, &err);
    Ok(false)
}

/// It's told of a file, and not of the output, that it failed.
fn tells_of_a_file(rt: &impl Abort, line: &str, err: &MemorySink) {
    assert!(rt; err.bytes().starts_with(b"wfc: device Failed "), "{line}");
    assert!(rt;
        err.bytes() != b"wfc: device Failed out\n".as_slice(),
        "{line}"
    );
}

/// Each call of `write` of the output fails in turn, where each takes so many bytes: with status 5, and what it took is
/// a front of the answer. Behind so many calls there is none left to fail.
fn check_writes(
    rt: &(impl Abort + AllocGlobal),
    line: &str,
    piece: usize,
    calls: u64,
) -> Result<(), Fail>
    requires some { 1 ≤ piece }
{
    let answer = whole(rt, line, 4000)?;
    for call in 1..MOST_CALLS {
        if is_behind_the_writes(rt, line, piece, call, &answer)? {
            assert_eq!(rt; call - 1, calls, "{line}");
            return Ok(());
        }
    }
    fail(rt, line)
}

/// Whether a call of `write` is behind the last one: then nothing fails. Where it's none, it fails, and the calls in
/// front of it took so many bytes each.
fn is_behind_the_writes(
    rt: &(impl Abort + AllocGlobal),
    line: &str,
    piece: usize,
    call: u64,
    answer: &MemorySink,
) -> Result<bool, Fail>
    requires some { 1 ≤ piece }
    requires counted { 1 ≤ call }
{
    let mut folder = folder_with_town(rt.alloc(), 100)?;
    let mut out = sink_with_room(rt.alloc(), piece)?;
    out.fail_at(call)?;
    let mut err = sink_with_room(rt.alloc(), 100)?;
    let status = status_of_words(rt.alloc(), line, &mut folder, &mut out, &mut err)?;
    if status == 0 {
        assert_eq!(rt; out.bytes(), answer.bytes(), "{line}");
        return Ok(true);
    }
    assert_eq!(rt; status, 5, "{line}");
    let taken = (call - 1).saturating_mul(piece as u64);
    has_front(rt, line, &out, answer.bytes(), taken as usize);
    assert_eq!(rt;
        err.bytes(),
        b"wfc: device Failed out\n".as_slice(),
        "{line}"
    );
    Ok(false)
}

/// Fails the test of a line that has more calls than any.
fn fail(rt: &(impl Abort + AllocGlobal), line: &str) -> Result<(), Fail> {
    assert!(rt; false, "{line}");
    Ok(())
}

/// A line writes so many bytes, and the same ones over devices that give and take one at a time.
fn check_bytes(rt: &(impl Abort + AllocGlobal), line: &str, count: usize) -> Result<(), Fail> {
    let answer = whole(rt, line, 4000)?;
    assert_eq!(rt; answer.bytes().len(), count, "{line}");
    let same = whole(rt, line, 1)?;
    assert_eq!(rt; same.bytes(), answer.bytes(), "{line}");
    Ok(())
}

/// Each file is read up to its end: a call for each five bytes, and one more.
#[test]
fn each_read_fails(rt: HostRuntime) -> Result<(), Fail> {
    check_reads(&rt, GRID, 3)?;
    check_reads(&rt, PICTURE, 5)?;
    check_reads(&rt, TILES, 34)?;
    check_reads(&rt, REFUTATION, 14)?;
    check_reads(&rt, TOWN, 56)
}

#[test]
fn each_write_fails(rt: HostRuntime) -> Result<(), Fail> {
    check_writes(&rt, GRID, 2, 3)?;
    check_writes(&rt, PICTURE, 3, 6)?;
    check_writes(&rt, TILES, 3, 4)?;
    check_writes(&rt, REFUTATION, 2, 5)?;
    check_writes(&rt, TOWN, 240, 10)
}

#[test]
fn pieces_of_one_byte_change_nothing(rt: HostRuntime) -> Result<(), Fail> {
    check_bytes(&rt, GRID, 6)?;
    check_bytes(&rt, PICTURE, 17)?;
    check_bytes(&rt, TILES, 10)?;
    check_bytes(&rt, REFUTATION, 9)?;
    check_bytes(&rt, TOWN, 2352)
}

/// An output with room for 100 bytes has these of a town.
#[test]
fn a_full_output_has_a_front(rt: HostRuntime) -> Result<(), Fail> {
    let answer = whole(&rt, TOWN, 4000)?;
    let mut folder = folder_with_town(rt.alloc(), 100)?;
    let mut out = MemorySink::new(rt.alloc(), 4000, 100)?;
    let mut err = sink_with_room(rt.alloc(), 100)?;
    runs_to(&rt, TOWN, &mut folder, &mut out, &mut err, 5)?;
    has_front(&rt, TOWN, &out, answer.bytes(), 100);
    assert_eq!(rt;
        err.bytes(),
        b"wfc: device Failed out\n".as_slice(),
        "{TOWN}"
    );
    Ok(())
}

/// The whole answer was taken, and then finishing failed.
#[test]
fn finishing_fails(rt: HostRuntime) -> Result<(), Fail> {
    let mut folder = folder_of(rt.alloc(), 100)?;
    let mut out = sink_with_room(rt.alloc(), 100)?;
    out.fail_finish();
    let err = sink_with_room(rt.alloc(), 100)?;
    let row = (
        "fill chk.txt 2 2 2",
        5,
        "ab\nba\n",
        "wfc: device Failed out\n",
    );
    check(&rt, row, &mut folder, out, err)
}

/// An error stream that fails at its first call changes neither the status nor the output.
#[test]
fn an_error_stream_fails_at_once(rt: HostRuntime) -> Result<(), Fail> {
    let mut folder = folder_of(rt.alloc(), 100)?;
    let out = sink_with_room(rt.alloc(), 100)?;
    let mut err = sink_with_room(rt.alloc(), 100)?;
    err.fail_at(1)?;
    check(
        &rt,
        ("fill chk.txt 2 3 2", 1, "", ""),
        &mut folder,
        out,
        err,
    )
}
