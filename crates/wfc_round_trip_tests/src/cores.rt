//! The lines of a pins file that are to blame.

use std::alloc::{AllocError, Global};
use std::process::Abort;
use std::test::Fail;
use wfc_outside::{MemoryFolder, MemorySink};
use wfc_rows::{Row, first_wrong_row, folder_of, status_of_words};

static EXPLAIN: [Row; 9] = [
    // The first line contradicts the second, which contradicts the third too.
    (
        "explain chk.txt 2 3 3 --wrap-in --pins core.pins",
        0,
        "core 2\nneeded 2\nneeded 3\n",
        "",
    ),
    ("explain chk.txt 2 3 2 --pins a.pins", 0, "core 0\n", ""),
    (
        "explain chk.txt 2 2 2 --pins a.pins",
        1,
        "",
        "wfc: map exists\n",
    ),
    (
        "explain chk.txt 2 3 3 --wrap-in --wrap-out --budget 0 --pins a.pins",
        0,
        "core 1\nundecided 1\n",
        "",
    ),
    (
        "explain chk.txt 2 3 3 --wrap-in --wrap-out --budget 0 --pins no.pins",
        2,
        "",
        "wfc: budget spent budget=0\n",
    ),
    (
        "explain chk.txt 2 3 3 --wrap-in --pins out.pins",
        4,
        "",
        "wfc: build PinOutside line=1 file=out.pins\n",
    ),
    (
        "explain chk.txt 2 3 3 --pins none.pins",
        5,
        "",
        "wfc: device Missing file=none.pins\n",
    ),
    ("explain chk.txt 2 3 3", 3, "", "wfc: command refused\n"),
    (
        "explain chk.txt 2 3 3 --pins a.pins --rule ranked",
        3,
        "",
        "wfc: command value rule\n",
    ),
];

#[test]
fn lines_to_blame(rt: HostRuntime) -> Result<(), Fail> {
    assert_eq!(rt; first_wrong_row(rt.alloc(), 1, &EXPLAIN)?, None);
    assert_eq!(rt; first_wrong_row(rt.alloc(), 64, &EXPLAIN)?, None);
    Ok(())
}

/// A problem, how its runs are made, the lines of its pins file, and which of them are to blame, counted from 1.
type Blame = (
    &'static str,
    &'static str,
    &'static [&'static str],
    &'static [usize],
);

/// Of two checkerboards the lines ask for the one or the other. The last line is needed, and the last that asks for the other
/// one. Of tiles that go on in a row the last line that forbids that is needed.
static BLAMES: [Blame; 12] = [
    (
        "chk.txt 2 3 3 --wrap-in",
        "",
        &["pin 0 0 a", "pin 0 0 b"],
        &[1, 2],
    ),
    (
        "chk.txt 2 3 3 --wrap-in",
        "",
        &["pin 0 0 a", "pin 1 0 a"],
        &[1, 2],
    ),
    (
        "chk.txt 2 3 3 --wrap-in",
        "",
        &["ban 0 0 a", "ban 0 0 b"],
        &[1, 2],
    ),
    (
        "chk.txt 2 3 3 --wrap-in",
        "",
        &["pin 0 0 a", "pin 2 2 a", "pin 1 0 a"],
        &[2, 3],
    ),
    (
        "chk.txt 2 3 3 --wrap-in",
        "",
        &["pin 0 0 a", "pin 1 0 a", "pin 2 1 a"],
        &[1, 3],
    ),
    (
        "chk.txt 2 3 3 --wrap-in",
        "",
        &["pin 1 1 b", "ban 0 0 b", "pin 2 0 b", "ban 1 0 a"],
        &[3, 4],
    ),
    (
        "chk.txt 2 5 4 --wrap-in",
        "",
        &["pin 4 3 a", "pin 0 0 b", "ban 3 3 b"],
        &[2, 3],
    ),
    (
        "chk.txt 2 5 4 --wrap-in",
        "--rule scanline",
        &[
            "pin 0 0 a",
            "pin 1 1 a",
            "pin 2 2 a",
            "pin 4 3 a",
            "pin 3 2 a",
        ],
        &[3, 5],
    ),
    (
        "chk.txt 2 7 5 --wrap-in",
        "--seed 9",
        &["ban 6 4 a", "pin 6 3 b", "ban 5 3 b"],
        &[1, 3],
    ),
    ("lines.toml tiles 3 1", "", &["pin 1 0 line/1"], &[1]),
    (
        "lines.toml tiles 3 1",
        "",
        &["pin 1 0 line/1", "pin 0 0 line/0", "ban 2 0 line/0"],
        &[3],
    ),
    (
        "lines.toml tiles 4 1",
        "",
        &["ban 0 0 line/0", "ban 3 0 line/0", "ban 1 0 line/1"],
        &[2],
    ),
];

/// How many bytes the sinks of these tests take.
const ROOM: usize = 20_000;

/// The lines in these places, counted from 1, but one of them.
fn text_of(
    alloc: Global,
    lines: &[&str],
    places: &[usize],
    left_out: usize,
) -> Result<Vec<u8>, AllocError> {
    let mut text = Vec::new(alloc);
    for place in places {
        if let Some(line) = lines.get(place.wrapping_sub(1)) {
            if *place != left_out {
                text.extend_from_slice(line.as_bytes())?;
                text.push(b'\n')?;
            }
        }
    }
    Ok(text)
}

/// The files of the tests, with this pins file and this refutation.
pub(super) fn folder_with(
    alloc: Global,
    pins: Vec<u8>,
    refutation: &[u8],
) -> Result<MemoryFolder, Fail> {
    let mut folder = folder_of(alloc, 4000)?;
    folder.add(String::from_str(alloc, "lines")?, pins)?;
    folder.add(
        String::from_str(alloc, "refutation")?,
        Vec::from_slice(alloc, refutation)?,
    )?;
    Ok(folder)
}

/// What a command writes with this pins file, with status 0.
fn answer(
    rt: &(impl Abort + AllocGlobal),
    command: &str,
    words: &str,
    pins: Vec<u8>,
    refutation: &[u8],
) -> Result<MemorySink, Fail> {
    let alloc = rt.alloc();
    let line = format!(in alloc; "{command} {words} --pins lines")?;
    let mut folder = folder_with(alloc, pins, refutation)?;
    let mut out = MemorySink::new(alloc, 4000, ROOM)?;
    let mut err = MemorySink::new(alloc, 4000, ROOM)?;
    let status = status_of_words(alloc, &line, &mut folder, &mut out, &mut err)?;
    assert_eq!(rt; status, 0, "{line}");
    Ok(out)
}

/// The core of a request is this one: a refutation of its lines is accepted, and without each of them there is a map.
fn is_blamed(rt: &(impl Abort + AllocGlobal), blame: Blame) -> Result<(), Fail> {
    let alloc = rt.alloc();
    let (problem, run, lines, core) = blame;
    let words = format!(in alloc; "{problem} {run}")?;
    let mut all = Vec::new(alloc);
    let mut text = format!(in alloc; "core {}\n", core.len())?;
    for place in 1..=lines.len() {
        all.push(place)?;
        if core.contains(&place) {
            text.push_str(&format!(in alloc; "needed {place}\n")?)?;
        }
    }
    let said = answer(rt, "explain", &words, text_of(alloc, lines, &all, 0)?, b"")?;
    assert_eq!(rt; said.bytes(), text.as_bytes(), "{problem}");
    let proof = answer(rt, "refute", &words, text_of(alloc, lines, core, 0)?, b"")?;
    let checked = format!(in alloc; "{problem} refutation")?;
    let pins = text_of(alloc, lines, core, 0)?;
    let accepted = answer(rt, "check", &checked, pins, proof.bytes())?;
    assert_eq!(rt; accepted.bytes(), b"accepted\n".as_slice(), "{problem}");
    for place in core {
        answer(
            rt,
            "fill",
            &words,
            text_of(alloc, lines, core, *place)?,
            b"",
        )?;
    }
    Ok(())
}

#[test]
fn a_dozen_cores(rt: HostRuntime) -> Result<(), Fail> {
    for blame in &BLAMES {
        is_blamed(&rt, *blame)?;
    }
    Ok(())
}
