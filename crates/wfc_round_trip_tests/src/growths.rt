//! Maps that are grown block by block, and blocks that are stuck.

use super::cores::folder_with;
use std::alloc::Global;
use std::process::Abort;
use std::test::Fail;
use wfc_outside::{MemoryFolder, MemorySink};
use wfc_rows::{Row, first_wrong_row, status_of_words};

static GROW: [Row; 13] = [
    (
        "grow chk.txt 2 3 3 --wrap-in --block 2 --pins a.pins",
        0,
        "aba\nbab\naba\n",
        "",
    ),
    (
        "grow chk.txt 2 3 3 --wrap-in --block 2 --pins a.pins --form cells",
        0,
        "0 1 0\n1 0 1\n0 1 0\n",
        "",
    ),
    // The first block keeps its last column for the second, whose windows the sample doesn't have.
    (
        "grow chk.txt 2 3 2 --block 2",
        8,
        "stuck 1 0 2 2 pins 2\npin 0 0 b\npin 0 1 a\nwfc-refutation 2\ncells 1 values 1\nfor 2 2 2 1 1 0 0\nx 0\nq\n",
        "wfc: grow stuck x=1 y=0\n",
    ),
    (
        "grow chk.txt 2 10 10 --block 2",
        4,
        "",
        "wfc: grow TooManyBlocks count=81\n",
    ),
    ("grow chk.txt 2 1 3", 4, "", "wfc: build SizeBelowN\n"),
    (
        "grow chk.txt 2 3 3 --wrap-in --pins out.pins",
        4,
        "",
        "wfc: build PinOutside line=1 file=out.pins\n",
    ),
    (
        "grow chk.txt 2 3 3 --wrap-in --pins z.pins",
        4,
        "",
        "wfc: build UnknownSymbol line=1 file=z.pins\n",
    ),
    (
        "grow chk.txt 2 3 3 --form p6 --pins none.pins",
        4,
        "",
        "wfc: render FormDiffers\n",
    ),
    (
        "grow chk.txt 2 3 3 --pins none.pins",
        5,
        "",
        "wfc: device Missing file=none.pins\n",
    ),
    (
        "grow lines.toml tiles 3 3",
        3,
        "",
        "wfc: command value MODEL\n",
    ),
    (
        "grow chk.txt 2 3 3 --block 1",
        3,
        "",
        "wfc: command value block\n",
    ),
    (
        "grow chk.txt 2 3 3 --rule ranked",
        3,
        "",
        "wfc: command value rule\n",
    ),
    ("grow chk.txt 2 3", 3, "", "wfc: command refused\n"),
];

#[test]
fn maps_by_blocks(rt: HostRuntime) -> Result<(), Fail> {
    assert_eq!(rt; first_wrong_row(rt.alloc(), 1, &GROW)?, None);
    assert_eq!(rt; first_wrong_row(rt.alloc(), 64, &GROW)?, None);
    Ok(())
}

/// How many bytes the sinks of these tests take.
const ROOM: usize = 20_000;

/// What a command line writes over this folder, with this status.
fn written(
    rt: &(impl Abort + AllocGlobal),
    folder: &mut MemoryFolder,
    line: &str,
    status: u8,
) -> Result<MemorySink, Fail> {
    let mut out = MemorySink::new(rt.alloc(), 4000, ROOM)?;
    let mut err = MemorySink::new(rt.alloc(), 4000, ROOM)?;
    let got = status_of_words(rt.alloc(), line, folder, &mut out, &mut err)?;
    assert_eq!(rt; got, status, "{line}");
    Ok(out)
}

/// What was cut out of the text of a stuck block: the sides of the block, the lines of its pins, and its refutation.
#[derive(Drop)]
struct Cut {
    sides: String,
    pins: Vec<u8>,
    proof: Vec<u8>,
}

/// Cuts the text of a stuck block into its parts.
fn parts_of(alloc: Global, text: &str) -> Result<Cut, Fail> {
    let mut sides = String::new(alloc);
    let mut pins = String::new(alloc);
    let mut proof = String::new(alloc);
    for line in text.lines() {
        if line.starts_with("stuck ") {
            for word in line.split_whitespace().skip(3).take(2) {
                sides.push_str(word)?;
                sides.push(' ')?;
            }
        } else if proof.is_empty() && (line.starts_with("pin ") || line.starts_with("ban ")) {
            pins.push_str(line)?;
            pins.push('\n')?;
        } else {
            proof.push_str(line)?;
            proof.push('\n')?;
        }
    }
    Ok(Cut {
        sides,
        pins: Vec::from_slice(alloc, pins.as_bytes())?,
        proof: Vec::from_slice(alloc, proof.as_bytes())?,
    })
}

/// A text with another byte in this place, counted from its end.
fn broken(alloc: Global, text: &[u8], place: usize, byte: u8) -> Result<Vec<u8>, Fail> {
    let mut other = Vec::from_slice(alloc, text)?;
    let at = text.len().wrapping_sub(place);
    if let Some(entry) = other.get_mut(at) {
        *entry = byte;
    }
    Ok(other)
}

/// The refutation of a stuck block is accepted with its pins. With another byte in it, or with two others in the pins, it
/// isn't.
fn is_refuted(rt: &(impl Abort + AllocGlobal), sample: &str, rest: &str) -> Result<(), Fail> {
    let alloc = rt.alloc();
    let line = format!(in alloc; "grow {sample} {rest}")?;
    let mut folder = folder_with(alloc, Vec::new(alloc), b"")?;
    let out = written(rt, &mut folder, &line, 8)?;
    let text = String::from_utf8(Vec::from_slice(alloc, out.bytes())?)
        .ok()
        .ok_or("no text")?;
    let parts = parts_of(alloc, &text)?;
    let sides = &parts.sides;
    let check = format!(in alloc; "check {sample} {sides}refutation --pins lines")?;
    let pins = Vec::from_slice(alloc, &parts.pins)?;
    let mut whole = folder_with(alloc, pins, &parts.proof)?;
    let accepted = written(rt, &mut whole, &check, 0)?;
    assert_eq!(rt; accepted.bytes(), b"accepted\n".as_slice(), "{check}");
    let pins = Vec::from_slice(alloc, &parts.pins)?;
    let proof = broken(alloc, &parts.proof, 4, b'7')?;
    let mut other = folder_with(alloc, pins, &proof)?;
    written(rt, &mut other, &check, 1)?;
    let pins = broken(alloc, &broken(alloc, &parts.pins, 2, b'b')?, 12, b'a')?;
    let mut turned = folder_with(alloc, pins, &parts.proof)?;
    written(rt, &mut turned, &check, 1)?;
    Ok(())
}

#[test]
fn stuck_blocks_are_refuted(rt: HostRuntime) -> Result<(), Fail> {
    is_refuted(&rt, "chk.txt 2", "3 2 --block 2")
}
