//! The rows of each command for boxes, and refutations of boxes that are written and read again.

use std::alloc::Global;
use std::process::Abort;
use std::test::Fail;
use wfc_outside::{MemoryFolder, MemorySink};
use wfc_rows::{Row, first_wrong_row, folder_of, status_of_words};

static FILL: [Row; 12] = [
    (
        "box-fill tower.toml 1 1 3 --pins tower.pins",
        0,
        "layer 0\n0\nlayer 1\n1\nlayer 2\n0\n",
        "",
    ),
    ("box-fill tower.toml 2 1 2", 1, "", "wfc: no map\n"),
    // Layers wrap, and a line doesn't go on beside itself.
    (
        "box-fill tower.toml 1 1 3 --wrap-out",
        1,
        "",
        "wfc: no map\n",
    ),
    (
        "box-fill house.toml 1 1 4 --pins house.pins --seed 3",
        0,
        "layer 0\n0\nlayer 1\n1\nlayer 2\n1\nlayer 3\n2\n",
        "",
    ),
    // Nothing stands on a roof.
    (
        "box-fill house.toml 1 1 1 --pins roof.pins",
        0,
        "layer 0\n2\n",
        "",
    ),
    (
        "box-fill house.toml 1 1 2 --pins roof.pins --rule scanline",
        1,
        "",
        "wfc: no map\n",
    ),
    (
        "box-fill piled.toml 2 1 2 --pins piled.pins",
        0,
        "layer 0\n....\n#..#\nlayer 1\n....\n#..#\n",
        "",
    ),
    (
        "box-fill piled.toml 2 1 2 --pins piled.pins --form cells",
        0,
        "layer 0\n1 2\nlayer 1\n1 2\n",
        "",
    ),
    (
        "box-fill tower.toml 1 1 257",
        3,
        "",
        "wfc: command value DEPTH\n",
    ),
    (
        "box-fill tower.toml 1 1 0",
        3,
        "",
        "wfc: command value DEPTH\n",
    ),
    ("box-fill tower.toml 1 1", 3, "", "wfc: command refused\n"),
    (
        "box-refute tower.toml 1 1 1 --pins tower.pins",
        1,
        "wfc-refutation 2\ncells 1 values 2\nfor 0 1 1 1 1 0 0\ns\n",
        "wfc: map exists\n",
    ),
];

/// Each command line has two faults at least, of which the first in the order is told.
static FAULTS: [Row; 14] = [
    (
        "box-fill none.toml 1 1 1 --rule ranked",
        7,
        "",
        "wfc: chooser missing rule=ranked\n",
    ),
    (
        "box-fill none.toml 1 1 1 --form grid --pins none.pins",
        5,
        "",
        "wfc: device Missing file=none.toml\n",
    ),
    (
        "box-fill torn.toml 1 1 1 --form grid",
        4,
        "",
        "wfc: tiles WrongKind top key=tile file=torn.toml\n",
    ),
    (
        "box-fill lost_tower.toml 1 1 1 --form grid",
        5,
        "",
        "wfc: device Missing tile=0 file=lost_tower.toml\n",
    ),
    (
        "box-fill bent_tower.toml 1 1 3 --form grid --pins none.pins",
        4,
        "",
        "wfc: stack BadTurn stack=0 file=bent_tower.toml\n",
    ),
    (
        "box-fill tower.toml 1 1 1 --form grid --pins none.pins",
        4,
        "",
        "wfc: render FormDiffers\n",
    ),
    (
        "box-fill tower.toml 4096 4096 256 --pins none.pins",
        4,
        "",
        "wfc: render TooLarge pixels=4294967296\n",
    ),
    (
        "box-fill tower.toml 1 1 3 --pins none.pins",
        5,
        "",
        "wfc: device Missing file=none.pins\n",
    ),
    (
        "box-fill tower.toml 1 1 3 --pins line.pins",
        4,
        "",
        "wfc: pins BadLine line=1 file=line.pins\n",
    ),
    (
        "box-fill tower.toml 1 1 3 --pins deep.pins",
        4,
        "",
        "wfc: build PinOutside line=1 file=deep.pins\n",
    ),
    (
        "box-fill tower.toml 1 1 4 --pins deep.pins",
        4,
        "",
        "wfc: build UnknownSymbol line=1 file=deep.pins\n",
    ),
    (
        "box-refute tower.toml 4096 4096 256 --pins deep.pins",
        4,
        "",
        "wfc: build TooLarge product=8589934592\n",
    ),
    (
        "box-refute bent_tower.toml 1 1 1 --pins none.pins",
        4,
        "",
        "wfc: stack BadTurn stack=0 file=bent_tower.toml\n",
    ),
    (
        "box-check tower.toml 1 1 3 none.ref --pins deep.pins",
        4,
        "",
        "wfc: build PinOutside line=1 file=deep.pins\n",
    ),
];

#[test]
fn boxes(rt: HostRuntime) -> Result<(), Fail> {
    assert_eq!(rt; first_wrong_row(rt.alloc(), 1, &FILL)?, None);
    assert_eq!(rt; first_wrong_row(rt.alloc(), 64, &FILL)?, None);
    Ok(())
}

#[test]
fn faults_of_boxes(rt: HostRuntime) -> Result<(), Fail> {
    assert_eq!(rt; first_wrong_row(rt.alloc(), 1, &FAULTS)?, None);
    assert_eq!(rt; first_wrong_row(rt.alloc(), 64, &FAULTS)?, None);
    Ok(())
}

/// How many bytes the sinks of these tests take.
const ROOM: usize = 20_000;

/// What a command writes over the files of the tests and this refutation, and its status.
fn written(alloc: Global, line: &str, refutation: &[u8]) -> Result<(u8, MemorySink), Fail> {
    let mut folder = folder_with(alloc, refutation)?;
    let mut out = MemorySink::new(alloc, 4000, ROOM)?;
    let mut err = MemorySink::new(alloc, 4000, ROOM)?;
    let status = status_of_words(alloc, line, &mut folder, &mut out, &mut err)?;
    Ok((status, out))
}

/// The files of the tests with this refutation.
fn folder_with(alloc: Global, refutation: &[u8]) -> Result<MemoryFolder, Fail> {
    let mut folder = folder_of(alloc, 4000)?;
    folder.add(
        String::from_str(alloc, "refutation")?,
        Vec::from_slice(alloc, refutation)?,
    )?;
    Ok(folder)
}

/// A problem of a box, and one of another depth.
type Boxed = (&'static str, &'static str);

/// Lines that go on to the right don't stand on each other, and nothing stands on a roof.
static REFUTED: [Boxed; 3] = [
    ("tower.toml 2 1 2", "tower.toml 2 1 3"),
    ("tower.toml 1 1 3 --wrap-out", "tower.toml 1 1 2 --wrap-out"),
    (
        "house.toml 1 1 2 --pins roof.pins",
        "house.toml 1 1 3 --pins roof.pins",
    ),
];

/// What `box-refute` writes is accepted, but not of another depth, and not after any one byte is changed.
fn is_refuted(rt: &(impl Abort + AllocGlobal), boxed: Boxed, format: u32) -> Result<(), Fail> {
    let alloc = rt.alloc();
    let (problem, other) = boxed;
    let line = format!(in alloc; "box-refute {problem} --format {format}")?;
    let (status, proof) = written(alloc, &line, b"")?;
    assert_eq!(rt; status, 0, "{line}");
    let line = format!(in alloc; "box-check {problem} refutation")?;
    let (status, accepted) = written(alloc, &line, proof.bytes())?;
    assert_eq!(rt; status, 0, "{line}");
    assert_eq!(rt; accepted.bytes(), b"accepted\n".as_slice(), "{line}");
    let deeper = format!(in alloc; "box-check {other} refutation")?;
    let (status, _) = written(alloc, &deeper, proof.bytes())?;
    assert_eq!(rt; status, 1, "{deeper}");
    for place in 0..proof.bytes().len() {
        let mut changed = Vec::from_slice(alloc, proof.bytes())?;
        if let Some(byte) = changed.get_mut(place) {
            *byte ^= 1;
        }
        let (status, said) = written(alloc, &line, &changed)?;
        assert_eq!(rt; status, 1, "{line}");
        assert_eq!(rt; said.bytes(), b"".as_slice(), "{line}");
    }
    Ok(())
}

#[test]
fn refutations_of_boxes(rt: HostRuntime) -> Result<(), Fail> {
    for boxed in &REFUTED {
        is_refuted(&rt, *boxed, 1)?;
        is_refuted(&rt, *boxed, 2)?;
    }
    Ok(())
}
