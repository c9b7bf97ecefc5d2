//! The lines of every kind, by a table, and a front of a line where the sink is full.

use std::alloc::Global;
use std::process::Abort;
use std::test::Fail;
use wfc_check::{CheckFault, Reject};
use wfc_choose::RuleKind;
use wfc_grid::GridFault;
use wfc_lines::{
    budget_spent, build, check, chooser, command, grid, learn, map_exists, mask, mask_grid,
    no_domains, no_map, no_memory, out_failed, palette, pins, ppm, range, render, steps, tiles,
    unread_file,
};
use wfc_outside::{MemorySink, ReadFault, SinkFault};
use wfc_pattern::LearnFault;
use wfc_picture::PaletteFault;
use wfc_pins::{BuildFault, PinFault, RangeFault, StepFault};
use wfc_ppm::PpmFault;
use wfc_proof::Shape;
use wfc_render::RenderFault;
use wfc_tiled::MaskFault;
use wfc_tileset::{Key, Place, TileFault};
use wfc_words::{CommandFault, ValueName};

/// Each kind of line.
#[derive(Clone, Copy)]
enum Kind {
    NoMap,
    MapExists,
    NoDomains,
    Budget(u32),
    Out,
    NoMemory,
    Command(CommandFault),
    Chooser(RuleKind),
    Reading(ReadFault),
    Grid(GridFault),
    Ppm(PpmFault),
    Palette(PaletteFault),
    Learn(LearnFault),
    Render(RenderFault),
    Pins(PinFault),
    Steps(StepFault),
    Range(RangeFault),
    Build(BuildFault),
    Check(CheckFault),
    Tiles(TileFault),
    MaskGrid(GridFault),
    Mask(MaskFault),
}

/// Whether a kind of line is put so for the file `a.txt`.
fn is_put(alloc: Global, kind: Kind, wanted: &str) -> Result<bool, Fail> {
    let mut sink = MemorySink::new(alloc, 7, 200).ok().ok_or("memory")?;
    if put(&mut sink, kind, "a.txt").is_err() {
        return Ok(false);
    }
    let line = format!(in alloc; "wfc: {wanted}\n")?;
    Ok(sink.bytes() == line.as_bytes())
}

fn put(sink: &mut MemorySink, kind: Kind, file: &str) -> Result<(), SinkFault> {
    match kind {
        Kind::NoMap => no_map(sink),
        Kind::MapExists => map_exists(sink),
        Kind::NoDomains => no_domains(sink),
        Kind::Budget(budget) => budget_spent(sink, budget),
        Kind::Out => out_failed(sink),
        Kind::NoMemory => no_memory(sink),
        Kind::Command(fault) => command(sink, fault),
        Kind::Chooser(rule) => chooser(sink, rule),
        Kind::Reading(fault) => unread_file(sink, fault, file),
        Kind::Grid(fault) => grid(sink, fault, file),
        Kind::Ppm(fault) => ppm(sink, fault, file),
        Kind::Palette(fault) => palette(sink, fault, file),
        Kind::Learn(fault) => learn(sink, fault, file),
        Kind::Render(fault) => render(sink, fault),
        Kind::Pins(fault) => pins(sink, fault, file),
        Kind::Steps(fault) => steps(sink, fault, file),
        Kind::Range(fault) => range(sink, fault, file),
        Kind::Build(fault) => build(sink, fault, file),
        Kind::Check(fault) => check(sink, &fault, file),
        Kind::Tiles(fault) => tiles(sink, fault, file),
        Kind::MaskGrid(fault) => mask_grid(sink, fault, file),
        Kind::Mask(fault) => mask(sink, fault, file),
    }
}

/// The lines of commands.
static COMMANDS: [(Kind, &str); 11] = [
    (Kind::NoMap, "no map"),
    (Kind::MapExists, "map exists"),
    (Kind::NoDomains, "no consistent domains"),
    (Kind::Budget(1_000_000), "budget spent budget=1000000"),
    (Kind::Out, "device Failed out"),
    (Kind::NoMemory, "out of memory"),
    (Kind::Command(CommandFault::Refused), "command refused"),
    (Kind::Command(CommandFault::NoMemory), "out of memory"),
    (
        Kind::Command(CommandFault::Value {
            name: ValueName::Model,
        }),
        "command value MODEL",
    ),
    (
        Kind::Command(CommandFault::Value {
            name: ValueName::Symmetry,
        }),
        "command value symmetry",
    ),
    (
        Kind::Chooser(RuleKind::Ranked),
        "chooser missing rule=ranked",
    ),
];

/// The lines of files, of learning and of building.
static FILES: [(Kind, &str); 27] = [
    (
        Kind::Reading(ReadFault::Missing),
        "device Missing file=a.txt",
    ),
    (Kind::Reading(ReadFault::Failed), "device Failed file=a.txt"),
    (Kind::Reading(ReadFault::TooLong), "file TooLong file=a.txt"),
    (Kind::Grid(GridFault::Empty), "grid Empty file=a.txt"),
    (
        Kind::Grid(GridFault::Ragged { line: 2 }),
        "grid Ragged line=2 file=a.txt",
    ),
    (
        Kind::Grid(GridFault::BadByte {
            line: 3,
            column: 14,
        }),
        "grid BadByte line=3 column=14 file=a.txt",
    ),
    (Kind::Grid(GridFault::TooLarge), "grid TooLarge file=a.txt"),
    (Kind::Ppm(PpmFault::Magic), "ppm Magic file=a.txt"),
    (
        Kind::Ppm(PpmFault::Header { at: 7 }),
        "ppm Header at=7 file=a.txt",
    ),
    (
        Kind::Ppm(PpmFault::Maxval { value: 65536 }),
        "ppm Maxval value=65536 file=a.txt",
    ),
    (Kind::Ppm(PpmFault::TooLarge), "ppm TooLarge file=a.txt"),
    (
        Kind::Ppm(PpmFault::Truncated {
            wanted: 12,
            found: 9,
        }),
        "ppm Truncated wanted=12 found=9 file=a.txt",
    ),
    (
        Kind::Ppm(PpmFault::SampleAboveMaxval { at: 15 }),
        "ppm SampleAboveMaxval at=15 file=a.txt",
    ),
    (
        Kind::Ppm(PpmFault::BadSample { at: 16 }),
        "ppm BadSample at=16 file=a.txt",
    ),
    (
        Kind::Ppm(PpmFault::Trailing { at: 17 }),
        "ppm Trailing at=17 file=a.txt",
    ),
    (
        Kind::Palette(PaletteFault::TooManyColours { at: 70 }),
        "palette TooManyColours at=70 file=a.txt",
    ),
    (
        Kind::Learn(LearnFault::SampleBelowN),
        "learn SampleBelowN file=a.txt",
    ),
    (
        Kind::Learn(LearnFault::TooManyPatterns { count: 4097 }),
        "learn TooManyPatterns count=4097 file=a.txt",
    ),
    (Kind::Render(RenderFault::FormDiffers), "render FormDiffers"),
    (
        Kind::Render(RenderFault::TooLarge { pixels: 16_777_217 }),
        "render TooLarge pixels=16777217",
    ),
    (
        Kind::Pins(PinFault::BadLine { line: 1 }),
        "pins BadLine line=1 file=a.txt",
    ),
    (
        Kind::Steps(StepFault::NothingToUndo { line: 1 }),
        "steps NothingToUndo line=1 file=a.txt",
    ),
    (
        Kind::Range(RangeFault::OutOfRange { line: 5 }),
        "steps OutOfRange line=5 file=a.txt",
    ),
    (Kind::Build(BuildFault::SizeBelowN), "build SizeBelowN"),
    (
        Kind::Build(BuildFault::TooLarge { product: 8_392_704 }),
        "build TooLarge product=8392704",
    ),
    (
        Kind::Build(BuildFault::PinOutside { line: 1 }),
        "build PinOutside line=1 file=a.txt",
    ),
    (
        Kind::Build(BuildFault::UnknownSymbol { line: 2 }),
        "build UnknownSymbol line=2 file=a.txt",
    ),
];

/// Another shape than the asked one.
const FOUND: Shape = Shape {
    n: 2,
    width: 3,
    height: 4,
    depth: 1,
    symmetry: 8,
    wrap_in: true,
    wrap_out: false,
};

/// The lines of refutations.
static CHECKS: [(CheckFault, &str); 4] = [
    (
        CheckFault::Rejected {
            line: 3,
            reject: Reject::HasSupport { value: 7 },
        },
        "check Rejected line=3 reject=HasSupport value=7 file=a.txt",
    ),
    (
        CheckFault::BadLine { line: 41 },
        "check BadLine line=41 file=a.txt",
    ),
    (
        CheckFault::OptionsDiffer { found: FOUND },
        "check OptionsDiffer n=2 width=3 height=4 depth=1 symmetry=8 wrap_in=1 wrap_out=0 file=a.txt",
    ),
    (CheckFault::Missing, "device Missing file=a.txt"),
];

/// The lines of tile sets, without the name of the file.
static TILE_SETS: [(TileFault, &str); 13] = [
    (TileFault::Toml, "tiles Toml"),
    (TileFault::NoTiles, "tiles NoTiles"),
    (
        TileFault::MissingKey {
            place: Place::Tile(3),
            key: Key::Name,
        },
        "tiles MissingKey tile=3 key=name",
    ),
    (
        TileFault::WrongKind {
            place: Place::Top,
            key: Key::Tile,
        },
        "tiles WrongKind top key=tile",
    ),
    (
        TileFault::WrongKind {
            place: Place::Pair(12),
            key: Key::Left,
        },
        "tiles WrongKind pair=12 key=left",
    ),
    (TileFault::BadName { tile: 11 }, "tiles BadName tile=11"),
    (TileFault::BadTurn { pair: 7 }, "tiles BadTurn pair=7"),
    (
        TileFault::TooManyVariants { count: 4104 },
        "tiles TooManyVariants count=4104",
    ),
    (TileFault::Missing { tile: 0 }, "device Missing tile=0"),
    (TileFault::Failed { tile: 1 }, "device Failed tile=1"),
    (TileFault::BadPicture { tile: 2 }, "tiles BadPicture tile=2"),
    (TileFault::MixedKinds { tile: 4 }, "tiles MixedKinds tile=4"),
    (
        TileFault::SizeDiffers { tile: 5 },
        "tiles SizeDiffers tile=5",
    ),
];

/// The lines of masks.
static MASKS: [(Kind, &str); 6] = [
    (Kind::MaskGrid(GridFault::Empty), "mask Empty file=a.txt"),
    (
        Kind::MaskGrid(GridFault::BadByte {
            line: 2,
            column: 13,
        }),
        "mask BadByte line=2 column=13 file=a.txt",
    ),
    (
        Kind::Mask(MaskFault::SizeDiffers {
            width: 2,
            height: 1,
        }),
        "mask SizeDiffers width=2 height=1 file=a.txt",
    ),
    (
        Kind::Mask(MaskFault::BadSymbol { line: 1, column: 2 }),
        "mask BadSymbol line=1 column=2 file=a.txt",
    ),
    (Kind::Mask(MaskFault::AllHoles), "mask AllHoles file=a.txt"),
    (
        Kind::Build(BuildFault::PinInHole { line: 3 }),
        "build PinInHole line=3 file=a.txt",
    ),
];

/// A kind of line is put so for the file `a.txt`.
fn puts(rt: &(impl Abort + AllocGlobal), kind: Kind, wanted: &str) -> Result<(), Fail> {
    assert!(rt; is_put(rt.alloc(), kind, wanted)?, "of {wanted:?}");
    Ok(())
}

#[test]
fn puts_lines(rt: HostRuntime) -> Result<(), Fail> {
    for (kind, wanted) in &COMMANDS {
        puts(&rt, *kind, wanted)?;
    }
    for (kind, wanted) in &FILES {
        puts(&rt, *kind, wanted)?;
    }
    Ok(())
}

#[test]
fn puts_lines_of_refutations(rt: HostRuntime) -> Result<(), Fail> {
    for (fault, wanted) in &CHECKS {
        puts(&rt, Kind::Check(*fault), wanted)?;
    }
    Ok(())
}

#[test]
fn puts_lines_of_tile_sets(rt: HostRuntime) -> Result<(), Fail> {
    for (fault, wanted) in &TILE_SETS {
        let line = format!(in rt.alloc(); "{wanted} file=a.txt")?;
        puts(&rt, Kind::Tiles(*fault), &line)?;
    }
    puts(&rt, Kind::Tiles(TileFault::NoMemory), "out of memory")
}

#[test]
fn puts_lines_of_masks(rt: HostRuntime) -> Result<(), Fail> {
    for (kind, wanted) in &MASKS {
        puts(&rt, *kind, wanted)?;
    }
    Ok(())
}

#[test]
fn puts_a_front(rt: HostRuntime) -> Result<(), Fail> {
    let mut sink = MemorySink::new(rt.alloc(), 7, 12).ok().ok_or("memory")?;
    assert!(rt; put(&mut sink, Kind::Reading(ReadFault::Missing), "a.txt").is_err());
    assert!(rt; sink.bytes() == b"wfc: device ".as_slice());
    Ok(())
}
