//! Tasks of tile sets, of their pictures and of masks, by tables.

use super::{
    CHECKERS, Row, build, comes_to, missing, pins, refused, refuses, request_of, unchosen,
    unrendered,
};
use std::test::Fail;
use wfc_choose::RuleKind;
use wfc_grid::GridFault;
use wfc_pins::{BuildFault, PinFault};
use wfc_plan::{Fault, Refusal, Source};
use wfc_proof::Shape;
use wfc_proof_commands::shape;
use wfc_render::{Form, RenderFault};
use wfc_tiled::MaskFault;
use wfc_tileset::TileFault;
use wfc_words::{CommandKind, SourceModel};

/// A straight line, a corner with a picture, two tiles of which the second has no picture in the folder, and two whose
/// pictures differ in size; then pins, masks, steps and a refutation.
pub(super) const FILES: [(&str, &[u8]); 14] = [
    (
        "lines.toml",
        b"[[tile]]\nname = \"line\"\nclass = \"I\"\n\n[[pair]]\nleft = \"line 0\"\nright = \"line 0\"\n",
    ),
    (
        "corner.toml",
        b"tile = [{name = 'corner', class = 'L', weight = 7, picture = 'corner.txt'}]\n",
    ),
    ("corner.txt", b"#.\n..\n"),
    (
        "lost.toml",
        b"tile = [{name = 'a', class = 'X', picture = 'corner.txt'}, {name = 'b', class = 'X', picture = 'none.txt'}]\n",
    ),
    (
        "apart.toml",
        b"tile = [{name = 'a', class = 'X', picture = 'corner.txt'}, {name = 'b', class = 'X', picture = 'a.txt'}]\n",
    ),
    ("line.pins", b"pin 0 0 line/0\npin 2 0 line/1\n"),
    ("hole.pins", b"pin 1 0 line/0\n"),
    ("other.pins", b"pin 0 0 line/2\n"),
    ("m.txt", b".#.\n"),
    ("half.txt", b".#\n"),
    ("odd.txt", b".x.\n"),
    ("holes.txt", b"###\n"),
    ("one.steps", b"choose 1 1\n"),
    (
        "square.proof",
        b"wfc-refutation 1\ncells 4 values 2\nr 0 0 1\nr 0 1 2\nx 0\nq\n",
    ),
];

/// Lines on a map of three by one; images and edges of a sample are asked for, which a tile set has not.
const LINES: Row = Row {
    file: "lines.toml",
    source: SourceModel::Tiles,
    width: 3,
    height: 1,
    symmetry: 8,
    wrap_in: true,
    ..CHECKERS
};

/// The same of another document.
fn made_of(file: &'static str) -> Row {
    Row { file, ..LINES }
}

/// Lines with these pins and this mask.
fn holed(pins: &'static str, mask: &'static str) -> Row {
    Row {
        pins: Some(pins),
        mask: Some(mask),
        ..LINES
    }
}

/// Lines with this mask.
fn masked(mask: &'static str) -> Row {
    Row {
        mask: Some(mask),
        ..LINES
    }
}

/// A map with more values than a problem has.
fn large(row: Row) -> Row {
    Row {
        width: 4096,
        height: 1025,
        ..row
    }
}

/// Lines with a hole, with these pins, and with a file of steps or of a refutation that isn't there.
fn behind(pins: &'static str) -> Row {
    Row {
        steps: Some("none.txt"),
        ..holed(pins, "m.txt")
    }
}

/// Lines on a map of so many cells, of which the refutation is one of two by two.
fn squared(width: u32, height: u32) -> Row {
    Row {
        width,
        height,
        steps: Some("square.proof"),
        ..LINES
    }
}

/// Lines on a large map that is a ring.
fn ring() -> Row {
    Row {
        width: 1024,
        height: 1024,
        wrap_out: true,
        ..LINES
    }
}

/// Lines with a hole, and one step.
fn stepped() -> Row {
    Row {
        steps: Some("one.steps"),
        ..masked("m.txt")
    }
}

/// Lines with pins of a variant that isn't there.
fn pinned() -> Row {
    Row {
        pins: Some("other.pins"),
        ..LINES
    }
}

/// A document that isn't there, and a rule that has no chooser.
fn ranked() -> Row {
    Row {
        rule: RuleKind::Ranked,
        ..made_of("none.toml")
    }
}

/// This row in a form of colours.
fn in_colours(row: Row) -> Row {
    Row {
        form: Some(Form::P6),
        ..row
    }
}

#[test]
fn comes_to_tasks_of_tiles(rt: HostRuntime) -> Result<(), Fail> {
    let fill = CommandKind::Fill;
    let learn = CommandKind::Learn;
    comes_to(&rt, learn, LINES, (2, 1, 0, 0, 0))?;
    comes_to(&rt, learn, made_of("corner.toml"), (4, 7, 1, 0, 0))?;
    comes_to(&rt, fill, LINES, (2, 1, 0, 3, 0))?;
    comes_to(&rt, fill, made_of("corner.toml"), (4, 7, 1, 3, 0))?;
    comes_to(&rt, fill, holed("line.pins", "m.txt"), (2, 1, 0, 2, 0))?;
    comes_to(&rt, fill, ring(), (2, 1, 0, 1_048_576, 0))
}

#[test]
fn comes_to_steps_and_refutations_of_tiles(rt: HostRuntime) -> Result<(), Fail> {
    let check = CommandKind::Check;
    comes_to(&rt, CommandKind::Domains, stepped(), (2, 0, 0, 2, 1))?;
    comes_to(&rt, CommandKind::Refute, masked("m.txt"), (2, 0, 0, 2, 0))?;
    comes_to(&rt, check, squared(2, 2), (0, 0, 0, 0, 1))?;
    comes_to(&rt, check, squared(4, 1), (0, 0, 0, 0, 0))?;
    comes_to(&rt, CommandKind::Upgrade, squared(2, 2), (2, 0, 0, 4, 56))
}

fn tiles(fault: TileFault) -> Fault {
    refused(Refusal::Tiles { fault })
}

fn mask(fault: MaskFault) -> Fault {
    refused(Refusal::Mask { fault })
}

/// A mask of these sides, which are not the map's.
fn apart(width: u32, height: u32) -> Fault {
    mask(MaskFault::SizeDiffers { width, height })
}

/// A mask of which the second line is shorter.
fn ragged() -> Fault {
    refused(Refusal::Grid {
        source: Source::Mask,
        fault: GridFault::Ragged { line: 2 },
    })
}

/// A document and its pictures.
#[test]
fn refuses_sets_by_the_first_fault(rt: HostRuntime) -> Result<(), Fail> {
    let fill = CommandKind::Fill;
    let learn = CommandKind::Learn;
    refuses(&rt, fill, ranked(), unchosen())?;
    refuses(&rt, fill, made_of("none.toml"), missing(Source::Sample))?;
    refuses(&rt, learn, made_of("chk.txt"), tiles(TileFault::Toml))?;
    refuses(
        &rt,
        learn,
        made_of("lost.toml"),
        missing(Source::Picture { tile: 1 }),
    )?;
    refuses(
        &rt,
        learn,
        made_of("apart.toml"),
        tiles(TileFault::SizeDiffers { tile: 1 }),
    )?;
    // The pictures are read before the layout is looked at, and the layout is looked at before the pins file is read.
    refuses(
        &rt,
        fill,
        in_colours(made_of("lost.toml")),
        missing(Source::Picture { tile: 1 }),
    )?;
    refuses(
        &rt,
        fill,
        in_colours(holed("none.txt", "none.txt")),
        unrendered(),
    )?;
    refuses(&rt, CommandKind::Refute, ranked(), unchosen())
}

#[test]
fn refuses_masks_by_the_first_fault(rt: HostRuntime) -> Result<(), Fail> {
    let fill = CommandKind::Fill;
    let line = PinFault::BadLine { line: 1 };
    refuses(
        &rt,
        fill,
        holed("none.txt", "none.txt"),
        missing(Source::Pins),
    )?;
    refuses(&rt, fill, holed("b.txt", "none.txt"), pins(line))?;
    refuses(
        &rt,
        fill,
        holed("hole.pins", "none.txt"),
        missing(Source::Mask),
    )?;
    refuses(&rt, fill, masked("r.txt"), ragged())?;
    refuses(&rt, fill, masked("half.txt"), apart(2, 1))?;
    refuses(
        &rt,
        fill,
        masked("odd.txt"),
        mask(MaskFault::BadSymbol { line: 1, column: 2 }),
    )?;
    refuses(&rt, fill, masked("holes.txt"), mask(MaskFault::AllHoles))
}

#[test]
fn refuses_pins_of_tiles_by_the_first_fault(rt: HostRuntime) -> Result<(), Fail> {
    let fill = CommandKind::Fill;
    // The mask is held to the sides before there is a problem, and the problem has a size before the pins mean something.
    refuses(&rt, fill, large(holed("other.pins", "m.txt")), apart(3, 1))?;
    refuses(
        &rt,
        fill,
        large(pinned()),
        build(BuildFault::TooLarge { product: 8_396_800 }),
    )?;
    refuses(
        &rt,
        fill,
        holed("o.txt", "m.txt"),
        build(BuildFault::PinOutside { line: 1 }),
    )?;
    refuses(
        &rt,
        fill,
        holed("hole.pins", "m.txt"),
        build(BuildFault::PinInHole { line: 1 }),
    )?;
    refuses(
        &rt,
        fill,
        holed("other.pins", "m.txt"),
        build(BuildFault::UnknownSymbol { line: 1 }),
    )
}

/// The steps and the refutation come behind the pins.
#[test]
fn refuses_files_behind_the_pins_by_the_first_fault(rt: HostRuntime) -> Result<(), Fail> {
    let hole = BuildFault::PinInHole { line: 1 };
    refuses(
        &rt,
        CommandKind::Domains,
        behind("line.pins"),
        missing(Source::Steps),
    )?;
    refuses(&rt, CommandKind::Check, behind("hole.pins"), build(hole))?;
    refuses(
        &rt,
        CommandKind::Upgrade,
        behind("line.pins"),
        missing(Source::Refutation),
    )
}

#[test]
fn a_tile_set_has_no_shape_of_a_sample(rt: HostRuntime) -> Result<(), Fail> {
    let row = Row {
        height: 2,
        wrap_out: true,
        ..LINES
    };
    let request = request_of(rt.alloc(), CommandKind::Check, row)?;
    let wanted = Shape {
        n: 0,
        width: 3,
        height: 2,
        depth: 1,
        symmetry: 1,
        wrap_in: false,
        wrap_out: true,
    };
    assert_eq!(rt; shape(&request), wanted);
    Ok(())
}
