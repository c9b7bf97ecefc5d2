//! Tasks of boxes, by tables.

ghost use Rattle.std.specs.Bool.{OnTrue};
ghost use Rattle.wfc_box.specs.Boxes.{IsFrame};
ghost use Rattle.wfc_box_commands.specs.BoxSteps.{frame_asked};

use super::{FILES, KINDS, add_all, build, missing, pins, refused, text, unchosen, unrendered};
use std::alloc::Global;
use std::process::Abort;
use std::test::Fail;
use wfc_box::{StackFault, StackKey};
use wfc_box_commands::box_fill_task;
use wfc_choose::RuleKind;
use wfc_outside::MemoryFolder;
use wfc_pins::{BuildFault, PinFault};
use wfc_plan::{Fault, Refusal, Source};
use wfc_render::Form;
use wfc_words::{CommandKind, Request, SourceModel};

/// A line whose turns stand on each other, corners with pictures that stand on themselves, and documents with a fault of
/// the tile set and of the stacks, or of the stacks alone; then pins.
const BOX_FILES: [(&str, &[u8]); 8] = [
    (
        "tower.toml",
        b"tile = [{name = 'line', class = 'I'}]\nstack = [{lower = 'line', upper = 'line 1'}]\n",
    ),
    (
        "piled.toml",
        b"tile = [{name = 'corner', class = 'L', picture = 'corner.txt'}]\nstack = [{lower = 'corner', upper = 'corner'}]\n",
    ),
    (
        "torn.toml",
        b"tile = [{name = 'a', class = 'X', picture = 'none.txt'}]\nstack = 3\n",
    ),
    (
        "bent.toml",
        b"tile = [{name = 'line', class = 'I'}]\nstack = [{lower = 'line', upper = 'line 9'}]\n",
    ),
    (
        "loose.toml",
        b"tile = [{name = 'line', class = 'I'}]\nstack = [{lower = 'line', upper = 'line'}, {upper = 'line'}]\n",
    ),
    ("corner.txt", b"#.\n..\n"),
    ("tower.pins", b"pin 0 0 2 line/1\nban 1 0 0 line/1\n"),
    ("flat.pins", b"pin 0 0 line/1\n"),
];

/// What is asked for.
#[derive(Clone, Copy)]
struct BoxRow {
    file: &'static str,
    depth: u32,
    pins: Option<&'static str>,
    rule: RuleKind,
    form: Option<Form>,
}

/// A tower of two by one by three.
const TOWER: BoxRow = BoxRow {
    file: "tower.toml",
    depth: 3,
    pins: None,
    rule: RuleKind::Fewest,
    form: None,
};

fn request_of_box(alloc: Global, row: BoxRow) -> Result<Request, Fail> {
    Ok(Request {
        command: CommandKind::BoxFill,
        file: String::from_str(alloc, row.file)?,
        source: SourceModel::Overlap { n: 0 },
        width: 2,
        height: 1,
        symmetry: 1,
        wrap_in: false,
        wrap_out: false,
        pins: text(alloc, row.pins)?,
        steps: None,
        refutation: None,
        seed: 0,
        budget: 1,
        rule: row.rule,
        form: row.form,
        number: 0,
        format: 2,
        mask: None,
        seeds: 0,
        quantum: 1,
        block: 512,
        depth: row.depth,
    })
}

/// Whether the sides of the box are in their ranges.
fn is_frame_asked(request: &Request) -> bool
    ensures frame { OnTrue result (IsFrame (frame_asked request.now)) }
{
    let some = request.width >= 1 && request.height >= 1 && request.depth >= 1;
    some && request.width <= 4096 && request.height <= 4096 && request.depth <= 256
}

/// What a task comes to: how many variants there are, how many cells, how many directions, and the form.
type BoxSizes = (u16, u32, u8, Form);

/// The task of a request in its ranges.
fn sizes(alloc: Global, request: &Request, folder: &mut MemoryFolder) -> Result<BoxSizes, Fault>
    requires frame { IsFrame (frame_asked request.now) }
{
    let made = box_fill_task(alloc, request, &KINDS, folder)?;
    let problem = &made.problem;
    Ok((
        made.tiles.variants(),
        problem.cells(),
        problem.dirs(),
        made.form,
    ))
}

/// The task of a row comes to this.
fn boxed(
    rt: &(impl Abort + AllocGlobal),
    row: BoxRow,
    wanted: Result<BoxSizes, Fault>,
) -> Result<(), Fail> {
    let alloc = rt.alloc();
    let mut folder = MemoryFolder::new(alloc, 3);
    add_all(alloc, &mut folder, &FILES)?;
    add_all(alloc, &mut folder, &BOX_FILES)?;
    let request = request_of_box(alloc, row)?;
    assert!(rt; is_frame_asked(&request));
    assert_eq!(rt; sizes(alloc, &request, &mut folder), wanted);
    Ok(())
}

/// The same tower of another document.
fn made_of(file: &'static str) -> BoxRow {
    BoxRow { file, ..TOWER }
}

/// The tower with these pins.
fn pinned(pins: &'static str) -> BoxRow {
    BoxRow {
        pins: Some(pins),
        ..TOWER
    }
}

fn stacks(fault: StackFault) -> Fault {
    refused(Refusal::Stacks { fault })
}

#[test]
fn boxes_of_requests(rt: HostRuntime) -> Result<(), Fail> {
    boxed(&rt, TOWER, Ok((2, 6, 6, Form::Cells)))?;
    boxed(&rt, pinned("tower.pins"), Ok((2, 6, 6, Form::Cells)))?;
    let deepest = BoxRow {
        depth: 256,
        ..TOWER
    };
    boxed(&rt, deepest, Ok((2, 512, 6, Form::Cells)))?;
    boxed(&rt, made_of("piled.toml"), Ok((4, 6, 6, Form::Grid)))
}

#[test]
fn boxes_are_refused_by_the_first_fault(rt: HostRuntime) -> Result<(), Fail> {
    let unruled = BoxRow {
        file: "none.toml",
        rule: RuleKind::Ranked,
        ..TOWER
    };
    boxed(&rt, unruled, Err(unchosen()))?;
    boxed(&rt, made_of("none.toml"), Err(missing(Source::Sample)))?;
    let picture = Source::Picture { tile: 0 };
    boxed(&rt, made_of("torn.toml"), Err(missing(picture)))?;
    let bent = BoxRow {
        file: "bent.toml",
        form: Some(Form::Grid),
        ..TOWER
    };
    boxed(&rt, bent, Err(stacks(StackFault::BadTurn { stack: 0 })))?;
    let key = StackKey::Lower;
    boxed(
        &rt,
        made_of("loose.toml"),
        Err(stacks(StackFault::MissingKey { stack: 1, key })),
    )?;
    let written = BoxRow {
        form: Some(Form::Grid),
        ..pinned("none.pins")
    };
    boxed(&rt, written, Err(unrendered()))?;
    boxed(&rt, pinned("none.pins"), Err(missing(Source::Pins)))?;
    let flat = PinFault::BadLine { line: 1 };
    boxed(&rt, pinned("flat.pins"), Err(pins(flat)))?;
    let low = BoxRow {
        depth: 2,
        ..pinned("tower.pins")
    };
    boxed(&rt, low, Err(build(BuildFault::PinOutside { line: 1 })))
}
