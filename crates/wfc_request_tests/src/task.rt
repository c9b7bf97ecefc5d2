//! Tasks by tables: what they come to, and their first faults.

mod boxes;
mod tiles;

ghost use Rattle.std.specs.Bool.{OnTrue};
ghost use Rattle.wfc_task.specs.Asked.{IsOutputAsked, IsSourceAsked};

use std::alloc::Global;
use std::process::Abort;
use std::test::Fail;
use wfc_choose::RuleKind;
use wfc_grid::GridFault;
use wfc_map_commands::{
    Filled, Learned, demo_task, domains_task, fill_sample_task, fill_tiles_task, learn_task,
};
use wfc_outside::{MemoryFolder, ReadFault};
use wfc_pattern::{LearnFault, Patterns};
use wfc_pins::{BuildFault, PinFault, RangeFault, StepFault};
use wfc_plan::{Fault, Refusal, Source};
use wfc_problem::Problem;
use wfc_proof_commands::{check_task, refute_task, upgrade_task};
use wfc_render::{Form, RenderFault};
use wfc_run_commands::race_task;
use wfc_tileset::TileSet;
use wfc_words::{CommandKind, Request, SourceModel};

/// What is asked for.
#[derive(Clone, Copy)]
struct Row {
    file: &'static str,
    source: SourceModel,
    width: u32,
    height: u32,
    symmetry: u8,
    wrap_in: bool,
    wrap_out: bool,
    pins: Option<&'static str>,
    mask: Option<&'static str>,
    /// The file of the steps, or of the refutation.
    steps: Option<&'static str>,
    rule: RuleKind,
    form: Option<Form>,
    number: u32,
}

/// The rules that have a chooser.
const KINDS: [RuleKind; 2] = [RuleKind::Scanline, RuleKind::Fewest];

/// The checkers of two by two, windows of two by two, and a map of two by two.
const CHECKERS: Row = Row {
    file: "chk.txt",
    source: SourceModel::Overlap { n: 2 },
    width: 2,
    height: 2,
    symmetry: 1,
    wrap_in: false,
    wrap_out: false,
    pins: None,
    mask: None,
    steps: None,
    rule: RuleKind::Fewest,
    form: None,
    number: 0,
};

const FILES: [(&str, &[u8]); 13] = [
    ("chk.txt", b"ab\nba\n"),
    ("a.txt", b"a"),
    ("e.txt", b""),
    ("r.txt", b"ab\nb\n"),
    ("p.txt", b"pin 0 0 a\n"),
    ("z.txt", b"pin 0 0 z\n"),
    ("o.txt", b"pin 3 0 z\n"),
    ("b.txt", b"pin 0 a\n"),
    ("s.txt", b"choose 0 0\nchoose 2 1\nundo\nundo\n"),
    ("u.txt", b"undo\n"),
    ("c.txt", b"choose 3 0\n"),
    ("w.txt", b"choose\n"),
    (
        "x.txt",
        b"wfc-refutation 1\ncells 2 values 1\nr 0 0 2\nx 0\nq\n",
    ),
];

/// A folder with these files that gives three bytes a call.
fn folder(alloc: Global) -> Result<MemoryFolder, Fail> {
    let mut folder = MemoryFolder::new(alloc, 3);
    add_all(alloc, &mut folder, &FILES)?;
    add_all(alloc, &mut folder, &tiles::FILES)?;
    Ok(folder)
}

fn add_all(
    alloc: Global,
    folder: &mut MemoryFolder,
    files: &[(&'static str, &'static [u8])],
) -> Result<(), Fail> {
    for (name, bytes) in files {
        folder.add(
            String::from_str(alloc, name)?,
            Vec::from_slice(alloc, bytes)?,
        )?;
    }
    Ok(())
}

fn text(alloc: Global, name: Option<&str>) -> Result<Option<String>, Fail> {
    match name {
        Some(name) => Ok(Some(String::from_str(alloc, name)?)),
        None => Ok(None),
    }
}

/// What a task comes to: how many patterns there are and the weight of the first, how many colours, cells and steps. Of a tile
/// set these are variants and pictures.
type Sizes = (u16, u32, u32, u32, usize);

fn sizes(patterns: &Patterns, colours: u32, cells: u32, steps: usize) -> Sizes {
    (patterns.count(), patterns.weight(0), colours, cells, steps)
}

/// The same of tiles: how many variants there are, the weight of the first, how many pictures, and how many cells.
fn tile_sizes(tiles: &TileSet, cells: u32) -> Sizes {
    (
        tiles.variants(),
        first_weight(tiles),
        tiles.pictures(),
        cells,
        0,
    )
}

/// The weight of the first variant, if there is one.
fn first_weight(tiles: &TileSet) -> u32 {
    if tiles.variants() == 0 {
        0
    } else {
        tiles.weight(0)
    }
}

fn learned_sizes(task: &Learned) -> Sizes {
    match task {
        Learned::Windows(taught) => sizes(&taught.patterns, taught.palette.len(), 0, 0),
        Learned::Tiles(tiles) => tile_sizes(tiles, 0),
    }
}

fn filled_sizes(task: &Filled) -> Sizes {
    match task {
        Filled::Windows(made) => sizes(&made.patterns, made.palette.len(), made.problem.cells(), 0),
        Filled::Tiles(made) => tile_sizes(&made.tiles, made.problem.cells()),
    }
}

/// The request of a row.
fn request_of(alloc: Global, command: CommandKind, row: Row) -> Result<Request, Fail> {
    Ok(Request {
        command,
        file: String::from_str(alloc, row.file)?,
        source: row.source,
        width: row.width,
        height: row.height,
        symmetry: row.symmetry,
        wrap_in: row.wrap_in,
        wrap_out: row.wrap_out,
        pins: text(alloc, row.pins)?,
        steps: text(alloc, row.steps)?,
        refutation: text(alloc, row.steps)?,
        seed: 0,
        budget: 1,
        rule: row.rule,
        form: row.form,
        number: row.number,
        format: 2,
        mask: text(alloc, row.mask)?,
        seeds: 1,
        quantum: 1,
        block: 512,
        depth: 0,
    })
}

/// Whether what the map is made of is in its ranges.
fn is_source_asked(request: &Request) -> bool
    ensures source { OnTrue result (IsSourceAsked request.now) }
{
    match request.source {
        SourceModel::Overlap { n } => {
            if n < 1 || n > 6 {
                return false;
            }
            if request.symmetry < 1 || request.symmetry > 8 {
                return false;
            }
            true
        }
        SourceModel::Tiles => true,
    }
}

/// Whether the sides of the map are in their ranges.
fn is_output_asked(request: &Request) -> bool
    ensures output { OnTrue result (IsOutputAsked request.now) }
{
    let some = request.width >= 1 && request.height >= 1;
    some && request.width <= 4096 && request.height <= 4096
}

/// Runs the task of a command.
fn run(
    rt: &impl Abort,
    alloc: Global,
    command: CommandKind,
    row: Row,
) -> Result<Result<Sizes, Fault>, Fail> {
    let mut folder = folder(alloc)?;
    let request = request_of(alloc, command, row)?;
    assert!(rt; is_source_asked(&request));
    assert!(rt; is_output_asked(&request));
    Ok(task(alloc, command, &request, &mut folder))
}

/// The task of a request in its ranges.
fn task(
    alloc: Global,
    command: CommandKind,
    request: &Request,
    folder: &mut MemoryFolder,
) -> Result<Sizes, Fault>
    requires source { IsSourceAsked request.now }
    requires output { IsOutputAsked request.now }
{
    match command {
        CommandKind::Learn => learn(alloc, request, folder),
        CommandKind::Fill => fill(alloc, request, folder),
        CommandKind::Domains => domains(alloc, request, folder),
        CommandKind::Demo => demo(alloc, request, folder),
        CommandKind::Refute => refute(alloc, request, folder),
        CommandKind::Upgrade => upgrade(alloc, request, folder),
        CommandKind::Check => check(alloc, request, folder),
        CommandKind::Race => race(alloc, request, folder),
        // The problems of `explain` and `grow` are posed as that of a race, and what they answer are rows of the program;
        // boxes have a module of their own.
        _ => race(alloc, request, folder),
    }
}

fn learn(alloc: Global, request: &Request, folder: &mut MemoryFolder) -> Result<Sizes, Fault>
    requires source { IsSourceAsked request.now }
    requires output { IsOutputAsked request.now }
{
    Ok(learned_sizes(&learn_task(alloc, request, folder)?))
}

fn fill(alloc: Global, request: &Request, folder: &mut MemoryFolder) -> Result<Sizes, Fault>
    requires source { IsSourceAsked request.now }
    requires output { IsOutputAsked request.now }
{
    let filled = match request.source {
        SourceModel::Overlap { .. } => fill_sample_task(alloc, request, &KINDS, folder)?,
        SourceModel::Tiles => fill_tiles_task(alloc, request, &KINDS, folder)?,
    };
    Ok(filled_sizes(&filled))
}

fn domains(alloc: Global, request: &Request, folder: &mut MemoryFolder) -> Result<Sizes, Fault>
    requires source { IsSourceAsked request.now }
    requires output { IsOutputAsked request.now }
{
    let task = domains_task(alloc, request, folder)?;
    let values = task.problem.values();
    Ok((values, 0, 0, task.problem.cells(), task.steps.len()))
}

fn demo(alloc: Global, request: &Request, folder: &mut MemoryFolder) -> Result<Sizes, Fault>
    requires source { IsSourceAsked request.now }
    requires output { IsOutputAsked request.now }
{
    let task = demo_task(alloc, request, &KINDS, folder)?;
    Ok((task.patterns.count(), 0, 0, task.problem.cells(), 0))
}

fn refute(alloc: Global, request: &Request, folder: &mut MemoryFolder) -> Result<Sizes, Fault>
    requires source { IsSourceAsked request.now }
    requires output { IsOutputAsked request.now }
{
    let problem = refute_task(alloc, request, &KINDS, folder)?;
    Ok((problem.values(), 0, 0, problem.cells(), 0))
}

fn race(alloc: Global, request: &Request, folder: &mut MemoryFolder) -> Result<Sizes, Fault>
    requires source { IsSourceAsked request.now }
    requires output { IsOutputAsked request.now }
{
    let problem = race_task(alloc, request, &KINDS, folder)?;
    Ok((problem.values(), 0, 0, problem.cells(), 0))
}

fn upgrade(alloc: Global, request: &Request, folder: &mut MemoryFolder) -> Result<Sizes, Fault>
    requires source { IsSourceAsked request.now }
    requires output { IsOutputAsked request.now }
{
    let task = upgrade_task(alloc, request, folder)?;
    let bytes = task.refutation.len();
    Ok((task.problem.values(), 0, 0, task.problem.cells(), bytes))
}

fn check(alloc: Global, request: &Request, folder: &mut MemoryFolder) -> Result<Sizes, Fault>
    requires source { IsSourceAsked request.now }
    requires output { IsOutputAsked request.now }
{
    let found = check_task(alloc, request, folder)?;
    Ok((0, 0, 0, 0, if found.is_none() { 1 } else { 0 }))
}

fn refused(refusal: Refusal) -> Fault {
    Fault::Refused { refusal }
}

/// The task of a row comes to this.
fn comes_to(
    rt: &(impl Abort + AllocGlobal),
    command: CommandKind,
    row: Row,
    wanted: Sizes,
) -> Result<(), Fail> {
    assert_eq!(rt; run(rt, rt.alloc(), command, row)?, Ok(wanted));
    Ok(())
}

/// The task of a row has this fault first.
fn refuses(
    rt: &(impl Abort + AllocGlobal),
    command: CommandKind,
    row: Row,
    fault: Fault,
) -> Result<(), Fail> {
    assert_eq!(rt; run(rt, rt.alloc(), command, row)?, Err(fault));
    Ok(())
}

#[test]
fn comes_to_tasks(rt: HostRuntime) -> Result<(), Fail> {
    comes_to(&rt, CommandKind::Fill, CHECKERS, (1, 1, 2, 1, 0))?;
    comes_to(&rt, CommandKind::Fill, pinned("p.txt"), (2, 2, 2, 4, 0))?;
    comes_to(&rt, CommandKind::Fill, ring_in_cells(), (2, 2, 2, 12, 0))?;
    comes_to(&rt, CommandKind::Learn, wrapped(), (2, 2, 2, 0, 0))?;
    comes_to(&rt, CommandKind::Learn, turned(), (2, 4, 2, 0, 0))?;
    comes_to(&rt, CommandKind::Demo, CHECKERS, (9, 0, 0, 2116, 0))?;
    comes_to(&rt, CommandKind::Demo, numbered(6), (16, 0, 0, 2116, 0))
}

#[test]
fn comes_to_tasks_of_steps_and_refutations(rt: HostRuntime) -> Result<(), Fail> {
    comes_to(&rt, CommandKind::Domains, stepped("s.txt"), (2, 0, 0, 3, 4))?;
    comes_to(&rt, CommandKind::Domains, CHECKERS, (1, 0, 0, 1, 0))?;
    comes_to(&rt, CommandKind::Refute, CHECKERS, (1, 0, 0, 1, 0))?;
    comes_to(&rt, CommandKind::Race, CHECKERS, (1, 0, 0, 1, 0))?;
    comes_to(
        &rt,
        CommandKind::Upgrade,
        stepped("s.txt"),
        (2, 0, 0, 3, 32),
    )?;
    comes_to(&rt, CommandKind::Check, stepped("s.txt"), (0, 0, 0, 0, 0))?;
    comes_to(&rt, CommandKind::Check, refuted(), (0, 0, 0, 0, 1))
}

fn missing(source: Source) -> Fault {
    Fault::Unread {
        source,
        fault: ReadFault::Missing,
    }
}

fn build(fault: BuildFault) -> Fault {
    refused(Refusal::Build { fault })
}

fn grid(fault: GridFault) -> Fault {
    let source = Source::Sample;
    refused(Refusal::Grid { source, fault })
}

/// The checkers wrapped, a map of three by three, and these pins.
fn pinned(pins: &'static str) -> Row {
    Row {
        width: 3,
        height: 3,
        wrap_in: true,
        pins: Some(pins),
        ..CHECKERS
    }
}

/// The checkers wrapped, a map of four by two, and these steps.
fn stepped(steps: &'static str) -> Row {
    Row {
        width: 4,
        wrap_in: true,
        steps: Some(steps),
        ..CHECKERS
    }
}

/// A map of three by three from this sample.
fn sampled(file: &'static str) -> Row {
    Row {
        file,
        width: 3,
        height: 3,
        ..CHECKERS
    }
}

/// The checkers wrapped.
fn wrapped() -> Row {
    Row {
        wrap_in: true,
        ..CHECKERS
    }
}

/// The checkers wrapped, and a map of three by four that is a ring, of which the cells are put in the order of the lines.
fn ring_in_cells() -> Row {
    Row {
        width: 3,
        height: 4,
        wrap_out: true,
        rule: RuleKind::Scanline,
        form: Some(Form::Cells),
        ..wrapped()
    }
}

/// The checkers with all of their images.
fn turned() -> Row {
    Row {
        symmetry: 8,
        ..CHECKERS
    }
}

/// A demonstration of this number.
fn numbered(number: u32) -> Row {
    Row { number, ..CHECKERS }
}

/// A map of three by two, and its refutation.
fn refuted() -> Row {
    Row {
        width: 3,
        steps: Some("x.txt"),
        ..CHECKERS
    }
}

/// A map that is narrower than a window.
fn narrow() -> Row {
    Row {
        width: 1,
        ..CHECKERS
    }
}

/// A map of windows of one by one with more values than a problem has.
fn large() -> Row {
    Row {
        source: SourceModel::Overlap { n: 1 },
        width: 4096,
        height: 2049,
        ..sampled("a.txt")
    }
}

/// A map from a sample that isn't there, by a rule that has no chooser.
fn ranked() -> Row {
    Row {
        rule: RuleKind::Ranked,
        ..sampled("none.txt")
    }
}

/// A map of symbols in a form of colours, and pins that aren't there.
fn in_colours() -> Row {
    Row {
        form: Some(Form::P6),
        ..pinned("none.txt")
    }
}

/// Pins and steps that both have a fault.
fn pinned_and_stepped() -> Row {
    Row {
        pins: Some("z.txt"),
        ..stepped("u.txt")
    }
}

/// The rule has no chooser.
fn unchosen() -> Fault {
    refused(Refusal::Chooser {
        rule: RuleKind::Ranked,
    })
}

/// The form isn't of the model.
fn unrendered() -> Fault {
    refused(Refusal::Render {
        fault: RenderFault::FormDiffers,
    })
}

fn pins(fault: PinFault) -> Fault {
    refused(Refusal::Pins { fault })
}

fn steps(fault: StepFault) -> Fault {
    refused(Refusal::Steps { fault })
}

fn range(fault: RangeFault) -> Fault {
    refused(Refusal::Range { fault })
}

fn learned(fault: LearnFault) -> Fault {
    refused(Refusal::Learn { fault })
}

#[test]
fn refuses_by_the_first_fault(rt: HostRuntime) -> Result<(), Fail> {
    let fill = CommandKind::Fill;
    let learn = CommandKind::Learn;
    refuses(&rt, fill, narrow(), build(BuildFault::SizeBelowN))?;
    refuses(&rt, learn, sampled("e.txt"), grid(GridFault::Empty))?;
    refuses(
        &rt,
        learn,
        sampled("r.txt"),
        grid(GridFault::Ragged { line: 2 }),
    )?;
    refuses(
        &rt,
        fill,
        sampled("a.txt"),
        learned(LearnFault::SampleBelowN),
    )?;
    refuses(
        &rt,
        fill,
        large(),
        build(BuildFault::TooLarge { product: 8_392_704 }),
    )?;
    refuses(&rt, fill, sampled("none.txt"), missing(Source::Sample))?;
    refuses(&rt, fill, ranked(), unchosen())
}

#[test]
fn refuses_pins_by_the_first_fault(rt: HostRuntime) -> Result<(), Fail> {
    let fill = CommandKind::Fill;
    refuses(
        &rt,
        fill,
        pinned("z.txt"),
        build(BuildFault::UnknownSymbol { line: 1 }),
    )?;
    refuses(
        &rt,
        fill,
        pinned("o.txt"),
        build(BuildFault::PinOutside { line: 1 }),
    )?;
    refuses(
        &rt,
        fill,
        pinned("b.txt"),
        pins(PinFault::BadLine { line: 1 }),
    )?;
    refuses(&rt, fill, in_colours(), unrendered())?;
    refuses(&rt, fill, pinned("none.txt"), missing(Source::Pins))
}

#[test]
fn refuses_steps_by_the_first_fault(rt: HostRuntime) -> Result<(), Fail> {
    let domains = CommandKind::Domains;
    refuses(
        &rt,
        domains,
        stepped("u.txt"),
        steps(StepFault::NothingToUndo { line: 1 }),
    )?;
    refuses(
        &rt,
        domains,
        stepped("w.txt"),
        steps(StepFault::BadLine { line: 1 }),
    )?;
    refuses(
        &rt,
        domains,
        stepped("c.txt"),
        range(RangeFault::OutOfRange { line: 1 }),
    )?;
    refuses(&rt, domains, stepped("none.txt"), missing(Source::Steps))?;
    refuses(
        &rt,
        domains,
        pinned_and_stepped(),
        build(BuildFault::UnknownSymbol { line: 1 }),
    )
}

#[test]
fn refuses_refutations_by_the_first_fault(rt: HostRuntime) -> Result<(), Fail> {
    let upgrade = CommandKind::Upgrade;
    refuses(&rt, CommandKind::Refute, ranked(), unchosen())?;
    refuses(&rt, CommandKind::Race, ranked(), unchosen())?;
    refuses(
        &rt,
        upgrade,
        stepped("none.txt"),
        missing(Source::Refutation),
    )?;
    refuses(&rt, upgrade, sampled("none.txt"), missing(Source::Sample))
}
