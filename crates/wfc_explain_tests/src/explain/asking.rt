//! Explanations for the tests, by choosers of the least cell and the words of seed 0.

ghost use Rattle.std.specs.Prelude.{◌≡◌, ◌+◌, ◌<◌, map, vec_len, All, IsTrue};
ghost use Rattle.wfc_choose.specs.Pick.{Rule};
ghost use Rattle.wfc_choose.specs.declared.RuleKind.TheVariants.{Scanline};

use std::alloc::{AllocError, Global};
use std::marker::Brand;
use std::process::Abort;
use std::sync::ledger::{Blank, Ledger};
use std::test::Fail;
use wfc_choose::{Chooser, RuleKind, Scanning};
use wfc_domains::Steps;
use wfc_explain::{Explained, Kept, OverlapPins, PinnedProblem, TilePins, explain};
use wfc_grid::{Grid, GridFault};
use wfc_pattern::{LearnFault, Patterns, learn};
use wfc_picture::{Palette, PaletteFault, Picture, Symbol};
use wfc_pins::{BuildFault, PinFault, PinLine, read_pins};
use wfc_tiled::{Mask, MaskFault, mask};
use wfc_tileset::{TileFault, TileSet, read};

/// The width and the height of an output, and whether it wraps.
pub(super) type Sides = (u32, u32, bool);

/// One straight line, which may go on to the right.
const LINES: &[u8] =
    b"[[tile]]\nname = 'line'\nclass = 'I'\n[[pair]]\nleft = 'line 0'\nright = 'line 0'\n";

/// What an explanation is to be.
#[derive(Clone, Copy)]
pub(super) enum Wanted<'a> {
    Core(&'a [Kept]),
    MapExists,
    Spent,
}

/// The lines of a pins file.
pub(super) fn lines_of(
    rt: &impl Abort,
    alloc: Global,
    text: &[u8],
) -> Result<Vec<PinLine>, PinFault> {
    assert!(rt; text.len() < 1_000_000);
    read_pins(alloc, text)
}

/// The palette of `a` and `b`.
pub(super) fn letters(alloc: Global) -> Result<Palette, PaletteFault> {
    let (_picture, palette) = Palette::index(alloc, &[Symbol::Char(b'a'), Symbol::Char(b'b')], 1)?;
    Ok(palette)
}

/// The patterns of two by two of a picture.
fn taught(
    rt: &impl Abort,
    alloc: Global,
    picture: &Picture,
    wrap: bool,
) -> Result<Patterns, LearnFault> {
    assert!(rt; picture.width() as u64 * picture.height() as u64 <= 1_048_576);
    learn(alloc, picture, 2, 1, wrap)
}

/// The patterns of `ab/ba`, where it wraps and where it doesn't.
pub(super) fn checkerboard(rt: &impl Abort, alloc: Global, wrap: bool) -> Result<Patterns, Fail> {
    let picture = Picture::new(2, 2, Vec::from_slice(alloc, &[0, 1, 1, 0])?)?;
    Ok(taught(rt, alloc, &picture, wrap)?)
}

/// The tile set of a straight line.
pub(super) fn lines_set(rt: &impl Abort, alloc: Global) -> Result<TileSet, TileFault> {
    assert!(rt; LINES.len() < 1_000_000);
    read(alloc, LINES)
}

/// The grid of a text.
fn grid_of(rt: &impl Abort, alloc: Global, text: &[u8]) -> Result<Grid, GridFault> {
    assert!(rt; text.len() < 2_000_000);
    wfc_grid::read(alloc, text)
}

/// The mask of a grid for a map of these sides.
fn mask_for(
    rt: &impl Abort,
    alloc: Global,
    grid: &Grid,
    width: u32,
    height: u32,
) -> Result<Mask, MaskFault> {
    assert!(rt; 0 < width && width <= 4096 && 0 < height && height <= 4096);
    assert!(rt; grid.as_bytes().len() <= 1_048_576);
    mask(alloc, grid, width, height)
}

/// The mask of a text for a map of these sides.
pub(super) fn mask_of(
    rt: &impl Abort,
    alloc: Global,
    text: &[u8],
    sides: Sides,
) -> Result<Mask, Fail> {
    let (width, height, _wrap) = sides;
    let grid = grid_of(rt, alloc, text)?;
    Ok(mask_for(rt, alloc, &grid, width, height)?)
}

/// The pinned problem of a sample, or why there is none.
pub(super) fn sample_pins<'a>(
    rt: &impl Abort,
    alloc: Global,
    patterns: &'a Patterns,
    palette: &Palette,
    sides: Sides,
    lines: &[PinLine],
) -> Result<OverlapPins<'a>, BuildFault> {
    let (width, height, wrap) = sides;
    assert!(rt; 0 < width && width <= 4096);
    assert!(rt; 0 < height && height <= 4096);
    assert!(rt; lines.len() <= 1_000_000);
    OverlapPins::new(alloc, patterns, palette, width, height, wrap, lines)
}

/// The pinned problem of a tile set, or why there is none.
pub(super) fn tile_pins<'a>(
    rt: &impl Abort,
    alloc: Global,
    tiles: &'a TileSet,
    sides: Sides,
    mask: Option<&'a Mask>,
    lines: &[PinLine],
) -> Result<TilePins<'a>, BuildFault> {
    let (width, height, wrap) = sides;
    assert!(rt; 0 < width && width <= 4096);
    assert!(rt; 0 < height && height <= 4096);
    assert!(rt; lines.len() <= 1_000_000);
    if let Some(mask) = mask {
        assert!(rt; mask.width() == width && mask.height() == height);
    }
    TilePins::new(alloc, tiles, width, height, wrap, mask, lines)
}

/// Whether a chooser takes the least cell.
fn is_scanline(chooser: &Box<dyn Chooser>) -> bool
    ensures kind { IsTrue result → (told chooser.now).rule.kind ≡ Scanline }
{
    match chooser.kind() {
        RuleKind::Scanline => true,
        _ => false,
    }
}

/// Whether all choosers take the least cell.
fn are_scanlines(choosers: &[Box<dyn Chooser>]) -> bool
    ensures kinds { IsTrue result → All (λ (rule : Rule). rule.kind ≡ Scanline)
        (map (λ chooser. (told chooser).rule) choosers.now) }
{
    for chooser in choosers {
        if !is_scanline(chooser) {
            return false;
        }
    }
    true
}

/// Whether the explanation of a pinned problem with this budget is this one.
pub(super) fn explains<M: PinnedProblem>(
    rt: &impl Abort,
    alloc: Global,
    pinned: &M,
    budget: u32,
    wanted: Wanted<'_>,
) -> Result<(), Fail> {
    counted::<M, Brand>(rt, alloc, pinned, budget, wanted, Blank::new(1))
}

/// The same, with its steps counted in a ledger of its own.
fn counted<M: PinnedProblem, L: Ledger>(
    rt: &impl Abort,
    alloc: Global,
    pinned: &M,
    budget: u32,
    wanted: Wanted<'_>,
    blank: Blank,
) -> Result<(), Fail>
    requires name { blank.name ≡ L.name }
    requires parts { blank.parts ≡ L.parts }
    requires some { 0 < blank.parts }
{
    let lines = pinned.lines();
    assert!(rt; lines < 1_000_000);
    let mut choosers: Vec<Box<dyn Chooser>> = Vec::new(alloc);
    for _ in 0..lines + 1 {
        let chooser: Box<dyn Chooser> = Box::new(alloc, Scanning::scanline(alloc))?;
        choosers.push(chooser)?;
    }
    assert!(rt; choosers.len() == lines as usize + 1);
    assert!(rt; are_scanlines(&choosers));
    let mut steps = Steps::<L>::new(blank);
    explained_by(rt, alloc, pinned, choosers, budget, wanted, &mut steps);
    Ok(())
}

/// Whether the explanation by these choosers is this one.
fn explained_by<M: PinnedProblem, L: Ledger>(
    rt: &impl Abort,
    alloc: Global,
    pinned: &M,
    choosers: Vec<Box<dyn Chooser>>,
    budget: u32,
    wanted: Wanted<'_>,
    steps: &mut Steps<L>,
)
    requires choosers { vec_len choosers ≡ (M.seen pinned.now).lines + 1 }
    requires kinds { All (λ (rule : Rule). rule.kind ≡ Scanline)
        (map (λ chooser. (told chooser).rule) choosers.items) }
{
    assert!(rt; budget <= 1_000_000_000);
    let Ok(explained) = explain(alloc, pinned, choosers, 0, budget, steps) else {
        panic!(rt; "memory ran out");
    };
    is_wanted(rt, &explained, wanted);
}

/// Looks whether an explanation is this one.
fn is_wanted(rt: &impl Abort, explained: &Explained, wanted: Wanted<'_>) {
    match (explained, wanted) {
        (Explained::Core(core), Wanted::Core(lines)) => assert!(rt; core.list() == lines),
        (Explained::MapExists, Wanted::MapExists) => {}
        (Explained::Spent, Wanted::Spent) => {}
        _ => panic!(rt; "another explanation"),
    }
}
