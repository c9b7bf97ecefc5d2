//! Growth for the tests, by choosers of the least cell and the words of seed 0.

ghost use Rattle.std.specs.Prelude.{◌≡◌, ◌<◌, map, vec_len, All, IsTrue};
ghost use Rattle.wfc_blocks.specs.Growth.{AreNumbersBelow};
ghost use Rattle.wfc_choose.specs.Pick.{Rule};
ghost use Rattle.wfc_choose.specs.declared.RuleKind.TheVariants.{Scanline};
ghost use Rattle.wfc_picture.specs.declared.palette.TheConstants.{MAX_COLOURS};

use std::alloc::Global;
use std::marker::Brand;
use std::process::Abort;
use std::sync::ledger::{Blank, Ledger};
use std::test::Fail;
use wfc_blocks::{GrowFault, Grown, grow};
use wfc_choose::{Chooser, RuleKind, Scanning};
use wfc_domains::Steps;
use wfc_pattern::{LearnFault, Patterns, learn};
use wfc_picture::{Palette, PaletteFault, Picture, Symbol};
use wfc_pins::{PinFault, PinLine, read_pins};

/// What is grown: an area's sides, the longest side of a block, the text of a pins file, and the
/// budget of each block.
#[derive(Clone, Copy)]
pub(super) struct Asked<'a> {
    pub width: u32,
    pub height: u32,
    pub side: u32,
    pub pins: &'a [u8],
    pub budget: u32,
}

/// The picture and the palette of a text of letters in rows of this width.
pub(super) fn indexed(
    rt: &impl Abort,
    alloc: Global,
    letters: &[u8],
    width: u32,
) -> Result<(Picture, Palette), Fail> {
    let mut symbols = Vec::new(alloc);
    for letter in letters {
        symbols.push(Symbol::Char(*letter))?;
    }
    Ok(numbered(rt, alloc, &symbols, width)?)
}

/// The same of symbols.
fn numbered(
    rt: &impl Abort,
    alloc: Global,
    symbols: &[Symbol],
    width: u32,
) -> Result<(Picture, Palette), PaletteFault> {
    assert!(rt; 0 < width && 0 < symbols.len() && symbols.len() <= 1_000_000);
    assert!(rt; symbols.len() % width as usize == 0);
    Palette::index(alloc, symbols, width)
}

/// The patterns of two by two of a picture.
pub(super) fn taught(
    rt: &impl Abort,
    alloc: Global,
    picture: &Picture,
    wrap: bool,
) -> Result<Patterns, LearnFault> {
    assert!(rt; picture.width() as u64 * picture.height() as u64 <= 1_048_576);
    learn(alloc, picture, 2, 1, wrap)
}

/// The lines of a pins file.
fn lines_of(rt: &impl Abort, alloc: Global, text: &[u8]) -> Result<Vec<PinLine>, PinFault> {
    assert!(rt; text.len() < 1_000_000);
    read_pins(alloc, text)
}

/// Whether each number of each pattern is one that a palette may have.
fn are_small(patterns: &Patterns) -> bool
    ensures small { IsTrue result → AreNumbersBelow MAX_COLOURS patterns.now }
{
    for v in 0..patterns.count() {
        if !all_small(patterns.window(v)) {
            return false;
        }
    }
    true
}

/// Whether each number is one that a palette may have.
fn all_small(numbers: &[u32]) -> bool
    ensures small { IsTrue result → All (λ number. number < MAX_COLOURS) numbers.now }
{
    numbers.iter().all(|number| *number < 4096)
}

/// Whether a chooser takes the least cell.
fn is_scanline(chooser: &Box<dyn Chooser>) -> bool
    ensures kind { IsTrue result → (told chooser.now).rule.kind ≡ Scanline }
{
    match chooser.kind() {
        RuleKind::Scanline => true,
        _ => false,
    }
}

/// Whether all choosers take the least cell.
fn are_scanlines(choosers: &[Box<dyn Chooser>]) -> bool
    ensures kinds { IsTrue result → All (λ (rule : Rule). rule.kind ≡ Scanline)
        (map (λ chooser. (told chooser).rule) choosers.now) }
{
    for chooser in choosers {
        if !is_scanline(chooser) {
            return false;
        }
    }
    true
}

/// What is grown of these patterns.
pub(super) fn grown(
    rt: &impl Abort,
    alloc: Global,
    patterns: &Patterns,
    palette: &Palette,
    asked: Asked<'_>,
) -> Result<Result<Grown, GrowFault>, Fail> {
    counted::<Brand>(rt, alloc, patterns, palette, asked, Blank::new(1))
}

/// The same, with its steps counted in a ledger of its own.
fn counted<L: Ledger>(
    rt: &impl Abort,
    alloc: Global,
    patterns: &Patterns,
    palette: &Palette,
    asked: Asked<'_>,
    blank: Blank,
) -> Result<Result<Grown, GrowFault>, Fail>
    requires name { blank.name ≡ L.name }
    requires parts { blank.parts ≡ L.parts }
    requires some { 0 < blank.parts }
{
    assert!(rt; are_small(patterns));
    let mut choosers: Vec<Box<dyn Chooser>> = Vec::new(alloc);
    for _ in 0..64 {
        let chooser: Box<dyn Chooser> = Box::new(alloc, Scanning::scanline(alloc))?;
        choosers.push(chooser)?;
    }
    assert!(rt; choosers.len() == 64);
    assert!(rt; are_scanlines(&choosers));
    let lines = lines_of(rt, alloc, asked.pins)?;
    let mut steps = Steps::<L>::new(blank);
    Ok(grown_by(
        rt, alloc, patterns, palette, asked, &lines, choosers, &mut steps,
    ))
}

/// What is grown by these lines of pins and these choosers.
fn grown_by<L: Ledger>(
    rt: &impl Abort,
    alloc: Global,
    patterns: &Patterns,
    palette: &Palette,
    asked: Asked<'_>,
    lines: &[PinLine],
    choosers: Vec<Box<dyn Chooser>>,
    steps: &mut Steps<L>,
) -> Result<Grown, GrowFault>
    requires small { AreNumbersBelow MAX_COLOURS patterns.now }
    requires choosers { vec_len choosers ≡ 64 }
    requires kinds { All (λ (rule : Rule). rule.kind ≡ Scanline)
        (map (λ chooser. (told chooser).rule) choosers.items) }
{
    let Asked {
        width,
        height,
        side,
        budget,
        ..
    } = asked;
    assert!(rt; 0 < width && width <= 4096);
    assert!(rt; 0 < height && height <= 4096);
    assert!(rt; patterns.n() <= side && side <= 4096);
    grow(
        alloc, patterns, palette, width, height, side, lines, choosers, 0, budget, steps,
    )
}
