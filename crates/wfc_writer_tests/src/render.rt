//! Layouts, texts and blocks, by tables.

mod colours;
mod learned;
mod tiles;

ghost use Rattle.std.specs.Prelude.{◌≡◌, ◌*◌, ◌≤◌, map, IfOk};
ghost use Rattle.wfc_picture.specs.declared.palette.TheConstants.{MAX_PIXELS};
ghost use Rattle.wfc_picture.specs.declared.symbol.Symbol.TheVariants.{Char};

use std::alloc::{AllocError, Global};
use std::process::Abort;
use std::test::Fail;
use wfc_domains::Domains;
use wfc_grid::Grid;
use wfc_outside::{MemorySink, SinkFault};
use wfc_picture::{Kind, Palette, Symbol};
use wfc_problem::{NO_CELL, Parts, Problem};
use wfc_render::laws::layouts_are_as_asked;
use wfc_render::{Form, Layout, RenderFault, layout, picture_bytes, write_block};

/// Whether a map has this layout, or none for this reason.
fn is_laid_out(
    rt: &impl Abort,
    kind: Kind,
    form: Option<Form>,
    width: u32,
    height: u32,
    side: u32,
    wanted: Result<Form, RenderFault>,
) {
    assert!(rt; 1 <= width && width <= 4096 && 1 <= height && height <= 4096);
    assert!(rt; 1 <= side && side <= 64);
    let wanted = wanted.map(|form| Layout {
        kind,
        form,
        width,
        height,
        side,
    });
    assert_eq!(rt; layout(kind, form, width, height, side), wanted);
}

#[test]
fn lays_out(rt: HostRuntime) {
    let ppm = Kind::Ppm { maxval: 255 };
    let differs = Err(RenderFault::FormDiffers);
    let large = Err(RenderFault::TooLarge { pixels: 17_039_360 });
    is_laid_out(&rt, Kind::Grid, None, 3, 2, 1, Ok(Form::Grid));
    is_laid_out(&rt, Kind::Grid, Some(Form::Cells), 3, 2, 1, Ok(Form::Cells));
    is_laid_out(&rt, Kind::Grid, Some(Form::P6), 4096, 4096, 64, differs);
    is_laid_out(&rt, ppm, None, 3, 2, 1, Ok(Form::P6));
    is_laid_out(&rt, ppm, Some(Form::P3), 4096, 4096, 1, Ok(Form::P3));
    is_laid_out(&rt, ppm, Some(Form::Grid), 3, 2, 1, differs);
    is_laid_out(&rt, Kind::Plain, None, 3, 2, 1, Ok(Form::Cells));
    is_laid_out(&rt, Kind::Plain, Some(Form::Grid), 3, 2, 1, differs);
    is_laid_out(&rt, Kind::Plain, None, 64, 64, 64, Ok(Form::Cells));
    is_laid_out(&rt, Kind::Plain, None, 64, 65, 64, large);
}

fn symbols_of(alloc: Global, bytes: &[u8]) -> Result<Vec<Symbol>, AllocError>
    ensures symbols { IfOk result (λ symbols. symbols.items ≡ map Char bytes.now) }
{
    bytes.iter().map(|byte| Symbol::Char(*byte)).collect(alloc)
}

/// The grid's own text in a form.
fn text_of(alloc: Global, grid: &Grid, form: Form) -> Result<Vec<u8>, Fail>
    requires width_limit { grid.now.width ≤ 4096 }
    requires height_limit { grid.now.height ≤ 4096 }
    requires limit { grid.now.width * grid.now.height ≤ MAX_PIXELS }
{
    layouts_are_as_asked();
    let bytes = grid.as_bytes();
    let symbols = symbols_of(alloc, bytes)?;
    let (picture, palette) = Palette::index(alloc, &symbols, grid.width)?;
    let laid = layout(Kind::Grid, Some(form), grid.width, grid.height, 1)?;
    Ok(picture_bytes(alloc, &laid, &palette, &picture)?)
}

/// The text of the grid that a text spells, in a form.
fn written(rt: &impl Abort, alloc: Global, text: &[u8], form: Form) -> Result<Vec<u8>, Fail> {
    assert!(rt; text.len() < 100_000);
    let grid = wfc_grid::read(alloc, text)?;
    assert!(rt; grid.width <= 4096 && grid.height <= 4096);
    text_of(alloc, &grid, form)
}

#[test]
fn writes_maps(rt: HostRuntime) -> Result<(), Fail> {
    let cases = [
        (
            b"ab\nb \naa\n".as_slice(),
            Form::Grid,
            b"ab\nb \naa\n".as_slice(),
        ),
        (b"ab\nb \naa\n", Form::Cells, b"0 1\n1 2\n0 0\n"),
        (b"x\n", Form::Cells, b"0\n"),
        (
            b"abcdefghijkl\n",
            Form::Cells,
            b"0 1 2 3 4 5 6 7 8 9 10 11\n",
        ),
    ];
    for (text, form, wanted) in cases {
        assert_eq!(rt; written(&rt, rt.alloc(), text, form)?.as_slice(), wanted);
    }
    Ok(())
}

/// A grid of 256 by 256 characters.
fn large_grid(alloc: Global) -> Result<Vec<u8>, AllocError> {
    let mut text = Vec::new(alloc);
    for y in 0..256_u32 {
        for x in 0..256_u32 {
            text.push(b'a' + ((x + 3 * y) % 26) as u8)?;
        }
        text.push(b'\n')?;
    }
    Ok(text)
}

#[test]
fn writes_large_grids(rt: HostRuntime) -> Result<(), Fail> {
    let text = large_grid(rt.alloc())?;
    assert!(rt; written(&rt, rt.alloc(), &text, Form::Grid)? == text);
    Ok(())
}

/// No value may stand beside another, of two.
fn no_supports(alloc: Global) -> Result<Vec<Vec<u16>>, AllocError> {
    let mut supports = Vec::new(alloc);
    for _ in 0..8 {
        supports.push(Vec::new(alloc))?;
    }
    Ok(supports)
}

/// Domains of two values, with this base.
fn domains_of(alloc: Global, cells: u32, base: Vec<bool>) -> Result<Domains, Fail>
    requires limit { cells ≤ 1048576 }
    ensures values { IfOk result (λ domains. domains.values ≡ 2) }
    ensures cells { IfOk result (λ domains. domains.cells ≡ cells) }
{
    let problem = Problem::new(Parts {
        cells,
        dirs: 4,
        neighbours: vec![in alloc; NO_CELL; cells as usize * 4]?,
        weights: Vec::from_slice(alloc, &[1, 1])?,
        supports: no_supports(alloc)?,
        base,
    })?;
    Ok(Domains::new(alloc, &problem)?)
}

/// Writes the block of a step with domains of two values.
fn put(rt: &impl Abort, sink: &mut MemorySink, step: u32, shown: &Domains, cells: u32)
    requires values { shown.now.values ≡ 2 }
    requires cells { shown.now.cells ≡ cells }
{
    assert_eq!(rt; write_block(sink, step, Some(shown), 2, cells), Ok(()));
}

/// Writes the block of a step without domains, of which this comes.
fn put_dead(rt: &impl Abort, sink: &mut MemorySink, step: u32, wanted: Result<(), SinkFault>) {
    assert_eq!(rt; write_block(sink, step, None, 2, 3), wanted);
}

/// Whether the sink took these bytes.
fn took(rt: &impl Abort, sink: &MemorySink, wanted: &[u8]) {
    assert_eq!(rt; sink.bytes(), wanted);
}

#[test]
fn writes_dead_blocks(rt: HostRuntime) -> Result<(), Fail> {
    let mut sink = MemorySink::new(rt.alloc(), 3, 16)?;
    put_dead(&rt, &mut sink, 4_294_967_295, Err(SinkFault::Failed));
    took(&rt, &sink, b"step 4294967295\n");
    Ok(())
}

#[test]
fn writes_blocks(rt: HostRuntime) -> Result<(), Fail> {
    let base = Vec::from_slice(rt.alloc(), &[false, true, true, true, false, false])?;
    let domains = domains_of(rt.alloc(), 3, base)?;
    let mut sink = MemorySink::new(rt.alloc(), 1, 64)?;
    put(&rt, &mut sink, 0, &domains, 3);
    put_dead(&rt, &mut sink, 1, Ok(()));
    took(&rt, &sink, b"step 0\n0: 1\n1: 0 1\n2:\nstep 1\ndead\n");
    Ok(())
}

/// Whether the sink took so many bytes, and these at their end.
fn took_up_to(rt: &impl Abort, sink: &MemorySink, count: usize, end: &[u8]) {
    assert_eq!(rt; sink.bytes().len(), count);
    assert!(rt; sink.bytes().ends_with(end));
}

#[test]
fn writes_large_blocks(rt: HostRuntime) -> Result<(), Fail> {
    let base = vec![in rt.alloc(); true; 200_000]?;
    let domains = domains_of(rt.alloc(), 100_000, base)?;
    let mut sink = MemorySink::new(rt.alloc(), 5000, 2_000_000)?;
    put(&rt, &mut sink, 12, &domains, 100_000);
    took_up_to(&rt, &sink, 1_088_898, b"99998: 0 1\n99999: 0 1\n");
    Ok(())
}
