//! The steps of tasks that read no file.

ghost use Rattle.std.specs.Prelude.{IfOk, length, ◌%◌, ◌*◌, ◌<◌, ◌≡◌, ◌≤◌};
ghost use Rattle.wfc_model.specs.Raster.{height_of};
ghost use Rattle.wfc_outside.specs.Gives.{Gives};
ghost use Rattle.wfc_overlap.specs.Built.{picture_problem};
ghost use Rattle.wfc_pattern.specs.Learning.{patterns_of};
ghost use Rattle.wfc_pattern.specs.Patterns.{IsPatterns};
ghost use Rattle.wfc_picture.specs.Palette.{picture_and_palette};
ghost use Rattle.wfc_plan.specs.Plan.{or_refuse};
ghost use Rattle.wfc_plan.specs.declared.fault.Refusal.TheVariants.{Build, Colours, Learn};
ghost use Rattle.wfc_task.specs.Asked.{IsOutputAsked, IsSampleAsked};
ghost use Rattle.wfc_task.specs.Lesson.{HasShownNumbers, IsPosed, IsSampled};
ghost use Rattle.wfc_task.specs.Sampled.{sampled_view};
ghost use Rattle.wfc_task.specs.Steps.{grid_in, output_of_asked, patterns_taught, ppm_of_file, problem_of_lines};
ghost use Rattle.wfc_task.specs.Steps.{read_pin_lines, sample_in_numbers, sample_layout};

use crate::lesson::Taught;
use crate::sampled::Sampled;
use crate::sources::window_side_of;
use std::alloc::Global;
use wfc_grid::{Grid, MAX_GRID_BYTES};
use wfc_model::MAX_OUTPUT_SIDE;
use wfc_outside::MAX_FILE_BYTES;
use wfc_overlap::build;
use wfc_pattern::{Patterns, learn};
use wfc_picture::{Kind, MAX_PIXELS, Palette, Picture, Symbol};
use wfc_pins::{PinLine, read_pins};
use wfc_plan::{Refusal, Source};
use wfc_ppm::Ppm;
use wfc_problem::Problem;
use wfc_render::{Layout, layout};
use wfc_words::Request;

/// The grid that the bytes of a file spell.
pub(crate) fn grid(alloc: Global, source: Source, bytes: &[u8]) -> Result<Grid, Refusal>
    requires short { length bytes.now ≤ MAX_FILE_BYTES }
    ensures exact { Gives Refusal.NoMemory (λ made. made) result (grid_in source bytes.now) }
    ensures small { IfOk result (λ grid. grid.width * grid.height ≤ MAX_GRID_BYTES) }
    ensures few { IfOk result (λ grid. length grid.bytes ≤ MAX_GRID_BYTES) }
{
    wfc_grid::read(alloc, bytes).map_err(|fault| Refusal::of_grid(source, fault))
}

/// The picture of colours that the bytes of a file spell.
pub(crate) fn ppm(alloc: Global, source: Source, bytes: &[u8]) -> Result<Ppm, Refusal>
    requires short { length bytes.now ≤ MAX_FILE_BYTES }
    ensures exact { Gives Refusal.NoMemory (λ made. made) result (ppm_of_file source bytes.now) }
    ensures small { IfOk result (λ ppm. ppm.width * ppm.height ≤ MAX_PIXELS) }
{
    wfc_ppm::read(alloc, bytes).map_err(|fault| Refusal::of_ppm(source, fault))
}

/// The picture of a sample in numbers, and its palette.
pub(crate) fn sample_in_numbers(
    alloc: Global,
    sampled: &Sampled,
) -> Result<(Picture, Palette), Refusal>
    requires sampled { IsSampled (sampled_view sampled.now) }
    ensures exact { Gives Refusal.NoMemory (λ made. made) result
        (sample_in_numbers (sampled_view sampled.now)) }
    ensures numbered { IfOk result (λ made. HasShownNumbers sampled.now.kind made.0 made.1) }
    ensures small { IfOk result (λ made. made.0.width * height_of made.0 ≤ MAX_PIXELS) }
{
    numbered_picture(alloc, &sampled.symbols, sampled.width)
}

/// The picture of these symbols in numbers, and its palette.
pub fn numbered_picture(
    alloc: Global,
    symbols: &[Symbol],
    width: u32,
) -> Result<(Picture, Palette), Refusal>
    requires some_column { 0 < width }
    requires rows { length symbols.now % width ≡ 0 }
    requires some_pixel { 0 < length symbols.now }
    requires limit { length symbols.now ≤ MAX_PIXELS }
    ensures exact { Gives Refusal.NoMemory (λ made. made) result
        (or_refuse Colours (picture_and_palette symbols.now width)) }
    ensures small { IfOk result (λ made. made.0.width * height_of made.0 ≤ MAX_PIXELS) }
{
    Ok(Palette::index(alloc, symbols, width)?)
}

/// What a picture teaches by the request.
pub(crate) fn patterns_taught(
    alloc: Global,
    request: &Request,
    picture: &Picture,
) -> Result<Patterns, Refusal>
    requires sample { IsSampleAsked request.now }
    requires small { picture.now.width * height_of picture.now ≤ MAX_PIXELS }
    ensures exact { Gives Refusal.NoMemory (λ made. made) result
        (patterns_taught request.now picture.now) }
{
    let n = window_side_of(request.source);
    patterns_of_picture(alloc, picture, n, request.symmetry, request.wrap_in)
}

/// What a picture teaches: its windows of `n` by `n` pixels, each in its first `symmetry` images.
pub fn patterns_of_picture(
    alloc: Global,
    picture: &Picture,
    n: u32,
    symmetry: u8,
    wrap: bool,
) -> Result<Patterns, Refusal>
    requires some_side { 0 < n }
    requires small_side { n ≤ 6 }
    requires some_image { 0 < symmetry }
    requires eight_images { symmetry ≤ 8 }
    requires small { picture.now.width * height_of picture.now ≤ MAX_PIXELS }
    ensures exact { Gives Refusal.NoMemory (λ made. made) result
        (or_refuse Learn (patterns_of picture.now n symmetry wrap)) }
{
    Ok(learn(alloc, picture, n, symmetry, wrap)?)
}

/// How the map of a sample of this kind is written.
pub fn sample_layout(kind: Kind, request: &Request) -> Result<Layout, Refusal>
    requires output { IsOutputAsked request.now }
    ensures exact { result ≡ sample_layout kind request.now }
{
    Ok(layout(kind, request.form, request.width, request.height, 1)?)
}

/// The pins and bans of the bytes of a pins file.
pub(crate) fn read_pin_lines(alloc: Global, bytes: &[u8]) -> Result<Vec<PinLine>, Refusal>
    requires short { length bytes.now ≤ MAX_FILE_BYTES }
    ensures exact { Gives Refusal.NoMemory (λ pins. pins.items) result (read_pin_lines bytes.now) }
{
    Ok(read_pins(alloc, bytes)?)
}

/// The problem of what a sample teaches and the lines of a pins file.
pub(crate) fn problem_of_lines(
    alloc: Global,
    request: &Request,
    taught: &Taught,
    lines: &[PinLine],
) -> Result<Problem, Refusal>
    requires patterns { IsPatterns taught.now.patterns }
    requires output { IsOutputAsked request.now }
    ensures exact { Gives Refusal.NoMemory (λ made. made) result
        (problem_of_lines request.now taught.now.patterns taught.now.palette lines.now) }
    ensures posed { IfOk result (IsPosed request.now taught.now.patterns) }
{
    let output = AskedOutput {
        width: request.width,
        height: request.height,
        wrap: request.wrap_out,
    };
    posed_for(alloc, &taught.patterns, &taught.palette, output, lines)
}

/// A map that is to be made: its sides, in pixels, and whether it wraps.
#[derive(Clone, Copy)]
pub struct AskedOutput {
    pub width: u32,
    pub height: u32,
    pub wrap: bool,
}

/// The problem of patterns and the lines of a pins file.
pub fn posed_for(
    alloc: Global,
    patterns: &Patterns,
    palette: &Palette,
    output: AskedOutput,
    lines: &[PinLine],
) -> Result<Problem, Refusal>
    requires some_width { 0 < output.width }
    requires some_height { 0 < output.height }
    requires width_limit { output.width ≤ MAX_OUTPUT_SIDE }
    requires height_limit { output.height ≤ MAX_OUTPUT_SIDE }
    ensures exact { Gives Refusal.NoMemory (λ m. m) result (or_refuse Build
        (picture_problem patterns.now palette.now (output_of_asked output) lines.now)) }
{
    let AskedOutput {
        width,
        height,
        wrap,
    } = output;
    Ok(build(alloc, patterns, palette, width, height, wrap, lines)?)
}
