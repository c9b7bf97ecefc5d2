//! The line of a fault: which kind of line it is, and the file that it names.

ghost use Rattle.std.specs.Prelude.{◌≡◌};
ghost use Rattle.wfc_cli.specs.ErrorLine.{fault_text, no_grid_text, tile_picture_text, refusal_text, unread_text};
ghost use Rattle.wfc_lines.specs.Line.{line};
ghost use Rattle.wfc_outside.specs.Sink.{Puts};
ghost use Rattle.wfc_reply.specs.FileNames.{name_of};

use wfc_grid::GridFault;
use wfc_lines::{
    build, chooser, grid, learn, many_blocks, many_pins, mask, mask_grid, no_memory, palette, pins,
    ppm, race, range, render, stack, steps, tiles, unread_file,
};
use wfc_outside::{ReadFault, Sink, SinkFault};
use wfc_plan::{Fault, Refusal, Source};
use wfc_tileset::TileFault;
use wfc_words::Request;

/// Tells the line of a fault.
pub(crate) fn tell_fault<E: Sink>(
    err: &mut E,
    request: &Request,
    fault: Fault,
) -> Result<(), SinkFault>
    ensures told { Puts (E.seen err.old) (E.seen err.new) (line (fault_text request.now fault))
        result }
{
    match fault {
        Fault::Unread { source, fault } => tell_unread(err, source, fault, name(request, source)),
        Fault::Refused { refusal } => tell_refusal(err, request, refusal),
    }
}

/// Tells why a file isn't read.
fn tell_unread<E: Sink>(
    err: &mut E,
    source: Source,
    fault: ReadFault,
    file: &str,
) -> Result<(), SinkFault>
    ensures told { Puts (E.seen err.old) (E.seen err.new)
        (line (unread_text source fault file.now)) result }
{
    match source {
        Source::Picture { tile } => tell_picture(err, tile, fault, file),
        _ => unread_file(err, fault, file),
    }
}

/// Tells why the picture of a tile isn't read.
fn tell_picture<E: Sink>(
    err: &mut E,
    tile: u32,
    fault: ReadFault,
    file: &str,
) -> Result<(), SinkFault>
    ensures told { Puts (E.seen err.old) (E.seen err.new)
        (line (tile_picture_text tile fault file.now)) result }
{
    match fault {
        ReadFault::Missing => tiles(err, TileFault::Missing { tile }, file),
        ReadFault::Failed => tiles(err, TileFault::Failed { tile }, file),
        ReadFault::TooLong => tiles(err, TileFault::BadPicture { tile }, file),
        ReadFault::NoMemory => tiles(err, TileFault::NoMemory, file),
    }
}

/// Tells why a file is no grid.
fn tell_no_grid<E: Sink>(
    err: &mut E,
    source: Source,
    fault: GridFault,
    file: &str,
) -> Result<(), SinkFault>
    ensures told { Puts (E.seen err.old) (E.seen err.new)
        (line (no_grid_text source fault file.now)) result }
{
    match source {
        Source::Mask => mask_grid(err, fault, file),
        _ => grid(err, fault, file),
    }
}

/// The name of a file by what it is to the command.
pub(crate) fn name(request: &Request, source: Source) -> &str
    ensures value { result.now ≡ name_of request.now source }
{
    match source {
        Source::Sample => request.file(),
        Source::Pins => request.pins().unwrap_or(""),
        Source::Steps => request.steps().unwrap_or(""),
        Source::Refutation => request.refutation().unwrap_or(""),
        Source::Picture { .. } => request.file(),
        Source::Mask => request.mask().unwrap_or(""),
    }
}

fn tell_refusal<E: Sink>(err: &mut E, request: &Request, refusal: Refusal) -> Result<(), SinkFault>
    ensures told { Puts (E.seen err.old) (E.seen err.new) (line (refusal_text request.now refusal))
        result }
{
    match refusal {
        Refusal::Chooser { rule } => chooser(err, rule),
        Refusal::Grid { source, fault } => tell_no_grid(err, source, fault, name(request, source)),
        Refusal::Ppm { source, fault } => ppm(err, fault, name(request, source)),
        Refusal::Colours { fault } => palette(err, fault, name(request, Source::Sample)),
        Refusal::Learn { fault } => learn(err, fault, name(request, Source::Sample)),
        Refusal::Render { fault } => render(err, fault),
        Refusal::Pins { fault } => pins(err, fault, name(request, Source::Pins)),
        Refusal::Build { fault } => build(err, fault, name(request, Source::Pins)),
        Refusal::Steps { fault } => steps(err, fault, name(request, Source::Steps)),
        Refusal::Range { fault } => range(err, fault, name(request, Source::Steps)),
        Refusal::TooLong { source } => unread_file(err, ReadFault::TooLong, name(request, source)),
        Refusal::NoMemory => no_memory(err),
        Refusal::Tiles { fault } => tiles(err, fault, name(request, Source::Sample)),
        Refusal::Mask { fault } => mask(err, fault, name(request, Source::Mask)),
        Refusal::Stacks { fault } => stack(err, fault, name(request, Source::Sample)),
        Refusal::RaceTooLarge { product } => race(err, product),
        Refusal::TooManyPins { count } => many_pins(err, count, name(request, Source::Pins)),
        Refusal::TooManyBlocks { count } => many_blocks(err, count),
    }
}
