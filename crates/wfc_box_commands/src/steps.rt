//! The steps of tasks on boxes that read no file.

ghost use Rattle.std.specs.Prelude.{IfOk, length, ◌≡◌, ◌≤◌};
ghost use Rattle.wfc_box.specs.Boxes.{IsFrame};
ghost use Rattle.wfc_box_commands.specs.BoxFilling.{IsBoxed};
ghost use Rattle.wfc_box_commands.specs.BoxProofs.{box_shape};
ghost use Rattle.wfc_box_commands.specs.BoxSteps.{box_lines_in, frame_asked, box_form, posed_box, stacked_in};
ghost use Rattle.wfc_outside.specs.Gives.{Gives};

use std::alloc::Global;
use wfc_box::{BoxPin, Stacks, box_layout, build, read_box_pins, stacks};
use wfc_outside::MAX_FILE_BYTES;
use wfc_plan::Refusal;
use wfc_problem::Problem;
use wfc_proof::Shape;
use wfc_render::Form;
use wfc_tileset::TileSet;
use wfc_words::Request;

/// Which variants of a tile set may stand on which, by the stacks of the document with these bytes.
pub(crate) fn stacks_in(alloc: Global, tiles: &TileSet, bytes: &[u8]) -> Result<Stacks, Refusal>
    ensures exact { Gives Refusal.NoMemory (λ made. made) result (stacked_in tiles.now bytes.now) }
{
    Ok(stacks(alloc, bytes, tiles)?)
}

/// The form in which a box of a tile set is written.
pub(crate) fn box_form(tiles: &TileSet, request: &Request) -> Result<Form, Refusal>
    requires frame { IsFrame (frame_asked request.now) }
    ensures exact { result ≡ box_form tiles.now request.now }
{
    let kind = tiles.kind();
    let side = tiles.side();
    Ok(box_layout(
        kind,
        request.form,
        request.width,
        request.height,
        request.depth,
        side,
    )?)
}

/// The pins and bans of the bytes of a box's pins file.
pub(crate) fn box_lines(alloc: Global, bytes: &[u8]) -> Result<Vec<BoxPin>, Refusal>
    requires short { length bytes.now ≤ MAX_FILE_BYTES }
    ensures exact { Gives Refusal.NoMemory (λ lines. lines.items) result (box_lines_in bytes.now) }
{
    Ok(read_box_pins(alloc, bytes)?)
}

/// The problem of a tile set, its stacks and the lines of a pins file.
pub(crate) fn posed_box(
    alloc: Global,
    request: &Request,
    tiles: &TileSet,
    stacks: &Stacks,
    lines: &[BoxPin],
) -> Result<Problem, Refusal>
    requires frame { IsFrame (frame_asked request.now) }
    ensures exact { Gives Refusal.NoMemory (λ made. made) result
        (posed_box request.now tiles.now stacks.now lines.now) }
    ensures boxed { IfOk result (IsBoxed request.now tiles.now) }
{
    Ok(build(
        alloc,
        tiles,
        stacks,
        request.width,
        request.height,
        request.depth,
        request.wrap_out,
        lines,
    )?)
}

/// The shape of the box that is asked for.
pub(crate) fn box_shape(request: &Request) -> Shape
    ensures value { result ≡ box_shape request.now }
{
    Shape {
        n: 0,
        width: request.width,
        height: request.height,
        depth: request.depth,
        symmetry: 1,
        wrap_in: false,
        wrap_out: request.wrap_out,
    }
}
