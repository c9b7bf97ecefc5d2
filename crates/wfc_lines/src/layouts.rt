//! The lines of a map without a layout.

ghost use Rattle.std.specs.Prelude.{◌≡◌};
ghost use Rattle.wfc_lines.specs.Line.{IsSaid};
ghost use Rattle.wfc_lines.specs.Render.{text_of_render};

use crate::line::{count, plain};
use wfc_outside::{Sink, SinkFault};
use wfc_render::RenderFault;

/// Puts why a map has no layout.
pub fn render<E: Sink>(err: &mut E, fault: RenderFault) -> Result<(), SinkFault>
    ensures told { IsSaid (E.seen err.old) (E.seen err.new) (text_of_render fault) result }
{
    match fault {
        RenderFault::FormDiffers => plain(err, "render FormDiffers"),
        RenderFault::TooLarge { pixels } => count(err, "render TooLarge pixels=", pixels),
    }
}
