//! Reading a grid.

ghost use Rattle.std.specs.Prelude.{◌≡◌, ◌≢◌, ◌*◌, ◌≤◌, ◌⊎◌, None, Some, length, position, IfOk, IfErr};
ghost use Rattle.wfc_outside.specs.Gives.{Gives};
ghost use Rattle.wfc_text.specs.Line.{lines_of};
ghost use Rattle.wfc_text.specs.View.{line_view};
ghost use Rattle.wfc_grid.specs.Grid.{GridView};
ghost use Rattle.wfc_grid.specs.Reading.{grid_of};
ghost use Rattle.wfc_grid.specs.Spelling.{SpellsGrid};
ghost use Rattle.wfc_grid.specs.Fault.{grid_bytes, first_fault, is_no_grid_byte, line_fault, width_of};

use crate::Grid;
use std::alloc::{AllocError, Global};
use thiserror::Error;
use wfc_outside::MAX_FILE_BYTES;
use wfc_text::{TextLine, lines};

/// How many bytes a grid may have.
pub const MAX_GRID_BYTES: usize = 1_048_576;

/// Why a text is no grid.
#[derive(Clone, Copy, Debug, PartialEq, Eq, Error)]
pub enum GridFault {
    #[error("the grid has no cell")]
    Empty,
    #[error("a line of the grid has another length than the first")]
    Ragged { line: u32 },
    #[error("a line of the grid has a byte that is no printable ASCII")]
    BadByte { line: u32, column: u32 },
    #[error("the grid has too many pixels")]
    TooLarge,
    #[error("memory ran out")]
    NoMemory,
}

impl From<AllocError> for GridFault {
    ghost use Rattle.std.specs.Prelude.{◌≡◌};
    ghost use Rattle.wfc_grid.specs.declared.reading.GridFault.TheVariants.{NoMemory};

    ghost from_gives = { λ _ fault. fault ≡ NoMemory };

    fn from(_error: AllocError) -> GridFault {
        GridFault::NoMemory
    }
}

/// The grid that a text spells: lines of one length, of bytes 0x20 to 0x7E, that end with LF or CRLF. The last line may
/// lack its end. A grid has at most 1,048,576 bytes.
///
/// The fault is the first one, line by line; in one line a bad byte comes before a wrong length. Lines and columns
/// count from 1. A text with more bytes than a grid may have is `TooLarge` only where all lines are right.
pub fn read(alloc: Global, bytes: &[u8]) -> Result<Grid, GridFault>
    requires limited { length bytes.now ≤ MAX_FILE_BYTES }
    ensures exact { Gives GridFault.NoMemory (λ grid. grid) result (grid_of bytes.now) }

    // A grid is answered exactly for a text that spells it within the limit.
    ensures ok { IfOk result (λ grid. SpellsGrid bytes.now grid) }
    ensures within { IfOk result (λ grid. grid.width * grid.height ≤ MAX_GRID_BYTES) }
    ensures refused { IfErr result (λ fault. fault ≢ GridFault.NoMemory → (grid : GridView) →
        SpellsGrid bytes.now grid → grid.width * grid.height ≤ MAX_GRID_BYTES → ⊥) }
{
    let width = first_width(bytes);
    if width == 0 {
        return Err(GridFault::Empty);
    }
    let pixels = pixels(alloc, bytes, width)?;
    if pixels.len() > MAX_GRID_BYTES {
        return Err(GridFault::TooLarge);
    }
    let height = pixels.len() / width;
    Ok(Grid {
        width: width as u32,
        height: height as u32,
        bytes: pixels,
    })
}

/// How many bytes the first line has; 0 where there is no line.
fn first_width(text: &[u8]) -> usize
    requires short { length text.now ≤ MAX_FILE_BYTES }
    ensures width { result ≡ width_of (lines_of text.now) }
{
    lines(text).next().map_or(0, |line| line.bytes.len())
}

/// The bytes of all lines, or the first fault of a line.
fn pixels(alloc: Global, text: &[u8], width: usize) -> Result<Vec<u8>, GridFault>
    requires short { length text.now ≤ MAX_FILE_BYTES }
    ensures right { IfOk result (λ _. first_fault width (lines_of text.now) ≡ None) }
    ensures pixels { IfOk result (λ pixels. pixels.items ≡ grid_bytes (lines_of text.now)) }
    ensures fault { IfErr result (λ fault.
        (first_fault width (lines_of text.now) ≡ Some fault) ⊎ (fault ≡ GridFault.NoMemory)) }
{
    let mut pixels = Vec::with_capacity(alloc, text.len())?;
    for line in lines(text) {
        check(&line, width)?;
        pixels.extend_from_slice(line.bytes)?;
    }
    Ok(pixels)
}

/// Answers the line's fault, if it has one.
fn check(line: &TextLine<'_>, width: usize) -> Result<(), GridFault>
    requires short { length line.now.bytes.now ≤ MAX_FILE_BYTES }
    ensures right { IfOk result (λ _. line_fault width (line_view line.now) ≡ None) }
    ensures fault { IfErr result (λ fault. line_fault width (line_view line.now) ≡ Some fault) }
{
    if let Some(at) = first_other(line.bytes) {
        return Err(GridFault::BadByte {
            line: line.number,
            column: at as u32 + 1,
        });
    }
    if line.bytes.len() != width {
        return Err(GridFault::Ragged { line: line.number });
    }
    Ok(())
}

/// The place of the first byte that may not stand in a grid.
fn first_other(bytes: &[u8]) -> Option<usize>
    ensures first { result ≡ position is_no_grid_byte bytes.now }
{
    bytes.iter().position(|byte| !matches!(*byte, 0x20..=0x7e))
}
