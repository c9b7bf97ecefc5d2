//! The text of domains after a step.

ghost use Rattle.std.specs.Prelude.{◌≡◌, ◌<◌, [], ◌∷◌, codes, filter, flat_map};
ghost use Rattle.std.specs.List.{range_with_len};
ghost use Rattle.std.specs.Option.{option_copied};
ghost use Rattle.wfc_log.specs.Domains.{has};
ghost use Rattle.wfc_outside.specs.Sink.{Puts};
ghost use Rattle.wfc_render.specs.Block.{IsSizedFor, block_text, cell_line, shown_text, test_of};
ghost use Rattle.wfc_render.specs.Gathering.{Gathers};
ghost use Rattle.wfc_render.specs.Numbers.{blank_numbers, head_line};

use crate::gathering::{Piece, flush, put, put_number};
use wfc_domains::Domains;
use wfc_outside::{Sink, SinkFault};

/// Writes the block of a step: its number, counted from 0 before the first step, and `dead`, or the values that stand at
/// each cell.
///
/// The bytes are gathered and put in large pieces. It takes no memory. After `Failed` the sink has taken a front of them.
pub fn write_block<S: Sink>(
    sink: &mut S,
    step: u32,
    shown: Option<&Domains>,
    values: u16,
    cells: u32,
) -> Result<(), SinkFault>
    requires sized { IsSizedFor (option_copied shown) values cells }
    ensures put { Puts (S.seen sink.old) (S.seen sink.new)
        (block_text step (test_of (option_copied shown.entry)) values cells) result }
{
    let mut piece = Piece::new();
    put_head(sink, &mut piece, step)?;
    put_shown(sink, &mut piece, shown, values, cells)?;
    flush(sink, &mut piece)
}

/// Gathers the line of the step.
fn put_head<S: Sink>(sink: &mut S, piece: &mut Piece, step: u32) -> Result<(), SinkFault>
    ensures gathered { Gathers (S.seen sink.old) (S.seen sink.new) piece.old
        (head_line (codes "step") step) piece.new result }
{
    put(sink, piece, b"step ")?;
    put_number(sink, piece, step)?;
    put(sink, piece, b"\n")
}

/// Gathers the lines of all cells, if domains are shown, else the line that says that they are dead.
fn put_shown<S: Sink>(
    sink: &mut S,
    piece: &mut Piece,
    shown: Option<&Domains>,
    values: u16,
    cells: u32,
) -> Result<(), SinkFault>
    requires sized { IsSizedFor (option_copied shown) values cells }
    ensures gathered { Gathers (S.seen sink.old) (S.seen sink.new) piece.old
        (shown_text (test_of (option_copied shown.entry)) values cells) piece.new result }
{
    match shown {
        None => put(sink, piece, b"dead\n"),
        Some(domains) => put_cells(sink, piece, domains, values, cells),
    }
}

/// Gathers the lines of all cells.
fn put_cells<S: Sink>(
    sink: &mut S,
    piece: &mut Piece,
    domains: &Domains,
    values: u16,
    cells: u32,
) -> Result<(), SinkFault>
    requires same_values { domains.now.values ≡ values }
    requires same_cells { domains.now.cells ≡ cells }
    ensures gathered { Gathers (S.seen sink.old) (S.seen sink.new) piece.old
        (flat_map (cell_line (has domains.now) values) (range_with_len 0 cells)) piece.new result }
{
    for cell in 0..cells {
        put_cell(sink, piece, domains, values, cell)?;
    }
    Ok(())
}

/// Gathers the line of a cell.
fn put_cell<S: Sink>(
    sink: &mut S,
    piece: &mut Piece,
    domains: &Domains,
    values: u16,
    cell: u32,
) -> Result<(), SinkFault>
    requires same_values { domains.now.values ≡ values }
    requires cell_in { cell < domains.now.cells }
    ensures gathered { Gathers (S.seen sink.old) (S.seen sink.new) piece.old
        (cell_line (has domains.now) values cell) piece.new result }
{
    put_number(sink, piece, cell)?;
    put(sink, piece, b":")?;
    put_values(sink, piece, domains, values, cell)?;
    put(sink, piece, b"\n")
}

/// Gathers the values that stand at a cell, each with a blank before it.
fn put_values<S: Sink>(
    sink: &mut S,
    piece: &mut Piece,
    domains: &Domains,
    values: u16,
    cell: u32,
) -> Result<(), SinkFault>
    requires same_values { domains.now.values ≡ values }
    requires cell_in { cell < domains.now.cells }
    ensures gathered { Gathers (S.seen sink.old) (S.seen sink.new) piece.old
        (blank_numbers (filter (has domains.now cell) (range_with_len 0 values))) piece.new result }
{
    for value in 0..values {
        put_value(sink, piece, domains, cell, value)?;
    }
    Ok(())
}

/// Gathers a value with a blank before it, if it stands at the cell.
#[inline]
fn put_value<S: Sink>(
    sink: &mut S,
    piece: &mut Piece,
    domains: &Domains,
    cell: u32,
    value: u16,
) -> Result<(), SinkFault>
    requires cell_in { cell < domains.now.cells }
    requires value_in { value < domains.now.values }
    ensures gathered { Gathers (S.seen sink.old) (S.seen sink.new) piece.old
        (blank_numbers (filter (has domains.now cell) (value ∷ []))) piece.new result }
{
    if !domains.has(cell, value) {
        return Ok(());
    }
    put(sink, piece, b" ")?;
    put_number(sink, piece, u32::from(value))
}
