//! The lines of a text that is no refutation.

ghost use Rattle.std.specs.Prelude.{◌≡◌, ◌++◌, codes, decimal};
ghost use Rattle.wfc_proof.specs.Heads.{bit};
ghost use Rattle.wfc_lines.specs.Check.{bad_line_text, header_text, options_text, rejected_text, text_of_check, text_of_rejected};
ghost use Rattle.wfc_lines.specs.Line.{IsSaid};

use crate::line::{put, put_named};
use crate::reads::unread_file;
use itoa::Buffer;
use wfc_check::{CheckFault, Reject};
use wfc_outside::{ReadFault, Sink, SinkFault};
use wfc_proof::Shape;

/// Puts why the text of a file is no refutation, or why the file was not read.
pub fn check<E: Sink>(err: &mut E, fault: &CheckFault, file: &str) -> Result<(), SinkFault>
    ensures told { IsSaid (E.seen err.old) (E.seen err.new)
        (text_of_check fault.now file.now) result }
{
    match *fault {
        CheckFault::Rejected { line, reject } => reject_line(err, line, reject, file),
        CheckFault::BadLine { line } => bad_line(err, line, file),
        CheckFault::HeaderDiffers { cells, values } => header_differs(err, cells, values, file),
        CheckFault::NotEnded => put_named(err, "check NotEnded", file),
        CheckFault::OptionsDiffer { found } => options_differ(err, &found, file),
        CheckFault::Missing => unread_file(err, ReadFault::Missing, file),
        CheckFault::Failed => unread_file(err, ReadFault::Failed, file),
        CheckFault::TooLong => unread_file(err, ReadFault::TooLong, file),
        CheckFault::NoMemory => unread_file(err, ReadFault::NoMemory, file),
    }
}

/// Puts why a line of a proof is refused.
fn reject_line<E: Sink>(err: &mut E, row: u64, reject: Reject, file: &str) -> Result<(), SinkFault>
    ensures told { IsSaid (E.seen err.old) (E.seen err.new)
        (text_of_rejected row reject file.now) result }
{
    match reject {
        Reject::NotStanding => named_reject_line(err, row, "NotStanding", file),
        Reject::HasSupport { value } => rejected_at(err, row, "HasSupport value=", value, file),
        Reject::NoNeighbour => named_reject_line(err, row, "NoNeighbour", file),
        Reject::NotEmpty { value } => rejected_at(err, row, "NotEmpty value=", value, file),
        Reject::AfterEnd => named_reject_line(err, row, "AfterEnd", file),
        Reject::IndexRange => named_reject_line(err, row, "IndexRange", file),
        Reject::NotClosed => named_reject_line(err, row, "NotClosed", file),
        Reject::OnlyValue => named_reject_line(err, row, "OnlyValue", file),
    }
}

/// Puts a refusal that names no value.
fn named_reject_line<E: Sink>(
    err: &mut E,
    row: u64,
    name: &str,
    file: &str,
) -> Result<(), SinkFault>
    ensures told { IsSaid (E.seen err.old) (E.seen err.new)
        (rejected_text row name.now file.now) result }
{
    let mut row_buffer = Buffer::new();
    let row = row_buffer.format(row).as_bytes();
    let name = name.as_bytes();
    let file = file.as_bytes();
    put(
        err,
        &[
            b"wfc: check Rejected line=",
            row,
            b" reject=",
            name,
            b" file=",
            file,
            b"\n",
        ],
    )
}

/// Puts a refusal that names a value.
fn rejected_at<E: Sink>(
    err: &mut E,
    row: u64,
    name: &str,
    value: u16,
    file: &str,
) -> Result<(), SinkFault>
    ensures told { IsSaid (E.seen err.old) (E.seen err.new)
        (rejected_text row (name.now ++ decimal value) file.now) result }
{
    let mut row_buffer = Buffer::new();
    let mut value_buffer = Buffer::new();
    let row = row_buffer.format(row).as_bytes();
    let value = value_buffer.format(value).as_bytes();
    let name = name.as_bytes();
    let file = file.as_bytes();
    put(
        err,
        &[
            b"wfc: check Rejected line=",
            row,
            b" reject=",
            name,
            value,
            b" file=",
            file,
            b"\n",
        ],
    )
}

/// Puts that a line is none of a refutation.
fn bad_line<E: Sink>(err: &mut E, row: u64, file: &str) -> Result<(), SinkFault>
    ensures told { IsSaid (E.seen err.old) (E.seen err.new) (bad_line_text row file.now) result }
{
    let mut row_buffer = Buffer::new();
    let row = row_buffer.format(row).as_bytes();
    let file = file.as_bytes();
    put(
        err,
        &[b"wfc: check BadLine line=", row, b" file=", file, b"\n"],
    )
}

/// Puts the numbers of a head that aren't the problem's.
fn header_differs<E: Sink>(
    err: &mut E,
    cells: u32,
    values: u32,
    file: &str,
) -> Result<(), SinkFault>
    ensures told { IsSaid (E.seen err.old) (E.seen err.new)
        (header_text cells values file.now) result }
{
    let mut cells_buffer = Buffer::new();
    let mut values_buffer = Buffer::new();
    let cells = cells_buffer.format(cells).as_bytes();
    let values = values_buffer.format(values).as_bytes();
    let file = file.as_bytes();
    put(
        err,
        &[
            b"wfc: check HeaderDiffers cells=",
            cells,
            b" values=",
            values,
            b" file=",
            file,
            b"\n",
        ],
    )
}

/// Puts the shape of a head that isn't the request's.
fn options_differ<E: Sink>(err: &mut E, found: &Shape, file: &str) -> Result<(), SinkFault>
    ensures told { IsSaid (E.seen err.old) (E.seen err.new)
        (options_text found.now file.now) result }
{
    let mut n_buffer = Buffer::new();
    let mut width_buffer = Buffer::new();
    let mut height_buffer = Buffer::new();
    let mut depth_buffer = Buffer::new();
    let mut symmetry_buffer = Buffer::new();
    let mut wrap_in_buffer = Buffer::new();
    let mut wrap_out_buffer = Buffer::new();
    let n = n_buffer.format(found.n).as_bytes();
    let width = width_buffer.format(found.width).as_bytes();
    let height = height_buffer.format(found.height).as_bytes();
    let depth = depth_buffer.format(found.depth).as_bytes();
    let symmetry = symmetry_buffer.format(found.symmetry).as_bytes();
    let wrap_in = wrap_in_buffer.format(bit(found.wrap_in)).as_bytes();
    let wrap_out = wrap_out_buffer.format(bit(found.wrap_out)).as_bytes();
    let file = file.as_bytes();
    put(
        err,
        &[
            b"wfc: check OptionsDiffer n=",
            n,
            b" width=",
            width,
            b" height=",
            height,
            b" depth=",
            depth,
            b" symmetry=",
            symmetry,
            b" wrap_in=",
            wrap_in,
            b" wrap_out=",
            wrap_out,
            b" file=",
            file,
            b"\n",
        ],
    )
}

/// A truth value as a number.
fn bit(is: bool) -> u8
    ensures value { result ≡ bit is }
{
    if is { 1 } else { 0 }
}
