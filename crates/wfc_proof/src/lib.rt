//! What a search tells of itself while it runs: the lines of a proof, and the journals that take them.
//!
//! A journal's fault is counted where it happens, so that a contract can say that a line was refused only where a
//! fault was met. A journal in memory or over a told sink tells its lines; a quiet one, or one over a real stream,
//! doesn't.
#![tactic(auto)]

ghost use Rattle.std.specs.Prelude.{◌≡◌, ◌≤◌, false, OnOk, OnErr};
ghost use Rattle.wfc_proof.specs.Journal.{JournalView, IsWhole, after_line, IsRefused};

mod gathered;
mod heads;
mod journals;
pub mod laws;
pub mod span_laws;
mod spans;
mod text;
pub mod text_laws;
mod upgrading;
mod words;
mod writing;

pub use heads::{
    Format, HeadNumbers, Shape, read_format, read_numbers, read_shape, write_header, write_header_2,
};
pub use journals::{ProofJournal, SpanJournal};
pub use text::{LineFault, read_line, read_line_2};
use thiserror::Error;
pub use upgrading::upgrade;
pub use writing::write_line;

/// A line of a journal or of a refutation. Cells, values and directions count from 0.
#[derive(Clone, Copy, Debug, PartialEq, Eq)]
pub enum Line {
    /// The value of the cell has no support in the direction.
    Remove {
        cell: u32,
        value: u16,
        dir: u8,
    },
    /// The values from `first` to `last` of the cell, in rising order, have no support in the direction.
    Span {
        cell: u32,
        first: u16,
        last: u16,
        dir: u8,
    },
    /// The branch in which the cell has the value comes first, then the branch in which it hasn't.
    Try {
        cell: u32,
        value: u16,
    },
    /// The cell is empty, which closes the branch.
    Empty {
        cell: u32,
    },
    /// The proof is complete.
    End,
    /// A map was found.
    Found,
    /// The budget was spent.
    Out,
}

/// Why a line is refused.
#[derive(Clone, Copy, Debug, PartialEq, Eq)]
pub enum Reject {
    /// The value isn't in the cell now.
    NotStanding,
    /// This least value of the neighbour may stand beside the value.
    HasSupport { value: u16 },
    /// The cell has no neighbour in the direction.
    NoNeighbour,
    /// This is the least value of the cell.
    NotEmpty { value: u16 },
    /// The proof is closed or has ended.
    AfterEnd,
    /// There is no such cell, value or direction, or a span ends before it begins.
    IndexRange,
    /// A branch is open.
    NotClosed,
    /// The cell has no other value.
    OnlyValue,
}

/// Why a journal refused a line.
#[derive(Clone, Copy, Debug, PartialEq, Eq, Error)]
pub enum JournalFault {
    #[error("a line was not taken")]
    Failed,
}

/// Something that takes lines in order.
pub trait Journal {
    /// The lines that were handed to it, where they are told, whether it refused one, and its count of faults.
    ghost seen: { Self → JournalView };

    /// Takes a line. A refused line counts among those that were handed over, and nothing is handed over after it.
    fn line(&mut self, line: Line) -> Result<(), JournalFault>
        requires whole { IsWhole line }
        requires going { (seen self.old).failed ≡ false }
        ensures ok { OnOk result (seen self.new ≡ after_line (seen self.old) line) }
        ensures failed { OnErr result (IsRefused (seen self.old) (seen self.new) line) };
}

/// A journal that drops every line. It never fails, and takes no memory.
#[derive(Clone, Copy, Debug)]
pub struct Quiet;

impl Journal for Quiet {
    ghost use Rattle.wfc_proof.specs.Journal.{quiet};

    ghost seen = { λ _. quiet };

    fn line(&mut self, _line: Line) -> Result<(), JournalFault> {
        Ok(())
    }
}
