//! What a command replies: its answer, or why there is none.

ghost use Rattle.std.specs.Prelude.{◌≡◌};
ghost use Rattle.wfc_reply.specs.Reply.{verdict_status};

use wfc_check::CheckFault;
use wfc_outside::{NoMemory, SinkFault};
use wfc_plan::Fault;

/// How a command ended that came to an answer.
#[derive(Clone, Copy, Debug, PartialEq, Eq)]
pub enum CommandVerdict {
    /// All is as it was asked for.
    Done,
    /// No legal map exists.
    NoMap,
    /// As many retractions were made as the budget allows.
    Spent { budget: u32 },
    /// Some cell has no value before the first step.
    Dead,
    /// A map was found where none was wanted.
    MapExists,
    /// The text of a file is no refutation, for this fault.
    Unaccepted { fault: CheckFault },
    /// No map fills the block that begins in this column and row of a larger one, in pixels.
    Stuck { x: u32, y: u32 },
}

/// The answer of a command.
#[derive(Debug, Drop)]
pub struct Answer {
    pub verdict: CommandVerdict,
    /// What is written, if anything is.
    pub text: Option<Vec<u8>>,
}

/// Why a command that puts its text itself didn't come to its verdict.
#[derive(Clone, Copy, Debug, PartialEq, Eq)]
pub enum Stop {
    /// The sink failed after a front of the text.
    Cut,
    /// There is no answer.
    Unanswered { fault: Fault },
}

impl From<SinkFault> for Stop {
    ghost use Rattle.std.specs.Prelude.{◌≡◌};
    ghost use Rattle.wfc_reply.specs.declared.reply.Stop.TheVariants.{Cut};

    ghost from_gives = { λ _ result. result ≡ Cut };

    fn from(_fault: SinkFault) -> Stop {
        Stop::Cut
    }
}

impl From<Fault> for Stop {
    ghost use Rattle.std.specs.Prelude.{◌≡◌};
    ghost use Rattle.wfc_reply.specs.declared.reply.Stop.TheVariants.{Unanswered};

    ghost from_gives = { λ fault result. result ≡ Unanswered fault };

    fn from(fault: Fault) -> Stop {
        Stop::Unanswered { fault }
    }
}

impl From<NoMemory> for Stop {
    ghost use Rattle.std.specs.Prelude.{◌≡◌};
    ghost use Rattle.wfc_plan.specs.declared.fault.Fault.TheVariants.{Refused};
    ghost use Rattle.wfc_plan.specs.declared.fault.Refusal.TheVariants as refusals;
    ghost use Rattle.wfc_reply.specs.declared.reply.Stop.TheVariants.{Unanswered};

    ghost from_gives = { λ _ result. result ≡ Unanswered (Refused refusals.NoMemory) };

    fn from(cause: NoMemory) -> Stop {
        Stop::Unanswered {
            fault: Fault::from(cause),
        }
    }
}

impl CommandVerdict {
    /// The exit status.
    pub fn status(self) -> u8
        ensures value { result ≡ verdict_status self }
    {
        match self {
            CommandVerdict::Done => 0,
            CommandVerdict::NoMap
            | CommandVerdict::Dead
            | CommandVerdict::MapExists
            | CommandVerdict::Unaccepted { .. } => 1,
            CommandVerdict::Spent { .. } => 2,
            CommandVerdict::Stuck { .. } => 8,
        }
    }
}
