//! Why words are no request.
ghost use Rattle.std.specs.Prelude.{◌≡◌};
ghost use Rattle.wfc_words.specs.ValueWords.{word_of};

use crate::texts;
use std::alloc::{AllocError, AllocFailed};
use thiserror::Error;

/// A value among the words of a command.
#[derive(Clone, Copy, Debug, PartialEq, Eq)]
pub enum ValueName {
    Model,
    Width,
    Height,
    Symmetry,
    Seed,
    Budget,
    Rule,
    Form,
    Number,
    Format,
    Mask,
    Seeds,
    Quantum,
    Block,
    Depth,
}

impl ValueName {
    /// The word of the value, as the user writes it.
    pub fn word(self) -> &'static str
        ensures value { result.now ≡ word_of self }
    {
        match self {
            ValueName::Model => texts::MODEL,
            ValueName::Width => texts::WIDTH,
            ValueName::Height => texts::HEIGHT,
            ValueName::Symmetry => texts::SYMMETRY,
            ValueName::Seed => texts::SEED,
            ValueName::Budget => texts::BUDGET,
            ValueName::Rule => texts::RULE,
            ValueName::Form => texts::FORM,
            ValueName::Number => texts::NUMBER,
            ValueName::Format => texts::FORMAT,
            ValueName::Mask => texts::MASK,
            ValueName::Seeds => texts::SEEDS,
            ValueName::Quantum => texts::QUANTUM,
            ValueName::Block => texts::BLOCK,
            ValueName::Depth => texts::DEPTH,
        }
    }
}

/// Why the words are no request.
#[derive(Clone, Copy, Debug, PartialEq, Eq, Error)]
pub enum CommandFault {
    /// There is no word, the first names no command, or the others aren't words of that command.
    #[error("the words are no command")]
    Refused,
    /// The first value that isn't in its range, in the order of `ValueName`.
    #[error("a value isn't in its range")]
    Value { name: ValueName },
    #[error("memory ran out")]
    NoMemory,
}

impl From<AllocError> for CommandFault {
    ghost use Rattle.wfc_words.specs.declared.fault.CommandFault.TheVariants as faults;

    ghost from_gives = { λ _ fault. fault ≡ faults.NoMemory };

    fn from(_error: AllocError) -> CommandFault {
        CommandFault::NoMemory
    }
}

impl<T: Drop> From<AllocFailed<T>> for CommandFault {
    ghost use Rattle.wfc_words.specs.declared.fault.CommandFault.TheVariants as faults;

    ghost from_gives = { λ _ fault. fault ≡ faults.NoMemory };

    fn from(_error: AllocFailed<T>) -> CommandFault {
        CommandFault::NoMemory
    }
}
