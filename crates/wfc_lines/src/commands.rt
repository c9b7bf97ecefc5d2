//! The lines of words that are no request, and of a rule that no chooser has.

ghost use Rattle.std.specs.Prelude.{◌≡◌};
ghost use Rattle.wfc_lines.specs.Line.{IsSaid};
ghost use Rattle.wfc_lines.specs.Command.{text_of_chooser, text_of_command, text_of_value};

use crate::line::{plain, put};
use crate::outcome::no_memory;
use wfc_choose::RuleKind;
use wfc_outside::{Sink, SinkFault};
use wfc_words::{CommandFault, ValueName};

/// Puts why the words are no request.
pub fn command<E: Sink>(err: &mut E, fault: CommandFault) -> Result<(), SinkFault>
    ensures told { IsSaid (E.seen err.old) (E.seen err.new) (text_of_command fault) result }
{
    match fault {
        CommandFault::Refused => plain(err, "command refused"),
        CommandFault::Value { name } => value(err, name),
        CommandFault::NoMemory => no_memory(err),
    }
}

/// Puts which value isn't in its range.
fn value<E: Sink>(err: &mut E, name: ValueName) -> Result<(), SinkFault>
    ensures told { IsSaid (E.seen err.old) (E.seen err.new) (text_of_value name) result }
{
    let word = name.word().as_bytes();
    put(err, &[b"wfc: command value ", word, b"\n"])
}

/// Puts that no chooser has the rule that is asked for.
pub fn chooser<E: Sink>(err: &mut E, rule: RuleKind) -> Result<(), SinkFault>
    ensures told { IsSaid (E.seen err.old) (E.seen err.new) (text_of_chooser rule) result }
{
    match rule {
        RuleKind::Scanline => plain(err, "chooser missing rule=scanline"),
        RuleKind::Fewest => plain(err, "chooser missing rule=fewest"),
        RuleKind::Ranked => plain(err, "chooser missing rule=ranked"),
    }
}
