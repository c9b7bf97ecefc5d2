//! The text of a core: the lines of the pins file that are kept.

ghost use Rattle.std.specs.List.{flat_map};
ghost use Rattle.std.specs.Prelude.{All, IfOk, OnOk, length, ◌++◌, ◌<◌, ◌≡◌};
ghost use Rattle.wfc_explain.specs.declared.explained.Kept.{Kept};
ghost use Rattle.wfc_run_commands.specs.ExplainAnswer.{core_text, kept_line, mark_word};
ghost use Rattle.wfc_run_commands.specs.ExplainTask.{line_numbers};

use std::alloc::Global;
use wfc_explain::{Kept, Mark};
use wfc_outside::NoMemory;
use wfc_pins::PinLine;
use wfc_text::push_number;

/// The text of a core: how many lines are kept, and a line for each.
pub(crate) fn core_text(
    alloc: Global,
    lines: &[PinLine],
    core: &[Kept],
) -> Result<Vec<u8>, NoMemory>
    requires inside { All (λ (kept : Kept). kept.index < length lines.now) core.now }
    ensures text { IfOk result (λ text. text.items ≡ core_text (line_numbers lines.now) core.now) }
{
    let mut text = Vec::new(alloc);
    text.extend_from_slice(b"core ")?;
    push_number(&mut text, core.len() as u64)?;
    text.push(b'\n')?;
    push_all(&mut text, lines, core)?;
    Ok(text)
}

/// Writes the lines of all kept lines behind the text.
fn push_all(text: &mut Vec<u8>, lines: &[PinLine], core: &[Kept]) -> Result<(), NoMemory>
    requires inside { All (λ (kept : Kept). kept.index < length lines.now) core.now }
    ensures pushed { OnOk result (text.new.items
        ≡ text.old.items ++ flat_map (kept_line (line_numbers lines.now)) core.now) }
{
    for kept in core {
        push_kept(text, lines, kept)?;
    }
    Ok(())
}

/// Writes the line of a kept line behind the text.
fn push_kept(text: &mut Vec<u8>, lines: &[PinLine], kept: &Kept) -> Result<(), NoMemory>
    requires inside { kept.now.index < length lines.now }
    ensures pushed { OnOk result (text.new.items
        ≡ text.old.items ++ kept_line (line_numbers lines.now) kept.now) }
{
    let pinned = &lines[kept.index as usize];
    text.extend_from_slice(mark_word(kept.mark))?;
    text.push(b' ')?;
    push_number(text, u64::from(pinned.line))?;
    text.push(b'\n')?;
    Ok(())
}

/// The word for a mark.
fn mark_word(mark: Mark) -> &'static [u8]
    ensures value { result.now ≡ mark_word mark }
{
    match mark {
        Mark::Needed => b"needed",
        Mark::Undecided => b"undecided",
    }
}
