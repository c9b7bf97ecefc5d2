//! The commands.

ghost use Rattle.std.specs.Prelude.{map};
ghost use Rattle.wfc_cli.specs.Commands.{EndsAsked};
ghost use Rattle.wfc_words.specs.InRange.{IsInRange};

use crate::deliver::put_answer;
use std::alloc::Global;
use wfc_box_commands::{box_check, box_fill, box_refute};
use wfc_choose::Chooser;
use wfc_grow_command::grow;
use wfc_map_commands::{demo, domains, fill, fill_sample, learn};
use wfc_outside::{Folder, Sink};
use wfc_proof_commands::{check, refute, upgrade};
use wfc_reply::{CommandVerdict, Stop};
use wfc_run_commands::{explain, race};
use wfc_words::{CommandKind, Request, SourceModel};

/// Runs the command that is asked for, and puts its text. What `fill` of a sample doesn't run lies together behind what it
/// does, so that less of the program comes into memory with a map.
pub(crate) fn run<F: Folder, O: Sink>(
    alloc: Global,
    request: &Request,
    choosers: Vec<Box<dyn Chooser>>,
    folder: &mut F,
    out: &mut O,
) -> Result<CommandVerdict, Stop>
    requires in_range { IsInRange request.now }
    ensures ends { EndsAsked (map (λ c. (told c).rule) choosers.items) request.now
        (F.seen folder.old) (F.seen folder.new) (O.seen out.old) (O.seen out.new) result }
{
    match request.command {
        CommandKind::Fill => match request.source {
            SourceModel::Overlap { .. } => {
                put_answer(out, fill_sample(alloc, request, choosers, folder))
            }
            SourceModel::Tiles => run_any(alloc, request, choosers, folder, out),
        },
        _ => run_any(alloc, request, choosers, folder, out),
    }
}

/// The same, whatever the command.
#[cold]
#[inline(never)]
fn run_any<F: Folder, O: Sink>(
    alloc: Global,
    request: &Request,
    choosers: Vec<Box<dyn Chooser>>,
    folder: &mut F,
    out: &mut O,
) -> Result<CommandVerdict, Stop>
    requires in_range { IsInRange request.now }
    ensures ends { EndsAsked (map (λ c. (told c).rule) choosers.items) request.now
        (F.seen folder.old) (F.seen folder.new) (O.seen out.old) (O.seen out.new) result }
{
    match request.command {
        CommandKind::Learn => put_answer(out, learn(alloc, request, folder)),
        CommandKind::Fill => put_answer(out, fill(alloc, request, choosers, folder)),
        CommandKind::Demo => put_answer(out, demo(alloc, request, choosers, folder)),
        CommandKind::Domains => domains(alloc, request, folder, out),
        CommandKind::Refute => refute(alloc, request, choosers, folder, out),
        CommandKind::Check => put_answer(out, check(alloc, request, folder)),
        CommandKind::Upgrade => upgrade(alloc, request, folder, out),
        CommandKind::Race => put_answer(out, race(alloc, request, choosers, folder)),
        CommandKind::Explain => put_answer(out, explain(alloc, request, choosers, folder)),
        CommandKind::Grow => grow(alloc, request, choosers, folder, out),
        CommandKind::BoxFill => put_answer(out, box_fill(alloc, request, choosers, folder)),
        CommandKind::BoxRefute => box_refute(alloc, request, choosers, folder, out),
        CommandKind::BoxCheck => put_answer(out, box_check(alloc, request, folder)),
    }
}
