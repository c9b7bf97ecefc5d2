//! The program as one call: words, a folder and sinks in, an exit status out.
#![tactic(auto)]

ghost use Rattle.std.specs.Prelude.{◌≡◌};
ghost use Rattle.wfc_cli.specs.Answer.{IsAnswer};
ghost use Rattle.wfc_cli.specs.Delivery.{Tells, said_of_words};
ghost use Rattle.wfc_cli.specs.Promises.{KeepsPromises};
ghost use Rattle.wfc_reply.specs.Call.{call_of};

mod commands;
mod deliver;
pub mod laws;
mod lines;

use deliver::{deliver, refuse_words};
use std::alloc::Global;
use wfc_choose::Chooser;
use wfc_outside::{Folder, Sink};
use wfc_words::{CommandFault, request};

/// Runs the command that the words spell over the files of a folder. The answer alone goes to `out`; at each status but
/// 0 `err` gets one line that says why. The result is the exit status of docs/commands.md. A run goes by the first
/// chooser whose kind is the rule asked for, that of `demo` by the first of the fewest values; of several runs each has
/// one of that kind for itself. All choosers are dropped.
pub fn run<F: Folder, O: Sink, E: Sink>(
    alloc: Global,
    words: &[String],
    folder: &mut F,
    out: &mut O,
    err: &mut E,
    choosers: Vec<Box<dyn Chooser>>,
) -> u8
    ensures promises { KeepsPromises (call_of (λ c. (told c).rule) choosers.items words.now
        F.seen folder.old folder.new O.seen out.old out.new E.seen err.old err.new result) }
{
    answer(alloc, words, folder, out, err, choosers)
}

/// Runs the command that the words spell.
fn answer<F: Folder, O: Sink, E: Sink>(
    alloc: Global,
    words: &[String],
    folder: &mut F,
    out: &mut O,
    err: &mut E,
    choosers: Vec<Box<dyn Chooser>>,
) -> u8
    ensures answer { IsAnswer (call_of (λ chooser. (told chooser).rule) choosers.items words.now
        F.seen folder.old folder.new O.seen out.old out.new E.seen err.old err.new result) }
{
    match request(alloc, words) {
        Ok(request) => {
            let ended = commands::run(alloc, &request, choosers, folder, out);
            deliver(&request, ended, err)
        }
        Err(fault) => refuse_words(err, fault),
    }
}

/// Ends a program whose words can't be read: tells the error stream, and answers the status.
pub fn refuse<E: Sink>(err: &mut E, fault: CommandFault) -> u8
    ensures status { result ≡ (said_of_words fault).status }
    ensures told { Tells (said_of_words fault).told (E.seen err.old) (E.seen err.new) }
{
    refuse_words(err, fault)
}
