//! The program `wfc`: a map generator in the manner of WaveFunctionCollapse.
#![tactic(auto)]

ghost use Rattle.std.specs.Prelude.{◌≡◌, ◌++◌, map, IfErr, IfOk};
ghost use Rattle.std.specs.Process.{exit_status};
ghost use Rattle.std.specs.IoError.{error_kind};
ghost use Rattle.wfc_choose.specs.declared.RuleKind.TheVariants.{Fewest, Scanline};
ghost use Rattle.wfc_cli.specs.Delivery.{Tells, said_of_words};
ghost use Rattle.wfc_cli.specs.Promises.{KeepsPromises};
ghost use Rattle.wfc_words.specs.Request.{texts};
ghost use Rattle.wfc_app.specs.Choosers.{both_rules, unranked};
ghost use Rattle.wfc_app.specs.Keeping.{KeepsWhereRead, served_call};
ghost use Rattle.wfc_app.specs.Needed.{makes_several_runs, needed_choosers};
ghost use Rattle.wfc_app.specs.Unread.{unread_fault};

pub mod laws;

use std::alloc::Global;
use std::io::BufWriter;
use std::process::ExitCode;
use std::rt::Env;
use std::{env, io};
use wfc_choose::{Buckets, Chooser, Scanning};
use wfc_cli::{refuse, run};
use wfc_outside::{DiskFolder, Folder, NoMemory, Sink, StderrSink, StdoutSink};
use wfc_words::CommandFault;

/// The words behind the program's name.
fn words<R: Env + AllocGlobal>(rt: &R) -> io::Result<Vec<String>> {
    Ok(env::args(rt)?.skip(1).collect(rt.alloc())?)
}

/// Why the words were not read.
fn unread(error: &io::Error) -> CommandFault
    ensures exact { result ≡ unread_fault (error_kind error.now) }
{
    match error.kind() {
        io::ErrorKind::OutOfMemory => CommandFault::NoMemory,
        _ => CommandFault::Refused,
    }
}

/// How many choosers of each kind are made for a command of several runs: one for each seed of a race, list of lines or block.
const MANY_CHOOSERS: u32 = 65;

/// Whether the command of this name makes several runs, each with a chooser of its own.
fn makes_several_runs(name: &str) -> bool
    ensures value { result ≡ makes_several_runs name.now }
{
    name == "race" || name == "explain" || name == "grow"
}

/// How many choosers of each kind a command line needs.
fn needed_choosers(words: &[String]) -> u32
    ensures exact { result ≡ needed_choosers (texts words.now) }
{
    match words.first() {
        Some(name) if makes_several_runs(name.as_str()) => MANY_CHOOSERS,
        _ => 1,
    }
}

/// Puts a chooser of each rule behind the others.
fn push_both(
    choosers: &mut Vec<Box<dyn Chooser>>,
    scanline: Box<dyn Chooser>,
    fewest: Box<dyn Chooser>,
) -> Result<(), NoMemory>
    requires scanline { (told scanline).rule ≡ unranked Scanline }
    requires fewest { (told fewest).rule ≡ unranked Fewest }
    ensures both { IfOk result (λ _. map (λ c. (told c).rule) choosers.new.items
        ≡ map (λ c. (told c).rule) choosers.old.items ++ both_rules) }
{
    choosers.push(scanline)?;
    choosers.push(fewest)?;
    Ok(())
}

/// Runs the command that the words spell over these devices, with a chooser of each rule for every run that it may make.
fn serve<F: Folder, O: Sink, E: Sink>(
    alloc: Global,
    words: &[String],
    folder: &mut F,
    out: &mut O,
    err: &mut E,
) -> u8
    ensures promises { KeepsPromises (served_call words.now F.seen folder.old folder.new
        O.seen out.old out.new E.seen err.old err.new result) }
{
    let mut choosers: Vec<Box<dyn Chooser>> = Vec::new(alloc);
    for _made in 0..needed_choosers(words) {
        let Ok(scanline) = Box::new(alloc, Scanning::scanline(alloc)) else {
            return refuse(err, CommandFault::NoMemory);
        };
        let Ok(fewest) = Box::new(alloc, Buckets::new(alloc)) else {
            return refuse(err, CommandFault::NoMemory);
        };
        let Ok(()) = push_both(&mut choosers, scanline, fewest) else {
            return refuse(err, CommandFault::NoMemory);
        };
    }
    run(alloc, words, folder, out, err, choosers)
}

/// The whole program over these devices.
fn program<F: Folder, O: Sink, E: Sink>(
    alloc: Global,
    words: io::Result<Vec<String>>,
    folder: &mut F,
    out: &mut O,
    err: &mut E,
) -> ExitCode
    ensures promises { KeepsWhereRead words F.seen folder.old folder.new O.seen out.old out.new
        E.seen err.old err.new (exit_status result) }
    ensures unread_status { IfErr words
        (λ e. exit_status result ≡ (said_of_words (unread_fault (error_kind e))).status) }
    ensures unread_line { IfErr words (λ e. Tells
        (said_of_words (unread_fault (error_kind e))).told (E.seen err.old) (E.seen err.new)) }
    ensures unread_folder { IfErr words (λ _. F.seen folder.new ≡ F.seen folder.old) }
    ensures unread_output { IfErr words (λ _. O.seen out.new ≡ O.seen out.old) }
{
    let status = match words {
        Ok(words) => serve(alloc, &words, folder, out, err),
        Err(error) => refuse(err, unread(&error)),
    };
    ExitCode::from(status)
}

fn main(rt: HostRuntime) -> ExitCode {
    let alloc = rt.alloc();
    let mut folder = DiskFolder::new(&rt);
    let mut err = StderrSink::new(rt.stderr());
    let Ok(writer) = BufWriter::new(alloc, rt.stdout()) else {
        return ExitCode::from(refuse(&mut err, CommandFault::NoMemory));
    };
    let mut out = StdoutSink::new(writer);
    program(alloc, words(&rt), &mut folder, &mut out, &mut err)
}
