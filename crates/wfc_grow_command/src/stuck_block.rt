//! The text of a stuck block, and the run that refutes it.

ghost use Rattle.std.specs.List.{flat_map};
ghost use Rattle.std.specs.Prelude.{IfOk, OnOk, ◌++◌, ◌≡◌, ◌≤◌};
ghost use Rattle.wfc_grow_command.specs.GrowTask.{growing_view};
ghost use Rattle.wfc_grow_command.specs.Growing.{GivesProblem, IsStuckRun, PutsGrown};
ghost use Rattle.wfc_grow_command.specs.StuckText.{stuck_head, block_writing, pin_text, pin_word, blank_and_number, stuck_text};
ghost use Rattle.wfc_blocks.specs.Blocks.{output_of_block};
ghost use Rattle.wfc_blocks.specs.declared.grown.Grown.TheVariants as grown;
ghost use Rattle.wfc_overlap.specs.Built.{picture_problem};
ghost use Rattle.wfc_task.specs.Asked.{IsSampleAsked};

use crate::growing::Growing;
use std::alloc::Global;
use std::marker::Brand;
use std::sync::ledger::Blank;
use wfc_blocks::{Block, Stuck};
use wfc_choose::Chooser;
use wfc_model::MAX_OUTPUT_SIDE;
use wfc_outside::{NoMemory, Sink};
use wfc_pins::PinLine;
use wfc_plan::Fault;
use wfc_problem::Problem;
use wfc_proof::Shape;
use wfc_reply::{CommandVerdict, RunWriting, Stop, put_run_behind};
use wfc_task::{AskedOutput, posed_for, window_side_of};
use wfc_text::push_number;
use wfc_words::Request;

/// Puts the block and its pins, and the lines of its run behind them. All memory is taken before the first byte is put.
pub(crate) fn put_stuck<O: Sink>(
    alloc: Global,
    request: &Request,
    growing: &Growing,
    stuck: &Stuck,
    chooser: Box<dyn Chooser>,
    out: &mut O,
) -> Result<CommandVerdict, Stop>
    requires sample { IsSampleAsked request.now }
    requires run { IsStuckRun (told chooser).rule request.now (growing_view growing.now) stuck.now }
    ensures puts { PutsGrown (told chooser).rule request.now (growing_view growing.now)
        (grown.Stuck stuck.now) (O.seen out.old) (O.seen out.new) result }
{
    let text = stuck_text(alloc, stuck)?;
    let problem = stuck_problem(alloc, growing, stuck)?;
    let writing = block_writing(request, stuck.block);
    put_run_behind::<O, Brand>(alloc, &text, writing, &problem, chooser, out, Blank::new(1))?;
    out.finish()?;
    Ok(CommandVerdict::Stuck {
        x: stuck.block.x,
        y: stuck.block.y,
    })
}

/// The problem that the lines of its pins make of a stuck block.
fn stuck_problem(alloc: Global, growing: &Growing, stuck: &Stuck) -> Result<Problem, Fault>
    requires some_width { 1 ≤ stuck.now.block.width }
    requires some_height { 1 ≤ stuck.now.block.height }
    requires width_limit { stuck.now.block.width ≤ MAX_OUTPUT_SIDE }
    requires height_limit { stuck.now.block.height ≤ MAX_OUTPUT_SIDE }
    ensures exact { GivesProblem (picture_problem growing.now.taught.patterns
        growing.now.taught.palette (output_of_block stuck.now.block) stuck.now.pins) result }
{
    let output = AskedOutput {
        width: stuck.block.width,
        height: stuck.block.height,
        wrap: false,
    };
    let problem = posed_for(
        alloc,
        &growing.taught.patterns,
        &growing.taught.palette,
        output,
        &stuck.pins,
    )?;
    Ok(problem)
}

/// How the run of a block is made again, and its lines written: with the block's own seed and shape.
fn block_writing(request: &Request, block: Block) -> RunWriting
    requires sample { IsSampleAsked request.now }
    ensures value { result ≡ block_writing request.now block }
    ensures side { result.shape.n ≤ 6 }
{
    RunWriting {
        format: 2,
        shape: Shape {
            n: window_side_of(request.source),
            width: block.width,
            height: block.height,
            depth: 1,
            symmetry: request.symmetry,
            wrap_in: request.wrap_in,
            wrap_out: false,
        },
        budget: request.budget,
        seed: request.seed.wrapping_add(u64::from(block.number)),
    }
}

/// The block, how many lines its pins have, and these lines.
fn stuck_text(alloc: Global, stuck: &Stuck) -> Result<Vec<u8>, NoMemory>
    ensures text { IfOk result (λ text. text.items ≡ stuck_text stuck.now) }
{
    let mut text = Vec::new(alloc);
    push_block(&mut text, stuck.block)?;
    text.extend_from_slice(b" pins")?;
    push_spaced(&mut text, stuck.pins.len() as u64)?;
    text.push(b'\n')?;
    push_pins(&mut text, &stuck.pins)?;
    Ok(text)
}

/// Writes the first pixel of a block and its sides behind the text.
fn push_block(text: &mut Vec<u8>, block: Block) -> Result<(), NoMemory>
    ensures pushed { OnOk result (text.new.items ≡ text.old.items ++ stuck_head block) }
{
    text.extend_from_slice(b"stuck")?;
    push_spaced(text, u64::from(block.x))?;
    push_spaced(text, u64::from(block.y))?;
    push_spaced(text, u64::from(block.width))?;
    push_spaced(text, u64::from(block.height))?;
    Ok(())
}

/// Writes a blank and the number behind the text.
fn push_spaced(text: &mut Vec<u8>, n: u64) -> Result<(), NoMemory>
    ensures pushed { OnOk result (text.new.items ≡ text.old.items ++ blank_and_number n) }
{
    text.push(b' ')?;
    push_number(text, n)?;
    Ok(())
}

/// Writes lines of a pins file behind the text.
fn push_pins(text: &mut Vec<u8>, pins: &[PinLine]) -> Result<(), NoMemory>
    ensures pushed { OnOk result
        (text.new.items ≡ text.old.items ++ flat_map pin_text pins.now) }
{
    for pin in pins {
        push_pin(text, pin)?;
    }
    Ok(())
}

/// Writes a line of a pins file behind the text.
fn push_pin(text: &mut Vec<u8>, pin: &PinLine) -> Result<(), NoMemory>
    ensures pushed { OnOk result (text.new.items ≡ text.old.items ++ pin_text pin.now) }
{
    text.extend_from_slice(pin_word(pin.keep))?;
    push_spaced(text, u64::from(pin.x))?;
    push_spaced(text, u64::from(pin.y))?;
    text.push(b' ')?;
    text.extend_from_slice(&pin.symbol)?;
    text.push(b'\n')?;
    Ok(())
}

/// The first word of a line of a pins file.
fn pin_word(keep: bool) -> &'static [u8]
    ensures value { result.now ≡ pin_word keep }
{
    if keep { b"pin" } else { b"ban" }
}
