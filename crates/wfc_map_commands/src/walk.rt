//! Where the steps of `domains` have led.

ghost use Rattle.std.specs.Prelude.{All, IfOk, IsTrue, OnOk, [], length, ◌+◌, ◌<◌, ◌^◌, ◌↔◌, ◌≡◌, ◌≤◌};
ghost use Rattle.wfc_domains.specs.Store.{IsOpened};
ghost use Rattle.wfc_log.specs.declared.Verdict.TheVariants.{Alive};
ghost use Rattle.wfc_map_commands.specs.DomainsAnswer.{root_verdict};
ghost use Rattle.wfc_map_commands.specs.Walk.{IsWalk, PutsWalk, WalksTo, left_text};
ghost use Rattle.wfc_outside.specs.Sink.{Puts};
ghost use Rattle.wfc_pins.specs.Steps.{IsStepIn};
ghost use Rattle.wfc_pins.specs.declared.steps.StepLine.{StepLine};
ghost use Rattle.wfc_problem.specs.Domains.{IsLiteralIn};
ghost use Rattle.wfc_problem.specs.Network.{values};

use crate::stepping::Stepping;
use std::alloc::Global;
use std::sync::ledger::Ledger;
use wfc_ac4::Ac4;
use wfc_domains::{Steps, Store, is_alive};
use wfc_outside::{NoMemory, Sink, SinkFault};
use wfc_pins::{Step, StepLine};
use wfc_problem::Literal;
use wfc_render::write_block;
use wfc_reply::CommandVerdict;

/// Where steps have led: the literals of the engine stand, and beside them so many that were assumed while some cell had
/// no value.
#[derive(Drop)]
pub(crate) struct Walk<'p> {
    pub(crate) engine: Ac4<'p>,
    pub(crate) beside: usize,
}

/// The walk before its first step, with room for as many literals as there are steps.
pub(crate) fn begin_walk<'p>(alloc: Global, stepping: &'p Stepping) -> Result<Walk<'p>, NoMemory>
    ensures few { OnOk result (length stepping.now.steps.items < 2 ^ 32) }
    ensures opened { IfOk result
        (λ walk. IsOpened walk.engine stepping.now.problem (length stepping.now.steps.items)) }
    ensures none { IfOk result (λ walk. walk.beside ≡ 0) }
{
    let Ok(levels) = u32::try_from(stepping.steps.len()) else {
        return Err(NoMemory);
    };
    let Ok(engine) = Ac4::open(alloc, &stepping.problem, levels) else {
        return Err(NoMemory);
    };
    Ok(Walk { engine, beside: 0 })
}

impl<'p> Walk<'p> {
    /// Whether each cell has a value.
    fn is_alive(&self) -> bool
        ensures alive { IsTrue result
            ↔ ((self.now.beside ≡ 0) × (self.now.engine.verdict ≡ Alive)) }
    {
        self.beside == 0 && is_alive(self.engine.verdict())
    }

    /// How the command ends that begins here.
    pub(crate) fn verdict(&self) -> CommandVerdict
        ensures value { IsWalk self.now.engine self.now.beside [] →
            result ≡ root_verdict self.now.engine.problem }
    {
        if self.is_alive() {
            CommandVerdict::Done
        } else {
            CommandVerdict::Dead
        }
    }

    /// Puts the block of a step.
    pub(crate) fn put<O: Sink>(
        &self,
        out: &mut O,
        number: u32,
        count: u16,
        cells: u32,
    ) -> Result<(), SinkFault>
        requires values { count ≡ values self.now.engine.problem }
        requires cells { cells ≡ self.now.engine.problem.cells }
        ensures put { PutsWalk self.now.engine self.now.beside number count cells
            (O.seen out.old) (O.seen out.new) result }
    {
        if self.is_alive() {
            write_block(out, number, Some(self.engine.domains()), count, cells)
        } else {
            write_block(out, number, None, count, cells)
        }
    }

    /// Makes each step and puts its block.
    pub(crate) fn make_each<O: Sink, L: Ledger>(
        &mut self,
        out: &mut O,
        lines: &[StepLine],
        steps: &mut Steps<L>,
        count: u16,
        cells: u32,
    ) -> Result<(), SinkFault>
        requires begun { IsWalk self.old.engine self.old.beside [] }
        requires none { self.old.beside ≡ 0 }
        requires values { count ≡ values self.old.engine.problem }
        requires cells { cells ≡ self.old.engine.problem.cells }
        requires inside { All (λ (line : StepLine). IsStepIn self.old.engine.problem line.step)
            lines.now }
        requires spare { length lines.now ≤ self.old.engine.spare }
        requires few { length lines.now < 2 ^ 32 }
        ensures put { Puts (O.seen out.old) (O.seen out.new)
            (left_text self.old.engine.problem count cells lines.now 0) result }
    {
        let mut number: u32 = 0;
        for line in lines {
            number += 1;
            self.make(out, line.step, steps, number, count, cells)?;
        }
        Ok(())
    }

    /// Makes a step and puts its block.
    fn make<O: Sink, L: Ledger>(
        &mut self,
        out: &mut O,
        step: Step,
        steps: &mut Steps<L>,
        number: u32,
        count: u16,
        cells: u32,
    ) -> Result<(), SinkFault>
        requires inside { IsStepIn self.old.engine.problem step }
        requires spare { 0 < self.old.engine.spare }
        requires room { self.old.beside < 2 ^ 32 }
        requires values { count ≡ values self.old.engine.problem }
        requires cells { cells ≡ self.old.engine.problem.cells }
        ensures walks { WalksTo self.old.engine self.old.beside
            self.new.engine self.new.beside step }
        ensures problem { self.new.engine.problem ≡ self.old.engine.problem }
        ensures spare { self.old.engine.spare ≤ self.new.engine.spare + 1 }
        ensures beside { self.new.beside ≤ self.old.beside + 1 }
        ensures put { PutsWalk self.new.engine self.new.beside number count cells
            (O.seen out.old) (O.seen out.new) result }
    {
        self.step(step, steps);
        self.put(out, number, count, cells)
    }

    /// Makes a step.
    fn step<L: Ledger>(&mut self, step: Step, steps: &mut Steps<L>)
        requires inside { IsStepIn self.old.engine.problem step }
        requires spare { 0 < self.old.engine.spare }
        requires room { self.old.beside < 2 ^ 32 }
        ensures walks { WalksTo self.old.engine self.old.beside
            self.new.engine self.new.beside step }
        ensures problem { self.new.engine.problem ≡ self.old.engine.problem }
        ensures spare { self.old.engine.spare ≤ self.new.engine.spare + 1 }
        ensures beside { self.new.beside ≤ self.old.beside + 1 }
    {
        match step {
            Step::Assume(literal) => self.assume(literal, steps),
            Step::Undo => self.undo(steps),
        }
    }

    /// Puts a literal on. While some cell has no value it is counted, and not handed to the engine.
    fn assume<L: Ledger>(&mut self, literal: Literal, steps: &mut Steps<L>)
        requires inside { IsLiteralIn self.old.engine.problem literal }
        requires spare { 0 < self.old.engine.spare }
        requires room { self.old.beside < 2 ^ 32 }
        ensures walks { WalksTo self.old.engine self.old.beside
            self.new.engine self.new.beside (Step.Assume literal) }
        ensures problem { self.new.engine.problem ≡ self.old.engine.problem }
        ensures spare { self.old.engine.spare ≤ self.new.engine.spare + 1 }
        ensures beside { self.new.beside ≤ self.old.beside + 1 }
    {
        if self.is_alive() {
            self.engine.assume(literal, steps);
        } else {
            self.beside += 1;
        }
    }

    /// Takes the last literal away, if one stands.
    fn undo<L: Ledger>(&mut self, steps: &mut Steps<L>)
        ensures walks { WalksTo self.old.engine self.old.beside
            self.new.engine self.new.beside Step.Undo }
        ensures problem { self.new.engine.problem ≡ self.old.engine.problem }
        ensures spare { self.old.engine.spare ≤ self.new.engine.spare + 1 }
        ensures beside { self.new.beside ≤ self.old.beside + 1 }
    {
        if self.beside > 0 {
            self.beside -= 1;
        } else if !self.engine.standing().is_empty() {
            self.engine.undo(steps);
        }
    }
}
