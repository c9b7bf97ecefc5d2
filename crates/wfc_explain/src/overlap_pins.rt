//! The pinned problem of a sample.

ghost use Rattle.std.specs.Prelude.{◌≡◌, ◌<◌, ◌≤◌, length, IfOk};
ghost use Rattle.wfc_outside.specs.Gives.{Gives};
ghost use Rattle.wfc_overlap.specs.Sample.{output_with};
ghost use Rattle.wfc_explain.specs.Problems.{pinned_sample, sample_pins};

use crate::PinnedProblem;
use crate::kept::{kept_marks, with_base, without_base};
use std::alloc::Global;
use std::marker::Model;
use wfc_model::MAX_OUTPUT_SIDE;
use wfc_outside::NoMemory;
use wfc_overlap::{
    PinMark, checked_window_marks, support_lists, window_base_of_marks, window_parts_of_marks,
};
use wfc_pattern::Patterns;
use wfc_picture::Palette;
use wfc_pins::{BuildFault, PinLine};
use wfc_problem::{Parts, Problem};

/// The problem of learned patterns for an output of `width` by `height` pixels, whose lines of pins
/// and bans can be left out. It is seen as the patterns, the output and what the lines mean.
#[derive(Drop)]
pub struct OverlapPins<'a> {
    patterns: &'a Patterns,
    width: u32,
    height: u32,
    wrap: bool,
    /// What the lines mean.
    marks: Vec<PinMark>,
    /// What the problem is made of whichever lines are kept: all but the base.
    shared: Parts,
}

impl<'a> Model for OverlapPins<'a> {
    ghost use Rattle.std.specs.Prelude.{◌≡◌, []};
    ghost use Rattle.wfc_overlap.specs.Sample.{output_with, problem_of_sample};
    ghost use Rattle.wfc_explain.specs.Problems.{SamplePins, IsSamplePins};

    ghost Value = { SamplePins };

    ghost view = { λ p. record {
      patterns = p.patterns.now;
      output = output_with p.width p.height p.wrap;
      pins = p.marks.items;
    } };

    ghost invariant = { λ p. IsSamplePins (record {
      patterns = p.patterns.now;
      output = output_with p.width p.height p.wrap;
      pins = p.marks.items;
    }) × (p.shared ≡ record
        (problem_of_sample p.patterns.now (output_with p.width p.height p.wrap) []) { base = [] }) };
}

impl<'a> OverlapPins<'a> {
    /// The pinned problem. Its faults are those of the problem of all lines, in their order.
    pub fn new(
        alloc: Global,
        patterns: &'a Patterns,
        palette: &Palette,
        width: u32,
        height: u32,
        wrap: bool,
        pins: &[PinLine],
    ) -> Result<OverlapPins<'a>, BuildFault>
        requires some_width { 0 < width }
        requires some_height { 0 < height }
        requires width_limit { width ≤ MAX_OUTPUT_SIDE }
        requires height_limit { height ≤ MAX_OUTPUT_SIDE }
        requires few_lines { length pins.now ≤ 4294967295 }
        ensures exact { Gives BuildFault.NoMemory (λ pinned. pinned) result
            (sample_pins patterns.now palette.now (output_with width height wrap) pins.now) }
    {
        let marks = checked_window_marks(alloc, patterns, palette, width, height, wrap, pins)?;
        let supports = support_lists(alloc, patterns)?;
        let plain = window_parts_of_marks(alloc, patterns, supports, width, height, wrap, &[])?;
        Ok(OverlapPins {
            patterns,
            width,
            height,
            wrap,
            marks,
            shared: without_base(alloc, plain),
        })
    }
}

impl<'a> PinnedProblem for OverlapPins<'a> {
    ghost seen = { pinned_sample };

    fn lines(&self) -> u32 {
        self.marks.len() as u32
    }

    fn problem(&self, alloc: Global, keep: &[bool]) -> Result<Problem, NoMemory> {
        let kept = kept_marks(alloc, &self.marks, keep)?;
        let base = window_base_of_marks(
            alloc,
            self.patterns,
            self.width,
            self.height,
            self.wrap,
            &kept,
        )?;
        let parts = with_base(alloc, &self.shared, base)?;
        Ok(Problem::from_known(parts))
    }
}
