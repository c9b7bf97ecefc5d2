//! What a demonstration runs on, and the task of `demo`.

ghost use Rattle.wfc_plan.specs.Kinds.{HasChoosers};
ghost use Rattle.std.specs.Prelude.{IfOk, OnOk, ◌*◌, ◌<◌, ◌≡◌, ◌≤◌};
ghost use Rattle.wfc_choose.specs.declared.RuleKind.TheVariants.{Fewest};
ghost use Rattle.wfc_map_commands.specs.DemoTask.{IsDemoMade, demo_made, demo_plan};
ghost use Rattle.wfc_map_commands.specs.Demonstration.{columns_apart, demo_symbol, demo_symbols, rows_apart};
ghost use Rattle.wfc_plan.specs.Plan.{Goes};

use std::alloc::Global;
use wfc_choose::RuleKind;
use wfc_outside::{Folder, NoMemory};
use wfc_pattern::Patterns;
use wfc_picture::Symbol;
use wfc_plan::{Fault, Refusal, enough};
use wfc_problem::Problem;
use wfc_task::{AskedOutput, numbered_picture, patterns_of_picture, posed_for};
use wfc_words::Request;

/// The side of the grid that a demonstration learns from, in pixels.
const SIDE: u32 = 24;

/// The side of the map that it fills, in pixels.
const OUTPUT: u32 = 48;

/// The side of its windows.
const N: u32 = 3;

/// What the demonstration with this number runs on.
fn demo(alloc: Global, number: u32) -> Result<Demonstration, Refusal>
    ensures exact { IsDemoMade number result }
{
    let symbols = demo_symbols(alloc, number, SIDE)?;
    let (picture, palette) = numbered_picture(alloc, &symbols, SIDE)?;
    let patterns = patterns_of_picture(alloc, &picture, N, 1, false)?;
    let output = AskedOutput {
        width: OUTPUT,
        height: OUTPUT,
        wrap: false,
    };
    let problem = posed_for(alloc, &patterns, &palette, output, &[])?;
    Ok(Demonstration { patterns, problem })
}

/// The pixels of a square with lines across and down, row by row.
fn demo_symbols(alloc: Global, number: u32, side: u32) -> Result<Vec<Symbol>, NoMemory>
    requires some_side { 0 < side }
    requires small { side ≤ 24 }
    ensures value { IfOk result (λ symbols. symbols.items ≡ demo_symbols number side) }
{
    let mut symbols = Vec::new(alloc);
    for k in 0..side * side {
        symbols.push(demo_symbol(number, k % side, k / side))?;
    }
    Ok(symbols)
}

/// What the pixel in column `x` of row `y` shows.
fn demo_symbol(number: u32, x: u32, y: u32) -> Symbol
    ensures value { result ≡ demo_symbol number x y }
{
    if x % columns_apart(number) == 0 || y % rows_apart(number) == 0 {
        Symbol::Char(b'#')
    } else {
        Symbol::Char(b'.')
    }
}

/// How far the lines that go down stand apart.
fn columns_apart(number: u32) -> u32
    ensures value { result ≡ columns_apart number }
{
    3 + number % 5
}

/// How far the lines that go across stand apart.
fn rows_apart(number: u32) -> u32
    ensures value { result ≡ rows_apart number }
{
    3 + number / 5 % 5
}

/// What `demo` works on.
#[derive(Drop)]
pub struct Demonstration {
    pub patterns: Patterns,
    pub problem: Problem,
}

/// What `demo` runs on. No file is read.
pub fn demo_task<F: Folder>(
    alloc: Global,
    request: &Request,
    kinds: &[RuleKind],
    _folder: &mut F,
) -> Result<Demonstration, Fault>
    ensures goes { Goes (demo_plan kinds.now request.now)
        (F.seen _folder.old) (F.seen _folder.new) (demo_made result) }
    ensures chooser { OnOk result (HasChoosers 1 kinds.now Fewest) }
{
    enough(1, kinds, RuleKind::Fewest)?;
    let task = demo(alloc, request.number)?;
    Ok(task)
}
