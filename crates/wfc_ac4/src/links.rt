//! What may stand beside each value, of all directions in one list, and how far it is to the counters of a cell's neighbours: a
//! removal is worked off in one loop.

ghost use Rattle.std.specs.Prelude.{◌≡◌, ◌++◌, ◌<◌, IsOk, IfOk, IfSome};
ghost use Rattle.wfc_problem.specs.Network.{values};
ghost use Rattle.wfc_problem.specs.Strides.{AreSides, AreStrides};
ghost use Rattle.wfc_ac4.specs.Links.{AreLinks, counter_row, links_of, side_links};

use std::alloc::{AllocError, Global};
use wfc_domains::{mask_at, unit_at};
use wfc_outside::NoMemory;
use wfc_problem::{FourSides, Problem, Strides, opposite};

/// A value that may stand beside another: where its counter for the way back stands among the entries of its cell,
/// the direction that leads there, and the one that leads back. Where two counters share a byte, what one more in that
/// counter is, and which bits it has.
#[derive(Clone, Copy)]
pub struct SupportLink {
    pub offset: u32,
    pub dir: u8,
    pub back: u8,
    pub unit: u8,
    pub mask: u8,
}

/// The links of each value, one value after the other, and where those of each begin. Beside them the sides of the cells, with
/// the strides from the counters of a cell to those of its neighbours.
#[derive(Drop)]
pub struct Links<'p> {
    starts: Vec<usize>,
    links: Vec<SupportLink>,
    strides: Strides<'p>,
}

impl<'p> Links<'p> {
    /// The links of a problem's values.
    pub fn new(alloc: Global, problem: &'p Problem) -> Result<Links<'p>, NoMemory>
        ensures linked { IfOk result (λ links. AreLinks problem.now links) }
    {
        let strides = counter_strides(alloc, problem)?;
        let mut starts = Vec::with_capacity(alloc, problem.values() as usize + 1)?;
        let mut links = Vec::new(alloc);
        starts.push(0)?;
        for value in 0..problem.values() {
            push_value(problem, value, &mut links)?;
            starts.push(links.len())?;
        }
        Ok(Links {
            starts,
            links,
            strides,
        })
    }

    /// The links of one value, the directions in rising order, and in each the values.
    #[tactic(auto, using(crate::proofs::LinkLemmas::of_within, crate::proofs::LinkLemmas::of_is))]
    #[inline]
    pub fn of(&self, problem: &Problem, value: u16) -> &[SupportLink]
        requires linked { AreLinks problem.now self.now }
        requires value_in { value < values problem.now }
        ensures value { result.now ≡ links_of problem.now value }
    {
        let _ = problem;
        &self.links[self.starts[value as usize]..self.starts[value as usize + 1]]
    }

    /// The sides of a cell with four neighbours, if they are kept.
    #[inline]
    pub fn sides(&self, problem: &Problem, cell: u32) -> Option<&FourSides>
        requires linked { AreLinks problem.now self.now }
        requires cell_in { cell < problem.now.cells }
        ensures some { IfSome result (λ sides. AreSides problem.now (counter_row problem.now) cell
            sides.now) }
    {
        let _ = problem;
        self.strides.of(cell)
    }
}

/// The sides of the cells of a problem in the table of its counters.
#[tactic(auto, using(crate::proofs::LinkLemmas::rows_few))]
fn counter_strides<'p>(alloc: Global, problem: &'p Problem) -> Result<Strides<'p>, NoMemory>
    ensures strides { IfOk result (AreStrides problem.now (counter_row problem.now)) }
{
    let row_len = u32::from(problem.values()) * u32::from(problem.dirs());
    problem.strides(alloc, row_len)
}

/// The links of a value, behind those that are there.
fn push_value(problem: &Problem, value: u16, links: &mut Vec<SupportLink>) -> Result<(), AllocError>
    requires value_in { value < values problem.now }
    ensures more { IsOk result → links.new.items ≡ links.old.items ++ links_of problem.now value }
{
    for dir in 0..problem.dirs() {
        push_side(problem, value, dir, links)?;
    }
    Ok(())
}

/// The links of a value in one direction, behind those that are there.
fn push_side(
    problem: &Problem,
    value: u16,
    dir: u8,
    links: &mut Vec<SupportLink>,
) -> Result<(), AllocError>
    requires value_in { value < values problem.now }
    requires dir_in { dir < problem.now.dirs }
    ensures more { IsOk result → links.new.items
        ≡ links.old.items ++ side_links problem.now value dir }
{
    let dirs = u32::from(problem.dirs());
    let back = opposite(dir);
    for other in problem.supports(value, dir) {
        let offset = u32::from(*other) * dirs + u32::from(back);
        links.push(SupportLink {
            offset,
            dir,
            back,
            unit: unit_at(offset as usize),
            mask: mask_at(offset as usize),
        })?;
    }
    Ok(())
}
