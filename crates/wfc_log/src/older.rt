//! Removals of earlier levels, in three bytes each, or in three bytes and two bits.

ghost use Rattle.std.specs.Prelude.{◌≡◌, ◌+◌, ◌<◌, ◌≤◌, ◌++◌, ◌∷◌, [], drop, length, reverse, slice_get, take, IfOk, Some, vec_len, vec_capacity};
ghost use Rattle.wfc_log.specs.Domains.{base_of};
ghost use Rattle.wfc_log.specs.Log.{IsLogged, AreLogged, cells_of, extent_of, loss_of, sizes_after};
ghost use Rattle.wfc_log.specs.Numbered.{cause_number, numbered_cause, placed_loss, removal_number, wide_limit};
ghost use Rattle.wfc_log.specs.declared.Removal.{Removal};

use crate::domains::Domains;
use crate::packed::{Numbers, SHORT};
use crate::{Cause, Loss, Removal};
use core::mem::replace_with;
use std::alloc::Global;
use std::marker::Model;
use wfc_outside::NoMemory;
use wfc_problem::Problem;

/// Removals, each kept as one number, which tells its cell, value and cause. How many values stood before it follows
/// from how many each cell has left.
#[derive(Drop)]
pub struct Older {
    values: u16,
    dirs: u8,
    sizes: Vec<u16>,
    numbers: Numbers,
}

impl Model for Older {
    ghost use Rattle.wfc_log.specs.Numbered.{Earlier};
    ghost use Rattle.wfc_log.specs.Kept.{older_view, AreNumbers};

    ghost Value = { Earlier };

    ghost view = { older_view };

    ghost invariant = { AreNumbers };
}

/// The number of a cause among those that there are.
#[inline]
fn cause_number(cause: Cause, dirs: u8) -> u8
    ensures value { result ≡ cause_number dirs cause }
{
    match cause {
        Cause::Assumed => dirs,
        Cause::Arc(dir) => dir,
    }
}

/// The cause with a number.
#[inline]
fn numbered_cause(number: u8, dirs: u8) -> Cause
    ensures value { result ≡ numbered_cause dirs number }
{
    if number == dirs {
        Cause::Assumed
    } else {
        Cause::Arc(number)
    }
}

/// The number of a removal's cell, value and cause among all that there can be.
#[inline]
fn removal_number(removal: Removal, values: u16, dirs: u8) -> u32
    requires few { removal_number values dirs removal < wide_limit }
    ensures value { result ≡ removal_number values dirs removal }
{
    let pair = removal.cell * u32::from(values) + u32::from(removal.value);
    pair * (u32::from(dirs) + 1) + u32::from(cause_number(removal.cause, dirs))
}

/// What the removal with a number took away.
#[inline]
fn placed_loss(number: u32, values: u16, dirs: u8) -> Loss
    requires some_value { 0 < values }
    ensures value { result ≡ placed_loss values dirs number }
{
    let pair = number / (u32::from(dirs) + 1);
    Loss {
        cell: pair / u32::from(values),
        value: (pair % u32::from(values)) as u16,
        cause: numbered_cause((number % (u32::from(dirs) + 1)) as u8, dirs),
    }
}

/// The removals with more behind them. They are taken out of where they stand and given back, so that pointers and lengths stay
/// in registers: a write through a reference might change them.
#[inline]
fn with_all(mut older: Older, removals: &[Removal]) -> Older
    requires room { length older.removals + length removals.now ≤ older.room }
    requires logged { AreLogged older.extent (sizes_after older.extent.sizes (cells_of
        older.removals)) removals.now }
    ensures more { result ≡ record older { removals = older.removals ++ removals.now } }
{
    for removal in removals {
        older.push(*removal);
    }
    older
}

/// More removals behind these.
fn push_all(older: &mut Older, removals: &[Removal])
    requires room { length older.old.removals + length removals.now ≤ older.old.room }
    requires logged { AreLogged older.old.extent (sizes_after older.old.extent.sizes (cells_of
        older.old.removals)) removals.now }
    ensures more { older.new ≡ record older.old { removals = older.old.removals ++ removals.now } }
{
    replace_with(
        older,
        removals,
        |older, removals| (with_all(older, removals), ()),
    );
}

/// Moves all removals of a list behind the others.
pub fn move_to(older: &mut Older, list: &mut Vec<Removal>)
    requires room { length older.old.removals + vec_len list.old ≤ older.old.room }
    requires logged { AreLogged older.old.extent (sizes_after older.old.extent.sizes (cells_of
        older.old.removals)) list.old.items }
    ensures more { older.new
        ≡ record older.old { removals = older.old.removals ++ list.old.items } }
    ensures empty { list.new.items ≡ [] }
    ensures capacity { vec_capacity list.new ≡ vec_capacity list.old }
{
    push_all(older, list.as_slice());
    list.clear();
}

/// Moves the first removals of a list, so many, behind the others.
pub fn move_first(older: &mut Older, list: &mut Vec<Removal>, count: usize)
    requires within { count ≤ vec_len list.old }
    requires room { length older.old.removals + count ≤ older.old.room }
    requires logged { AreLogged older.old.extent (sizes_after older.old.extent.sizes (cells_of
        older.old.removals)) (take count list.old.items) }
    ensures more { older.new ≡ record older.old
        { removals = older.old.removals ++ take count list.old.items } }
    ensures left { list.new.items ≡ drop count list.old.items }
    ensures capacity { vec_capacity list.new ≡ vec_capacity list.old }
{
    push_all(older, &list[..count]);
    let left = list.len() - count;
    list.copy_within(count.., 0);
    list.truncate(left);
}

/// Moves the removals from an index on to an empty list, the last first.
pub fn move_from(older: &mut Older, start: usize, list: &mut Vec<Removal>)
    requires empty { vec_len list.old ≡ 0 }
    requires room { length older.old.removals ≤ vec_capacity list.old }
    requires start_in { start ≤ length older.old.removals }
    ensures same { older.new ≡ record older.old { removals = older.new.removals } }
    ensures moved { older.old.removals ≡ older.new.removals ++ reverse list.new.items }
    ensures kept { length older.new.removals ≡ start }
    ensures capacity { vec_capacity list.new ≡ vec_capacity list.old }
{
    while older.len() > start {
        list.push_reserved(older.pop());
    }
}

impl Older {
    /// No removals, and room for so many from the base domains of a problem.
    pub fn new(
        alloc: Global,
        problem: &Problem,
        domains: &Domains,
        room: usize,
    ) -> Result<Older, NoMemory>
        requires base { domains.now ≡ base_of problem.now }
        ensures ok { IfOk result (λ older. older
            ≡ record { room = room; extent = extent_of problem.now; removals = [] }) }
    {
        let (cells, values, dirs) = (problem.cells(), problem.values(), problem.dirs());
        let places = u64::from(cells) * u64::from(values) * (u64::from(dirs) + 1);
        Ok(Older {
            values,
            dirs,
            sizes: Vec::from_slice(alloc, domains.sizes())?,
            numbers: Numbers::new(alloc, room, places > SHORT as u64)?,
        })
    }

    /// How many removals there are.
    #[inline]
    pub fn len(&self) -> usize
        ensures value { result ≡ length self.now.removals }
    {
        self.numbers.len()
    }

    /// One more.
    #[inline]
    fn push(&mut self, removal: Removal)
        requires room { length self.old.removals < self.old.room }
        requires logged { IsLogged self.old.extent (sizes_after self.old.extent.sizes (cells_of
            self.old.removals)) removal }
        ensures more { self.new ≡ record self.old { removals = self.old.removals ++ removal ∷ [] } }
    {
        self.sizes[removal.cell as usize] = removal.before - 1;
        self.numbers
            .push(removal_number(removal, self.values, self.dirs));
    }

    /// Takes the last away.
    pub fn pop(&mut self) -> Removal
        requires some { 0 < length self.old.removals }
        ensures last { self.old.removals ≡ self.new.removals ++ result ∷ [] }
        ensures same { self.new ≡ record self.old { removals = self.new.removals } }
    {
        let last = self.numbers.len() - 1;
        let loss = placed_loss(self.numbers.at(last), self.values, self.dirs);
        self.numbers.truncate(last);
        let before = self.sizes[loss.cell as usize] + 1;
        self.sizes[loss.cell as usize] = before;
        Removal {
            cell: loss.cell,
            value: loss.value,
            before,
            cause: loss.cause,
        }
    }

    /// What the removal at an index took away.
    pub fn loss(&self, index: usize) -> Loss
        requires index_in { index < length self.now.removals }
        ensures value { (r : Removal) → slice_get self.now.removals index ≡ Some r → result
            ≡ loss_of r }
    {
        placed_loss(self.numbers.at(index), self.values, self.dirs)
    }
}
