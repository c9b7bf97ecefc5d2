//! Patterns, grouped by the numbers that they share with the patterns beside them.

ghost use Rattle.std.specs.Prelude.{◌≡◌, ℕ, ◌+◌, ◌*◌, ◌<◌, ◌≤◌, [], List, length, IfOk, OnOk};
ghost use Rattle.wfc_overlap.specs.Sides.{IsAdded, IsGrouped, members, part, shared_part};

use indexmap::IndexMap;
use std::alloc::Global;
use std::marker::Model;
use wfc_outside::NoMemory;
use wfc_pattern::Patterns;

/// Numbers of patterns, by a key of each. It is seen as the list of keys, each with its members.
#[derive(Drop)]
pub(crate) struct Groups {
    groups: IndexMap<Vec<u32>, Vec<u16>>,
}

impl Model for Groups {
    ghost use Rattle.std.specs.Prelude.{ℕ, List, map};

    ghost Value = { List (List ℕ × List ℕ) };

    ghost view = { λ g. map (λ e. (e.0.items, e.1.items)) g.groups.entries };
}

impl Groups {
    fn new(alloc: Global) -> Groups
        ensures empty { result ≡ [] }
    {
        Groups {
            groups: IndexMap::new(alloc),
        }
    }

    /// Puts a member behind those of its key.
    fn add(&mut self, alloc: Global, key: Vec<u32>, member: u16) -> Result<(), NoMemory>
        ensures added { OnOk result (IsAdded self.old self.new key.items member) }
    {
        if let Some(members) = self.groups.get_mut(key.as_slice()) {
            members.push(member)?;
            return Ok(());
        }
        let mut members = Vec::new(alloc);
        members.push(member)?;
        self.groups.insert(key, members)?;
        Ok(())
    }

    /// The members of a key, in the order in which they were added.
    pub(crate) fn get(&self, key: &[u32]) -> &[u16]
        ensures value { result.now ≡ members self.now key.now }
    {
        match self.groups.get(key) {
            Some(members) => members.as_slice(),
            None => &[],
        }
    }
}

/// The patterns by the numbers that each shares with one beside it in a direction.
pub(crate) fn group(alloc: Global, patterns: &Patterns, dir: u8) -> Result<Groups, NoMemory>
    requires dir_in { dir < 4 }
    ensures grouped { IfOk result (λ groups. IsGrouped patterns.now dir groups) }
{
    let mut groups = Groups::new(alloc);
    for q in 0..patterns.count() {
        let key = shared_part(alloc, patterns.window(q), patterns.n(), dir)?;
        groups.add(alloc, key, q)?;
    }
    Ok(groups)
}

/// The numbers of a window that the one beside it in a direction has too, row by row.
pub(crate) fn shared_part(
    alloc: Global,
    window: &[u32],
    n: u32,
    dir: u8,
) -> Result<Vec<u32>, NoMemory>
    requires some_side { 0 < n }
    requires small_side { n ≤ 6 }
    requires square { length window.now ≡ n * n }
    requires dir_in { dir < 4 }
    ensures value { IfOk result (λ numbers. numbers.items ≡ shared_part n window.now dir) }
{
    let n = n as usize;
    match dir {
        0 => part(alloc, window, n, 0, 0, n - 1, n),
        1 => part(alloc, window, n, 0, 1, n, n - 1),
        2 => part(alloc, window, n, 1, 0, n - 1, n),
        _ => part(alloc, window, n, 0, 0, n, n - 1),
    }
}

/// The numbers of a window from a column and a row on, in so many columns and rows.
fn part(
    alloc: Global,
    window: &[u32],
    n: usize,
    left: usize,
    top: usize,
    columns: usize,
    rows: usize,
) -> Result<Vec<u32>, NoMemory>
    requires square { length window.now ≡ n * n }
    requires small_side { n ≤ 6 }
    requires columns_in { left + columns ≤ n }
    requires rows_in { top + rows ≤ n }
    ensures value { IfOk result (λ numbers. numbers.items
        ≡ part n window.now left top columns rows) }
{
    let mut numbers = Vec::with_capacity(alloc, columns * rows)?;
    for row in 0..rows {
        let start = (top + row) * n + left;
        numbers.extend_from_slice(&window[start..start + columns])?;
    }
    Ok(numbers)
}
