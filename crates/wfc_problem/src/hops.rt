//! What lies beside the cells, kept by hops. A hop is what is added to a cell's number to come to the cell beside it, with the
//! sum cut to 32 bits. Cells that lie in rows have few rows of hops, so that a byte for each cell says which is its own.

ghost use Rattle.std.specs.Prelude.{◌≡◌, ◌+◌, ◌*◌, ◌<◌, ◌≤◌, ◌↔◌, ◌++◌, All, IfOk, IfSome, length, map, slice_index_or, take, true};
ghost use Rattle.wfc_problem.specs.Network.{entry_cell};
ghost use Rattle.wfc_problem.specs.Hops.{hop_cell, hop_end, hops_table, table_row, AreHops};
ghost use Rattle.wfc_problem.specs.HopsMade.{hop_of, IsEntry, AreHopsAt, AreTurned, AreKinds};
ghost use Rattle.wfc_problem.specs.Strides.{HaveTheirHops};

use crate::strides::Strides;
use crate::{MAX_PAIRS, NO_CELL, NO_HOP};
use std::alloc::Global;
use std::marker::Model;
use wfc_outside::NoMemory;

/// How many kinds of cells there may be.
const MAX_KINDS: u8 = 255;

/// Where a hop ends: at a cell, unless it is `NO_HOP`.
#[inline]
pub fn hop_end(cell: u32, hop: u32) -> u32
    ensures value { result ≡ hop_end cell hop }
{
    cell.wrapping_add(hop)
}

/// The cell to which a hop leads, if any.
#[inline]
pub fn hop_cell(cell: u32, hop: u32) -> Option<u32>
    ensures value { result ≡ hop_cell cell hop }
{
    if hop == NO_HOP {
        None
    } else {
        Some(hop_end(cell, hop))
    }
}

/// Which row of hops is that of each cell, and these rows.
#[derive(Drop)]
struct Kinds {
    kinds: Vec<u8>,
    rows: Vec<u32>,
}

/// The neighbours of the cells of a problem.
#[derive(Debug, Drop)]
pub(crate) struct Hops {
    cells: u32,
    dirs: u8,
    /// For each cell which row is its own; empty where each cell has the row of its number.
    kinds: Vec<u8>,
    /// Rows of a hop for each direction.
    rows: Vec<u32>,
}

impl Model for Hops {
    ghost use Rattle.wfc_problem.specs.Hops.{Beside, AreHops, hops_table};

    ghost Value = { Beside };

    ghost view = { λ a. record {
      cells = a.cells;
      dirs = a.dirs;
      entries = hops_table a.cells a.dirs a.kinds.items a.rows.items;
    } };

    ghost invariant = { λ a. AreHops a.cells a.dirs a.kinds.items a.rows.items };
}

impl Hops {
    /// The hops of a table of neighbours, whose memory it takes. Where there are too many kinds, or no memory is left for
    /// them, each cell keeps a row of its own.
    pub(crate) fn of(mut table: Vec<u32>, cells: u32, dirs: u8) -> Hops
        requires few_cells { cells ≤ MAX_PAIRS }
        requires some_dir { 0 < dirs }
        requires table { length table.items ≡ cells * dirs }
        requires entries { All IsEntry table.items }
        ensures cells { result.cells ≡ cells }
        ensures dirs { result.dirs ≡ dirs }
        ensures entries { result.entries ≡ table.items }
    {
        let alloc = *table.allocator();
        match kinds_of(alloc, &table, cells, dirs) {
            Some(made) => Hops::with(cells, dirs, made.kinds, made.rows),
            None => {
                turn(&mut table, cells, dirs);
                Hops::with(cells, dirs, Vec::new(alloc), table)
            }
        }
    }

    /// The hops that are kept by these kinds and rows.
    fn with(cells: u32, dirs: u8, kinds: Vec<u8>, rows: Vec<u32>) -> Hops
        requires hops { AreHops cells dirs kinds.items rows.items }
        ensures cells { result.cells ≡ cells }
        ensures dirs { result.dirs ≡ dirs }
        ensures entries { result.entries ≡ hops_table cells dirs kinds.items rows.items }
    {
        Hops {
            cells,
            dirs,
            kinds,
            rows,
        }
    }

    /// The hop from a cell in each direction.
    #[inline]
    pub(crate) fn row(&self, cell: u32) -> &[u32]
        requires cell_in { cell < self.now.cells }
        ensures value { map (hop_cell cell) result.now
            ≡ map entry_cell (table_row self.now.dirs self.now.entries cell) }
    {
        let dirs = self.dirs as usize;
        let start = kind_at(&self.kinds, cell) * dirs;
        &self.rows[start..start + dirs]
    }

    /// The sides of the cells with four neighbours, where a byte for each cell says its kind.
    pub(crate) fn strides(&self, alloc: Global, row_len: u32) -> Result<Strides<'_>, NoMemory>
        requires some_dir { 0 < self.now.dirs }
        ensures sides { IfOk result (HaveTheirHops self.now row_len) }
    {
        Strides::new(alloc, &self.kinds, &self.rows, self.dirs, row_len)
    }
}

/// Which row is that of a cell, where these are the kinds.
#[inline]
fn kind_at(kinds: &[u8], cell: u32) -> usize
    ensures value { result ≡ slice_index_or kinds.now cell cell }
{
    match kinds.get(cell as usize) {
        Some(kind) => *kind as usize,
        None => cell as usize,
    }
}

/// The hop from a cell that an entry of a table asks for.
#[inline]
fn hop_of(cell: u32, entry: u32) -> u32
    ensures value { result ≡ hop_of cell entry }
{
    if entry == NO_CELL {
        NO_HOP
    } else {
        entry.wrapping_sub(cell)
    }
}

/// Makes hops of the entries of a table. It takes no memory.
fn turn(table: &mut [u32], cells: u32, dirs: u8)
    requires table { length table.old ≡ cells * dirs }
    ensures turned { AreTurned table.old table.new dirs cells }
{
    for cell in 0..cells {
        turn_row(table, cell as usize * dirs as usize, cell, dirs);
    }
}

/// Makes hops of the entries of one cell, which begin at `start`.
#[inline]
fn turn_row(table: &mut [u32], start: usize, cell: u32, dirs: u8)
    requires row { start + dirs ≤ length table.old }
    ensures turned { AreHopsAt table.old table.new start dirs cell }
{
    for dir in 0..dirs {
        let at = start + dir as usize;
        table[at] = hop_of(cell, table[at]);
    }
}

/// The kind of each cell of a table of neighbours, and a row of hops for each kind, if there is memory and there are few
/// enough.
fn kinds_of(alloc: Global, table: &[u32], cells: u32, dirs: u8) -> Option<Kinds>
    requires some_dir { 0 < dirs }
    requires table { length table.now ≡ cells * dirs }
    ensures kinds { IfSome result (λ made.
        AreKinds dirs table.now cells made.kinds.items made.rows.items) }
{
    let mut kinds = Vec::with_capacity(alloc, cells as usize).ok()?;
    let mut rows = Vec::new(alloc);
    let mut kind = 0;
    for cell in 0..cells {
        let start = cell as usize * dirs as usize;
        kind = kind_of(&mut rows, &table[start..start + dirs as usize], cell, kind)?;
        kinds.push(kind).ok()?;
    }
    Some(Kinds { kinds, rows })
}

/// The kind of a cell with these entries, which may be a new one. The kind of the cell before is tried first.
#[inline]
fn kind_of(rows: &mut Vec<u32>, entries: &[u32], cell: u32, last: u8) -> Option<u8>
    requires some { 0 < length entries.now }
    requires few { length entries.now ≤ 255 }
    ensures stay { IfSome result (λ kind.
        take (length rows.old.items) rows.new.items ≡ rows.old.items) }
    ensures kind { IfSome result (λ kind.
        table_row (length entries.now) rows.new.items kind ≡ map (hop_of cell) entries.now) }
{
    if has_row(rows, entries, cell, last) {
        Some(last)
    } else {
        find_kind(rows, entries, cell)
    }
}

/// The least kind with the hops of these entries, or a new one behind the others.
fn find_kind(rows: &mut Vec<u32>, entries: &[u32], cell: u32) -> Option<u8>
    requires some { 0 < length entries.now }
    requires few { length entries.now ≤ 255 }
    ensures stay { IfSome result (λ kind.
        take (length rows.old.items) rows.new.items ≡ rows.old.items) }
    ensures kind { IfSome result (λ kind.
        table_row (length entries.now) rows.new.items kind ≡ map (hop_of cell) entries.now) }
{
    for kind in 0..MAX_KINDS {
        if rows.len() == kind as usize * entries.len() {
            push_hops(rows, entries, cell).ok()?;
            return Some(kind);
        }
        if has_row(rows, entries, cell, kind) {
            return Some(kind);
        }
    }
    None
}

/// Whether the hops that the entries of a cell ask for stand in a table as the row of a kind.
#[inline]
fn has_row(rows: &[u32], entries: &[u32], cell: u32, kind: u8) -> bool
    requires some { 0 < length entries.now }
    requires few { length entries.now ≤ 255 }
    ensures value { result ≡ true
        ↔ table_row (length entries.now) rows.now kind ≡ map (hop_of cell) entries.now }
{
    let start = kind as usize * entries.len();
    let end = start + entries.len();
    end <= rows.len() && are_hops(&rows[start..end], entries, cell)
}

/// Whether these are the hops that the entries of a cell ask for.
#[inline]
fn are_hops(hops: &[u32], entries: &[u32], cell: u32) -> bool
    requires long { length hops.now ≡ length entries.now }
    ensures value { result ≡ true ↔ hops.now ≡ map (hop_of cell) entries.now }
{
    for dir in 0..entries.len() {
        if hops[dir] != hop_of(cell, entries[dir]) {
            return false;
        }
    }
    true
}

/// Writes the hops that the entries of a cell ask for behind a table.
fn push_hops(rows: &mut Vec<u32>, entries: &[u32], cell: u32) -> Result<(), NoMemory>
    ensures pushed { IfOk result (λ done.
        rows.new.items ≡ rows.old.items ++ map (hop_of cell) entries.now) }
{
    for entry in entries {
        rows.push(hop_of(cell, *entry))?;
    }
    Ok(())
}
