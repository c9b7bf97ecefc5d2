//! Which cell a search looks at next, and which value it gives it.
//!
//! A chooser is told the size of each cell, which is how many values it has left, and picks a cell by its rule.
//! A word of a random source draws a value of that cell.
#![tactic(auto)]

ghost use Rattle.std.specs.Prelude.{◌≡◌, ◌<◌, ◌≤◌, length, All, OnOk, OnErr, slice_set};
ghost use Rattle.wfc_choose.specs.Pick.{picked_cell};
ghost use Rattle.wfc_choose.specs.Told.{Told};
ghost use Rattle.wfc_problem.specs.declared.TheConstants.{MAX_PAIRS, MAX_VALUES};

mod buckets;
mod draws;
mod index;
pub mod laws;
mod scanning;
mod sizes;

pub use buckets::Buckets;
pub use draws::draw;
pub use scanning::Scanning;
use wfc_outside::NoMemory;

/// The rank of a cell without one, behind which none comes.
pub const NO_RANK: u32 = 4_294_967_295;

/// By what a rule picks among the cells that have two values or more. Of cells that are level it is the least.
#[derive(Clone, Copy, Debug, PartialEq, Eq)]
pub enum RuleKind {
    /// By nothing: the least cell.
    Scanline,
    /// The cell with the fewest values.
    Fewest,
    /// The cell of the least rank.
    Ranked,
}

/// Something that picks the next cell. It is made by the caller of a search, and used as a `Box<dyn Chooser>`.
pub trait Chooser: Drop {
    /// Its rule, and the sizes that it was told.
    ghost told: { Self → Told };

    /// The kind of its rule.
    fn kind(&self) -> RuleKind
        ensures value { result ≡ (told self.now).rule.kind };

    /// Takes the sizes of all cells, in their order, in the place of those that it had.
    fn load(&mut self, sizes: &[u32]) -> Result<(), NoMemory>
        requires limit { length sizes.now ≤ MAX_PAIRS }
        requires small { All (λ size. size ≤ MAX_VALUES) sizes.now }
        ensures ok { OnOk result (told self.new ≡ record (told self.old) { sizes = sizes.now }) }
        ensures failed { OnErr result (told self.new ≡ told self.old) };

    /// Takes the new size of one cell. It takes no memory.
    fn resized(&mut self, cell: u32, size: u32)
        requires cell_in { cell < length (told self.old).sizes }
        requires small { size ≤ MAX_VALUES }
        ensures resized { told self.new
            ≡ record (told self.old) { sizes = slice_set (told self.old).sizes cell size } };

    /// The cell that the rule picks of these sizes, if some cell has two values or more. It takes no memory.
    fn pick(&self) -> Option<u32>
        ensures exact { result ≡ picked_cell (told self.now).rule (told self.now).sizes };
}
