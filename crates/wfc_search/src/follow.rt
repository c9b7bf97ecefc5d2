//! A store, and a chooser that is told of each change of a size.
//!
//! After a literal is put on, each cell that changed is told once, with the size that it has then. Before one is taken
//! away, the sizes of the cells that changed are told as they were. Where the changes are so many that the store keeps no
//! list of them, the sizes of all cells are told, in the second case after the literal was taken away.

ghost use Rattle.std.specs.Prelude.{◌≡◌, ◌+◌, ◌-◌, ◌++◌, ◌∷◌, [], ◌<◌, ◌≤◌, length, take, slice_set, All, OnOk, OnErr};
ghost use Rattle.wfc_choose.specs.Pick.{picked_cell};
ghost use Rattle.wfc_choose.specs.Told.{Told};
ghost use Rattle.wfc_domains.specs.Store.{StoreView, IsSound, left_of, added_of, before_of};
ghost use Rattle.wfc_log.specs.declared.Verdict.TheVariants.{Alive};
ghost use Rattle.wfc_problem.specs.Domains.{IsLiteralIn};
ghost use Rattle.wfc_problem.specs.Sizes.{sizes_of};
ghost use Rattle.wfc_problem.specs.declared.TheConstants.{MAX_PAIRS, MAX_VALUES};
ghost use Rattle.wfc_search.specs.Follow.{Keeps, IsPutOn, IsCutBack};

use std::sync::ledger::Ledger;
use wfc_choose::Chooser;
use wfc_domains::{Removal, Steps, Store};
use wfc_outside::NoMemory;
use wfc_problem::Literal;

/// Tells the chooser all sizes.
pub fn load(chooser: &mut Box<dyn Chooser>, sizes: &[u32]) -> Result<(), NoMemory>
    requires limit { length sizes.now ≤ MAX_PAIRS }
    requires small { All (λ size. size ≤ MAX_VALUES) sizes.now }
    ensures ok { OnOk result (told chooser.new ≡ record (told chooser.old) { sizes = sizes.now }) }
    ensures failed { OnErr result (told chooser.new ≡ told chooser.old) }
{
    chooser.load(sizes)
}

/// The cell that the chooser picks.
#[inline]
pub fn pick(chooser: &Box<dyn Chooser>) -> Option<u32>
    ensures value { result ≡ picked_cell (told chooser.now).rule (told chooser.now).sizes }
{
    chooser.pick()
}

/// Tells the chooser a new size.
#[inline]
fn resize(chooser: &mut Box<dyn Chooser>, cell: u32, size: u32)
    requires cell_in { cell < length (told chooser.old).sizes }
    requires small { size ≤ MAX_VALUES }
    ensures resized { told chooser.new ≡ record (told chooser.old)
        { sizes = slice_set (told chooser.old).sizes cell size } }
{
    chooser.resized(cell, size);
}

/// Tells the chooser the size of each cell.
fn tell_all<S: Store>(store: &S, chooser: &mut Box<dyn Chooser>)
    requires sound { IsSound (S.view store.now) }
    requires cells { length (told chooser.old).sizes ≡ (S.view store.now).problem.cells }
    ensures told { told chooser.new ≡ record (told chooser.old)
        { sizes = sizes_of (S.view store.now).problem (left_of (S.view store.now)) } }
{
    let domains = store.domains();
    for cell in 0..domains.cells() {
        resize(chooser, cell, domains.size(cell));
    }
}

/// Tells the chooser the size of each cell that the last level changed: at its last removal.
fn tell_changed<S: Store>(store: &S, added: &[Removal], chooser: &mut Box<dyn Chooser>)
    requires sound { IsSound (S.view store.now) }
    requires added { added.now ≡ added_of (S.view store.now) }
    requires sizes { (told chooser.old).sizes ≡ sizes_of (S.view store.now).problem
        (before_of (S.view store.now)) }
    ensures told { told chooser.new ≡ record (told chooser.old)
        { sizes = sizes_of (S.view store.now).problem (left_of (S.view store.now)) } }
{
    let domains = store.domains();
    for removal in added {
        let size = domains.size(removal.cell);
        if u32::from(removal.before) == size + 1 {
            resize(chooser, removal.cell, size);
        }
    }
}

/// Tells the chooser the sizes that the last level left.
fn tell_removed<S: Store>(store: &S, chooser: &mut Box<dyn Chooser>)
    requires sound { IsSound (S.view store.now) }
    requires sizes { (told chooser.old).sizes ≡ sizes_of (S.view store.now).problem
        (before_of (S.view store.now)) }
    ensures told { told chooser.new ≡ record (told chooser.old)
        { sizes = sizes_of (S.view store.now).problem (left_of (S.view store.now)) } }
{
    match store.added() {
        Some(added) => tell_changed(store, added, chooser),
        None => tell_all(store, chooser),
    }
}

/// Tells the chooser the size of each cell that the last level changed, as it was before it: the last removal first, but
/// where the removal before it is of the same cell.
fn tell_restored<S: Store>(store: &S, added: &[Removal], chooser: &mut Box<dyn Chooser>)
    requires sound { IsSound (S.view store.now) }
    requires added { added.now ≡ added_of (S.view store.now) }
    requires sizes { (told chooser.old).sizes ≡ sizes_of (S.view store.now).problem
        (left_of (S.view store.now)) }
    ensures told { told chooser.new ≡ record (told chooser.old)
        { sizes = sizes_of (S.view store.now).problem (before_of (S.view store.now)) } }
{
    let mut at = added.len();
    while at > 0 {
        at -= 1;
        let removal = added[at];
        if at == 0 || added[at - 1].cell != removal.cell {
            resize(chooser, removal.cell, u32::from(removal.before));
        }
    }
}

/// Puts a literal on, and tells the chooser.
#[inline]
pub fn put_on<S: Store, L: Ledger>(
    store: &mut S,
    chooser: &mut Box<dyn Chooser>,
    literal: Literal,
    steps: &mut Steps<L>,
)
    requires alive { (S.view store.old).verdict ≡ Alive }
    requires literal_in { IsLiteralIn (S.view store.old).problem literal }
    requires spare { 0 < (S.view store.old).spare }
    requires keeps { Keeps (S.view store.old) (told chooser.old) }
    ensures put_on { IsPutOn (S.view store.old) (S.view store.new) literal }
    ensures keeps { Keeps (S.view store.new) (told chooser.new) }
    ensures rule { (told chooser.new).rule ≡ (told chooser.old).rule }
{
    store.assume(literal, steps);
    tell_removed(store, chooser);
}

/// Takes the last literal away, and tells the chooser.
fn take_away<S: Store, L: Ledger>(
    store: &mut S,
    chooser: &mut Box<dyn Chooser>,
    steps: &mut Steps<L>,
)
    requires some { 0 < length (S.view store.old).standing }
    requires keeps { Keeps (S.view store.old) (told chooser.old) }
    ensures cut_back { IsCutBack (S.view store.old) (S.view store.new)
        (length (S.view store.old).standing - 1) }
    ensures keeps { Keeps (S.view store.new) (told chooser.new) }
    ensures rule { (told chooser.new).rule ≡ (told chooser.old).rule }
{
    if let Some(added) = store.added() {
        tell_restored(store, added, chooser);
        store.undo(steps);
    } else {
        store.undo(steps);
        tell_all(store, chooser);
    }
}

/// Takes literals away until so many are left, and tells the chooser.
pub fn cut_back<S: Store, L: Ledger>(
    store: &mut S,
    chooser: &mut Box<dyn Chooser>,
    keep: usize,
    steps: &mut Steps<L>,
)
    requires fewer { keep < length (S.view store.old).standing }
    requires keeps { Keeps (S.view store.old) (told chooser.old) }
    ensures cut_back { IsCutBack (S.view store.old) (S.view store.new) keep }
    ensures keeps { Keeps (S.view store.new) (told chooser.new) }
    ensures rule { (told chooser.new).rule ≡ (told chooser.old).rule }
{
    take_away(store, chooser, steps);
    while store.standing().len() > keep {
        take_away(store, chooser, steps);
    }
}
