//! A journal that compares.

ghost use Rattle.std.specs.Prelude.{◌≡◌, false};

use wfc_proof::{Journal, JournalFault, Line};

/// A journal that compares its lines with those that are wanted, and refuses one of them.
#[derive(Drop)]
pub(super) struct Expecting<'a> {
    wanted: &'a [Line],
    taken: usize,
    differs: bool,
    refusing: usize,
    failed: bool,
    faults: u64,
}

impl Expecting<'_> {
    /// A journal that was told nothing, and that refuses the line behind so many.
    pub(super) fn new(wanted: &[Line], refusing: usize) -> Expecting<'_>
        ensures going { result.failed ≡ false }
    {
        Expecting {
            wanted,
            taken: 0,
            differs: false,
            refusing,
            failed: false,
            faults: 0,
        }
    }

    /// How many lines were handed over, if each was the wanted one.
    pub(super) fn told(&self) -> Option<usize> {
        if self.differs { None } else { Some(self.taken) }
    }
}

impl Journal for Expecting<'_> {
    ghost use Rattle.std.specs.Prelude.{None};

    ghost seen = { λ j. record { lines = None; failed = j.failed; faults = j.faults; target = None } };

    fn line(&mut self, line: Line) -> Result<(), JournalFault> {
        if self.wanted.get(self.taken) != Some(&line) {
            self.differs = true;
        }
        let refused = self.taken == self.refusing;
        self.taken = self.taken.saturating_add(1);
        if refused {
            self.failed = true;
            self.faults = self.faults.saturating_add(1);
            return Err(JournalFault::Failed);
        }
        Ok(())
    }
}
