//! Marks beside counts.

ghost use Rattle.std.specs.Prelude.{◌≡◌, ◌+◌, ◌<◌, ◌≤◌, length};
ghost use Rattle.wfc_domains.specs.Counters.{count_place, Marks, Unmarks};

use super::Counters;

impl Counters {
    /// Marks the counts of a value at a cell, which stand from `start` on, where counts can be marked.
    #[inline(always)]
    pub fn mark_at(&mut self, start: usize, cell: u32, value: u16)
        requires start { start ≡ count_place self.old.values self.old.dirs cell value 0 }
        requires cell_in { cell < self.old.cells }
        requires value_in { value < self.old.values }
        ensures marks { Marks self.old self.new cell value }
    {
        let _ = (cell, value);
        if self.is_paired {
            if self.dirs == 4 {
                self.pairs.mark_four(start);
            } else {
                self.pairs.mark(start, self.dirs);
            }
        } else if self.singles.is_narrow() {
            if self.dirs == 4 {
                self.singles.mark_four(start);
            } else {
                self.singles.mark(start, self.dirs);
            }
        }
    }

    /// Takes the marks from the counts of a value at a cell.
    #[inline]
    pub fn unmark(&mut self, cell: u32, value: u16)
        requires cell_in { cell < self.old.cells }
        requires value_in { value < self.old.values }
        ensures unmarks { Unmarks self.old self.new cell value self.old.dirs }
    {
        let start = self.first_place(cell, value);
        if self.is_paired {
            self.pairs.unmark(start, self.dirs);
        } else if self.singles.is_narrow() {
            self.singles.unmark(start, self.dirs);
        }
    }
}
