//! A counter of steps that takes no bytes and costs no time.

ghost use Rattle.std.specs.Prelude.{◌≡◌, ◌+◌, ◌<◌};

use std::marker::Model;
use std::sync::ledger::{Blank, Book, Ledger, Share};

/// How many steps were taken. One step is one change of one support counter, or one entry in a loading of all
/// counters. It takes no bytes, and only `tick` and `add` change it.
#[derive(Drop)]
pub struct Steps<L: Ledger> {
    book: Book<L>,
    share: Share<L>,
}

impl<L: Ledger> Model for Steps<L> {
    ghost use Rattle.std.specs.Prelude.{ℕ, ◌<◌};

    ghost Value = { ℕ };

    ghost view = { λ s. s.book.total };

    ghost invariant = { λ s. 0 < s.share.parts };
}

impl<L: Ledger> Steps<L> {
    /// A counter that begins at 0, over a ledger of at least one part.
    pub fn new(blank: Blank) -> Steps<L>
        requires name { blank.name ≡ L.name }
        requires parts { blank.parts ≡ L.parts }
        requires some { 0 < blank.parts }
        ensures none { result ≡ 0 }
    {
        let (book, share) = blank.open::<L>();
        Steps { book, share }
    }

    /// One more step.
    #[inline]
    pub fn tick(&mut self)
        ensures one { self.new ≡ self.old + 1 }
    {
        self.book.add(&mut self.share, 1);
    }

    /// So many more steps.
    #[inline]
    pub fn add(&mut self, count: u64)
        ensures more { self.new ≡ self.old + count }
    {
        self.book.add(&mut self.share, count);
    }
}
