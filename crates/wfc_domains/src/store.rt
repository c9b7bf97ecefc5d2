//! What every engine is and promises.

ghost use Rattle.std.specs.Prelude.{◌≡◌, ◌<◌, length, slice_get, IfSome, IfNone, Some};
ghost use Rattle.wfc_problem.specs.Domains.{IsLiteralIn};
ghost use Rattle.wfc_log.specs.declared.Verdict.TheVariants.{Alive};
ghost use Rattle.wfc_log.specs.Domains.{Fits, has, flags_of};
ghost use Rattle.wfc_log.specs.Log.{loss_of};
ghost use Rattle.wfc_log.specs.declared.Removal.{Removal};
ghost use Rattle.wfc_domains.specs.Store.{StoreView, IsSound, IsLongLevel, IsAssumed, IsUndone, left_of, added_of};

use crate::steps::Steps;
use crate::{Loss, Removal, Verdict};
use std::sync::ledger::Ledger;
use wfc_log::Domains;
use wfc_problem::Literal;

/// The greatest arc-consistent domains of a problem under literals that are put on and taken away, the last first.
/// It takes all its memory where it is opened.
pub trait Store: Drop {
    /// Its problem, the literals that stand, the spare levels, the removals level by level, and the verdict.
    ghost view: { Self → StoreView };

    /// Puts a literal on, and closes the domains under it. It stops at the first cell that becomes empty.
    fn assume<L: Ledger>(&mut self, literal: Literal, steps: &mut Steps<L>) -> Verdict
        requires alive { (view self.old).verdict ≡ Alive }
        requires literal_in { IsLiteralIn (view self.old).problem literal }
        requires spare { 0 < (view self.old).spare }
        ensures assumed { IsAssumed (view self.old) (view self.new) literal }
        ensures sound { IsSound (view self.new) }
        ensures verdict { result ≡ (view self.new).verdict };

    /// Takes the last literal away, and all that followed from it.
    fn undo<L: Ledger>(&mut self, steps: &mut Steps<L>)
        requires some { 0 < length (view self.old).standing }
        ensures undone { IsUndone (view self.old) (view self.new) }
        ensures sound { IsSound (view self.new) };

    /// Whether a cell is known to be empty, and which.
    fn verdict(&self) -> Verdict
        ensures value { result ≡ (view self.now).verdict }
        ensures sound { IsSound (view self.now) };

    /// The domains. While the verdict is alive they are the greatest.
    fn domains(&self) -> &Domains
        ensures value { result.now ≡ flags_of (view self.now).problem (left_of (view self.now)) }
        ensures stands { has result.now ≡ left_of (view self.now) }
        ensures fits { Fits (view self.now).problem result.now }
        ensures sound { IsSound (view self.now) };

    /// The removals of the last level in their order; those of the opening, where no literal stands. None where they are
    /// many, and so not in a list.
    fn added(&self) -> Option<&[Removal]>
        ensures some { IfSome result (λ added. added.now ≡ added_of (view self.now)) }
        ensures none { IfNone result (IsLongLevel (view self.now)) }
        ensures sound { IsSound (view self.now) };

    /// How many removals the last level has.
    fn added_len(&self) -> usize
        ensures value { result ≡ length (added_of (view self.now)) };

    /// What the removal at an index of the last level took away, also where they are many.
    fn added_at(&self, index: usize) -> Loss
        requires index_in { index < length (added_of (view self.now)) }
        ensures value { (r : Removal) → slice_get (added_of (view self.now)) index ≡ Some r → result
            ≡ loss_of r };

    /// The literals that stand, in the order in which they were put on.
    fn standing(&self) -> &[Literal]
        ensures value { result.now ≡ (view self.now).standing };

    /// How many more literals there is room for.
    fn spare(&self) -> u32
        ensures value { result ≡ (view self.now).spare };
}
