//! What a sample teaches: its patterns, and how often each of them arises.
#![tactic(auto)]

ghost use Rattle.std.specs.Prelude.{◌≡◌, ℕ, ◌<◌, ◌↔◌, length, position, Contains, slice_get, IsTrue, IsNone, IfSome, nat_eq};
ghost use Rattle.std.specs.Cmp.Lexicographic.{pointwise};
ghost use Rattle.wfc_pattern.specs.Agreement.{Agrees, agrees};
ghost use Rattle.wfc_pattern.specs.Patterns.{IsPatterns, window_at, weight_at};

mod chains;
mod counts;
mod different;
pub mod laws;
mod learner;
mod learning;
mod overlap;

use indexmap::IndexMap;
pub use learning::{LearnFault, learn};
use overlap::agree;
use std::marker::Model;

/// The most patterns that a sample may teach.
pub const MAX_PATTERNS: u16 = 4096;

/// The most images of windows that arise in a sample, eight for each of 1,048,576 pixels, and so the greatest weight.
pub const MAX_ARISING: u32 = 8_388_608;

/// The patterns of a sample: windows of n by n numbers, numbered in the order of their first appearance, each with how
/// often it arises.
#[derive(Drop)]
pub struct Patterns {
    n: u32,
    counts: IndexMap<Vec<u32>, u32>,
}

impl Model for Patterns {
    ghost use Rattle.std.specs.Prelude.{map};
    ghost use Rattle.wfc_pattern.specs.Patterns.{PatternsView, IsPatterns};
    ghost use Rattle.wfc_pattern.specs.Tally.{patterns_from};

    ghost Value = { PatternsView };

    ghost view = { λ p. patterns_from p.n (map (λ e. (e.0.items, e.1)) p.counts.entries) };

    ghost invariant = { λ p. IsPatterns (patterns_from p.n (map (λ e. (e.0.items, e.1)) p.counts.entries)) };
}

impl Patterns {
    /// How many columns and rows a window has: 1 to 6.
    pub fn n(&self) -> u32
        ensures value { result ≡ self.now.n }
        ensures patterns { IsPatterns self.now }
    {
        self.n
    }

    /// How many patterns there are: 1 to 4,096.
    pub fn count(&self) -> u16
        ensures value { result ≡ length self.now.windows }
        ensures patterns { IsPatterns self.now }
    {
        self.counts.len() as u16
    }

    /// The numbers of the pattern with this number, row by row.
    pub fn window(&self, p: u16) -> &[u32]
        requires p_in { p < length self.now.windows }
        ensures value { slice_get self.now.windows p ≡ Some result.now }
        ensures patterns { IsPatterns self.now }
    {
        self.counts.as_slice().keys().as_slice()[p as usize].as_slice()
    }

    /// How often the pattern with this number arises: 1 to 8,388,608 times.
    pub fn weight(&self, p: u16) -> u32
        requires p_in { p < length self.now.windows }
        ensures value { result ≡ weight_at self.now p }
        ensures patterns { IsPatterns self.now }
    {
        self.counts[p as usize]
    }

    /// Whether the pattern `q` may stand one step away from the pattern `p`: moved by the step, it equals `p` where they
    /// overlap. Direction 0 is to the left, 1 down, 2 to the right and 3 up.
    pub fn agrees(&self, p: u16, q: u16, dir: u8) -> bool
        requires p_in { p < length self.now.windows }
        requires q_in { q < length self.now.windows }
        requires dir_in { dir < 4 }
        ensures value { result
            ≡ agrees self.now.n (window_at self.now p) (window_at self.now q) dir }
        ensures everywhere { IsTrue result
            ↔ Agrees self.now.n (window_at self.now p) (window_at self.now q) dir }
        ensures patterns { IsPatterns self.now }
    {
        agree(self.window(p), self.window(q), self.n as usize, dir)
    }

    /// The number of the pattern with these numbers, if there is one.
    pub fn find(&self, window: &[u32]) -> Option<u16>
        ensures value { result ≡ position (pointwise nat_eq window.now) self.now.windows }
        ensures found { IfSome result (λ p. slice_get self.now.windows p ≡ Some window.now) }
        ensures inverse { (p : ℕ) → slice_get self.now.windows p ≡ Some window.now
            → result ≡ Some p }
        ensures absent { IsNone result ↔ ¬ Contains self.now.windows window.now }
        ensures patterns { IsPatterns self.now }
    {
        let number = self.counts.get_index_of(window)?;
        Some(number as u16)
    }
}
