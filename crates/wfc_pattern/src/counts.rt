//! Windows, counted in the order of their first appearance.
ghost use Rattle.std.specs.Prelude.{◌≡◌, ◌+◌, ◌<◌, ◌^◌, [], length, OnOk, IfOk};
ghost use Rattle.wfc_pattern.specs.Met.{StandsAt, HasKept, noted_at};
ghost use Rattle.wfc_pattern.specs.Patterns.{IsPatterns};
ghost use Rattle.wfc_pattern.specs.Tally.{recount, total, windows_of, patterns_from};

use crate::Patterns;
use indexmap::IndexMap;
use std::alloc::Global;
use std::marker::Model;
use wfc_outside::NoMemory;

/// The windows that were noted, each once, with its number of times. It is seen as the list of both.
#[derive(Drop)]
pub struct Tally {
    counts: IndexMap<Vec<u32>, u32>,
}

impl Model for Tally {
    ghost use Rattle.std.specs.Prelude.{ℕ, List, map};

    ghost Value = { List (List ℕ × ℕ) };

    ghost view = { λ t. map (λ e. (e.0.items, e.1)) t.counts.entries };
}

impl Tally {
    pub fn new(alloc: Global) -> Tally
        ensures empty { result ≡ [] }
    {
        Tally {
            counts: IndexMap::new(alloc),
        }
    }

    /// Answers the window's place. Takes memory for a window that is new.
    pub fn note(&mut self, alloc: Global, window: &[u32]) -> Result<usize, NoMemory>
        requires fits { total self.old + 1 < 2 ^ 32 }
        ensures noted { OnOk result (self.new ≡ recount self.old window.now) }
        ensures place { IfOk result (λ at. StandsAt self.new at window.now) }
        ensures kept { HasKept self.old self.new }
    {
        if let Some(at) = self.counts.get_index_of(window) {
            self.raise(at);
            return Ok(at);
        }
        let key = Vec::from_slice(alloc, window)?;
        let at = self.counts.len();
        self.counts.insert(key, 1)?;
        Ok(at)
    }

    /// Notes the window at a place once more. Takes no memory.
    #[inline]
    pub fn raise(&mut self, at: usize)
        requires place_in { at < length self.old }
        requires fits { total self.old + 1 < 2 ^ 32 }
        ensures raised { self.new ≡ recount self.old (noted_at self.old at) }
        ensures windows { windows_of self.new ≡ windows_of self.old }
    {
        let (_, count) = self.counts.pair_mut(at);
        *count += 1;
    }

    /// How many windows were noted, each counted once.
    pub fn len(&self) -> usize
        ensures value { result ≡ length self.now }
    {
        self.counts.len()
    }

    /// The counted windows as patterns. Takes no memory.
    pub fn into_patterns(self, n: u32) -> Patterns
        requires patterns { IsPatterns (patterns_from n self) }
        ensures value { result ≡ patterns_from n self }
    {
        Patterns {
            n,
            counts: self.counts,
        }
    }
}
