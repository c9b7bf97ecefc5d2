//! Hashes in the order in which they came, chained by buckets, so that all places of a hash are found from the last back.
ghost use Rattle.std.specs.Prelude.{◌≡◌, ◌+◌, ◌-◌, ◌<◌, ◌≤◌, ◌%◌, ◌^◌, [], ◌∷◌, ◌++◌, length, slice_index, IfOk, OnOk};
ghost use Rattle.wfc_pattern.specs.Chains.{IsChained, IsLastOf, next_state, hash_of, hashes_of};

use std::alloc::Global;
use wfc_outside::NoMemory;

/// A hash, and one more than the place of the hash before it in its bucket, or 0.
#[derive(Clone, Copy)]
pub struct Link {
    pub hash: u32,
    pub before: u32,
}

/// For each bucket one more than the place of its last hash, or 0, and the hashes. Eight bytes are kept for each.
#[derive(Drop)]
pub struct Chains {
    heads: Vec<u32>,
    links: Vec<Link>,
    ghost chained: { IsChained heads.items links.items },
}

impl Chains {
    pub fn new(alloc: Global, buckets: u32) -> Result<Chains, NoMemory>
        requires some { 0 < buckets }
        ensures empty { IfOk result (λ chains. hashes_of chains.links.items ≡ []) }
    {
        let heads = vec![in alloc; 0; buckets as usize]?;
        Ok(Chains {
            heads,
            links: Vec::new(alloc),
        })
    }

    /// Puts a hash behind the last.
    pub fn push(&mut self, hash: u32) -> Result<(), NoMemory>
        requires room { length self.old.links.items + 1 < 2 ^ 32 }
        ensures pushed { OnOk result (hashes_of self.new.links.items
            ≡ hashes_of self.old.links.items ++ hash ∷ []) }
    {
        let bucket = hash as usize % self.heads.len();
        let before = self.heads[bucket];
        self.links.push(Link { hash, before })?;
        self.heads[bucket] = self.links.len() as u32;
        Ok(())
    }

    /// The last place of a hash.
    pub fn latest(&self, hash: u32) -> Option<u32>
        ensures last { IsLastOf (hashes_of self.now.links.items) hash
            (length self.now.links.items) result }
    {
        let place = self.heads[hash as usize % self.heads.len()];
        self.found_from(place, hash)
    }

    /// The last place before `p` with the same hash.
    pub fn earlier(&self, p: u32) -> Option<u32>
        requires p_in { p < length self.now.links.items }
        ensures last { IsLastOf (hashes_of self.now.links.items)
            (slice_index (hashes_of self.now.links.items) p) p result }
    {
        let link = self.links[p as usize];
        self.found_from(link.before, link.hash)
    }

    /// The last place before `place` that has the hash, whose bucket the hash at `place - 1` shares.
    fn found_from(&self, mut place: u32, hash: u32) -> Option<u32>
        requires within { place ≤ length self.now.links.items }
        requires there { 0 < place → slice_index (hashes_of self.now.links.items) (place - 1)
            % length self.now.heads.items ≡ hash % length self.now.heads.items }
        ensures last { IsLastOf (hashes_of self.now.links.items) hash place result }
    {
        while place > 0 {
            let p = place - 1;
            let link = self.links[p as usize];
            if link.hash == hash {
                return Some(p);
            }
            place = link.before;
        }
        None
    }
}

/// The hash of a list of numbers: the upper half of the state of a linear congruential generator (Knuth's constants for
/// 64 bits) into which each number was mixed.
pub fn hash_of(numbers: &[u32]) -> u32
    ensures value { result ≡ hash_of numbers.now }
{
    let mut state = 0;
    for number in numbers {
        state = next_state(state, *number);
    }
    (state >> 32) as u32
}

/// The state once a number is mixed in.
#[inline]
fn next_state(state: u64, number: u32) -> u64
    ensures value { result ≡ next_state state number }
{
    state
        .wrapping_add(u64::from(number))
        .wrapping_mul(6_364_136_223_846_793_005)
        .wrapping_add(1_442_695_040_888_963_407)
}
