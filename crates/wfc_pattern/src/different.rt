//! How many of the images that arise in a sample are different. Twelve bytes are kept for each of these, and no copy.
ghost use Rattle.std.specs.Prelude.{◌≡◌, ℕ, ◌+◌, ◌*◌, ◌<◌, ◌≤◌, ◌^◌, [], length, IfOk, OnOk, nat_eq};
ghost use Rattle.std.specs.List.{list_any, range_with_len};
ghost use Rattle.std.specs.Cmp.Lexicographic.{pointwise};
ghost use Rattle.wfc_lists.specs.WithoutRepeats.{without_repeats};
ghost use Rattle.wfc_model.specs.Image.{image, after_turns};
ghost use Rattle.wfc_pattern.specs.Chains.{hash_of, hashes_of};
ghost use Rattle.wfc_pattern.specs.Different.{image_in, images_in, images_with, AreHashesIn};

use crate::chains::{Chains, hash_of};
use std::alloc::Global;
use wfc_outside::NoMemory;
use wfc_picture::Picture;
use wfc_symmetry::{reflect_into, rotate_into};

/// A sample with the images that arise in it, numbered place by place: the side of a window, how many images each place
/// has, and how many places a row.
#[derive(Drop)]
pub struct Arising<'a> {
    pub picture: &'a Picture,
    pub n: u32,
    pub symmetry: u8,
    pub columns: u32,
}

/// How many of the first `images` images are different.
pub fn count_different(alloc: Global, arising: &Arising, images: u32) -> Result<u32, NoMemory>
    requires some_image { 0 < arising.now.symmetry }
    requires some_column { 0 < arising.now.columns }
    requires some { 0 < images }
    requires limit { images ≤ 8388608 }
    requires side { arising.now.n ≤ 6 }
    ensures value { IfOk result (λ count. count ≡ length
        (without_repeats (pointwise nat_eq) (images_in arising.now (range_with_len 0 images)))) }
{
    let area = arising.n as usize * arising.n as usize;
    let mut image = vec![in alloc; 0; area]?;
    let mut other = vec![in alloc; 0; area]?;
    let mut spare = vec![in alloc; 0; area]?;
    let mut different = Different {
        numbers: Vec::new(alloc),
        chains: Chains::new(alloc, images)?,
    };
    different.keep_first(arising, images, &mut image, &mut other, &mut spare)?;
    Ok(different.numbers.len() as u32)
}

/// The numbers of the images that were kept as different, and their hashes.
#[derive(Drop)]
struct Different {
    numbers: Vec<u32>,
    chains: Chains,
}

impl Different {
    /// Keeps the different ones of the first images. The slices are room for three images.
    fn keep_first(
        &mut self,
        arising: &Arising,
        images: u32,
        image: &mut [u32],
        other: &mut [u32],
        spare: &mut [u32],
    ) -> Result<(), NoMemory>
        requires some_image { 0 < arising.now.symmetry }
        requires some_column { 0 < arising.now.columns }
        requires image { length image.old ≡ arising.now.n * arising.now.n }
        requires other { length other.old ≡ arising.now.n * arising.now.n }
        requires spare { length spare.old ≡ arising.now.n * arising.now.n }
        requires limit { images ≤ 8388608 }
        requires none { self.old.numbers.items ≡ [] }
        requires no_hashes { hashes_of self.old.chains.links.items ≡ [] }
        ensures kept { OnOk result (images_in arising.now self.new.numbers.items
            ≡ without_repeats (pointwise nat_eq) (images_in arising.now (range_with_len 0 images))) }
        ensures limit { OnOk result (length self.new.numbers.items ≤ images) }
    {
        for at in 0..images {
            self.keep(arising, at, image, other, spare)?;
        }
        Ok(())
    }

    /// Keeps an image, if it isn't one of those that are kept. The slices are room for three images.
    fn keep(
        &mut self,
        arising: &Arising,
        at: u32,
        image: &mut [u32],
        other: &mut [u32],
        spare: &mut [u32],
    ) -> Result<(), NoMemory>
        requires some_image { 0 < arising.now.symmetry }
        requires some_column { 0 < arising.now.columns }
        requires image { length image.old ≡ arising.now.n * arising.now.n }
        requires other { length other.old ≡ arising.now.n * arising.now.n }
        requires spare { length spare.old ≡ arising.now.n * arising.now.n }
        requires room { length self.old.numbers.items + 1 < 2 ^ 32 }
        requires hashes { AreHashesIn arising.now self.old.numbers.items
            (hashes_of self.old.chains.links.items) }
        ensures kept { OnOk result (images_in arising.now self.new.numbers.items
            ≡ images_with arising.now self.old.numbers.items at) }
        ensures hashes { OnOk result (AreHashesIn arising.now self.new.numbers.items
            (hashes_of self.new.chains.links.items)) }
        ensures room { OnOk result
            (length self.new.numbers.items ≤ length self.old.numbers.items + 1) }
    {
        arising.write(at, image, spare);
        let hash = hash_of(image);
        if self.has(arising, image, hash, other, spare) {
            return Ok(());
        }
        self.numbers.push(at)?;
        self.chains.push(hash)
    }

    /// Whether an image, which has this hash, is kept already.
    fn has(
        &self,
        arising: &Arising,
        image: &[u32],
        hash: u32,
        other: &mut [u32],
        spare: &mut [u32],
    ) -> bool
        requires some_image { 0 < arising.now.symmetry }
        requires some_column { 0 < arising.now.columns }
        requires other { length other.old ≡ arising.now.n * arising.now.n }
        requires spare { length spare.old ≡ arising.now.n * arising.now.n }
        requires hash { hash ≡ hash_of image.now }
        requires hashes { AreHashesIn arising.now self.now.numbers.items
            (hashes_of self.now.chains.links.items) }
        ensures value { result
            ≡ list_any (pointwise nat_eq image.now) (images_in arising.now self.now.numbers.items) }
    {
        let mut next = self.chains.latest(hash);
        while let Some(p) = next {
            arising.write(self.numbers[p as usize], other, spare);
            if other[..] == image[..] {
                return true;
            }
            next = self.chains.earlier(p);
        }
        false
    }
}

impl Arising<'_> {
    /// Writes the image with a number. Takes no memory.
    fn write(&self, at: u32, out: &mut [u32], spare: &mut [u32])
        requires some_image { 0 < self.now.symmetry }
        requires some_column { 0 < self.now.columns }
        requires out { length out.old ≡ self.now.n * self.now.n }
        requires spare { length spare.old ≡ self.now.n * self.now.n }
        ensures exact { out.new ≡ image_in self.now at }
    {
        let symmetry = u32::from(self.symmetry);
        let place = at / symmetry;
        let k = (at % symmetry) as u8;
        self.picture
            .window_into(place % self.columns, place / self.columns, self.n, out);
        turn(out, spare, self.n, k / 2);
        if k % 2 == 1 {
            reflect_into(out, self.n, spare);
            out.copy_from_slice(spare);
        }
    }
}

/// Turns a window by so many quarter turns.
fn turn(window: &mut [u32], spare: &mut [u32], n: u32, turns: u8)
    requires square { length window.old ≡ n * n }
    requires room { length spare.old ≡ n * n }
    ensures turned { window.new ≡ after_turns n window.old turns }
{
    for _turn in 0..turns {
        rotate_into(window, n, spare);
        window.copy_from_slice(spare);
    }
}
