//! The images of a sample's windows, noted in the order in which they arise.
ghost use Rattle.std.specs.Prelude.{◌≡◌, ℕ, ◌+◌, ◌*◌, ◌<◌, ◌≤◌, ◌%◌, ◌^◌, ◌==◌, [], length, map, fold, All, if◌then◌else◌, OnOk, IfOk};
ghost use Rattle.std.specs.Bool.{OnTrue, OnFalse};
ghost use Rattle.wfc_model.specs.Image.{reflected, rotated};
ghost use Rattle.wfc_pattern.specs.Arising.{images_at, images_in_row};
ghost use Rattle.wfc_pattern.specs.Met.{first_images, noted_at, StandsAt, HasKept, ArePlacesOf, AreMet, AreMet-prop, entries_met};
ghost use Rattle.wfc_pattern.specs.Tally.{recount, total};

use crate::MAX_PATTERNS;
use crate::counts::Tally;
use indexmap::IndexMap;
use std::alloc::Global;
use wfc_outside::NoMemory;
use wfc_picture::Picture;
use wfc_symmetry::{reflect_into, rotate_into};

/// How windows are taken from a sample, the counts so far, each window that was met with the places of its images among
/// them, and room for a window and for its image.
#[derive(Drop)]
pub struct Learner {
    pub n: u32,
    pub symmetry: u8,
    pub tally: Tally,
    alloc: Global,
    met: IndexMap<Vec<u32>, Vec<usize>>,
    window: Vec<u32>,
    spare: Vec<u32>,
    ghost remembered: { AreMet n symmetry tally (entries_met met.entries) } by { AreMet-prop n symmetry tally (entries_met met.entries) },
    ghost square: { length window.items ≡ n * n },
    ghost room: { length spare.items ≡ n * n },
}

impl Learner {
    pub fn new(alloc: Global, n: u32, symmetry: u8) -> Result<Learner, NoMemory>
        ensures n { IfOk result (λ learner. learner.n ≡ n) }
        ensures symmetry { IfOk result (λ learner. learner.symmetry ≡ symmetry) }
        ensures empty { IfOk result (λ learner. learner.tally ≡ []) }
    {
        let area = n as usize * n as usize;
        let window = vec![in alloc; 0; area]?;
        let spare = vec![in alloc; 0; area]?;
        Ok(Learner {
            n,
            symmetry,
            tally: Tally::new(alloc),
            alloc,
            met: IndexMap::new(alloc),
            window,
            spare,
        })
    }

    /// Notes the images at the first places of row `y`, and stops once more are different than are kept as patterns. Says
    /// whether there are no more than that.
    pub fn note_row(&mut self, picture: &Picture, y: u32, columns: u32) -> Result<bool, NoMemory>
        requires fits { total self.old.tally + columns * self.old.symmetry < 2 ^ 32 }
        requires few { length self.old.tally ≤ MAX_PATTERNS }
        ensures n { self.new.n ≡ self.old.n }
        ensures symmetry { self.new.symmetry ≡ self.old.symmetry }
        ensures noted { IfOk result (λ few. OnTrue few (self.new.tally ≡ fold recount self.old.tally
            (images_in_row picture.now self.old.n self.old.symmetry columns y))) }
        ensures few { IfOk result (λ few. OnTrue few (length self.new.tally ≤ MAX_PATTERNS)) }
        ensures many { IfOk result (λ few. OnFalse few (MAX_PATTERNS < length (fold recount
            self.old.tally (images_in_row picture.now self.old.n self.old.symmetry columns y)))) }
    {
        for x in 0..columns {
            self.note_place(picture, x, y)?;
            if self.tally.len() > MAX_PATTERNS as usize {
                return Ok(false);
            }
        }
        Ok(true)
    }

    /// The counts.
    pub fn into_tally(self) -> Tally
        ensures value { result ≡ self.tally }
    {
        self.tally
    }

    /// Notes the images of the window at a place.
    fn note_place(&mut self, picture: &Picture, x: u32, y: u32) -> Result<(), NoMemory>
        requires fits { total self.old.tally + self.old.symmetry < 2 ^ 32 }
        ensures n { self.new.n ≡ self.old.n }
        ensures symmetry { self.new.symmetry ≡ self.old.symmetry }
        ensures noted { OnOk result (self.new.tally ≡ fold recount self.old.tally
            (images_at picture.now self.old.n self.old.symmetry (x, y))) }
    {
        picture.window_into(x, y, self.n, &mut self.window);
        if let Some(places) = self.met.get(self.window.as_slice()) {
            raise_all(&mut self.tally, places);
            return Ok(());
        }
        self.note_first()
    }

    /// Notes the images of the window at hand, and remembers their places.
    fn note_first(&mut self) -> Result<(), NoMemory>
        requires fits { total self.old.tally + self.old.symmetry < 2 ^ 32 }
        ensures n { self.new.n ≡ self.old.n }
        ensures symmetry { self.new.symmetry ≡ self.old.symmetry }
        ensures noted { OnOk result (self.new.tally ≡ fold recount self.old.tally
            (first_images self.old.n self.old.symmetry self.old.window.items)) }
    {
        let key = Vec::from_slice(self.alloc, &self.window)?;
        let places = note_images(
            self.alloc,
            &mut self.tally,
            &mut self.window,
            &mut self.spare,
            self.n,
            self.symmetry,
        )?;
        self.met.insert(key, places)?;
        Ok(())
    }
}

/// Notes the windows at these places once more.
fn raise_all(tally: &mut Tally, places: &[usize])
    requires places_in { All (λ at. at < length tally.old) places.now }
    requires fits { total tally.old + length places.now < 2 ^ 32 }
    ensures raised { tally.new ≡ fold recount tally.old (map (noted_at tally.old) places.now) }
    ensures kept { HasKept tally.old tally.new }
{
    for at in places {
        tally.raise(*at);
    }
}

/// Notes the first images of a window, which is used up, and answers their places.
fn note_images(
    alloc: Global,
    tally: &mut Tally,
    window: &mut [u32],
    spare: &mut [u32],
    n: u32,
    symmetry: u8,
) -> Result<Vec<usize>, NoMemory>
    requires square { length window.old ≡ n * n }
    requires room { length spare.old ≡ n * n }
    requires fits { total tally.old + symmetry < 2 ^ 32 }
    ensures noted { OnOk result
        (tally.new ≡ fold recount tally.old (first_images n symmetry window.old)) }
    ensures places { IfOk result (λ places.
        ArePlacesOf tally.new places.items (first_images n symmetry window.old)) }
    ensures kept { HasKept tally.old tally.new }
{
    let mut places = Vec::with_capacity(alloc, symmetry as usize)?;
    for k in 0..symmetry {
        let at = note_image(alloc, tally, window, spare, n, k)?;
        places.push(at)?;
    }
    Ok(places)
}

/// Notes image `k` of a window that was turned half as often, answers its place, and turns the window once more behind its
/// reflection.
fn note_image(
    alloc: Global,
    tally: &mut Tally,
    window: &mut [u32],
    spare: &mut [u32],
    n: u32,
    k: u8,
) -> Result<usize, NoMemory>
    requires square { length window.old ≡ n * n }
    requires room { length spare.old ≡ n * n }
    requires fits { total tally.old + 1 < 2 ^ 32 }
    ensures noted { OnOk result (tally.new
        ≡ recount tally.old (if k % 2 == 0 then window.old else reflected n window.old)) }
    ensures place { IfOk result (λ at. StandsAt tally.new at
        (if k % 2 == 0 then window.old else reflected n window.old)) }
    ensures kept { HasKept tally.old tally.new }
    ensures turned { OnOk result
        (window.new ≡ (if k % 2 == 0 then window.old else rotated n window.old)) }
{
    if k % 2 == 0 {
        return tally.note(alloc, window);
    }
    reflect_into(window, n, spare);
    let at = tally.note(alloc, spare)?;
    rotate_into(window, n, spare);
    window.copy_from_slice(spare);
    Ok(at)
}
