//! Learning: all windows of a sample, and which of them are different.
ghost use Rattle.std.specs.Prelude.{◌≡◌, ℕ, ◌*◌, ◌<◌, ◌≤◌, false, IfOk, MatchBool, ⊤, length, IfSome, IfNone};
ghost use Rattle.wfc_outside.specs.Gives.{Gives};
ghost use Rattle.wfc_picture.specs.declared.palette.TheConstants.{MAX_PIXELS};
ghost use Rattle.wfc_model.specs.Raster.{IsRaster, height_of};
ghost use Rattle.wfc_model.specs.Window.{starts};
ghost use Rattle.wfc_model.specs.Learned.{arising, learned};
ghost use Rattle.wfc_pattern.specs.Learning.{is_below_n, patterns_of};
ghost use Rattle.wfc_pattern.specs.Tally.{window_counts};
ghost use Rattle.wfc_pattern.specs.declared.TheConstants.{MAX_PATTERNS};
ghost use Rattle.wfc_pattern.specs.declared.learning.LearnFault.TheVariants.{NoMemory};

use crate::Patterns;
use crate::counts::Tally;
use crate::different::{Arising, count_different};
use crate::learner::Learner;
use std::alloc::Global;
use thiserror::Error;
use wfc_picture::Picture;

/// Why a sample teaches no patterns.
#[derive(Clone, Copy, Debug, PartialEq, Eq, Error)]
pub enum LearnFault {
    /// The sample doesn't wrap, and a side is shorter than a window.
    #[error("the sample has a side that is shorter than a window")]
    SampleBelowN,
    /// There are `count` patterns, more than 4,096.
    #[error("too many patterns")]
    TooManyPatterns { count: u32 },
    #[error("out of memory")]
    NoMemory,
}

impl From<wfc_outside::NoMemory> for LearnFault {
    ghost from_gives = { λ _ fault. fault ≡ NoMemory };

    fn from(_error: wfc_outside::NoMemory) -> LearnFault {
        LearnFault::NoMemory
    }
}

/// Learns the patterns of a sample from the windows at all its places, each in its first `symmetry` images. A window is
/// `n` columns wide and `n` rows high; where the sample wraps, one starts at every pixel.
pub fn learn(
    alloc: Global,
    picture: &Picture,
    n: u32,
    symmetry: u8,
    wrap: bool,
) -> Result<Patterns, LearnFault>
    requires some_side { 0 < n }
    requires small_side { n ≤ 6 }
    requires some_image { 0 < symmetry }
    requires eight_images { symmetry ≤ 8 }
    requires limit { picture.now.width * height_of picture.now ≤ MAX_PIXELS }
    ensures exact { Gives NoMemory (λ patterns. patterns) result
        (patterns_of picture.now n symmetry wrap) }
{
    if is_below_n(picture, n, wrap) {
        return Err(LearnFault::SampleBelowN);
    }
    match tally_of(alloc, picture, n, symmetry, wrap)? {
        Some(tally) => Ok(tally.into_patterns(n)),
        None => {
            let count = count_patterns(alloc, picture, n, symmetry, wrap)?;
            Err(LearnFault::TooManyPatterns { count })
        }
    }
}

/// Whether the sample doesn't wrap and has a side that is shorter than a window.
fn is_below_n(picture: &Picture, n: u32, wrap: bool) -> bool
    ensures value { result ≡ is_below_n picture.now n wrap }
    ensures raster { IsRaster picture.now }
{
    let width = picture.width();
    let height = picture.height();
    !wrap && (width < n || height < n)
}

/// Counts the images of the sample's windows, unless more of them are different than are kept as patterns.
fn tally_of(
    alloc: Global,
    picture: &Picture,
    n: u32,
    symmetry: u8,
    wrap: bool,
) -> Result<Option<Tally>, wfc_outside::NoMemory>
    requires some_side { 0 < n }
    requires some_image { 0 < symmetry }
    requires eight_images { symmetry ≤ 8 }
    requires limit { picture.now.width * height_of picture.now ≤ MAX_PIXELS }
    requires room { is_below_n picture.now n wrap ≡ false }
    ensures tallied { IfOk result (λ found. IfSome found (λ tally. tally
        ≡ window_counts (arising picture.now n symmetry wrap))) }
    ensures few { IfOk result (λ found. IfSome found (λ tally. length tally ≤ MAX_PATTERNS)) }
    ensures many { IfOk result (λ found.
        IfNone found (MAX_PATTERNS < length (learned picture.now n symmetry wrap))) }
{
    let mut learner = Learner::new(alloc, n, symmetry)?;
    let columns = starts(picture.width(), n, wrap);
    for y in 0..starts(picture.height(), n, wrap) {
        if !learner.note_row(picture, y, columns)? {
            return Ok(None);
        }
    }
    Ok(Some(learner.into_tally()))
}

/// How many patterns the sample teaches, of whatever number. It takes some twelve bytes for each, and four for each image
/// that arises.
fn count_patterns(
    alloc: Global,
    picture: &Picture,
    n: u32,
    symmetry: u8,
    wrap: bool,
) -> Result<u32, wfc_outside::NoMemory>
    requires some_side { 0 < n }
    requires small_side { n ≤ 6 }
    requires some_image { 0 < symmetry }
    requires eight_images { symmetry ≤ 8 }
    requires limit { picture.now.width * height_of picture.now ≤ MAX_PIXELS }
    requires room { is_below_n picture.now n wrap ≡ false }
    ensures value { IfOk result (λ count. count ≡ length (learned picture.now n symmetry wrap)) }
{
    let columns = starts(picture.width(), n, wrap);
    let rows = starts(picture.height(), n, wrap);
    let arising = Arising {
        picture,
        n,
        symmetry,
        columns,
    };
    let images = rows * (columns * symmetry as u32);
    count_different(alloc, &arising, images)
}

/// At how many places of a side a window can start.
fn starts(side: u32, n: u32, wrap: bool) -> u32
    requires some_side { 0 < n }
    requires within { MatchBool wrap ⊤ (n ≤ side) }
    ensures value { result ≡ starts side n wrap }
{
    if wrap { side } else { side - n + 1 }
}
