//! The places of an output at which a window begins.

ghost use Rattle.std.specs.Prelude.{◌≡◌, ◌*◌, ◌<◌, ◌≤◌};
ghost use Rattle.wfc_model.specs.Window.{starts};
ghost use Rattle.wfc_model.specs.declared.TheConstants.{MAX_OUTPUT_SIDE};

use wfc_model::MAX_OUTPUT_SIDE;

/// An output that has room for a window of side `n`, and at how many columns and rows a window
/// begins.
#[derive(Clone, Copy)]
pub(crate) struct Layout {
    pub n: u32,
    pub width: u32,
    pub height: u32,
    pub wrap: bool,
    pub columns: u32,
    pub rows: u32,
    ghost some_side: { 0 < n },
    ghost wide: { n ≤ width },
    ghost high: { n ≤ height },
    ghost small_width: { width ≤ MAX_OUTPUT_SIDE },
    ghost small_height: { height ≤ MAX_OUTPUT_SIDE },
    ghost columns_are: { columns ≡ starts width n wrap },
    ghost rows_are: { rows ≡ starts height n wrap },
    ghost some_column: { 0 < columns },
    ghost some_row: { 0 < rows },
    ghost few_columns: { columns ≤ MAX_OUTPUT_SIDE },
    ghost few_rows: { rows ≤ MAX_OUTPUT_SIDE },
}

impl Layout {
    ghost use Rattle.std.specs.Prelude.{length};
    ghost use Rattle.wfc_model.specs.Window.{places};
    ghost use Rattle.wfc_overlap.specs.Layout.{output_of};

    /// The layout of an output.
    pub(crate) fn new(n: u32, width: u32, height: u32, wrap: bool) -> Layout
        requires some_side { 0 < n }
        requires wide { n ≤ width }
        requires high { n ≤ height }
        requires width_limit { width ≤ MAX_OUTPUT_SIDE }
        requires height_limit { height ≤ MAX_OUTPUT_SIDE }
        ensures n { result.n ≡ n }
        ensures output { output_of result ≡ record { width = width; height = height; wrap = wrap } }
    {
        Layout {
            n,
            width,
            height,
            wrap,
            columns: starts(width, n, wrap),
            rows: starts(height, n, wrap),
        }
    }

    /// How many places there are.
    pub(crate) fn cells(&self) -> u32
        ensures value { result
            ≡ length (places self.now.width self.now.height self.now.n self.now.wrap) }
        ensures product { result ≡ self.now.rows * self.now.columns }
    {
        self.rows * self.columns
    }
}

/// At how many places of a side a window can start.
fn starts(side: u32, n: u32, wrap: bool) -> u32
    requires some { 0 < n }
    requires within { n ≤ side }
    requires limit { side ≤ MAX_OUTPUT_SIDE }
    ensures value { result ≡ starts side n wrap }
    ensures within { result ≤ side }
    ensures some { 0 < result }
{
    if wrap { side } else { side - n + 1 }
}
