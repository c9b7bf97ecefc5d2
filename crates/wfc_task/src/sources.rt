//! What a map is made of.

ghost use Rattle.std.specs.Prelude.{◌≡◌};
ghost use Rattle.wfc_task.specs.Sources.{window_side_of};

use wfc_words::SourceModel;

/// The side of a window, in pixels; 0 where the map is of tiles.
pub fn window_side_of(source: SourceModel) -> u32
    ensures value { result ≡ window_side_of source }
{
    match source {
        SourceModel::Overlap { n } => n,
        SourceModel::Tiles => 0,
    }
}
