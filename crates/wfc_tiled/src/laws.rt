//! Laws of the problem of a tile set, each a function with no body whose contract is the law. They
//! run nothing.

ghost use Rattle.std.specs.Prelude.{◌≡◌, ◌<◌, ◌≤◌, ◌↔◌, ℕ, List, length};
ghost use Rattle.wfc_model.specs.Raster.{Raster};
ghost use Rattle.wfc_problem.specs.Network.{IsProblem};
ghost use Rattle.wfc_problem.specs.declared.TheConstants.{MAX_PAIRS};
ghost use Rattle.wfc_tileset.specs.Tiles.{variant_total};
ghost use Rattle.wfc_tileset.specs.TileSets.{IsTileSet};
ghost use Rattle.wfc_tiled.specs.Built.{tile_pair_count};
ghost use Rattle.wfc_tiled.specs.Mask.{IsMask};
ghost use Rattle.wfc_tiled.specs.Maps.{numbers_of_places, tile_map};
ghost use Rattle.wfc_tiled.specs.Setting.{ArePlacedOn, HoldsPinsOn, IsAssignedOn, IsBesideOn, IsInBaseOn, IsLegalOn};
ghost use Rattle.wfc_tiled.specs.Setting.{IsPairOn, IsSupportOn, TileSetting, problem_on};
ghost use Rattle.wfc_tiled.specs.Subject.{AreAcross, AreDown, IsCellStep};

/// A tile set, a mask and pins make a problem, where there are few enough pairs of a place and a
/// variant.
pub fn tile_sets_make_problems()
    ensures problem { (s : TileSetting) → IsTileSet s.set → IsMask s.mask →
        tile_pair_count s.set s.mask ≤ MAX_PAIRS → IsProblem (problem_on s) }
{}

/// The numbers of a legal tile map, place by place, are a legal assignment.
pub fn maps_are_assignments()
    ensures legal { (s : TileSetting) (m : Raster) → IsMask s.mask → IsLegalOn s m →
        IsAssignedOn s (numbers_of_places s.mask m) }
{}

/// The map of a legal assignment is legal.
pub fn assignments_are_maps()
    ensures legal { (s : TileSetting) (a : List ℕ) → IsMask s.mask → IsProblem (problem_on s) →
        ArePlacedOn s → IsAssignedOn s a → IsLegalOn s (tile_map s.mask a) }
{}

/// Legal tile maps and legal assignments correspond one to one: each is made of the other, and
/// gives it again.
pub fn one_to_one()
    ensures maps { (s : TileSetting) (m : Raster) → IsMask s.mask → IsLegalOn s m →
        tile_map s.mask (numbers_of_places s.mask m) ≡ m }
    ensures assignments { (s : TileSetting) (a : List ℕ) → IsMask s.mask → IsProblem (problem_on s)
        → ArePlacedOn s → IsAssignedOn s a → numbers_of_places s.mask (tile_map s.mask a) ≡ a }
{}

/// Beside a cell in a direction lies exactly the cell whose place is one step away, modulo the sides
/// where the map wraps.
pub fn neighbours_are_a_step_away()
    ensures exactly { (s : TileSetting) (c m d : ℕ) → IsMask s.mask → c < length s.mask.places →
        m < length s.mask.places → d < 4 → IsBesideOn s d c m ↔ IsCellStep s.mask s.wrap d c m }
{}

/// What may stand beside a variant are exactly the variants that are allowed there: to the left,
/// below, to the right and above.
pub fn supports_are_allowed()
    ensures left { (s : TileSetting) (v w : ℕ) → v < variant_total s.set.tiles →
        IsSupportOn s v 0 w ↔ ((w < variant_total s.set.tiles) × AreAcross s.set w v) }
    ensures below { (s : TileSetting) (v w : ℕ) → v < variant_total s.set.tiles →
        IsSupportOn s v 1 w ↔ ((w < variant_total s.set.tiles) × AreDown s.set v w) }
    ensures right { (s : TileSetting) (v w : ℕ) → v < variant_total s.set.tiles →
        IsSupportOn s v 2 w ↔ ((w < variant_total s.set.tiles) × AreAcross s.set v w) }
    ensures above { (s : TileSetting) (v w : ℕ) → v < variant_total s.set.tiles →
        IsSupportOn s v 3 w ↔ ((w < variant_total s.set.tiles) × AreDown s.set w v) }
{}

/// A variant is in the base of a cell exactly where it holds each pin and ban there.
pub fn bases_hold_pins()
    ensures exactly { (s : TileSetting) (c v : ℕ) → IsMask s.mask → ArePlacedOn s →
        IsPairOn s c v → IsInBaseOn s c v ↔ HoldsPinsOn s c v }
{}
