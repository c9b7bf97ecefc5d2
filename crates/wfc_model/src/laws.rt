//! Laws of the definitions, each a function with no body whose contract is the law. They run nothing. The small cases
//! have no symmetry, so that a definition with two of its parts exchanged fails one of them.

ghost use Rattle.std.specs.Prelude.{◌≡◌, ◌↔◌, ℕ, ◌+◌, ◌*◌, ◌<◌, Bool, true, false, List, [], ◌∷◌, length, All, Contains, map};
ghost use Rattle.std.specs.List.{range_with_len};
ghost use Rattle.wfc_model.specs.Direction.{IsStep, IsStepModulo, opposite};
ghost use Rattle.wfc_model.specs.Image.{cell_at, reflected, rotated, image};
ghost use Rattle.wfc_model.specs.Learned.{learned, arising, weight_of};
ghost use Rattle.wfc_model.specs.Legal.{IsHeld, IsLegalPicture, Pin, Rules, plain_rules, kept_pin, banned_pin};
ghost use Rattle.wfc_model.specs.Raster.{Raster, raster_of, height_of, number_at, numbers_of, IsFilled, IsRaster, IsSized};
ghost use Rattle.wfc_model.specs.Renumbered.{renumbered_picture, renumbered_pin, IsKnown, IsRenumbering, KeepsLegality, LosesNone};
ghost use Rattle.wfc_model.specs.Small.{checkerboard, other_checkerboard, six, spots, nine};
ghost use Rattle.wfc_model.specs.Window.{places, window};

use crate::MAX_OUTPUT_SIDE;

// ---- pictures

/// How many columns and rows a map may have.
pub fn sides_have_a_limit()
    ensures most { MAX_OUTPUT_SIDE ≡ 4096 }
{}

/// Two rows of three numbers: what stands where, and 0 outside.
pub fn numbers_by_rows()
    ensures rows { six.rows ≡ (1 ∷ 2 ∷ 3 ∷ []) ∷ (4 ∷ 5 ∷ 6 ∷ []) ∷ [] }
    ensures height { height_of six ≡ 2 }
    ensures inside { number_at six 2 0 ∷ number_at six 1 1 ∷ [] ≡ 3 ∷ 5 ∷ [] }
    ensures outside { number_at six 3 0 ∷ number_at six 0 2 ∷ [] ≡ 0 ∷ 0 ∷ [] }
    ensures numbers { numbers_of six ≡ 1 ∷ 2 ∷ 3 ∷ 4 ∷ 5 ∷ 6 ∷ [] }
{}

/// A picture is so wide and so high, and not the other way round; its rows are of one length, and it has a column and a row.
pub fn sides_of_pictures()
    ensures sized { IsSized six 3 2 }
    ensures exchanged { IsSized six 2 3 → ⊥ }
    ensures ragged { IsRaster (record { width = 2; rows = (1 ∷ 2 ∷ []) ∷ (3 ∷ []) ∷ [] }) → ⊥ }
    ensures no_column { IsRaster (record { width = 0; rows = [] ∷ [] }) → ⊥ }
    ensures no_row { IsRaster (record { width = 2; rows = [] }) → ⊥ }
{}

/// As many numbers as the sides say, where both are at least 1.
pub fn filled_sides()
    ensures filled { IsFilled {X = ℕ} 3 2 (1 ∷ 2 ∷ 3 ∷ 4 ∷ 5 ∷ 6 ∷ []) }
    ensures too_few { IsFilled {X = ℕ} 3 2 (1 ∷ 2 ∷ 3 ∷ 4 ∷ 5 ∷ []) → ⊥ }
    ensures too_many { IsFilled {X = ℕ} 3 2 (1 ∷ 2 ∷ 3 ∷ 4 ∷ 5 ∷ 6 ∷ 7 ∷ []) → ⊥ }
    ensures no_column { IsFilled {X = ℕ} 0 2 [] → ⊥ }
    ensures no_row { IsFilled {X = ℕ} 3 0 [] → ⊥ }
{}

/// A picture is its numbers row by row, and as many numbers as its sides say are a picture.
pub fn rasters_are_lists()
    ensures picture { (m : Raster) (w h : ℕ) → IsSized m w h → raster_of w h (numbers_of m) ≡ m }
    ensures full { (m : Raster) (w h : ℕ) → IsSized m w h → IsFilled w h (numbers_of m) }
    ensures numbers { (w h : ℕ) (numbers : List ℕ) → length numbers ≡ w * h
        → numbers_of (raster_of w h numbers) ≡ numbers }
    ensures sized { (w h : ℕ) (numbers : List ℕ) → IsFilled w h numbers
        → IsSized (raster_of w h numbers) w h }
{}

// ---- windows and their images

/// The window at the last pixel of a picture of three by two goes on in the first column and row.
pub fn windows_turn_over()
    ensures inside { window six 1 0 2 ≡ 2 ∷ 3 ∷ 5 ∷ 6 ∷ [] }
    ensures corner { window six 2 1 2 ≡ 6 ∷ 4 ∷ 3 ∷ 1 ∷ [] }
    ensures twice { window six 1 1 3 ≡ 5 ∷ 6 ∷ 4 ∷ 2 ∷ 3 ∷ 1 ∷ 5 ∷ 6 ∷ 4 ∷ [] }
{}

/// A picture of three by two has two places for a window of two by two, and six where it wraps; one of two by three has
/// two as well, one below the other.
pub fn small_places()
    ensures flat { places 3 2 2 false ≡ (0, 0) ∷ (1, 0) ∷ [] }
    ensures high { places 2 3 2 false ≡ (0, 0) ∷ (0, 1) ∷ [] }
    ensures wrapped { places 3 2 2 true ≡ (0, 0) ∷ (1, 0) ∷ (2, 0) ∷ (0, 1) ∷ (1, 1) ∷ (2, 1) ∷ [] }
    ensures none { places 1 3 2 false ≡ [] }
{}

/// The entry of a window in a column and a row, each row the other way round, and a quarter turn.
pub fn entries_of_windows()
    ensures entry { cell_at 3 nine 2 0 ≡ 3 }
    ensures reflected { reflected 2 (1 ∷ 2 ∷ 3 ∷ 4 ∷ []) ≡ 2 ∷ 1 ∷ 4 ∷ 3 ∷ [] }
    ensures rotated { rotated 2 (1 ∷ 2 ∷ 3 ∷ 4 ∷ []) ≡ 2 ∷ 4 ∷ 1 ∷ 3 ∷ [] }
{}

/// The eight images of a window of two by two: the fourth is the reflection of the third, and not a turn of the second.
pub fn eight_images()
    ensures first { map (image 2 (1 ∷ 2 ∷ 3 ∷ 4 ∷ [])) (range_with_len 0 4) ≡ (1 ∷ 2 ∷ 3 ∷ 4 ∷ [])
        ∷ (2 ∷ 1 ∷ 4 ∷ 3 ∷ []) ∷ (2 ∷ 4 ∷ 1 ∷ 3 ∷ []) ∷ (4 ∷ 2 ∷ 3 ∷ 1 ∷ []) ∷ [] }
    ensures later { map (image 2 (1 ∷ 2 ∷ 3 ∷ 4 ∷ [])) (range_with_len 4 4) ≡ (4 ∷ 3 ∷ 2 ∷ 1 ∷ [])
        ∷ (3 ∷ 4 ∷ 1 ∷ 2 ∷ []) ∷ (3 ∷ 1 ∷ 4 ∷ 2 ∷ []) ∷ (1 ∷ 3 ∷ 2 ∷ 4 ∷ []) ∷ [] }
    ensures nine { map (image 3 nine) (range_with_len 2 2) ≡
        (3 ∷ 6 ∷ 9 ∷ 2 ∷ 5 ∷ 8 ∷ 1 ∷ 4 ∷ 7 ∷ []) ∷ (9 ∷ 6 ∷ 3 ∷ 8 ∷ 5 ∷ 2 ∷ 7 ∷ 4 ∷ 1 ∷ []) ∷ [] }
{}

// ---- what a sample teaches

/// Place by place, and at a place image by image.
pub fn arising_in_order()
    ensures order { arising six 2 2 false ≡ (1 ∷ 2 ∷ 4 ∷ 5 ∷ []) ∷ (2 ∷ 1 ∷ 5 ∷ 4 ∷ [])
        ∷ (2 ∷ 3 ∷ 5 ∷ 6 ∷ []) ∷ (3 ∷ 2 ∷ 6 ∷ 5 ∷ []) ∷ [] }
    ensures wrapped { arising six 1 1 true ≡
        (1 ∷ []) ∷ (2 ∷ []) ∷ (3 ∷ []) ∷ (4 ∷ []) ∷ (5 ∷ []) ∷ (6 ∷ []) ∷ [] }
{}

/// Patterns are numbered by their first appearance, and weighed by all.
pub fn patterns_of_a_spotted_picture()
    ensures patterns { learned spots 1 1 false ≡ (7 ∷ []) ∷ (8 ∷ []) ∷ (9 ∷ []) ∷ [] }
    ensures weights { map (weight_of (arising spots 1 1 false)) (learned spots 1 1 false) ≡
        3 ∷ 1 ∷ 2 ∷ [] }
{}

/// The checkerboard has one window of two by two, and four where it wraps, which are two patterns.
pub fn patterns_of_the_checkerboard()
    ensures flat { learned checkerboard 2 1 false ≡ (97 ∷ 98 ∷ 98 ∷ 97 ∷ []) ∷ [] }
    ensures wrapped { learned checkerboard 2 1 true ≡
        (97 ∷ 98 ∷ 98 ∷ 97 ∷ []) ∷ (98 ∷ 97 ∷ 97 ∷ 98 ∷ []) ∷ [] }
    ensures wrapped_weights { map (weight_of (arising checkerboard 2 1 true))
        (learned checkerboard 2 1 true) ≡ 2 ∷ 2 ∷ [] }
    ensures image_weights { map (weight_of (arising checkerboard 2 8 false))
        (learned checkerboard 2 8 false) ≡ 4 ∷ 4 ∷ [] }
{}

/// A window is among the learned patterns exactly where it arises.
pub fn learned_windows_arise()
    ensures learned { (sample : Raster) (n s : ℕ) (wrap : Bool) (w : List ℕ)
        → Contains (learned sample n s wrap) w ↔ Contains (arising sample n s wrap) w }
{}

/// Each number of a learned window is a number of the sample, and so is each number of a legal picture.
pub fn numbers_are_the_samples()
    ensures learned { (sample : Raster) (n s : ℕ) (wrap : Bool) → IsRaster sample
        → All (All (Contains (numbers_of sample))) (learned sample n s wrap) }
    ensures legal { (sample m : Raster) (rules : Rules) (pins : List Pin) (w h : ℕ) →
        IsRaster sample → 0 < rules.n → IsLegalPicture sample rules pins w h m → IsKnown sample m }
{}

// ---- legal pictures

/// The checkerboard is legal for itself, and its other colouring isn't. Neither is a picture of other sides than asked
/// for, nor one with a side below that of a window.
pub fn legal_checkerboards()
    ensures itself { IsLegalPicture checkerboard (plain_rules 2) [] 2 2 checkerboard }
    ensures other { IsLegalPicture checkerboard (plain_rules 2) [] 2 2 other_checkerboard → ⊥ }
    ensures sides { IsLegalPicture six (plain_rules 2) [] 2 3 six → ⊥ }
    ensures narrow { IsLegalPicture six (plain_rules 2) [] 1 2 (raster_of 1 2 (1 ∷ 4 ∷ [])) → ⊥ }
    ensures low { IsLegalPicture six (plain_rules 2) [] 2 1 (raster_of 2 1 (1 ∷ 2 ∷ [])) → ⊥ }
{}

/// The rules, one by one: all eight images, a sample that wraps, and an output that does.
pub fn rules_of_legal()
    ensures images { IsLegalPicture checkerboard (record (plain_rules 2) { symmetry = 8 }) []
        2 2 other_checkerboard }
    ensures wraps_in { IsLegalPicture checkerboard (record (plain_rules 2) { wrap_in = true }) []
        2 2 other_checkerboard }
    ensures wraps_out { IsLegalPicture checkerboard (record (plain_rules 2) { wrap_out = true }) []
        2 2 checkerboard → ⊥ }
    ensures wraps_single { IsLegalPicture six (record (plain_rules 1) { wrap_out = true }) []
        2 1 (raster_of 2 1 (2 ∷ 1 ∷ [])) }
{}

/// Pins and bans, at a column and a row that differ. A place outside the picture holds neither.
pub fn pins_of_six()
    ensures kept { IsHeld six (kept_pin 2 0 3) }
    ensures other_kept { IsHeld six (kept_pin 0 1 3) → ⊥ }
    ensures banned { IsHeld six (banned_pin 0 1 3) }
    ensures other_banned { IsHeld six (banned_pin 2 0 3) → ⊥ }
    ensures kept_outside { IsHeld six (kept_pin 0 2 0) → ⊥ }
    ensures banned_below { IsHeld six (banned_pin 0 2 1) → ⊥ }
    ensures banned_beside { IsHeld six (banned_pin 3 0 1) → ⊥ }
{}

/// In a legal picture each pin is held.
pub fn pins_of_legal()
    ensures kept { IsLegalPicture checkerboard (plain_rules 2) (kept_pin 1 0 98 ∷ [])
        2 2 checkerboard }
    ensures other_kept { IsLegalPicture checkerboard (plain_rules 2)
        (kept_pin 1 0 98 ∷ kept_pin 0 0 98 ∷ []) 2 2 checkerboard → ⊥ }
    ensures banned { IsLegalPicture checkerboard (plain_rules 2) (banned_pin 0 0 97 ∷ [])
        2 2 checkerboard → ⊥ }
{}

// ---- renumbering

/// Each number becomes the one given for it, in a picture and in a pin. No renumbering gives two numbers of the sample
/// one, nor leaves a pin with a number that the sample lacks.
pub fn renumbered_pictures()
    ensures picture { renumbered_picture (λ x. x + 10) six ≡
        raster_of 3 2 (11 ∷ 12 ∷ 13 ∷ 14 ∷ 15 ∷ 16 ∷ []) }
    ensures numbers { (f : ℕ → ℕ) (w h : ℕ) (numbers : List ℕ) → IsFilled w h numbers
        → renumbered_picture f (raster_of w h numbers) ≡ raster_of w h (map f numbers) }
    ensures pin { renumbered_pin (λ x. x + 10) (banned_pin 2 1 5) ≡ banned_pin 2 1 15 }
    ensures known { IsKnown six (raster_of 1 2 (2 ∷ 5 ∷ [])) }
    ensures not_known { IsKnown six spots → ⊥ }
    ensures one_to_one { IsRenumbering (λ x. x + 10) six (kept_pin 1 0 6 ∷ []) }
    ensures two_to_one { IsRenumbering (λ x. 0) six [] → ⊥ }
    ensures unknown { IsRenumbering (λ x. x + 10) six (kept_pin 1 0 7 ∷ []) → ⊥ }
{}

/// Renumbering changes no legality: a picture of the sample's numbers is legal for a sample exactly where both, with the
/// pins, are legal when renumbered; and each picture that is legal then is the renumbering of one that was before.
pub fn renumbering_changes_no_legality()
    ensures exactly { (f : ℕ → ℕ) (sample : Raster) (pins : List Pin)
        → IsRenumbering f sample pins → KeepsLegality f sample pins }
    ensures each { (f : ℕ → ℕ) (sample : Raster) (pins : List Pin)
        → IsRenumbering f sample pins → LosesNone f sample pins }
{}

// ---- directions

/// Direction 0 is to the left, 1 down, 2 to the right and 3 up, with rows counted downwards, and a step goes no other way.
pub fn directions()
    ensures left { (x y : ℕ) → IsStep 0 (x + 1) y x y }
    ensures down { (x y : ℕ) → IsStep 1 x y x (y + 1) }
    ensures right { (x y : ℕ) → IsStep 2 x y (x + 1) y }
    ensures up { (x y : ℕ) → IsStep 3 x (y + 1) x y }
    ensures not_back { IsStep 2 5 3 4 3 → ⊥ }
    ensures wrapped { IsStepModulo 2 3 2 2 1 0 1 }
    ensures not_wrapped { IsStepModulo 1 3 2 2 1 0 1 → ⊥ }
{}

/// A step in a direction and a step back in its opposite are one, and turning round twice is not turning.
pub fn opposites()
    ensures pairs { map opposite (range_with_len 0 6) ≡ 2 ∷ 3 ∷ 0 ∷ 1 ∷ 5 ∷ 4 ∷ [] }
    ensures twice { (direction : ℕ) → direction < 6 → opposite (opposite direction) ≡ direction }
    ensures back { (direction a b i j : ℕ) → direction < 4 → IsStep direction a b i j
        → IsStep (opposite direction) i j a b }
{}
