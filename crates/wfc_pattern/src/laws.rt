//! Laws of what is learned, each a function with no body whose contract is the law. They run nothing.

ghost use Rattle.std.specs.Prelude.{◌≡◌, ◌↔◌, ℕ, ◌*◌, ◌<◌, ◌≤◌, Bool, true, false, List, [], ◌∷◌, length, map, replicate, sum, IsTrue};
ghost use Rattle.std.specs.List.{range_with_len};
ghost use Rattle.wfc_model.specs.Direction.{IsStepModulo, opposite};
ghost use Rattle.wfc_model.specs.Raster.{Raster, IsRaster, height_of, raster_of};
ghost use Rattle.wfc_model.specs.Window.{window};
ghost use Rattle.wfc_model.specs.Learned.{arising, learned};
ghost use Rattle.wfc_pattern.specs.Agreement.{Agrees, agrees};
ghost use Rattle.wfc_pattern.specs.Learning.{learned_patterns, learned_weights, patterns_of};
ghost use Rattle.wfc_pattern.specs.Patterns.{PatternsView, IsPatterns};
ghost use Rattle.wfc_pattern.specs.Small.{IsTeachable, column_patterns, last_column, patterns_of_one, wrapped_pair};
ghost use Rattle.wfc_pattern.specs.declared.TheConstants.{MAX_PATTERNS, MAX_ARISING};
ghost use Rattle.wfc_pattern.specs.declared.learning.LearnFault.{LearnFault};

/// The windows at neighbouring places agree: the one at a place with the one a step away, modulo the sides.
pub fn neighbouring_windows_agree()
    ensures windows { (m : Raster) (n x y u v direction : ℕ) → IsRaster m → IsStepModulo direction
        m.width (height_of m) x y u v → Agrees n (window m x y n) (window m u v n) direction }
{}

/// The test of agreement says whether two patterns agree, and a direction and its opposite say the same.
pub fn agreement_is_mutual()
    ensures test { (n : ℕ) (p q : List ℕ) (direction : ℕ) →
        IsTrue (agrees n p q direction) ↔ Agrees n p q direction }
    ensures opposite { (n : ℕ) (p q : List ℕ) (direction : ℕ) → direction < 4
        → agrees n p q direction ≡ agrees n q p (opposite direction) }
{}

/// Which windows of two by two may stand to the left of one, below it, to the right and above.
pub fn agreement_of_two()
    ensures beside { map (agrees 2 (1 ∷ 2 ∷ 3 ∷ 4 ∷ []) (2 ∷ 5 ∷ 4 ∷ 6 ∷ [])) (range_with_len 0 4)
        ≡ false ∷ false ∷ true ∷ false ∷ [] }
    ensures below { map (agrees 2 (1 ∷ 2 ∷ 3 ∷ 4 ∷ []) (3 ∷ 4 ∷ 5 ∷ 6 ∷ [])) (range_with_len 0 4)
        ≡ false ∷ true ∷ false ∷ false ∷ [] }
    ensures both { map (agrees 2 (1 ∷ 2 ∷ 1 ∷ 2 ∷ []) (2 ∷ 1 ∷ 2 ∷ 1 ∷ [])) (range_with_len 0 4)
        ≡ true ∷ false ∷ true ∷ false ∷ [] }
    ensures single { map (agrees 1 (1 ∷ []) (2 ∷ [])) (range_with_len 0 4)
        ≡ true ∷ true ∷ true ∷ true ∷ [] }
{}

/// A sample of four by two that teaches three patterns, and samples that are too small and not.
pub fn small_samples()
    ensures patterns { patterns_of last_column 2 2 false ≡ Ok column_patterns }
    ensures narrow { patterns_of (raster_of 1 2 (1 ∷ 2 ∷ [])) 2 1 false
        ≡ Err LearnFault.SampleBelowN }
    ensures low { patterns_of (raster_of 2 1 (1 ∷ 2 ∷ [])) 2 1 false
        ≡ Err LearnFault.SampleBelowN }
    ensures wrapped { patterns_of (raster_of 2 1 (1 ∷ 2 ∷ [])) 2 1 true ≡ Ok wrapped_pair }
{}

/// Up to 4,096 patterns are taught. With one more there are too many, and the fault says how many.
pub fn too_many_patterns()
    ensures patterns { MAX_PATTERNS ≡ 4096 }
    ensures arising { MAX_ARISING ≡ 8388608 }
    ensures within { (sample : Raster) (n s : ℕ) → length (learned sample n s true) ≡ 4096 →
        patterns_of sample n s true ≡ Ok (learned_patterns sample n s true) }
    ensures beyond { (sample : Raster) (n s : ℕ) → length (learned sample n s true) ≡ 4097 →
        patterns_of sample n s true ≡ Err (LearnFault.TooManyPatterns 4097) }
{}

/// What a sample teaches are patterns: 1 to 4,096 different windows with their weights.
pub fn taught_patterns()
    ensures taught { (sample : Raster) (n s : ℕ) (wrap : Bool) (patterns : PatternsView) →
        IsTeachable sample n s → patterns_of sample n s wrap ≡ Ok patterns → IsPatterns patterns }
    ensures two { IsPatterns
        (record { n = 1; windows = (5 ∷ []) ∷ (6 ∷ []) ∷ []; weights = 3 ∷ 8388608 ∷ [] }) }
    ensures repeated { IsPatterns
        (record { n = 1; windows = (5 ∷ []) ∷ (5 ∷ []) ∷ []; weights = 3 ∷ 1 ∷ [] }) → ⊥ }
    ensures unweighed { IsPatterns
        (record { n = 1; windows = (5 ∷ []) ∷ (6 ∷ []) ∷ []; weights = 3 ∷ [] }) → ⊥ }
    ensures weightless { IsPatterns
        (record { n = 1; windows = (5 ∷ []) ∷ (6 ∷ []) ∷ []; weights = 3 ∷ 0 ∷ [] }) → ⊥ }
    ensures misshapen { IsPatterns
        (record { n = 2; windows = (5 ∷ 6 ∷ []) ∷ []; weights = 3 ∷ [] }) → ⊥ }
    ensures none { IsPatterns (record { n = 1; windows = []; weights = [] }) → ⊥ }
    ensures most { IsPatterns (patterns_of_one 4096) }
    ensures many { (patterns : PatternsView) → length patterns.windows ≡ 4097 →
        IsPatterns patterns → ⊥ }
    ensures widest { IsPatterns
        (record { n = 6; windows = replicate 36 5 ∷ []; weights = 3 ∷ [] }) }
    ensures wider { IsPatterns
        (record { n = 7; windows = replicate 49 5 ∷ []; weights = 3 ∷ [] }) → ⊥ }
    ensures narrower { IsPatterns (record { n = 0; windows = [] ∷ []; weights = 3 ∷ [] }) → ⊥ }
    ensures heaviest { IsPatterns
        (record { n = 1; windows = (5 ∷ []) ∷ []; weights = 8388609 ∷ [] }) → ⊥ }
{}

/// The weights of the patterns together are the number of images that arise.
pub fn weights_add_up()
    ensures sum { (sample : Raster) (n s : ℕ) (wrap : Bool) →
        sum (learned_weights sample n s wrap) ≡ length (arising sample n s wrap) }
{}
