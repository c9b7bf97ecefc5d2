//! Laws of the definitions, each a function with no body whose contract is the law. They run nothing.

ghost use Rattle.std.specs.Prelude.{◌≡◌, ℕ, ◌*◌, ◌<◌, List, [], ◌∷◌, length, map};
ghost use Rattle.std.specs.List.{range_with_len};
ghost use Rattle.wfc_symmetry.specs.Class.{variant_count, turned_variant, reflected_variant, variant_by_action, acted_image};
ghost use Rattle.wfc_symmetry.specs.Class.{action_behind, image_number};
ghost use Rattle.wfc_symmetry.specs.declared.class.Class.{Class};
ghost use Rattle.wfc_symmetry.specs.declared.class.Class.TheVariants.{X, I, L, T, F, Slash};

/// The variants of each class, by a quarter turn and by a reflection.
pub fn variants_by_table()
    ensures bend { map (turned_variant L) (range_with_len 0 4) ≡ 1 ∷ 2 ∷ 3 ∷ 0 ∷ [] }
    ensures bend_over { map (reflected_variant L) (range_with_len 0 4) ≡ 1 ∷ 0 ∷ 3 ∷ 2 ∷ [] }
    ensures junction { map (turned_variant T) (range_with_len 0 4) ≡ 1 ∷ 2 ∷ 3 ∷ 0 ∷ [] }
    ensures junction_over { map (reflected_variant T) (range_with_len 0 4) ≡ 0 ∷ 3 ∷ 2 ∷ 1 ∷ [] }
    ensures straight { map (turned_variant I) (range_with_len 0 2) ≡ 1 ∷ 0 ∷ [] }
    ensures straight_over { map (reflected_variant I) (range_with_len 0 2) ≡ 0 ∷ 1 ∷ [] }
    ensures diagonal { map (turned_variant Slash) (range_with_len 0 2) ≡ 1 ∷ 0 ∷ [] }
    ensures diagonal_over { map (reflected_variant Slash) (range_with_len 0 2) ≡ 1 ∷ 0 ∷ [] }
    ensures eight { map (turned_variant F) (range_with_len 0 8)
        ≡ 1 ∷ 2 ∷ 3 ∷ 0 ∷ 7 ∷ 4 ∷ 5 ∷ 6 ∷ [] }
    ensures eight_over { map (reflected_variant F) (range_with_len 0 8)
        ≡ 4 ∷ 5 ∷ 6 ∷ 7 ∷ 0 ∷ 1 ∷ 2 ∷ 3 ∷ [] }
    ensures cross { map (variant_by_action X 0) (range_with_len 0 8)
        ≡ 0 ∷ 0 ∷ 0 ∷ 0 ∷ 0 ∷ 0 ∷ 0 ∷ 0 ∷ [] }
    ensures counts { map variant_count (X ∷ I ∷ Slash ∷ L ∷ T ∷ F ∷ [])
        ≡ 1 ∷ 2 ∷ 2 ∷ 4 ∷ 4 ∷ 8 ∷ [] }
{}

/// The eight actions on the first variant of a junction, and on the second of a bend.
pub fn actions_by_example()
    ensures junction { map (variant_by_action T 0) (range_with_len 0 8)
        ≡ 0 ∷ 1 ∷ 2 ∷ 3 ∷ 0 ∷ 3 ∷ 2 ∷ 1 ∷ [] }
    ensures bend { map (variant_by_action L 1) (range_with_len 0 8)
        ≡ 1 ∷ 2 ∷ 3 ∷ 0 ∷ 0 ∷ 3 ∷ 2 ∷ 1 ∷ [] }
    ensures images { map image_number (range_with_len 0 8) ≡ 0 ∷ 2 ∷ 4 ∷ 6 ∷ 1 ∷ 3 ∷ 5 ∷ 7 ∷ [] }
{}

/// The eight actions are a group: one behind another is one of them, the first changes nothing, each is undone by one, and
/// of three it is the same which two are joined first.
pub fn actions_are_a_group()
    ensures closed { (a b : ℕ) → a < 8 → b < 8 → action_behind a b < 8 }
    ensures first { (a : ℕ) → a < 8 → action_behind a 0 ≡ a }
    ensures last { (a : ℕ) → a < 8 → action_behind 0 a ≡ a }
    ensures undone { (a : ℕ) → a < 8 → (b : ℕ) × (b < 8) × (action_behind b a ≡ 0) }
    ensures joined { (a b c : ℕ) → a < 8 → b < 8 → c < 8
        → action_behind a (action_behind b c) ≡ action_behind (action_behind a b) c }
{}

/// It is the group of the square: four quarter turns are none, two reflections are none, and a quarter turn behind a
/// reflection is the reflection behind three of them. All eight actions differ, as a tile of eight variants shows.
pub fn the_group_is_the_squares()
    ensures turns { action_behind 1 3 ∷ action_behind 2 2 ∷ [] ≡ 0 ∷ 0 ∷ [] }
    ensures reflections { action_behind 4 4 ≡ 0 }
    ensures turned_round { action_behind 1 4 ∷ action_behind 4 3 ∷ [] ≡ 7 ∷ 7 ∷ [] }
    ensures differ { (a b : ℕ) → a < 8 → b < 8
        → variant_by_action F 0 a ≡ variant_by_action F 0 b → a ≡ b }
{}

/// The group acts on the variants of each class.
pub fn the_group_acts_on_classes()
    ensures variants { (class : Class) (i a : ℕ) → i < variant_count class → a < 8
        → variant_by_action class i a < variant_count class }
    ensures first { (class : Class) (i : ℕ) → variant_by_action class i 0 ≡ i }
    ensures behind { (c : Class) (i a b : ℕ) → i < variant_count c → a < 8 → b < 8 →
        variant_by_action c (variant_by_action c i b) a ≡ variant_by_action c i (action_behind a b) }
{}

/// The images of a window compose as the actions do.
pub fn images_compose_as_actions()
    ensures first { (n : ℕ) (w : List ℕ) → acted_image n w 0 ≡ w }
    ensures behind { (n a b : ℕ) (w : List ℕ) → length w ≡ n * n → a < 8 → b < 8
        → acted_image n (acted_image n w b) a ≡ acted_image n w (action_behind a b) }
{}
