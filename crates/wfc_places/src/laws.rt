//! Laws of the definitions, each a function with no body whose contract is the law. They run nothing.

ghost use Rattle.std.specs.Prelude.{◌≡◌, ◌↔◌, ℕ, ◌+◌, ◌<◌, ◌==◌, [], ◌∷◌, true, false, map, None, Some, IsTrue};
ghost use Rattle.wfc_model.specs.Direction.{left_by, down_by, right_by, up_by};
ghost use Rattle.wfc_model.specs.Legal.{kept_pin, banned_pin};
ghost use Rattle.wfc_places.specs.Flags.{HasFlags, IsRowCut, flag};
ghost use Rattle.wfc_places.specs.Marks.{marked_pin, suits};
ghost use Rattle.wfc_places.specs.Steps.{IsStepFrom, along, place_number};

/// A step from each of three columns forth, back and neither, to the next one and not past the ends; where they wrap, on
/// from the other end.
pub fn steps_along_three()
    ensures forth { map (along 3 false 1 0) (0 ∷ 1 ∷ 2 ∷ []) ≡ Some 1 ∷ Some 2 ∷ None ∷ [] }
    ensures back { map (along 3 false 0 1) (0 ∷ 1 ∷ 2 ∷ []) ≡ None ∷ Some 0 ∷ Some 1 ∷ [] }
    ensures neither { map (along 3 false 0 0) (0 ∷ 1 ∷ 2 ∷ []) ≡ Some 0 ∷ Some 1 ∷ Some 2 ∷ [] }
    ensures wrapped_forth { map (along 3 true 1 0) (0 ∷ 1 ∷ 2 ∷ [])
        ≡ Some 1 ∷ Some 2 ∷ Some 0 ∷ [] }
    ensures wrapped_back { map (along 3 true 0 1) (0 ∷ 1 ∷ 2 ∷ []) ≡ Some 2 ∷ Some 0 ∷ Some 1 ∷ [] }
{}

/// Places are counted row by row, and how far each direction leads.
pub fn places_by_rows()
    ensures third { place_number 5 2 1 ≡ 7 }
    ensures left { map left_by (0 ∷ 1 ∷ 2 ∷ 3 ∷ []) ≡ 1 ∷ 0 ∷ 0 ∷ 0 ∷ [] }
    ensures down { map down_by (0 ∷ 1 ∷ 2 ∷ 3 ∷ []) ≡ 0 ∷ 1 ∷ 0 ∷ 0 ∷ [] }
    ensures right { map right_by (0 ∷ 1 ∷ 2 ∷ 3 ∷ []) ≡ 0 ∷ 0 ∷ 1 ∷ 0 ∷ [] }
    ensures up { map up_by (0 ∷ 1 ∷ 2 ∷ 3 ∷ []) ≡ 0 ∷ 0 ∷ 0 ∷ 1 ∷ [] }
{}

/// A number suits a pin that keeps it, and a ban of another one.
pub fn numbers_that_suit()
    ensures kept { map (suits (kept_pin 2 1 7)) (6 ∷ 7 ∷ []) ≡ false ∷ true ∷ [] }
    ensures banned { map (suits (banned_pin 2 1 7)) (6 ∷ 7 ∷ []) ≡ true ∷ false ∷ [] }
    ensures line { marked_pin (record { line = 9; keep = false; x = 2; y = 1; symbol = 97 ∷ [] }) 7
        ≡ banned_pin 2 1 7 }
{}

/// Two rows of three flags, where the second is cut to its last two numbers; no row is cut that has a flag more, or where
/// another row changed.
pub fn cut_rows_by_example()
    ensures here { flag 3 (true ∷ false ∷ false ∷ false ∷ false ∷ true ∷ []) 1 2 ≡ true }
    ensures cut { IsRowCut 3 (true ∷ false ∷ true ∷ true ∷ true ∷ false ∷ [])
        (true ∷ false ∷ true ∷ false ∷ true ∷ false ∷ []) 1 (suits (banned_pin 0 0 0)) }
    ensures kept { IsRowCut 3 (true ∷ false ∷ true ∷ true ∷ true ∷ false ∷ [])
        (true ∷ false ∷ true ∷ true ∷ true ∷ false ∷ []) 1 (suits (banned_pin 0 0 0)) → ⊥ }
    ensures other { IsRowCut 3 (true ∷ false ∷ true ∷ true ∷ true ∷ false ∷ [])
        (true ∷ false ∷ false ∷ false ∷ true ∷ false ∷ []) 1 (suits (banned_pin 0 0 0)) → ⊥ }
    ensures longer { IsRowCut 1 (true ∷ []) (true ∷ true ∷ []) 0 (suits (kept_pin 0 0 0)) → ⊥ }
{}

/// Two rows of three flags that say which numbers stay. They are no three rows of two, and no table has a flag more than its
/// rows.
pub fn tables_by_example()
    ensures rows { HasFlags 3 2 (true ∷ false ∷ false ∷ false ∷ false ∷ true ∷ [])
        (λ c v. v == c + c) }
    ensures turned { HasFlags 2 3 (true ∷ false ∷ false ∷ false ∷ false ∷ true ∷ [])
        (λ c v. v == c + c) → ⊥ }
    ensures longer { HasFlags 2 2 (true ∷ false ∷ false ∷ false ∷ false ∷ []) (λ c v. v == c + c)
        → ⊥ }
{}
