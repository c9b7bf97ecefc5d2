//! Laws of the problem of a sample, each a function with no body whose contract is the law. They
//! run nothing.

ghost use Rattle.std.specs.Prelude.{◌≡◌, ◌↔◌, ℕ, ◌<◌, length, List, Err};
ghost use Rattle.wfc_model.specs.Raster.{Raster};
ghost use Rattle.wfc_pattern.specs.Patterns.{IsPatterns};
ghost use Rattle.wfc_picture.specs.Symbol.{Spells};
ghost use Rattle.wfc_picture.specs.declared.symbol.Symbol.{Symbol};
ghost use Rattle.wfc_pins.specs.PinView.{PinView};
ghost use Rattle.wfc_pins.specs.declared.fault.BuildFault.TheVariants.{UnknownSymbol};
ghost use Rattle.wfc_problem.specs.Network.{IsProblem};
ghost use Rattle.wfc_overlap.specs.Setting.{AreInsideHere, HoldsPinsHere, IsAssignedHere, IsBesideHere, IsInBaseHere};
ghost use Rattle.wfc_overlap.specs.Setting.{IsLegalHere, IsPlaceHere, IsReadAs, IsRoomHere, IsStepHere, IsTaughtHere, Setting, SpellsNothing};
ghost use Rattle.wfc_overlap.specs.Setting.{cell_here, numbers_here, picture_here, problem_here, symbol_pin};
ghost use Rattle.wfc_overlap.specs.Subject.{IsAgreeing, IsSampleSupport};
ghost use Rattle.wfc_overlap.specs.Bridge.{HasWindowsOf};

/// Patterns, an output with room for them and pins make a problem.
pub fn samples_make_problems()
    ensures problem { (s : Setting) → IsPatterns s.patterns → IsRoomHere s →
        IsProblem (problem_here s) }
{}

/// The numbers of a legal picture's windows, place by place, are a legal assignment.
pub fn pictures_are_assignments()
    ensures legal { (s : Setting) (m : Raster) → IsTaughtHere s → IsLegalHere s m →
        IsAssignedHere s (numbers_here s m) }
{}

/// The picture of a legal assignment is legal, and its window at each place is the pattern assigned
/// to it.
pub fn assignments_are_pictures()
    ensures legal { (s : Setting) (a : List ℕ) → IsTaughtHere s → IsRoomHere s → AreInsideHere s →
        IsAssignedHere s a → IsLegalHere s (picture_here s a) }
    ensures windows { (s : Setting) (a : List ℕ) → IsPatterns s.patterns → IsRoomHere s →
        IsAssignedHere s a → HasWindowsOf s.patterns s.output a (picture_here s a) }
{}

/// A legal picture exists exactly where a legal assignment does.
pub fn either_exists_with_the_other()
    ensures exactly { (s : Setting) → IsTaughtHere s → IsRoomHere s → AreInsideHere s →
        ((m : Raster) × IsLegalHere s m) ↔ ((a : List ℕ) × IsAssignedHere s a) }
{}

/// Legal pictures and legal assignments correspond one to one: each is made of the other, and gives
/// it again.
pub fn one_to_one()
    ensures pictures { (s : Setting) (m : Raster) → IsTaughtHere s → IsRoomHere s →
        IsLegalHere s m → picture_here s (numbers_here s m) ≡ m }
    ensures assignments { (s : Setting) (a : List ℕ) → IsTaughtHere s → IsRoomHere s →
        IsAssignedHere s a → numbers_here s (picture_here s a) ≡ a }
{}

/// The cells are those of the places, and beside the cell of a place in a direction lies the cell of
/// exactly the place one step away, modulo the places where the output wraps.
pub fn neighbours_are_a_step_away()
    ensures cells { (s : Setting) (c : ℕ) → c < (problem_here s).cells →
        (x : ℕ) × (y : ℕ) × IsPlaceHere s x y × (cell_here s x y ≡ c) }
    ensures places { (s : Setting) (x y : ℕ) → IsPlaceHere s x y →
        cell_here s x y < (problem_here s).cells }
    ensures exactly { (s : Setting) (x y u v d : ℕ) → IsPatterns s.patterns → IsRoomHere s → d < 4 →
        IsPlaceHere s x y → IsPlaceHere s u v → IsBesideHere s d x y u v ↔ IsStepHere s d x y u v }
{}

/// What may stand beside a pattern in a direction are exactly the patterns that agree with it.
pub fn supports_are_agreement()
    ensures exactly { (s : Setting) (p q d : ℕ) → p < length s.patterns.windows → d < 4 →
        IsSampleSupport s.patterns s.output s.pins p d q ↔ IsAgreeing s.patterns p d q }
{}

/// A pattern is in the base of a place's cell exactly where it holds each pin and ban there.
pub fn bases_hold_pins()
    ensures exactly { (s : Setting) (x y p : ℕ) → IsPatterns s.patterns → IsPlaceHere s x y →
        p < length s.patterns.windows → IsInBaseHere s x y p ↔ HoldsPinsHere s x y p }
{}

/// A pin's word means the number of the symbol that it spells, where the palette has it, and a word
/// that spells none of the palette's symbols is unknown.
pub fn pins_name_symbols()
    ensures spelled { (palette : List Symbol) (w h : ℕ) (line : PinView) (symbol : Symbol) →
        Spells line.symbol symbol → IsReadAs palette w h line (symbol_pin palette line symbol) }
    ensures unknown { (palette : List Symbol) (w h : ℕ) (line : PinView) →
        SpellsNothing line.symbol → IsReadAs palette w h line (Err (UnknownSymbol line.line)) }
{}
