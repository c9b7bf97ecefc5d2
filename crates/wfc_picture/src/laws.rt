//! Laws of symbols and palettes, each a function with no body whose contract is the law. They run nothing.

ghost use Rattle.std.specs.Prelude.{◌≡◌, ◌↔◌, ℕ, ◌<◌, List, [], ◌∷◌, length, map, slice_get, All, Contains, Option};
ghost use Rattle.std.specs.Prelude.{None, Some, Ok, Err, IsTrue, true, false, codes};
ghost use Rattle.std.specs.List.{IsDistinct};
ghost use Rattle.wfc_model.specs.Raster.{raster_of};
ghost use Rattle.wfc_picture.specs.Palette.{palette_of, symbol_number, palette_numbers, first_past, unless_past, picture_and_palette};
ghost use Rattle.wfc_picture.specs.Small.{rgb, six_pixels};
ghost use Rattle.wfc_picture.specs.Symbol.{Spells, same_symbol, is_shown, symbol_text};
ghost use Rattle.wfc_picture.specs.declared.palette.PaletteFault.TheVariants.{TooManyColours};
ghost use Rattle.wfc_picture.specs.declared.palette.TheConstants.{MAX_COLOURS, MAX_PIXELS};
ghost use Rattle.wfc_picture.specs.declared.symbol.Symbol.{Symbol};
ghost use Rattle.wfc_picture.specs.declared.symbol.Symbol.TheVariants.{Char};

/// The limits of a sample.
pub fn limits()
    ensures colours { MAX_COLOURS ≡ 4096 }
    ensures pixels { MAX_PIXELS ≡ 1048576 }
{}

// ---- symbols and their words

/// The test of symbols says whether they are one.
pub fn symbols_are_told_apart()
    ensures same { (a b : Symbol) → IsTrue (same_symbol a b) ↔ (a ≡ b) }
{}

/// The texts of symbols: a byte stands for itself, but for a blank, and a colour is written by its samples.
pub fn texts_of_symbols()
    ensures byte { symbol_text (Char 97) ≡ 97 ∷ [] }
    ensures blank { symbol_text (Char 32) ≡ 92 ∷ 115 ∷ [] }
    ensures colour { symbol_text (rgb 255 0 70) ≡ 50 ∷ 53 ∷ 53 ∷ 44 ∷ 48 ∷ 44 ∷ 55 ∷ 48 ∷ [] }
    ensures shown { map is_shown (Char 32 ∷ Char 126 ∷ rgb 65535 0 65535 ∷ []) ≡
        true ∷ true ∷ true ∷ [] }
    ensures hidden { map is_shown (Char 31 ∷ Char 127 ∷ rgb 0 65536 0 ∷ []) ≡
        false ∷ false ∷ false ∷ [] }
{}

/// A word spells at most one symbol, and each symbol that can stand in a sample is spelled by its text.
pub fn words_spell_symbols()
    ensures one { (word : List ℕ) (a b : Symbol) → Spells word a → Spells word b → a ≡ b }
    ensures spelled { (symbol : Symbol) → IsTrue (is_shown symbol)
        → Spells (symbol_text symbol) symbol }
{}

/// Words that spell: `b`, `,`, `\s` and `10,0,255`.
pub fn small_words()
    ensures byte { Spells (codes "b") (Char 98) }
    ensures comma { Spells (codes ",") (Char 44) }
    ensures blank { Spells (codes "\\s") (Char 32) }
    ensures colour { Spells (codes "10,0,255") (rgb 10 0 255) }
    ensures exchanged { Spells (codes "10,0,255") (rgb 255 0 10) → ⊥ }
{}

/// No word, a blank alone, a tabulator, `\t`, `01,0,0`, `1,2`, `1,2,3,4`, `1,,33` and `0,65536,0` spell nothing.
pub fn words_that_spell_nothing()
    ensures none { (symbol : Symbol) → Spells [] symbol → ⊥ }
    ensures blank { (symbol : Symbol) → Spells (codes " ") symbol → ⊥ }
    ensures tabulator { (symbol : Symbol) → Spells (9 ∷ []) symbol → ⊥ }
    ensures other_escape { (symbol : Symbol) → Spells (codes "\\t") symbol → ⊥ }
    ensures zero_first { (symbol : Symbol) → Spells (codes "01,0,0") symbol → ⊥ }
    ensures two_parts { (symbol : Symbol) → Spells (codes "1,2") symbol → ⊥ }
    ensures four_parts { (symbol : Symbol) → Spells (codes "1,2,3,4") symbol → ⊥ }
    ensures empty_part { (symbol : Symbol) → Spells (codes "1,,33") symbol → ⊥ }
    ensures too_large { (symbol : Symbol) → Spells (codes "0,65536,0") symbol → ⊥ }
{}

// ---- palettes

/// Naming what was numbered gives the symbols back, and each number is below the palette's length.
pub fn numbers_name_symbols()
    ensures named { (symbols : List Symbol)
        → map (slice_get (palette_of symbols)) (palette_numbers symbols) ≡ map (λ s. Some s) symbols }
    ensures below { (symbols : List Symbol)
        → All (λ n. n < length (palette_of symbols)) (palette_numbers symbols) }
{}

/// A palette has each symbol of the pixels, no other, and none twice.
pub fn palettes_have_each_symbol_once()
    ensures each { (symbols : List Symbol) (symbol : Symbol)
        → Contains (palette_of symbols) symbol ↔ Contains symbols symbol }
    ensures once { (symbols : List Symbol) → IsDistinct same_symbol (palette_of symbols) }
{}

/// Six pixels of four symbols: their palette, their numbers, where the third and the fourth symbol appear, and what they
/// are as a picture of three columns.
pub fn numbers_of_six_pixels()
    ensures palette { palette_of six_pixels ≡ Char 98 ∷ Char 97 ∷ rgb 1 2 3 ∷ Char 99 ∷ [] }
    ensures numbers { palette_numbers six_pixels ≡ 0 ∷ 1 ∷ 0 ∷ 2 ∷ 1 ∷ 3 ∷ [] }
    ensures number { map (symbol_number (palette_of six_pixels))
        (rgb 1 2 3 ∷ rgb 2 1 3 ∷ Char 1 ∷ []) ≡ Some 2 ∷ None ∷ None ∷ [] }
    ensures past { map (λ limit. first_past limit six_pixels) (2 ∷ 3 ∷ 4 ∷ []) ≡
        Some 3 ∷ Some 5 ∷ None ∷ [] }
    ensures fault { unless_past (Some 3) six_pixels 3 ≡ Err (TooManyColours 3) }
    ensures picture { picture_and_palette six_pixels 3 ≡
        Ok (raster_of 3 2 (0 ∷ 1 ∷ 0 ∷ 2 ∷ 1 ∷ 3 ∷ []), palette_of six_pixels) }
{}
