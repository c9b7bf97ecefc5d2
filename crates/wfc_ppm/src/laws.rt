//! Laws of the definitions, each a function with no body whose contract is the law. They run nothing.

ghost use Rattle.std.specs.Prelude.{◌≡◌, ◌↔◌, ℕ, ◌*◌, ◌<◌, ◌≤◌, List, [], ◌∷◌, ◌++◌, All, None, Some, codes, length, take, Ok, Err};
ghost use Rattle.wfc_picture.specs.declared.palette.TheConstants.{MAX_PIXELS};
ghost use Rattle.wfc_ppm.specs.Fault.{HasHeaderFault, form_of, pairs_of, text_header_fault};
ghost use Rattle.wfc_ppm.specs.Front.{HasNoPicture, HasWholeHead, IsHeadEnd, IsWholeHead, StartsHead, digits_end, through_digits};
ghost use Rattle.wfc_ppm.specs.declared.reading.PpmForm.{PpmForm};
ghost use Rattle.wfc_ppm.specs.declared.reading.PpmForm.TheVariants.{Raw, Plain};
ghost use Rattle.wfc_ppm.specs.Ppm.{PpmView, p6_text, p3_text, raw_bytes};
ghost use Rattle.wfc_ppm.specs.Reading.{ppm_of};
ghost use Rattle.wfc_ppm.specs.Spelling.{SpellsPpm};
ghost use Rattle.wfc_ppm.specs.Small.{two_pixels, wide_bytes, wide_pixels};
ghost use Rattle.wfc_ppm.specs.declared.reading.PpmFault.TheVariants.{Magic, Header, Maxval, TooLarge, Truncated};
ghost use Rattle.wfc_ppm.specs.declared.reading.PpmFault.TheVariants.{SampleAboveMaxval, BadSample, Trailing};

/// The limit is this number.
pub fn limits_are()
    ensures pixels { MAX_PIXELS ≡ 1048576 }
{}

/// A text of bytes is read as a picture exactly where it spells it within the limit.
pub fn spelled_pictures_are_read()
    ensures read { (text : List ℕ) (ppm : PpmView) → All (λ byte. byte < 256) text
        → ((ppm_of text ≡ Ok ppm) ↔ (SpellsPpm text ppm × (ppm.width * ppm.height ≤ MAX_PIXELS))) }
{}

/// A text spells at most one picture, of any size.
pub fn spelled_pictures_are_one()
    ensures one { (text : List ℕ) (a b : PpmView) → SpellsPpm text a → SpellsPpm text b → a ≡ b }
{}

/// Two pixels in a row, as they are read and written in both forms.
pub fn two_pixels_by_example()
    ensures raw { ppm_of (codes "P6\n# made by hand\n2 1\n200 " ++ 1 ∷ 2 ∷ 3 ∷ 200 ∷ 0 ∷ 10 ∷ [])
        ≡ Ok two_pixels }
    ensures plain { ppm_of (codes "P3#c\r2\t#d\n1 0200\r\n1 2 3\n200#e\n000 10 #f")
        ≡ Ok two_pixels }
    ensures raw_written { p6_text two_pixels
        ≡ codes "P6\n2 1\n200\n" ++ 1 ∷ 2 ∷ 3 ∷ 200 ∷ 0 ∷ 10 ∷ [] }
    ensures plain_written { p3_text two_pixels ≡ codes "P3\n2 1\n200\n1 2 3\n200 0 10\n" }
{}

/// Samples of two bytes have the most significant first.
pub fn wide_samples_by_example()
    ensures read { ppm_of (codes "P6 1 2 256\n" ++ wide_bytes) ≡ Ok wide_pixels }
    ensures written { raw_bytes 256 wide_pixels.pixels ≡ wide_bytes }
    ensures narrow { raw_bytes 255 two_pixels.pixels ≡ 1 ∷ 2 ∷ 3 ∷ 200 ∷ 0 ∷ 10 ∷ [] }
    ensures pairs { pairs_of (1 ∷ 2 ∷ 3 ∷ 4 ∷ 5 ∷ []) ≡ 258 ∷ 772 ∷ [] }
{}

/// The first fault of headers, at its place.
pub fn headers_by_example()
    ensures none { ppm_of [] ≡ Err Magic }
    ensures magic { ppm_of (codes "P5 1 1 255 ") ≡ Err Magic }
    ensures alone { ppm_of (codes "P6") ≡ Err (Header 2) }
    ensures cut { ppm_of (codes "P6\n# made") ≡ Err (Header 9) }
    ensures no_space { ppm_of (codes "P6\n1 1\n65535") ≡ Err (Header 12) }
    ensures zero_side { ppm_of (codes "P6\n0 1\n255\n") ≡ Err (Header 3) }
    ensures zero_height { ppm_of (codes "P6 1 00 x") ≡ Err (Header 5) }
    ensures letter { ppm_of (codes "P6 1 1x 0 ") ≡ Err (Header 6) }
    ensures comment_behind { ppm_of (codes "P6 1 1 0#\n") ≡ Err (Header 8) }
    ensures cut_before_samples { ppm_of (codes "P3 1 1 1 #c") ≡ Err (Header 11) }
    ensures zero_maxval { ppm_of (codes "P6\n1 1\n0\n") ≡ Err (Maxval 0) }
    ensures great_maxval { ppm_of (codes "P6\n1 1\n99999999999\n") ≡ Err (Maxval 4294967295) }
    ensures maxval_first { ppm_of (codes "P6\n1025 1024\n65536\n") ≡ Err (Maxval 65536) }
    ensures large { ppm_of (codes "P6\n1025 1024\n255\n") ≡ Err TooLarge }
{}

/// A fault of the header stands where the text can no longer become a header: the bytes before it can be continued to one,
/// with sides of at least 1 and any maxval. A text whose header has no fault begins with a whole one.
pub fn heads_go_on_before_a_fault()
    ensures before { (form : PpmForm) (text : List ℕ) (at : ℕ) → form_of text ≡ Some form
        → text_header_fault form text ≡ Some (Header at) → StartsHead form (take at text) }
    ensures whole { (form : PpmForm) (text : List ℕ) → form_of text ≡ Some form
        → text_header_fault form text ≡ None → HasWholeHead form text }
{}

/// Behind a fault of the header no header goes on: the bytes up to it can't be continued to one, nor to a picture. Where digits
/// stand there, as those of a side of 0, this is said of all of them and the byte behind them, since more digits could follow.
pub fn no_head_goes_on_behind_a_fault()
    ensures heads { (form : PpmForm) (text : List ℕ) (at : ℕ) → digits_end text at < length text
        → HasHeaderFault form text at → StartsHead form (through_digits text at) → ⊥ }
    ensures pictures { (form : PpmForm) (text : List ℕ) (at : ℕ) → form_of text ≡ Some form
        → digits_end text at < length text → HasHeaderFault form text at → HasNoPicture text at }
    ensures here { digits_end (codes "P6 1 1x 0 ") 6 ≡ 6 }
    ensures zeros { digits_end (codes "P6 1 00 x") 5 ≡ 7 }
{}

/// A head is whole with any maxval; a raw one ends with a byte of whitespace, and one in decimal with whitespace or comments.
pub fn heads_by_example()
    ensures blank { IsHeadEnd Raw (codes "\t") }
    ensures comment { IsHeadEnd Raw (codes "#c\n") → ⊥ }
    ensures two { IsHeadEnd Raw (codes "  ") → ⊥ }
    ensures separator { IsHeadEnd Plain (codes " #c\n") }
    ensures none { IsHeadEnd Plain [] → ⊥ }
    ensures magic { StartsHead Raw (codes "P6") }
    ensures other_magic { StartsHead Raw (codes "P3") → ⊥ }
    ensures taken { IsWholeHead Plain (codes "P3 3 2 0#\n") }
{}

/// The first fault of samples, at its place.
pub fn samples_by_example()
    ensures raw_cut { ppm_of (codes "P6 1 1 65535 " ++ 0 ∷ 1 ∷ 0 ∷ 2 ∷ 255 ∷ [])
        ≡ Err (Truncated 6 5) }
    ensures raw_above { ppm_of (codes "P6\n1 1\n254\n" ++ 0 ∷ 0 ∷ 255 ∷ 0 ∷ [])
        ≡ Err (SampleAboveMaxval 13) }
    ensures wide_above { ppm_of (codes "P6 1 1 256 " ++ 0 ∷ 1 ∷ 1 ∷ 1 ∷ 9 ∷ 9 ∷ [])
        ≡ Err (SampleAboveMaxval 13) }
    ensures raw_trailing { ppm_of (codes "P6 1 1 255 " ++ 1 ∷ 2 ∷ 3 ∷ 10 ∷ []) ≡ Err (Trailing 14) }
    ensures plain_cut { ppm_of (codes "P3\n1 1\n255\n1 2\n") ≡ Err (Truncated 3 2) }
    ensures plain_bad { ppm_of (codes "P3\n1 1\n255\n1 2 x\n") ≡ Err (BadSample 15) }
    ensures plain_half { ppm_of (codes "P3\n1 1\n255\n1 2 3x\n") ≡ Err (BadSample 15) }
    ensures plain_above { ppm_of (codes "P3\n1 1\n255\n1 2 256\n") ≡ Err (SampleAboveMaxval 15) }
    ensures plain_trailing { ppm_of (codes "P3\n1 1\n255\n1 2 3 4\n") ≡ Err (Trailing 17) }
{}
