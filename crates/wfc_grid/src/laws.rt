//! Laws of the definitions, each a function with no body whose contract is the law. They run nothing.

ghost use Rattle.std.specs.Prelude.{◌≡◌, ◌↔◌, ℕ, ◌*◌, ◌≤◌, true, false, List, [], ◌∷◌, codes, None, Some, Ok, Err};
ghost use Rattle.wfc_model.specs.Raster.{number_at};
ghost use Rattle.wfc_grid.specs.Fault.{size_fault};
ghost use Rattle.wfc_grid.specs.Grid.{GridView, IsGrid, is_grid_byte, raster_of_grid};
ghost use Rattle.wfc_grid.specs.Reading.{grid_of};
ghost use Rattle.wfc_grid.specs.Spelling.{SpellsGrid, grid_text};
ghost use Rattle.wfc_grid.specs.declared.reading.GridFault.TheVariants.{Empty, Ragged, BadByte, TooLarge};

use crate::MAX_GRID_BYTES;
use wfc_outside::MAX_FILE_BYTES;

/// The limits are these numbers: the bytes of a file, and those of a grid.
pub fn limits_are()
    ensures bytes { MAX_FILE_BYTES ≡ 16777216 }
    ensures grid { MAX_GRID_BYTES ≡ 1048576 }
    ensures most { size_fault 1048576 ≡ None }
    ensures more { size_fault 1048577 ≡ Some TooLarge }
{}

/// A text spells at most one grid.
pub fn spelled_grids_are_one()
    ensures one { (text : List ℕ) (a b : GridView) → SpellsGrid text a → SpellsGrid text b → a ≡ b }
{}

/// The text that is written for a grid spells it.
pub fn written_grids_are_spelled()
    ensures spelled { (grid : GridView) → IsGrid grid
        → SpellsGrid (grid_text (raster_of_grid grid).rows) grid }
{}

/// A text is read as a grid exactly where it spells it within the limit.
pub fn spelled_grids_are_read()
    ensures read { (text : List ℕ) (grid : GridView) → (grid_of text ≡ Ok grid)
        ↔ (SpellsGrid text grid × (grid.width * grid.height ≤ MAX_GRID_BYTES)) }
{}

/// What is read by example: the first fault line by line, and in a line a bad byte before a wrong length.
pub fn grids_by_example()
    ensures three_by_two { grid_of (codes "abc\r\ndef")
        ≡ Ok (record { width = 3; height = 2; bytes = codes "abcdef" }) }
    ensures empty { grid_of [] ≡ Err Empty }
    ensures empty_line { grid_of (codes "\nab\n") ≡ Err Empty }
    ensures ragged { grid_of (codes "ab\nc\n\t\n") ≡ Err (Ragged 2) }
    ensures bad_byte { grid_of (codes "ab\ncd\t\nc\n") ≡ Err (BadByte 2 3) }
    ensures behind { grid_of (codes "ab\n\n") ≡ Err (Ragged 2) }
    ensures written { grid_text (codes "abc" ∷ codes "def" ∷ []) ≡ codes "abc\ndef\n" }
    ensures number { number_at
        (raster_of_grid (record { width = 3; height = 2; bytes = codes "abcdef" })) 2 0 ≡ 99 }
{}

/// The bytes of a grid are those from the blank to the tilde.
pub fn grid_bytes_by_example()
    ensures blank { is_grid_byte 32 ≡ true }
    ensures tilde { is_grid_byte 126 ≡ true }
    ensures below { is_grid_byte 31 ≡ false }
    ensures above { is_grid_byte 127 ≡ false }
{}
