//! Laws of the definitions, each a function with no body whose contract is the law. They run nothing.

ghost use Rattle.std.specs.Prelude.{◌≡◌, ℕ, ◌^◌, ◌<◌, ◌≤◌, [], ◌∷◌, ◌++◌, false, codes, replicate, decimal, Ok, Err};
ghost use Rattle.wfc_text.specs.Line.{ended_line, lines_of};
ghost use Rattle.wfc_text.specs.Number.{number_of};
ghost use Rattle.wfc_text.specs.declared.numeral.NumberFault.TheVariants.{Empty, NotDigit, OutOfRange};

/// A number that is written in decimal reads back as it was, with any zeros before it too.
pub fn decimals_are_read()
    ensures read { (zeros n least most : ℕ) → n < 2 ^ 64 → least ≤ n → n ≤ most
        → number_of (replicate zeros 48 ++ decimal n) least most ≡ Ok n }
{}

/// The first fault in this order: no byte, a byte that is no digit, a number out of the range.
pub fn numbers_by_example()
    ensures zeros { number_of (codes "007") 7 9 ≡ Ok 7 }
    ensures empty { number_of [] 7 9 ≡ Err Empty }
    ensures other { number_of (codes "12x4y") 7 9 ≡ Err (NotDigit 2) }
    ensures low { number_of (codes "6") 7 9 ≡ Err OutOfRange }
    ensures high { number_of (codes "10") 7 9 ≡ Err OutOfRange }
    ensures most { number_of (codes "9") 7 9 ≡ Ok 9 }
{}

/// Each line feed ends a line, one carriage return before it goes, and what stands behind the last is a line without
/// its end, if it has a byte.
pub fn lines_by_example()
    ensures three { lines_of (codes "ab\r\n\nc\r") ≡ ended_line 1 (codes "ab") ∷ ended_line 2 []
        ∷ record { number = 3; bytes = codes "c\r"; ended = false } ∷ [] }
    ensures ended { lines_of (codes "ab\n") ≡ ended_line 1 (codes "ab") ∷ [] }
    ensures none { lines_of [] ≡ [] }
{}
