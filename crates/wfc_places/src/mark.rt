//! A pin or a ban, by a number.

ghost use Rattle.std.specs.Prelude.{◌≡◌, ◌&&◌};
ghost use Rattle.wfc_places.specs.Marks.{suits};

use std::marker::Model;

/// What stands in a column of a row has the number, or with `keep` false hasn't: a pixel that of its
/// symbol, or a tile that of its variant.
#[derive(Drop)]
pub struct PinMark {
    pub keep: bool,
    pub column: u32,
    pub row: u32,
    pub number: u32,
}

impl Model for PinMark {
    ghost use Rattle.wfc_model.specs.Legal.{Pin};

    ghost Value = { Pin };

    ghost view = { λ m. record {
      keep = m.keep;
      column = m.column;
      row = m.row;
      number = m.number;
    } };
}

impl PinMark {
    /// Whether a flag stays that is set for a number: the number is what is kept, or not what is
    /// banned.
    #[inline]
    pub fn leaves(&self, flag: bool, number: u32) -> bool
        ensures value { result ≡ (flag && suits self.now number) }
    {
        flag && self.suits(number)
    }

    /// Whether a number is what is kept, or not what is banned.
    #[inline]
    fn suits(&self, number: u32) -> bool
        ensures value { result ≡ suits self.now number }
    {
        if self.keep {
            number == self.number
        } else {
            number != self.number
        }
    }
}
