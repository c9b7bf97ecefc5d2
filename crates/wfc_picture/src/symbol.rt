//! What a pixel shows.

/// A colour, by the samples of its three channels. A sample goes from 0 to the maxval of its picture.
#[derive(Clone, Copy, Debug, PartialEq, Eq, Hash)]
pub struct Colour {
    pub r: u16,
    pub g: u16,
    pub b: u16,
}

/// What one pixel of a sample shows: a character of a grid, or a colour of a picture.
#[derive(Clone, Copy, Debug, PartialEq, Eq, Hash)]
pub enum Symbol {
    Char(u8),
    Rgb(Colour),
}

/// How a picture is written: as a grid of characters, as a PPM file, or as plain numbers.
#[derive(Clone, Copy, Debug, PartialEq, Eq, Hash)]
pub enum Kind {
    Grid,
    Ppm { maxval: u16 },
    Plain,
}
