//! The commands, and where a map's patterns come from.

/// What the program is asked to do.
#[derive(Clone, Copy, Debug, PartialEq, Eq)]
pub enum CommandKind {
    Learn,
    Fill,
    Domains,
    Refute,
    Check,
    Upgrade,
    Demo,
    Race,
    Explain,
    Grow,
    BoxFill,
    BoxRefute,
    BoxCheck,
}

/// What a map is made of.
#[derive(Clone, Copy, Debug, PartialEq, Eq)]
pub enum SourceModel {
    /// Windows of a sample, with this side in pixels; 0 where the command has no model.
    Overlap { n: u32 },
    /// Tiles of a tile set.
    Tiles,
}
