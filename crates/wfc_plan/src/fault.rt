//! The faults of a task, each with the file that it stands in, and their statuses.

ghost use Rattle.std.specs.Prelude.{◌≡◌};
ghost use Rattle.wfc_plan.specs.Fault.{class_status};

use wfc_box::StackFault;
use wfc_choose::RuleKind;
use wfc_grid::GridFault;
use wfc_outside::ReadFault;
use wfc_pattern::LearnFault;
use wfc_picture::PaletteFault;
use wfc_pins::{BuildFault, PinFault, RangeFault, StepFault};
use wfc_ppm::PpmFault;
use wfc_render::RenderFault;
use wfc_tiled::MaskFault;
use wfc_tileset::TileFault;

/// What a file is to a command.
#[derive(Clone, Copy, Debug, PartialEq, Eq)]
pub enum Source {
    /// What a map is made from: the sample, or the document of a tile set.
    Sample,
    Pins,
    Steps,
    Refutation,
    /// The picture of a tile.
    Picture { tile: u32 },
    /// The holes of a tile map.
    Mask,
}

/// A refusal: a file, a size or a limit is at fault, a chooser is missing, or memory ran out.
#[derive(Clone, Copy, Debug, PartialEq, Eq)]
pub enum Refusal {
    /// No chooser goes by this rule, or fewer do than the command needs.
    Chooser { rule: RuleKind },
    /// A file spells no grid.
    Grid { source: Source, fault: GridFault },
    /// A file spells no picture of colours.
    Ppm { source: Source, fault: PpmFault },
    /// The sample has no palette.
    Colours { fault: PaletteFault },
    /// The sample teaches no patterns.
    Learn { fault: LearnFault },
    /// The map has no layout.
    Render { fault: RenderFault },
    /// A line of the pins file is at fault.
    Pins { fault: PinFault },
    /// There is no problem.
    Build { fault: BuildFault },
    /// A line of the steps file is at fault.
    Steps { fault: StepFault },
    /// A step isn't in the problem.
    Range { fault: RangeFault },
    /// A file that is read in pieces is too long.
    TooLong { source: Source },
    /// Memory ran out.
    NoMemory,
    /// A document is no tile set, or a picture is none of its tile.
    Tiles { fault: TileFault },
    /// A grid is no mask.
    Mask { fault: MaskFault },
    /// The stacks of a document are at fault.
    Stacks { fault: StackFault },
    /// The cells, the values and the runners of a race, multiplied, are above the limit.
    RaceTooLarge { product: u64 },
    /// There are more lines of pins and bans than `explain` takes.
    TooManyPins { count: u64 },
    /// A map would be grown in more blocks than `grow` makes.
    TooManyBlocks { count: u64 },
}

/// Why a command has no answer.
#[derive(Clone, Copy, Debug, PartialEq, Eq)]
pub enum Fault {
    /// A file wasn't read.
    Unread { source: Source, fault: ReadFault },
    /// A step refused what it was given.
    Refused { refusal: Refusal },
}

/// What refusals of one status have in common.
#[derive(Clone, Copy, Debug, PartialEq, Eq)]
pub enum FaultClass {
    /// A file, a size or a limit is at fault.
    Input,
    /// Memory ran out.
    Memory,
    /// A chooser is missing.
    NoChooser,
}

impl Refusal {
    ghost use Rattle.wfc_plan.specs.Fault.{class_of};

    /// Its class.
    pub fn class(&self) -> FaultClass
        ensures value { result ≡ class_of self.now }
    {
        match self {
            Refusal::Chooser { .. } => FaultClass::NoChooser,
            Refusal::NoMemory => FaultClass::Memory,
            _ => FaultClass::Input,
        }
    }
}

impl FaultClass {
    /// The exit status.
    pub fn status(self) -> u8
        ensures value { result ≡ class_status self }
    {
        match self {
            FaultClass::Input => 4,
            FaultClass::Memory => 6,
            FaultClass::NoChooser => 7,
        }
    }
}

impl Fault {
    ghost use Rattle.wfc_plan.specs.Fault.{status_of};

    /// The exit status.
    pub fn status(&self) -> u8
        ensures value { result ≡ status_of self.now }
    {
        match self {
            Fault::Unread { fault, .. } => match fault {
                ReadFault::Missing | ReadFault::Failed => 5,
                ReadFault::TooLong => 4,
                ReadFault::NoMemory => 6,
            },
            Fault::Refused { refusal } => refusal.class().status(),
        }
    }
}
