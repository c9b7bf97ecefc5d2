//! The faults of steps as refusals: want of memory is one refusal, whichever step found it. And refusals as faults.

use crate::fault::{Fault, Refusal, Source};
use wfc_box::StackFault;
use wfc_grid::GridFault;
use wfc_outside::NoMemory;
use wfc_pattern::LearnFault;
use wfc_picture::PaletteFault;
use wfc_pins::{BuildFault, PinFault, RangeFault, StepFault};
use wfc_ppm::PpmFault;
use wfc_render::RenderFault;
use wfc_tiled::MaskFault;
use wfc_tileset::TileFault;

impl From<NoMemory> for Refusal {
    ghost use Rattle.std.specs.Prelude.{◌≡◌};
    ghost use Rattle.wfc_plan.specs.declared.fault.Refusal.TheVariants as refusals;

    ghost from_gives = { λ _ refusal. refusal ≡ refusals.NoMemory };

    fn from(_error: NoMemory) -> Refusal {
        Refusal::NoMemory
    }
}

impl From<PaletteFault> for Refusal {
    ghost use Rattle.wfc_picture.specs.declared.palette.PaletteFault.TheVariants as palettes;
    ghost use Rattle.wfc_plan.specs.Fault.{IsRefusedAs};
    ghost use Rattle.wfc_plan.specs.declared.fault.Refusal.TheVariants as refusals;

    ghost from_gives = { IsRefusedAs refusals.Colours palettes.NoMemory };

    fn from(fault: PaletteFault) -> Refusal {
        match fault {
            PaletteFault::NoMemory => Refusal::NoMemory,
            _ => Refusal::Colours { fault },
        }
    }
}

impl From<LearnFault> for Refusal {
    ghost use Rattle.wfc_pattern.specs.declared.learning.LearnFault.TheVariants as learning;
    ghost use Rattle.wfc_plan.specs.Fault.{IsRefusedAs};
    ghost use Rattle.wfc_plan.specs.declared.fault.Refusal.TheVariants as refusals;

    ghost from_gives = { IsRefusedAs refusals.Learn learning.NoMemory };

    fn from(fault: LearnFault) -> Refusal {
        match fault {
            LearnFault::NoMemory => Refusal::NoMemory,
            _ => Refusal::Learn { fault },
        }
    }
}

impl From<PinFault> for Refusal {
    ghost use Rattle.wfc_pins.specs.declared.pins.PinFault.TheVariants as pins;
    ghost use Rattle.wfc_plan.specs.Fault.{IsRefusedAs};
    ghost use Rattle.wfc_plan.specs.declared.fault.Refusal.TheVariants as refusals;

    ghost from_gives = { IsRefusedAs refusals.Pins pins.NoMemory };

    fn from(fault: PinFault) -> Refusal {
        match fault {
            PinFault::NoMemory => Refusal::NoMemory,
            _ => Refusal::Pins { fault },
        }
    }
}

impl From<BuildFault> for Refusal {
    ghost use Rattle.wfc_pins.specs.declared.fault.BuildFault.TheVariants as builds;
    ghost use Rattle.wfc_plan.specs.Fault.{IsRefusedAs};
    ghost use Rattle.wfc_plan.specs.declared.fault.Refusal.TheVariants as refusals;

    ghost from_gives = { IsRefusedAs refusals.Build builds.NoMemory };

    fn from(fault: BuildFault) -> Refusal {
        match fault {
            BuildFault::NoMemory => Refusal::NoMemory,
            _ => Refusal::Build { fault },
        }
    }
}

impl From<StepFault> for Refusal {
    ghost use Rattle.wfc_pins.specs.declared.steps.StepFault.TheVariants as steps;
    ghost use Rattle.wfc_plan.specs.Fault.{IsRefusedAs};
    ghost use Rattle.wfc_plan.specs.declared.fault.Refusal.TheVariants as refusals;

    ghost from_gives = { IsRefusedAs refusals.Steps steps.NoMemory };

    fn from(fault: StepFault) -> Refusal {
        match fault {
            StepFault::NoMemory => Refusal::NoMemory,
            _ => Refusal::Steps { fault },
        }
    }
}

impl From<TileFault> for Refusal {
    ghost use Rattle.wfc_tileset.specs.declared.fault.TileFault.TheVariants as tiles;
    ghost use Rattle.wfc_plan.specs.Fault.{IsRefusedAs};
    ghost use Rattle.wfc_plan.specs.declared.fault.Refusal.TheVariants as refusals;

    ghost from_gives = { IsRefusedAs refusals.Tiles tiles.NoMemory };

    fn from(fault: TileFault) -> Refusal {
        match fault {
            TileFault::NoMemory => Refusal::NoMemory,
            _ => Refusal::Tiles { fault },
        }
    }
}

impl From<MaskFault> for Refusal {
    ghost use Rattle.wfc_tiled.specs.declared.reading.MaskFault.TheVariants as masks;
    ghost use Rattle.wfc_plan.specs.Fault.{IsRefusedAs};
    ghost use Rattle.wfc_plan.specs.declared.fault.Refusal.TheVariants as refusals;

    ghost from_gives = { IsRefusedAs refusals.Mask masks.NoMemory };

    fn from(fault: MaskFault) -> Refusal {
        match fault {
            MaskFault::NoMemory => Refusal::NoMemory,
            _ => Refusal::Mask { fault },
        }
    }
}

impl From<StackFault> for Refusal {
    ghost use Rattle.wfc_box.specs.declared.fault.StackFault.TheVariants as stacks;
    ghost use Rattle.wfc_plan.specs.Fault.{IsRefusedAs};
    ghost use Rattle.wfc_plan.specs.declared.fault.Refusal.TheVariants as refusals;

    ghost from_gives = { IsRefusedAs refusals.Stacks stacks.NoMemory };

    fn from(fault: StackFault) -> Refusal {
        match fault {
            StackFault::NoMemory => Refusal::NoMemory,
            _ => Refusal::Stacks { fault },
        }
    }
}

impl From<RenderFault> for Refusal {
    ghost use Rattle.std.specs.Prelude.{◌≡◌};
    ghost use Rattle.wfc_plan.specs.declared.fault.Refusal.TheVariants as refusals;

    ghost from_gives = { λ fault refusal. refusal ≡ refusals.Render fault };

    fn from(fault: RenderFault) -> Refusal {
        Refusal::Render { fault }
    }
}

impl From<RangeFault> for Refusal {
    ghost use Rattle.std.specs.Prelude.{◌≡◌};
    ghost use Rattle.wfc_plan.specs.declared.fault.Refusal.TheVariants as refusals;

    ghost from_gives = { λ fault refusal. refusal ≡ refusals.Range fault };

    fn from(fault: RangeFault) -> Refusal {
        Refusal::Range { fault }
    }
}

impl Refusal {
    ghost use Rattle.wfc_grid.specs.declared.reading.GridFault.TheVariants as grids;
    ghost use Rattle.wfc_plan.specs.Fault.{IsRefusedAs};
    ghost use Rattle.wfc_plan.specs.declared.fault.Refusal.TheVariants as refusals;
    ghost use Rattle.wfc_ppm.specs.declared.reading.PpmFault.TheVariants as ppms;

    /// The refusal of a file that spells no grid.
    pub fn of_grid(source: Source, fault: GridFault) -> Refusal
        ensures refused { IsRefusedAs (refusals.Grid source) grids.NoMemory fault result }
    {
        match fault {
            GridFault::NoMemory => Refusal::NoMemory,
            _ => Refusal::Grid { source, fault },
        }
    }

    /// The refusal of a file that spells no picture of colours.
    pub fn of_ppm(source: Source, fault: PpmFault) -> Refusal
        ensures refused { IsRefusedAs (refusals.Ppm source) ppms.NoMemory fault result }
    {
        match fault {
            PpmFault::NoMemory => Refusal::NoMemory,
            _ => Refusal::Ppm { source, fault },
        }
    }
}

impl From<Refusal> for Fault {
    ghost use Rattle.std.specs.Prelude.{◌≡◌};
    ghost use Rattle.wfc_plan.specs.declared.fault.Fault.TheVariants.{Refused};

    ghost from_gives = { λ refusal result. result ≡ Refused refusal };

    fn from(refusal: Refusal) -> Fault {
        Fault::Refused { refusal }
    }
}

impl From<NoMemory> for Fault {
    ghost use Rattle.std.specs.Prelude.{◌≡◌};
    ghost use Rattle.wfc_plan.specs.declared.fault.Fault.TheVariants.{Refused};
    ghost use Rattle.wfc_plan.specs.declared.fault.Refusal.TheVariants as refusals;

    ghost from_gives = { λ _ result. result ≡ Refused refusals.NoMemory };

    fn from(_error: NoMemory) -> Fault {
        Fault::Refused {
            refusal: Refusal::NoMemory,
        }
    }
}
