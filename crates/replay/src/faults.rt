//! How faults are turned into those above them, and their numbers.
ghost use Rattle.std.specs.Prelude.{◌≡◌};
ghost use Rattle.replay.specs.Faults.{step_number, fault_report};
ghost use Rattle.replay.specs.declared.fault.StepFault.TheVariants.{Format, Reading, Shape, Map};

use crate::fault::{JournalFault, StepFault};
use journal::{FormatFault, Report};
use map::MapFault;
use reading::ReadingFault;
use shape::ShapeFault;

impl From<FormatFault> for StepFault {
    ghost from_gives = { λ e r. r ≡ Format e };

    fn from(e: FormatFault) -> StepFault {
        StepFault::Format(e)
    }
}

impl From<ReadingFault> for StepFault {
    ghost from_gives = { λ e r. r ≡ Reading e };

    fn from(e: ReadingFault) -> StepFault {
        StepFault::Reading(e)
    }
}

impl From<ShapeFault> for StepFault {
    ghost from_gives = { λ e r. r ≡ Shape e };

    fn from(e: ShapeFault) -> StepFault {
        StepFault::Shape(e)
    }
}

impl From<MapFault> for StepFault {
    ghost from_gives = { λ e r. r ≡ Map e };

    fn from(e: MapFault) -> StepFault {
        StepFault::Map(e)
    }
}

impl StepFault {
    /// The number under which the fault is reported.
    /// It is a call of its own and no `From`, so that no fault becomes a number unseen.
    pub fn number(self) -> u8
        ensures value { result ≡ step_number self }
    {
        match self {
            StepFault::Format(fault) => fault.number(),
            StepFault::Reading(fault) => fault.number(),
            StepFault::Shape(fault) => fault.number(),
            StepFault::Map(fault) => fault.number(),
        }
    }
}

impl JournalFault {
    /// What the line of the record says of the fault.
    pub fn report(self) -> Report
        ensures value { result ≡ fault_report self.fault }
    {
        let number = self.fault.number();
        match self.fault {
            StepFault::Format(_) => Report::Stopped { number },
            _ => Report::Refused { number },
        }
    }
}
