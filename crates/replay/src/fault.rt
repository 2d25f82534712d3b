//! Why a record of a journal is refused, with the fault below it held whole.
use journal::FormatFault;
use map::MapFault;
use reading::ReadingFault;
use shape::ShapeFault;

/// A fault of the bytes ends the run. After any other the next record is read.
#[derive(Clone, Copy)]
pub enum StepFault {
    Format(FormatFault),
    Reading(ReadingFault),
    Shape(ShapeFault),
    Map(MapFault),
}

/// The fault of a step, with the number of its record. The heading has the number 0.
#[derive(Clone, Copy)]
pub struct JournalFault {
    pub record: u32,
    pub fault: StepFault,
}
