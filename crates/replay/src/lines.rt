//! The line of a record, by its answer.
ghost use Rattle.std.specs.Prelude.{◌≡◌, ◌++◌, is_ok, if◌then◌else◌};
ghost use Rattle.journal.specs.Lines.{printed};
ghost use Rattle.journal.specs.Padded.{Holds};
ghost use Rattle.replay.specs.Faults.{fault_report};
ghost use Rattle.replay.specs.Lines.{numbered as with_number, line_text};

use crate::fault::{JournalFault, StepFault};
use journal::{Line, Report, line_of};
use std::alloc::AllocError;

/// The answer of the record with a number. Its fault is held whole beside the number.
pub fn numbered(record: u32, answer: Result<Report, StepFault>) -> Result<Report, JournalFault>
    ensures value { result ≡ with_number «record» answer }
{
    answer.map_err(|fault| JournalFault { record, fault })
}

impl JournalFault {
    /// The line of the record that the fault is of.
    pub fn line(self) -> Line
        ensures value { Holds 96 result.bytes result.len (printed self.«record» (fault_report self.fault)) }
    {
        line_of(self.record, self.report())
    }
}

/// The line of the record with a number.
pub fn line(record: u32, answer: Result<Report, JournalFault>) -> Line
    ensures value { Holds 96 result.bytes result.len (line_text «record» answer) }
{
    match answer {
        Ok(report) => line_of(record, report),
        Err(fault) => fault.line(),
    }
}

/// Writes the line of a record after those before it.
pub fn put_line(
    out: &mut Vec<u8>,
    record: u32,
    answer: Result<Report, JournalFault>,
) -> Result<(), AllocError>
    ensures items { out.new.items ≡ (if is_ok result then out.old.items ++ line_text «record» answer else out.old.items) }
{
    out.extend_from_slice(line(record, answer).as_bytes())
}
