//! Why the bytes of a journal are refused.
ghost use Rattle.std.specs.Prelude.{◌≡◌};
ghost use Rattle.journal.specs.Faults.{fault_number};

/// The first three are faults of the heading, the last two of a record. Each of them ends the run.
#[derive(Clone, Copy, PartialEq, Eq, Debug)]
pub enum FormatFault {
    TooLong,
    WrongMark,
    WrongVersion,
    UnknownLetter,
    CutShort,
}

impl FormatFault {
    /// The number under which the fault is reported.
    /// It is a call of its own and no `From`, so that no fault becomes a number unseen.
    pub fn number(self) -> u8
        ensures value { result ≡ fault_number self }
    {
        match self {
            FormatFault::TooLong => 10,
            FormatFault::WrongMark => 11,
            FormatFault::WrongVersion => 12,
            FormatFault::UnknownLetter => 13,
            FormatFault::CutShort => 14,
        }
    }
}
