ghost use Rattle.std.specs.Prelude.{◌≡◌};
ghost use Rattle.reading.specs.Faults.{number};

/// Why a half reading was not completed.
#[derive(Clone, Copy, PartialEq, Eq, Debug)]
pub enum ReadingFault {
    Early,
    Late,
}

impl ReadingFault {
    /// The number under which the fault is reported.
    /// It is a call of its own and no `From`, so that no fault becomes a number unseen.
    pub fn number(self) -> u8
        ensures value { result ≡ number self }
    {
        match self {
            ReadingFault::Early => 1,
            ReadingFault::Late => 2,
        }
    }
}
