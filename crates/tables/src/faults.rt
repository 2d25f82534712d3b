//! The numbers of the refusals.
ghost use Rattle.std.specs.Prelude.{◌≡◌};
ghost use Rattle.tables.specs.Calls.{fault_number};

use crate::fault::MapFault;

impl MapFault {
    /// The number by which the refusal is reported.
    /// It is a call of its own and no `From`, so that no refusal becomes a number unseen.
    pub fn number(self) -> u8
        ensures value { result ≡ fault_number self }
    {
        match self {
            MapFault::Taken => 7,
            MapFault::Full => 8,
            MapFault::Absent => 9,
        }
    }
}
