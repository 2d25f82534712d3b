//! Why a text writes no journal.
ghost use Rattle.std.specs.Prelude.{◌≡◌, Some};
ghost use Rattle.pamtext.specs.declared.fault.TextFault.TheVariants.{NoMemory};
ghost use Rattle.pamtext.specs.Faults.{fault_text};

use std::alloc::AllocError;
use std::error::Error;
use std::fmt;

/// A line, by its number from 1, that is no record; or too little memory for the journal.
#[derive(Clone, Copy, PartialEq, Eq, Debug)]
pub enum TextFault {
    Line(u64),
    NoMemory,
}

impl From<AllocError> for TextFault {
    ghost from_gives = { λ e r. r ≡ NoMemory };

    fn from(_fault: AllocError) -> TextFault {
        TextFault::NoMemory
    }
}

impl fmt::Display for TextFault {
    ghost output = { λ fault. Some (fault_text fault) };

    fn fmt<W: fmt::Write>(&self, f: &mut fmt::Formatter<W>) -> fmt::Result {
        match self {
            TextFault::Line(number) => write!(f, "line {number}: not a record"),
            TextFault::NoMemory => f.write_str("too little memory"),
        }
    }
}

impl Error for TextFault {}
