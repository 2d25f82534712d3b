//! Readings are taken in two halves, the motor first and then the root, so that neither is kept without the other.
#![tactic(auto)]

mod counts;
mod fault;
mod whole;

pub use counts::Counts;
pub use fault::ReadingFault;
pub use whole::WholeReading;
pub use whole::half::{HalfReading, one_answer, times_mean};

#[cfg(test)]
mod tests;
