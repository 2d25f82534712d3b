//! A journal replayed on a map: each record served, and the line that is printed of it.
#![tactic(auto)]

mod entries;
mod fault;
mod faults;
mod lines;
mod runs;
mod steps;
mod weights;

pub use entries::Entries;
pub use fault::{JournalFault, StepFault};
pub use lines::{line, numbered, put_line};
pub use runs::{one_printout, run, run_with};
pub use steps::{changed, step};
pub use weights::{Weighed, weigh};

#[cfg(test)]
mod tests;
