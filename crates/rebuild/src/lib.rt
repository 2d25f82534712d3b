//! A second map, written another way: a list of the live readings, from which the tree is built anew for each question,
//! in boxed nodes, and walked by recursion. It has no tables, and shares no code with the map over two lent tables, so that
//! the printouts of the two can be compared.
#![tactic(auto)]

mod agreement;
mod build;
mod height;
mod node;
mod questions;
mod roll;
mod rolls;
mod runs;
mod steps;
mod walk;

pub use agreement::agree;
pub use roll::Roll;
pub use runs::run_with;
pub use steps::step;

#[cfg(test)]
mod tests;
