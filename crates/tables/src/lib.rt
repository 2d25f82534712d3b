//! What the two tables of a map hold: calls, the roll, the states that calls lead to, and the walk. Definitions
//! and theorems, and the few types that they speak of.
#![tactic(auto)]

mod fault;
mod faults;
mod walk;

pub use fault::MapFault;
pub use walk::{Position, Sight, Spot, Tallied};
