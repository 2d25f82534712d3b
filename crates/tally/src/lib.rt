//! Kinds of tally: values that may be joined in any order and in any grouping.
#![tactic(auto)]

mod kind;
mod pair;
mod span;
mod sum;

pub use kind::Tally;
pub use pair::Pair;
pub use span::Span;
pub use sum::Sum;

#[cfg(test)]
mod tests;
