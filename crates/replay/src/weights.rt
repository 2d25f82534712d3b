//! The tally of a journal: the sum of the weights beside the span of the times.
ghost use Rattle.std.specs.Prelude.{◌≡◌};
ghost use Rattle.replay.specs.Weights.{weighed};

use tally::{Pair, Span, Sum};

/// A sum of weights beside the span of their times.
pub type Weighed = Pair<Sum, Span>;

/// The tally of one weight at one time.
pub fn weigh(weight: u32, time: u32) -> Weighed
    ensures value { result ≡ weighed weight time }
{
    Pair {
        first: Sum::of(u64::from(weight)),
        second: Span::at(time),
    }
}
