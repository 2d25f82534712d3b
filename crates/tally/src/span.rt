ghost use Rattle.std.specs.Prelude.{◌≡◌};
ghost use Rattle.tally.specs.Spans.{times_in, earliest, latest, lesser, greater, span_joined};
ghost use Rattle.tally.specs.declared.span.Span.TheVariants.{Empty, Times};
ghost use Rattle.tally.specs.SpansLemmas.{join_commutative, join_associative, empty_joined};

use crate::kind::Tally;

/// Two times in either order, or none: the first is the lesser of the two and the last is the greater.
/// An enum of its own and no `Option` of a pair, so that each case has its name wherever a span is made or read.
#[derive(Clone, Copy, PartialEq, Eq, Debug)]
pub enum Span {
    Empty,
    Times(u32, u32),
}

impl Span {
    /// The span of two times, in either order: two calls with names and no `From`, since a number alone does not say that it is a time.
    pub fn of(one: u32, other: u32) -> Span
        ensures value { result ≡ Times one other }
    {
        Span::Times(one, other)
    }

    /// The span of one time.
    pub fn at(time: u32) -> Span
        ensures value { result ≡ Times time time }
    {
        Span::Times(time, time)
    }

    /// The first and the last time, or none where the span is empty.
    pub fn times(&self) -> Option<(u32, u32)>
        ensures value { result ≡ times_in self.now }
    {
        match *self {
            Span::Empty => None,
            Span::Times(a, b) => Some((a.min(b), a.max(b))),
        }
    }

    pub fn first(&self) -> Option<u32>
        ensures value { result ≡ earliest self.now }
    {
        self.times().map(|(first, _)| first)
    }

    pub fn last(&self) -> Option<u32>
        ensures value { result ≡ latest self.now }
    {
        self.times().map(|(_, last)| last)
    }
}

impl Tally for Span {
    ghost neutral = { Empty };

    ghost joined = { span_joined };

    ghost commutative = { join_commutative };

    ghost associative = { join_associative };

    ghost neutral_left = { empty_joined };

    fn neutral_value() -> Self {
        Self::Empty
    }

    /// All four times are compared, since those of a span may stand in either order.
    fn join(self, other: Self) -> Self
        ensures value { result ≡ span_joined self other }
        ensures first { earliest result ≡ lesser (earliest self) (earliest other) }
        ensures last { latest result ≡ greater (latest self) (latest other) }
    {
        match (self, other) {
            (Span::Empty, span) | (span, Span::Empty) => span,
            (Span::Times(a, b), Span::Times(c, d)) => {
                Span::Times(a.min(b).min(c.min(d)), a.max(b).max(c.max(d)))
            }
        }
    }
}
