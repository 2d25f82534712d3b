ghost use Rattle.tally.specs.Pairs.{pair_neutral, pair_joined};
ghost use Rattle.tally.specs.PairsLemmas.{pair_commutative, pair_associative, pair_neutral_left};

use crate::kind::Tally;

/// Two tallies that are kept side by side, as one.
#[derive(Clone, Copy, PartialEq, Eq, Debug)]
pub struct Pair<A, B> {
    pub first: A,
    pub second: B,
}

impl<A: Tally, B: Tally> Tally for Pair<A, B> {
    ghost neutral = { pair_neutral A.Tally.neutral B.Tally.neutral };

    ghost joined = { pair_joined A.Tally.joined B.Tally.joined };

    ghost commutative = { pair_commutative A.Tally.neutral A.Tally.joined B.Tally.neutral B.Tally.joined A.Tally.commutative B.Tally.commutative };

    ghost associative = { pair_associative A.Tally.neutral A.Tally.joined B.Tally.neutral B.Tally.joined A.Tally.associative B.Tally.associative };

    ghost neutral_left = { pair_neutral_left A.Tally.neutral A.Tally.joined B.Tally.neutral B.Tally.joined A.Tally.neutral_left B.Tally.neutral_left };

    fn neutral_value() -> Self {
        Pair {
            first: A::neutral_value(),
            second: B::neutral_value(),
        }
    }

    fn join(self, other: Self) -> Self {
        Pair {
            first: self.first.join(other.first),
            second: self.second.join(other.second),
        }
    }
}
