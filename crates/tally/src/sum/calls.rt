ghost use Rattle.std.specs.Prelude.{◌≡◌};
ghost use Rattle.tally.specs.Sums.{sum_of, zero_sum, sum_joined};
ghost use Rattle.tally.specs.SumsLemmas.{join_commutative, join_associative, zero_joined};

use super::Sum;
use crate::kind::Tally;

impl Sum {
    /// A number of 64 bits is its own remainder, so that the sum is that of the number.
    /// A call with a name and no `From`, since a number alone does not say that it is summed.
    #[tactic(auto, using(crate::specs::SumsLemmas::same_sum))]
    pub fn of(value: u64) -> Sum
        ensures value { result.value ≡ value }
        ensures sum { result ≡ sum_of value }
    {
        Sum { value }
    }

    pub fn value(&self) -> u64
        ensures value { result ≡ self.now.value }
    {
        self.value
    }
}

impl Tally for Sum {
    ghost neutral = { zero_sum };

    ghost joined = { sum_joined };

    ghost commutative = { join_commutative };

    ghost associative = { join_associative };

    ghost neutral_left = { zero_joined };

    fn neutral_value() -> Self {
        Sum::of(0)
    }

    fn join(self, other: Self) -> Self {
        Sum::of(self.value.wrapping_add(other.value))
    }
}
