ghost use Rattle.std.specs.Prelude.{◌≡◌};

/// A kind of plain values that are kept in a table and joined.
/// The laws hold for every value of the kind, so that a table may be joined in whatever order suits it.
pub trait Tally: Copy {
    ghost neutral: { Self };

    ghost joined: { Self → Self → Self };

    fn neutral_value() -> Self
        ensures value { result ≡ neutral };

    fn join(self, other: Self) -> Self
        ensures value { result ≡ joined self other };

    ghost commutative: { (x y : Self) → joined x y ≡ joined y x };

    ghost associative: { (x y z : Self) → joined (joined x y) z ≡ joined x (joined y z) };

    ghost neutral_left: { (x : Self) → joined neutral x ≡ x };
}
