//! Numbers that are written in decimal.
ghost use Rattle.std.specs.Prelude.{◌≡◌, ◌≤◌, length, decimal};

use itoa::Integer;

/// A number of at most 64 bits that is never below zero.
pub(crate) trait Decimal: Integer {
    /// The number in 64 bits, which is written with the same digits.
    fn wide(self) -> u64
        ensures same { decimal result ≡ Self.text self }
        ensures short { length (decimal result) ≤ Self.MAX_STR_LEN };
}

impl Decimal for u8 {
    fn wide(self) -> u64 {
        u64::from(self)
    }
}

impl Decimal for u16 {
    fn wide(self) -> u64 {
        u64::from(self)
    }
}

impl Decimal for u32 {
    fn wide(self) -> u64 {
        u64::from(self)
    }
}

impl Decimal for u64 {
    fn wide(self) -> u64 {
        self
    }
}

/// How many digits a number has.
pub(crate) fn digits_in(n: u64) -> usize
    ensures value { result ≡ length (decimal n) }
{
    if n < 10 {
        return 1;
    }
    n.ilog10() as usize + 1
}
