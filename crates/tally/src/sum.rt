ghost use Rattle.std.specs.Prelude.{◌^◌, ◌<◌};

pub mod calls;

/// A number that counts modulo 2 ^ 64, so that joining never refuses.
#[derive(Clone, Copy, PartialEq, Eq, Debug)]
pub struct Sum {
    value: u64,
    ghost fits: { value < 2 ^ 64 },
}
