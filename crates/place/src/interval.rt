//! The interval value, apart from its calls, since its invariant may cite no definition that names it.
ghost use Rattle.std.specs.Prelude.{◌^◌, ◌<◌, ◌≤◌};

/// The counts from a lowest to a highest, never empty.
#[derive(Clone, Copy, PartialEq, Eq, Debug, Drop)]
pub struct Interval {
    pub lowest: u16,
    pub highest: u16,
    ghost ends: { lowest ≤ highest },
    ghost fits: { highest < 2 ^ 16 },
}
