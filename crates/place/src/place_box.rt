//! The box value, apart from its calls, since its invariant may cite no definition that names it.
ghost use Rattle.std.specs.Prelude.{◌≡◌, ◌-◌, ◌%◌, ◌^◌, ◌<◌, ◌≤◌};

/// The set of all places whose codes share their `depth` most significant bits with `code`.
/// A box value always has zeros below its depth.
#[derive(Clone, Copy, PartialEq, Eq, Debug, Drop)]
pub struct PlaceBox {
    pub depth: u8,
    pub code: u32,
    ghost deep: { depth ≤ 32 },
    ghost clear: { code % 2 ^ (32 - depth) ≡ 0 },
    ghost fits: { code < 2 ^ 32 },
}
