//! The disc value, apart from its calls, since its invariant may cite no definition that names it.
ghost use Rattle.std.specs.Prelude.{◌≤◌};

use place::Place;

/// A centre and two radii, the inner at most the outer and that at most 100000.
#[derive(Clone, Copy, Drop)]
pub struct Disc {
    pub centre: Place,
    pub inner_radius: u32,
    pub outer_radius: u32,
    ghost nested: { inner_radius ≤ outer_radius },
    ghost limit: { outer_radius ≤ 100000 },
}
