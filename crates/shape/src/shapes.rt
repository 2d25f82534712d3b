//! The trait of shapes.
ghost use Rattle.std.specs.Prelude.{◌≡◌, ℕ, ◌^◌, ◌<◌, Bool, true};
ghost use Rattle.place.specs.Values.{in_rectangle};
ghost use Rattle.crossing.specs.Regions.{misses as misses_places, held as holds_places};

use place::{Place, Rectangle};

/// Two sets of places, an inner one that is part of an outer one.
/// Each test is exact, changes nothing and never refuses.
pub trait Shape {
    ghost inner: { Self → ℕ → ℕ → Bool };

    ghost outer: { Self → ℕ → ℕ → Bool };

    /// Whether no place of a rectangle is in the inner set.
    fn misses(&self, region: Rectangle) -> bool
        ensures { result ≡ misses_places (in_rectangle region) (inner self.now) };

    /// Whether every place of a rectangle is in the outer set.
    fn held(&self, region: Rectangle) -> bool
        ensures { result ≡ holds_places (in_rectangle region) (outer self.now) };

    /// Whether a place is in the inner set.
    fn has(&self, place: Place) -> bool
        ensures { result ≡ inner self.now place.motor place.root };

    ghost nested: { (s : Self) (m r : ℕ) → m < 2 ^ 16 → r < 2 ^ 16 → inner s m r ≡ true → outer s m r ≡ true };
}
