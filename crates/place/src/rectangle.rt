//! Rectangles of places.
ghost use Rattle.std.specs.Prelude.{◌≡◌, ◌&&◌};
ghost use Rattle.place.specs.Values.{overlap, inside, Widened, in_rectangle, Made};

use crate::interval::Interval;
use crate::place::Place;

/// The places whose motor count is in one interval and whose root count is in another.
/// It is never empty, since no interval is.
#[derive(Clone, Copy, PartialEq, Eq, Debug, Drop)]
pub struct Rectangle {
    pub motors: Interval,
    pub roots: Interval,
}

impl Rectangle {
    /// The rectangle with four ends, or none where a lowest end is above its highest. Four numbers and no intervals, since
    /// they may make none.
    pub fn new(
        lowest_motor: u16,
        highest_motor: u16,
        lowest_root: u16,
        highest_root: u16,
    ) -> Option<Rectangle>
        ensures value { Made lowest_motor highest_motor lowest_root highest_root result }
    {
        Some(Rectangle {
            motors: Interval::new(lowest_motor, highest_motor)?,
            roots: Interval::new(lowest_root, highest_root)?,
        })
    }

    /// Whether a place is in the rectangle.
    pub fn has(self, place: Place) -> bool
        ensures value { result ≡ in_rectangle self place.motor place.root }
    {
        self.motors.has(place.motor) && self.roots.has(place.root)
    }

    /// Whether the two rectangles have a place in common.
    pub fn overlaps(self, other: Rectangle) -> bool
        ensures value { result ≡ (overlap self.motors other.motors && overlap self.roots other.roots) }
    {
        self.motors.overlaps(other.motors) && self.roots.overlaps(other.roots)
    }

    /// Whether the rectangle lies within another.
    pub fn within(self, outer: Rectangle) -> bool
        ensures value { result ≡ (inside self.motors outer.motors && inside self.roots outer.roots) }
    {
        self.motors.within(outer.motors) && self.roots.within(outer.roots)
    }

    /// The rectangle widened by a margin on each side, stopping at 0 and 65535.
    pub fn widened(self, margin: u16) -> Rectangle
        ensures value { Widened self.motors margin result.motors × Widened self.roots margin result.roots }
    {
        Rectangle {
            motors: self.motors.widened(margin),
            roots: self.roots.widened(margin),
        }
    }
}
