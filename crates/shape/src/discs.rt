//! The calls on discs. Squares decide, and no root is ever taken.
ghost use Rattle.std.specs.Prelude.{◌≡◌, ◌+◌, ◌*◌, ◌≤◌};
ghost use Rattle.crossing.specs.Regions.{crossings};
ghost use Rattle.crossing.specs.Discs.{gap_to, reach_to, added, crossing_sum};
ghost use Rattle.shape.specs.Shapes.{disc_inner, disc_outer, DiscMade};
ghost use Rattle.shape.specs.DiscTests.{within_more};

use crate::disc::Disc;
use crate::fault::ShapeFault;
use crate::shapes::Shape;
use place::{Interval, Place, PlaceBox, Rectangle};

const LARGEST_RADIUS: u32 = 100000;

/// How far a count is from the nearest count of an interval.
fn gap(count: u16, counts: Interval) -> u16
    ensures value { result ≡ gap_to count counts.lowest counts.highest }
{
    count.abs_diff(count.clamp(counts.lowest, counts.highest))
}

/// How far a count is from the farthest count of an interval.
fn reach(count: u16, counts: Interval) -> u16
    ensures value { result ≡ reach_to count counts.lowest counts.highest }
{
    let below = count.saturating_sub(counts.lowest);
    let above = counts.highest.saturating_sub(count);
    below.max(above)
}

/// The square of a radius, which 64 bits have room for.
fn square(radius: u32) -> u64
    ensures value { result ≡ radius * radius }
{
    u64::from(radius) * u64::from(radius)
}

/// The square of the distance that is `motor` along one axis and `root` along the other.
fn distance_squared(motor: u16, root: u16) -> u64
    ensures value { result ≡ motor * motor + root * root }
{
    square(u32::from(motor)) + square(u32::from(root))
}

/// What the boxes of a depth add to a crossing sum.
fn added_at(depth: u8, radius: u64, gap: u64) -> u64
    requires depths { depth ≤ 32 }
    requires radii { radius ≤ 100000 }
    requires gaps { gap ≤ 100000 }
    ensures value { result ≡ added radius gap depth }
    ensures bound { result ≤ 200002 * 200002 }
{
    let level = PlaceBox::new(depth, 0);
    let a = level.motor_side() as u64;
    let b = level.root_side() as u64;
    if gap * gap < (a - 1) * (a - 1) + (b - 1) * (b - 1) {
        (2 * radius / a + 2) * (2 * radius / b + 2)
    } else {
        0
    }
}

impl Disc {
    /// The disc with a centre, an inner and an outer radius.
    pub fn new(centre: Place, inner_radius: u32, outer_radius: u32) -> Result<Disc, ShapeFault>
        ensures value { DiscMade centre inner_radius outer_radius result }
    {
        if outer_radius > LARGEST_RADIUS {
            return Err(ShapeFault::OuterRadiusTooLarge);
        }
        if inner_radius > outer_radius {
            return Err(ShapeFault::InnerRadiusAboveOuter);
        }
        Ok(Disc {
            centre,
            inner_radius,
            outer_radius,
        })
    }

    /// The crossing sum: a bound on how many boxes cross the disc.
    pub fn crossing_sum(&self) -> u64
        ensures value { result ≡ crossing_sum self.now.inner_radius self.now.outer_radius }
        ensures bound { crossings (disc_inner self.now) (disc_outer self.now) ≤ result }
    {
        let radius = u64::from(self.inner_radius);
        let gap = u64::from(self.outer_radius) - radius;
        // Up to 33 and not through 32, since the library has no lemma on the items of an inclusive range.
        (0..33).map(|depth| added_at(depth, radius, gap)).sum()
    }
}

impl Shape for Disc {
    ghost inner = { disc_inner };

    ghost outer = { disc_outer };

    ghost nested = { λ s m r _ _ e. within_more s.centre.motor s.centre.root s.inner_radius s.outer_radius m r s.nested e };

    #[tactic(auto, using(crossing::proofs::DiscLaws::disc_misses))]
    fn misses(&self, region: Rectangle) -> bool {
        let motor = gap(self.centre.motor, region.motors);
        let root = gap(self.centre.root, region.roots);
        square(self.inner_radius) < distance_squared(motor, root)
    }

    #[tactic(auto, using(crossing::proofs::DiscLaws::disc_holds))]
    fn held(&self, region: Rectangle) -> bool {
        let motor = reach(self.centre.motor, region.motors);
        let root = reach(self.centre.root, region.roots);
        distance_squared(motor, root) <= square(self.outer_radius)
    }

    #[tactic(auto, unfolding(crossing::specs::Discs::within))]
    fn has(&self, place: Place) -> bool {
        let motor = place.motor.abs_diff(self.centre.motor);
        let root = place.root.abs_diff(self.centre.root);
        distance_squared(motor, root) <= square(self.inner_radius)
    }
}
