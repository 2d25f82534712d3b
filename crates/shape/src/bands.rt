//! The calls on bands.
ghost use Rattle.shape.specs.Shapes.{band_inner, band_outer, BandMade};
ghost use Rattle.shape.specs.BandLemmas.{inner_in_outer};

use crate::band::Band;
use crate::fault::ShapeFault;
use crate::shapes::Shape;
use place::{Interval, Place, Rectangle};

impl Band {
    /// The band with the ends of its rectangle and a margin. Plain numbers and no rectangle, since they may make none.
    pub fn new(
        lowest_motor: u16,
        highest_motor: u16,
        lowest_root: u16,
        highest_root: u16,
        margin: u16,
    ) -> Result<Band, ShapeFault>
        ensures value { BandMade lowest_motor highest_motor lowest_root highest_root margin result }
    {
        let motors = Interval::new(lowest_motor, highest_motor);
        let roots = Interval::new(lowest_root, highest_root);
        let rectangle = Rectangle {
            motors: motors.ok_or(ShapeFault::MotorEndsReversed)?,
            roots: roots.ok_or(ShapeFault::RootEndsReversed)?,
        };
        Ok(Band { rectangle, margin })
    }
}

impl Shape for Band {
    ghost inner = { band_inner };

    ghost outer = { band_outer };

    ghost nested = { inner_in_outer };

    #[tactic(auto, using(crate::proofs::BandTests::misses_by))]
    fn misses(&self, region: Rectangle) -> bool {
        !region.overlaps(self.rectangle)
    }

    #[tactic(auto, using(crate::proofs::BandTests::held_by, crate::proofs::BandTests::outer_is))]
    fn held(&self, region: Rectangle) -> bool {
        region.within(self.rectangle.widened(self.margin))
    }

    fn has(&self, place: Place) -> bool {
        self.rectangle.has(place)
    }
}
