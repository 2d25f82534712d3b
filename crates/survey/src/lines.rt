//! How what was found is printed.
ghost use Rattle.std.specs.Prelude.{Some};
ghost use Rattle.survey.specs.Printed.{accepted_text, box_text};

use crate::sample::Accepted;
use place::Rectangle;
use std::fmt;

impl fmt::Display for Accepted {
    ghost output = { λ accepted. Some (accepted_text accepted) };

    fn fmt<W: fmt::Write>(&self, f: &mut fmt::Formatter<W>) -> fmt::Result {
        write!(f, "place {} {}", self.place.motor, self.place.root)?;
        write!(
            f,
            " code {} lag {} delay {}",
            self.code, self.lag, self.delay
        )
    }
}

/// The depth of a box and the rectangle of its places, to be printed.
#[derive(Clone, Copy)]
pub struct PrintedBox {
    pub depth: u8,
    pub places: Rectangle,
}

impl fmt::Display for PrintedBox {
    ghost output = { λ printed. Some (box_text printed) };

    fn fmt<W: fmt::Write>(&self, f: &mut fmt::Formatter<W>) -> fmt::Result {
        let Rectangle { motors, roots } = self.places;
        write!(
            f,
            "box depth {} motor {} to {}",
            self.depth, motors.lowest, motors.highest
        )?;
        write!(f, " root {} to {}", roots.lowest, roots.highest)
    }
}
