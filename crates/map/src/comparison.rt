//! Two maps asked the same question, and the effort of a disc.
ghost use Rattle.std.specs.Prelude.{◌≡◌};
ghost use Rattle.quadtreap.specs.Walk.{answer};
ghost use Rattle.map.specs.Maps.{state_of, Lends};
ghost use Rattle.shape.specs.Shapes.{disc_inner, disc_outer};
ghost use Rattle.tables.specs.Heights.{Heights};
ghost use Rattle.tables.specs.Tallies.{Answers, SameAnswers, DiscEffort};

use crate::Map;
use shape::{Disc, Shape};
use tables::Tallied;
use tally::Tally;

/// What two maps answer to the same shape, and their heights. No struct of a tally with its height, since a height is no
/// answer to a shape.
#[derive(Clone, Copy)]
pub struct Compared<K> {
    pub first: Tallied<K>,
    pub second: Tallied<K>,
    pub first_height: u16,
    pub second_height: u16,
}

/// Asks two maps for the tally of the same shape and for their heights.
/// Maps whose live readings are alike answer the same, whatever calls each had and however long its tables are.
pub fn compare<'a, 'b, K: Tally, S: Shape>(
    first: &mut Map<'a, K>,
    second: &mut Map<'b, K>,
    shape: &S,
) -> Compared<K>
    ensures first_answers { Answers K.Tally.joined K.Tally.neutral (S.Shape.inner shape.now) (S.Shape.outer shape.now) (state_of first.old) (answer result.first.tally result.first.expanded) }
    ensures second_answers { Answers K.Tally.joined K.Tally.neutral (S.Shape.inner shape.now) (S.Shape.outer shape.now) (state_of second.old) (answer result.second.tally result.second.expanded) }
    ensures heights { Heights K.Tally.joined K.Tally.neutral (state_of first.old) result.first_height × Heights K.Tally.joined K.Tally.neutral (state_of second.old) result.second_height }
    ensures same_readings { SameAnswers K.Tally.joined K.Tally.neutral (state_of first.old) (state_of second.old) (answer result.first.tally result.first.expanded) (answer result.second.tally result.second.expanded) result.first_height result.second_height }
    ensures same { (state_of first.new ≡ state_of first.old) × (state_of second.new ≡ state_of second.old) }
    ensures lends { Lends first.old first.new × Lends second.old second.new }
{
    let one = first.tally(shape);
    let other = second.tally(shape);
    let first_height = first.height();
    let second_height = second.height();
    Compared {
        first: one,
        second: other,
        first_height,
        second_height,
    }
}

impl<'a, K: Tally> Map<'a, K> {
    /// The tally of a disc, which expands at most as many nodes as the height times the disc's crossing sum.
    pub fn tally_disc(&mut self, disc: &Disc) -> Tallied<K>
        ensures answers { Answers K.Tally.joined K.Tally.neutral (disc_inner disc.now) (disc_outer disc.now) (state_of self.old) (answer result.tally result.expanded) }
        ensures effort { DiscEffort K.Tally.joined K.Tally.neutral (state_of self.old) disc.now.inner_radius disc.now.outer_radius result.expanded }
        ensures same { state_of self.new ≡ state_of self.old }
        ensures lends { Lends self.old self.new }
    {
        self.tally(disc)
    }
}
