//! The walk over the tree that tallies a shape, by recursion.
ghost use Rattle.std.specs.Prelude.{◌≡◌, ◌+◌, min, ◌^◌, ◌<◌};
ghost use Rattle.place.specs.Boxes.{cut};
ghost use Rattle.place.specs.Values.{Covers};
ghost use Rattle.quadtreap.specs.Tree.{nodes};
ghost use Rattle.quadtreap.specs.Walk.{answer, both, tally_of, taken, walk};
ghost use Rattle.tables.specs.Walks.{numbered};
ghost use Rattle.replay.specs.Weights.{joined, neutral};
ghost use Rattle.rebuild.specs.Trees.{cell_of, content_of, tree};

use crate::node::{Cell, Content, Node};
use place::{Place, PlaceBox, Rectangle};
use replay::Weighed;
use shape::Shape;
use tables::Tallied;
use tally::Tally;

impl Cell {
    /// The rectangle of the box.
    fn rectangle(self) -> Rectangle
        ensures covers { Covers (cut (min self.depth 32) self.code) result }
    {
        PlaceBox::new(self.depth, self.code).rectangle()
    }

    /// Whether no place of the box is in the inner set of a shape.
    #[tactic(auto, using(crossing::proofs::RegionLaws::misses_same))]
    fn misses<S: Shape>(self, shape: &S) -> bool
        ensures value { result ≡ (numbered (S.Shape.inner shape.now) (S.Shape.outer shape.now)).misses (cell_of self) }
    {
        shape.misses(self.rectangle())
    }

    /// Whether every place of the box is in the outer set of a shape.
    #[tactic(auto, using(crossing::proofs::RegionLaws::held_same))]
    fn held<S: Shape>(self, shape: &S) -> bool
        ensures value { result ≡ (numbered (S.Shape.inner shape.now) (S.Shape.outer shape.now)).held (cell_of self) }
    {
        shape.held(self.rectangle())
    }
}

impl Content {
    /// The tally of what a leaf holds, if that is a reading whose place is in the inner set.
    fn taken<S: Shape>(self, shape: &S) -> Weighed
        ensures value { result ≡ taken neutral (numbered (S.Shape.inner shape.now) (S.Shape.outer shape.now)) (content_of self) }
    {
        match self {
            Content::Reading(live) if shape.has(Place::of_code(live.rank.code)) => live.tally,
            _ => Weighed::neutral_value(),
        }
    }
}

impl Node {
    /// The tallies of the readings under the node, joined.
    fn total(&self) -> Weighed
        ensures value { result ≡ tally_of joined neutral (tree self.now) }
    {
        match self {
            Node::Leaf(_, Content::Reading(live)) => live.tally,
            Node::Leaf(_, Content::Box(_)) => Weighed::neutral_value(),
            Node::Inner(_, _, _, first, second) => first.total().join(second.total()),
        }
    }
}

/// The answer of a node that is expanded, from those of its two children.
fn both(first: Tallied<Weighed>, second: Tallied<Weighed>) -> Tallied<Weighed>
    requires few { first.expanded + second.expanded + 1 < 2 ^ 32 }
    ensures value { answer result.tally result.expanded ≡ both joined (answer first.tally first.expanded) (answer second.tally second.expanded) }
{
    Tallied {
        tally: first.tally.join(second.tally),
        expanded: first.expanded + second.expanded + 1,
    }
}

impl Node {
    /// What the walk from the node finds: nothing where its box misses the shape, its tally where the box is held, and else
    /// what is found below it.
    #[tactic(auto, using(crate::proofs::NodeLaws::nodes_joined, crate::proofs::NodeLaws::nodes_some))]
    pub(crate) fn walk<S: Shape>(&self, shape: &S) -> Tallied<Weighed>
        requires few { nodes (tree self.now) < 2 ^ 16 }
        ensures bound { result.expanded < nodes (tree self.now) }
        ensures value { answer result.tally result.expanded ≡ walk joined neutral (numbered (S.Shape.inner shape.now) (S.Shape.outer shape.now)) (tree self.now) }
    {
        let cell = self.outer();
        if cell.misses(shape) {
            return Tallied {
                tally: Weighed::neutral_value(),
                expanded: 0,
            };
        }
        if cell.held(shape) {
            return Tallied {
                tally: self.total(),
                expanded: 0,
            };
        }
        match self {
            Node::Leaf(_, content) => Tallied {
                tally: content.taken(shape),
                expanded: 0,
            },
            Node::Inner(_, _, _, first, second) => both(first.walk(shape), second.walk(shape)),
        }
    }
}
