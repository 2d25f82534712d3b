//! The questions, each asked of a tree that is built anew.
ghost use Rattle.std.specs.Prelude.{◌≡◌, IfOk};
ghost use Rattle.quadtreap.specs.Tree.{tree_of, map_height};
ghost use Rattle.quadtreap.specs.Rank.{Valid};
ghost use Rattle.quadtreap.specs.Walk.{answer, asked, map_walk};
ghost use Rattle.replay.specs.Weights.{joined, neutral};
ghost use Rattle.rebuild.specs.Rolls.{readings};

use crate::build::build;
use crate::roll::Roll;
use replay::Weighed;
use shape::Shape;
use std::alloc::{AllocError, Global};
use tables::Tallied;
use tally::Tally;

impl Roll {
    /// The height of the tree, 0 where no reading is live.
    #[tactic(auto, using(crate::proofs::QuestionLaws::few_nodes))]
    pub fn height(&self, heap: Global) -> Result<u16, AllocError>
        ensures value { IfOk result (λ h. h ≡ map_height (tree_of (readings self.now))) }
    {
        match build(heap, &self.live)? {
            Some(root) => Ok(root.height()),
            None => Ok(0),
        }
    }

    /// The tally of a shape, neutral where no reading is live, with how many nodes the walk expanded.
    #[tactic(auto, using(crate::proofs::QuestionLaws::few_nodes, crate::proofs::QuestionLaws::same_walk))]
    pub fn tally<S: Shape>(&self, heap: Global, shape: &S) -> Result<Tallied<Weighed>, AllocError>
        ensures value { IfOk result (λ t. Valid (readings self.now) → answer t.tally t.expanded ≡ map_walk joined neutral (asked (S.Shape.inner shape.now) (S.Shape.outer shape.now)) (tree_of (readings self.now))) }
    {
        match build(heap, &self.live)? {
            Some(root) => Ok(root.walk(shape)),
            None => Ok(Tallied {
                tally: Weighed::neutral_value(),
                expanded: 0,
            }),
        }
    }
}
