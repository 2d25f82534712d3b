//! The height of the tree, by recursion.
ghost use Rattle.std.specs.Prelude.{◌≡◌, ◌^◌, ◌<◌};
ghost use Rattle.quadtreap.specs.Tree.{nodes, height};
ghost use Rattle.rebuild.specs.Trees.{tree};

use crate::node::Node;

impl Node {
    /// How many nodes the longest way down from this one passes on to.
    #[tactic(auto, using(crate::proofs::NodeLaws::nodes_joined, crate::proofs::NodeLaws::height_joined, crate::proofs::NodeLaws::height_few))]
    pub(crate) fn height(&self) -> u16
        requires few { nodes (tree self.now) < 2 ^ 16 }
        ensures value { result ≡ height (tree self.now) }
    {
        match self {
            Node::Leaf(_, _) => 0,
            Node::Inner(_, _, _, first, second) => first.height().max(second.height()) + 1,
        }
    }
}
