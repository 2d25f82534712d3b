//! The tree of a list of readings, built anew by insertion in order.
ghost use Rattle.std.specs.Prelude.{◌≡◌, IfOk, map};
ghost use Rattle.quadtreap.specs.Tree.{tree_of};
ghost use Rattle.rebuild.specs.Trees.{reading_of, tree_in};

use crate::node::{Cell, Content, Live, Node};
use std::alloc::{AllocError, Global};

/// The outer box of the root: the whole square.
const WHOLE: Cell = Cell { depth: 0, code: 0 };

/// The tree of some readings in order, none for no reading.
pub(crate) fn build(heap: Global, readings: &[Live]) -> Result<Option<Node>, AllocError>
    ensures value { IfOk result (λ t. tree_in t ≡ tree_of (map reading_of readings.now)) }
{
    let Some((first, others)) = readings.split_first() else {
        return Ok(None);
    };
    let mut root = Node::Leaf(WHOLE, Content::Reading(*first));
    for reading in others {
        root = root.insert(heap, *reading)?;
    }
    Ok(Some(root))
}
