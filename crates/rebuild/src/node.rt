//! The tree as boxed nodes, and the insertion of one reading by recursion.
ghost use Rattle.std.specs.Prelude.{◌≡◌, IfOk};
ghost use Rattle.place.specs.Boxes.{prefix, holds, smallest, half, point};
ghost use Rattle.quadtreap.specs.Tree.{leaf, insert, extent, box_in, outer};
ghost use Rattle.place.specs.Values.{box_of};
ghost use Rattle.rebuild.specs.Trees.{cell_of, reading_of, content_of, inner_of, tree};

use place::PlaceBox;
use quadtreap::Rank;
use replay::Weighed;
use std::alloc::{AllocError, Global};

/// A live reading: its rank, which is its priority and its code, and its tally.
#[derive(Clone, Copy)]
pub struct Live {
    pub rank: Rank,
    pub tally: Weighed,
}

/// The outer box of a node, by its two numbers. No `PlaceBox`, since a half of the box of one code is 33 deep: a tree has
/// none where the codes of its readings differ, and no call needs to know that they do.
#[derive(Clone, Copy)]
pub struct Cell {
    pub depth: u8,
    pub code: u32,
}

/// What a leaf holds: a reading, or an inner box.
#[derive(Clone, Copy)]
pub(crate) enum Content {
    Reading(Live),
    Box(PlaceBox),
}

/// The two kinds of node that have children.
#[derive(Clone, Copy)]
pub(crate) enum Kind {
    Shrink,
    Split,
}

/// A node, with the nodes below it.
#[derive(Drop)]
pub(crate) enum Node {
    Leaf(Cell, Content),
    Inner(Kind, Cell, Option<PlaceBox>, Box<Node>, Box<Node>),
}

/// The most significant bits of a code, as many as asked for.
#[tactic(auto, unfolding(place::specs::Boxes::prefix))]
fn prefix(depth: u8, code: u32) -> u64
    ensures value { result ≡ prefix depth code }
{
    u64::from(code) >> (32 - depth.min(32))
}

impl Cell {
    /// Whether a code lies in the box.
    #[tactic(auto, unfolding(place::specs::Boxes::holds))]
    fn holds(self, code: u32) -> bool
        ensures value { result ≡ holds (cell_of self) code }
    {
        prefix(self.depth, code) == prefix(self.depth, self.code)
    }

    /// The half of a box that contains a code.
    fn half(whole: PlaceBox, code: u32) -> Cell
        ensures value { cell_of result ≡ half (box_of whole) (point code) }
    {
        let depth = whole.depth + 1;
        Cell {
            depth,
            code: PlaceBox::new(depth, code).code,
        }
    }
}

impl Content {
    /// The smallest box of what a leaf holds and a code.
    fn smallest(self, code: u32) -> PlaceBox
        ensures value { box_of result ≡ smallest (extent (content_of self)) (point code) }
    {
        match self {
            Content::Reading(live) => PlaceBox::smallest_of(live.rank.code, code),
            Content::Box(inner) => inner.smallest(code),
        }
    }

    /// The code of the box of what a leaf holds.
    fn code(self) -> u32
        ensures value { result ≡ (extent (content_of self)).code }
    {
        match self {
            Content::Reading(live) => live.rank.code,
            Content::Box(inner) => inner.code,
        }
    }

    /// The inner box that a leaf holds, if it holds one.
    fn inner(self) -> Option<PlaceBox>
        ensures value { inner_of result ≡ box_in (content_of self) }
    {
        match self {
            Content::Reading(_) => None,
            Content::Box(inner) => Some(inner),
        }
    }
}

/// The leaf with an outer box and a content, on the heap.
fn leaf(heap: Global, outer: Cell, content: Content) -> Result<Box<Node>, AllocError>
    ensures value { IfOk result (λ b. tree b.value ≡ leaf (cell_of outer) (content_of content)) }
{
    Ok(Box::new(heap, Node::Leaf(outer, content))?)
}

/// What a leaf becomes where a reading falls into it.
fn plant(heap: Global, outer: Cell, content: Content, new: Live) -> Result<Node, AllocError>
    ensures value { IfOk result (λ n. tree n ≡ insert (leaf (cell_of outer) (content_of content)) (reading_of new)) }
{
    let whole = content.smallest(new.rank.code);
    let cell = Cell {
        depth: whole.depth,
        code: whole.code,
    };
    let inner = content.inner();
    let left = leaf(heap, Cell::half(whole, content.code()), content)?;
    let right = leaf(
        heap,
        Cell::half(whole, new.rank.code),
        Content::Reading(new),
    )?;
    let outside = leaf(heap, outer, Content::Box(whole))?;
    let split = Box::new(heap, Node::Inner(Kind::Split, cell, inner, left, right))?;
    Ok(Node::Inner(Kind::Shrink, outer, inner, split, outside))
}

impl Node {
    /// The outer box.
    pub(crate) fn outer(&self) -> Cell
        ensures value { cell_of result ≡ outer (tree self.now) }
    {
        match self {
            Node::Leaf(cell, _) => *cell,
            Node::Inner(_, cell, _, _, _) => *cell,
        }
    }

    /// Inserts a reading at the leaf that it falls into.
    pub(crate) fn insert(self, heap: Global, new: Live) -> Result<Node, AllocError>
        ensures value { IfOk result (λ n. tree n ≡ insert (tree self) (reading_of new)) }
    {
        match self {
            Node::Leaf(outer, content) => plant(heap, outer, content, new),
            Node::Inner(kind, outer, inner, first, second) => {
                if first.outer().holds(new.rank.code) {
                    let first = Box::into_inner(first).insert(heap, new)?;
                    let first = Box::new(heap, first)?;
                    Ok(Node::Inner(kind, outer, inner, first, second))
                } else {
                    let second = Box::into_inner(second).insert(heap, new)?;
                    let second = Box::new(heap, second)?;
                    Ok(Node::Inner(kind, outer, inner, first, second))
                }
            }
        }
    }
}
