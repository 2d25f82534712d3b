//! Where a walk over the tables is, and what it has found.

/// How a walk takes a node: it is passed over, or taken whole, or gone into. A node whose box misses the shape is missed, and
/// one whose box is held is held. Where the box crosses, a reading counts as held or as missed by its own place, an inner
/// box as missed, and any other node crosses.
#[derive(Clone, Copy, PartialEq, Eq, Debug)]
pub enum Sight {
    Misses,
    Held,
    Crosses,
}

/// Where a walk is: it has come down to a node, it goes back from a node that it is done with, or it is finished.
#[derive(Clone, Copy, PartialEq, Eq, Debug)]
pub enum Position {
    Down(u16),
    Back(u16),
    Finished,
}

/// A tally, and how many nodes were expanded for it.
#[derive(Clone, Copy, PartialEq, Eq, Debug)]
pub struct Tallied<K> {
    pub tally: K,
    pub expanded: u32,
}

/// Where a walk is, and what it has found so far.
#[derive(Clone, Copy, PartialEq, Eq, Debug)]
pub struct Spot<K> {
    pub position: Position,
    pub found: Tallied<K>,
}
