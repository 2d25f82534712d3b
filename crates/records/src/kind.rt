//! The kinds of nodes.
ghost use Rattle.std.specs.Prelude.{◌≡◌};
ghost use Rattle.records.specs.Kinds.{is_leaf};

/// What a node is: a leaf with a reading, a leaf with a box, a shrink node or a split node.
#[derive(Clone, Copy, PartialEq, Eq, Debug)]
pub enum Kind {
    Reading,
    Box,
    Shrink,
    Split,
}

impl Kind {
    /// Whether a node of the kind is a leaf.
    pub fn is_leaf(self) -> bool
        ensures value { result ≡ is_leaf self }
    {
        matches!(self, Kind::Reading | Kind::Box)
    }
}
