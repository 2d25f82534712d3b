//! The record of a node.
ghost use Rattle.std.specs.Prelude.{◌≡◌};
ghost use Rattle.place.specs.Boxes.{point, holds as holds_code, smallest as smallest_of};
ghost use Rattle.place.specs.Values.{box_of as box_in};
ghost use Rattle.quadtreap.specs.Rank.{earlier};
ghost use Rattle.records.specs.PlacedNodes.{numbers_of};
ghost use Rattle.records.specs.Writes.{box_of, half_numbers, content_numbers, with_first, with_second, with_parent, with_outer, with_inner, with_rank, leaf_record, node_record};

use crate::kind::Kind;
use place::PlaceBox;
use quadtreap::{Rank, UNRANKED};

/// No node: the children that a leaf names.
pub const NONE: u16 = 65535;

/// The depth and the code of a box. No box value of crate place, since any two numbers may stand in a lent table.
#[derive(Clone, Copy)]
pub struct BoxNumbers {
    pub depth: u8,
    pub code: u32,
}

impl From<PlaceBox> for BoxNumbers {
    ghost from_gives = { λ given numbers. numbers ≡ numbers_of (box_in given) };

    fn from(given: PlaceBox) -> BoxNumbers {
        BoxNumbers {
            depth: given.depth,
            code: given.code,
        }
    }
}

impl BoxNumbers {
    /// The numbers of the half of a box that contains a code. The box of one code is its own half.
    pub fn half(whole: PlaceBox, code: u32) -> BoxNumbers
        ensures value { result ≡ half_numbers (box_in whole) code }
    {
        BoxNumbers::from(PlaceBox::new(whole.depth + 1, code))
    }

    /// Whether the box of the numbers contains a code.
    pub fn holds(self, code: u32) -> bool
        ensures value { result ≡ holds_code (box_of self) code }
    {
        PlaceBox::new(self.depth, self.code).holds(code)
    }

    /// The smallest box of the box of the numbers and a code.
    pub fn smallest(self, code: u32) -> PlaceBox
        ensures value { box_in result ≡ smallest_of (box_of self) (point code) }
    {
        PlaceBox::new(self.depth, self.code).smallest(code)
    }
}

/// What the table has of one node, all plain: any values are a record. The rank of a reading is its own priority and code.
#[derive(Clone, Copy)]
pub struct Record {
    pub kind: Kind,
    pub outer: BoxNumbers,
    pub inner: Option<BoxNumbers>,
    // The children are plain places: those of a node are read and written without asking, and those of a leaf are never read.
    pub first: u16,
    pub second: u16,
    pub parent: Option<u16>,
    pub rank: Rank,
}

impl Record {
    /// The record of a leaf.
    pub fn leaf(
        kind: Kind,
        outer: BoxNumbers,
        inner: Option<BoxNumbers>,
        parent: Option<u16>,
        rank: Rank,
    ) -> Record
        ensures value { result ≡ leaf_record kind outer inner parent rank }
    {
        Record {
            kind,
            outer,
            inner,
            first: NONE,
            second: NONE,
            parent,
            rank,
        }
    }

    /// The record of a node with children, and with no rank yet.
    pub fn node(
        kind: Kind,
        outer: BoxNumbers,
        inner: Option<BoxNumbers>,
        first: u16,
        second: u16,
        parent: Option<u16>,
    ) -> Record
        ensures value { result ≡ node_record kind outer inner first second parent }
    {
        Record {
            kind,
            outer,
            inner,
            first,
            second,
            parent,
            rank: UNRANKED,
        }
    }

    // A call for each field that changes, and no struct update where it is used, so that several changes of a record
    // stand in one chain.

    /// The record with another first child.
    pub fn with_first(self, first: u16) -> Record
        ensures value { result ≡ with_first self first }
    {
        Record { first, ..self }
    }

    /// The record with another second child.
    pub fn with_second(self, second: u16) -> Record
        ensures value { result ≡ with_second self second }
    {
        Record { second, ..self }
    }

    /// The record with another parent, or with none.
    pub fn with_parent(self, parent: Option<u16>) -> Record
        ensures value { result ≡ with_parent self parent }
    {
        Record { parent, ..self }
    }

    /// The record with another outer box.
    pub fn with_outer(self, outer: BoxNumbers) -> Record
        ensures value { result ≡ with_outer self outer }
    {
        Record { outer, ..self }
    }

    /// The record with another inner box, or with none.
    pub fn with_inner(self, inner: Option<BoxNumbers>) -> Record
        ensures value { result ≡ with_inner self inner }
    {
        Record { inner, ..self }
    }

    /// The record with another rank.
    pub fn with_rank(self, rank: Rank) -> Record
        ensures value { result ≡ with_rank self rank }
    {
        Record { rank, ..self }
    }

    /// Whether this rank comes before that of another record.
    #[tactic(auto, unfolding(quadtreap::specs::Rank::earlier))]
    pub fn ranks_before(self, other: Record) -> bool
        ensures value { result ≡ earlier self.rank other.rank }
    {
        self.rank < other.rank
    }

    /// What a leaf holds, as a box: the place of its reading, or its inner box.
    pub fn content(self) -> BoxNumbers
        ensures value { result ≡ content_numbers self }
    {
        let place = BoxNumbers {
            depth: 32,
            code: self.rank.code,
        };
        match self.kind {
            Kind::Reading => place,
            _ => self.inner.unwrap_or(place),
        }
    }
}
